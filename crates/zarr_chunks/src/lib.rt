//! Chunks under their keys in a store, through a chain of codecs.
//!
//! See <https://zarr-specs.readthedocs.io/en/latest/v3/core/index.html#chunk-encoding>.
#![tactic(auto)]

mod fetched;
mod fetching;
mod handle;
mod parts;
mod putting;
mod reading;
mod region;
mod updating;
mod value;

pub use fetched::Fetched;
pub use fetching::fetch;
pub use handle::ChainHandle;
pub use putting::put;
pub use reading::{fetch_region, read};
pub use updating::write;
