//! Elements in memory, as slices: copies of what two boxes of an array share, fill values, and elements that are picked
//! and replaced.
//!
//! See <https://zarr-specs.readthedocs.io/en/latest/v3/core/index.html#fill-value>.
#![tactic(auto)]

pub mod fill;
pub mod fill_box;
pub mod laws;
pub mod overlap;
pub mod pick_runs;
pub mod picks;
pub mod piece_runs;
pub mod pieces;
pub mod rows;
mod runs;
pub mod value_runs;
pub mod values;
