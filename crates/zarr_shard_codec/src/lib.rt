//! Sharded chunks: what a value decodes to that holds inner chunks and an index of them, and its encoding.
//!
//! See <https://zarr-specs.readthedocs.io/en/latest/v3/codecs/index.html>.
#![tactic(auto)]

mod encoding;
mod fetch;
mod index;
mod inner;
mod inner_chunks;
mod inner_fetched;
mod laws;
mod making;
mod met_inner;
mod pair;
mod read_region;
mod serving;
mod shard_codec;
mod traits;
mod values;
mod whole;
mod writing;

pub use laws::{counted, element_is_inner, selects_inner};
pub use read_region::{selects_region, whole_is_all};
pub use shard_codec::ShardCodec;
