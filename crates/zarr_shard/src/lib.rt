//! Sharded arrays: arrays whose chunks keep inner chunks, each of which is read alone; commands over a store on one,
//! and the program over a document of one.
//!
//! See <https://zarr-specs.readthedocs.io/en/latest/v3/codecs/sharding-indexed/index.html>.
#![tactic(auto)]

mod access;
mod array;
mod calls;
mod commands;
pub mod program;

pub use array::ShardArray;
pub use program::run_shard_program;
