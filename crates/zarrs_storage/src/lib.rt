//! Stores of values under keys, sources of bytes and sinks for them: the traits, and one of each in memory.
//!
//! See <https://zarr-specs.readthedocs.io/en/latest/v3/core/index.html#stores>.
#![tactic(auto)]

mod byte_range;
pub mod counts;
mod failing_store;
mod memory_store;
mod parts;
mod sink;
mod source;
mod store;
mod store_key;

pub use byte_range::{
    ByteRange, ByteRangeFault, InvalidByteRangeError, OffsetBytes, extract_byte_ranges,
    extract_byte_ranges_concat, shift_byte_ranges,
};
pub use failing_store::FailingStore;
pub use memory_store::MemoryStore;
pub use parts::put_parts;
pub use sink::{MemorySink, Sink, WriteSink};
pub use source::{IoFailed, MemorySource, ReadSource, Source};
pub use store::{StorageError, Store};
pub use store_key::{StoreKey, StoreKeyError};
