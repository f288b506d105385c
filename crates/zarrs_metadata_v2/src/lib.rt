//! The metadata documents of version 2 arrays and groups, as JSON.
//!
//! See <https://zarr-specs.readthedocs.io/en/latest/v2/v2.0.html#metadata>. Their codecs and data types come from the
//! crate `zarrs_metadata_parts`. A value that holds a number which is neither a `u64` nor an `i64` is refused
//! throughout.
#![tactic(auto)]

mod array;
mod codecs;
mod endianness;
mod group;
pub mod laws;
mod node;
pub mod reading;

pub use array::ArrayMetadataV2;
pub use array::order::ArrayMetadataV2Order;
pub use endianness::data_type_metadata_v2_to_endianness;
pub use group::GroupMetadataV2;
pub use node::NodeMetadataV2;
