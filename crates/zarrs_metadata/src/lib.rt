//! The metadata documents of Zarr arrays and groups, as JSON.
//!
//! See <https://zarr-specs.readthedocs.io/en/latest/specs.html>. The documents of version 3 and of either version stand
//! here. Those of version 2 come from the crate `zarrs_metadata_v2`, and what documents are made of from
//! `zarrs_metadata_values` and `zarrs_metadata_parts`; all of it is passed on here.
#![tactic(auto)]

mod array;
mod group;
pub mod laws;
mod node;
mod v3;

pub use array::ArrayMetadata;
pub use group::GroupMetadata;
pub use node::NodeMetadata;
pub use v3::array::ArrayMetadataV3;
pub use v3::group::GroupMetadataV3;
pub use v3::node::NodeMetadataV3;
pub use zarrs_metadata_parts::{
    AdditionalFieldV3, AdditionalFieldsV3, ArrayShape, ChunkKeySeparator, ChunkShape,
    Configuration, ConfigurationError, DataTypeMetadataV2, DataTypeMetadataV2EndiannessError,
    DataTypeMetadataV2Structured, DataTypeSize, DimensionName, EmptyConfiguration, Endianness,
    FillValueMetadata, FillValueMetadataV2, FillValueMetadataV3, FromConfiguration,
    FromConfigurationError, IntoDimensionName, MetadataError, MetadataV2, MetadataV3,
    ToConfiguration, ToConfigurationFault,
};
pub use zarrs_metadata_v2::{
    ArrayMetadataV2, ArrayMetadataV2Order, GroupMetadataV2, NodeMetadataV2,
    data_type_metadata_v2_to_endianness,
};
