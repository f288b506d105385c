//! What the metadata documents of Zarr are made of: named extensions, additional fields, dimension names, the fields of
//! documents of either version, and the codecs and data types of version 2; each is read from JSON and written as JSON.
//! A value that holds a number which is neither a `u64` nor an `i64` is refused throughout.
//!
//! Configurations, fill values, errors and the values of JSON come from the crate `zarrs_metadata_values` and are
//! passed on here.
//!
//! See <https://zarr-specs.readthedocs.io/en/latest/v3/core/index.html#array-metadata>.
#![tactic(auto)]

mod array;
mod data_type_v2;
pub mod fields;
pub mod laws;
pub mod laws_v2;
pub mod making;
mod metadata_v2;
pub mod part;
pub mod reading;
mod v3;
pub mod writing;

pub use array::chunk_key_separator::ChunkKeySeparator;
pub use array::{DimensionName, IntoDimensionName};
pub use data_type_v2::{
    DataTypeMetadataV2, DataTypeMetadataV2EndiannessError, DataTypeMetadataV2Structured,
};
pub use metadata_v2::MetadataV2;
pub use part::Part;
pub use v3::additional_field::{AdditionalFieldV3, AdditionalFieldsV3};
pub use v3::additional_fields;
pub use v3::metadata::MetadataV3;
pub use zarr_model::{ArrayShape, ChunkShape, DataTypeSize, Endianness};
pub use zarrs_metadata_values::{
    Configuration, ConfigurationError, EmptyConfiguration, FillValueMetadataV3, FromConfiguration,
    FromConfigurationError, MetadataError, ToConfiguration, ToConfigurationFault, json,
};

/// The fill value of either version.
pub type FillValueMetadata = FillValueMetadataV3;

/// The fill value of a version 2 array.
pub type FillValueMetadataV2 = FillValueMetadataV3;
