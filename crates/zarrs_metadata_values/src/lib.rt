//! The values of metadata documents: fields of JSON objects and the small values in them, configurations of extensions
//! with the types that stand for them, and fill values, read and written, with the errors of reading.
//!
//! A value that holds a number which is neither a `u64` nor an `i64` is refused throughout.
#![tactic(auto)]

pub mod configuration;
mod error;
pub mod fill_value;
mod floats;
pub mod json;
pub mod reading;
pub mod writing;

pub use configuration::{
    Configuration, ConfigurationError, EmptyConfiguration, FromConfiguration, ToConfiguration,
    ToConfigurationFault,
};
pub use error::{FromConfigurationError, MetadataError};
pub use fill_value::FillValueMetadataV3;
