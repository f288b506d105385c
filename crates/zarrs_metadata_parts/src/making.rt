//! What makers of extensions begin with: the configuration that an extension must have, and the error of one that is
//! not of the form.

ghost use Rattle.std.specs.Prelude.{◌≡◌};
ghost use Rattle.zarrs_metadata_values.specs.Configuration.{configuration_seen};
ghost use Rattle.zarrs_metadata_values.specs.Reading.{Reads};
ghost use Rattle.zarrs_metadata_parts.specs.Making.{unmade_as};
ghost use Rattle.zarrs_metadata_parts.specs.MetadataV3.{extension_seen};

use crate::v3::metadata::MetadataV3;
use zarrs_metadata_values::{Configuration, MetadataError};
use zarrs_plugin::PluginCreateError;

/// The configuration of an extension that must have one.
///
/// # Errors
/// `InvalidMetadata` exactly where there is none.
pub fn configured(metadata: &MetadataV3) -> Result<&Configuration, MetadataError>
    ensures { Reads (λ c. configuration_seen c.now) result
        (extension_seen metadata.now).configuration }
{
    match metadata.configuration() {
        Some(configuration) => Ok(configuration),
        None => Err(MetadataError::InvalidMetadata),
    }
}

/// The error of a configuration that is not read.
pub fn unmade(error: MetadataError) -> PluginCreateError
    ensures { result ≡ unmade_as error }
{
    match error {
        MetadataError::OutOfMemory => PluginCreateError::OutOfMemory,
        _ => PluginCreateError::Config,
    }
}
