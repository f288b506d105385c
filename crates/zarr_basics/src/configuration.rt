//! Readers of the configurations of keys. Each refuses, as `InvalidMetadata`, exactly a configuration that is
//! not of its form.

ghost use Rattle.zarrs_metadata_parts.specs.MetadataV3.{extension_seen};
ghost use Rattle.zarrs_metadata_parts.specs.Names.{separator_code};
ghost use Rattle.zarrs_metadata_values.specs.Reading.{Reads};
ghost use Rattle.zarr_basics.specs.Configurations.{separator_named, given_separator, separator_in};

use zarrs_metadata_parts::json::read_text;
use zarrs_metadata_parts::making::configured;
use zarrs_metadata_parts::{ChunkKeySeparator, MetadataError, MetadataV3};
use zarrs_metadata_values::configuration::only_member;

fn separator_named(text: &str) -> Result<ChunkKeySeparator, MetadataError>
    ensures { Reads separator_code result (separator_named text.now) }
{
    match text {
        "/" => Ok(ChunkKeySeparator::Slash),
        "." => Ok(ChunkKeySeparator::Dot),
        _ => Err(MetadataError::InvalidMetadata),
    }
}

#[tactic(auto, unfolding(crate::specs::Configurations::given_separator))]
fn given_separator(metadata: &MetadataV3) -> Result<ChunkKeySeparator, MetadataError>
    ensures { Reads separator_code result
        (given_separator (extension_seen metadata.now).configuration) }
{
    let value = only_member(configured(metadata)?, "separator")?;
    separator_named(read_text(value)?)
}

/// The separator of chunk keys: the one that the configuration names, else this one.
///
/// # Errors
/// `InvalidMetadata` exactly where there is a configuration, and it is neither empty nor exactly a `separator` that is
/// `/` or `.`.
pub fn read_separator(
    metadata: &MetadataV3,
    separator: ChunkKeySeparator,
) -> Result<ChunkKeySeparator, MetadataError>
    ensures { Reads separator_code result
        (separator_in (separator_code separator) (extension_seen metadata.now).configuration) }
{
    if metadata.configuration_is_none_or_empty() {
        Ok(separator)
    } else {
        given_separator(metadata)
    }
}
