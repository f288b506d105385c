//! The codecs of the index of a shard.

ghost use Rattle.std.specs.Prelude.{◌≡◌, bytes_eq};
ghost use Rattle.zarrs_codec_traits.specs.Prelude.{Reads, extension_seen, extensions_seen};
ghost use Rattle.zarr_array_open.specs.Sharding.{little_bytes, is_crc32c, checked_by, expect};

use zarrs_metadata_parts::json::expect_text;
use zarrs_metadata_parts::making::configured;
use zarrs_metadata_parts::{MetadataError, MetadataV3};
use zarrs_metadata_values::configuration::only_member;

// That an extension has this name.
fn expect_name(metadata: &MetadataV3, name: &str) -> Result<(), MetadataError>
    ensures { Reads (λ _. tt) result
        (expect (bytes_eq (extension_seen metadata.now).name name.now)) }
{
    if metadata.name() == name {
        Ok(())
    } else {
        Err(MetadataError::InvalidMetadata)
    }
}

// That an extension is `bytes` with the lowest byte first.
#[tactic(auto, unfolding(crate::specs::Sharding::little_bytes))]
fn expect_little_bytes(metadata: &MetadataV3) -> Result<(), MetadataError>
    ensures { Reads (λ _. tt) result (little_bytes (extension_seen metadata.now)) }
{
    expect_name(metadata, "bytes")?;
    let order = only_member(configured(metadata)?, "endian")?;
    expect_text(order, "little")
}

// Whether an extension is `crc32c`, with no configuration or an empty one.
fn is_crc32c(metadata: &MetadataV3) -> bool
    ensures { result ≡ is_crc32c (extension_seen metadata.now) }
{
    metadata.name() == "crc32c" && metadata.configuration_is_none_or_empty()
}

/// Whether the codecs of an index put a CRC-32C behind its numbers, which have the lowest byte first.
///
/// # Errors
/// `InvalidMetadata` exactly where they are others.
#[tactic(auto, unfolding(crate::specs::Sharding::checked_by))]
pub(crate) fn read_checked(codecs: &[MetadataV3]) -> Result<bool, MetadataError>
    ensures { Reads (λ checked. checked) result (checked_by (extensions_seen codecs.now)) }
{
    match codecs {
        [bytes] => {
            expect_little_bytes(bytes)?;
            Ok(false)
        }
        [bytes, checksum] => {
            expect_little_bytes(bytes)?;
            if is_crc32c(checksum) {
                Ok(true)
            } else {
                Err(MetadataError::InvalidMetadata)
            }
        }
        _ => Err(MetadataError::InvalidMetadata),
    }
}
