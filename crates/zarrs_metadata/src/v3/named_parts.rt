//! The parts of an array that are one extension each.

ghost use Rattle.std.specs.Prelude.{◌≡◌, IfOk};
ghost use Rattle.serde_json.specs.View.{members_view};
ghost use Rattle.zarrs_metadata_values.specs.Reading.{Reads};
ghost use Rattle.zarrs_metadata.specs.ArrayMetadata.{array_seen, named_seen, named_fields};

use crate::v3::array::ArrayMetadataV3;
use serde_json::{Map, Value};
use std::alloc::{AllocError, Global};
use zarrs_metadata_parts::fields::required_part;
use zarrs_metadata_parts::{MetadataError, MetadataV3};

/// The parts of an array that are one extension each.
#[derive(Drop)]
pub struct NamedParts {
    /// The data type of the elements.
    pub data_type: MetadataV3,
    /// How the array is parted into chunks.
    pub chunk_grid: MetadataV3,
    /// Under which key a chunk is stored.
    pub chunk_key_encoding: MetadataV3,
}

#[tactic(auto, unfolding(crate::specs::ArrayMetadata::named_fields))]
pub(crate) fn read_named_parts(
    alloc: Global,
    members: &Map<String, Value>,
) -> Result<NamedParts, MetadataError>
    ensures { Reads named_seen result (named_fields (members_view members.now.entries)) }
{
    let data_type = required_part(alloc, members, "data_type")?;
    let chunk_grid = required_part(alloc, members, "chunk_grid")?;
    let chunk_key_encoding = required_part(alloc, members, "chunk_key_encoding")?;
    Ok(NamedParts {
        data_type,
        chunk_grid,
        chunk_key_encoding,
    })
}

pub(crate) fn copy_named_parts(
    alloc: Global,
    metadata: &ArrayMetadataV3,
) -> Result<NamedParts, AllocError>
    ensures { IfOk result (λ n. named_seen n ≡ record {
      data_type = (array_seen metadata.now).data_type;
      chunk_grid = (array_seen metadata.now).chunk_grid;
      chunk_key_encoding = (array_seen metadata.now).chunk_key_encoding;
    }) }
{
    Ok(NamedParts {
        data_type: metadata.data_type.try_clone(alloc)?,
        chunk_grid: metadata.chunk_grid.try_clone(alloc)?,
        chunk_key_encoding: metadata.chunk_key_encoding.try_clone(alloc)?,
    })
}
