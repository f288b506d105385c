//! The parts that the document of an array may leave out.

ghost use Rattle.std.specs.Prelude.{◌≡◌, IfOk, option_map};
ghost use Rattle.serde_json.specs.View.{view, members_view};
ghost use Rattle.zarrs_metadata_values.specs.Reading.{Reads};
ghost use Rattle.zarrs_metadata_v2.specs.ArrayMetadataV2.{array_v2_seen, optional_v2_seen, optional_v2, optional_part_v2, with_optional_v2, dimension_separator_of, separator_of_text};

use crate::array::ArrayMetadataV2;
use crate::codecs::present_filters;
use serde_json::{Map, Value};
use std::alloc::{AllocError, Global};
use zarrs_metadata_parts::fields::optional_part;
use zarrs_metadata_parts::{ChunkKeySeparator, MetadataV2, Part};
use zarrs_metadata_values::MetadataError;
use zarrs_metadata_values::json::{copy_members, member, read_object_or_empty, read_text};

/// The parts that the document of an array may leave out.
#[derive(Drop)]
pub struct OptionalPartsV2 {
    /// The codec that compresses a chunk, if there is one.
    pub compressor: Option<MetadataV2>,
    /// The codecs that a chunk passes through before it is compressed.
    pub filters: Option<Vec<MetadataV2>>,
    /// What stands between the indices of a chunk's key.
    pub dimension_separator: ChunkKeySeparator,
    /// What users say about the array.
    pub attributes: Map<String, Value>,
}

#[tactic(auto, unfolding(crate::specs::ArrayMetadataV2::separator_of_text))]
fn separator_of_text(text: &str) -> Result<ChunkKeySeparator, MetadataError>
    ensures { Reads (λ s. s) result (separator_of_text text.now) }
{
    match text {
        "." => Ok(ChunkKeySeparator::Dot),
        "/" => Ok(ChunkKeySeparator::Slash),
        _ => Err(MetadataError::InvalidMetadata),
    }
}

// The separator that a value says, a dot where there is no value.
fn read_dimension_separator(value: Option<&Value>) -> Result<ChunkKeySeparator, MetadataError>
    ensures { Reads (λ s. s) result
        (dimension_separator_of (option_map (λ v. view v.now) value.entry)) }
{
    match value {
        None => Ok(ChunkKeySeparator::Dot),
        Some(value) => separator_of_text(read_text(value)?),
    }
}

#[tactic(auto, unfolding(crate::specs::ArrayMetadataV2::optional_v2))]
pub(crate) fn read_optional_parts(
    alloc: Global,
    members: &Map<String, Value>,
) -> Result<OptionalPartsV2, MetadataError>
    ensures { Reads optional_v2_seen result (optional_v2 (members_view members.now.entries)) }
{
    let dimension_separator = read_dimension_separator(member(members, "dimension_separator"))?;
    let compressor = optional_part(alloc, members, "compressor")?;
    let filters = present_filters(optional_part(alloc, members, "filters")?);
    let attributes = read_object_or_empty(alloc, member(members, "attributes"))?;
    Ok(OptionalPartsV2 {
        compressor,
        filters,
        dimension_separator,
        attributes,
    })
}

// The array with these parts in place of its own.
pub(crate) fn with_optional_parts(
    metadata: ArrayMetadataV2,
    optional: OptionalPartsV2,
) -> ArrayMetadataV2
    ensures { array_v2_seen result
        ≡ with_optional_v2 (array_v2_seen metadata) (optional_v2_seen optional) }
{
    ArrayMetadataV2 {
        compressor: optional.compressor,
        filters: optional.filters,
        dimension_separator: optional.dimension_separator,
        attributes: optional.attributes,
        ..metadata
    }
}

// Copies of these parts of an array.
pub(crate) fn copy_optional_parts(
    alloc: Global,
    metadata: &ArrayMetadataV2,
) -> Result<OptionalPartsV2, AllocError>
    ensures { IfOk result (λ o. optional_v2_seen o
        ≡ optional_part_v2 (array_v2_seen metadata.now)) }
{
    let compressor = metadata.compressor.copy(alloc)?;
    let filters = metadata.filters.copy(alloc)?;
    let attributes = copy_members(&metadata.attributes)?;
    Ok(OptionalPartsV2 {
        compressor,
        filters,
        dimension_separator: metadata.dimension_separator,
        attributes,
    })
}
