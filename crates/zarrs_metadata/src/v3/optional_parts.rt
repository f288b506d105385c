//! The parts that the document of an array may leave out.

ghost use Rattle.std.specs.Prelude.{◌≡◌, IfOk, option_map};
ghost use Rattle.serde_json.specs.View.{view, members_view};
ghost use Rattle.zarrs_metadata_parts.specs.MetadataV3.{extensions_seen};
ghost use Rattle.zarrs_metadata_values.specs.Reading.{Reads};
ghost use Rattle.zarrs_metadata.specs.ArrayMetadata.{array_seen, optional_seen, optional_fields, optional_part, with_optional, extensions_or_none};

use crate::v3::array::ArrayMetadataV3;
use serde_json::{Map, Value};
use std::alloc::{AllocError, Global};
use zarrs_metadata_parts::additional_fields::{
    NodeKind, copy_additional_fields, read_additional_fields,
};
use zarrs_metadata_parts::fields::optional_part;
use zarrs_metadata_parts::json::{copy_members, member, read_object_or_empty};
use zarrs_metadata_parts::{AdditionalFieldsV3, DimensionName, MetadataError, MetadataV3, Part};

/// The parts that the document of an array may leave out.
#[derive(Drop)]
pub struct OptionalParts {
    /// What users say about the array.
    pub attributes: Map<String, Value>,
    /// What stands between the array and its store.
    pub storage_transformers: Vec<MetadataV3>,
    /// The names of the dimensions, as many as the document lists.
    pub dimension_names: Option<Vec<DimensionName>>,
    /// All other fields of the document.
    pub additional_fields: AdditionalFieldsV3,
}

// The array with these parts in place of its own.
pub(crate) fn with_optional_parts(
    metadata: ArrayMetadataV3,
    optional: OptionalParts,
) -> ArrayMetadataV3
    ensures { array_seen result ≡ with_optional (array_seen metadata) (optional_seen optional) }
{
    ArrayMetadataV3 {
        attributes: optional.attributes,
        storage_transformers: optional.storage_transformers,
        dimension_names: optional.dimension_names,
        additional_fields: optional.additional_fields,
        ..metadata
    }
}

#[tactic(auto, unfolding(crate::specs::ArrayMetadata::optional_fields))]
pub(crate) fn read_optional_parts(
    alloc: Global,
    members: &Map<String, Value>,
) -> Result<OptionalParts, MetadataError>
    ensures { Reads optional_seen result (optional_fields (members_view members.now.entries)) }
{
    let attributes = read_object_or_empty(alloc, member(members, "attributes"))?;
    let storage_transformers = read_extensions_or_none(
        alloc,
        member(members, "storage_transformers"),
    )?;
    let dimension_names = optional_part(alloc, members, "dimension_names")?;
    let additional_fields = read_additional_fields(alloc, NodeKind::Array, members)?;
    Ok(OptionalParts {
        attributes,
        storage_transformers,
        dimension_names,
        additional_fields,
    })
}

// Copies of these parts of an array.
pub(crate) fn copy_optional_parts(
    alloc: Global,
    metadata: &ArrayMetadataV3,
) -> Result<OptionalParts, AllocError>
    ensures { IfOk result (λ o. optional_seen o ≡ optional_part (array_seen metadata.now)) }
{
    let attributes = copy_members(&metadata.attributes)?;
    let storage_transformers = metadata.storage_transformers.copy(alloc)?;
    let dimension_names = metadata.dimension_names.copy(alloc)?;
    let additional_fields = copy_additional_fields(alloc, &metadata.additional_fields)?;
    Ok(OptionalParts {
        attributes,
        storage_transformers,
        dimension_names,
        additional_fields,
    })
}

#[tactic(auto, unfolding(crate::specs::ArrayMetadata::extensions_or_none))]
fn read_extensions_or_none(
    alloc: Global,
    value: Option<&Value>,
) -> Result<Vec<MetadataV3>, MetadataError>
    ensures { Reads (λ v. extensions_seen v.items) result
        (extensions_or_none (option_map (λ v. view v.now) value.entry)) }
{
    match value {
        None => Ok(Vec::new(alloc)),
        Some(value) => Part::read(alloc, value),
    }
}
