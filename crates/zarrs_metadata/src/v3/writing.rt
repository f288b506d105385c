//! Version 3 documents as values.

ghost use Rattle.std.specs.Prelude.{◌≡◌, option_map, IfOk, OnOk};
ghost use Rattle.serde_json.specs.View.{view, members_view};
ghost use Rattle.zarrs_metadata_parts.specs.DimensionNames.{dimension_names_seen};
ghost use Rattle.zarrs_metadata.specs.ArrayMetadata.{array_seen, array_data, put_names, optional_data, required_data};

use crate::v3::array::ArrayMetadataV3;
use serde_json::{Map, Value};
use std::alloc::{AllocError, Global};
use zarrs_metadata_parts::DimensionName;
use zarrs_metadata_parts::additional_fields::{NodeKind, put_fields};
use zarrs_metadata_parts::fields::{put_array, put_part, put_parts};
use zarrs_metadata_parts::writing::put_object;

fn put_names(
    alloc: Global,
    members: &mut Map<String, Value>,
    names: &Option<Vec<DimensionName>>,
) -> Result<(), AllocError>
    ensures { OnOk result (members_view members.new.entries
        ≡ put_names (option_map (λ v. dimension_names_seen v.items) names.now)
        (members_view members.old.entries)) }
{
    match names {
        None => Ok(()),
        Some(names) => put_part(alloc, members, "dimension_names", names),
    }
}

#[tactic(auto, unfolding(crate::specs::ArrayMetadata::optional_data))]
fn put_optional(
    alloc: Global,
    members: &mut Map<String, Value>,
    metadata: &ArrayMetadataV3,
) -> Result<(), AllocError>
    ensures { OnOk result (members_view members.new.entries
        ≡ optional_data (array_seen metadata.now) (members_view members.old.entries)) }
{
    put_names(alloc, members, &metadata.dimension_names)?;
    put_parts(
        alloc,
        members,
        "storage_transformers",
        &metadata.storage_transformers,
    )?;
    put_object(alloc, members, "attributes", &metadata.attributes)
}

#[tactic(auto, unfolding(crate::specs::ArrayMetadata::required_data))]
fn put_required(
    alloc: Global,
    members: &mut Map<String, Value>,
    metadata: &ArrayMetadataV3,
) -> Result<(), AllocError>
    ensures { OnOk result (members_view members.new.entries
        ≡ required_data (array_seen metadata.now) (members_view members.old.entries)) }
{
    put_part(alloc, members, "codecs", &metadata.codecs)?;
    put_part(
        alloc,
        members,
        "chunk_key_encoding",
        &metadata.chunk_key_encoding,
    )?;
    put_part(alloc, members, "chunk_grid", &metadata.chunk_grid)?;
    put_part(alloc, members, "data_type", &metadata.data_type)?;
    put_array(alloc, members, 3, &metadata.shape, &metadata.fill_value)
}

// The value that is an array's document.
pub(crate) fn array_to_value(alloc: Global, metadata: &ArrayMetadataV3) -> Result<Value, AllocError>
    ensures { IfOk result (λ v. view v ≡ array_data (array_seen metadata.now)) }
{
    let mut members = Map::new(alloc);
    put_fields(
        alloc,
        NodeKind::Array,
        &mut members,
        &metadata.additional_fields,
    )?;
    put_optional(alloc, &mut members, metadata)?;
    put_required(alloc, &mut members, metadata)?;
    Ok(Value::Object(members))
}
