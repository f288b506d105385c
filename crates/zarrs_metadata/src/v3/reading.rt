//! Readers of version 3 documents. Floats were looked for before.

ghost use Rattle.serde_json.specs.View.{view, members_view};
ghost use Rattle.zarrs_metadata_values.specs.Reading.{Reads};
ghost use Rattle.zarrs_metadata.specs.ArrayMetadata.{array_seen, array_fields_of, array_members, required_fields};

use crate::v3::array::ArrayMetadataV3;
use crate::v3::named_parts::read_named_parts;
use crate::v3::optional_parts::{read_optional_parts, with_optional_parts};
use serde_json::{Map, Value};
use std::alloc::Global;
use std::collections::BTreeMap;
use zarrs_metadata_parts::MetadataError;
use zarrs_metadata_parts::fields::{
    expect_node_kind, required_fill_value, required_part, required_shape,
};
use zarrs_metadata_parts::json::read_object;

#[tactic(auto, unfolding(crate::specs::ArrayMetadata::required_fields))]
fn read_required_fields(
    alloc: Global,
    members: &Map<String, Value>,
) -> Result<ArrayMetadataV3, MetadataError>
    ensures { Reads array_seen result (required_fields (members_view members.now.entries)) }
{
    let shape = required_shape(alloc, members)?;
    let named = read_named_parts(alloc, members)?;
    let fill_value = required_fill_value(alloc, members)?;
    let codecs = required_part(alloc, members, "codecs")?;
    Ok(ArrayMetadataV3 {
        shape,
        data_type: named.data_type,
        chunk_grid: named.chunk_grid,
        chunk_key_encoding: named.chunk_key_encoding,
        fill_value,
        codecs,
        attributes: Map::new(alloc),
        storage_transformers: Vec::new(alloc),
        dimension_names: None,
        additional_fields: BTreeMap::new(alloc),
    })
}

#[tactic(auto, unfolding(crate::specs::ArrayMetadata::array_members))]
fn read_array_members(
    alloc: Global,
    members: &Map<String, Value>,
) -> Result<ArrayMetadataV3, MetadataError>
    ensures { Reads array_seen result (array_members (members_view members.now.entries)) }
{
    expect_node_kind(members, 3, "array")?;
    let metadata = read_required_fields(alloc, members)?;
    let optional = read_optional_parts(alloc, members)?;
    Ok(with_optional_parts(metadata, optional))
}

// The array document that a value is.
pub(crate) fn read_array(alloc: Global, value: &Value) -> Result<ArrayMetadataV3, MetadataError>
    ensures { Reads array_seen result (array_fields_of (view value.now)) }
{
    read_array_members(alloc, read_object(value)?)
}
