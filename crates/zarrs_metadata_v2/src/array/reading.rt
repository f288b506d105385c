//! Readers of version 2 array documents. Floats were looked for before.

ghost use Rattle.serde_json.specs.View.{view, members_view};
ghost use Rattle.zarrs_metadata_values.specs.Reading.{Reads};
ghost use Rattle.zarrs_metadata_v2.specs.ArrayMetadataV2.{array_v2_seen, array_v2_of, array_v2_members, required_v2};

use crate::array::ArrayMetadataV2;
use crate::array::optional_parts::{read_optional_parts, with_optional_parts};
use crate::array::order::order_of;
use serde_json::{Map, Value};
use std::alloc::Global;
use zarrs_metadata_parts::ChunkKeySeparator;
use zarrs_metadata_parts::fields::{required_fill_value, required_part, required_shape};
use zarrs_metadata_values::MetadataError;
use zarrs_metadata_values::json::{expect_number, read_object, read_text, required};

#[tactic(auto, unfolding(crate::specs::ArrayMetadataV2::required_v2))]
fn read_required_fields(
    alloc: Global,
    members: &Map<String, Value>,
) -> Result<ArrayMetadataV2, MetadataError>
    ensures { Reads array_v2_seen result (required_v2 (members_view members.now.entries)) }
{
    let order = order_of(read_text(required(members, "order")?)?)?;
    let shape = required_shape(alloc, members)?;
    let chunks = required_part(alloc, members, "chunks")?;
    let dtype = required_part(alloc, members, "dtype")?;
    let fill_value = required_fill_value(alloc, members)?;
    Ok(ArrayMetadataV2 {
        shape,
        chunks,
        dtype,
        compressor: None,
        fill_value,
        order,
        filters: None,
        dimension_separator: ChunkKeySeparator::Dot,
        attributes: Map::new(alloc),
    })
}

#[tactic(auto, unfolding(crate::specs::ArrayMetadataV2::array_v2_members))]
fn read_array_members(
    alloc: Global,
    members: &Map<String, Value>,
) -> Result<ArrayMetadataV2, MetadataError>
    ensures { Reads array_v2_seen result (array_v2_members (members_view members.now.entries)) }
{
    expect_number(required(members, "zarr_format")?, 2)?;
    let metadata = read_required_fields(alloc, members)?;
    let optional = read_optional_parts(alloc, members)?;
    Ok(with_optional_parts(metadata, optional))
}

/// The version 2 array document that a value is.
///
/// # Errors
/// `InvalidMetadata` exactly where it is none. Floats were looked for before.
pub fn read_array_v2(alloc: Global, value: &Value) -> Result<ArrayMetadataV2, MetadataError>
    ensures { Reads array_v2_seen result (array_v2_of (view value.now)) }
{
    read_array_members(alloc, read_object(value)?)
}
