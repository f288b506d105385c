//! Version 2 array documents as values.

ghost use Rattle.std.specs.Prelude.{◌≡◌, IfOk, OnOk};
ghost use Rattle.serde_json.specs.View.{view, members_view};
ghost use Rattle.zarrs_metadata_v2.specs.ArrayMetadataV2.{array_v2_seen, array_v2_data, optional_data_v2, required_data_v2};

use crate::array::ArrayMetadataV2;
use crate::array::order::order_text;
use crate::codecs::filters_value;
use serde_json::{Map, Value};
use std::alloc::{AllocError, Global};
use zarrs_metadata_parts::fields::{put_array, put_part};
use zarrs_metadata_values::writing::{put_object, put_text};

#[tactic(auto, unfolding(crate::specs::ArrayMetadataV2::optional_data_v2))]
fn put_optional(
    alloc: Global,
    members: &mut Map<String, Value>,
    metadata: &ArrayMetadataV2,
) -> Result<(), AllocError>
    ensures { OnOk result (members_view members.new.entries
        ≡ optional_data_v2 (array_v2_seen metadata.now) (members_view members.old.entries)) }
{
    let separator = metadata.dimension_separator.as_str();
    put_text(alloc, members, "dimension_separator", separator)?;
    let filters = filters_value(alloc, &metadata.filters)?;
    serde_json::put(members, alloc, "filters", filters)?;
    put_part(alloc, members, "compressor", &metadata.compressor)?;
    put_object(alloc, members, "attributes", &metadata.attributes)
}

#[tactic(auto, unfolding(crate::specs::ArrayMetadataV2::required_data_v2))]
fn put_required(
    alloc: Global,
    members: &mut Map<String, Value>,
    metadata: &ArrayMetadataV2,
) -> Result<(), AllocError>
    ensures { OnOk result (members_view members.new.entries
        ≡ required_data_v2 (array_v2_seen metadata.now) (members_view members.old.entries)) }
{
    put_text(alloc, members, "order", order_text(metadata.order))?;
    put_part(alloc, members, "dtype", &metadata.dtype)?;
    put_part(alloc, members, "chunks", &metadata.chunks)?;
    put_array(alloc, members, 2, &metadata.shape, &metadata.fill_value)
}

// The value that is an array's document.
pub(crate) fn array_to_value(alloc: Global, metadata: &ArrayMetadataV2) -> Result<Value, AllocError>
    ensures { IfOk result (λ v. view v ≡ array_v2_data (array_v2_seen metadata.now)) }
{
    let mut members = Map::new(alloc);
    put_optional(alloc, &mut members, metadata)?;
    put_required(alloc, &mut members, metadata)?;
    Ok(Value::Object(members))
}
