//! The filters of version 2 arrays. An empty list of them stands for none.

ghost use Rattle.std.specs.Prelude.{◌≡◌, IfOk, Some, option_map};
ghost use Rattle.serde_json.specs.View.{view};
ghost use Rattle.zarrs_metadata_v2.specs.CodecsV2.{codecs_v2_seen, unless_empty, present_filters, filters_data};

use serde_json::Value;
use std::alloc::{AllocError, Global};
use zarrs_metadata_parts::MetadataV2;
use zarrs_metadata_parts::part::list_value;

// The codecs, if there are any.
fn unless_empty(codecs: Vec<MetadataV2>) -> Option<Vec<MetadataV2>>
    ensures { option_map (λ v. codecs_v2_seen v.items) result
        ≡ unless_empty (codecs_v2_seen codecs.items) }
{
    match codecs.as_slice() {
        [] => None,
        [_first, _rest @ ..] => Some(codecs),
    }
}

// The filters, if there are any.
pub(crate) fn present_filters(filters: Option<Vec<MetadataV2>>) -> Option<Vec<MetadataV2>>
    ensures { option_map (λ v. codecs_v2_seen v.items) result
        ≡ present_filters (option_map (λ v. codecs_v2_seen v.items) filters) }
{
    match filters {
        Some(filters) => unless_empty(filters),
        None => None,
    }
}

// The value that says filters: null where there are none.
pub(crate) fn filters_value(
    alloc: Global,
    filters: &Option<Vec<MetadataV2>>,
) -> Result<Value, AllocError>
    ensures { IfOk result (λ v. view v
        ≡ filters_data (option_map (λ v. codecs_v2_seen v.items) filters.now)) }
{
    match filters {
        None => Ok(Value::Null),
        Some(codecs) => codecs_value(alloc, codecs.as_slice()),
    }
}

fn codecs_value(alloc: Global, codecs: &[MetadataV2]) -> Result<Value, AllocError>
    ensures { IfOk result (λ v. view v ≡ filters_data (Some (codecs_v2_seen codecs.now))) }
{
    match codecs {
        [] => Ok(Value::Null),
        [_first, _rest @ ..] => list_value(alloc, codecs),
    }
}
