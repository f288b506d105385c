//! Fill values from JSON values and back, and their copies.

ghost use Rattle.std.specs.Prelude.{◌≡◌, IfOk};
ghost use Rattle.serde_json.specs.View.{view, items_view, members_view};
ghost use Rattle.zarrs_metadata_values.specs.FillValueMetadata.{fill_view, fills_view, fields_view};

use crate::fill_value::FillValueMetadataV3;
use serde_json::{Map, Value};
use std::alloc::{AllocError, Global};
use std::collections::BTreeMap;

/// The fill value that a value is.
///
/// # Errors
/// [`AllocError`] where memory runs out.
#[cycle(fill)]
pub fn fill_from_value(alloc: Global, value: &Value) -> Result<FillValueMetadataV3, AllocError>
    ensures { IfOk result (λ f. fill_view f ≡ view value.now) }
{
    match value {
        Value::Null => Ok(FillValueMetadataV3::Null),
        Value::Bool(b) => Ok(FillValueMetadataV3::Bool(*b)),
        Value::Number(n) => Ok(FillValueMetadataV3::Number(*n)),
        Value::String(text) => Ok(FillValueMetadataV3::String(text.clone()?)),
        Value::Array(items) => Ok(FillValueMetadataV3::Array(fills_from_items(alloc, items)?)),
        Value::Object(members) => Ok(FillValueMetadataV3::Object(fills_from_members(
            alloc, members,
        )?)),
    }
}

#[cycle(fill)]
fn fills_from_items(
    alloc: Global,
    items: &Vec<Value>,
) -> Result<Vec<FillValueMetadataV3>, AllocError>
    ensures { IfOk result (λ v. fills_view v.items ≡ items_view items.now.items) }
{
    let mut fills = Vec::with_capacity(alloc, items.len())?;
    for item in items {
        fills.push(fill_from_value(alloc, item)?)?;
    }
    Ok(fills)
}

#[cycle(fill)]
fn fills_from_members(
    alloc: Global,
    members: &Map<String, Value>,
) -> Result<BTreeMap<String, FillValueMetadataV3>, AllocError>
    ensures { IfOk result (λ m. fields_view m.entries ≡ members_view members.now.entries) }
{
    let mut fills = BTreeMap::new(alloc);
    for (name, member) in members.iter() {
        let name = name.clone()?;
        drop(fills.insert(name, fill_from_value(alloc, member)?)?);
    }
    Ok(fills)
}

#[cycle(fill_back)]
pub(crate) fn fill_to_value(alloc: Global, fill: &FillValueMetadataV3) -> Result<Value, AllocError>
    ensures { IfOk result (λ v. view v ≡ fill_view fill.now) }
{
    match fill {
        FillValueMetadataV3::Null => Ok(Value::Null),
        FillValueMetadataV3::Bool(b) => Ok(Value::Bool(*b)),
        FillValueMetadataV3::Number(n) => Ok(Value::Number(*n)),
        FillValueMetadataV3::String(text) => Ok(Value::String(text.clone()?)),
        FillValueMetadataV3::Array(fills) => Ok(Value::Array(items_from_fills(alloc, fills)?)),
        FillValueMetadataV3::Object(fields) => Ok(Value::Object(members_from_fields(
            alloc, fields,
        )?)),
    }
}

#[cycle(fill_back)]
fn items_from_fills(
    alloc: Global,
    fills: &Vec<FillValueMetadataV3>,
) -> Result<Vec<Value>, AllocError>
    ensures { IfOk result (λ v. items_view v.items ≡ fills_view fills.now.items) }
{
    let mut items = Vec::with_capacity(alloc, fills.len())?;
    for fill in fills {
        items.push(fill_to_value(alloc, fill)?)?;
    }
    Ok(items)
}

#[cycle(fill_back)]
pub(crate) fn members_from_fields(
    alloc: Global,
    fields: &BTreeMap<String, FillValueMetadataV3>,
) -> Result<Map<String, Value>, AllocError>
    ensures { IfOk result (λ m. members_view m.entries ≡ fields_view fields.now.entries) }
{
    let mut members = Map::new(alloc);
    for (name, field) in fields.iter() {
        serde_json::put(
            &mut members,
            alloc,
            name.as_str(),
            fill_to_value(alloc, field)?,
        )?;
    }
    Ok(members)
}

/// A copy, by way of the value that it is.
pub(crate) fn copy_fill(
    alloc: Global,
    fill: &FillValueMetadataV3,
) -> Result<FillValueMetadataV3, AllocError>
    ensures { IfOk result (λ copy. fill_view copy ≡ fill_view fill.now) }
{
    let value = fill_to_value(alloc, fill)?;
    fill_from_value(alloc, &value)
}
