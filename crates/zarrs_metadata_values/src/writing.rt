//! Values that documents are written with.

ghost use Rattle.std.specs.Prelude.{◌≡◌, IfOk, OnOk};
ghost use Rattle.serde_json.specs.Data.{string, put};
ghost use Rattle.serde_json.specs.View.{view, members_view};
ghost use Rattle.zarrs_metadata_values.specs.Writing.{numbers_data, put_object};

use crate::json::copy_members;
use serde_json::{Map, Value};
use std::alloc::{AllocError, Global};

/// The list of these numbers.
///
/// # Errors
/// [`AllocError`] where memory runs out.
pub fn numbers_value(alloc: Global, numbers: &[u64]) -> Result<Value, AllocError>
    ensures { IfOk result (λ v. view v ≡ numbers_data numbers.now) }
{
    let mut items = Vec::with_capacity(alloc, numbers.len())?;
    for number in numbers {
        items.push(Value::from(*number))?;
    }
    Ok(Value::Array(items))
}

/// Puts a text under the key.
///
/// # Errors
/// [`AllocError`] where memory runs out.
pub fn put_text(
    alloc: Global,
    members: &mut Map<String, Value>,
    key: &str,
    text: &str,
) -> Result<(), AllocError>
    ensures { OnOk result (members_view members.new.entries
        ≡ put key.now (string text.now) (members_view members.old.entries)) }
{
    let text = Value::try_from_str(alloc, text)?;
    serde_json::put(members, alloc, key, text)
}

/// Puts a copy of the members under the key, unless there are none.
///
/// # Errors
/// [`AllocError`] where memory runs out.
pub fn put_object(
    alloc: Global,
    members: &mut Map<String, Value>,
    key: &str,
    value: &Map<String, Value>,
) -> Result<(), AllocError>
    ensures { OnOk result (members_view members.new.entries
        ≡ put_object key.now (members_view value.now.entries) (members_view members.old.entries)) }
{
    if value.iter().next().is_some() {
        serde_json::put(members, alloc, key, Value::Object(copy_members(value)?))?;
    }
    Ok(())
}
