//! Whether a JSON value holds a float; the keys of the objects of one that holds none rise.

ghost use Rattle.std.specs.Prelude.{◌≡◌, false};
ghost use Rattle.serde_json.specs.View.{view, items_view, members_view};
ghost use Rattle.serde_json.specs.Written.{has_float, items_have_float, members_have_float};
ghost use Rattle.zarrs_metadata_values.specs.Rising.{Rises, ItemsRise, MembersRise};

use serde_json::{Map, Value};

// Whether a float stands anywhere in the value. Where none does, all of it was seen, and so the keys of each object in
// it rise, as those of a map do.
#[cycle(floats)]
pub(crate) fn holds_float(value: &Value) -> bool
    ensures found { result ≡ has_float (view value.now) }
    ensures rises { result ≡ false → Rises (view value.now) }
{
    match value {
        Value::Null => false,
        Value::Bool(_) => false,
        Value::Number(n) => n.is_f64(),
        Value::String(_) => false,
        Value::Array(items) => items_hold_float(items),
        Value::Object(members) => members_hold_float(members),
    }
}

#[cycle(floats)]
fn items_hold_float(items: &Vec<Value>) -> bool
    ensures found { result ≡ items_have_float (items_view items.now.items) }
    ensures rises { result ≡ false → ItemsRise (items_view items.now.items) }
{
    for item in items {
        if holds_float(item) {
            return true;
        }
    }
    false
}

#[cycle(floats)]
fn members_hold_float(members: &Map<String, Value>) -> bool
    ensures found { result ≡ members_have_float (members_view members.now.entries) }
    ensures rises { result ≡ false → MembersRise (members_view members.now.entries) }
{
    for (_name, member) in members.iter() {
        if holds_float(member) {
            return true;
        }
    }
    false
}
