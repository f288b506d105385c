//! Fields of JSON objects, and the small values that stand in them.

ghost use Rattle.std.specs.Prelude.{◌≡◌, option_map, IfOk};
ghost use Rattle.std.specs.Int.NonZero.{non_zero_u64_get};
ghost use Rattle.serde_json.specs.Find.{get_member, as_str, as_array, as_object};
ghost use Rattle.serde_json.specs.View.{view, items_view, members_view};
ghost use Rattle.zarrs_metadata_values.specs.Reading.{Reads, boolean_or, optional_object, object_or_empty, whole_number, whole_numbers, positive_number, is_number, is_text, without, each};

use crate::error::MetadataError;
use serde_json::{Map, Value};
use std::alloc::{AllocError, Global};
use std::num::NonZeroU64;

/// The value under a name.
pub fn member<'a>(members: &'a Map<String, Value>, name: &str) -> Option<&'a Value>
    ensures { option_map (λ v. view v.now) result
        ≡ get_member name.now (members_view members.now.entries) }
{
    members.get(name)
}

/// The value under a name that must be there.
///
/// # Errors
/// `InvalidMetadata` exactly where there is none.
pub fn required<'a>(members: &'a Map<String, Value>, name: &str) -> Result<&'a Value, MetadataError>
    ensures { Reads (λ v. view v.now) result
        (get_member name.now (members_view members.now.entries)) }
{
    match member(members, name) {
        Some(value) => Ok(value),
        None => Err(MetadataError::InvalidMetadata),
    }
}

/// A copy of a map is the same tree.
///
/// # Errors
/// [`AllocError`] where memory runs out.
pub fn copy_members(members: &Map<String, Value>) -> Result<Map<String, Value>, AllocError>
    ensures { IfOk result (λ m. members_view m.entries ≡ members_view members.now.entries) }
{
    let copy = members.clone()?;
    Ok(copy)
}

/// A copy of a value is the same tree.
///
/// # Errors
/// [`AllocError`] where memory runs out.
pub fn copy_value(value: &Value) -> Result<Value, AllocError>
    ensures { IfOk result (λ v. view v ≡ view value.now) }
{
    let copy = value.clone()?;
    Ok(copy)
}

/// Takes a member out of a map, and gives its value.
pub fn take_member(map: &mut Map<String, Value>, name: &str) -> Option<Value>
    ensures rest { members_view map.new.entries ≡ without name.now (members_view map.old.entries) }
    ensures value { option_map view result ≡ get_member name.now (members_view map.old.entries) }
{
    map.remove(name)
}

/// The text that a value is.
///
/// # Errors
/// `InvalidMetadata` exactly where it is none.
pub fn read_text(value: &Value) -> Result<&str, MetadataError>
    ensures { Reads (λ s. s.now) result (as_str (view value.now)) }
{
    match value {
        Value::String(text) => Ok(text.as_str()),
        _ => Err(MetadataError::InvalidMetadata),
    }
}

/// The items of the list that a value is.
///
/// # Errors
/// `InvalidMetadata` exactly where it is none.
pub fn read_list(value: &Value) -> Result<&[Value], MetadataError>
    ensures { Reads (λ vs. items_view vs.now) result (as_array (view value.now)) }
{
    match value {
        Value::Array(items) => Ok(items.as_slice()),
        _ => Err(MetadataError::InvalidMetadata),
    }
}

/// The members of the object that a value is.
///
/// # Errors
/// `InvalidMetadata` exactly where it is none.
pub fn read_object(value: &Value) -> Result<&Map<String, Value>, MetadataError>
    ensures { Reads (λ m. members_view m.now.entries) result (as_object (view value.now)) }
{
    match value {
        Value::Object(members) => Ok(members),
        _ => Err(MetadataError::InvalidMetadata),
    }
}

/// The boolean that a value is, or `default` where there is no value.
///
/// # Errors
/// `InvalidMetadata` exactly where there is a value, and it is no boolean.
pub fn read_boolean(value: Option<&Value>, default: bool) -> Result<bool, MetadataError>
    ensures { Reads (λ b. b) result (boolean_or default
        (option_map (λ v. view v.now) value.entry)) }
{
    match value {
        None => Ok(default),
        Some(Value::Bool(b)) => Ok(*b),
        Some(_) => Err(MetadataError::InvalidMetadata),
    }
}

/// The members of the object that a value is, and [`None`] where it is null or there is no value.
///
/// # Errors
/// `InvalidMetadata` exactly where there is a value, and it is neither null nor an object.
pub fn read_optional_object(
    value: Option<&Value>,
) -> Result<Option<Map<String, Value>>, MetadataError>
    ensures { Reads (option_map (λ m. members_view m.entries)) result
        (optional_object (option_map (λ v. view v.now) value.entry)) }
{
    match value {
        None | Some(Value::Null) => Ok(None),
        Some(Value::Object(members)) => Ok(Some(copy_members(members)?)),
        Some(_) => Err(MetadataError::InvalidMetadata),
    }
}

/// The members of the object that a value is, and none where there is no value.
///
/// # Errors
/// `InvalidMetadata` exactly where there is a value, and it is no object.
#[tactic(auto, unfolding(crate::specs::Reading::object_or_empty))]
pub fn read_object_or_empty(
    alloc: Global,
    value: Option<&Value>,
) -> Result<Map<String, Value>, MetadataError>
    ensures { Reads (λ m. members_view m.entries) result
        (object_or_empty (option_map (λ v. view v.now) value.entry)) }
{
    match value {
        None => Ok(Map::new(alloc)),
        Some(value) => Ok(copy_members(read_object(value)?)?),
    }
}

/// The whole number from 0 to 2^64 - 1 that a value is.
///
/// # Errors
/// `InvalidMetadata` exactly where it is none.
pub fn read_whole_number(value: &Value) -> Result<u64, MetadataError>
    ensures { Reads (λ n. n) result (whole_number (view value.now)) }
{
    match value.as_u64() {
        Some(number) => Ok(number),
        None => Err(MetadataError::InvalidMetadata),
    }
}

/// The positive number up to 2^64 - 1 that a value is.
///
/// # Errors
/// `InvalidMetadata` exactly where it is none.
#[tactic(auto, unfolding(crate::specs::Reading::positive_number))]
pub fn read_positive_number(value: &Value) -> Result<NonZeroU64, MetadataError>
    ensures { Reads non_zero_u64_get result (positive_number (view value.now)) }
{
    match NonZeroU64::new(read_whole_number(value)?) {
        Some(number) => Ok(number),
        None => Err(MetadataError::InvalidMetadata),
    }
}

/// That a value is this number.
///
/// # Errors
/// `InvalidMetadata` exactly where it is not.
#[tactic(auto, unfolding(crate::specs::Reading::is_number))]
pub fn expect_number(value: &Value, number: u64) -> Result<(), MetadataError>
    ensures { Reads (λ _. tt) result (is_number number (view value.now)) }
{
    if read_whole_number(value)? == number {
        Ok(())
    } else {
        Err(MetadataError::InvalidMetadata)
    }
}

/// That a value is this text.
///
/// # Errors
/// `InvalidMetadata` exactly where it is not.
#[tactic(auto, unfolding(crate::specs::Reading::is_text))]
pub fn expect_text(value: &Value, text: &str) -> Result<(), MetadataError>
    ensures { Reads (λ _. tt) result (is_text text.now (view value.now)) }
{
    if read_text(value)? == text {
        Ok(())
    } else {
        Err(MetadataError::InvalidMetadata)
    }
}

/// The list of whole numbers that a value is.
///
/// # Errors
/// `InvalidMetadata` exactly where it is no list, or an item is no whole number from 0 to 2^64 - 1.
#[tactic(auto, unfolding(crate::specs::Reading::whole_numbers))]
pub fn read_whole_numbers(alloc: Global, value: &Value) -> Result<Vec<u64>, MetadataError>
    ensures { Reads (λ v. v.items) result (whole_numbers (view value.now)) }
{
    read_each_whole_number(alloc, read_list(value)?)
}

/// The whole numbers that items are.
///
/// # Errors
/// `InvalidMetadata` exactly where an item is no whole number from 0 to 2^64 - 1.
#[tactic(auto, using(crate::proofs::EachLemmas::each_push_same, crate::proofs::EachLemmas::each_fails))]
pub fn read_each_whole_number(alloc: Global, items: &[Value]) -> Result<Vec<u64>, MetadataError>
    ensures { Reads (λ v. v.items) result (each whole_number (items_view items.now)) }
{
    let mut numbers = Vec::with_capacity(alloc, items.len())?;
    for item in items {
        match read_whole_number(item) {
            Ok(number) => numbers.push(number)?,
            Err(e) => return Err(e),
        }
    }
    Ok(numbers)
}
