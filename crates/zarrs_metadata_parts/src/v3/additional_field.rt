//! Fields of a document beyond those that it names.
//!
//! See <https://zarr-specs.readthedocs.io/en/latest/v3/core/index.html#extension-points>.

ghost use Rattle.std.specs.Prelude.{◌≡◌, Some, None, IfOk, codes, option_map};
ghost use Rattle.serde_json.specs.Data.{object};
ghost use Rattle.serde_json.specs.Find.{get};
ghost use Rattle.serde_json.specs.Read.{read};
ghost use Rattle.serde_json.specs.View.{view, members_view};
ghost use Rattle.zarrs_metadata_parts.specs.AdditionalField.{additional_field_seen, additional_field_of, additional_field_data, some_field, unless_false, with_must_understand};
ghost use Rattle.zarrs_metadata_values.specs.Reading.{GivesRead, from_data, from_json};

use serde_json::{Map, Value};
use std::alloc::{AllocError, Global};
use std::collections::BTreeMap;
use zarrs_metadata_values::MetadataError;
use zarrs_metadata_values::json::{copy_members, copy_value, take_member};
use zarrs_metadata_values::reading::{read_value, refuse_floats};

/// A field of a document beyond those that it names.
#[derive(Debug, PartialEq, Drop)]
pub struct AdditionalFieldV3 {
    field: Value,
    must_understand: bool,
}

/// The additional fields of a document by their keys.
pub type AdditionalFieldsV3 = BTreeMap<String, AdditionalFieldV3>;

impl AdditionalFieldV3 {
    /// The field with that value, and whether it must be understood. An object is written with its `must_understand`
    /// in place of a key of that name; any other value reads back as one that must be understood.
    pub fn new(field: Value, must_understand: bool) -> Self
        ensures { additional_field_seen result
            ≡ record { value = view field; must_understand = must_understand } }
    {
        AdditionalFieldV3 {
            field,
            must_understand,
        }
    }

    /// The value, without its `must_understand`.
    pub fn as_value(&self) -> &Value
        ensures { view result.now ≡ (additional_field_seen self.now).value }
    {
        &self.field
    }

    /// Whether the field must be understood.
    pub fn must_understand(&self) -> bool
        ensures { result ≡ (additional_field_seen self.now).must_understand }
    {
        self.must_understand
    }

    /// The additional field that a value says. An object gives up its `must_understand`: a boolean there counts,
    /// anything else counts as true. A value that is no object must be understood. What is left of an object has no
    /// `must_understand`.
    ///
    /// # Errors
    /// `FloatNumber` exactly where the value holds a float.
    pub fn from_value(_alloc: Global, value: &Value) -> Result<Self, MetadataError>
        ensures gives { GivesRead additional_field_seen result (from_data some_field (view value.now)) }
        ensures unmarked { IfOk result (λ a. get (codes "must_understand")
            (additional_field_seen a).value ≡ None) }
    {
        refuse_floats(value)?;
        Ok(read_additional_field(value)?)
    }

    /// The value that says the field: an object with its `must_understand`, or the value as it is.
    ///
    /// # Errors
    /// [`AllocError`] where memory runs out.
    pub fn to_value(&self, alloc: Global) -> Result<Value, AllocError>
        ensures { IfOk result (λ v. view v
            ≡ additional_field_data (additional_field_seen self.now)) }
    {
        with_must_understand(alloc, &self.field, self.must_understand)
    }

    /// The additional field that a text says, as [`AdditionalFieldV3::from_value`].
    ///
    /// # Errors
    /// `InvalidJson` exactly where the text is not JSON, else as for the value.
    pub fn try_from_text(alloc: Global, text: &str) -> Result<Self, MetadataError>
        ensures gives { GivesRead additional_field_seen result (from_json some_field (read text.now)) }
        ensures unmarked { IfOk result (λ a. get (codes "must_understand")
            (additional_field_seen a).value ≡ None) }
    {
        let value = read_value(alloc, text)?;
        Ok(AdditionalFieldV3::from(value))
    }

    /// A copy.
    ///
    /// # Errors
    /// [`AllocError`] where memory runs out.
    pub fn try_clone(&self, _alloc: Global) -> Result<Self, AllocError>
        ensures { IfOk result (λ copy. additional_field_seen copy
            ≡ additional_field_seen self.now) }
    {
        Ok(AdditionalFieldV3 {
            field: copy_value(&self.field)?,
            must_understand: self.must_understand,
        })
    }
}

impl From<Value> for AdditionalFieldV3 {
    ghost from_gives = { λ value field. additional_field_seen field
        ≡ additional_field_of (view value) };

    fn from(value: Value) -> AdditionalFieldV3 {
        match value {
            Value::Object(members) => additional_object(members),
            value => AdditionalFieldV3 {
                field: value,
                must_understand: true,
            },
        }
    }
}

// The additional field that an object says.
fn additional_object(mut members: Map<String, Value>) -> AdditionalFieldV3
    ensures { additional_field_seen result
        ≡ additional_field_of (object (members_view members.entries)) }
{
    let must_understand = unless_false(take_member(&mut members, "must_understand"));
    AdditionalFieldV3 {
        field: Value::Object(members),
        must_understand,
    }
}

fn unless_false(value: Option<Value>) -> bool
    ensures { result ≡ unless_false (option_map view value) }
{
    match value {
        Some(Value::Bool(b)) => b,
        _ => true,
    }
}

fn with_must_understand(
    alloc: Global,
    value: &Value,
    must_understand: bool,
) -> Result<Value, AllocError>
    ensures { IfOk result (λ v. view v ≡ with_must_understand must_understand (view value.now)) }
{
    match value {
        Value::Object(members) => object_with_must_understand(alloc, members, must_understand),
        value => copy_value(value),
    }
}

fn object_with_must_understand(
    alloc: Global,
    members: &Map<String, Value>,
    must_understand: bool,
) -> Result<Value, AllocError>
    ensures { IfOk result (λ v. view v ≡ with_must_understand must_understand
        (object (members_view members.now.entries))) }
{
    let mut map = copy_members(members)?;
    serde_json::put(
        &mut map,
        alloc,
        "must_understand",
        Value::Bool(must_understand),
    )?;
    Ok(Value::Object(map))
}

/// The additional field that a value says.
///
/// # Errors
/// [`AllocError`] where memory runs out.
pub fn read_additional_field(value: &Value) -> Result<AdditionalFieldV3, AllocError>
    ensures { IfOk result (λ a. additional_field_seen a ≡ additional_field_of (view value.now)) }
{
    let copy = copy_value(value)?;
    Ok(AdditionalFieldV3::from(copy))
}
