//! The fields of a document beyond those that it names.
//!
//! See <https://zarr-specs.readthedocs.io/en/latest/v3/core/index.html#extension-points>.

ghost use Rattle.std.specs.Prelude.{◌≡◌, IfOk, OnOk};
ghost use Rattle.serde_json.specs.View.{view, members_view};
ghost use Rattle.zarrs_metadata_parts.specs.AdditionalFields.{additional_fields_seen, additional_fields_of, is_array_key, is_group_key, is_named_key, is_null, is_field_dropped, is_no_field, put_fields};

use crate::v3::additional_field::{AdditionalFieldV3, AdditionalFieldsV3, read_additional_field};
use serde_json::{Map, Value};
use std::alloc::{AllocError, Global};
use std::collections::BTreeMap;

/// What a document describes.
#[derive(Clone, Copy)]
pub enum NodeKind {
    /// An array.
    Array,
    /// A group.
    Group,
}

#[tactic(auto, unfolding(crate::specs::AdditionalFields::is_array_key))]
fn is_array_key(key: &str) -> bool
    ensures { result ≡ is_array_key key.now }
{
    match key {
        "zarr_format"
        | "node_type"
        | "shape"
        | "data_type"
        | "chunk_grid"
        | "chunk_key_encoding"
        | "fill_value"
        | "codecs"
        | "attributes"
        | "storage_transformers"
        | "dimension_names" => true,
        _ => false,
    }
}

#[tactic(auto, unfolding(crate::specs::AdditionalFields::is_group_key))]
fn is_group_key(key: &str) -> bool
    ensures { result ≡ is_group_key key.now }
{
    match key {
        "zarr_format" | "node_type" | "attributes" => true,
        _ => false,
    }
}

// Whether the document names the key.
fn is_named_key(kind: NodeKind, key: &str) -> bool
    ensures { result ≡ is_named_key kind key.now }
{
    match kind {
        NodeKind::Array => is_array_key(key),
        NodeKind::Group => is_group_key(key),
    }
}

// Whether the value stands for nothing under the key.
fn is_dropped(kind: NodeKind, key: &str, value: &Value) -> bool
    ensures { result ≡ is_field_dropped kind key.now (view value.now) }
{
    match kind {
        NodeKind::Array => false,
        NodeKind::Group => key == "consolidated_metadata" && is_null(value),
    }
}

fn is_null(value: &Value) -> bool
    ensures { result ≡ is_null (view value.now) }
{
    match value {
        Value::Null => true,
        _ => false,
    }
}

fn is_no_field(kind: NodeKind, key: &str, value: &Value) -> bool
    ensures { result ≡ is_no_field kind key.now (view value.now) }
{
    is_named_key(kind, key) || is_dropped(kind, key, value)
}

/// The additional fields that members say: those under every other key.
///
/// # Errors
/// [`AllocError`] where memory runs out.
pub fn read_additional_fields(
    alloc: Global,
    kind: NodeKind,
    members: &Map<String, Value>,
) -> Result<AdditionalFieldsV3, AllocError>
    ensures { IfOk result (λ m. additional_fields_seen m.entries
        ≡ additional_fields_of kind (members_view members.now.entries)) }
{
    let mut fields = BTreeMap::new(alloc);
    for (name, value) in members.iter() {
        if !is_no_field(kind, name.as_str(), value) {
            let name = name.clone()?;
            drop(fields.insert(name, read_additional_field(value)?)?);
        }
    }
    Ok(fields)
}

/// Puts each field under its key, but for those under a key that the document names.
///
/// # Errors
/// [`AllocError`] where memory runs out.
pub fn put_fields(
    alloc: Global,
    kind: NodeKind,
    members: &mut Map<String, Value>,
    fields: &BTreeMap<String, AdditionalFieldV3>,
) -> Result<(), AllocError>
    ensures { OnOk result (members_view members.new.entries
        ≡ put_fields kind (additional_fields_seen fields.now.entries)
        (members_view members.old.entries)) }
{
    for (name, field) in fields.iter() {
        if !is_named_key(kind, name.as_str()) {
            serde_json::put(members, alloc, name.as_str(), field.to_value(alloc)?)?;
        }
    }
    Ok(())
}

/// A copy of additional fields.
///
/// # Errors
/// [`AllocError`] where memory runs out.
pub fn copy_additional_fields(
    alloc: Global,
    fields: &BTreeMap<String, AdditionalFieldV3>,
) -> Result<AdditionalFieldsV3, AllocError>
    ensures { IfOk result (λ copies. additional_fields_seen copies.entries
        ≡ additional_fields_seen fields.now.entries) }
{
    let mut copies = BTreeMap::new(alloc);
    for (name, field) in fields.iter() {
        let name = name.clone()?;
        drop(copies.insert(name, field.try_clone(alloc)?)?);
    }
    Ok(copies)
}
