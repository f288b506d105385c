//! Fields of documents: one that must be there, one that may be, and what is put under a key.

ghost use Rattle.std.specs.Prelude.{◌≡◌, OnOk, codes, map, option_map};
ghost use Rattle.serde_json.specs.Data.{put};
ghost use Rattle.serde_json.specs.Find.{get_member};
ghost use Rattle.serde_json.specs.View.{items_of, members_view};
ghost use Rattle.zarrs_metadata_values.specs.FillValueMetadata.{fill_view};
ghost use Rattle.zarrs_metadata_values.specs.Reading.{Reads, read_under, optional_by, whole_numbers};
ghost use Rattle.zarrs_metadata_values.specs.Writing.{put_list};
ghost use Rattle.zarrs_metadata_parts.specs.Fields.{is_kind, put_node_kind, put_array};

use crate::part::{Part, list_value};
use serde_json::{Map, Value};
use std::alloc::{AllocError, Global};
use zarr_model::ArrayShape;
use zarrs_metadata_values::fill_value::tree::fill_from_value;
use zarrs_metadata_values::json::{
    expect_number, expect_text, member, read_whole_numbers, required,
};
use zarrs_metadata_values::writing::{numbers_value, put_text};
use zarrs_metadata_values::{FillValueMetadataV3, MetadataError};

/// The part under a key that must be there.
///
/// # Errors
/// `InvalidMetadata` exactly where no value is there, or it says no such part.
pub fn required_part<T: Part>(
    alloc: Global,
    members: &Map<String, Value>,
    key: &str,
) -> Result<T, MetadataError>
    ensures { Reads T.seen result
        (read_under key.now T.form (members_view members.now.entries)) }
{
    T::read(alloc, required(members, key)?)
}

/// The part under a key, and [`None`] where the value is null or there is none.
///
/// # Errors
/// `InvalidMetadata` exactly where there is a value, and it is neither null nor says such a part.
pub fn optional_part<T: Part>(
    alloc: Global,
    members: &Map<String, Value>,
    key: &str,
) -> Result<Option<T>, MetadataError>
    ensures { Reads (option_map T.seen) result
        (optional_by T.form (get_member key.now (members_view members.now.entries))) }
{
    match member(members, key) {
        None => Ok(None),
        Some(value) => Part::read(alloc, value),
    }
}

/// The shape of an array.
///
/// # Errors
/// `InvalidMetadata` exactly where no list of whole numbers is under `shape`.
pub fn required_shape(
    alloc: Global,
    members: &Map<String, Value>,
) -> Result<ArrayShape, MetadataError>
    ensures { Reads (λ v. v.items) result
        (read_under (codes "shape") whole_numbers (members_view members.now.entries)) }
{
    read_whole_numbers(alloc, required(members, "shape")?)
}

/// The fill value of an array.
///
/// # Errors
/// `InvalidMetadata` exactly where nothing is under `fill_value`.
pub fn required_fill_value(
    alloc: Global,
    members: &Map<String, Value>,
) -> Result<FillValueMetadataV3, MetadataError>
    ensures { Reads fill_view result
        (get_member (codes "fill_value") (members_view members.now.entries)) }
{
    let fill_value = fill_from_value(alloc, required(members, "fill_value")?)?;
    Ok(fill_value)
}

/// That the members are of a node of this version and kind.
///
/// # Errors
/// `InvalidMetadata` exactly where they are not.
#[tactic(auto, unfolding(crate::specs::Fields::is_kind))]
pub fn expect_node_kind(
    members: &Map<String, Value>,
    version: u64,
    kind: &str,
) -> Result<(), MetadataError>
    ensures { Reads (λ _. tt) result
        (is_kind version kind.now (members_view members.now.entries)) }
{
    expect_number(required(members, "zarr_format")?, version)?;
    expect_text(required(members, "node_type")?, kind)
}

/// Puts a part under the key.
///
/// # Errors
/// [`AllocError`] where memory runs out.
pub fn put_part<T: Part>(
    alloc: Global,
    members: &mut Map<String, Value>,
    key: &str,
    part: &T,
) -> Result<(), AllocError>
    ensures { OnOk result (members_view members.new.entries
        ≡ put key.now (T.written (T.seen part.now)) (members_view members.old.entries)) }
{
    let value = part.write(alloc)?;
    serde_json::put(members, alloc, key, value)
}

/// Puts the list of the parts under the key, unless there are none.
///
/// # Errors
/// [`AllocError`] where memory runs out.
pub fn put_parts<T: Part>(
    alloc: Global,
    members: &mut Map<String, Value>,
    key: &str,
    parts: &[T],
) -> Result<(), AllocError>
    ensures { OnOk result (members_view members.new.entries
        ≡ put_list key.now (items_of (map T.written (map T.seen parts.now)))
        (members_view members.old.entries)) }
{
    match parts {
        [] => Ok(()),
        [_first, _rest @ ..] => serde_json::put(members, alloc, key, list_value(alloc, parts)?),
    }
}

/// Puts the version and the kind of a node.
///
/// # Errors
/// [`AllocError`] where memory runs out.
pub fn put_node_kind(
    alloc: Global,
    members: &mut Map<String, Value>,
    version: u64,
    kind: &str,
) -> Result<(), AllocError>
    ensures { OnOk result (members_view members.new.entries
        ≡ put_node_kind version kind.now (members_view members.old.entries)) }
{
    put_text(alloc, members, "node_type", kind)?;
    serde_json::put(members, alloc, "zarr_format", Value::from(version))
}

/// Puts what arrays of both versions have.
///
/// # Errors
/// [`AllocError`] where memory runs out.
pub fn put_array(
    alloc: Global,
    members: &mut Map<String, Value>,
    version: u64,
    shape: &[u64],
    fill_value: &FillValueMetadataV3,
) -> Result<(), AllocError>
    ensures { OnOk result (members_view members.new.entries
        ≡ put_array version shape.now (fill_view fill_value.now)
        (members_view members.old.entries)) }
{
    let fill_value = fill_value.to_value(alloc)?;
    serde_json::put(members, alloc, "fill_value", fill_value)?;
    let shape = numbers_value(alloc, shape)?;
    serde_json::put(members, alloc, "shape", shape)?;
    put_node_kind(alloc, members, version, "array")
}
