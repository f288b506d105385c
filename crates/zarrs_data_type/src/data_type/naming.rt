//! The names and the configurations that data types are written with.

ghost use Rattle.std.specs.Prelude.{◌≡◌, IfOk, option_map, string_bytes, codes};
ghost use Rattle.serde_json.specs.Data.{object, string, member, no_members};
ghost use Rattle.serde_json.specs.View.{members_view};
ghost use Rattle.zarr_model.specs.Element.{optional_type};
ghost use Rattle.zarrs_data_type.specs.DataType.{type_of};
ghost use Rattle.zarrs_data_type.specs.Naming.{sized_name, name_in_v3, type_name, text_or_empty, type_configuration};

use crate::data_type::DataType;
use serde_json::{Map, Value};
use std::alloc::{AllocError, Global};
use zarrs_plugin::{ExtensionName, ZarrVersion};

// A word, and behind it so many bytes in bits.
fn sized_name(alloc: Global, word: &str, size: usize) -> Result<String, AllocError>
    ensures { IfOk result (λ text. string_bytes text ≡ sized_name word.now size) }
{
    let bits = size as u128 * 8;
    format!(in alloc; "{word}{bits}")
}

fn name_in_v3(alloc: Global, data_type: &DataType) -> Result<String, AllocError>
    ensures { IfOk result (λ text. string_bytes text ≡ name_in_v3 (type_of data_type.now)) }
{
    match data_type {
        DataType::Bool => String::from_str(alloc, "bool"),
        DataType::Int8 => sized_name(alloc, "int", 1),
        DataType::Int16 => sized_name(alloc, "int", 2),
        DataType::Int32 => sized_name(alloc, "int", 4),
        DataType::Int64 => sized_name(alloc, "int", 8),
        DataType::UInt8 => sized_name(alloc, "uint", 1),
        DataType::UInt16 => sized_name(alloc, "uint", 2),
        DataType::UInt32 => sized_name(alloc, "uint", 4),
        DataType::UInt64 => sized_name(alloc, "uint", 8),
        DataType::RawBits(size) => sized_name(alloc, "r", *size),
        DataType::String => String::from_str(alloc, "string"),
        DataType::Bytes => String::from_str(alloc, "bytes"),
        DataType::Optional(_) => String::from_str(alloc, "zarrs.optional"),
    }
}

// The name of a data type in a version, if it has one there.
fn type_name(
    alloc: Global,
    data_type: &DataType,
    version: ZarrVersion,
) -> Result<Option<String>, AllocError>
    ensures { IfOk result (λ name. option_map string_bytes name
        ≡ type_name version (type_of data_type.now)) }
{
    match version {
        ZarrVersion::V3 => Ok(Some(name_in_v3(alloc, data_type)?)),
        ZarrVersion::V2 => match data_type {
            DataType::Optional(_) => Ok(Some(String::from_str(alloc, "zarrs.optional")?)),
            _ => Ok(None),
        },
    }
}

// The name, or an empty text.
fn name_or_empty(
    alloc: Global,
    data_type: &DataType,
    version: ZarrVersion,
) -> Result<String, AllocError>
    ensures { IfOk result (λ name. string_bytes name
        ≡ text_or_empty (type_name version (type_of data_type.now))) }
{
    let name = type_name(alloc, data_type, version)?;
    match name {
        Some(name) => Ok(name),
        None => Ok(String::new(alloc)),
    }
}

// A configuration and a name as members.
fn two_members(
    alloc: Global,
    configuration: Map<String, Value>,
    name: String,
) -> Result<Map<String, Value>, AllocError>
    ensures { IfOk result (λ members. members_view members.entries
        ≡ member (codes "configuration") (object (members_view configuration.entries))
        (member (codes "name") (string (string_bytes name)) no_members)) }
{
    let mut members = Map::new(alloc);
    serde_json::put(
        &mut members,
        alloc,
        "configuration",
        Value::Object(configuration),
    )?;
    serde_json::put(&mut members, alloc, "name", Value::String(name))?;
    Ok(members)
}

/// The members of a data type's configuration in the metadata of a version.
///
/// # Errors
/// [`AllocError`] where memory runs out.
#[cycle(configuring)]
pub fn type_members(
    alloc: Global,
    data_type: &DataType,
    version: ZarrVersion,
) -> Result<Map<String, Value>, AllocError>
    ensures { IfOk result (λ members. members_view members.entries
        ≡ type_configuration version (type_of data_type.now)) }
{
    match data_type {
        DataType::Optional(inner) => optional_members(alloc, inner, version),
        _ => Ok(Map::new(alloc)),
    }
}

/// The members of the configuration of the optional type over another.
///
/// # Errors
/// [`AllocError`] where memory runs out.
#[cycle(configuring)]
pub fn optional_members(
    alloc: Global,
    inner: &DataType,
    version: ZarrVersion,
) -> Result<Map<String, Value>, AllocError>
    ensures { IfOk result (λ members. members_view members.entries
        ≡ type_configuration version (optional_type (type_of inner.now))) }
{
    let configuration = type_members(alloc, inner, version)?;
    let name = name_or_empty(alloc, inner, version)?;
    two_members(alloc, configuration, name)
}

impl ExtensionName for DataType {
    ghost name_in = { λ t version. type_name version (type_of t) };

    fn name(&self, alloc: Global, version: ZarrVersion) -> Result<Option<String>, AllocError> {
        type_name(alloc, self, version)
    }
}
