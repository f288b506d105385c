//! Data types by their names in documents.
//!
//! See <https://zarr-specs.readthedocs.io/en/latest/v3/core/index.html#data-types>.

ghost use Rattle.std.specs.Prelude.{◌≡◌, if◌then◌else◌, Ok, Err, IfOk, IsTrue, option_map};
ghost use Rattle.serde_json.specs.View.{view, members_view};
ghost use Rattle.zarr_model.specs.Element.{DataType};
ghost use Rattle.zarrs_plugin.specs.Registry.{registry_of};
ghost use Rattle.zarrs_metadata_parts.specs.MetadataV3.{extension_seen};
ghost use Rattle.zarrs_metadata_parts.specs.DataTypeV2.{data_type_v2_seen};
ghost use Rattle.zarrs_data_type.specs.DataType.{type_of, is_type};
ghost use Rattle.zarrs_plugin.specs.Making.{config, unsupported};
ghost use Rattle.zarrs_data_type.specs.Kinds.{behind_byte, whole_bytes, raw_size, raw_of_size};
ghost use Rattle.zarrs_data_type.specs.Making.{MakesType, are_named, pair_type, optional_pair, type_in, type_by, name_v2, type_in_v2, type_by_v2, type_by_metadata};

use crate::data_type::DataType;
use crate::data_type::kind::DataTypeKind;
use serde_json::{Map, Value};
use std::alloc::Global;
use zarrs_metadata_parts::{DataTypeMetadataV2, MetadataV3};
use zarrs_metadata_values::configuration::is_empty;
use zarrs_plugin::{PluginCreateError, PluginKind, PluginUnsupportedError, Registry, parse_number};

/// The metadata of a data type in either version of Zarr.
#[derive(Clone, Copy, Debug)]
pub enum DataTypeMetadata<'a> {
    /// An extension of a version 3 document.
    V3(&'a MetadataV3),
    /// The `dtype` of a version 2 document.
    V2(&'a DataTypeMetadataV2),
}

impl DataType {
    /// The data type that metadata names, by the names of a registry.
    ///
    /// In version 2 the names of `registry` are looked up alike, but for raw and optional types, which have none there.
    ///
    /// # Errors
    /// [`PluginCreateError::Other`] exactly where the metadata is an extension that need not be understood. Else
    /// [`PluginCreateError::Unsupported`] exactly where no entry goes by the name, or by the name of the type inside an
    /// optional one, and [`PluginCreateError::Config`] exactly where the configuration, or the name of a raw type, is
    /// none of the kind, and in version 2 for each raw and optional type.
    #[tactic(auto, using(crate::proofs::TypeLaws::v2_is))]
    pub fn from_metadata(
        alloc: Global,
        metadata: DataTypeMetadata<'_>,
        registry: &Registry<DataTypeKind>,
    ) -> Result<DataType, PluginCreateError>
        ensures made { MakesType type_of result
            (type_by_metadata (registry_of registry.now) metadata.entry) }
        // Raw types have at least one byte.
        ensures positive { IfOk result (λ t. IsTrue (is_type (type_of t))) }
    {
        match metadata {
            DataTypeMetadata::V3(metadata) => type_by(alloc, metadata, registry),
            DataTypeMetadata::V2(metadata) => type_by_v2(alloc, metadata, registry),
        }
    }
}

// The type of an extension.
fn type_by(
    alloc: Global,
    metadata: &MetadataV3,
    registry: &Registry<DataTypeKind>,
) -> Result<DataType, PluginCreateError>
    ensures { MakesType type_of result
        (type_by (registry_of registry.now) (extension_seen metadata.now)) }
{
    if !metadata.must_understand() {
        return Err(PluginCreateError::Other);
    }
    match metadata.configuration() {
        Some(configuration) => type_in(alloc, metadata.name(), configuration.as_map(), registry),
        None => type_in(alloc, metadata.name(), &Map::new(alloc), registry),
    }
}

// The type of a version 2 document.
fn type_by_v2(
    alloc: Global,
    metadata: &DataTypeMetadataV2,
    registry: &Registry<DataTypeKind>,
) -> Result<DataType, PluginCreateError>
    ensures { MakesType type_of result
        (type_by_v2 (registry_of registry.now) (data_type_v2_seen metadata.now)) }
{
    type_in_v2(alloc, name_v2(metadata), registry)
}

// The name that is looked up; all structured types have one.
fn name_v2(metadata: &DataTypeMetadataV2) -> &str
    ensures { result.now ≡ name_v2 (data_type_v2_seen metadata.now) }
{
    match metadata {
        DataTypeMetadataV2::Simple(name) => name.as_str(),
        DataTypeMetadataV2::Structured(_) => "structured_v2",
    }
}

fn type_in_v2(
    alloc: Global,
    name: &str,
    registry: &Registry<DataTypeKind>,
) -> Result<DataType, PluginCreateError>
    ensures { MakesType type_of result (type_in_v2 (registry_of registry.now) name.now) }
{
    match registry.find(name) {
        Some(DataTypeKind::RawBits) => Err(PluginCreateError::Config),
        _ => type_in(alloc, name, &Map::new(alloc), registry),
    }
}

// A type whose configuration is to be empty.
fn plain(data_type: DataType, empty: bool) -> Result<DataType, PluginCreateError>
    ensures { MakesType type_of result (if empty then Ok (type_of data_type) else Err config) }
{
    if empty {
        Ok(data_type)
    } else {
        Err(PluginCreateError::Config)
    }
}

// The error of a name that no entry goes by.
fn unsupported(alloc: Global, name: &str) -> PluginCreateError
    ensures { MakesType type_of (Err result) (Err (unsupported name.now)) }
{
    match String::from_str(alloc, name) {
        Ok(name) => PluginCreateError::Unsupported(PluginUnsupportedError::new(
            name,
            PluginKind::DataType,
        )),
        Err(error) => PluginCreateError::from(error),
    }
}

// The type of a name and the members of its configuration.
#[cycle(making)]
fn type_in(
    alloc: Global,
    name: &str,
    members: &Map<String, Value>,
    registry: &Registry<DataTypeKind>,
) -> Result<DataType, PluginCreateError>
    ensures { MakesType type_of result
        (type_in (registry_of registry.now) name.now (members_view members.now.entries)) }
{
    let empty = is_empty(members);
    match registry.find(name) {
        None => Err(unsupported(alloc, name)),
        Some(DataTypeKind::Bool) => plain(DataType::Bool, empty),
        Some(DataTypeKind::Int8) => plain(DataType::Int8, empty),
        Some(DataTypeKind::Int16) => plain(DataType::Int16, empty),
        Some(DataTypeKind::Int32) => plain(DataType::Int32, empty),
        Some(DataTypeKind::Int64) => plain(DataType::Int64, empty),
        Some(DataTypeKind::UInt8) => plain(DataType::UInt8, empty),
        Some(DataTypeKind::UInt16) => plain(DataType::UInt16, empty),
        Some(DataTypeKind::UInt32) => plain(DataType::UInt32, empty),
        Some(DataTypeKind::UInt64) => plain(DataType::UInt64, empty),
        Some(DataTypeKind::RawBits) => raw(name, empty),
        Some(DataTypeKind::String) => plain(DataType::String, empty),
        Some(DataTypeKind::Bytes) => plain(DataType::Bytes, empty),
        Some(DataTypeKind::Optional) => optional_by(alloc, members, registry),
    }
}

fn digits_of(name: &str) -> Option<&str>
    ensures { option_map (λ digits. digits.now) result ≡ behind_byte 114 name.now }
{
    name.strip_prefix('r')
}

// So many bits in bytes.
fn whole_bytes(bits: u64) -> Option<usize>
    ensures { result ≡ whole_bytes bits }
{
    if bits > 0 && bits % 8 == 0 {
        Some((bits / 8) as usize)
    } else {
        None
    }
}

// The size of a raw type by its name.
fn raw_size(name: &str) -> Option<usize>
    ensures { result ≡ raw_size name.now }
{
    let digits = digits_of(name)?;
    let bits = parse_number(digits)?;
    whole_bytes(bits)
}

// The raw type of a name.
fn raw(name: &str, empty: bool) -> Result<DataType, PluginCreateError>
    ensures { MakesType type_of result (if empty then raw_of_size (raw_size name.now) else Err config) }
{
    if !empty {
        return Err(PluginCreateError::Config);
    }
    match raw_size(name) {
        Some(size) => Ok(DataType::RawBits(size)),
        None => Err(PluginCreateError::Config),
    }
}

fn are_named(key: &str, other_key: &str) -> bool
    ensures { result ≡ are_named key.now other_key.now }
{
    key == "configuration" && other_key == "name"
}

// The optional type of a configuration, which has exactly two members.
#[cycle(making)]
fn optional_by(
    alloc: Global,
    members: &Map<String, Value>,
    registry: &Registry<DataTypeKind>,
) -> Result<DataType, PluginCreateError>
    ensures { MakesType type_of result
        (optional_pair (registry_of registry.now) (members_view members.now.entries)) }
{
    let mut entries = members.iter();
    let Some((key, value)) = entries.next() else {
        return Err(PluginCreateError::Config);
    };
    let Some((other_key, other)) = entries.next() else {
        return Err(PluginCreateError::Config);
    };
    if entries.next().is_some() {
        return Err(PluginCreateError::Config);
    }
    if are_named(key.as_str(), other_key.as_str()) {
        inner_by(alloc, value, other, registry)
    } else {
        Err(PluginCreateError::Config)
    }
}

// The optional type over the type with this configuration and name.
#[cycle(making)]
fn inner_by(
    alloc: Global,
    configuration: &Value,
    name: &Value,
    registry: &Registry<DataTypeKind>,
) -> Result<DataType, PluginCreateError>
    ensures { MakesType type_of result
        (pair_type (registry_of registry.now) (view configuration.now) (view name.now)) }
{
    match configuration {
        Value::Object(members) => match name {
            Value::String(name) => match type_in(alloc, name.as_str(), members, registry) {
                Ok(inner) => {
                    let inner = Box::new(alloc, inner)?;
                    Ok(DataType::Optional(inner))
                }
                Err(error) => Err(error),
            },
            _ => Err(PluginCreateError::Config),
        },
        _ => Err(PluginCreateError::Config),
    }
}
