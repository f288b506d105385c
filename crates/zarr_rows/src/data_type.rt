//! Rows of data types: the one that a document names, its names, and its fill value.

use std::alloc::{AllocError, Global};
use zarr_basics::builtin_registries;
use zarrs_data_type::{DataType, DataTypeTraits, DataTypeTraitsV3, FillValue, OptionalDataType};
use zarrs_metadata::{FillValueMetadataV3, MetadataV3};
use zarrs_plugin::{PluginCreateError, ZarrVersion};

// The name of a type in a version, and its configuration.
fn named<T: DataTypeTraits>(
    alloc: Global,
    data_type: &T,
    version: ZarrVersion,
) -> Result<String, AllocError> {
    let configuration = data_type.configuration(alloc, version)?;
    match data_type.name(alloc, version)? {
        Some(name) => MetadataV3::new_with_configuration(name, configuration).to_display(alloc),
        None => {
            let none = "no name".to_string(alloc)?;
            MetadataV3::new_with_configuration(none, configuration).to_display(alloc)
        }
    }
}

// The bytes of a fill value, and how it is written.
fn written<T: DataTypeTraits>(
    alloc: Global,
    data_type: &T,
    fill: &FillValue,
) -> Result<String, AllocError> {
    match data_type.metadata_fill_value(alloc, fill) {
        Ok(metadata) => {
            let text = metadata.to_value(alloc)?.to_string(alloc)?;
            format!(in alloc; "{fill} {text}")
        }
        Err(error) => format!(in alloc; "{error}"),
    }
}

fn filled<T: DataTypeTraits>(
    alloc: Global,
    data_type: &T,
    fill: &FillValueMetadataV3,
) -> Result<String, AllocError> {
    match data_type.fill_value(alloc, fill, ZarrVersion::V3) {
        Ok(fill) => written(alloc, data_type, &fill),
        Err(error) => format!(in alloc; "{error}"),
    }
}

// The names of a type in both versions, and what a fill value is of it.
fn told<T: DataTypeTraits>(
    alloc: Global,
    data_type: &T,
    fill: &FillValueMetadataV3,
) -> Result<String, AllocError> {
    let third = named(alloc, data_type, ZarrVersion::V3)?;
    let second = named(alloc, data_type, ZarrVersion::V2)?;
    let fill = filled(alloc, data_type, fill)?;
    format!(in alloc; "{third}; {second}; {fill}")
}

// The same of the optional type of a type.
fn told_optional(
    alloc: Global,
    data_type: &DataType,
    fill: &FillValueMetadataV3,
) -> Result<String, AllocError> {
    let optional = data_type.to_optional(alloc)?;
    let copy = OptionalDataType::new(data_type.try_clone(alloc)?);
    let told = told(alloc, &copy, fill)?;
    format!(in alloc; "{optional:?}; {told}")
}

fn of_fill(
    alloc: Global,
    data_type: &DataType,
    fill: &FillValueMetadataV3,
) -> Result<String, AllocError> {
    let size = data_type.fixed_size();
    let (plain, optional) = (
        told(alloc, data_type, fill)?,
        told_optional(alloc, data_type, fill)?,
    );
    format!(in alloc; "{data_type:?} {size:?}; {plain}; {optional}")
}

fn of_type(alloc: Global, data_type: &DataType, fill: &str) -> Result<String, AllocError> {
    match FillValueMetadataV3::try_from_text(alloc, fill) {
        Ok(fill) => of_fill(alloc, data_type, &fill),
        Err(error) => format!(in alloc; "{error:?}"),
    }
}

// The data type that an extension names.
fn created(alloc: Global, extension: &MetadataV3) -> Result<DataType, PluginCreateError> {
    let registries = builtin_registries(alloc)?;
    DataTypeTraitsV3::create(alloc, extension, &registries.data_types)
}

fn of_extension(alloc: Global, extension: &MetadataV3, fill: &str) -> Result<String, AllocError> {
    match created(alloc, extension) {
        Ok(data_type) => of_type(alloc, &data_type, fill),
        Err(error) => format!(in alloc; "{error}"),
    }
}

/// The data type that the first word of a line names, the size of an element, its names in versions 3 and 2, and the
/// bytes of the fill value behind the word and how it is written; and the same of the optional type of it. Or the
/// refusal.
pub fn line_of(alloc: Global, line: &str) -> Result<String, AllocError> {
    let (document, fill) = line.split_once(' ').unwrap_or((line, "null"));
    match MetadataV3::try_from_text(alloc, document) {
        Ok(extension) => of_extension(alloc, &extension, fill),
        Err(error) => format!(in alloc; "{error:?}"),
    }
}
