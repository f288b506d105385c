//! Rows of arrays of version 2, of their codecs and data types: what a text says as one.

use std::alloc::{AllocError, Global};
use zarr_basics::builtin_registries;
use zarr_v2::{open_v2, translate};
use zarrs_data_type::{DataType, DataTypeTraitsV2};
use zarrs_metadata::{
    ArrayMetadataV2, DataTypeMetadataV2, EmptyConfiguration, MetadataError, MetadataV2,
    data_type_metadata_v2_to_endianness,
};
use zarrs_plugin::PluginCreateError;

fn codec_of_value(alloc: Global, codec: &MetadataV2) -> Result<MetadataV2, MetadataError> {
    let value = codec.to_value(alloc)?;
    MetadataV2::from_value(alloc, &value)
}

// The codec that a text says, copied, and made a value and read.
fn codec_again(alloc: Global, text: &str) -> Result<MetadataV2, MetadataError> {
    let codec = MetadataV2::try_from_text(alloc, text)?;
    let copy = codec.try_clone(alloc)?;
    codec_of_value(alloc, &copy)
}

fn is_bare(alloc: Global, codec: &MetadataV2) -> bool {
    let empty: Option<EmptyConfiguration> = codec.to_typed_configuration(alloc).ok();
    empty.is_some()
}

fn told_codec(alloc: Global, codec: &MetadataV2) -> Result<String, AllocError> {
    let text = codec.to_value(alloc)?.to_string(alloc)?;
    let members = codec.configuration().as_map().len();
    format!(in alloc;
        "{}; {members} {}; {text}",
        codec.id(),
        is_bare(alloc, codec)
    )
}

/// The id of the codec that a text says, how many members its configuration has and whether it is the empty one, and
/// how it is written; or the name of the refusal.
pub fn codec_line(alloc: Global, text: &str) -> Result<String, AllocError> {
    match codec_again(alloc, text) {
        Ok(codec) => told_codec(alloc, &codec),
        Err(error) => format!(in alloc; "{error:?}"),
    }
}

fn type_of_value(
    alloc: Global,
    data_type: &DataTypeMetadataV2,
) -> Result<DataTypeMetadataV2, MetadataError> {
    let value = data_type.to_value(alloc)?;
    DataTypeMetadataV2::from_value(alloc, &value)
}

// The data type that a text says, copied, and made a value and read.
fn type_again(alloc: Global, text: &str) -> Result<DataTypeMetadataV2, MetadataError> {
    let data_type = DataTypeMetadataV2::try_from_text(alloc, text)?;
    let copy = data_type.try_clone(alloc)?;
    type_of_value(alloc, &copy)
}

// The data type of elements that it is.
fn created(alloc: Global, data_type: &DataTypeMetadataV2) -> Result<DataType, PluginCreateError> {
    let registries = builtin_registries(alloc)?;
    DataTypeTraitsV2::create(alloc, data_type, &registries.data_types)
}

fn named(alloc: Global, data_type: &DataTypeMetadataV2) -> Result<String, AllocError> {
    match created(alloc, data_type) {
        Ok(data_type) => format!(in alloc; "{data_type:?}"),
        Err(error) => format!(in alloc; "{error}"),
    }
}

fn told_type(alloc: Global, data_type: &DataTypeMetadataV2) -> Result<String, AllocError> {
    let order = data_type_metadata_v2_to_endianness(data_type);
    let (name, value) = (named(alloc, data_type)?, data_type.to_value(alloc)?);
    let text = value.to_string(alloc)?;
    format!(in alloc; "{order:?}; {name}; {text}")
}

/// The byte order of the data type that a text says, what it is the name of, and how it is written; or the name of the
/// refusal.
pub fn data_type_line(alloc: Global, text: &str) -> Result<String, AllocError> {
    match type_again(alloc, text) {
        Ok(data_type) => told_type(alloc, &data_type),
        Err(error) => format!(in alloc; "{error:?}"),
    }
}

// The document of version 3 that one of version 2 is translated to, or the name of the refusal.
fn translated(alloc: Global, document: &ArrayMetadataV2) -> Result<String, AllocError> {
    match translate(alloc, document) {
        Ok(array) => array.to_value(alloc)?.to_string(alloc),
        Err(error) => format!(in alloc; "{error:?}"),
    }
}

/// The same of the document that a text is.
pub fn translation_line(alloc: Global, text: &str) -> Result<String, AllocError> {
    match ArrayMetadataV2::try_from_text(alloc, text) {
        Ok(document) => translated(alloc, &document),
        Err(error) => format!(in alloc; "{error:?}"),
    }
}

/// Why a text is not opened as an array of version 2, or that it is.
pub fn opening_line(alloc: Global, text: &str) -> Result<String, AllocError> {
    let registries = builtin_registries(alloc)?;
    match open_v2(alloc, text, &registries) {
        Ok(_) => "opened".to_string(alloc),
        Err(error) => format!(in alloc; "{error:?}"),
    }
}
