//! What the extensions of an array document denote by the names of registries.

ghost use Rattle.std.specs.Prelude.{◌≡◌, true, IfOk, is_some, length, map};
ghost use Rattle.zarrs_codec_traits.specs.Prelude.{fill_element, kind_of, extension_seen};
ghost use Rattle.zarrs_codec_traits.specs.Prelude.{extensions_seen, registry_of, fill_bytes};
ghost use Rattle.zarrs_codec_traits.specs.Prelude.{type_of, is_type};
ghost use Rattle.zarrs_metadata_parts.specs.AdditionalFields.{additional_fields_seen};
ghost use Rattle.zarrs_metadata.specs.ArrayMetadata.{array_seen};
ghost use Rattle.zarrs_metadata_values.specs.FillValueMetadata.{fill_view};
ghost use Rattle.zarrs_data_type.specs.FillMetadata.{fill_of};
ghost use Rattle.zarr_basics.specs.BasicGrid.{basic_shape, basic_form};
ghost use Rattle.zarr_basics.specs.Keys.{keys_of};
ghost use Rattle.zarr_codecs.specs.CodecForm.{form_of};
ghost use Rattle.zarr_array_open.specs.Parts.{Opens};
ghost use Rattle.zarr_array_open.specs.Opening.{invalid_fill, or_refused, has_required_field, expect_known_fields, data_type_by, grid_by, keys_by, codec_by, has_rank, codec_at, codecs_by};

use crate::open_error::OpenError;
use std::alloc::Global;
use zarr_basics::{BasicCodec, BasicGrid, ChunkKeyEncoding, ChunkKeyKind, CodecKind, GridKind};
use zarrs_chunk_grid::GridMaker;
use zarrs_codec_traits::{Codec, CodecMaker, CodecMetadata};
use zarrs_data_type::{
    DataType, DataTypeKind, DataTypeMetadata, DataTypeTraits, FillMetadataFault, FillValue,
};
use zarrs_metadata::{AdditionalFieldsV3, ArrayMetadataV3, FillValueMetadataV3, MetadataV3};
use zarrs_plugin::Registry;

// Whether a field has to be understood.
fn has_required_field(fields: &AdditionalFieldsV3) -> bool
    ensures { result ≡ has_required_field (additional_fields_seen fields.now.entries) }
{
    for (_, field) in fields.iter() {
        if field.must_understand() {
            return true;
        }
    }
    false
}

/// Refuses a document with a field that has to be understood, or with storage transformers.
///
/// # Errors
/// `UnsupportedField`.
pub fn expect_known_fields(metadata: &ArrayMetadataV3) -> Result<(), OpenError>
    ensures { Opens (λ _. tt) result (expect_known_fields (array_seen metadata.now)) }
{
    if has_required_field(&metadata.additional_fields)
        || !metadata.storage_transformers.is_empty()
    {
        Err(OpenError::UnsupportedField)
    } else {
        Ok(())
    }
}

/// The data type by its name.
///
/// # Errors
/// `PluginUnsupportedError`, `PluginCreateError` or `OutOfMemory`.
#[tactic(auto, using(crate::proofs::OpeningLaws::proper_type))]
pub fn data_type_by(
    alloc: Global,
    metadata: &MetadataV3,
    registry: &Registry<DataTypeKind>,
) -> Result<DataType, OpenError>
    ensures made { Opens type_of result (data_type_by (registry_of registry.now)
        (extension_seen metadata.now)) }
    ensures proper { IfOk result (λ t. is_type (type_of t) ≡ true) }
{
    let data_type = DataType::from_metadata(alloc, DataTypeMetadata::V3(metadata), registry)?;
    Ok(data_type)
}

// The grid over an array of this shape.
pub(crate) fn grid_by(
    alloc: Global,
    array_shape: &[u64],
    metadata: &MetadataV3,
    registry: &Registry<GridKind>,
) -> Result<BasicGrid, OpenError>
    ensures made { Opens basic_form result (grid_by (registry_of registry.now) array_shape.now
        (extension_seen metadata.now)) }
    ensures shape { IfOk result (λ grid. basic_shape grid ≡ array_shape.now) }
{
    match registry.find(metadata.name()) {
        Some(kind) => {
            let grid = kind.make(alloc, metadata, array_shape)?;
            Ok(grid)
        }
        None => Err(OpenError::PluginUnsupportedError),
    }
}

/// The encoding of chunk keys.
///
/// # Errors
/// `PluginUnsupportedError`, `PluginCreateError` or `OutOfMemory`.
pub fn keys_by(
    alloc: Global,
    metadata: &MetadataV3,
    registry: &Registry<ChunkKeyKind>,
) -> Result<ChunkKeyEncoding, OpenError>
    ensures { Opens keys_of result (keys_by (registry_of registry.now)
        (extension_seen metadata.now)) }
{
    match registry.find(metadata.name()) {
        Some(kind) => {
            let keys = kind.make(alloc, metadata)?;
            Ok(keys)
        }
        None => Err(OpenError::PluginUnsupportedError),
    }
}

// A codec by its name, with the codecs inside by theirs.
fn codec_by(
    alloc: Global,
    metadata: &MetadataV3,
    registry: &Registry<CodecKind>,
) -> Result<BasicCodec, OpenError>
    ensures { Opens form_of result (codec_by (registry_of registry.now)
        (extension_seen metadata.now)) }
{
    match registry.find(metadata.name()) {
        Some(kind) => {
            let codec = kind.make(alloc, CodecMetadata::V3(metadata), registry)?;
            Ok(codec)
        }
        None => Err(OpenError::PluginUnsupportedError),
    }
}

// Whether a codec serves shapes of the array's rank.
fn has_rank(codec: &BasicCodec, array_shape: &[u64]) -> bool
    ensures { result ≡ has_rank (length array_shape.now) (form_of codec.now) }
{
    match codec {
        Codec::ArrayToArray(codec) => codec.has_rank(array_shape.len()),
        Codec::ArrayToBytes(_) => true,
        Codec::BytesToBytes(_) => true,
    }
}

/// The codec of an extension, over an array of this shape.
///
/// # Errors
/// `PluginUnsupportedError`, `PluginCreateError` or `OutOfMemory`.
#[tactic(auto, using(crate::proofs::OpeningLaws::fails_after))]
pub fn codec_at(
    alloc: Global,
    array_shape: &[u64],
    metadata: &MetadataV3,
    registry: &Registry<CodecKind>,
) -> Result<BasicCodec, OpenError>
    ensures { Opens form_of result (codec_at (length array_shape.now) (registry_of registry.now)
        (extension_seen metadata.now)) }
{
    let codec = codec_by(alloc, metadata, registry)?;
    if has_rank(&codec, array_shape) {
        Ok(codec)
    } else {
        Err(OpenError::PluginCreateError)
    }
}

/// The codecs, in the order of the document.
///
/// # Errors
/// `PluginUnsupportedError` or `PluginCreateError` of the first that is refused, or `OutOfMemory`.
pub fn codecs_by(
    alloc: Global,
    array_shape: &[u64],
    extensions: &[MetadataV3],
    registry: &Registry<CodecKind>,
) -> Result<Vec<BasicCodec>, OpenError>
    ensures { Opens (λ v. map form_of v.items) result (codecs_by (length array_shape.now)
        (registry_of registry.now) (extensions_seen extensions.now)) }
{
    let mut codecs = Vec::with_capacity(alloc, extensions.len())?;
    for extension in extensions {
        match codec_at(alloc, array_shape, extension, registry) {
            Ok(codec) => codecs.push(codec)?,
            Err(error) => return Err(error),
        }
    }
    Ok(codecs)
}

/// The fill value of a data type.
///
/// # Errors
/// `DataTypeFillValueMetadataError` or `OutOfMemory`.
#[tactic(auto, using(crate::proofs::OpeningLaws::denoted_fill))]
pub fn fill_value_of(
    alloc: Global,
    data_type: &DataType,
    metadata: &FillValueMetadataV3,
) -> Result<FillValue, OpenError>
    ensures read { Opens fill_bytes result (or_refused invalid_fill
        (fill_of (type_of data_type.now) (fill_view metadata.now))) }
    ensures filled { IfOk result (λ fill.
        is_some (fill_element (kind_of (type_of data_type.now)) (fill_bytes fill)) ≡ true) }
{
    match data_type.fill_value_v3(alloc, metadata) {
        Ok(fill) => Ok(fill),
        Err(FillMetadataFault::Metadata(_)) => Err(OpenError::DataTypeFillValueMetadataError),
        Err(FillMetadataFault::OutOfMemory) => Err(OpenError::OutOfMemory),
    }
}
