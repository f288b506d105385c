//! Documents of version 2 arrays as documents of version 3.

ghost use Rattle.std.specs.Prelude.{◌≡◌, IfOk, Ok, MatchResult};
ghost use Rattle.zarrs_metadata.specs.ArrayMetadata.{array_seen};
ghost use Rattle.zarrs_metadata_values.specs.FillValueMetadata.{fill_view};
ghost use Rattle.zarrs_metadata_v2.specs.ArrayMetadataV2.{array_v2_seen};
ghost use Rattle.zarr_v2.specs.Translate.{translated, fields_v2, has_codec, IsTold};

use crate::element_type::{StoredType, element_of};
use crate::parts::{codecs_of, fill_of, grid_of, keys_of, named};
use crate::translation_error::V2Error;
use std::alloc::{AllocError, Global};
use zarrs_metadata::ArrayMetadataV3;
use zarrs_metadata_v2::ArrayMetadataV2;
use zarrs_metadata_values::FillValueMetadataV3;
use zarrs_metadata_values::json::copy_members;

// Whether a chunk passes through a compressor or a filter.
fn has_codec(metadata: &ArrayMetadataV2) -> bool
    ensures { result ≡ has_codec (array_v2_seen metadata.now) }
{
    if metadata.compressor.is_some() {
        return true;
    }
    match &metadata.filters {
        Some(filters) => !filters.is_empty(),
        None => false,
    }
}

// The document of version 3 whose elements are of this type.
fn array_of(
    alloc: Global,
    metadata: &ArrayMetadataV2,
    stored: StoredType,
    fill: FillValueMetadataV3,
) -> Result<ArrayMetadataV3, AllocError>
    ensures { IfOk result (λ a. array_seen a
        ≡ fields_v2 (array_v2_seen metadata.now) stored (fill_view fill)) }
{
    let data_type = named(alloc, stored.element.name())?;
    let grid = grid_of(alloc, &metadata.chunks)?;
    let codecs = codecs_of(alloc, metadata.order, metadata.shape.len(), stored)?;
    let shape = Vec::from_slice(alloc, &metadata.shape)?;
    let array = ArrayMetadataV3::new(alloc, shape, grid, data_type, fill, codecs)?;
    let keys = keys_of(alloc, metadata.dimension_separator)?;
    let attributes = copy_members(&metadata.attributes)?;
    Ok(
        array
            .with_chunk_key_encoding(keys)
            .with_attributes(attributes),
    )
}

/// The document of version 3 that means the same array as one of version 2.
///
/// # Errors
/// In this order, each exactly there: [`V2Error::RankMismatch`] where the shape and the chunks have different numbers
/// of dimensions; [`V2Error::UnsupportedDataType`] where the data type is no boolean and no whole number of 1, 2, 4 or
/// 8 bytes; [`V2Error::UnsupportedFillValue`] where the fill value is neither null nor one of the type;
/// [`V2Error::UnsupportedCodec`] where there is a compressor or a filter. [`V2Error::OutOfMemory`] comes only for want
/// of memory.
pub fn translate(alloc: Global, metadata: &ArrayMetadataV2) -> Result<ArrayMetadataV3, V2Error>
    ensures { MatchResult result
        (λ a. translated (array_v2_seen metadata.now) ≡ Ok (array_seen a))
        (IsTold (translated (array_v2_seen metadata.now))) }
{
    if metadata.chunks.len() != metadata.shape.len() {
        return Err(V2Error::RankMismatch);
    }
    let Some(stored) = element_of(&metadata.dtype) else {
        return Err(V2Error::UnsupportedDataType);
    };
    let Some(fill) = fill_of(alloc, stored.element, &metadata.fill_value)? else {
        return Err(V2Error::UnsupportedFillValue);
    };
    if has_codec(metadata) {
        return Err(V2Error::UnsupportedCodec);
    }
    Ok(array_of(alloc, metadata, stored, fill)?)
}
