//! The extensions and the fill value of a translated document.

ghost use Rattle.std.specs.Prelude.{◌≡◌, map, option_map, IfOk, IfErr};
ghost use Rattle.std.specs.Int.NonZero.{non_zero_u64_get};
ghost use Rattle.zarrs_metadata_values.specs.FillValueMetadata.{fill_view};
ghost use Rattle.serde_json.specs.View.{view};
ghost use Rattle.zarrs_metadata_parts.specs.MetadataV3.{extension_seen, extensions_seen};
ghost use Rattle.zarr_v2.specs.Translate.{extension_named, configured_by, reversed_order, endian_text, grid_v2, keys_v2, bytes_v2, transpose_v2, codecs_v2, zero_fill, fill_v2};

use crate::element_type::{ElementType, StoredType};
use crate::translation_error::V2Error;
use serde_json::{Map, Number, Value};
use std::alloc::{AllocError, Global};
use std::num::NonZeroU64;
use zarrs_data_type::{DataTypeTraits, FillMetadataFault};
use zarrs_metadata_parts::part::list_value;
use zarrs_metadata_parts::{ChunkKeySeparator, Configuration, Endianness, MetadataV3};
use zarrs_metadata_v2::ArrayMetadataV2Order;
use zarrs_metadata_values::FillValueMetadataV3;
use zarrs_metadata_values::writing::numbers_value;

/// The extension of a name alone.
pub(crate) fn named(alloc: Global, name: &str) -> Result<MetadataV3, AllocError>
    ensures { IfOk result (λ m. extension_seen m ≡ extension_named name.now) }
{
    Ok(MetadataV3::new(String::from_str(alloc, name)?))
}

// The extension of a name with one member in its configuration.
fn configured(alloc: Global, name: &str, key: &str, value: Value) -> Result<MetadataV3, AllocError>
    ensures { IfOk result (λ m. extension_seen m ≡ configured_by name.now key.now (view value)) }
{
    let name = String::from_str(alloc, name)?;
    let mut members = Map::new(alloc);
    serde_json::put(&mut members, alloc, key, value)?;
    Ok(MetadataV3::new_with_configuration(name, Configuration::new(members)))
}

// The numbers below this one, the last one first.
fn falling_numbers(alloc: Global, count: usize) -> Result<Vec<u64>, AllocError>
    ensures { IfOk result (λ v. v.items ≡ reversed_order count) }
{
    let mut numbers = Vec::with_capacity(alloc, count)?;
    let mut left = count;
    while left > 0 {
        left -= 1;
        numbers.push(left as u64)?;
    }
    Ok(numbers)
}

/// The regular grid of chunks of these lengths.
pub(crate) fn grid_of(alloc: Global, chunks: &[NonZeroU64]) -> Result<MetadataV3, AllocError>
    ensures { IfOk result (λ m. extension_seen m ≡ grid_v2 (map non_zero_u64_get chunks.now)) }
{
    let value = list_value(alloc, chunks)?;
    configured(alloc, "regular", "chunk_shape", value)
}

/// The chunk keys of version 2 with a separator.
pub(crate) fn keys_of(alloc: Global, separator: ChunkKeySeparator) -> Result<MetadataV3, AllocError>
    ensures { IfOk result (λ m. extension_seen m ≡ keys_v2 separator) }
{
    let value = Value::try_from_str(alloc, separator.as_str())?;
    configured(alloc, "v2", "separator", value)
}

// The text of an order of bytes.
fn endian_of(order: Endianness) -> &'static str
    ensures { result.now ≡ endian_text order }
{
    match order {
        Endianness::Little => "little",
        Endianness::Big => "big",
    }
}

// The codec of elements as bytes, in an order if there is one.
fn bytes_of(alloc: Global, order: Option<Endianness>) -> Result<MetadataV3, AllocError>
    ensures { IfOk result (λ m. extension_seen m ≡ bytes_v2 order) }
{
    match order {
        Some(order) => {
            let value = Value::try_from_str(alloc, endian_of(order))?;
            configured(alloc, "bytes", "endian", value)
        }
        None => named(alloc, "bytes"),
    }
}

// The codec that turns the order of dimensions round.
fn transpose_of(alloc: Global, rank: usize) -> Result<MetadataV3, AllocError>
    ensures { IfOk result (λ m. extension_seen m ≡ transpose_v2 rank) }
{
    let numbers = falling_numbers(alloc, rank)?;
    let value = numbers_value(alloc, &numbers)?;
    configured(alloc, "transpose", "order", value)
}

/// The codecs of elements in an order of dimensions and of bytes.
pub(crate) fn codecs_of(
    alloc: Global,
    order: ArrayMetadataV2Order,
    rank: usize,
    stored: StoredType,
) -> Result<Vec<MetadataV3>, AllocError>
    ensures { IfOk result (λ v. extensions_seen v.items ≡ codecs_v2 order rank stored.order) }
{
    let mut codecs = Vec::new(alloc);
    match order {
        ArrayMetadataV2Order::C => {}
        ArrayMetadataV2Order::F => codecs.push(transpose_of(alloc, rank)?)?,
    }
    codecs.push(bytes_of(alloc, stored.order)?)?;
    Ok(codecs)
}

// The fill value of zero bytes.
fn zero_of(element: ElementType) -> FillValueMetadataV3
    ensures { fill_view result ≡ zero_fill element }
{
    match element {
        ElementType::Bool => FillValueMetadataV3::Bool(false),
        _ => FillValueMetadataV3::from(0_u64),
    }
}

/// The fill value that one of version 2 is for a type, if it is one: null is zero bytes.
pub(crate) fn fill_of(
    alloc: Global,
    element: ElementType,
    fill: &FillValueMetadataV3,
) -> Result<Option<FillValueMetadataV3>, V2Error>
    ensures fill { IfOk result (λ f.
        option_map fill_view f ≡ fill_v2 element (fill_view fill.now)) }
    ensures memory { IfErr result (λ e. e ≡ V2Error.OutOfMemory) }
{
    if fill.is_null() {
        return Ok(Some(zero_of(element)));
    }
    match element.data_type().fill_value_v2(alloc, fill) {
        Ok(_) => Ok(Some(fill.try_clone(alloc)?)),
        Err(FillMetadataFault::Metadata(_)) => Ok(None),
        Err(FillMetadataFault::OutOfMemory) => Err(V2Error::OutOfMemory),
    }
}
