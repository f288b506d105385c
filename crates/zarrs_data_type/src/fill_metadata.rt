//! Fill values from documents.
//!
//! See <https://zarr-specs.readthedocs.io/en/latest/v3/core/index.html#fill-value>.

ghost use Rattle.std.specs.Prelude.{Some, ◌<◌, ◌≡◌, ◌+◌, ◌≤◌, ◌==◌, ◌^◌, option_map};
ghost use Rattle.serde_json.specs.Find.{as_bool, as_str, as_array, as_u64, as_i64};
ghost use Rattle.zarr_model.specs.Element.{int_type, uint_type, raw_type, bool_type, string_type, bytes_type, optional_type};
ghost use Rattle.zarrs_metadata_values.specs.FillValueMetadata.{fill_view, fills_view};
ghost use Rattle.zarrs_data_type.specs.DataType.{type_of};
ghost use Rattle.zarrs_data_type.specs.FillMetadata.{only_item, fill_of, Fills, is_in_range};

use crate::DataType;
use std::alloc::{AllocError, AllocFailed, Global};
use thiserror::Error;
use zarrs_data_type_bytes::FillValue;
use zarrs_metadata_values::FillValueMetadataV3;

/// A fill value of a document is none of the data type.
#[derive(Clone, Copy, Debug, PartialEq, Eq, Error)]
#[error("the fill value in the metadata is none of the data type")]
pub struct DataTypeFillValueMetadataError;

/// Why a document gives no fill value.
#[derive(Clone, Copy, Debug, PartialEq, Eq, Error)]
pub enum FillMetadataFault {
    /// It is none of the data type.
    #[error(transparent)]
    Metadata(DataTypeFillValueMetadataError),
    /// Memory ran out.
    #[error("out of memory")]
    OutOfMemory,
}

impl<T: Drop> From<AllocFailed<T>> for FillMetadataFault {
    ghost use Rattle.zarrs_data_type.specs.declared.fill_metadata.FillMetadataFault.TheVariants.{OutOfMemory};

    ghost from_gives = { λ _ e. e ≡ OutOfMemory };

    fn from(_error: AllocFailed<T>) -> FillMetadataFault {
        FillMetadataFault::OutOfMemory
    }
}

impl From<AllocError> for FillMetadataFault {
    ghost use Rattle.zarrs_data_type.specs.declared.fill_metadata.FillMetadataFault.TheVariants.{OutOfMemory};

    ghost from_gives = { λ _ e. e ≡ OutOfMemory };

    fn from(_error: AllocError) -> FillMetadataFault {
        FillMetadataFault::OutOfMemory
    }
}

// Whether a number below 0 or above is one of so many bytes.
#[tactic(auto, using(std::proofs::lemmas::Nat::one_shl))]
fn is_in_range(number: i64, size: usize) -> bool
    requires some { 0 < size }
    requires few { size ≤ 8 }
    ensures { result ≡ is_in_range size number }
{
    let magnitude = if number < 0 { -(number + 1) } else { number };
    (magnitude as u64) < 1u64 << (8 * size - 1)
}

fn signed_fill(
    alloc: Global,
    metadata: &FillValueMetadataV3,
    size: usize,
) -> Result<FillValue, FillMetadataFault>
    requires some { 0 < size }
    requires few { size ≤ 8 }
    ensures { Fills result (fill_of (int_type size) (fill_view metadata.now)) }
{
    match metadata.as_i64() {
        Some(number) if is_in_range(number, size) => {
            let fill = FillValue::from_low_bytes(alloc, number.cast_unsigned(), size)?;
            Ok(fill)
        }
        _ => Err(FillMetadataFault::Metadata(DataTypeFillValueMetadataError)),
    }
}

fn unsigned_fill(
    alloc: Global,
    metadata: &FillValueMetadataV3,
    size: usize,
    greatest: u64,
) -> Result<FillValue, FillMetadataFault>
    requires { greatest + 1 ≡ 256 ^ size }
    ensures { Fills result (fill_of (uint_type size) (fill_view metadata.now)) }
{
    match metadata.as_u64() {
        Some(number) if number <= greatest => {
            let fill = FillValue::from_low_bytes(alloc, number, size)?;
            Ok(fill)
        }
        _ => Err(FillMetadataFault::Metadata(DataTypeFillValueMetadataError)),
    }
}

fn bool_fill(alloc: Global, metadata: &FillValueMetadataV3) -> Result<FillValue, FillMetadataFault>
    ensures { Fills result (fill_of bool_type (fill_view metadata.now)) }
{
    match metadata.as_bool() {
        Some(value) => {
            let fill = FillValue::from_bool(alloc, value)?;
            Ok(fill)
        }
        None => Err(FillMetadataFault::Metadata(DataTypeFillValueMetadataError)),
    }
}

fn raw_fill(
    alloc: Global,
    metadata: &FillValueMetadataV3,
    size: usize,
) -> Result<FillValue, FillMetadataFault>
    ensures { Fills result (fill_of (raw_type size) (fill_view metadata.now)) }
{
    match metadata.as_bytes(alloc)? {
        Some(bytes) if bytes.len() == size => Ok(FillValue::new(bytes)),
        _ => Err(FillMetadataFault::Metadata(DataTypeFillValueMetadataError)),
    }
}

fn text_fill(alloc: Global, metadata: &FillValueMetadataV3) -> Result<FillValue, FillMetadataFault>
    ensures { Fills result (fill_of string_type (fill_view metadata.now)) }
{
    match metadata.as_str() {
        Some(text) => {
            let fill = FillValue::from_text(alloc, text)?;
            Ok(fill)
        }
        None => Err(FillMetadataFault::Metadata(DataTypeFillValueMetadataError)),
    }
}

fn bytes_fill(alloc: Global, metadata: &FillValueMetadataV3) -> Result<FillValue, FillMetadataFault>
    ensures { Fills result (fill_of bytes_type (fill_view metadata.now)) }
{
    if metadata.as_str() == Some("") {
        return Ok(FillValue::from_unit(alloc));
    }
    match metadata.as_bytes(alloc)? {
        Some(bytes) => Ok(FillValue::new(bytes)),
        None => Err(FillMetadataFault::Metadata(DataTypeFillValueMetadataError)),
    }
}

/// The fill value of a data type that a document gives.
#[cycle(fills)]
pub(crate) fn fill_from_metadata(
    alloc: Global,
    data_type: &DataType,
    metadata: &FillValueMetadataV3,
) -> Result<FillValue, FillMetadataFault>
    ensures { Fills result (fill_of (type_of data_type.now) (fill_view metadata.now)) }
{
    match data_type {
        DataType::Bool => bool_fill(alloc, metadata),
        DataType::Int8 => signed_fill(alloc, metadata, 1),
        DataType::Int16 => signed_fill(alloc, metadata, 2),
        DataType::Int32 => signed_fill(alloc, metadata, 4),
        DataType::Int64 => signed_fill(alloc, metadata, 8),
        DataType::UInt8 => unsigned_fill(alloc, metadata, 1, 0xff),
        DataType::UInt16 => unsigned_fill(alloc, metadata, 2, 0xffff),
        DataType::UInt32 => unsigned_fill(alloc, metadata, 4, 0xffff_ffff),
        DataType::UInt64 => unsigned_fill(alloc, metadata, 8, u64::MAX),
        DataType::RawBits(size) => raw_fill(alloc, metadata, *size),
        DataType::String => text_fill(alloc, metadata),
        DataType::Bytes => bytes_fill(alloc, metadata),
        DataType::Optional(inner) => optional_fill(alloc, inner, metadata),
    }
}

// Null, or some of a fill value of the inner type.
#[tactic(auto, using(crate::proofs::FillMetadataLaws::some_of))]
#[cycle(fills)]
pub(crate) fn optional_fill(
    alloc: Global,
    inner: &DataType,
    metadata: &FillValueMetadataV3,
) -> Result<FillValue, FillMetadataFault>
    ensures { Fills result (fill_of (optional_type (type_of inner.now)) (fill_view metadata.now)) }
{
    if metadata.is_null() {
        let fill = FillValue::new_optional_null(alloc)?;
        return Ok(fill);
    }
    match only_fill(metadata) {
        Some(only) => match fill_from_metadata(alloc, inner, only) {
            Ok(fill) => {
                let fill = fill.into_optional()?;
                Ok(fill)
            }
            Err(error) => Err(error),
        },
        None => Err(FillMetadataFault::Metadata(DataTypeFillValueMetadataError)),
    }
}

// The only item of a list of fill values.
fn only_fill(metadata: &FillValueMetadataV3) -> Option<&FillValueMetadataV3>
    ensures { option_map (λ fill. fill_view fill.now) result
        ≡ only_item (as_array (fill_view metadata.now)) }
{
    match metadata.as_array() {
        Some(fills) => only_of(fills),
        None => None,
    }
}

#[tactic(auto, using(crate::proofs::FillMetadataLaws::two_items, crate::proofs::FillMetadataLaws::one_item))]
fn only_of(fills: &[FillValueMetadataV3]) -> Option<&FillValueMetadataV3>
    ensures { option_map (λ fill. fill_view fill.now) result
        ≡ only_item (Some (fills_view fills.now)) }
{
    match fills {
        [] => None,
        [only] => Some(only),
        [_, _, ..] => None,
    }
}
