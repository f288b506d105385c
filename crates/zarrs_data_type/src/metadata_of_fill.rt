//! What documents say of fill values.
//!
//! See <https://zarr-specs.readthedocs.io/en/latest/v3/core/index.html#fill-value>.

ghost use Rattle.std.specs.Prelude.{◌≡◌, ◌<◌, ◌≤◌, ◌-◌, ◌*◌, ◌^◌, Some, None, negsuc};
ghost use Rattle.serde_json.specs.Data.{array, item, no_items};
ghost use Rattle.zarr_model.specs.Element.{int_type, uint_type, raw_type, bool_type, string_type, bytes_type, optional_type};
ghost use Rattle.zarrs_metadata_values.specs.FillValueMetadata.{fill_view};
ghost use Rattle.zarrs_data_type.specs.DataType.{type_of};
ghost use Rattle.zarrs_data_type.specs.FillMetadata.{signed_number, fill_metadata_of, TellsFill};

use crate::DataType;
use std::alloc::{AllocError, AllocFailed, Global};
use thiserror::Error;
use zarrs_data_type_bytes::{DataTypeFillValueError, read_number};
use zarrs_metadata_parts::FillValueMetadata;

/// Why a fill value is not written to a document.
#[derive(Clone, Copy, Debug, PartialEq, Eq, Error)]
pub enum FillFault {
    /// Its bytes denote no element of the data type.
    #[error(transparent)]
    Value(DataTypeFillValueError),
    /// Memory ran out.
    #[error("out of memory")]
    OutOfMemory,
}

impl From<AllocError> for FillFault {
    ghost use Rattle.zarrs_data_type.specs.declared.metadata_of_fill.FillFault.TheVariants.{OutOfMemory};

    ghost from_gives = { λ _ e. e ≡ OutOfMemory };

    fn from(_error: AllocError) -> FillFault {
        FillFault::OutOfMemory
    }
}

impl<T: Drop> From<AllocFailed<T>> for FillFault {
    ghost use Rattle.zarrs_data_type.specs.declared.metadata_of_fill.FillFault.TheVariants.{OutOfMemory};

    ghost from_gives = { λ _ e. e ≡ OutOfMemory };

    fn from(_error: AllocFailed<T>) -> FillFault {
        FillFault::OutOfMemory
    }
}

fn refused() -> FillFault
    ensures { TellsFill (Err result) None }
{
    FillFault::Value(DataTypeFillValueError)
}

// The number below 0 whose complement is this one.
fn negative(complement: u64) -> i64
    requires { complement < 2 ^ 63 }
    ensures { result ≡ negsuc complement }
{
    -1 - complement as i64
}

// The number in two's complement of so many bytes, of which those from `half` on are below 0.
fn signed_number(number: u64, size: usize, half: u64) -> i64
    requires half { half ≡ 2 ^ (8 * size - 1) }
    requires whole { 256 ^ size ≡ 2 * half }
    requires few { half ≤ 2 ^ 63 }
    requires below { number < 256 ^ size }
    ensures { result ≡ signed_number size number }
{
    if number < half {
        number as i64
    } else {
        negative(half - 1 - (number - half))
    }
}

fn bool_metadata(bytes: &[u8]) -> Result<FillValueMetadata, FillFault>
    ensures { TellsFill result (fill_metadata_of bool_type bytes.now) }
{
    if bytes.len() != 1 {
        return Err(refused());
    }
    match bytes[0] {
        0 => Ok(FillValueMetadata::Bool(false)),
        1 => Ok(FillValueMetadata::Bool(true)),
        _ => Err(refused()),
    }
}

fn signed_metadata(bytes: &[u8], size: usize, half: u64) -> Result<FillValueMetadata, FillFault>
    requires small { size ≤ 8 }
    requires half { half ≡ 2 ^ (8 * size - 1) }
    requires whole { 256 ^ size ≡ 2 * half }
    requires few { half ≤ 2 ^ 63 }
    ensures { TellsFill result (fill_metadata_of (int_type size) bytes.now) }
{
    if bytes.len() != size {
        return Err(refused());
    }
    let number = signed_number(read_number(bytes), size, half);
    Ok(FillValueMetadata::from(number))
}

fn unsigned_metadata(bytes: &[u8], size: usize) -> Result<FillValueMetadata, FillFault>
    requires { size ≤ 8 }
    ensures { TellsFill result (fill_metadata_of (uint_type size) bytes.now) }
{
    if bytes.len() != size {
        return Err(refused());
    }
    Ok(FillValueMetadata::from(read_number(bytes)))
}

fn raw_metadata(alloc: Global, bytes: &[u8], size: usize) -> Result<FillValueMetadata, FillFault>
    ensures { TellsFill result (fill_metadata_of (raw_type size) bytes.now) }
{
    if bytes.len() != size {
        return Err(refused());
    }
    let metadata = FillValueMetadata::from_bytes(alloc, bytes)?;
    Ok(metadata)
}

#[tactic(auto, using(crate::proofs::TextLaws::is_text, crate::proofs::TextLaws::is_no_text))]
fn text_metadata(alloc: Global, bytes: &[u8]) -> Result<FillValueMetadata, FillFault>
    ensures { TellsFill result (fill_metadata_of string_type bytes.now) }
{
    match str::from_utf8(bytes) {
        Ok(text) => {
            let metadata = FillValueMetadata::from_text(alloc, text)?;
            Ok(metadata)
        }
        Err(_) => Err(refused()),
    }
}

fn bytes_metadata(alloc: Global, bytes: &[u8]) -> Result<FillValueMetadata, FillFault>
    ensures { TellsFill result (fill_metadata_of bytes_type bytes.now) }
{
    let metadata = FillValueMetadata::from_bytes(alloc, bytes)?;
    Ok(metadata)
}

// A list of one item.
fn only(alloc: Global, metadata: FillValueMetadata) -> Result<FillValueMetadata, FillFault>
    ensures { TellsFill result (Some (array (item (fill_view metadata) no_items))) }
{
    let list = vec![in alloc; metadata]?;
    Ok(FillValueMetadata::Array(list))
}

/// What a document says of a fill value of a data type with these bytes.
#[cycle(telling)]
pub(crate) fn metadata_of_fill(
    alloc: Global,
    data_type: &DataType,
    bytes: &[u8],
) -> Result<FillValueMetadata, FillFault>
    ensures { TellsFill result (fill_metadata_of (type_of data_type.now) bytes.now) }
{
    match data_type {
        DataType::Bool => bool_metadata(bytes),
        DataType::Int8 => signed_metadata(bytes, 1, 1 << 7),
        DataType::Int16 => signed_metadata(bytes, 2, 1 << 15),
        DataType::Int32 => signed_metadata(bytes, 4, 1 << 31),
        DataType::Int64 => signed_metadata(bytes, 8, 1 << 63),
        DataType::UInt8 => unsigned_metadata(bytes, 1),
        DataType::UInt16 => unsigned_metadata(bytes, 2),
        DataType::UInt32 => unsigned_metadata(bytes, 4),
        DataType::UInt64 => unsigned_metadata(bytes, 8),
        DataType::RawBits(size) => raw_metadata(alloc, bytes, *size),
        DataType::String => text_metadata(alloc, bytes),
        DataType::Bytes => bytes_metadata(alloc, bytes),
        DataType::Optional(inner) => optional_metadata(alloc, inner, bytes),
    }
}

/// The same for the optional type over a data type: null, or a list of what it says of the bytes without the last.
#[cycle(telling)]
pub(crate) fn optional_metadata(
    alloc: Global,
    inner: &DataType,
    bytes: &[u8],
) -> Result<FillValueMetadata, FillFault>
    ensures { TellsFill result (fill_metadata_of (optional_type (type_of inner.now)) bytes.now) }
{
    match bytes {
        [] => Err(refused()),
        [_, rest @ ..] => {
            if bytes[rest.len()] == 0 {
                return Ok(FillValueMetadata::Null);
            }
            match metadata_of_fill(alloc, inner, &bytes[..rest.len()]) {
                Ok(metadata) => only(alloc, metadata),
                Err(error) => Err(error),
            }
        }
    }
}
