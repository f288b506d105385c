//! Numbers of one size, each with the same added.

ghost use Rattle.std.specs.Prelude.{◌≡◌, ◌<◌, ◌≤◌, ◌^◌, true, None, Some, IfOk, IfErr, option_map};
ghost use Rattle.std.specs.List.{AllByRecursion};
ghost use Rattle.zarrs_codec_traits.specs.Prelude.{kind_of, fixed, type_of, is_fixed, raw_of};
ghost use Rattle.zarrs_data_type_bytes.specs.declared.codec_support.CodecName.TheVariants as names;
ghost use Rattle.zarrs_codec_error.specs.declared.error.CodecError.TheVariants as codec;
ghost use Rattle.zarrs_codec_traits.specs.Errors.{unserved_error, unsupported};
ghost use Rattle.zarr_codecs_elements.specs.Offset.{offset_type_unserved};
ghost use Rattle.zarr_codecs_array_to_array.specs.Shifted.{raised_raw, AreProper};

use std::alloc::Global;
use std::borrow::CowSlice;
use zarr_codecs_elements::raise_each;
use zarrs_codec_array_bytes::ArrayBytes;
use zarrs_codec_error::CodecError;
use zarrs_codec_traits::fixed_value;
use zarrs_data_type::DataType;
use zarrs_data_type_bytes::{CodecName, DataTypeCodecError};

fn unserved() -> CodecError
    ensures { result ≡ unserved_error (unsupported names.Offset) }
{
    CodecError::UnsupportedDataTypeCodec(DataTypeCodecError::UnsupportedDataType {
        codec_name: CodecName::Offset,
    })
}

/// How many bytes a number of the type has, and how many numbers there are of that size.
///
/// # Errors
/// `UnsupportedDataTypeCodec` exactly where the type is no whole number.
pub fn sized(data_type: &DataType) -> Result<(usize, u128), CodecError>
    ensures served { IfOk result (λ _. offset_type_unserved (type_of data_type.now) ≡ None) }
    ensures kind { IfOk result (λ r. kind_of (type_of data_type.now) ≡ fixed r.0) }
    ensures some { IfOk result (λ r. 0 < r.0) }
    ensures few { IfOk result (λ r. r.0 ≤ 8) }
    ensures modulus { IfOk result (λ r. r.1 ≡ 256 ^ r.0) }
    ensures fits { IfOk result (λ r. r.1 ≤ 2 ^ 64) }
    ensures positive { IfOk result (λ r. 0 < r.1) }
    ensures refused { IfErr result (λ e. option_map unserved_error
        (offset_type_unserved (type_of data_type.now)) ≡ Some e) }
{
    match data_type {
        DataType::Int8 => Ok((1, 256)),
        DataType::UInt8 => Ok((1, 256)),
        DataType::Int16 => Ok((2, 65536)),
        DataType::UInt16 => Ok((2, 65536)),
        DataType::Int32 => Ok((4, 4294967296)),
        DataType::UInt32 => Ok((4, 4294967296)),
        DataType::Int64 => Ok((8, 18446744073709551616)),
        DataType::UInt64 => Ok((8, 18446744073709551616)),
        DataType::Bool => Err(unserved()),
        DataType::RawBits(_) => Err(unserved()),
        DataType::String => Err(unserved()),
        DataType::Bytes => Err(unserved()),
        DataType::Optional(_) => Err(unserved()),
    }
}

// That each byte is below 256.
fn expect_bytes(bytes: &[u8])
    ensures { AllByRecursion (λ b. b < 256) bytes.now }
{}

/// Numbers of one size, each with so much added.
///
/// # Errors
/// [`CodecError`] where memory runs out.
pub fn shifted(
    alloc: Global,
    bytes: ArrayBytes<'static>,
    size: usize,
    amount: u64,
) -> Result<ArrayBytes<'static>, CodecError>
    requires fixed { is_fixed (raw_of bytes) ≡ true }
    requires some { 0 < size }
    requires few { size ≤ 8 }
    ensures value { IfOk result (λ v. raw_of v ≡ raised_raw amount size (raw_of bytes.entry)) }
    ensures proper { IfOk result (λ _. AreProper (raw_of bytes.entry)) }
    ensures memory { IfErr result (λ e. e ≡ codec.OutOfMemory) }
{
    let value = fixed_value(alloc, bytes)?;
    expect_bytes(&value);
    let out = raise_each(alloc, &value, size, amount)?;
    Ok(ArrayBytes::Fixed(CowSlice::Owned(out)))
}
