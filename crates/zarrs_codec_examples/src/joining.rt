//! Single bytes, where they stand in a value and out of the parts that hold them.

ghost use Rattle.std.specs.Prelude.{◌≡◌, ◌∷◌, [], ◌<◌, ◌^◌, true, false, map, None, Some, IfOk, IfErr, option_map};
ghost use Rattle.zarrs_codec_traits.specs.Prelude.{count_of, ends_within, has_long_element};
ghost use Rattle.zarrs_codec_traits.specs.Prelude.{region as box_of, parts_of, type_of, raw_of};
ghost use Rattle.zarrs_codec_traits.specs.Prelude.{Answers, kind_seen, unserved_error, lengths};
ghost use Rattle.zarrs_codec_error.specs.declared.error.CodecError.TheVariants as codec;
ghost use Rattle.zarrs_codec_examples.specs.SingleBytes.{is_byte as has_one_byte, byte_type_unserved, range_at, ranges_in, single_answer, singles_answer, AreJoined};

use std::alloc::{AllocError, Global};
use std::borrow::CowSlice;
use std::num::NonZeroU64;
use zarrs_array_subset::{ArraySubset, shape_numbers};
use zarrs_codec_array_bytes::ArrayBytes;
use zarrs_codec_array_bytes::array_bytes::extract::linear_indices;
use zarrs_codec_array_bytes::array_bytes::step::{Step, step_of};
use zarrs_codec_error::{CodecError, InvalidBytesLengthError};
use zarrs_data_type::DataType;
use zarrs_data_type_bytes::{CodecName, DataTypeCodecError};
use zarrs_storage::ByteRange;

fn is_byte(data_type: &DataType) -> bool
    ensures { result ≡ has_one_byte (kind_seen data_type.now) }
{
    match step_of(data_type) {
        Step::Fixed(size) => size == 1,
        Step::Variable => false,
        Step::Optional(_) => false,
    }
}

/// Tests that the elements of a type have one byte.
///
/// # Errors
/// [`CodecError::UnsupportedDataTypeCodec`] exactly where they have not.
pub fn expect_byte(data_type: &DataType) -> Result<(), CodecError>
    ensures served { IfOk result (λ _. byte_type_unserved (type_of data_type.now) ≡ None) }
    ensures refused { IfErr result (λ e. option_map unserved_error
        (byte_type_unserved (type_of data_type.now)) ≡ Some e) }
{
    if is_byte(data_type) {
        return Ok(());
    }
    Err(CodecError::UnsupportedDataTypeCodec(DataTypeCodecError::UnsupportedDataType {
        codec_name: CodecName::Other,
    }))
}

// The range of each place.
fn ranges_at(alloc: Global, places: &[u64]) -> Result<Vec<ByteRange>, AllocError>
    ensures { IfOk result (λ v. v.items ≡ map range_at places.now) }
{
    places
        .iter()
        .map(|place| ByteRange::FromStart(*place, Some(1)))
        .collect(alloc)
}

/// The ranges of a region's elements, each by itself.
///
/// # Errors
/// [`CodecError::OutOfMemory`] where memory runs out.
pub fn region_ranges(
    alloc: Global,
    region: &ArraySubset,
    shape: &[NonZeroU64],
) -> Result<Vec<ByteRange>, CodecError>
    requires count { count_of (lengths shape.now) < 2 ^ 64 }
    requires inside { ends_within (box_of region.now) (lengths shape.now) ≡ true }
    ensures value { IfOk result
        (λ v. v.items ≡ ranges_in (lengths shape.now) (box_of region.now)) }
    ensures memory { IfErr result (λ e. e ≡ codec.OutOfMemory) }
{
    let numbers = shape_numbers(alloc, shape)?;
    let places = linear_indices(alloc, region, &numbers)?;
    let ranges = ranges_at(alloc, &places)?;
    Ok(ranges)
}

// The byte that a part is.
fn single(part: &[u8]) -> Result<u8, CodecError>
    ensures value { IfOk result (λ byte. part.now ≡ byte ∷ []) }
    ensures exact { Answers (single_answer part.now) result }
{
    match part {
        [byte] => Ok(*byte),
        _ => Err(CodecError::UnexpectedChunkDecodedSize(InvalidBytesLengthError {
            len: part.len(),
            expected_len: 1,
        })),
    }
}

// The bytes that parts are, each of them one.
#[tactic(auto, using(crate::proofs::SingleLaws::first_told))]
fn joined(alloc: Global, parts: Vec<Vec<u8>>) -> Result<Vec<u8>, CodecError>
    ensures value { IfOk result (λ v. map (λ byte. byte ∷ []) v.items ≡ parts_of parts) }
    ensures exact { Answers (singles_answer (parts_of parts)) result }
{
    let mut bytes = Vec::new(alloc);
    for part in &parts {
        match single(part) {
            Ok(byte) => bytes.push(byte)?,
            Err(error) => return Err(error),
        }
    }
    Ok(bytes)
}

/// Elements of one byte, each of them a part.
///
/// # Errors
/// [`CodecError::UnexpectedChunkDecodedSize`] exactly where a part has another length, of the first one; or
/// [`CodecError::OutOfMemory`].
pub fn joined_elements(
    alloc: Global,
    parts: Vec<Vec<u8>>,
) -> Result<ArrayBytes<'static>, CodecError>
    ensures value { IfOk result (λ v. AreJoined (parts_of parts) (raw_of v)) }
    ensures exact { Answers (singles_answer (parts_of parts)) result }
    ensures short { IfOk result (λ v. has_long_element (raw_of v) ≡ false) }
{
    match joined(alloc, parts) {
        Ok(bytes) => Ok(ArrayBytes::Fixed(CowSlice::Owned(bytes))),
        Err(error) => Err(error),
    }
}
