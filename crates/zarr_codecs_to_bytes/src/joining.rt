//! The parts of a value that hold the runs of a region, one after another.

ghost use Rattle.std.specs.Prelude.{◌≡◌, ◌*◌, ◌/◌, ◌<◌, ◌^◌, IfOk};
ghost use Rattle.std.specs.List.{concat};
ghost use Rattle.zarrs_codec_traits.specs.Prelude.{count, region as box_of, parts_of, type_of};
ghost use Rattle.zarrs_codec_traits.specs.Prelude.{Answers};
ghost use Rattle.zarr_codecs_to_bytes.specs.BytesCodec.{element_bytes};
ghost use Rattle.zarr_codecs_to_bytes.specs.Ranges.{part_answer, parts_answer, even_answer};

use std::alloc::Global;
use zarrs_array_subset::ArraySubset;
use zarrs_codec_array_bytes::array_bytes::step::element_size;
use zarrs_codec_error::{CodecError, InvalidBytesLengthError};
use zarrs_codec_traits::only_part;
use zarrs_data_type::DataType;

// How many bytes each of so many parts of one length has, which have so many together.
#[tactic(auto, using(crate::proofs::PartLaws::of_none))]
fn part_length(total: usize, number: usize) -> usize
    ensures { result ≡ total / number }
{
    if number == 0 { 0 } else { total / number }
}

// A part of another length than it must have is refused.
fn expect_length(part: &[u8], expected_len: usize) -> Result<(), CodecError>
    ensures { Answers (part_answer expected_len part.now) result }
{
    if part.len() == expected_len {
        return Ok(());
    }
    Err(CodecError::UnexpectedChunkDecodedSize(InvalidBytesLengthError {
        len: part.len(),
        expected_len,
    }))
}

// The bytes of parts, each of which must have this length, one after another.
#[tactic(auto, using(crate::proofs::PartLaws::first_told, crate::proofs::PartLaws::no_more))]
fn joined(
    alloc: Global,
    parts: Vec<Vec<u8>>,
    part_len: usize,
    total: usize,
) -> Result<Vec<u8>, CodecError>
    ensures value { IfOk result (λ v. v.items ≡ concat (parts_of parts)) }
    ensures exact { Answers (parts_answer part_len (parts_of parts)) result }
{
    let mut bytes = Vec::with_capacity(alloc, total)?;
    for part in &parts {
        match expect_length(part, part_len) {
            Ok(()) => bytes.extend_from_slice(part)?,
            Err(error) => return Err(error),
        }
    }
    Ok(bytes)
}

// The bytes of one part, which must have this length.
fn alone(part: Vec<u8>, expected_len: usize) -> Result<Vec<u8>, CodecError>
    ensures value { IfOk result (λ v. v.items ≡ part.items) }
    ensures exact { Answers (part_answer expected_len part.items) result }
{
    match expect_length(&part, expected_len) {
        Ok(()) => Ok(part),
        Err(error) => Err(error),
    }
}

// The bytes of parts of one length, one after another, which must have so many together. One part is given as it is.
#[tactic(auto, using(crate::proofs::PartLaws::single_told, crate::proofs::PartLaws::single_joined))]
fn joined_parts(alloc: Global, parts: Vec<Vec<u8>>, total: usize) -> Result<Vec<u8>, CodecError>
    ensures value { IfOk result (λ v. v.items ≡ concat (parts_of parts)) }
    ensures exact { Answers (even_answer total (parts_of parts)) result }
{
    let number = parts.len();
    if number == 1 {
        return alone(only_part(parts), total);
    }
    joined(alloc, parts, part_length(total, number), total)
}

/// The bytes of a region's elements, by the parts that its runs ask for.
///
/// # Errors
/// [`CodecError::UnexpectedChunkDecodedSize`] exactly where a part has another length than its range, of the first one;
/// or [`CodecError::OutOfMemory`].
pub(crate) fn region_parts(
    alloc: Global,
    parts: Vec<Vec<u8>>,
    region: &ArraySubset,
    data_type: &DataType,
) -> Result<Vec<u8>, CodecError>
    requires few { count (box_of region.now) < 2 ^ 64 }
    requires room { count (box_of region.now) * element_bytes (type_of data_type.now) < 2 ^ 64 }
    ensures value { IfOk result (λ v. v.items ≡ concat (parts_of parts)) }
    ensures exact { Answers (even_answer
        (count (box_of region.now) * element_bytes (type_of data_type.now))
        (parts_of parts)) result }
{
    let total = region.num_elements() as usize * element_size(data_type);
    joined_parts(alloc, parts, total)
}
