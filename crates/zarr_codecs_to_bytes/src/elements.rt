//! Elements of any length as one value, and back.

ghost use Rattle.std.specs.Prelude.{◌≡◌, ◌&&◌, ◌^◌, not, nat_lt, length, true, false, Some, IfOk, MatchResult};
ghost use Rattle.zarrs_codec_traits.specs.Prelude.{variable, variable_bytes, meaning, decode_vlen};
ghost use Rattle.zarrs_codec_traits.specs.Prelude.{has_long_step, has_long_element, raw_of, fine};
ghost use Rattle.zarrs_codec_traits.specs.Prelude.{validity, Answers, IsDecodeError, Gives};
ghost use Rattle.zarr_model.specs.ArrayBytes as model;
ghost use Rattle.zarrs_codec_error.specs.declared.error.CodecError.TheVariants as codec;
ghost use Rattle.zarr_codecs_to_bytes.specs.Values.{elements_between, AreValues};
ghost use Rattle.zarr_codecs_to_bytes.specs.VlenCodec.{vlen_beyond};

use crate::{decode_values, encode_values};
use std::alloc::Global;
use zarrs_codec_array_bytes::array_bytes::long::vlen_fits;
use zarrs_codec_array_bytes::{ArrayBytes, ArrayBytesVariableLength};
use zarrs_codec_error::CodecError;

// Whether neither the number of elements nor the length of one takes more than 4 bytes.
fn are_short(number: u64, offsets: &[usize]) -> bool
    ensures { result ≡ (nat_lt number (2 ^ 32) && not (has_long_step offsets.now)) }
{
    number < 1 << 32 && vlen_fits(offsets)
}

// The value of so many elements between offsets.
#[tactic(auto, using(crate::proofs::CodecLaws::few_offsets, crate::proofs::CodecLaws::own_values, crate::proofs::CodecLaws::decoded_again))]
fn encode_variable(
    alloc: Global,
    bytes: &[u8],
    offsets: &[usize],
    number: u64,
) -> Result<Vec<u8>, CodecError>
    requires valid { model.are_offsets number (length bytes.now) offsets.now ≡ true }
    ensures exact { Answers (vlen_beyond number (variable_bytes bytes.now offsets.now)) result }
    ensures value { IfOk result
        (λ v. decode_vlen number v.items ≡ Some (elements_between offsets.now bytes.now)) }
{
    if !are_short(number, offsets) {
        return Err(CodecError::InvalidVariableSizedArrayOffsets);
    }
    let value = encode_values(alloc, bytes, offsets)?;
    Ok(value)
}

/// The value of so many elements, which decodes to them.
///
/// # Errors
/// `InvalidVariableSizedArrayOffsets` exactly where there are 2^32 or more, or one of them is as long; or
/// `OutOfMemory`.
#[tactic(auto, using(crate::proofs::CodecLaws::valid_variable, crate::proofs::CodecLaws::valid_offsets, crate::proofs::CodecLaws::valid_meaning))]
pub fn encode_elements(
    alloc: Global,
    bytes: &ArrayBytes<'_>,
    number: u64,
) -> Result<Vec<u8>, CodecError>
    requires valid { validity variable number (raw_of bytes.now) ≡ fine }
    ensures exact { Answers (vlen_beyond number (raw_of bytes.now)) result }
    ensures value { IfOk result
        (λ v. decode_vlen number v.items ≡ meaning variable number (raw_of bytes.now)) }
{
    let ArrayBytes::Variable(variable) = bytes else {
        unreachable!();
    };
    let value = encode_variable(alloc, variable.items(), variable.numbers(), number)?;
    Ok(value)
}

// The elements between offsets, as array bytes.
#[tactic(auto, using(crate::proofs::CodecLaws::some_offsets, crate::proofs::CodecLaws::all_within))]
fn variable_elements(bytes: Vec<u8>, offsets: Vec<usize>, number: u64) -> ArrayBytes<'static>
    requires valid { AreValues number bytes.items offsets.items }
    ensures { raw_of result ≡ variable_bytes bytes.items offsets.items }
{
    ArrayBytes::Variable(ArrayBytesVariableLength::from_gathered(bytes, offsets))
}

/// So many elements, which the value decodes to.
///
/// # Errors
/// `InvalidVariableSizedArrayOffsets` exactly where it does not; or `OutOfMemory`.
#[tactic(auto, using(crate::proofs::CodecLaws::held_elements))]
pub fn decode_elements(
    alloc: Global,
    value: &[u8],
    number: u64,
) -> Result<ArrayBytes<'static>, CodecError>
    ensures value { MatchResult result
        (λ v. Gives (meaning variable number (raw_of v)) (decode_vlen number value.now))
        (IsDecodeError (decode_vlen number value.now)
        (λ e. e ≡ codec.InvalidVariableSizedArrayOffsets)) }
    ensures short { IfOk result (λ v. has_long_element (raw_of v) ≡ false) }
{
    let Some((bytes, offsets)) = decode_values(alloc, value, number)? else {
        return Err(CodecError::InvalidVariableSizedArrayOffsets);
    };
    Ok(variable_elements(bytes, offsets, number))
}
