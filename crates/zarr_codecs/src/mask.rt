//! Masks of optional elements, and the values behind them.

ghost use Rattle.std.specs.Prelude.{◌≡◌, ◌++◌, nat_le, IfOk, IfErr};
ghost use Rattle.std.specs.List.{list_all};
ghost use Rattle.std.specs.Cow.{cow_slice_items};
ghost use Rattle.zarr_model.specs.ArrayBytes as model;
ghost use Rattle.zarrs_codec_traits.specs.Prelude.{optional_bytes, raw_of, told};
ghost use Rattle.zarr_codecs.specs.Plain.{mask_answer};
ghost use Rattle.zarr_codecs.specs.Answers.{IsSplit, IsUnsplit};

use std::alloc::{AllocError, Global};
use zarrs_codec_array_bytes::array_bytes::bytes_in;
use zarrs_codec_array_bytes::array_bytes::checks::not_optional;
use zarrs_codec_array_bytes::{ArrayBytes, ArrayBytesRaw};
use zarrs_codec_error::{CodecError, InvalidBytesLengthError};

// Whether each byte is 0 or 1.
fn are_flags(mask: &[u8]) -> bool
    ensures { result ≡ list_all (λ b. nat_le b 1) mask.now }
{
    for b in mask {
        if *b > 1 {
            return false;
        }
    }
    true
}

// Whether there is a byte for each element, and each is 0 or 1.
fn is_mask(mask: &[u8], number: u64) -> bool
    ensures { result ≡ model.is_mask number mask.now }
{
    mask.len() as u64 == number && are_flags(mask)
}

/// The mask of so many elements, and the value behind it.
///
/// # Errors
/// `UnexpectedChunkDecodedSize` exactly where the value is shorter than the mask, else `InvalidMask` exactly where a
/// mask byte is neither 0 nor 1; or `OutOfMemory`.
pub fn split_value(
    alloc: Global,
    value: &[u8],
    number: u64,
) -> Result<(Vec<u8>, Vec<u8>), CodecError>
    ensures split { IfOk result (λ p. IsSplit number value.now p.0.items p.1.items) }
    ensures refused { IfErr result (IsUnsplit number value.now) }
{
    let expected_len = number as usize;
    if value.len() < expected_len {
        return Err(CodecError::UnexpectedChunkDecodedSize(InvalidBytesLengthError {
            len: value.len(),
            expected_len,
        }));
    }
    let (front, back) = value.split_at(expected_len);
    if !is_mask(front, number) {
        return Err(CodecError::InvalidMask);
    }
    let mask = Vec::from_slice(alloc, front)?;
    let rest = Vec::from_slice(alloc, back)?;
    Ok((mask, rest))
}

/// What stands under the mask of so many optional elements, and the mask.
///
/// # Errors
/// `ExpectedOptionalBytes` exactly where they have no mask, else `InvalidMask` exactly where it has another length, or
/// a byte that is neither 0 nor 1.
pub fn masked_parts(
    bytes: ArrayBytes<'static>,
    number: u64,
) -> Result<(ArrayBytes<'static>, ArrayBytesRaw<'static>), CodecError>
    ensures parts { IfOk result
        (λ p. raw_of bytes.entry ≡ optional_bytes (raw_of p.0) (cow_slice_items p.1)) }
    ensures answer { told result ≡ mask_answer number (raw_of bytes.entry) }
{
    let optional = match bytes.into_optional() {
        Ok(optional) => optional,
        Err(_) => return Err(not_optional()),
    };
    let (under, mask) = optional.into_parts();
    if !is_mask(bytes_in(&mask), number) {
        return Err(CodecError::InvalidMask);
    }
    Ok((Box::into_inner(under), mask))
}

/// A mask, and a value behind it.
///
/// # Errors
/// [`AllocError`] where memory runs out.
pub fn join(alloc: Global, mask: &ArrayBytesRaw<'_>, value: &[u8]) -> Result<Vec<u8>, AllocError>
    ensures { IfOk result (λ v. v.items ≡ cow_slice_items mask.now ++ value.now) }
{
    let mask = bytes_in(mask);
    let mut joined = Vec::with_capacity(alloc, mask.len().saturating_add(value.len()))?;
    joined.extend_from_slice(mask)?;
    joined.extend_from_slice(value)?;
    Ok(joined)
}
