//! What has to hold of array bytes before elements are taken out of them or put into them.

ghost use Rattle.std.specs.Prelude.{◌≡◌, ◌==◌, ◌*◌, ◌+◌, ◌-◌, ◌^◌, Some, None, min, is_ok, true, ◌<◌, IfOk, IfErr};
ghost use Rattle.zarr_model.specs.Region.{count_of};
ghost use Rattle.zarr_model.specs.Command.{expected_fixed_length_bytes, expected_variable_length_bytes, expected_optional_bytes};
ghost use Rattle.zarrs_codec_array_bytes.specs.Steps.{kind_seen};
ghost use Rattle.zarrs_codec_array_bytes.specs.Raw.{raw_of};
ghost use Rattle.zarrs_codec_array_bytes.specs.Refusals.{told, told_by, refused, fine, refusal_answer, Answers, first_answer, IfUnfit, kind_refusal, lengths_refusal, lengths_answer, holds_fixed};

use super::step::{Step, step_of};
use super::{ArrayBytes, bytes_in};
use std::alloc::Global;
use zarrs_chunk_grid_indexer::Indexer;
use zarrs_codec_error::{
    CodecError, ExpectedFixedLengthBytesError, ExpectedOptionalBytesError,
    ExpectedVariableLengthBytesError, InvalidBytesLengthError,
};
use zarrs_data_type::DataType;

/// The refusal of bytes that are not of one size.
pub fn not_fixed() -> CodecError
    ensures { told_by result ≡ refused expected_fixed_length_bytes }
{
    CodecError::ExpectedFixedLengthBytes(ExpectedFixedLengthBytesError)
}

/// The refusal of bytes that are not of any size.
pub fn not_variable() -> CodecError
    ensures { told_by result ≡ refused expected_variable_length_bytes }
{
    CodecError::ExpectedVariableLengthBytes(ExpectedVariableLengthBytesError)
}

/// The refusal of bytes that have no mask.
pub fn not_optional() -> CodecError
    ensures { told_by result ≡ refused expected_optional_bytes }
{
    CodecError::ExpectedOptionalBytes(ExpectedOptionalBytesError)
}

/// Whether the bytes are of the kind of the data type, the outermost level first.
///
/// # Errors
/// [`CodecError`] with the name of the kind that is expected.
pub fn expect_kind(bytes: &ArrayBytes<'_>, data_type: &DataType) -> Result<(), CodecError>
    ensures { told result
        ≡ refusal_answer (kind_refusal (kind_seen data_type.now) (raw_of bytes.now)) }
{
    match step_of(data_type) {
        Step::Fixed(_) => match bytes {
            ArrayBytes::Fixed(_) => Ok(()),
            ArrayBytes::Variable(_) => Err(not_fixed()),
            ArrayBytes::Optional(_) => Err(not_fixed()),
        },
        Step::Variable => match bytes {
            ArrayBytes::Variable(_) => Ok(()),
            ArrayBytes::Fixed(_) => Err(not_variable()),
            ArrayBytes::Optional(_) => Err(not_variable()),
        },
        Step::Optional(inner) => match bytes {
            ArrayBytes::Optional(optional) => expect_kind(optional.data(), inner),
            ArrayBytes::Fixed(_) => Err(not_optional()),
            ArrayBytes::Variable(_) => Err(not_optional()),
        },
    }
}

// Whether a length is the product; the product, or the greatest number, is what was expected.
fn expect_product(len: usize, number: u64, size: usize) -> Result<(), usize>
    ensures exact { is_ok result ≡ (len == number * size) }
    ensures told { IfErr result (λ e. e ≡ min (number * size) (2 ^ 64 - 1)) }
{
    match number.checked_mul(size as u64) {
        Some(expected) => {
            if len as u64 == expected {
                Ok(())
            } else {
                Err(expected as usize)
            }
        }
        None => Err(usize::MAX),
    }
}

// Whether there is an offset more than elements.
fn is_one_more(len: usize, number: u64) -> bool
    ensures { result ≡ (len == number + 1) }
{
    len != 0 && len as u64 - 1 == number
}

/// Whether the bytes are as long as so many elements are, the outermost level first.
///
/// # Errors
/// [`CodecError`] with the name of the length that is wrong.
pub fn expect_lengths(bytes: &ArrayBytes<'_>, number: u64, size: usize) -> Result<(), CodecError>
    ensures answer { told result ≡ lengths_answer size number (raw_of bytes.now) }
    ensures ok { IfOk result (λ _. lengths_refusal size number (raw_of bytes.now) ≡ None) }
{
    match bytes {
        ArrayBytes::Fixed(items) => {
            let len = bytes_in(items).len();
            match expect_product(len, number, size) {
                Ok(()) => Ok(()),
                Err(expected_len) => Err(CodecError::UnexpectedChunkDecodedSize(
                    InvalidBytesLengthError { len, expected_len },
                )),
            }
        }
        ArrayBytes::Variable(variable) => {
            if is_one_more(variable.numbers().len(), number) {
                Ok(())
            } else {
                Err(CodecError::InvalidVariableSizedArrayOffsets)
            }
        }
        ArrayBytes::Optional(optional) => {
            if optional.flags().len() as u64 != number {
                return Err(CodecError::InvalidMask);
            }
            expect_lengths(optional.data(), number, size)
        }
    }
}

/// Whether the innermost data are of one size.
pub fn is_fixed_inside(bytes: &ArrayBytes<'_>) -> bool
    ensures { result ≡ holds_fixed (raw_of bytes.now) }
{
    match bytes {
        ArrayBytes::Fixed(_) => true,
        ArrayBytes::Variable(_) => false,
        ArrayBytes::Optional(optional) => is_fixed_inside(optional.data()),
    }
}

/// Whether the indexer fits the shape.
///
/// # Errors
/// [`CodecError`] that holds the indexer's own refusal, or where memory runs out.
pub fn expect_fit<I: Indexer>(alloc: Global, indexer: &I, shape: &[u64]) -> Result<(), CodecError>
    requires { count_of shape.now < 2 ^ 64 }
    ensures fits { IfOk result (λ _. I.fits indexer.now shape.now ≡ true) }
    ensures answer { Answers (first_answer None (I.fits indexer.now shape.now) fine) result }
    ensures unfit { IfErr result (IfUnfit (I.refuses indexer.now shape.now)) }
{
    match indexer.iter_contiguous_linearised_indices(alloc, shape) {
        Ok(_) => Ok(()),
        Err(error) => Err(CodecError::from(error)),
    }
}
