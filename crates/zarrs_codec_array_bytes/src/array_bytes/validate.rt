//! Whether array bytes mean elements.

ghost use Rattle.std.specs.Prelude.{◌≡◌, ◌<◌, ◌*◌, ◌^◌, ◌+◌, nat_le};
ghost use Rattle.std.specs.List.{list_all};
ghost use Rattle.zarr_model.specs.ArrayBytes.{are_offsets, offsets_rise_to, is_mask};
ghost use Rattle.zarrs_codec_array_bytes.specs.Steps.{kind_seen, bytes_seen};
ghost use Rattle.zarrs_codec_array_bytes.specs.Raw.{raw_of};
ghost use Rattle.zarrs_codec_array_bytes.specs.Refusals.{told, validity};

use super::checks::{not_fixed, not_optional, not_variable};
use super::step::{Step, step_of};
use super::{ArrayBytes, bytes_in};
use zarrs_codec_error::{CodecError, InvalidBytesLengthError};
use zarrs_data_type::DataType;

// Whether each byte is 0 or 1.
fn are_flags(mask: &[u8]) -> bool
    ensures { result ≡ list_all (λ b. nat_le b 1) mask.now }
{
    for b in mask {
        if *b > 1 {
            return false;
        }
    }
    true
}

// Whether this is a mask of so many elements.
fn is_mask_of(elements: u64, mask: &[u8]) -> bool
    ensures { result ≡ is_mask elements mask.now }
{
    mask.len() as u64 == elements && are_flags(mask)
}

// Whether from this offset on none is less than the one before it, and the last one is the end.
fn rise_to(end: usize, from: usize, offsets: &[usize]) -> bool
    ensures { result ≡ offsets_rise_to end from offsets.now }
{
    let mut last = from;
    for to in offsets {
        if *to < last {
            return false;
        }
        last = *to;
    }
    last == end
}

// Whether these are the offsets of so many elements in so many bytes.
fn are_offsets_of(elements: u64, end: usize, offsets: &[usize]) -> bool
    ensures { result ≡ are_offsets elements end offsets.now }
{
    match offsets {
        [] => false,
        [first, rest @ ..] => {
            rest.len() as u64 == elements && (*first == 0 && rise_to(end, *first, rest))
        }
    }
}

impl<'a> ArrayBytes<'a> {
    /// Whether the bytes mean so many elements of the data type.
    ///
    /// # Errors
    /// [`CodecError`] with the first refusal, the outermost level first: the bytes are of another kind, a mask has
    /// another length or a byte that is neither 0 nor 1, the bytes have another length, or the offsets do not begin
    /// at 0, fall, or do not end where the bytes end.
    pub fn validate(&self, num_elements: u64, data_type: &DataType) -> Result<(), CodecError>
        requires count { num_elements + 1 < 2 ^ 64 }
        requires bytes { num_elements * bytes_seen data_type.now < 2 ^ 64 }
        ensures { told result ≡ validity (kind_seen data_type.now) num_elements (raw_of self.now) }
    {
        match step_of(data_type) {
            Step::Fixed(size) => match self {
                ArrayBytes::Fixed(bytes) => {
                    let len = bytes_in(bytes).len();
                    let expected_len = num_elements as usize * size;
                    if len == expected_len {
                        Ok(())
                    } else {
                        Err(CodecError::UnexpectedChunkDecodedSize(InvalidBytesLengthError {
                            len,
                            expected_len,
                        }))
                    }
                }
                ArrayBytes::Variable(_) => Err(not_fixed()),
                ArrayBytes::Optional(_) => Err(not_fixed()),
            },
            Step::Variable => match self {
                ArrayBytes::Variable(variable) => {
                    if are_offsets_of(num_elements, variable.items().len(), variable.numbers()) {
                        Ok(())
                    } else {
                        Err(CodecError::InvalidVariableSizedArrayOffsets)
                    }
                }
                ArrayBytes::Fixed(_) => Err(not_variable()),
                ArrayBytes::Optional(_) => Err(not_variable()),
            },
            Step::Optional(inner) => match self {
                ArrayBytes::Optional(optional) => {
                    if !is_mask_of(num_elements, optional.flags()) {
                        return Err(CodecError::InvalidMask);
                    }
                    optional.data().validate(num_elements, inner)
                }
                ArrayBytes::Fixed(_) => Err(not_optional()),
                ArrayBytes::Variable(_) => Err(not_optional()),
            },
        }
    }
}
