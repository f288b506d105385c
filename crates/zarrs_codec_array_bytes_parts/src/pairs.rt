//! Whether two array bytes are of one kind.

ghost use Rattle.std.specs.Prelude.{◌≡◌, Some};
ghost use Rattle.zarr_model.specs.DataTypeSize.{size_seen};
ghost use Rattle.zarrs_codec_array_bytes.specs.Raw.{raw_of};
ghost use Rattle.zarrs_codec_array_bytes.specs.Refusals.{told, refusal_answer};
ghost use Rattle.zarrs_codec_array_bytes_parts.specs.Pairs.{pair_refusal, mixture_refusal, fixed_pair_refusal, variable_pair_refusal};

use zarr_model::DataTypeSize;
use zarrs_codec_array_bytes::ArrayBytes;
use zarrs_codec_array_bytes::array_bytes::checks::{not_fixed, not_variable};
use zarrs_codec_error::CodecError;

// The refusal of two values of different kinds.
fn mixture(size: DataTypeSize) -> Result<(), CodecError>
    ensures { told result ≡ refusal_answer (Some (mixture_refusal (size_seen size))) }
{
    match size {
        DataTypeSize::Variable => Err(not_variable()),
        DataTypeSize::Fixed(_) => Err(not_fixed()),
    }
}

// The innermost level, where both are of one size, and where both are of any size.
fn fixed_pair(size: DataTypeSize) -> Result<(), CodecError>
    ensures { told result ≡ refusal_answer (fixed_pair_refusal (size_seen size)) }
{
    match size {
        DataTypeSize::Variable => Err(not_variable()),
        DataTypeSize::Fixed(_) => Ok(()),
    }
}

fn variable_pair(size: DataTypeSize) -> Result<(), CodecError>
    ensures { told result ≡ refusal_answer (variable_pair_refusal (size_seen size)) }
{
    match size {
        DataTypeSize::Variable => Ok(()),
        DataTypeSize::Fixed(_) => Err(not_fixed()),
    }
}

/// Whether both are of one kind, level by level, and the innermost ones of this size.
///
/// # Errors
/// [`CodecError`] with the name of the kind that is expected.
pub fn expect_pair(
    size: DataTypeSize,
    old: &ArrayBytes<'_>,
    new: &ArrayBytes<'_>,
) -> Result<(), CodecError>
    ensures { told result
        ≡ refusal_answer (pair_refusal (size_seen size) (raw_of old.now) (raw_of new.now)) }
{
    match old {
        ArrayBytes::Fixed(_) => match new {
            ArrayBytes::Fixed(_) => fixed_pair(size),
            ArrayBytes::Variable(_) => mixture(size),
            ArrayBytes::Optional(_) => mixture(size),
        },
        ArrayBytes::Variable(_) => match new {
            ArrayBytes::Variable(_) => variable_pair(size),
            ArrayBytes::Fixed(_) => mixture(size),
            ArrayBytes::Optional(_) => mixture(size),
        },
        ArrayBytes::Optional(a) => match new {
            ArrayBytes::Optional(b) => expect_pair(size, a.data(), b.data()),
            ArrayBytes::Fixed(_) => mixture(size),
            ArrayBytes::Variable(_) => mixture(size),
        },
    }
}
