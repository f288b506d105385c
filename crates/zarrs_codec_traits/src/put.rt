//! Elements put into views.

ghost use Rattle.std.specs.Prelude.{◌≡◌, ◌==◌, [], true, false, IfOk, IfErr};
ghost use Rattle.zarrs_codec_array_bytes.specs.Raw.{raw_of};
ghost use Rattle.zarrs_codec_array_bytes.specs.Refusals.{told};
ghost use Rattle.zarrs_codec_array_bytes_parts.specs.Targets.{target_answer, ArePut};
ghost use Rattle.zarrs_codec_traits.specs.Into.{RefusesCount};

use zarrs_codec_array_bytes::ArrayBytes;
use zarrs_codec_array_bytes_parts::{
    ArrayBytesDecodeIntoTarget, ArrayBytesFixedDisjointView, decode_into_array_bytes_target,
};
use zarrs_codec_error::{CodecError, InvalidNumberOfElementsError};

/// Tests that a target has as many elements as are expected.
///
/// # Errors
/// `InvalidNumberOfElements` exactly where it has another number.
pub fn expect_number(num: u64, expected: u64) -> Result<(), CodecError>
    ensures same { IfOk result (λ _. (num == expected) ≡ true) }
    ensures other { IfErr result (λ _. (num == expected) ≡ false) }
    ensures refused { RefusesCount (num == expected) num expected result }
{
    if num == expected {
        return Ok(());
    }
    Err(CodecError::InvalidNumberOfElements(InvalidNumberOfElementsError { num, expected }))
}

/// Puts elements of one size into a view.
///
/// # Errors
/// [`CodecError`] as the target of that view answers. The view is as it was then.
pub fn put_fixed(
    bytes: &ArrayBytes<'_>,
    data: &mut ArrayBytesFixedDisjointView<'_>,
) -> Result<(), CodecError>
    ensures exact { told result ≡ target_answer (raw_of bytes.now) [] «data».old }
    ensures put { IfOk result (λ _. ArePut (raw_of bytes.now) [] [] «data».old «data».new) }
    ensures kept { IfErr result (λ _. «data».new ≡ «data».old) }
{
    decode_into_array_bytes_target(bytes, ArrayBytesDecodeIntoTarget::Fixed(data))
}

/// Puts optional elements into the views of their masks and of their innermost data.
///
/// # Errors
/// [`CodecError`] as the target of those views answers. They are as they were then.
pub fn put_optional<'a>(
    bytes: &ArrayBytes<'_>,
    data: &mut ArrayBytesFixedDisjointView<'a>,
    masks: &mut [ArrayBytesFixedDisjointView<'a>],
) -> Result<(), CodecError>
    ensures exact { told result ≡ target_answer (raw_of bytes.now) masks.old «data».old }
    ensures put { IfOk result
        (λ _. ArePut (raw_of bytes.now) masks.old masks.new «data».old «data».new) }
    ensures kept { IfErr result (λ _. («data».new ≡ «data».old) × (masks.new ≡ masks.old)) }
{
    decode_into_array_bytes_target(bytes, ArrayBytesDecodeIntoTarget::Optional(data, masks))
}
