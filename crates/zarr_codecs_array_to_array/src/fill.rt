//! The fill value below an offset.

ghost use Rattle.std.specs.Prelude.{◌≡◌, ◌≤◌, ◌^◌, ◌==◌, ℤ, length, true, IfOk, MatchResult};
ghost use Rattle.zarrs_data_type_bytes.specs.FillValue.{fill_bytes};
ghost use Rattle.zarrs_codec_error.specs.declared.error.CodecError.TheVariants as codec;
ghost use Rattle.zarrs_codec_traits.specs.Errors.{FillAnswers};
ghost use Rattle.zarr_codecs_elements.specs.Numbers.{bytes_less, TakesOff};

use std::alloc::Global;
use zarr_codecs_elements::raise;
use zarrs_codec_error::CodecError;
use zarrs_data_type_bytes::{DataTypeFillValueError, FillValue};

/// The number in a fill value of `size` bytes, and so much more.
///
/// # Errors
/// `DataTypeFillValueError` exactly where the fill value has another size, or memory runs out.
#[tactic(auto, using(crate::proofs::FillLaws::raised_fill))]
pub fn shifted_fill(
    alloc: Global,
    fill_value: &FillValue,
    size: usize,
    amount: u64,
) -> Result<FillValue, CodecError>
    requires { size ≤ 8 }
    ensures exact { FillAnswers (length (fill_bytes fill_value.now) == size) result }
    ensures sized { (length (fill_bytes fill_value.now) == size) ≡ true
        → MatchResult result (λ _. Unit {0}) (λ e. e ≡ codec.OutOfMemory) }
    ensures value { (offset : ℤ) → TakesOff (256 ^ size) offset amount
        → IfOk result (λ r. fill_bytes r ≡ bytes_less offset (fill_bytes fill_value.now)) }
{
    if fill_value.size() != size {
        return Err(CodecError::DataTypeFillValueError(DataTypeFillValueError));
    }
    let bytes = raise(alloc, fill_value.as_ne_bytes(), amount)?;
    Ok(FillValue::new(bytes))
}
