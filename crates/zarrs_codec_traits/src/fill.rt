//! A fill value that a codec hands on as it is.

ghost use Rattle.std.specs.Prelude.{◌≡◌, true, IsSome, IfOk, IfErr, MatchResult};
ghost use Rattle.zarr_model.specs.Element.{fill_element};
ghost use Rattle.zarrs_data_type_bytes.specs.FillValue.{fill_bytes};
ghost use Rattle.zarrs_codec_slices.specs.Filling.{has_size};
ghost use Rattle.zarrs_codec_error.specs.declared.error.CodecError.TheVariants as codec;
ghost use Rattle.zarrs_codec_array_bytes.specs.Steps.{kind_seen};
ghost use Rattle.zarrs_codec_traits.specs.Errors.{FillAnswers};

use std::alloc::Global;
use zarrs_codec_array_bytes::ArrayBytes;
use zarrs_codec_error::CodecError;
use zarrs_data_type::DataType;
use zarrs_data_type_bytes::FillValue;

// Whether a fill value has the size of the type's.
fn expect_size(
    alloc: Global,
    data_type: &DataType,
    fill_value: &FillValue,
) -> Result<(), CodecError>
    ensures exact { FillAnswers (has_size (kind_seen data_type.now) (fill_bytes fill_value.now))
        result }
    ensures sized { IfOk result
        (λ _. has_size (kind_seen data_type.now) (fill_bytes fill_value.now) ≡ true) }
    ensures memory { IsSome (fill_element (kind_seen data_type.now) (fill_bytes fill_value.now))
        → IfErr result (λ e. e ≡ codec.OutOfMemory) }
{
    match ArrayBytes::new_fill_value(alloc, data_type, 0, fill_value) {
        Ok(_) => Ok(()),
        Err(error) => Err(error),
    }
}

/// The same fill value, where it has the size of the type's.
///
/// # Errors
/// `DataTypeFillValueError` exactly where the fill value has another size; or where memory runs out.
pub fn same_fill(
    alloc: Global,
    data_type: &DataType,
    fill_value: &FillValue,
) -> Result<FillValue, CodecError>
    ensures exact { FillAnswers (has_size (kind_seen data_type.now) (fill_bytes fill_value.now))
        result }
    ensures sized { IfOk result
        (λ _. has_size (kind_seen data_type.now) (fill_bytes fill_value.now) ≡ true) }
    ensures value { MatchResult result (λ r. fill_bytes r ≡ fill_bytes fill_value.now)
        (λ e. IsSome (fill_element (kind_seen data_type.now) (fill_bytes fill_value.now))
        → e ≡ codec.OutOfMemory) }
{
    expect_size(alloc, data_type, fill_value)?;
    let copy = fill_value.try_clone(alloc)?;
    Ok(copy)
}
