//! Fill values that are put into a target.

ghost use Rattle.std.specs.Prelude.{◌≡◌, ◌+◌, ◌*◌, ◌<◌, ◌^◌, [], IfOk, IfErr};
ghost use Rattle.zarr_model.specs.Region.{count};
ghost use Rattle.zarrs_array_subset.specs.ArraySubset.{region};
ghost use Rattle.zarrs_data_type_bytes.specs.FillValue.{fill_bytes};
ghost use Rattle.zarrs_codec_slices.specs.Filling.{has_size, filled_with};
ghost use Rattle.zarrs_codec_array_bytes.specs.Steps.{kind_seen, bytes_seen};
ghost use Rattle.zarrs_codec_array_bytes.specs.Refusals.{Answers, fill_answer, then_answer};
ghost use Rattle.zarrs_codec_array_bytes_parts.specs.TargetViews.{inner_view, mask_views};
ghost use Rattle.zarrs_codec_array_bytes_parts.specs.Targets.{LeftBehind, target_answer, ArePut};

use crate::array_bytes_fixed_disjoint_view::ArrayBytesFixedDisjointView;
use crate::decode_into_target::{
    ArrayBytesDecodeIntoTarget, decode_into_fixed, decode_into_optional,
};
use std::alloc::Global;
use zarrs_codec_array_bytes::ArrayBytes;
use zarrs_codec_error::CodecError;
use zarrs_data_type::DataType;
use zarrs_data_type_bytes::FillValue;

// Fills elements of one size.
fn fill_fixed(
    alloc: Global,
    data_type: &DataType,
    fill_value: &FillValue,
    data: &mut ArrayBytesFixedDisjointView<'_>,
) -> Result<(), CodecError>
    requires count { count (region «data».old.part.subset) + 1 < 2 ^ 64 }
    requires bytes { count (region «data».old.part.subset) * bytes_seen data_type.now < 2 ^ 64 }
    ensures exact { Answers (then_answer
        (fill_answer (has_size (kind_seen data_type.now) (fill_bytes fill_value.now)))
        (target_answer (filled_with (kind_seen data_type.now)
        (count (region «data».old.part.subset)) (fill_bytes fill_value.now)) []
        «data».old)) result }
    ensures put { IfOk result (λ _. ArePut (filled_with (kind_seen data_type.now)
        (count (region «data».old.part.subset)) (fill_bytes fill_value.now)) [] []
        «data».old «data».new) }
    ensures kept { IfErr result (λ _. «data».new ≡ «data».old) }
{
    let num_elements = data.num_elements();
    let bytes = ArrayBytes::new_fill_value(alloc, data_type, num_elements, fill_value)?;
    decode_into_fixed(&bytes, data)
}

// Fills optional elements.
fn fill_optional(
    alloc: Global,
    data_type: &DataType,
    fill_value: &FillValue,
    data: &mut ArrayBytesFixedDisjointView<'_>,
    masks: &mut [ArrayBytesFixedDisjointView<'_>],
) -> Result<(), CodecError>
    requires count { count (region «data».old.part.subset) + 1 < 2 ^ 64 }
    requires bytes { count (region «data».old.part.subset) * bytes_seen data_type.now < 2 ^ 64 }
    ensures exact { Answers (then_answer
        (fill_answer (has_size (kind_seen data_type.now) (fill_bytes fill_value.now)))
        (target_answer (filled_with (kind_seen data_type.now)
        (count (region «data».old.part.subset)) (fill_bytes fill_value.now))
        masks.old «data».old)) result }
    ensures put { IfOk result (λ _. ArePut (filled_with (kind_seen data_type.now)
        (count (region «data».old.part.subset)) (fill_bytes fill_value.now)) masks.old masks.new
        «data».old «data».new) }
    ensures kept { IfErr result (λ _. («data».new ≡ «data».old) × (masks.new ≡ masks.old)) }
{
    let num_elements = data.num_elements();
    let bytes = ArrayBytes::new_fill_value(alloc, data_type, num_elements, fill_value)?;
    decode_into_optional(&bytes, data, masks)
}

/// Puts the fill value of a data type into each element of a target.
///
/// # Errors
/// [`CodecError`] where there is no array bytes of so many elements with the fill value
/// (`DataTypeFillValueError`, or want of memory); else as [`decode_into_array_bytes_target`] has it. Nothing is
/// written then.
///
/// [`decode_into_array_bytes_target`]: crate::decode_into_array_bytes_target
pub fn copy_fill_value_into(
    alloc: Global,
    data_type: &DataType,
    fill_value: &FillValue,
    output_target: ArrayBytesDecodeIntoTarget<'_, '_>,
) -> Result<(), CodecError>
    requires count { count (region (inner_view output_target).part.subset) + 1 < 2 ^ 64 }
    requires bytes { count (region (inner_view output_target).part.subset)
        * bytes_seen data_type.now < 2 ^ 64 }
    ensures exact { Answers (then_answer
        (fill_answer (has_size (kind_seen data_type.now) (fill_bytes fill_value.now)))
        (target_answer (filled_with (kind_seen data_type.now)
        (count (region (inner_view output_target.entry).part.subset)) (fill_bytes fill_value.now))
        (mask_views output_target.entry) (inner_view output_target.entry))) result }
    ensures put { IfOk result (λ _. LeftBehind
        (λ left. ArePut (filled_with (kind_seen data_type.now)
        (count (region (inner_view output_target.entry).part.subset)) (fill_bytes fill_value.now))
        [] [] (inner_view output_target.entry) left.0.now)
        (λ left. ArePut (filled_with (kind_seen data_type.now)
        (count (region (inner_view output_target.entry).part.subset)) (fill_bytes fill_value.now))
        (mask_views output_target.entry) left.1.0.now
        (inner_view output_target.entry) left.0.now) output_target.exit) }
    ensures kept { IfErr result (λ _. LeftBehind
        (λ left. left.0.now ≡ inner_view output_target.entry)
        (λ left. (left.0.now ≡ inner_view output_target.entry)
        × (left.1.0.now ≡ mask_views output_target.entry)) output_target.exit) }
{
    match output_target {
        ArrayBytesDecodeIntoTarget::Fixed(data) => fill_fixed(alloc, data_type, fill_value, data),
        ArrayBytesDecodeIntoTarget::Optional(data, masks) => {
            fill_optional(alloc, data_type, fill_value, data, masks)
        }
    }
}
