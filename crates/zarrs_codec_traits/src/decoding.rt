//! A value decoded into the views of a target.

ghost use Rattle.std.specs.Prelude.{◌≡◌, ◌==◌, [], true, None, IfOk, IfErr};
ghost use Rattle.zarr_model.specs.Region.{count_of};
ghost use Rattle.zarrs_data_type_bytes.specs.FillValue.{fill_bytes};
ghost use Rattle.zarrs_data_type.specs.DataType.{type_of};
ghost use Rattle.zarrs_codec_array_bytes.specs.Raw.{raw_of};
ghost use Rattle.zarrs_codec_traits.specs.Calls.{AtLevel};
ghost use Rattle.zarrs_codec_traits.specs.Errors.{unserved_at, RefusesBy, IsDecodeError};
ghost use Rattle.zarrs_codec_traits.specs.Views.{lengths, level_of, options_of};
ghost use Rattle.zarrs_codec_traits.specs.Words.{list_at, Gives, IsFit};
ghost use Rattle.zarrs_codec_traits.specs.Into.{RefusesCount, RefusesViews, FillsViews};

use crate::array_to_bytes::ArrayToBytesCodecTraits;
use crate::put::{expect_number, put_fixed, put_optional};
use crate::shape::num_elements;
use std::alloc::Global;
use std::num::NonZeroU64;
use zarrs_codec_array_bytes::ArrayBytes;
use zarrs_codec_array_bytes_parts::ArrayBytesFixedDisjointView;
use zarrs_codec_error::{CodecError, CodecOptions};
use zarrs_data_type::DataType;
use zarrs_data_type_bytes::FillValue;

// What a value decodes to, for a target of so many elements.
fn decoded_for<C: ArrayToBytesCodecTraits>(
    codec: &C,
    alloc: Global,
    bytes: Vec<u8>,
    shape: &[NonZeroU64],
    data_type: &DataType,
    fill_value: &FillValue,
    num: u64,
    options: &CodecOptions,
) -> Result<ArrayBytes<'static>, CodecError>
    requires fits { IsFit (lengths shape.now) (type_of data_type.now) }
    ensures unserved { RefusesBy (unserved_at (C.unserved codec.now)
        (level_of shape.now data_type.now fill_value.now) (fill_bytes fill_value.now)) result }
    ensures counted { let level = level_of shape.now data_type.now fill_value.now in
        unserved_at (C.unserved codec.now) level (fill_bytes fill_value.now) ≡ None
        → RefusesCount (num == count_of level.shape) num (count_of level.shape) result }
    ensures value { let level = level_of shape.now data_type.now fill_value.now in
        let wanted = C.meaning codec.now (options_of options.now) level bytes.items in
        unserved_at (C.unserved codec.now) level (fill_bytes fill_value.now) ≡ None
        → IfOk result (λ v. Gives (list_at level (raw_of v)) wanted) }
    ensures failed { let level = level_of shape.now data_type.now fill_value.now in
        let wanted = C.meaning codec.now (options_of options.now) level bytes.items in
        unserved_at (C.unserved codec.now) level (fill_bytes fill_value.now) ≡ None
        → (num == count_of level.shape) ≡ true → IfErr result
        (IsDecodeError wanted (C.says codec.now (options_of options.now) level bytes.items)) }
{
    codec.encoded_representation(shape, data_type, fill_value)?;
    expect_number(num, num_elements(shape))?;
    let decoded = codec.decode(alloc, bytes, shape, data_type, fill_value, options)?;
    Ok(decoded)
}

// Decodes into the view of elements of one size.
pub(crate) fn decode_into_fixed<C: ArrayToBytesCodecTraits>(
    codec: &C,
    alloc: Global,
    bytes: Vec<u8>,
    shape: &[NonZeroU64],
    data_type: &DataType,
    fill_value: &FillValue,
    view: &mut ArrayBytesFixedDisjointView<'_>,
    options: &CodecOptions,
) -> Result<(), CodecError>
    requires fits { IsFit (lengths shape.now) (type_of data_type.now) }
    ensures at { let level = level_of shape.now data_type.now fill_value.now in
        let wanted = C.meaning codec.now (options_of options.now) level bytes.items in
        AtLevel (unserved_at (C.unserved codec.now) level (fill_bytes fill_value.now))
        (RefusesViews level wanted (C.says codec.now (options_of options.now) level bytes.items)
        [] view.old result
        × FillsViews level wanted [] [] view.old view.new result) result }
    ensures kept { IfErr result (λ _. view.new ≡ view.old) }
{
    let num = view.num_elements();
    let decoded = decoded_for(
        codec, alloc, bytes, shape, data_type, fill_value, num, options,
    )?;
    put_fixed(&decoded, view)
}

// Decodes into the views of optional elements.
pub(crate) fn decode_into_optional<'a, C: ArrayToBytesCodecTraits>(
    codec: &C,
    alloc: Global,
    bytes: Vec<u8>,
    shape: &[NonZeroU64],
    data_type: &DataType,
    fill_value: &FillValue,
    view: &mut ArrayBytesFixedDisjointView<'a>,
    masks: &mut [ArrayBytesFixedDisjointView<'a>],
    options: &CodecOptions,
) -> Result<(), CodecError>
    requires fits { IsFit (lengths shape.now) (type_of data_type.now) }
    ensures at { let level = level_of shape.now data_type.now fill_value.now in
        let wanted = C.meaning codec.now (options_of options.now) level bytes.items in
        AtLevel (unserved_at (C.unserved codec.now) level (fill_bytes fill_value.now))
        (RefusesViews level wanted (C.says codec.now (options_of options.now) level bytes.items)
        masks.old view.old result
        × FillsViews level wanted masks.old masks.new view.old view.new result) result }
    ensures kept { IfErr result (λ _. (view.new ≡ view.old) × (masks.new ≡ masks.old)) }
{
    let num = view.num_elements();
    let decoded = decoded_for(
        codec, alloc, bytes, shape, data_type, fill_value, num, options,
    )?;
    put_optional(&decoded, view, masks)
}
