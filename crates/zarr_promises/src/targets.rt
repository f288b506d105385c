//! A value decoded into a view of a caller's bytes, by any array-to-bytes codec.

ghost use Rattle.std.specs.Prelude.{◌≡◌, None, IfOk};
ghost use Rattle.zarrs_codec_traits.specs.Prelude.{fill_bytes, type_of, unserved_at, lengths};
ghost use Rattle.zarrs_codec_traits.specs.Prelude.{level_of, IsFit};
ghost use Rattle.zarr_promises.specs.Targets.{KeepsOthers};

use std::alloc::Global;
use std::num::NonZeroU64;
use zarrs_codec_array_bytes_parts::{ArrayBytesDecodeIntoTarget, ArrayBytesFixedDisjointView};
use zarrs_codec_error::{CodecError, CodecOptions};
use zarrs_codec_traits::ArrayToBytesCodecTraits;
use zarrs_data_type::DataType;
use zarrs_data_type_bytes::FillValue;

/// Decodes a value into a view's box. The view is still of the same bytes, and those of other elements are as they
/// were.
///
/// # Errors
/// [`CodecError`] where the codec does not serve the arguments, the view is for other elements, the value does not
/// decode, or memory runs out.
pub fn value_into_view<C: ArrayToBytesCodecTraits>(
    codec: &C,
    alloc: Global,
    bytes: Vec<u8>,
    shape: &[NonZeroU64],
    data_type: &DataType,
    fill_value: &FillValue,
    view: &mut ArrayBytesFixedDisjointView<'_>,
    options: &CodecOptions,
) -> Result<(), CodecError>
    requires fits { IsFit (lengths shape.now) (type_of data_type.now) }
    ensures { let level = level_of shape.now data_type.now fill_value.now in
        unserved_at (C.unserved codec.now) level (fill_bytes fill_value.now) ≡ None
        → IfOk result (λ _. KeepsOthers view.old view.new) }
{
    codec.decode_into(
        alloc,
        bytes,
        shape,
        data_type,
        fill_value,
        ArrayBytesDecodeIntoTarget::Fixed(view),
        options,
    )
}
