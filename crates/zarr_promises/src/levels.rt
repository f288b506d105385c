//! Elements of a level above, by any array-to-array codec.

ghost use Rattle.std.specs.Prelude.{◌≡◌, true, List, length, Some, None, IfOk, MatchResult};
ghost use Rattle.zarr_codec_chain.specs.Prelude.{count_of, ends_within, Element, region as box_of};
ghost use Rattle.zarr_codec_chain.specs.Prelude.{fill_bytes, type_of, raw_of, unserved_at, lengths};
ghost use Rattle.zarr_codec_chain.specs.Prelude.{level_of, IsFit, list_at, at_box, select};
ghost use Rattle.zarrs_codec_error.specs.declared.error.CodecError.TheVariants as error;

use std::alloc::Global;
use std::num::NonZeroU64;
use zarrs_array_subset::ArraySubset;
use zarrs_codec_array_bytes::ArrayBytes;
use zarrs_codec_error::{CodecError, CodecOptions};
use zarrs_codec_traits::ArrayToArrayCodecTraits;
use zarrs_data_type::DataType;
use zarrs_data_type_bytes::FillValue;

/// The elements of a region, out of those of the box below that the codec names: that region of what the whole level
/// below decodes to.
///
/// # Errors
/// [`CodecError`] where memory runs out, if the codec serves the arguments and the bytes are those of that box.
pub fn region_of_decoded<C: ArrayToArrayCodecTraits>(
    codec: &C,
    alloc: Global,
    bytes: ArrayBytes<'static>,
    region: &ArraySubset,
    shape: &[NonZeroU64],
    data_type: &DataType,
    fill_value: &FillValue,
    options: &CodecOptions,
) -> Result<ArrayBytes<'static>, CodecError>
    requires fits { IsFit (lengths shape.now) (type_of data_type.now) }
    requires inside { ends_within (box_of region.now) (lengths shape.now) ≡ true }
    ensures { let level = level_of shape.now data_type.now fill_value.now in
        let below = (C.meaning codec.now).level_below level in
        let inner = C.region_below codec.now level.shape (box_of region.now) in
        (list xs : List Element)
        → unserved_at (C.unserved codec.now) level (fill_bytes fill_value.now) ≡ None
        → length list ≡ count_of below.shape
        → (C.meaning codec.now).decode_list level list ≡ Some xs
        → list_at (at_box inner below) (raw_of bytes.entry)
        ≡ Some (select below.shape inner list)
        → MatchResult result (λ part. list_at (at_box (box_of region.now) level) (raw_of part)
        ≡ Some (select level.shape (box_of region.now) xs)) (λ e. e ≡ error.OutOfMemory) }
{
    codec.decode_region(alloc, bytes, region, shape, data_type, fill_value, options)
}

/// The elements, taken to the level below and back: they mean what they meant.
///
/// # Errors
/// [`CodecError`] where the codec does not serve the arguments, the bytes are not valid elements, or memory runs out.
pub fn down_and_up<C: ArrayToArrayCodecTraits>(
    codec: &C,
    alloc: Global,
    bytes: ArrayBytes<'static>,
    shape: &[NonZeroU64],
    data_type: &DataType,
    fill_value: &FillValue,
    options: &CodecOptions,
) -> Result<ArrayBytes<'static>, CodecError>
    requires fits { IsFit (lengths shape.now) (type_of data_type.now) }
    ensures { let level = level_of shape.now data_type.now fill_value.now in
        unserved_at (C.unserved codec.now) level (fill_bytes fill_value.now) ≡ None
        → IfOk result (λ v. list_at level (raw_of v) ≡ list_at level (raw_of bytes.entry)) }
{
    let below = codec.encode(alloc, bytes, shape, data_type, fill_value, options)?;
    let back = codec.decode(alloc, below, shape, data_type, fill_value, options)?;
    Ok(back)
}
