//! A part of a chunk, by any array-to-bytes codec.

ghost use Rattle.std.specs.Prelude.{◌≡◌, true, ℕ, List, Some, None, IfOk, MatchResult};
ghost use Rattle.zarrs_codec_traits.specs.Prelude.{Element, ends_within, region as box_of};
ghost use Rattle.zarrs_codec_traits.specs.Prelude.{parts_of, fill_bytes, type_of, raw_of};
ghost use Rattle.zarrs_codec_traits.specs.Prelude.{unserved_at, lengths, level_of, options_of};
ghost use Rattle.zarrs_codec_traits.specs.Prelude.{IsFit, list_at, at_box, select};
ghost use Rattle.zarrs_codec_error.specs.declared.error.CodecError.TheVariants as error;
ghost use Rattle.zarrs_codec_traits.specs.Parts.{ArePartsOf, IsAnswer};

use std::alloc::Global;
use std::num::NonZeroU64;
use zarrs_array_subset::ArraySubset;
use zarrs_codec_array_bytes::ArrayBytes;
use zarrs_codec_error::{CodecError, CodecOptions};
use zarrs_codec_traits::ArrayToBytesCodecTraits;
use zarrs_data_type::DataType;
use zarrs_data_type_bytes::FillValue;

/// The elements of a region, out of the parts of a value that the codec asks for: that region of what the whole value
/// decodes to.
///
/// # Errors
/// [`CodecError`] where memory runs out, if the value decodes.
pub fn part_of_value<C: ArrayToBytesCodecTraits>(
    codec: &C,
    alloc: Global,
    parts: Vec<Vec<u8>>,
    region: &ArraySubset,
    shape: &[NonZeroU64],
    data_type: &DataType,
    fill_value: &FillValue,
    options: &CodecOptions,
) -> Result<ArrayBytes<'static>, CodecError>
    requires fits { IsFit (lengths shape.now) (type_of data_type.now) }
    requires inside { ends_within (box_of region.now) (lengths shape.now) ≡ true }
    requires answered { IsAnswer (C.request codec.now (lengths shape.now) (type_of data_type.now)
        (box_of region.now)) (parts_of parts) }
    ensures { let level = level_of shape.now data_type.now fill_value.now in
        (value : List ℕ) (whole : List Element)
        → unserved_at (C.unserved codec.now) level (fill_bytes fill_value.now) ≡ None
        → ArePartsOf (C.request codec.now level.shape level.data_type (box_of region.now)) value
        (parts_of parts)
        → C.meaning codec.now (options_of options.now) level value ≡ Some whole
        → MatchResult result (λ part. list_at (at_box (box_of region.now) level) (raw_of part)
        ≡ Some (select level.shape (box_of region.now) whole)) (λ e. e ≡ error.OutOfMemory) }
{
    codec.decode_parts(alloc, parts, region, shape, data_type, fill_value, options)
}

/// The elements, encoded and decoded again: they mean what they meant.
///
/// # Errors
/// [`CodecError`] where the codec does not serve the arguments or refuses the elements, or where memory runs out.
pub fn there_and_back<C: ArrayToBytesCodecTraits>(
    codec: &C,
    alloc: Global,
    bytes: ArrayBytes<'static>,
    shape: &[NonZeroU64],
    data_type: &DataType,
    fill_value: &FillValue,
    options: &CodecOptions,
) -> Result<ArrayBytes<'static>, CodecError>
    requires fits { IsFit (lengths shape.now) (type_of data_type.now) }
    ensures { let level = level_of shape.now data_type.now fill_value.now in
        unserved_at (C.unserved codec.now) level (fill_bytes fill_value.now) ≡ None
        → IfOk result (λ v. list_at level (raw_of v) ≡ list_at level (raw_of bytes.entry)) }
{
    let value = codec.encode(alloc, bytes, shape, data_type, fill_value, options)?;
    let back = codec.decode(alloc, value, shape, data_type, fill_value, options)?;
    Ok(back)
}
