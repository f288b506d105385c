//! The elements of a region of a chunk, out of all of them, or all the fill value.

ghost use Rattle.std.specs.Prelude.{◌≡◌, true, false, List, replicate, Some, IsSome, IfOk, MatchResult};
ghost use Rattle.zarr_codec_chain.specs.Prelude.{has_long_element, Element, fill_element, kind_of};
ghost use Rattle.zarr_codec_chain.specs.Prelude.{count, count_of, ends_within, region as box_of};
ghost use Rattle.zarr_codec_chain.specs.Prelude.{fill_bytes, type_of, filled_with, raw_of, lengths};
ghost use Rattle.zarr_codec_chain.specs.Prelude.{level_of, list_at, at_box, IsFit, bottom_level};
ghost use Rattle.zarr_codec_chain.specs.Prelude.{steps, IsServedChain, first_level, HasFill};
ghost use Rattle.zarr_codec_chain.specs.Prelude.{bottom_box};
ghost use Rattle.zarrs_codec_error.specs.declared.error.CodecError.TheVariants as codec;
ghost use Rattle.zarr_codec_chain.specs.Answers.{levels_list, GivesPart, StaysShort, AreBelow};

use std::alloc::Global;
use std::num::NonZeroU64;
use zarr_codec_chain::{ChunkLevels, CodecChain, last_or};
use zarrs_array_subset::ArraySubset;
use zarrs_codec_array_bytes::ArrayBytes;
use zarrs_codec_error::CodecError;
use zarrs_codec_traits::{
    ArrayToArrayCodecTraits, ArrayToBytesCodecTraits, BytesToBytesCodecTraits, extracted,
    num_elements,
};
use zarrs_data_type::DataType;
use zarrs_data_type_bytes::FillValue;

// The elements of a region of a chunk.
pub(crate) fn part_of(
    levels: &ChunkLevels,
    alloc: Global,
    whole: &ArrayBytes<'_>,
    region: &ArraySubset,
) -> Result<ArrayBytes<'static>, CodecError>
    requires fits { IsFit (first_level levels.now).shape (first_level levels.now).data_type }
    requires inside { ends_within (box_of region.now) (first_level levels.now).shape ≡ true }
    ensures value { (list : List Element) → levels_list levels.now whole.now ≡ Some list
        → MatchResult result (GivesPart (first_level levels.now) (box_of region.now) list)
        (λ e. e ≡ codec.OutOfMemory) }
    ensures short { StaysShort whole.now result }
{
    extracted(alloc, whole, region, levels.shape(), levels.data_type())
}

// The elements of the box at the bottom that a region of a chunk needs, out of all that stand there.
pub(crate) fn bottom_part<
    A: ArrayToArrayCodecTraits,
    B: ArrayToBytesCodecTraits,
    C: BytesToBytesCodecTraits,
>(
    chain: &CodecChain<A, B, C>,
    levels: &ChunkLevels,
    alloc: Global,
    below: &ArrayBytes<'_>,
    boxes: &[ArraySubset],
    region: &ArraySubset,
) -> Result<ArrayBytes<'static>, CodecError>
    requires served { IsServedChain A.meaning A.unserved B.unserved chain.now levels.now }
    requires inside { ends_within (box_of region.now) (first_level levels.now).shape ≡ true }
    requires boxes { AreBelow A.region_below chain.now levels.now region.now boxes.now }
    ensures value { let bottom = bottom_level levels.now in
        let box = bottom_box A.region_below (steps chain.now levels.now) (box_of region.now) in
        (list : List Element) → list_at bottom (raw_of below.now) ≡ Some list
        → MatchResult result (GivesPart bottom box list) (λ e. e ≡ codec.OutOfMemory) }
    ensures short { StaysShort below.now result }
{
    let bottom = &levels.bottom;
    extracted(
        alloc,
        below,
        last_or(boxes, region),
        &bottom.shape,
        &bottom.data_type,
    )
}

// The fill value for each element of a box inside a shape.
fn filled_region(
    alloc: Global,
    shape: &[NonZeroU64],
    data_type: &DataType,
    fill_value: &FillValue,
    region: &ArraySubset,
) -> Result<ArrayBytes<'static>, CodecError>
    requires fits { IsFit (lengths shape.now) (type_of data_type.now) }
    requires denotes { IsSome (fill_element (kind_of (type_of data_type.now))
        (fill_bytes fill_value.now)) }
    requires inside { ends_within (box_of region.now) (lengths shape.now) ≡ true }
    ensures value { let level = level_of shape.now data_type.now fill_value.now in
        MatchResult result (λ v. list_at (at_box (box_of region.now) level) (raw_of v)
        ≡ Some (replicate (count (box_of region.now)) level.fill))
        (λ e. e ≡ codec.OutOfMemory) }
    ensures bytes { IfOk result (λ v. raw_of v ≡ filled_with (kind_of (type_of data_type.now))
        (count (box_of region.now)) (fill_bytes fill_value.now)) }
{
    ArrayBytes::new_fill_value(alloc, data_type, region.num_elements(), fill_value)
}

// The same of a region of a chain's chunk.
pub(crate) fn blank_region(
    levels: &ChunkLevels,
    alloc: Global,
    region: &ArraySubset,
) -> Result<ArrayBytes<'static>, CodecError>
    requires fits { IsFit (first_level levels.now).shape (first_level levels.now).data_type }
    requires fill { HasFill levels.now }
    requires inside { ends_within (box_of region.now) (first_level levels.now).shape ≡ true }
    ensures value { let level = first_level levels.now in MatchResult result
        (GivesPart level (box_of region.now) (replicate (count_of level.shape) level.fill))
        (λ e. e ≡ codec.OutOfMemory) }
    ensures short { IfOk result (λ v. has_long_element (raw_of v) ≡ false) }
{
    filled_region(
        alloc,
        levels.shape(),
        levels.data_type(),
        levels.fill_value(),
        region,
    )
}
