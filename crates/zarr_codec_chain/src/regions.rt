//! Regions of a chunk, through the levels of a chain.

ghost use Rattle.std.specs.Prelude.{◌≡◌, true, List, [], Option, IfOk, MatchResult, IsSome};
ghost use Rattle.zarrs_codec_traits.specs.Prelude.{ends_within, Element, region as box_of, raw_of};
ghost use Rattle.zarrs_codec_traits.specs.Prelude.{list_at, at_box};
ghost use Rattle.zarrs_codec_error.specs.declared.error.CodecError.TheVariants as codec;
ghost use Rattle.zarr_codec_chain.specs.Chain.{IsServedChain, first_level, bottom_level, steps};
ghost use Rattle.zarr_codec_chain.specs.Regions.{bottom_box, last_item, HoldsBox, IsListCounted};
ghost use Rattle.zarr_codec_chain.specs.Answers.{AreBelow, StaysShort};

use crate::chain::CodecChain;
use crate::levels::ChunkLevels;
use std::alloc::{AllocError, Global};
use zarrs_array_subset::ArraySubset;
use zarrs_codec_array_bytes::ArrayBytes;
use zarrs_codec_error::{CodecError, CodecOptions};
use zarrs_codec_traits::{
    ArrayToArrayCodecTraits, ArrayToBytesCodecTraits, BytesToBytesCodecTraits,
};

/// The last of some boxes, or the region that they began with.
pub fn last_or<'a>(boxes: &'a [ArraySubset], region: &'a ArraySubset) -> &'a ArraySubset
    ensures { result.now ≡ last_item boxes.now region.now }
{
    match boxes {
        [] => region,
        [.., last] => last,
    }
}

impl<A: ArrayToArrayCodecTraits, B: ArrayToBytesCodecTraits, C: BytesToBytesCodecTraits> CodecChain<
    A,
    B,
    C,
> {
    /// The box below each array-to-array codec that a region of the chunk needs, the first codec first. The region lies
    /// inside the chunk.
    ///
    /// # Errors
    /// [`CodecError::OutOfMemory`].
    pub fn boxes_down(
        &self,
        alloc: Global,
        levels: &ChunkLevels,
        region: &ArraySubset,
    ) -> Result<Vec<ArraySubset>, CodecError>
        requires served { IsServedChain A.meaning A.unserved B.unserved self.now levels.now }
        requires inside { ends_within (box_of region.now) (first_level levels.now).shape ≡ true }
        ensures { MatchResult result
            (λ boxes. AreBelow A.region_below self.now levels.now region.now boxes.items)
            (λ e. e ≡ codec.OutOfMemory) }
    {
        let mut boxes: Vec<ArraySubset> = Vec::new(alloc);
        for (index, codec) in self.array_codecs.iter().enumerate() {
            let above = last_or(&boxes, region);
            let below = codec.inner_subset(alloc, above, &levels.above[index].shape)?;
            boxes.push(below).map_err(AllocError::from)?;
        }
        Ok(boxes)
    }

    /// The elements of a region of the chunk, from those of the last box that `boxes_down` answers for it.
    ///
    /// # Errors
    /// [`CodecError::OutOfMemory`].
    pub fn decode_boxes_up(
        &self,
        alloc: Global,
        levels: &ChunkLevels,
        bytes: ArrayBytes<'static>,
        boxes: &[ArraySubset],
        region: &ArraySubset,
        options: &CodecOptions,
    ) -> Result<ArrayBytes<'static>, CodecError>
        requires served { IsServedChain A.meaning A.unserved B.unserved self.now levels.now }
        requires inside { ends_within (box_of region.now) (first_level levels.now).shape ≡ true }
        requires boxes { AreBelow A.region_below self.now levels.now region.now boxes.now }
        requires valid { IsSome (list_at (at_box
            (bottom_box A.region_below (steps self.now levels.now) (box_of region.now))
            (bottom_level levels.now)) (raw_of bytes)) }
        ensures value { let bottom = bottom_level levels.now in (below : Option (List Element))
            → IsListCounted bottom below → HoldsBox A.meaning [] bottom below
            (bottom_box A.region_below (steps self.now levels.now) (box_of region.now))
            (raw_of bytes.entry)
            → IfOk result (λ v. HoldsBox A.meaning (steps self.now levels.now) bottom below
            (box_of region.now) (raw_of v)) }
        ensures valid { MatchResult result
            (λ v. IsSome (list_at (at_box (box_of region.now) (first_level levels.now)) (raw_of v)))
            (λ e. e ≡ codec.OutOfMemory) }
        ensures short { StaysShort bytes.entry result }
    {
        let mut decoded = bytes;
        let mut left = self.array_codecs.len();
        while left > 0 {
            left -= 1;
            let level = &levels.above[left];
            let above = last_or(&boxes[..left], region);
            decoded = self.array_codecs[left].decode_region(
                alloc,
                decoded,
                above,
                &level.shape,
                &level.data_type,
                &level.fill_value,
                options,
            )?;
        }
        Ok(decoded)
    }
}
