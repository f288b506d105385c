//! The elements of what a handle of elements of the level below holds, by an array-to-array codec.

ghost use Rattle.std.specs.Prelude.{◌≡◌, true, None, MatchResult};
ghost use Rattle.zarrs_codec.specs.Prelude.{whole, ends_within, region as box_of, unserved_at};
ghost use Rattle.zarrs_codec.specs.Prelude.{options_of, IsFit};
ghost use Rattle.zarrs_codec_error.specs.declared.error.CodecError.TheVariants as codec;
ghost use Rattle.zarrs_codec_partial.specs.Above.{IsOver};
ghost use Rattle.zarrs_codec_partial.specs.Reading.{every_element, in_box, ReadsAsked, TestsServed};

use crate::level::ArrayLevel;
use std::alloc::Global;
use zarrs_array_subset::ArraySubset;
use zarrs_codec::ArrayPartialDecoderTraits;
use zarrs_codec_array_bytes::ArrayBytes;
use zarrs_codec_error::{CodecError, CodecOptions};
use zarrs_codec_partial_elements::fill::expect_denoted;
use zarrs_codec_traits::{ArrayToArrayCodecTraits, whole_box};

impl<C: ArrayToArrayCodecTraits> ArrayLevel<C> {
    ghost use Rattle.zarrs_codec_partial.specs.Above.{array_level, array_fill, codec_seen};

    // Tests that the fill value denotes an element, and then that the codec serves it with the shape and the data type.
    pub(crate) fn expect_served(&self, alloc: Global) -> Result<(), CodecError>
        requires fits { IsFit (array_level self.now).shape (array_level self.now).data_type }
        ensures { TestsServed
            (codec_seen C.ArrayCodecTraits.own C.ArrayToArrayCodecTraits.own self.now) result }
    {
        match expect_denoted(&self.data_type, &self.fill_value) {
            Ok(()) => match self
                .codec
                .encoded_representation(alloc, &self.shape, &self.data_type, &self.fill_value)
            {
                Ok(_) => Ok(()),
                Err(error) => Err(error),
            },
            Err(error) => Err(error),
        }
    }

    // The box of all elements of the level below.
    pub(crate) fn whole_below(&self, alloc: Global) -> Result<ArraySubset, CodecError>
        requires served { unserved_at (C.unserved self.now.codec) (array_level self.now)
            (array_fill self.now) ≡ None }
        ensures { MatchResult result (λ r. box_of r ≡ whole
            ((C.meaning self.now.codec).level_below (array_level self.now)).shape)
            (λ e. e ≡ codec.OutOfMemory) }
    {
        match self.codec.encoded_shape(alloc, &self.shape) {
            Ok(shape) => whole_box(alloc, &shape),
            Err(error) => Err(error),
        }
    }

    // The elements of a region, out of those of the box below.
    pub(crate) fn decode_box<H: ArrayPartialDecoderTraits>(
        &self,
        alloc: Global,
        handle: &mut H,
        region: &ArraySubset,
        options: &CodecOptions,
    ) -> Result<ArrayBytes<'static>, CodecError>
        requires over { IsOver (H.seen handle.old)
            (codec_seen C.ArrayCodecTraits.own C.ArrayToArrayCodecTraits.own self.now) }
        requires inside { ends_within (box_of region.now) (array_level self.now).shape ≡ true }
        ensures { ReadsAsked H.ArrayPartialDecoderTraits
            (codec_seen C.ArrayCodecTraits.own C.ArrayToArrayCodecTraits.own self.now)
            (options_of options.now) (in_box (box_of region.now)) handle.old handle.new result }
    {
        match self.codec.inner_subset(alloc, region, &self.shape) {
            Ok(inner) => match handle.partial_decode(alloc, &inner, options) {
                Ok(bytes) => self.codec.decode_region(
                    alloc,
                    bytes,
                    region,
                    &self.shape,
                    &self.data_type,
                    &self.fill_value,
                    options,
                ),
                Err(error) => Err(error),
            },
            Err(error) => Err(error),
        }
    }

    // All elements, out of all those below.
    pub(crate) fn decode_whole<H: ArrayPartialDecoderTraits>(
        &self,
        alloc: Global,
        handle: &mut H,
        options: &CodecOptions,
    ) -> Result<ArrayBytes<'static>, CodecError>
        requires over { IsOver (H.seen handle.old)
            (codec_seen C.ArrayCodecTraits.own C.ArrayToArrayCodecTraits.own self.now) }
        ensures { ReadsAsked H.ArrayPartialDecoderTraits
            (codec_seen C.ArrayCodecTraits.own C.ArrayToArrayCodecTraits.own self.now)
            (options_of options.now) every_element handle.old handle.new result }
    {
        match self.whole_below(alloc) {
            Ok(all) => match handle.partial_decode(alloc, &all, options) {
                Ok(bytes) => self.codec.decode(
                    alloc,
                    bytes,
                    &self.shape,
                    &self.data_type,
                    &self.fill_value,
                    options,
                ),
                Err(error) => Err(error),
            },
            Err(error) => Err(error),
        }
    }
}
