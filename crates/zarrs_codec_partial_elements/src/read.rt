//! The elements of what a handle of bytes holds, by a codec with its level.

ghost use Rattle.std.specs.Prelude.{◌≡◌, ◌∷◌, [], ◌+◌, ◌<◌, ◌^◌, true, None, Some, IsOk, IfOk, IfErr, option_map};
ghost use Rattle.zarrs_codec.specs.Prelude.{parts_of, count_of, ends_within, region as box_of};
ghost use Rattle.zarrs_codec.specs.Prelude.{fine, first_answer, Answers, IfUnfit, unserved_at};
ghost use Rattle.zarrs_codec.specs.Prelude.{IsNoFault, lengths, options_of, by_codec, RefusesFor};
ghost use Rattle.zarrs_codec.specs.Selects.{every, boxed};
ghost use Rattle.zarrs_codec_partial_elements.specs.Reading.{FillsElements, ReadsElements};

use crate::level::BottomLevel;
use std::alloc::{AllocError, Global};
use std::num::NonZeroU64;
use zarrs_array_subset::{ArraySubset, shape_numbers};
use zarrs_chunk_grid_indexer::Indexer;
use zarrs_codec::BytesPartialDecoderTraits;
use zarrs_codec_array_bytes::ArrayBytes;
use zarrs_codec_array_bytes::array_bytes::checks::expect_fit;
use zarrs_codec_error::{CodecError, CodecOptions};
use zarrs_codec_traits::{ArrayToBytesCodecTraits, num_elements};
use zarrs_storage::ByteRange;

// The lengths of a shape that an indexer fits. CodecError::IncompatibleIndexer exactly where it does not fit, or no
// memory.
pub(crate) fn fitting_numbers<I: Indexer>(
    alloc: Global,
    indexer: &I,
    shape: &[NonZeroU64],
) -> Result<Vec<u64>, CodecError>
    requires { count_of (lengths shape.now) + 1 < 2 ^ 64 }
    ensures value { IfOk result (λ v. v.items ≡ lengths shape.now) }
    ensures fit { IfOk result (λ v. I.fits indexer.now (lengths shape.now) ≡ true) }
    ensures answer { Answers (first_answer None (I.fits indexer.now (lengths shape.now)) fine)
        result }
    ensures unfit { IfErr result (IfUnfit (I.refuses indexer.now (lengths shape.now))) }
{
    match shape_numbers(alloc, shape) {
        Ok(numbers) => match expect_fit(alloc, indexer, &numbers) {
            Ok(()) => Ok(numbers),
            Err(error) => Err(error),
        },
        Err(error) => Err(CodecError::from(error)),
    }
}

// One part.
fn one(alloc: Global, value: Vec<u8>) -> Result<Vec<Vec<u8>>, AllocError>
    ensures { IfOk result (λ parts. parts_of parts ≡ value.items ∷ []) }
{
    let mut parts = Vec::new(alloc);
    parts.push(value).map_err(AllocError::from)?;
    Ok(parts)
}

impl<C: ArrayToBytesCodecTraits> BottomLevel<C> {
    ghost use Rattle.zarrs_codec_partial_elements.specs.Level.{IsFitBottom, level_of_bottom, bottom_fill, IsServedBottom, request_of};

    // Tests that the codec serves the shape, the data type and the fill value.
    pub(crate) fn expect_served(&self) -> Result<(), CodecError>
        requires fits { IsFitBottom self.now }
        ensures named { RefusesFor (option_map by_codec (unserved_at (C.unserved self.now.codec)
            (level_of_bottom self.now) (bottom_fill self.now))) result }
        ensures served { IsServedBottom C.unserved self.now → IsOk result }
        ensures no_fault { IfErr result IsNoFault }
    {
        match self
            .codec
            .encoded_representation(&self.shape, &self.data_type, &self.fill_value)
        {
            Ok(_) => Ok(()),
            Err(error) => Err(error),
        }
    }

    // The fill value for each element.
    pub(crate) fn fill_whole(&self, alloc: Global) -> Result<ArrayBytes<'static>, CodecError>
        requires fits { IsFitBottom self.now }
        ensures { FillsElements every (level_of_bottom self.now) (bottom_fill self.now) result }
    {
        let number = num_elements(&self.shape);
        ArrayBytes::new_fill_value(alloc, &self.data_type, number, &self.fill_value)
    }

    // The fill value for each element of a region.
    fn fill_box(
        &self,
        alloc: Global,
        region: &ArraySubset,
    ) -> Result<ArrayBytes<'static>, CodecError>
        requires fits { IsFitBottom self.now }
        requires inside { ends_within (box_of region.now) (level_of_bottom self.now).shape ≡ true }
        ensures { FillsElements (boxed (box_of region.now)) (level_of_bottom self.now)
            (bottom_fill self.now) result }
    {
        let number = region.num_elements();
        ArrayBytes::new_fill_value(alloc, &self.data_type, number, &self.fill_value)
    }

    // All elements. An error where what is below fails, where the value does not decode, or where memory runs out.
    pub(crate) fn decode_whole<H: BytesPartialDecoderTraits>(
        &self,
        alloc: Global,
        handle: &mut H,
        options: &CodecOptions,
    ) -> Result<ArrayBytes<'static>, CodecError>
        requires fits { IsFitBottom self.now }
        ensures { ReadsElements C.unserved C.meaning C.says H.seen H.tells H.same self.now
            every None true (options_of options.now) handle.old handle.new result }
    {
        match handle.decode(alloc, options) {
            Ok(Some(value)) => self.codec.decode(
                alloc,
                value,
                &self.shape,
                &self.data_type,
                &self.fill_value,
                options,
            ),
            Ok(None) => self.fill_whole(alloc),
            Err(error) => Err(error),
        }
    }

    // The elements of a region, out of the whole value.
    fn decode_box_of_value<H: BytesPartialDecoderTraits>(
        &self,
        alloc: Global,
        handle: &mut H,
        region: &ArraySubset,
        options: &CodecOptions,
    ) -> Result<ArrayBytes<'static>, CodecError>
        requires fits { IsFitBottom self.now }
        requires inside { ends_within (box_of region.now) (level_of_bottom self.now).shape ≡ true }
        requires whole { request_of C.request self.now (box_of region.now) ≡ None }
        ensures { ReadsElements C.unserved C.meaning C.says H.seen H.tells H.same self.now
            (boxed (box_of region.now)) (request_of C.request self.now (box_of region.now)) true
            (options_of options.now) handle.old handle.new result }
    {
        match handle.decode(alloc, options) {
            Ok(Some(value)) => match one(alloc, value) {
                Ok(parts) => self.codec.decode_parts(
                    alloc,
                    parts,
                    region,
                    &self.shape,
                    &self.data_type,
                    &self.fill_value,
                    options,
                ),
                Err(error) => Err(CodecError::from(error)),
            },
            Ok(None) => self.fill_box(alloc, region),
            Err(error) => Err(error),
        }
    }

    // The elements of a region, out of the parts that the codec asks for.
    fn decode_box_of_parts<H: BytesPartialDecoderTraits>(
        &self,
        alloc: Global,
        handle: &mut H,
        ranges: &[ByteRange],
        region: &ArraySubset,
        options: &CodecOptions,
    ) -> Result<ArrayBytes<'static>, CodecError>
        requires fits { IsFitBottom self.now }
        requires inside { ends_within (box_of region.now) (level_of_bottom self.now).shape ≡ true }
        requires asked { request_of C.request self.now (box_of region.now) ≡ Some ranges.now }
        ensures { ReadsElements C.unserved C.meaning C.says H.seen H.tells H.same self.now
            (boxed (box_of region.now)) (request_of C.request self.now (box_of region.now)) true
            (options_of options.now) handle.old handle.new result }
    {
        match handle.partial_decode_many(alloc, ranges, options) {
            Ok(Some(parts)) => self.codec.decode_parts(
                alloc,
                parts,
                region,
                &self.shape,
                &self.data_type,
                &self.fill_value,
                options,
            ),
            Ok(None) => self.fill_box(alloc, region),
            Err(error) => Err(error),
        }
    }

    // The elements of a region: out of the parts that the codec asks for, or out of the whole value where it asks for
    // none. An error as of `decode_whole`.
    pub(crate) fn decode_box<H: BytesPartialDecoderTraits>(
        &self,
        alloc: Global,
        handle: &mut H,
        region: &ArraySubset,
        options: &CodecOptions,
    ) -> Result<ArrayBytes<'static>, CodecError>
        requires fits { IsFitBottom self.now }
        requires inside { ends_within (box_of region.now) (level_of_bottom self.now).shape ≡ true }
        ensures { ReadsElements C.unserved C.meaning C.says H.seen H.tells H.same self.now
            (boxed (box_of region.now)) (request_of C.request self.now (box_of region.now)) true
            (options_of options.now) handle.old handle.new result }
    {
        match self
            .codec
            .byte_request(alloc, region, &self.shape, &self.data_type)
        {
            Ok(Some(ranges)) => self.decode_box_of_parts(alloc, handle, &ranges, region, options),
            Ok(None) => self.decode_box_of_value(alloc, handle, region, options),
            Err(error) => Err(error),
        }
    }
}
