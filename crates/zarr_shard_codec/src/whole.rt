//! The inner chunks of a chunk, put together.

ghost use Rattle.std.specs.Prelude.{◌≡◌, ◌<◌, ◌*◌, ◌≤◌, false, length, Some, MatchResult, IfOk, IfErr};
ghost use Rattle.zarrs_codec.specs.Prelude.{count_of, whole as all_of, has_long_element, region};
ghost use Rattle.zarrs_codec.specs.Prelude.{raw_of, IsDecodeError, options_of, list_at, Gives};
ghost use Rattle.zarr_array_boxes.specs.BoxElements.{list_held};
ghost use Rattle.zarr_shard_codec.specs.Inner.{AreInner};
ghost use Rattle.zarr_shard_codec.specs.Placing.{indices_at};
ghost use Rattle.zarr_shard_codec.specs.Shard.{by_index};
ghost use Rattle.zarr_shard_codec.specs.ShardCodec.{inner_of, inner_grid, own_level, own_list, own_array};
ghost use Rattle.zarr_shard_codec.specs.Whole.{inner_content_of, HoldsOver, HasPut, SaysAt, SaysInner, shard_says};

use crate::index::find_index;
use crate::inner_chunks::{InnerChunks, put_at};
use std::alloc::Global;
use zarr_array_boxes::BoxElements;
use zarrs_array_subset::ArraySubset;
use zarrs_codec_array_bytes::ArrayBytes;
use zarrs_codec_error::{CodecError, CodecOptions};

impl InnerChunks<'_> {
    // Puts the elements of the inner chunk of a number where it lies, or those of a blank one where it is not there.
    fn place_inner(
        &self,
        alloc: Global,
        value: &[u8],
        index: &[u8],
        number: u64,
        elements: &mut BoxElements<'_>,
        options: &CodecOptions,
    ) -> Result<(), CodecError>
        requires inner { AreInner self.now }
        requires below { number < count_of (inner_grid self.now.codec.now).grid_shape }
        requires indexed { 16 * count_of (inner_grid self.now.codec.now).grid_shape
            ≤ length index.now }
        requires holds { HoldsOver self.now.codec.now
            (all_of (inner_of self.now.codec.now).shape) elements.old }
        ensures holds { HoldsOver self.now.codec.now
            (all_of (inner_of self.now.codec.now).shape) elements.new }
        ensures put { let under = options_of options.now in MatchResult result
            (λ _. HasPut self.now.codec.now under value.now index.now
            (all_of (inner_of self.now.codec.now).shape) (indices_at self.now.codec.now number)
            elements.old elements.new)
            (IsDecodeError (inner_content_of self.now.codec.now under value.now index.now number)
            (SaysAt self.now.codec.now under value.now index.now number)) }
    {
        match self.decode_inner(alloc, value, index, number as usize, options) {
            Ok(Some(bytes)) => {
                put_at(self.codec, alloc, number, &bytes, elements)?;
                Ok(())
            }
            Ok(None) => {
                put_at(self.codec, alloc, number, &self.blank, elements)?;
                Ok(())
            }
            Err(error) => Err(error),
        }
    }

    // Puts the elements of all inner chunks where they lie.
    fn place_all(
        &self,
        alloc: Global,
        value: &[u8],
        index: &[u8],
        elements: &mut BoxElements<'_>,
        options: &CodecOptions,
    ) -> Result<(), CodecError>
        requires inner { AreInner self.now }
        requires indexed { 16 * count_of (inner_grid self.now.codec.now).grid_shape
            ≤ length index.now }
        requires holds { HoldsOver self.now.codec.now
            (all_of (inner_of self.now.codec.now).shape) elements.old }
        ensures holds { HoldsOver self.now.codec.now
            (all_of (inner_of self.now.codec.now).shape) elements.new }
        ensures put { let under = options_of options.now in MatchResult result
            (λ _. by_index (own_array self.now.codec.now under) value.now index.now
            ≡ Some (list_held elements.new))
            (IsDecodeError (by_index (own_array self.now.codec.now under) value.now index.now)
            (SaysInner self.now.codec.now under value.now index.now)) }
    {
        for number in 0..self.codec.num_inner() {
            if let Err(error) = self.place_inner(alloc, value, index, number, elements, options) {
                return Err(error);
            }
        }
        Ok(())
    }

    /// The elements that a value decodes to; `whole` is the box of all of the chunk.
    ///
    /// # Errors
    /// `UnexpectedChunkDecodedSize` where the value is shorter than its index, `InvalidChecksum` where the number of
    /// the index is wrong and tested; else that of an inner chunk that does not decode; or want of memory.
    #[tactic(auto, using(crate::proofs::CodecFacts::index_fits))]
    pub(crate) fn decode_within(
        &self,
        alloc: Global,
        whole: &ArraySubset,
        value: &[u8],
        options: &CodecOptions,
    ) -> Result<ArrayBytes<'static>, CodecError>
        requires inner { AreInner self.now }
        requires whole { region whole.now ≡ all_of (inner_of self.now.codec.now).shape }
        ensures value { IfOk result (λ v. Gives (list_at (own_level self.now.codec.now) (raw_of v))
            (own_list self.now.codec.now (options_of options.now) value.now)) }
        ensures failed { let under = options_of options.now in IfErr result
            (IsDecodeError (own_list self.now.codec.now under value.now)
            (shard_says self.now.codec.now under value.now)) }
        ensures short { IfOk result (λ v. has_long_element (raw_of v) ≡ false) }
    {
        let codec = self.codec;
        let number = codec.num_inner() as usize;
        let index = match find_index(
            value,
            number,
            codec.shard.checked,
            options.validate_checksums(),
        ) {
            Ok(index) => index,
            Err(error) => return Err(error),
        };
        let inner = &codec.shard.inner;
        let mut elements = BoxElements::filled(
            alloc,
            inner.data_type(),
            inner.fill_value(),
            whole,
        )?;
        if let Err(error) = self.place_all(alloc, value, index, &mut elements, options) {
            return Err(error);
        }
        let bytes = elements.into_bytes(alloc)?;
        Ok(bytes)
    }
}
