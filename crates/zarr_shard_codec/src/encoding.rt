//! The elements of a chunk, encoded as a shard.

ghost use Rattle.std.specs.Prelude.{◌≡◌, ◌<◌, true, false, List, Some, MatchResult, IfOk};
ghost use Rattle.zarrs_codec_traits.specs.Prelude.{count_of, Element, has_long_element, raw_of};
ghost use Rattle.zarrs_codec_traits.specs.Prelude.{options_of, list_at};
ghost use Rattle.zarrs_codec_error.specs.declared.error.CodecError.TheVariants as errors;
ghost use Rattle.zarr_shard_codec.specs.Encoding.{part_list, IsFill, HasAppended, IsEncoded};
ghost use Rattle.zarr_shard_codec.specs.Inner.{AreInner};
ghost use Rattle.zarr_shard_codec.specs.Pair.{pair_seen};
ghost use Rattle.zarr_shard_codec.specs.ShardCodec.{inner_grid, inner_level, own_level};

use crate::inner_chunks::{InnerChunks, place_of};
use crate::pair::Pair;
use crate::shard_codec::ShardCodec;
use crate::writing::{finish_index, push_pair};
use std::alloc::Global;
use zarrs_codec_array_bytes::ArrayBytes;
use zarrs_codec_error::{CodecError, CodecOptions};

// The elements of the inner chunk of a number, out of those of the chunk.
fn part_at(
    codec: &ShardCodec,
    alloc: Global,
    bytes: &ArrayBytes<'_>,
    number: u64,
) -> Result<ArrayBytes<'static>, CodecError>
    requires below { number < count_of (inner_grid codec.now).grid_shape }
    ensures value { (list : List Element)
        → list_at (own_level codec.now) (raw_of bytes.now) ≡ Some list
        → MatchResult result (λ v. list_at (inner_level codec.now) (raw_of v)
        ≡ Some (part_list codec.now number list)) (λ e. e ≡ errors.OutOfMemory) }
    ensures short { has_long_element (raw_of bytes.now) ≡ false
        → IfOk result (λ v. has_long_element (raw_of v) ≡ false) }
{
    let subset = place_of(codec, alloc, number)?;
    let inner = &codec.shard.inner;
    bytes.extract_array_subset(alloc, &subset, inner.shape(), inner.data_type())
}

// Whether an inner chunk with these elements is left out: all are the fill value, and such chunks are not stored.
fn is_left_out(codec: &ShardCodec, elements: &ArrayBytes<'_>, options: &CodecOptions) -> bool
    ensures out { (list : List Element)
        → list_at (inner_level codec.now) (raw_of elements.now) ≡ Some list → result ≡ true
        → (options.now.store_empty_chunks ≡ false) × IsFill codec.now list }
    ensures kept { (list : List Element)
        → list_at (inner_level codec.now) (raw_of elements.now) ≡ Some list → result ≡ false
        → options.now.store_empty_chunks ≡ false → IsFill codec.now list → ⊥ }
{
    if options.store_empty_chunks() {
        return false;
    }
    elements.is_fill_value(codec.shard.inner.fill_value())
}

impl InnerChunks<'_> {
    // Appends the value of an inner chunk with these elements, which is left out where all are the fill value and such
    // chunks are not stored. The answer is its pair.
    fn append(
        &self,
        alloc: Global,
        elements: ArrayBytes<'static>,
        front: &mut Vec<u8>,
        options: &CodecOptions,
    ) -> Result<Pair, CodecError>
        requires inner { AreInner self.now }
        requires short { has_long_element (raw_of elements) ≡ false }
        ensures { (list : List Element)
            → list_at (inner_level self.now.codec.now) (raw_of elements.entry) ≡ Some list
            → MatchResult result (λ pair. HasAppended self.now.codec.now (options_of options.now)
            list front.old.items front.new.items (pair_seen pair))
            (λ e. e ≡ errors.OutOfMemory) }
    {
        if is_left_out(self.codec, &elements, options) {
            return Ok(Pair::absent());
        }
        let chain = self.codec.shard.inner.chain();
        let value = chain.encode(alloc, &self.levels, elements, options)?;
        let offset = front.len() as u64;
        front.extend_from_slice(&value)?;
        Ok(Pair {
            offset,
            size: value.len() as u64,
        })
    }

    // Appends the inner chunk of a number, and its pair to an index.
    fn append_part(
        &self,
        alloc: Global,
        bytes: &ArrayBytes<'_>,
        number: u64,
        front: &mut Vec<u8>,
        options: &CodecOptions,
    ) -> Result<Pair, CodecError>
        requires inner { AreInner self.now }
        requires below { number < count_of (inner_grid self.now.codec.now).grid_shape }
        requires short { has_long_element (raw_of bytes.now) ≡ false }
        ensures { (list : List Element)
            → list_at (own_level self.now.codec.now) (raw_of bytes.now) ≡ Some list
            → MatchResult result (λ pair. HasAppended self.now.codec.now (options_of options.now)
            (part_list self.now.codec.now number list) front.old.items front.new.items
            (pair_seen pair)) (λ e. e ≡ errors.OutOfMemory) }
    {
        let elements = part_at(self.codec, alloc, bytes, number)?;
        self.append(alloc, elements, front, options)
    }

    /// The value of a chunk with these elements: the bytes of its inner chunks, one after another, and their index.
    ///
    /// # Errors
    /// [`CodecError::OutOfMemory`].
    pub(crate) fn encode_within(
        &self,
        alloc: Global,
        bytes: &ArrayBytes<'_>,
        options: &CodecOptions,
    ) -> Result<Vec<u8>, CodecError>
        requires inner { AreInner self.now }
        requires short { has_long_element (raw_of bytes.now) ≡ false }
        ensures { (list : List Element)
            → list_at (own_level self.now.codec.now) (raw_of bytes.now) ≡ Some list
            → MatchResult result (λ v. IsEncoded self.now.codec.now (options_of options.now) list
            v.items) (λ e. e ≡ errors.OutOfMemory) }
    {
        let mut front = Vec::new(alloc);
        let mut index = Vec::new(alloc);
        for number in 0..self.codec.num_inner() {
            match self.append_part(alloc, bytes, number, &mut front, options) {
                Ok(pair) => push_pair(&mut index, pair)?,
                Err(error) => return Err(error),
            }
        }
        finish_index(&mut index, self.codec.shard.checked)?;
        front.extend_from_slice(&index)?;
        Ok(front)
    }
}
