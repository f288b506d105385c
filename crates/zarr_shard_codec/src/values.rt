//! Values of whole chunks: what they decode to, and the encoding of elements.

ghost use Rattle.std.specs.Prelude.{◌≡◌, false, List, Some, IfOk, MatchResult};
ghost use Rattle.zarrs_codec_traits.specs.Prelude.{count_of, kind_of, whole, Element, Options};
ghost use Rattle.zarrs_codec_traits.specs.Prelude.{has_long_element, region, raw_of, fine};
ghost use Rattle.zarrs_codec_traits.specs.Prelude.{validity, then_answer, Answers, IsDecodeError};
ghost use Rattle.zarrs_codec_traits.specs.Prelude.{options_of, list_at, Gives};
ghost use Rattle.zarrs_codec_error.specs.declared.error.CodecError.TheVariants as errors;
ghost use Rattle.zarr_shard_codec.specs.Encoding.{IsEncoded};
ghost use Rattle.zarr_shard_codec.specs.ShardCodec.{inner_of, own_level, own_list, shard_meaning};
ghost use Rattle.zarr_shard_codec.specs.Taking.{long_refusal};
ghost use Rattle.zarr_shard_codec.specs.Whole.{shard_says};

use crate::inner_chunks::InnerChunks;
use crate::shard_codec::ShardCodec;
use std::alloc::{AllocError, Global};
use zarrs_array_subset::ArraySubset;
use zarrs_codec_array_bytes::ArrayBytes;
use zarrs_codec_array_bytes::array_bytes::long::has_long_element;
use zarrs_codec_error::{CodecError, CodecOptions};

impl ShardCodec {
    /// The box of all of a chunk.
    ///
    /// # Errors
    /// [`AllocError`] where memory runs out.
    pub fn whole(&self, alloc: Global) -> Result<ArraySubset, AllocError>
        ensures { IfOk result (λ all. region all ≡ whole (inner_of self.now).shape) }
    {
        let shape = self.shard.inner.shape().to_vec(alloc)?;
        let all = ArraySubset::new_with_shape(alloc, shape)?;
        Ok(all)
    }

    /// The elements that a value decodes to.
    ///
    /// # Errors
    /// One that tells why it does not decode, or `OutOfMemory`.
    pub(crate) fn decode_value(
        &self,
        alloc: Global,
        value: &[u8],
        options: &CodecOptions,
    ) -> Result<ArrayBytes<'static>, CodecError>
        ensures value { let level = own_level self.now in
            let wanted = shard_meaning self.now (options_of options.now) level value.now in
            MatchResult result (λ v. Gives (list_at level (raw_of v)) wanted)
            (IsDecodeError wanted (shard_says self.now (options_of options.now) value.now)) }
        ensures short { IfOk result (λ v. has_long_element (raw_of v) ≡ false) }
    {
        let all = self.whole(alloc)?;
        let inner = InnerChunks::of(self, alloc)?;
        inner.decode_within(alloc, &all, value, options)
    }

    /// The value of a chunk with these elements, none of which is too long. It decodes to them under all options.
    ///
    /// # Errors
    /// [`CodecError::OutOfMemory`].
    pub fn encode_chunk(
        &self,
        alloc: Global,
        bytes: &ArrayBytes<'_>,
        options: &CodecOptions,
    ) -> Result<Vec<u8>, CodecError>
        requires short { has_long_element (raw_of bytes.now) ≡ false }
        ensures { (list : List Element)
            → list_at (own_level self.now) (raw_of bytes.now) ≡ Some list
            → MatchResult result
            (λ v. IsEncoded self.now (options_of options.now) list v.items
            × ((under : Options) → own_list self.now under v.items ≡ Some list))
            (λ e. e ≡ errors.OutOfMemory) }
    {
        let inner = InnerChunks::of(self, alloc)?;
        inner.encode_within(alloc, bytes, options)
    }

    // The value of a chunk with these elements, which are valid.
    fn encode_valid(
        &self,
        alloc: Global,
        bytes: &ArrayBytes<'_>,
        options: &CodecOptions,
    ) -> Result<Vec<u8>, CodecError>
        requires valid { let level = own_level self.now in validity (kind_of level.data_type)
            (count_of level.shape) (raw_of bytes.now) ≡ fine }
        ensures exact { Answers (long_refusal (raw_of bytes.now)) result }
        ensures laid { (list : List Element)
            → list_at (own_level self.now) (raw_of bytes.now) ≡ Some list
            → IfOk result (λ v. IsEncoded self.now (options_of options.now) list v.items) }
        ensures value { IfOk result (λ v. (under : Options)
            → shard_meaning self.now under (own_level self.now) v.items
            ≡ list_at (own_level self.now) (raw_of bytes.now)) }
    {
        if has_long_element(bytes) {
            return Err(CodecError::InvalidVariableSizedArrayOffsets);
        }
        self.encode_chunk(alloc, bytes, options)
    }

    /// The value of a chunk with these elements, which decodes to them under all options.
    ///
    /// # Errors
    /// That of `validate` exactly where the bytes are not valid elements of the chunk, else
    /// `InvalidVariableSizedArrayOffsets` exactly where an element is too long; or `OutOfMemory`.
    pub(crate) fn encode_value(
        &self,
        alloc: Global,
        bytes: &ArrayBytes<'_>,
        options: &CodecOptions,
    ) -> Result<Vec<u8>, CodecError>
        ensures exact { let level = own_level self.now in Answers (then_answer
            (validity (kind_of level.data_type) (count_of level.shape) (raw_of bytes.now))
            (long_refusal (raw_of bytes.now))) result }
        ensures laid { (list : List Element)
            → list_at (own_level self.now) (raw_of bytes.now) ≡ Some list
            → IfOk result (λ v. IsEncoded self.now (options_of options.now) list v.items) }
        ensures value { IfOk result (λ v. (under : Options)
            → shard_meaning self.now under (own_level self.now) v.items
            ≡ list_at (own_level self.now) (raw_of bytes.now)) }
    {
        let number = self.num_elements();
        bytes.validate(number, self.shard.inner.data_type())?;
        self.encode_valid(alloc, bytes, options)
    }
}
