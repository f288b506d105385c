//! One inner chunk of a shard, decoded.

ghost use Rattle.std.specs.Prelude.{◌≡◌, ◌*◌, ◌+◌, ◌≤◌, false, length, option_map, IfOk, IfErr, IfSome};
ghost use Rattle.zarrs_codec_traits.specs.Prelude.{has_long_element, raw_of, IsDecodeError};
ghost use Rattle.zarrs_codec_traits.specs.Prelude.{options_of, list_at, Gives};
ghost use Rattle.zarr_shard_codec.specs.Index.{part_of, pair_at as pair_in};
ghost use Rattle.zarr_shard_codec.specs.Inner.{AreInner, pair_says, found_at, found_says, inner_at, GivesInner};
ghost use Rattle.zarr_shard_codec.specs.Pair.{pair_seen};
ghost use Rattle.zarr_shard_codec.specs.ShardCodec.{inner_level, inner_decoded, InnerSays};

use crate::inner_chunks::InnerChunks;
use crate::pair::{Pair, pair_at};
use std::alloc::Global;
use zarrs_codec_array_bytes::ArrayBytes;
use zarrs_codec_error::{CodecError, CodecOptions};
use zarrs_storage::{ByteRange, InvalidByteRangeError};

// The bytes of a value that a pair names, if they lie within it.
fn part_of(value: &[u8], pair: Pair) -> Option<&[u8]>
    ensures { option_map (λ bytes. bytes.now) result ≡ part_of value.now (pair_seen pair) }
{
    if pair.lies_within(value.len() as u64) {
        let start = pair.offset as usize;
        Some(&value[start..start + pair.size as usize])
    } else {
        None
    }
}

// Why a pair names no bytes of a value.
fn outside(pair: Pair, len: usize) -> CodecError
    ensures { pair_says len (pair_seen pair) result }
{
    CodecError::InvalidByteRangeError(InvalidByteRangeError::new(
        ByteRange::FromStart(pair.offset, Some(pair.size)),
        len as u64,
    ))
}

impl InnerChunks<'_> {
    /// The elements that the bytes of an inner chunk decode to.
    ///
    /// # Errors
    /// That of the inner chain, where the bytes do not decode; or want of memory.
    pub(crate) fn decode_bytes(
        &self,
        alloc: Global,
        bytes: Vec<u8>,
        options: &CodecOptions,
    ) -> Result<ArrayBytes<'static>, CodecError>
        requires inner { AreInner self.now }
        ensures value { IfOk result (λ v.
            Gives (list_at (inner_level self.now.codec.now) (raw_of v))
            (inner_decoded self.now.codec.now (options_of options.now) bytes.items)) }
        ensures failed { let under = options_of options.now in IfErr result
            (IsDecodeError (inner_decoded self.now.codec.now under bytes.items)
            (InnerSays self.now.codec.now under bytes.items)) }
        ensures short { IfOk result (λ v. has_long_element (raw_of v) ≡ false) }
    {
        let chain = self.codec.shard.inner.chain();
        chain.decode(alloc, &self.levels, bytes, options)
    }

    // The elements of an inner chunk that is there.
    fn decode_pair(
        &self,
        alloc: Global,
        value: &[u8],
        pair: Pair,
        options: &CodecOptions,
    ) -> Result<ArrayBytes<'static>, CodecError>
        requires inner { AreInner self.now }
        ensures value { IfOk result (λ v.
            Gives (list_at (inner_level self.now.codec.now) (raw_of v))
            (found_at (inner_decoded self.now.codec.now (options_of options.now)) value.now
            (pair_seen pair))) }
        ensures failed { let under = options_of options.now in IfErr result (IsDecodeError
            (found_at (inner_decoded self.now.codec.now under) value.now (pair_seen pair))
            (found_says (InnerSays self.now.codec.now under) value.now (pair_seen pair))) }
        ensures short { IfOk result (λ v. has_long_element (raw_of v) ≡ false) }
    {
        let Some(bytes) = part_of(value, pair) else {
            return Err(outside(pair, value.len()));
        };
        let bytes = bytes.to_vec(alloc)?;
        self.decode_bytes(alloc, bytes, options)
    }

    /// The elements of the inner chunk of a number, and [`None`] where it is not there.
    ///
    /// # Errors
    /// `InvalidByteRangeError` exactly where its pair names bytes past the value; else that of the inner chain, where
    /// these bytes do not decode; or want of memory.
    pub(crate) fn decode_inner(
        &self,
        alloc: Global,
        value: &[u8],
        index: &[u8],
        number: usize,
        options: &CodecOptions,
    ) -> Result<Option<ArrayBytes<'static>>, CodecError>
        requires inner { AreInner self.now }
        requires within { 16 * number + 16 ≤ length index.now }
        ensures value { IfOk result (GivesInner (inner_level self.now.codec.now)
            (inner_at (inner_decoded self.now.codec.now (options_of options.now)) value.now
            (pair_in index.now number))) }
        ensures failed { let under = options_of options.now in IfErr result (IsDecodeError
            (inner_at (inner_decoded self.now.codec.now under) value.now
            (pair_in index.now number))
            (found_says (InnerSays self.now.codec.now under) value.now
            (pair_in index.now number))) }
        ensures short { IfOk result
            (λ r. IfSome r (λ v. has_long_element (raw_of v) ≡ false)) }
    {
        let pair = pair_at(index, number);
        if pair.is_absent() {
            return Ok(None);
        }
        let elements = self.decode_pair(alloc, value, pair, options)?;
        Ok(Some(elements))
    }
}
