//! One inner chunk of a shard, fetched from a store.

ghost use Rattle.std.specs.Prelude.{IsSome, MatchResult};
ghost use Rattle.zarrs_codec_traits.specs.Prelude.{held_bytes, raw_of, options_of};
ghost use Rattle.zarr_shard_codec.specs.Inner.{AreInner, found_at, found_says, inner_at};
ghost use Rattle.zarr_shard_codec.specs.MetInner.{HasPair, HasInner};
ghost use Rattle.zarr_shard_codec.specs.Pair.{pair_seen};
ghost use Rattle.zarr_shard_codec.specs.ReadRegion.{NotRead};
ghost use Rattle.zarr_shard_codec.specs.ShardCodec.{inner_decoded, InnerSays};

use crate::fetch::fetch_range;
use crate::inner_chunks::InnerChunks;
use crate::pair::Pair;
use std::alloc::Global;
use zarrs_codec_array_bytes::ArrayBytes;
use zarrs_codec_error::{CodecError, CodecOptions};
use zarrs_storage::{ByteRange, Store, StoreKey};

impl InnerChunks<'_> {
    // The elements of the inner chunk that a pair of a value names bytes of. One reading call.
    fn fetch_pair<S: Store>(
        &self,
        alloc: Global,
        key: &StoreKey,
        pair: Pair,
        store: &mut S,
        options: &CodecOptions,
    ) -> Result<ArrayBytes<'static>, CodecError>
        requires inner { AreInner self.now }
        requires there { IsSome ((S.shown store.old).content key.now) }
        ensures read { let under = options_of options.now in
            let value = held_bytes ((S.shown store.old).content key.now) in
            let decode = inner_decoded self.now.codec.now under in MatchResult result
            (λ v. HasPair self.now.codec.now under value (pair_seen pair) (S.shown store.old)
            (S.shown store.new) (raw_of v))
            (NotRead (found_at decode value (pair_seen pair))
            (found_says (InnerSays self.now.codec.now under) value (pair_seen pair))
            (S.shown store.old) (S.shown store.new)) }
        ensures kept { S.kept store.old store.new }
    {
        let range = ByteRange::FromStart(pair.offset, Some(pair.size));
        match fetch_range(alloc, key, range, store) {
            Ok(Some(bytes)) => self.decode_bytes(alloc, bytes, options),
            Ok(None) => unreachable!(),
            Err(error) => Err(error),
        }
    }

    /// The same of an inner chunk that may not be there: [`None`] without a call where its pair says so.
    ///
    /// # Errors
    /// `InvalidByteRangeError` exactly where the pair names bytes past the value; else that of the inner chain, where
    /// these bytes do not decode; a fault of the store, or want of memory.
    pub(crate) fn fetch_inner<S: Store>(
        &self,
        alloc: Global,
        key: &StoreKey,
        pair: Pair,
        store: &mut S,
        options: &CodecOptions,
    ) -> Result<Option<ArrayBytes<'static>>, CodecError>
        requires inner { AreInner self.now }
        requires there { IsSome ((S.shown store.old).content key.now) }
        ensures read { let under = options_of options.now in
            let value = held_bytes ((S.shown store.old).content key.now) in
            let decode = inner_decoded self.now.codec.now under in MatchResult result
            (HasInner self.now.codec.now under value (pair_seen pair) (S.shown store.old)
            (S.shown store.new))
            (NotRead (inner_at decode value (pair_seen pair))
            (found_says (InnerSays self.now.codec.now under) value (pair_seen pair))
            (S.shown store.old) (S.shown store.new)) }
        ensures kept { S.kept store.old store.new }
    {
        if pair.is_absent() {
            return Ok(None);
        }
        match self.fetch_pair(alloc, key, pair, store, options) {
            Ok(bytes) => Ok(Some(bytes)),
            Err(error) => Err(error),
        }
    }
}
