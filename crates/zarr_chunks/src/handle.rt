//! A chain that is owned, over one key of a store.

ghost use Rattle.std.specs.Prelude.{◌≡◌};
ghost use Rattle.zarrs_codec_traits.specs.Prelude.{region as box_of, raw_of, options_of};
ghost use Rattle.zarr_chunks.specs.Seen.{chain_seen, CanRead, ReadsPart, CanWrite, WritesRegion};

use crate::reading::read;
use crate::updating::write;
use std::alloc::Global;
use zarr_codec_chain::{ChunkLevels, CodecChain};
use zarrs_array_subset::ArraySubset;
use zarrs_codec_array_bytes::ArrayBytes;
use zarrs_codec_error::{CodecError, CodecOptions};
use zarrs_codec_traits::{
    ArrayToArrayCodecTraits, ArrayToBytesCodecTraits, BytesToBytesCodecTraits,
};
use zarrs_storage::{Store, StoreKey};

/// A chain of codecs, with the levels of a chunk, over the chunk under one key of a store.
#[derive(Drop)]
pub struct ChainHandle<'s, S, A, B, C> {
    chain: CodecChain<A, B, C>,
    levels: ChunkLevels,
    storage: &'s mut S,
    key: StoreKey,
}

impl<
    's,
    S: Store,
    A: ArrayToArrayCodecTraits + Drop,
    B: ArrayToBytesCodecTraits + Drop,
    C: BytesToBytesCodecTraits + Drop,
> ChainHandle<'s, S, A, B, C> {
    ghost use Rattle.zarr_chunks.specs.Handle.{HasParts, KeepsHandle, ReadsHandle, ErasesKey};

    /// A handle on the chunk under this key.
    pub fn from_parts(
        chain: CodecChain<A, B, C>,
        levels: ChunkLevels,
        storage: &'s mut S,
        key: StoreKey,
    ) -> Self
        ensures same_reference { result.storage.ghost_name ≡ storage.entry.ghost_name }
        ensures value { result.storage.now ≡ storage.old }
        ensures parts { HasParts result chain levels key }
    {
        ChainHandle {
            chain,
            levels,
            storage,
            key,
        }
    }

    /// The elements of a region of the chunk, which lies inside it. What is read is as of `fetch_region`.
    ///
    /// # Errors
    /// As those of `read`.
    pub fn partial_decode(
        &mut self,
        alloc: Global,
        region: &ArraySubset,
        options: &CodecOptions,
    ) -> Result<ArrayBytes<'static>, CodecError>
        requires { CanRead (chain_seen A.ArrayCodecTraits.own A.ArrayToArrayCodecTraits.own
            B.ArrayCodecTraits.own B.ArrayToBytesCodecTraits.own C.BytesToBytesCodecTraits.own
            self.old.chain self.old.levels) (box_of region.now) }
        ensures reads { ReadsPart (chain_seen A.ArrayCodecTraits.own
            A.ArrayToArrayCodecTraits.own B.ArrayCodecTraits.own B.ArrayToBytesCodecTraits.own
            C.BytesToBytesCodecTraits.own self.old.chain self.old.levels)
            (options_of options.now) (box_of region.now) self.old.key
            (S.shown self.old.storage.now) (S.shown self.new.storage.now) result }
        ensures keeps { ReadsHandle S.kept self.old self.new }
    {
        read(
            &self.chain,
            &self.levels,
            alloc,
            &self.key,
            region,
            self.storage,
            options,
        )
    }

    /// Replaces the elements of a region of the chunk. What it takes is as of `write`.
    ///
    /// # Errors
    /// As those of `write`.
    pub fn partial_encode(
        &mut self,
        alloc: Global,
        region: &ArraySubset,
        bytes: &ArrayBytes<'_>,
        options: &CodecOptions,
    ) -> Result<(), CodecError>
        requires { CanWrite (chain_seen A.ArrayCodecTraits.own A.ArrayToArrayCodecTraits.own
            B.ArrayCodecTraits.own B.ArrayToBytesCodecTraits.own C.BytesToBytesCodecTraits.own
            self.old.chain self.old.levels) (box_of region.now) (raw_of bytes.now) }
        ensures writes { WritesRegion (chain_seen A.ArrayCodecTraits.own
            A.ArrayToArrayCodecTraits.own B.ArrayCodecTraits.own B.ArrayToBytesCodecTraits.own
            C.BytesToBytesCodecTraits.own self.old.chain self.old.levels)
            (options_of options.now) (box_of region.now) (raw_of bytes.now) self.old.key
            (S.shown self.old.storage.now) (S.shown self.new.storage.now) result }
        ensures keeps { KeepsHandle self.old self.new }
    {
        write(
            &self.chain,
            &self.levels,
            alloc,
            &self.key,
            region,
            bytes,
            self.storage,
            options,
        )
    }

    /// Leaves the chunk's key absent, so that all its elements are the fill value. One writing call, no reading call.
    ///
    /// # Errors
    /// [`CodecError::StorageError`] where the store fails.
    pub fn erase(&mut self) -> Result<(), CodecError>
        ensures erases { ErasesKey self.old.key (S.shown self.old.storage.now)
            (S.shown self.new.storage.now) result }
        ensures keeps { KeepsHandle self.old self.new }
    {
        self.storage.erase(&self.key)?;
        Ok(())
    }

    /// The store again.
    pub fn into_storage(self) -> &'s mut S
        ensures same_reference { result.ghost_name ≡ self.entry.storage.ghost_name }
        ensures value { result.now ≡ self.entry.storage.now }
    {
        let ChainHandle {
            chain: _,
            levels: _,
            storage,
            key: _,
        } = self;
        storage
    }
}
