//! A handle on one chunk of an array.

ghost use Rattle.std.specs.Prelude.{◌≡◌, IfOk};
ghost use Rattle.zarrs_codec_traits.specs.Prelude.{IsChunk, region as box_of, raw_of, options_of};
ghost use Rattle.zarr_chunks.specs.Handle.{HasParts, KeepsHandle, ReadsHandle, ErasesKey};
ghost use Rattle.zarr_chunks.specs.Seen.{CanRead, ReadsPart, CanWrite, WritesRegion};
ghost use Rattle.zarr_array.specs.OpenArray.{described_array};

use crate::open::OpenArray;
use crate::{BasicArrayToArray, BasicBytesToBytes, BasicChain};
use std::alloc::{AllocError, Global};
use zarr_codec_chain::ChunkLevels;
use zarr_codecs::BasicArrayToBytes;
use zarrs_array_subset::ArraySubset;
use zarrs_codec_array_bytes::ArrayBytes;
use zarrs_codec_error::{CodecError, CodecOptions};
use zarrs_storage::{Store, StoreKey};

/// The codecs of an array over the chunk under one key of a store.
#[derive(Drop)]
pub struct ChainHandle<'s, S> {
    held: zarr_chunks::ChainHandle<'s, S, BasicArrayToArray, BasicArrayToBytes, BasicBytesToBytes>,
}

impl<'s, S: Store> ChainHandle<'s, S> {
    ghost use Rattle.zarr_array.specs.Handle.{handle_seen, IsHandleOn};

    /// A handle on a chunk of the array's grid, under this key, with copies of the array's codecs. Where memory
    /// runs out, nothing is promised of what the store then holds; [`ChainHandle::from_parts`] takes none.
    ///
    /// # Errors
    /// [`AllocError`] where memory runs out.
    pub fn build(
        alloc: Global,
        array: &OpenArray,
        chunk: &[u64],
        store: &'s mut S,
        key: StoreKey,
    ) -> Result<ChainHandle<'s, S>, AllocError>
        requires { IsChunk (described_array array.now).grid chunk.now }
        ensures same_reference { IfOk result
            (λ handle. handle.held.storage.ghost_name ≡ store.entry.ghost_name) }
        ensures value { IfOk result (λ handle. handle.held.storage.now ≡ store.old) }
        ensures on { IfOk result (IsHandleOn array.now chunk.now key) }
    {
        let chain = array.copied_chain(alloc)?;
        let levels = array.levels(alloc, &chain, chunk)?;
        Ok(ChainHandle::from_parts(chain, levels, store, key))
    }

    /// A handle on the chunk under this key, by a chain with the levels of the chunk, as [`OpenArray::copied_chain`]
    /// and [`OpenArray::levels`] give them.
    pub fn from_parts(
        chain: BasicChain,
        levels: ChunkLevels,
        store: &'s mut S,
        key: StoreKey,
    ) -> ChainHandle<'s, S>
        ensures same_reference { result.held.storage.ghost_name ≡ store.entry.ghost_name }
        ensures value { result.held.storage.now ≡ store.old }
        ensures parts { HasParts result.held chain levels key }
    {
        ChainHandle {
            held: zarr_chunks::ChainHandle::from_parts(chain, levels, store, key),
        }
    }

    /// The elements of a region of the chunk, which lies inside it.
    ///
    /// # Errors
    /// What the store or the chunk's value told, or want of memory.
    pub fn partial_decode(
        &mut self,
        alloc: Global,
        region: &ArraySubset,
        options: &CodecOptions,
    ) -> Result<ArrayBytes<'static>, CodecError>
        requires { CanRead (handle_seen self.old) (box_of region.now) }
        ensures reads { ReadsPart (handle_seen self.old) (options_of options.now)
            (box_of region.now) self.old.held.key (S.shown self.old.held.storage.now)
            (S.shown self.new.held.storage.now) result }
        ensures keeps { ReadsHandle S.kept self.old.held self.new.held }
    {
        self.held.partial_decode(alloc, region, options)
    }

    /// Replaces the elements of a region of the chunk, which lies inside it, by valid ones, none of which is too long
    /// to be stored.
    ///
    /// # Errors
    /// What the store or the chunk's value told, or want of memory.
    pub fn partial_encode(
        &mut self,
        alloc: Global,
        region: &ArraySubset,
        bytes: &ArrayBytes<'_>,
        options: &CodecOptions,
    ) -> Result<(), CodecError>
        requires { CanWrite (handle_seen self.old) (box_of region.now) (raw_of bytes.now) }
        ensures writes { WritesRegion (handle_seen self.old) (options_of options.now)
            (box_of region.now) (raw_of bytes.now) self.old.held.key
            (S.shown self.old.held.storage.now) (S.shown self.new.held.storage.now) result }
        ensures keeps { KeepsHandle self.old.held self.new.held }
    {
        self.held.partial_encode(alloc, region, bytes, options)
    }

    /// Leaves the chunk's key absent, so that all its elements are the fill value. One writing call, no reading call.
    ///
    /// # Errors
    /// [`CodecError::StorageError`] where the store fails.
    pub fn erase(&mut self) -> Result<(), CodecError>
        ensures erases { ErasesKey self.old.held.key (S.shown self.old.held.storage.now)
            (S.shown self.new.held.storage.now) result }
        ensures keeps { KeepsHandle self.old.held self.new.held }
    {
        self.held.erase()
    }

    /// The store again.
    pub fn into_storage(self) -> &'s mut S
        ensures same_reference { result.ghost_name ≡ self.entry.held.storage.ghost_name }
        ensures value { result.now ≡ self.entry.held.storage.now }
    {
        self.held.into_storage()
    }
}
