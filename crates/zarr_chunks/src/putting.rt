//! A chunk put into a store.

ghost use Rattle.std.specs.Prelude.{◌≡◌, List, Some};
ghost use Rattle.zarrs_codec_traits.specs.Prelude.{Element, raw_of, options_of, list_at};
ghost use Rattle.zarr_codec_chain.specs.Chain.{first_level, HasFill};
ghost use Rattle.zarr_chunks.specs.Put.{is_blank_list, is_list_dropped};
ghost use Rattle.zarr_chunks.specs.Seen.{chain_seen, CanPut, StoresChunk};

use std::alloc::Global;
use zarr_codec_chain::{ChunkLevels, CodecChain};
use zarrs_codec_array_bytes::ArrayBytes;
use zarrs_codec_error::CodecOptions;
use zarrs_codec_traits::{
    ArrayToArrayCodecTraits, ArrayToBytesCodecTraits, BytesToBytesCodecTraits,
};
use zarrs_storage::{StorageError, Store, StoreKey};

// Whether each element of a chunk is the fill value.
fn is_blank_chunk(levels: &ChunkLevels, chunk: &ArrayBytes<'_>) -> bool
    requires fill { HasFill levels.now }
    ensures { (list : List Element)
        → list_at (first_level levels.now) (raw_of chunk.now) ≡ Some list
        → result ≡ is_blank_list (first_level levels.now) list }
{
    chunk.is_fill_value(levels.fill_value())
}

// Whether a chunk is not stored.
fn is_left_out(levels: &ChunkLevels, chunk: &ArrayBytes<'_>, options: &CodecOptions) -> bool
    requires fill { HasFill levels.now }
    ensures { (list : List Element)
        → list_at (first_level levels.now) (raw_of chunk.now) ≡ Some list
        → result ≡ is_list_dropped (options_of options.now) (first_level levels.now) list }
{
    !options.store_empty_chunks() && is_blank_chunk(levels, chunk)
}

/// Stores a chunk by one call, or erases its key where all elements are the fill value and such chunks are not stored.
/// The chunk is valid, no element is too long to be stored, and the array-to-bytes codec takes such chunks.
///
/// # Errors
/// The error of the store; or [`StorageError::OutOfMemory`], and the store is as it was.
pub fn put<
    S: Store,
    A: ArrayToArrayCodecTraits,
    B: ArrayToBytesCodecTraits,
    C: BytesToBytesCodecTraits,
>(
    chain: &CodecChain<A, B, C>,
    levels: &ChunkLevels,
    alloc: Global,
    key: &StoreKey,
    chunk: ArrayBytes<'static>,
    store: &mut S,
    options: &CodecOptions,
) -> Result<(), StorageError>
    requires { CanPut (chain_seen A.ArrayCodecTraits.own A.ArrayToArrayCodecTraits.own
        B.ArrayCodecTraits.own B.ArrayToBytesCodecTraits.own C.BytesToBytesCodecTraits.own
        chain.now levels.now) (raw_of chunk) }
    ensures { StoresChunk (chain_seen A.ArrayCodecTraits.own A.ArrayToArrayCodecTraits.own
        B.ArrayCodecTraits.own B.ArrayToBytesCodecTraits.own C.BytesToBytesCodecTraits.own
        chain.now levels.now) (options_of options.now) (raw_of chunk.entry) key.now
        (S.shown store.old) (S.shown store.new) result }
{
    if is_left_out(levels, &chunk, options) {
        return store.erase(key);
    }
    match chain.encode(alloc, levels, chunk, options) {
        Ok(value) => store.set(alloc, key, &value),
        Err(error) => Err(StorageError::from(error.only_memory())),
    }
}
