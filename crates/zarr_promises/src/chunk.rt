//! A region of one chunk, read and replaced through a handle on its key.

ghost use Rattle.std.specs.Prelude.{◌≡◌, List, true, false, Some, IsSome, IfOk, OnOk};
ghost use Rattle.zarrs_codec.specs.Prelude.{Element, IsChunk, ends_within, chunk_content, layout};
ghost use Rattle.zarrs_codec.specs.Prelude.{has_long_element, region as region_of_subset};
ghost use Rattle.zarrs_codec.specs.Prelude.{SameContent, raw_of, options_of, list_at, at_box};
ghost use Rattle.zarrs_codec.specs.Prelude.{select, UnlessFault};
ghost use Rattle.zarr_chunks.specs.Update.{with_box};
ghost use Rattle.zarr_array_open.specs.ChunkLevels.{chunk_level};
ghost use Rattle.zarr_array.specs.Chunk.{PutsElements};
ghost use Rattle.zarr_array.specs.OpenArray.{described_array};

use std::alloc::Global;
use zarr_array::{ChainHandle, CodecOptions, OpenArray};
use zarrs_array_subset::ArraySubset;
use zarrs_codec_array_bytes::ArrayBytes;
use zarrs_codec_error::CodecError;
use zarrs_storage::{Store, StoreKey};

/// A region of the chunk under a key: that region of what the chunk has.
///
/// # Errors
/// As of `ChainHandle::partial_decode`.
pub fn region_of_chunk<S: Store>(
    alloc: Global,
    array: &OpenArray,
    chunk: &[u64],
    store: &mut S,
    key: StoreKey,
    region: &ArraySubset,
    options: &CodecOptions,
) -> Result<ArrayBytes<'static>, CodecError>
    requires chunk { IsChunk (described_array array.now).grid chunk.now }
    requires inside { ends_within (region_of_subset region.now)
        (chunk_level (described_array array.now) chunk.now).shape ≡ true }
    ensures elements { (list : List Element) → key ≡ (described_array array.now).key chunk.now →
        chunk_content (layout (described_array array.now) (options_of options.now))
        (S.shown store.old).content chunk.now ≡ Some list →
        let level = chunk_level (described_array array.now) chunk.now in
        IfOk result (λ v. list_at (at_box (region_of_subset region.now) level) (raw_of v)
        ≡ Some (select level.shape (region_of_subset region.now) list)) }
    ensures same { SameContent (S.shown store.old) (S.shown store.new) }
{
    let chain = array.copied_chain(alloc)?;
    let levels = array.levels(alloc, &chain, chunk)?;
    let mut handle = ChainHandle::from_parts(chain, levels, store, key);
    let result = handle.partial_decode(alloc, region, options);
    let _store = handle.into_storage();
    result
}

/// Replaces a region of the chunk under a key: the chunk then has these elements there and its own elsewhere.
///
/// # Errors
/// As of `ChainHandle::partial_encode`.
pub fn change_region_of_chunk<S: Store>(
    alloc: Global,
    array: &OpenArray,
    chunk: &[u64],
    store: &mut S,
    key: StoreKey,
    region: &ArraySubset,
    bytes: &ArrayBytes<'_>,
    options: &CodecOptions,
) -> Result<(), CodecError>
    requires chunk { IsChunk (described_array array.now).grid chunk.now }
    requires inside { ends_within (region_of_subset region.now)
        (chunk_level (described_array array.now) chunk.now).shape ≡ true }
    requires means { IsSome (list_at (at_box (region_of_subset region.now)
        (chunk_level (described_array array.now) chunk.now)) (raw_of bytes.now)) }
    requires short { has_long_element (raw_of bytes.now) ≡ false }
    ensures replaced { let under = options_of options.now in (old new : List Element) →
        key ≡ (described_array array.now).key chunk.now →
        chunk_content (layout (described_array array.now) under) (S.shown store.old).content chunk.now
        ≡ Some old → let level = chunk_level (described_array array.now) chunk.now in
        list_at (at_box (region_of_subset region.now) level) (raw_of bytes.now) ≡ Some new →
        OnOk result (PutsElements (described_array array.now) under chunk.now
        (with_box level.shape (region_of_subset region.now) new old)
        (S.shown store.old).content (S.shown store.new).content key) }
    ensures unchanged { UnlessFault result (SameContent (S.shown store.old) (S.shown store.new)) }
{
    let chain = array.copied_chain(alloc)?;
    let levels = array.levels(alloc, &chain, chunk)?;
    let mut handle = ChainHandle::from_parts(chain, levels, store, key);
    let result = handle.partial_encode(alloc, region, bytes, options);
    let _store = handle.into_storage();
    result
}
