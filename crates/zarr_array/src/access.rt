//! What an array says of itself to those who read and write it chunk by chunk.

ghost use Rattle.std.specs.Prelude.{◌≡◌, ◌<◌, ℕ, List, true, false, MatchResult, OnOk, IfOk, IfSome};
ghost use Rattle.zarrs_codec_traits.specs.Prelude.{fixed, kind, kind_of, fill_element, count};
ghost use Rattle.zarrs_codec_traits.specs.Prelude.{sizes, ends_within, has_long_element, IsChunk};
ghost use Rattle.zarrs_codec_traits.specs.Prelude.{region, fill_bytes, type_of, raw_of};
ghost use Rattle.zarrs_codec_traits.specs.Prelude.{filled_with, options_of};
ghost use Rattle.zarr_basics.specs.BasicGrid.{basic_grid, basic_shape};
ghost use Rattle.zarr_array.specs.Access.{Access, IsServed, IsInHand};
ghost use Rattle.zarr_array.specs.Asked.{part_asked};
ghost use Rattle.zarr_array.specs.Chunk.{chunk_kind};
ghost use Rattle.zarr_array.specs.Fetch.{HasRead, chunk_list, MeanChunk, HasElements, NotFetched};
ghost use Rattle.zarr_array.specs.Pays.{PaysWhole, PaysBox};
ghost use Rattle.zarr_array.specs.RegionChunks.{IsChunkPlace};
ghost use Rattle.zarr_array.specs.Shared.{IsPartOf};
ghost use Rattle.zarr_array.specs.Store.{StoresElements};

use crate::chunk_place::ChunkPlace;
use std::alloc::{AllocError, Global};
use zarr_array_open::BasicGrid;
use zarr_chunks::Fetched;
use zarrs_array_subset::ArraySubset;
use zarrs_codec_array_bytes::ArrayBytes;
use zarrs_codec_error::{CodecError, CodecOptions};
use zarrs_data_type::DataType;
use zarrs_data_type_bytes::FillValue;
use zarrs_storage::{StorageError, Store, StoreKey};

/// An array whose chunks are fetched and stored: what a chunk's value means is said here alone.
pub trait ChunkAccess {
    /// What serves for all chunks of one shape, as the levels of a chain do.
    type Levels: Drop;

    /// What the array is, which errors tell that a chunk's value does not decode, and what fetching chunks costs.
    ghost seen: { Self → Access };

    /// Levels serve the chunk of these indices.
    ghost serves: { Self → List ℕ → Self.Levels → Type 0 };

    /// The grid of chunks.
    fn grid(&self) -> &BasicGrid
        ensures grid { basic_grid result.now ≡ (seen self.now).description.grid }
        ensures shape { basic_shape result.now ≡ (seen self.now).description.shape };

    /// The data type of the elements.
    fn data_type(&self) -> &DataType
        ensures kind { kind_of (type_of result.now) ≡ kind (seen self.now).description }
        ensures sizes { (n : ℕ) → kind_of (type_of result.now) ≡ fixed n → 0 < n };

    /// The fill value.
    fn fill_value(&self) -> &FillValue
        ensures element { fill_element (kind (seen self.now).description) (fill_bytes result.now)
            ≡ Some (seen self.now).description.fill }
        ensures short { (chunk : List ℕ) → IsChunk (seen self.now).description.grid chunk
            → has_long_element (filled_with (kind (seen self.now).description) 1
            (fill_bytes result.now)) ≡ false };

    /// The key of a chunk.
    ///
    /// # Errors
    /// [`AllocError`] where memory runs out.
    fn chunk_key(&self, alloc: Global, chunk_indices: &[u64]) -> Result<StoreKey, AllocError>
        ensures { IfOk result (λ key. key ≡ (seen self.now).description.key chunk_indices.now) };

    /// What serves the chunk at a place: what is in hand, if that does, else new.
    ///
    /// # Errors
    /// [`AllocError`] where memory runs out.
    fn levels_at(
        &self,
        alloc: Global,
        hand: Option<Self::Levels>,
        place: &ChunkPlace,
    ) -> Result<Self::Levels, AllocError>
        requires hand { IfSome hand (IsInHand (serves self.now)) }
        requires place { IsChunkPlace (seen self.now).description place.now }
        ensures { IfOk result (serves self.now place.now.indices.items) };

    /// The elements of the chunk at a place: those of its value, or the fill value where its key is absent.
    ///
    /// # Errors
    /// What the chunk's value or the store told, or want of memory.
    fn fetch_elements<S: Store>(
        &self,
        alloc: Global,
        place: &ChunkPlace,
        levels: &Self::Levels,
        store: &mut S,
        options: &CodecOptions,
    ) -> Result<ArrayBytes<'static>, CodecError>
        requires place { IsChunkPlace (seen self.now).description place.now }
        requires levels { serves self.now place.now.indices.items levels.now }
        ensures fetched { let chunk = place.now.indices.items in MatchResult result
            (λ v. HasRead (S.shown store.old) (S.shown store.new)
            × HasElements (seen self.now) (options_of options.now) chunk (S.shown store.old)
            (raw_of v))
            (λ error. NotFetched None (seen self.now) (options_of options.now) chunk
            (S.shown store.old) (S.shown store.new) (chunk_kind place.now.key error)) }
        ensures paid { OnOk result (PaysWhole (seen self.now).costs (seen self.now).description
            (options_of options.now) place.now.indices.items (S.shown store.old)
            (S.shown store.new)) }
        ensures kept { S.kept store.old store.new };

    /// Elements of the chunk at a place for a box inside it that has some.
    ///
    /// # Errors
    /// What the chunk's value or the store told, or want of memory.
    fn fetch_part<S: Store>(
        &self,
        alloc: Global,
        place: &ChunkPlace,
        levels: &Self::Levels,
        within: &ArraySubset,
        store: &mut S,
        options: &CodecOptions,
    ) -> Result<Fetched, CodecError>
        requires place { IsChunkPlace (seen self.now).description place.now }
        requires levels { serves self.now place.now.indices.items levels.now }
        requires inside { let box = (seen self.now).description.grid.chunk_box
            place.now.indices.items in ends_within (region within.now) (sizes box) ≡ true }
        requires some { 0 < count (region within.now) }
        ensures fetched { let chunk = place.now.indices.items in
            let box = (seen self.now).description.grid.chunk_box chunk in MatchResult result
            (λ v. HasRead (S.shown store.old) (S.shown store.new)
            × IsPartOf (seen self.now) (options_of options.now) chunk (region within.now)
            (S.shown store.old) v)
            (λ error. NotFetched (part_asked box (region within.now)) (seen self.now)
            (options_of options.now) chunk (S.shown store.old) (S.shown store.new)
            (chunk_kind place.now.key error)) }
        ensures paid { OnOk result (PaysBox (seen self.now).costs (seen self.now).description
            (options_of options.now) (region within.now) place.now.indices.items
            (S.shown store.old) (S.shown store.new)) }
        ensures kept { S.kept store.old store.new };

    /// Stores elements as those of the chunk at a place, or erases its key where all are the fill value and such chunks
    /// are not stored. One writing call.
    ///
    /// # Errors
    /// What the store told, or want of memory.
    fn store_elements<S: Store>(
        &self,
        alloc: Global,
        place: &ChunkPlace,
        levels: &Self::Levels,
        elements: ArrayBytes<'static>,
        store: &mut S,
        options: &CodecOptions,
    ) -> Result<(), StorageError>
        requires place { IsChunkPlace (seen self.now).description place.now }
        requires levels { serves self.now place.now.indices.items levels.now }
        requires mean { MeanChunk (seen self.now) place.now.indices.items (raw_of elements) }
        ensures { let chunk = place.now.indices.items in StoresElements (seen self.now)
            (options_of options.now) chunk
            (chunk_list (seen self.now) chunk (raw_of elements.entry)) place.now.key
            (S.shown store.old) (S.shown store.new) result };

    /// Its chunks cover it, have keys of their own, decode to their lists, and have room.
    ghost served: { (a : Self) → IsServed (seen a).description };
}
