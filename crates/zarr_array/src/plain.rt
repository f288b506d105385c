//! A plain array's chunks, fetched and stored through its chain of codecs.

ghost use Rattle.std.specs.Prelude.{IfOk, IfSome};
ghost use Rattle.zarr_array.specs.Access.{IsInHand};
ghost use Rattle.zarr_array.specs.RegionChunks.{IsChunkPlace};
ghost use Rattle.zarr_array.specs.Plain.{plain_access, plain_served, AreLevelsAt};

use crate::access::ChunkAccess;
use crate::chunk_place::ChunkPlace;
use std::alloc::{AllocError, Global};
use zarr_array_open::{ArrayParts, BasicGrid};
use zarr_chunks::{Fetched, fetch, fetch_region, put};
use zarr_codec_chain::ChunkLevels;
use zarrs_array_subset::ArraySubset;
use zarrs_codec_array_bytes::ArrayBytes;
use zarrs_codec_error::{CodecError, CodecOptions};
use zarrs_data_type::DataType;
use zarrs_data_type_bytes::FillValue;
use zarrs_storage::{StorageError, Store, StoreKey};

impl ChunkAccess for ArrayParts {
    type Levels = ChunkLevels;

    ghost seen = { plain_access };

    ghost serves = { AreLevelsAt };

    ghost served = { plain_served };

    fn grid(&self) -> &BasicGrid {
        ArrayParts::grid(self)
    }

    fn data_type(&self) -> &DataType {
        ArrayParts::data_type(self)
    }

    fn fill_value(&self) -> &FillValue {
        ArrayParts::fill_value(self)
    }

    fn chunk_key(&self, alloc: Global, chunk_indices: &[u64]) -> Result<StoreKey, AllocError> {
        let key = self.keys().key(alloc, chunk_indices)?;
        Ok(key)
    }

    fn levels_at(
        &self,
        alloc: Global,
        hand: Option<ChunkLevels>,
        place: &ChunkPlace,
    ) -> Result<ChunkLevels, AllocError>
        requires hand { IfSome hand (IsInHand (AreLevelsAt self.now)) }
        requires place { IsChunkPlace (plain_access self.now).description place.now }
        ensures { IfOk result (AreLevelsAt self.now place.now.indices.items) }
    {
        self.fitted_levels(alloc, hand, place.indices.as_slice(), place.subset.shape())
    }

    fn fetch_elements<S: Store>(
        &self,
        alloc: Global,
        place: &ChunkPlace,
        levels: &ChunkLevels,
        store: &mut S,
        options: &CodecOptions,
    ) -> Result<ArrayBytes<'static>, CodecError> {
        let chain = self.chain();
        let bytes = fetch(chain, levels, alloc, &place.key, store, options)?;
        Ok(bytes)
    }

    fn fetch_part<S: Store>(
        &self,
        alloc: Global,
        place: &ChunkPlace,
        levels: &ChunkLevels,
        within: &ArraySubset,
        store: &mut S,
        options: &CodecOptions,
    ) -> Result<Fetched, CodecError> {
        let chain = self.chain();
        let fetched = fetch_region(chain, levels, alloc, &place.key, within, store, options)?;
        Ok(fetched)
    }

    fn store_elements<S: Store>(
        &self,
        alloc: Global,
        place: &ChunkPlace,
        levels: &ChunkLevels,
        elements: ArrayBytes<'static>,
        store: &mut S,
        options: &CodecOptions,
    ) -> Result<(), StorageError> {
        let chain = self.chain();
        put(chain, levels, alloc, &place.key, elements, store, options)
    }
}
