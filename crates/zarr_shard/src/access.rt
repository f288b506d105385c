//! The chunks of a sharded array, fetched by their inner chunks and stored whole.

ghost use Rattle.std.specs.Prelude.{◌≡◌, List, Some, IfOk, IfSome};
ghost use Rattle.std.specs.List.{list_all};
ghost use Rattle.zarrs_codec.specs.Prelude.{Element, same_element, raw_of, options_of, list_at};
ghost use Rattle.zarr_array.specs.Access.{IsInHand};
ghost use Rattle.zarr_array.specs.Chunk.{is_dropped};
ghost use Rattle.zarr_array.specs.RegionChunks.{IsChunkPlace};
ghost use Rattle.zarr_shard_codec.specs.ShardCodec.{inner_of, own_level};
ghost use Rattle.zarr_shard.specs.Access.{shard_access, shard_served, serves_all};
ghost use Rattle.zarr_shard.specs.ShardArray.{described_shards};

use crate::array::ShardArray;
use std::alloc::{AllocError, Global};
use zarr_array::{ChunkAccess, ChunkPlace};
use zarr_basics::BasicGrid;
use zarr_chunks::Fetched;
use zarr_shard_codec::ShardCodec;
use zarrs_array_subset::ArraySubset;
use zarrs_codec_array_bytes::ArrayBytes;
use zarrs_codec_error::{CodecError, CodecOptions};
use zarrs_data_type::DataType;
use zarrs_data_type_bytes::FillValue;
use zarrs_storage::{StorageError, Store, StoreKey};

// Whether all elements of a chunk are the fill value.
fn is_blank(codec: &ShardCodec, elements: &ArrayBytes<'_>) -> bool
    ensures { (list : List Element)
        → list_at (own_level codec.now) (raw_of elements.now) ≡ Some list
        → result ≡ list_all (same_element (inner_of codec.now).fill) list }
{
    elements.is_fill_value(codec.inner().fill_value())
}

// Whether a chunk with these elements is not stored.
fn is_left_out(array: &ShardArray, elements: &ArrayBytes<'_>, options: &CodecOptions) -> bool
    ensures { (list : List Element)
        → list_at (own_level array.now.codec) (raw_of elements.now) ≡ Some list
        → result ≡ is_dropped (described_shards array.now) (options_of options.now) list }
{
    !options.store_empty_chunks() && is_blank(&array.codec, elements)
}

impl ChunkAccess for ShardArray {
    // All chunks have one shape, and the codec what serves for it.
    type Levels = ();

    ghost seen = { shard_access };

    ghost serves = { serves_all };

    ghost served = { shard_served };

    fn grid(&self) -> &BasicGrid {
        &self.grid
    }

    fn data_type(&self) -> &DataType {
        self.codec.inner().data_type()
    }

    fn fill_value(&self) -> &FillValue {
        self.codec.inner().fill_value()
    }

    fn chunk_key(&self, alloc: Global, chunk_indices: &[u64]) -> Result<StoreKey, AllocError> {
        let key = self.codec.inner().keys().key(alloc, chunk_indices)?;
        Ok(key)
    }

    fn levels_at(
        &self,
        _alloc: Global,
        _hand: Option<()>,
        _place: &ChunkPlace,
    ) -> Result<(), AllocError>
        requires hand { IfSome _hand (IsInHand (serves_all self.now)) }
        requires place { IsChunkPlace (shard_access self.now).description _place.now }
        ensures { IfOk result (serves_all self.now _place.now.indices.items) }
    {
        Ok(())
    }

    fn fetch_elements<S: Store>(
        &self,
        alloc: Global,
        place: &ChunkPlace,
        _levels: &(),
        store: &mut S,
        options: &CodecOptions,
    ) -> Result<ArrayBytes<'static>, CodecError> {
        let whole = self.codec.whole(alloc)?;
        self.codec
            .read_region(alloc, store, &place.key, &whole, options)
    }

    fn fetch_part<S: Store>(
        &self,
        alloc: Global,
        place: &ChunkPlace,
        _levels: &(),
        within: &ArraySubset,
        store: &mut S,
        options: &CodecOptions,
    ) -> Result<Fetched, CodecError> {
        match self
            .codec
            .read_region(alloc, store, &place.key, within, options)
        {
            Ok(bytes) => Ok(Fetched::Region(bytes)),
            Err(error) => Err(error),
        }
    }

    fn store_elements<S: Store>(
        &self,
        alloc: Global,
        place: &ChunkPlace,
        _levels: &(),
        elements: ArrayBytes<'static>,
        store: &mut S,
        options: &CodecOptions,
    ) -> Result<(), StorageError> {
        if is_left_out(self, &elements, options) {
            return store.erase(&place.key);
        }
        match self.codec.encode_chunk(alloc, &elements, options) {
            Ok(value) => store.set(alloc, &place.key, &value),
            Err(error) => Err(StorageError::from(error.only_memory())),
        }
    }
}
