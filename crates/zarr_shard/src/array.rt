//! Opened sharded arrays.
//!
//! See <https://zarr-specs.readthedocs.io/en/latest/v3/codecs/sharding-indexed/index.html>.

ghost use Rattle.std.specs.Prelude.{◌≡◌, true, false, IfOk};
ghost use Rattle.zarrs_metadata.specs.ArrayMetadata.{array_seen};
ghost use Rattle.zarr_basics.specs.BasicGrid.{basic_shape, basic_form, basic_grid};
ghost use Rattle.zarr_basics.specs.GridForms.{regular};
ghost use Rattle.zarr_basics.specs.Registries.{names_of};
ghost use Rattle.zarr_array_open.specs.Parts.{Opens};
ghost use Rattle.zarr_array_open.specs.Sizes.{are_countable};
ghost use Rattle.zarr_array_open.specs.ShardDocument.{sharded, shard_shape};
ghost use Rattle.zarr_array_open.specs.ShardOpening.{has_large_shard, shard_document_of, open_sharded};
ghost use Rattle.zarr_array_open.specs.Views.{shard_form, sharded_document};
ghost use Rattle.zarr_shard_codec.specs.ShardCodec.{codec_shard_form};

use std::alloc::{AllocError, Global};
use zarr_array_open::{OpenError, Registries, Shard, ShardParts};
use zarr_basics::BasicGrid;
use zarr_shard_codec::ShardCodec;
use zarrs_metadata::ArrayMetadataV3;

/// An array that a document describes, whose chunks keep inner chunks: a read of a region takes of each chunk that it
/// meets the index, and of its inner chunks those that it meets.
#[derive(Drop)]
pub struct ShardArray {
    // The grid of chunks, each of which is a shard.
    pub(crate) grid: BasicGrid,
    // The codec of a chunk.
    pub(crate) codec: ShardCodec,
    ghost form: { basic_form grid ≡ regular (shard_shape (codec_shard_form codec)) },
    ghost countable: { are_countable (basic_grid grid).grid_shape ≡ true },
    ghost small: { has_large_shard (basic_shape grid) (codec_shard_form codec).inner ≡ false },
}

impl ShardArray {
    ghost use Rattle.zarr_shard.specs.ShardArray.{documented_shards, OpensShardsAs};

    // The array of these chunks.
    fn with_shard(alloc: Global, grid: BasicGrid, shard: Shard) -> Result<ShardArray, AllocError>
        requires form { basic_form grid ≡ regular (shard_shape (shard_form shard)) }
        requires countable { are_countable (basic_grid grid).grid_shape ≡ true }
        requires small { has_large_shard (basic_shape grid) (shard_form shard).inner ≡ false }
        ensures { IfOk result (λ array. documented_shards array
            ≡ sharded (basic_shape grid) (shard_form shard)) }
    {
        let codec = ShardCodec::new(alloc, shard)?;
        Ok(ShardArray { grid, codec })
    }

    // The array of the parts that a document describes.
    fn of_parts(alloc: Global, parts: ShardParts) -> Result<ShardArray, AllocError>
        ensures { IfOk result (λ array. documented_shards array ≡ sharded_document parts) }
    {
        let (grid, shard) = parts.into_parts();
        Self::with_shard(alloc, grid, shard)
    }

    /// Opens the sharded array that a document describes, by the names of some registries.
    ///
    /// Its grid is `regular`, and its only codec `sharding_indexed` with an index at the end, whose inner chunks have
    /// any codecs that the chunks of a plain array may have, and whose index is of numbers in little endian, with a
    /// CRC-32C behind it or not.
    ///
    /// # Errors
    /// The first of [`OpenError`] that applies, or `OutOfMemory`.
    pub fn open(alloc: Global, text: &str, registries: &Registries) -> Result<ShardArray, OpenError>
        ensures { OpensShardsAs result (open_sharded (names_of registries.now) text.now) }
    {
        let parts = ShardParts::open(alloc, text, registries)?;
        let array = Self::of_parts(alloc, parts)?;
        Ok(array)
    }

    /// Opens the sharded array that the fields of a document describe, as [`open`](ShardArray::open) has it of a text;
    /// floats in its attributes are not looked for.
    ///
    /// # Errors
    /// The first of [`OpenError`] from `UnsupportedField` on that applies to the fields, or `OutOfMemory`.
    pub fn from_metadata(
        alloc: Global,
        metadata: &ArrayMetadataV3,
        registries: &Registries,
    ) -> Result<ShardArray, OpenError>
        ensures { Opens documented_shards result (shard_document_of (names_of registries.now)
            (array_seen metadata.now)) }
    {
        let parts = ShardParts::from_metadata(alloc, metadata, registries)?;
        let array = Self::of_parts(alloc, parts)?;
        Ok(array)
    }

    /// The codec of its chunks.
    pub fn codec(&self) -> &ShardCodec
        ensures { result.now ≡ self.now.codec }
    {
        &self.codec
    }
}
