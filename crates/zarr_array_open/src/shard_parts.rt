//! Opening the document of a sharded array.
//!
//! See <https://zarr-specs.readthedocs.io/en/latest/v3/codecs/sharding-indexed/index.html>.

ghost use Rattle.std.specs.Prelude.{◌≡◌, true, false, Some};
ghost use Rattle.serde_json.specs.Read.{read as read_json};
ghost use Rattle.zarrs_codec_traits.specs.Prelude.{fill_element, kind_of, fill_bytes, type_of};
ghost use Rattle.zarrs_metadata.specs.ArrayMetadata.{array_seen};
ghost use Rattle.zarr_basics.specs.BasicGrid.{basic_shape, basic_form, basic_grid};
ghost use Rattle.zarr_basics.specs.GridForms.{regular};
ghost use Rattle.zarr_basics.specs.Keys.{keys_of};
ghost use Rattle.zarr_basics.specs.Registries.{names_of};
ghost use Rattle.zarr_array_open.specs.Sizes.{are_countable};
ghost use Rattle.zarr_array_open.specs.Parts.{documented_parts, Opens};
ghost use Rattle.zarr_array_open.specs.ShardDocument.{grid_lengths_of, is_regular_grid, shard_shape, sharded};
ghost use Rattle.zarr_array_open.specs.ShardOpening.{has_large_shard, sharded_over, shard_document_of, shard_document_read, open_sharded};

use crate::grid::{chunk_lengths, regular_by};
use crate::shard::Shard;
use crate::shard_codecs::{document_codecs, only_sharding};
use crate::steps::{data_type_by, expect_known_fields, fill_value_of, keys_by, read_document};
use crate::{BasicGrid, OpenError, Registries};
use std::alloc::Global;
use zarr_basics::ChunkKeyEncoding;
use zarrs_chunk_grid::ChunkGridTraits;
use zarrs_data_type::DataType;
use zarrs_data_type_bytes::FillValue;
use zarrs_metadata::ArrayMetadataV3;

/// The parts of a sharded array: its grid, and how its chunks keep inner chunks.
#[derive(Drop)]
pub struct ShardParts {
    pub(crate) grid: BasicGrid,
    pub(crate) shard: Shard,
    ghost regular: { is_regular_grid (basic_form grid) ≡ true },
    ghost chunks: { grid_lengths_of (basic_form grid) ≡ (documented_parts shard.inner).shape },
    ghost countable: { are_countable (basic_grid grid).grid_shape ≡ true },
    ghost small: { has_large_shard (basic_shape grid) (documented_parts shard.inner) ≡ false },
}

// Numbers of chunks have the range of a `u64`, as these are held.
#[tactic(auto, using(crate::proofs::OpeningLaws::counts_fit))]
fn countable(_grid_shape: &[u64])
    ensures { are_countable _grid_shape.now ≡ true }
{}

impl ShardParts {
    ghost use Rattle.zarr_array_open.specs.Views.{shard_form, sharded_document, OpensShardPartsAs};

    // The array of a grid whose chunks keep inner chunks so, if they end within 64 bits.
    fn with_shard(grid: BasicGrid, shard: Shard) -> Result<ShardParts, OpenError>
        requires { basic_form grid ≡ regular (shard_shape (shard_form shard)) }
        ensures { Opens sharded_document result
            (sharded_over (basic_shape grid) (shard_form shard)) }
    {
        countable(grid.grid_shape());
        if grid.has_large_chunk(shard.inner.data_type().fixed_size()) {
            return Err(OpenError::ChunkTooLarge);
        }
        Ok(ShardParts { grid, shard })
    }

    /// The sharded array that the fields of a document describe, by the names of some registries, as `open` has it of a
    /// text.
    ///
    /// # Errors
    /// The first of [`OpenError`] that applies to the fields, or `OutOfMemory`.
    #[tactic(auto, unfolding(crate::specs::ShardOpening::shard_document_of), using(crate::proofs::OpeningLaws::fails_after))]
    pub fn from_metadata(
        alloc: Global,
        metadata: &ArrayMetadataV3,
        registries: &Registries,
    ) -> Result<ShardParts, OpenError>
        ensures { Opens sharded_document result (shard_document_of (names_of registries.now)
            (array_seen metadata.now)) }
    {
        expect_known_fields(metadata)?;
        let data_type = data_type_by(alloc, &metadata.data_type, &registries.data_types)?;
        let grid = regular_by(
            alloc,
            &metadata.shape,
            &metadata.chunk_grid,
            &registries.grids,
        )?;
        let keys = keys_by(
            alloc,
            &metadata.chunk_key_encoding,
            &registries.key_encodings,
        )?;
        let chunk_shape = chunk_lengths(alloc, &grid)?;
        let codecs = document_codecs(alloc, &chunk_shape, &metadata.codecs, &registries.codecs)?;
        let fill = fill_value_of(alloc, &data_type, &metadata.fill_value)?;
        let inner = only_sharding(&codecs)?;
        let shard = Shard::with_codecs(alloc, data_type, fill, keys, inner)?;
        Self::with_shard(grid, shard)
    }

    // The sharded array that a text describes.
    #[tactic(auto, using(crate::proofs::OpeningLaws::fails_after))]
    fn from_text(
        alloc: Global,
        text: &str,
        registries: &Registries,
    ) -> Result<ShardParts, OpenError>
        ensures { Opens sharded_document result (shard_document_read (names_of registries.now)
            (read_json text.now)) }
    {
        let metadata = read_document(alloc, text)?;
        Self::from_metadata(alloc, &metadata, registries)
    }

    /// Opens the sharded array that a document describes, by the names of some registries.
    ///
    /// Its grid is `regular`, and its only codec `sharding_indexed`, whose inner chunks have any codecs that a plain
    /// array may have. What is not so of its shards is so of a plain array too.
    ///
    /// # Errors
    /// The first of [`OpenError`] that applies, or `OutOfMemory`.
    #[tactic(auto, using(crate::proofs::ShardOpeningLaws::opens_as))]
    pub fn open(alloc: Global, text: &str, registries: &Registries) -> Result<ShardParts, OpenError>
        ensures { OpensShardPartsAs result (open_sharded (names_of registries.now) text.now) }
    {
        Self::from_text(alloc, text, registries)
    }

    /// The shape of the array.
    pub fn shape(&self) -> &[u64]
        ensures { result.now ≡ (sharded_document self.now).shape }
    {
        self.grid.array_shape()
    }

    /// The grid of chunks, each of which is a shard, and ends within 64 bits.
    pub fn grid(&self) -> &BasicGrid
        ensures shape { basic_shape result.now ≡ (sharded_document self.now).shape }
        ensures form { basic_form result.now ≡ regular (sharded_document self.now).chunk_shape }
        ensures countable { are_countable (basic_grid result.now).grid_shape ≡ true }
        ensures small { has_large_shard (sharded_document self.now).shape
            (shard_form self.now.shard).inner ≡ false }
    {
        &self.grid
    }

    /// How the chunks keep inner chunks.
    pub fn shard(&self) -> &Shard
        ensures { shard_form result.now ≡ shard_form self.now.shard }
    {
        &self.shard
    }

    /// The grid of chunks, and how these keep inner chunks.
    pub fn into_parts(self) -> (BasicGrid, Shard)
        ensures document { sharded (basic_shape result.0) (shard_form result.1)
            ≡ sharded_document self }
        ensures form { basic_form result.0 ≡ regular (shard_shape (shard_form result.1)) }
        ensures countable { are_countable (basic_grid result.0).grid_shape ≡ true }
        ensures small { has_large_shard (basic_shape result.0) (shard_form result.1).inner ≡ false }
    {
        (self.grid, self.shard)
    }

    /// The data type of the elements.
    pub fn data_type(&self) -> &DataType
        ensures { type_of result.now ≡ (sharded_document self.now).data_type }
    {
        self.shard.inner.data_type()
    }

    /// The encoding of chunk keys.
    pub fn keys(&self) -> &ChunkKeyEncoding
        ensures { keys_of result.now ≡ (sharded_document self.now).keys }
    {
        self.shard.inner.keys()
    }

    /// The fill value.
    pub fn fill_value(&self) -> &FillValue
        ensures { fill_element (kind_of (sharded_document self.now).data_type)
            (fill_bytes result.now) ≡ Some (sharded_document self.now).fill }
    {
        self.shard.inner.fill_value()
    }
}
