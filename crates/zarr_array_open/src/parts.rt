//! Opening an array document.
//!
//! See <https://zarr-specs.readthedocs.io/en/latest/v3/core/index.html#array-metadata>.

ghost use Rattle.std.specs.Prelude.{◌≡◌, ℕ, List, Some, true, false, is_some, length, map};
ghost use Rattle.serde_json.specs.Read.{read as read_json};
ghost use Rattle.zarrs_codec_traits.specs.Prelude.{fill_element, kind, kind_of, has_long_element};
ghost use Rattle.zarrs_codec_traits.specs.Prelude.{IsChunk, fill_bytes, type_of, is_type};
ghost use Rattle.zarrs_codec_traits.specs.Prelude.{filled_with};
ghost use Rattle.zarrs_metadata.specs.ArrayMetadata.{array_seen};
ghost use Rattle.zarr_basics.specs.BasicGrid.{basic_shape, basic_grid, basic_form};
ghost use Rattle.zarr_basics.specs.Keys.{keys_of};
ghost use Rattle.zarr_basics.specs.Registries.{names_of};
ghost use Rattle.zarr_basics.specs.kinds.array_to_array.Views.{array_form};
ghost use Rattle.zarr_codecs.specs.Views.{plain_of};
ghost use Rattle.zarr_array_open.specs.Chain.{all_ranked, chain_form};
ghost use Rattle.zarr_array_open.specs.Sizes.{are_countable};
ghost use Rattle.zarr_array_open.specs.Opening.{is_large, is_served, served_document, document_of, document_read, open_document};

use crate::codecs::{BasicChain, chain_of};
use crate::document::read_document;
use crate::extensions::{
    codecs_by, data_type_by, expect_known_fields, fill_value_of, grid_by, keys_by,
};
use crate::limits::is_large;
use crate::open_error::OpenError;
use crate::served::expect_chain;
use std::alloc::Global;
use zarr_basics::{BasicGrid, ChunkKeyEncoding, Registries};
use zarrs_chunk_grid::ChunkGridTraits;
use zarrs_data_type::{DataType, FillValue};
use zarrs_metadata::ArrayMetadataV3;

/// The parts of an array that a document describes: its data type, its fill value, its grid, and the keys and the
/// codecs of its chunks.
#[derive(Drop)]
pub struct ArrayParts {
    pub(crate) data_type: DataType,
    pub(crate) fill: FillValue,
    pub(crate) grid: BasicGrid,
    pub(crate) keys: ChunkKeyEncoding,
    pub(crate) chain: BasicChain,
    ghost proper: { is_type (type_of data_type) ≡ true },
    ghost filled: { is_some (fill_element (kind_of (type_of data_type)) (fill_bytes fill)) ≡ true },
    ghost countable: { are_countable (basic_grid grid).grid_shape ≡ true },
    ghost fits: { is_large (plain_of chain.to_bytes) (type_of data_type) (fill_bytes fill)
        (basic_grid grid) ≡ false },
    ghost served: { is_served (chain_form chain) (type_of data_type) ≡ true },
    ghost ranked: { all_ranked (length (basic_shape grid))
        (map array_form chain.array_codecs.items) ≡ true },
}

// Numbers of chunks have the range of a `u64`, as these are held.
#[tactic(auto, using(crate::proofs::OpeningLaws::counts_fit))]
fn countable(_grid_shape: &[u64])
    ensures { are_countable _grid_shape.now ≡ true }
{}

impl ArrayParts {
    ghost use Rattle.zarr_array_open.specs.Parts.{documented_parts, described_parts, Opens, OpensAs};

    /// The array with these parts, if its codecs serve them.
    ///
    /// # Errors
    /// The first that applies of `UnsupportedDataTypeCodec` and `EndiannessMissing`, which the chain decides, and
    /// `ChunkTooLarge`; or `OutOfMemory`.
    #[tactic(auto, using(crate::proofs::OpeningLaws::of_served))]
    pub fn with_parts(
        alloc: Global,
        data_type: DataType,
        fill: FillValue,
        grid: BasicGrid,
        keys: ChunkKeyEncoding,
        chain: BasicChain,
    ) -> Result<ArrayParts, OpenError>
        requires proper { is_type (type_of data_type) ≡ true }
        requires filled { is_some (fill_element (kind_of (type_of data_type)) (fill_bytes fill))
            ≡ true }
        requires ranked { all_ranked (length (basic_shape grid))
            (map array_form chain.array_codecs.items) ≡ true }
        ensures { Opens documented_parts result (served_document (keys_of keys) (chain_form chain)
            (type_of data_type) (basic_shape grid) (basic_form grid) (fill_bytes fill)) }
    {
        countable(grid.grid_shape());
        expect_chain(alloc, &chain, &data_type)?;
        if is_large(&chain.to_bytes, &data_type, &fill, &grid) {
            return Err(OpenError::ChunkTooLarge);
        }
        Ok(ArrayParts {
            data_type,
            fill,
            grid,
            keys,
            chain,
        })
    }

    /// The array that the fields of a document describe, by the names of some registries, as `open` has it of a text.
    ///
    /// # Errors
    /// The first of [`OpenError`] that applies to the fields, or `OutOfMemory`.
    #[tactic(auto, unfolding(crate::specs::Opening::document_of), using(crate::proofs::OpeningLaws::fails_after))]
    pub fn from_metadata(
        alloc: Global,
        metadata: &ArrayMetadataV3,
        registries: &Registries,
    ) -> Result<ArrayParts, OpenError>
        ensures { Opens documented_parts result (document_of (names_of registries.now)
            (array_seen metadata.now)) }
    {
        expect_known_fields(metadata)?;
        let data_type = data_type_by(alloc, &metadata.data_type, &registries.data_types)?;
        let grid = grid_by(
            alloc,
            &metadata.shape,
            &metadata.chunk_grid,
            &registries.grids,
        )?;
        let keys = keys_by(
            alloc,
            &metadata.chunk_key_encoding,
            &registries.key_encodings,
        )?;
        let codecs = codecs_by(alloc, &metadata.shape, &metadata.codecs, &registries.codecs)?;
        let fill = fill_value_of(alloc, &data_type, &metadata.fill_value)?;
        let chain = chain_of(alloc, &codecs)?;
        Self::with_parts(alloc, data_type, fill, grid, keys, chain)
    }

    // The array that a text describes.
    #[tactic(auto, using(crate::proofs::OpeningLaws::fails_after))]
    fn from_text(
        alloc: Global,
        text: &str,
        registries: &Registries,
    ) -> Result<ArrayParts, OpenError>
        ensures { Opens documented_parts result (document_read (names_of registries.now)
            (read_json text.now)) }
    {
        let metadata = read_document(alloc, text)?;
        Self::from_metadata(alloc, &metadata, registries)
    }

    /// Opens the array that a document describes, by the names of some registries.
    ///
    /// Served are all data types, with any chain of `transpose`, whose order has the array's rank, and
    /// `zarr_basics.offset`, which serves whole numbers, then the codec of the elements, then `zarr_basics.sha256`, at
    /// any rank and of any length: `bytes` in either byte order for booleans, whole numbers and raw bits, `vlen-utf8`
    /// for texts, `vlen-bytes` for byte strings, and `zarr_basics.optional` over one of them for optional types.
    /// Attributes, dimension names and fields that need not be understood are read and left alone.
    ///
    /// # Errors
    /// The first of [`OpenError`] that applies, or `OutOfMemory`.
    #[tactic(auto, using(crate::proofs::OpeningLaws::opens_as))]
    pub fn open(alloc: Global, text: &str, registries: &Registries) -> Result<ArrayParts, OpenError>
        ensures { OpensAs result (open_document (names_of registries.now) text.now) }
    {
        Self::from_text(alloc, text, registries)
    }

    /// The data type of the elements.
    pub fn data_type(&self) -> &DataType
        ensures { type_of result.now ≡ (documented_parts self.now).data_type }
    {
        &self.data_type
    }

    /// The fill value.
    pub fn fill_value(&self) -> &FillValue
        ensures element { fill_element (kind_of (documented_parts self.now).data_type)
            (fill_bytes result.now) ≡ Some (documented_parts self.now).fill }
        // Where there is a chunk, one element that is the fill value is not too long to be stored.
        ensures short { (chunk : List ℕ) → IsChunk (described_parts self.now).grid chunk
            → has_long_element (filled_with (kind (described_parts self.now)) 1
            (fill_bytes result.now)) ≡ false }
    {
        &self.fill
    }

    /// The shape of the array.
    pub fn shape(&self) -> &[u64]
        ensures { result.now ≡ (documented_parts self.now).shape }
    {
        self.grid.array_shape()
    }

    /// The grid of chunks.
    pub fn grid(&self) -> &BasicGrid
        ensures form { basic_form result.now ≡ (documented_parts self.now).grid }
        ensures grid { basic_grid result.now ≡ (described_parts self.now).grid }
        ensures shape { basic_shape result.now ≡ (documented_parts self.now).shape }
    {
        &self.grid
    }

    /// The encoding of chunk keys.
    pub fn keys(&self) -> &ChunkKeyEncoding
        ensures { keys_of result.now ≡ (documented_parts self.now).keys }
    {
        &self.keys
    }
}
