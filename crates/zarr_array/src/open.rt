//! Opened arrays.
//!
//! See <https://zarr-specs.readthedocs.io/en/latest/v3/core/index.html#array-metadata>.

ghost use Rattle.std.specs.Prelude.{◌≡◌, ◌<◌, ℕ, length, Some, IfOk};
ghost use Rattle.zarrs_codec_traits.specs.Prelude.{fixed, kind_of, fill_element, sizes, IsChunk};
ghost use Rattle.zarrs_codec_traits.specs.Prelude.{lengths, fill_bytes, type_of};
ghost use Rattle.zarrs_metadata.specs.ArrayMetadata.{array_seen};
ghost use Rattle.zarrs_chunk_grid.specs.ChunkGridErrors.{AnswersGrid};
ghost use Rattle.zarrs_chunk_grid.specs.ChunkGrid.{in_chunk};
ghost use Rattle.zarr_basics.specs.BasicGrid.{basic_form, basic_grid, basic_shape};
ghost use Rattle.zarr_basics.specs.Registries.{names_of};
ghost use Rattle.zarr_array_open.specs.Opening.{document_of, open_document};
ghost use Rattle.zarr_array_open.specs.Parts.{Opens};
ghost use Rattle.zarr_array_open.specs.Chain.{chain_form};
ghost use Rattle.zarr_array_open.specs.ChunkLevels.{ServesShape, chunk_shape};
ghost use Rattle.zarr_array_open.specs.Sizes.{have_chunks};

use crate::{ArrayParts, BasicChain, BasicGrid, ChunkAccess, OpenError, Registries};
use std::alloc::{AllocError, Global};
use zarr_codec_chain::ChunkLevels;
use zarrs_array_subset::ChunkShape;
use zarrs_chunk_grid::{ChunkGridError, ChunkGridTraits};
use zarrs_data_type::{DataType, FillValue};
use zarrs_metadata::ArrayMetadataV3;
use zarrs_storage::StoreKey;

/// An array that a document describes.
#[derive(Drop)]
pub struct OpenArray {
    pub(crate) parts: ArrayParts,
}

impl OpenArray {
    ghost use Rattle.zarr_array.specs.OpenArray.{documented, described_array, OpensArrayAs};

    /// Opens the array that a document describes, by the names of some registries.
    ///
    /// Served are all data types, at any rank and of any length, under any chain of `transpose`, whose order has the
    /// array's rank, and `zarr_basics.offset`, which serves whole numbers, then the codec of the elements, then
    /// `zarr_basics.sha256`: `bytes`, which has an order where components have several bytes, for booleans, whole
    /// numbers and raw bits, `vlen-utf8` for texts, `vlen-bytes` for byte strings, and `zarr_basics.optional` over one
    /// of them for optional types. Attributes, dimension names and fields that need not be understood are read and left
    /// alone.
    ///
    /// # Errors
    /// The first of [`OpenError`] that applies, or `OutOfMemory`.
    pub fn open(alloc: Global, text: &str, registries: &Registries) -> Result<OpenArray, OpenError>
        ensures { OpensArrayAs result (open_document (names_of registries.now) text.now) }
    {
        let parts = ArrayParts::open(alloc, text, registries)?;
        Ok(OpenArray { parts })
    }

    /// Opens the array that the fields of a document describe, as [`open`](OpenArray::open) has it of a text; floats in
    /// its attributes are not looked for.
    ///
    /// # Errors
    /// The first of [`OpenError`] from `UnsupportedField` on that applies to the fields, or `OutOfMemory`.
    pub fn from_metadata(
        alloc: Global,
        metadata: &ArrayMetadataV3,
        registries: &Registries,
    ) -> Result<OpenArray, OpenError>
        ensures { Opens documented result (document_of (names_of registries.now)
            (array_seen metadata.now)) }
    {
        let parts = ArrayParts::from_metadata(alloc, metadata, registries)?;
        Ok(OpenArray { parts })
    }

    /// Its parts, through which its chunks are read and written.
    pub fn parts(&self) -> &ArrayParts
        ensures { result.now ≡ self.now.parts }
    {
        &self.parts
    }

    /// Whether the array has a chunk: no length of its shape is 0.
    pub fn has_chunks(&self) -> bool
        ensures { result ≡ have_chunks (described_array self.now).grid.grid_shape }
    {
        self.parts.has_chunks()
    }

    /// The codecs, in the order of encoding.
    pub fn chain(&self) -> &BasicChain
        ensures { result.now ≡ self.now.parts.chain }
    {
        self.parts.chain()
    }

    /// Copies of the codecs.
    ///
    /// # Errors
    /// [`AllocError`] where memory runs out.
    pub fn copied_chain(&self, alloc: Global) -> Result<BasicChain, AllocError>
        ensures { IfOk result (λ chain. chain_form chain ≡ chain_form self.now.parts.chain) }
    {
        self.parts.copied_chain(alloc)
    }

    /// What the elements of a chunk of the grid are above each codec, of the array's or of copies. It is so of each
    /// chunk of the same shape.
    ///
    /// # Errors
    /// [`AllocError`] where memory runs out.
    pub fn levels(
        &self,
        alloc: Global,
        chain: &BasicChain,
        chunk: &[u64],
    ) -> Result<ChunkLevels, AllocError>
        requires chain { chain_form chain.now ≡ chain_form self.now.parts.chain }
        requires chunk { IsChunk (described_array self.now).grid chunk.now }
        ensures { IfOk result (ServesShape self.now.parts
            (chunk_shape (described_array self.now) chunk.now) chain.now) }
    {
        self.parts.levels(alloc, chain, chunk)
    }

    /// The data type of the elements.
    pub fn data_type(&self) -> &DataType
        ensures data_type { type_of result.now ≡ (documented self.now).data_type }
        ensures sizes { (n : ℕ) → kind_of (type_of result.now) ≡ fixed n → 0 < n }
    {
        self.parts.data_type()
    }

    /// The fill value.
    pub fn fill_value(&self) -> &FillValue
        ensures { fill_element (kind_of (documented self.now).data_type) (fill_bytes result.now)
            ≡ Some (documented self.now).fill }
    {
        self.parts.fill_value()
    }

    /// The shape of the array.
    pub fn shape(&self) -> &[u64]
        ensures { result.now ≡ (documented self.now).shape }
    {
        self.parts.shape()
    }

    /// The grid of chunks.
    pub fn grid(&self) -> &BasicGrid
        ensures form { basic_form result.now ≡ (documented self.now).grid }
        ensures grid { basic_grid result.now ≡ (described_array self.now).grid }
        ensures shape { basic_shape result.now ≡ (documented self.now).shape }
    {
        self.parts.grid()
    }

    /// The shape of a chunk, which is whole also at the edge of the array, or none where the grid has no such chunk.
    ///
    /// # Errors
    /// [`ChunkGridError`] where the indices have another number of dimensions than the array, or memory runs out.
    pub fn chunk_shape(
        &self,
        alloc: Global,
        chunk: &[u64],
    ) -> Result<Option<ChunkShape>, ChunkGridError>
        ensures { AnswersGrid (λ v. lengths v.items) result (length chunk.now)
            (length (documented self.now).shape)
            (in_chunk sizes (described_array self.now).grid chunk.now) }
    {
        self.parts.grid().chunk_shape(alloc, chunk)
    }

    /// The key that the value of a chunk stands under.
    ///
    /// # Errors
    /// [`AllocError`] where memory runs out.
    pub fn chunk_key(&self, alloc: Global, chunk: &[u64]) -> Result<StoreKey, AllocError>
        ensures { IfOk result (λ key. key ≡ (described_array self.now).key chunk.now) }
    {
        self.parts.chunk_key(alloc, chunk)
    }
}
