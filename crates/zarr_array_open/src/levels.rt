//! The codecs of an array, and their levels for a chunk.

ghost use Rattle.std.specs.Prelude.{◌≡◌, true, map, Ok, IfOk, IfSome};
ghost use Rattle.zarr_codec_chain.specs.Prelude.{IsChunk, lengths, first_level};
ghost use Rattle.zarrs_codec_error.specs.declared.error.CodecError.TheVariants as codec;
ghost use Rattle.zarr_basics.specs.kinds.array_to_array.Views.{array_form};
ghost use Rattle.zarr_array_open.specs.Chain.{chain_form};
ghost use Rattle.zarr_array_open.specs.ChunkLevels.{ServesShape, chunk_shape};
ghost use Rattle.zarr_array_open.specs.Parts.{described_parts};
ghost use Rattle.zarr_array_open.specs.Sizes.{have_chunks};

use crate::codecs::BasicChain;
use crate::limits::has_chunks;
use crate::parts::ArrayParts;
use std::alloc::{AllocError, Global};
use std::num::NonZeroU64;
use zarr_basics::BasicArrayToArray;
use zarr_codec_chain::{ChunkLevels, CodecChain};
use zarrs_array_subset::ChunkShape;
use zarrs_chunk_grid::{ChunkGridError, ChunkGridTraits};
use zarrs_codec_error::CodecError;

// Copies of items, in order.
fn copies<T: Copy>(alloc: Global, items: &[T]) -> Result<Vec<T>, AllocError>
    ensures { IfOk result (λ v. v.items ≡ items.now) }
{
    let mut same = Vec::with_capacity(alloc, items.len())?;
    for item in items {
        same.push(*item)?;
    }
    Ok(same)
}

// Copies of array-to-array codecs, in order.
fn array_copies(
    alloc: Global,
    codecs: &[BasicArrayToArray],
) -> Result<Vec<BasicArrayToArray>, AllocError>
    ensures { IfOk result (λ v. map array_form v.items ≡ map array_form codecs.now) }
{
    let mut same = Vec::with_capacity(alloc, codecs.len())?;
    for codec in codecs {
        let copy = codec.try_clone(alloc)?;
        same.push(copy)?;
    }
    Ok(same)
}

// Whether a shape has these lengths.
fn has_lengths(shape: &[NonZeroU64], numbers: &[u64]) -> bool
    ensures same { result ≡ true → lengths shape.now ≡ numbers.now }
    ensures others { lengths shape.now ≡ numbers.now → result ≡ true }
{
    match shape {
        [] => numbers.is_empty(),
        [length, shape @ ..] => match numbers {
            [] => false,
            [number, numbers @ ..] => length.get() == *number && has_lengths(shape, numbers),
        },
    }
}

impl ArrayParts {
    /// Whether the grid has a chunk.
    pub fn has_chunks(&self) -> bool
        ensures { result ≡ have_chunks (described_parts self.now).grid.grid_shape }
    {
        has_chunks(&self.grid)
    }

    /// The codecs, in the order of encoding.
    pub fn chain(&self) -> &BasicChain
        ensures { result.now ≡ self.now.chain }
    {
        &self.chain
    }

    /// Copies of the codecs.
    ///
    /// # Errors
    /// [`AllocError`] where memory runs out.
    pub fn copied_chain(&self, alloc: Global) -> Result<BasicChain, AllocError>
        ensures { IfOk result (λ chain. chain_form chain ≡ chain_form self.now.chain) }
    {
        let array_codecs = array_copies(alloc, &self.chain.array_codecs)?;
        let to_bytes = self.chain.to_bytes.try_clone(alloc)?;
        let byte_codecs = copies(alloc, &self.chain.byte_codecs)?;
        Ok(CodecChain {
            array_codecs,
            to_bytes,
            byte_codecs,
        })
    }

    // The length of each dimension of a chunk.
    fn chunk_lengths(&self, alloc: Global, chunk: &[u64]) -> Result<ChunkShape, AllocError>
        requires { IsChunk (described_parts self.now).grid chunk.now }
        ensures { IfOk result
            (λ v. lengths v.items ≡ chunk_shape (described_parts self.now) chunk.now) }
    {
        match self.grid.chunk_shape(alloc, chunk) {
            Ok(Some(lengths)) => Ok(lengths),
            Ok(None) => unreachable!(),
            Err(ChunkGridError::OutOfMemory) => Err(AllocError),
            Err(ChunkGridError::IncompatibleDimensionality(_)) => unreachable!(),
        }
    }

    /// The levels of codecs like the array's for a chunk of its grid. They are those of each chunk of the same shape.
    ///
    /// # Errors
    /// [`AllocError`] where memory runs out.
    pub fn levels(
        &self,
        alloc: Global,
        chain: &BasicChain,
        chunk: &[u64],
    ) -> Result<ChunkLevels, AllocError>
        requires chain { chain_form chain.now ≡ chain_form self.now.chain }
        requires chunk { IsChunk (described_parts self.now).grid chunk.now }
        ensures { IfOk result
            (ServesShape self.now (chunk_shape (described_parts self.now) chunk.now) chain.now) }
    {
        let lengths = self.chunk_lengths(alloc, chunk)?;
        match ChunkLevels::of(alloc, chain, &lengths, &self.data_type, &self.fill) {
            Ok(levels) => Ok(levels),
            Err(error) => Err(error.only_memory()),
        }
    }

    /// The levels of the array's codecs for a chunk with these lengths: those in hand where they are of its shape, else
    /// new ones.
    ///
    /// # Errors
    /// [`AllocError`] where memory runs out.
    pub fn fitted_levels(
        &self,
        alloc: Global,
        hand: Option<ChunkLevels>,
        chunk: &[u64],
        shape: &[u64],
    ) -> Result<ChunkLevels, AllocError>
        requires hand { IfSome hand
            (λ levels. ServesShape self.now (first_level levels).shape self.now.chain levels) }
        requires chunk { IsChunk (described_parts self.now).grid chunk.now }
        requires shape { shape.now ≡ chunk_shape (described_parts self.now) chunk.now }
        ensures serves { IfOk result
            (ServesShape self.now (chunk_shape (described_parts self.now) chunk.now) self.now.chain) }
        ensures kept { IfSome hand
            (λ levels. (first_level levels).shape ≡ shape.now → result ≡ Ok levels) }
    {
        if let Some(levels) = hand {
            if has_lengths(levels.shape(), shape) {
                return Ok(levels);
            }
        }
        self.levels(alloc, &self.chain, chunk)
    }
}
