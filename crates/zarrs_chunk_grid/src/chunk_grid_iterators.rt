//! Iterators over the chunks of every grid.

ghost use Rattle.std.specs.Prelude.{◌≡◌, ◌<◌, ◌^◌, true, length, IfOk, IfSome, IsTrue, Some};
ghost use Rattle.std.specs.Iterator.{item_count, UpTo};
ghost use Rattle.std.specs.Iterator.SizeHint.{IsWithinCount};
ghost use Rattle.std.specs.List.{list_all};
ghost use Rattle.zarr_model.specs.Region.{count_of};
ghost use Rattle.zarr_model.specs.Grid.{chunks};
ghost use Rattle.zarrs_chunk_grid_iterators.specs.Ends.{TakesFirst, TakesLast};
ghost use Rattle.zarrs_chunk_grid_iterators.specs.Iterators.{tuples_left};
ghost use Rattle.zarrs_chunk_grid.specs.ChunkGrid.{AllFit};
ghost use Rattle.zarrs_chunk_grid.specs.ChunkIterators.{IsBoxOf, IsChunkWithBox, is_small_chunk};

use crate::chunk_grid_traits::ChunkGridTraits;
use std::alloc::{AllocError, Global};
use zarrs_array_subset::{ArrayIndicesTinyVec, ArraySubset};
use zarrs_chunk_grid_iterators::IndicesIntoIterator;

/// The boxes of the chunks of a grid that are left, from both ends, in the chunks' row-major order.
#[derive(Drop)]
pub struct ChunkSubsets<'g, G: ChunkGridTraits> {
    grid: &'g G,
    alloc: Global,
    indices: IndicesIntoIterator,
    ghost small: { list_all (is_small_chunk (G.grid grid.now)) (tuples_left indices) ≡ true },
}

impl<G: ChunkGridTraits> Iterator for ChunkSubsets<'_, G> {
    type Item = Result<ArraySubset, AllocError>;

    ghost next_gives = { λ s r t. (t.grid.now ≡ s.grid.now)
        × TakesFirst (IsBoxOf (G.grid s.grid.now)) (λ it. tuples_left it.indices) s r t };

    ghost remaining = { item_count (λ it. tuples_left it.indices) };

    fn next(&mut self) -> Option<Result<ArraySubset, AllocError>> {
        match self.indices.next() {
            None => None,
            Some(Err(error)) => Some(Err(error)),
            Some(Ok(chunk)) => Some(self.grid.chunk_box(self.alloc, &chunk)),
        }
    }

    fn size_hint(&self) -> (usize, Option<usize>)
        ensures lower { IsWithinCount result.0 (item_count tuples_left self.now.indices) }
        ensures upper { IfSome result.1 (UpTo (item_count tuples_left self.now.indices)) }
        ensures exact { result.0 ≡ length (tuples_left self.now.indices) }
        ensures told { result.1 ≡ Some (length (tuples_left self.now.indices)) }
    {
        self.indices.size_hint()
    }
}

impl<G: ChunkGridTraits> DoubleEndedIterator for ChunkSubsets<'_, G> {
    ghost next_back_gives = { λ s r t. (t.grid.now ≡ s.grid.now)
        × TakesLast (IsBoxOf (G.grid s.grid.now)) (λ it. tuples_left it.indices) s r t };

    fn next_back(&mut self) -> Option<Result<ArraySubset, AllocError>> {
        match self.indices.next_back() {
            None => None,
            Some(Err(error)) => Some(Err(error)),
            Some(Ok(chunk)) => Some(self.grid.chunk_box(self.alloc, &chunk)),
        }
    }
}

impl<G: ChunkGridTraits> ExactSizeIterator for ChunkSubsets<'_, G> {
    fn len(&self) -> usize {
        self.indices.len()
    }
}

/// The chunks of a grid that are left, each with its box, from both ends, in row-major order.
#[derive(Drop)]
pub struct ChunkIndicesAndSubsets<'g, G: ChunkGridTraits> {
    grid: &'g G,
    alloc: Global,
    indices: IndicesIntoIterator,
    ghost small: { list_all (is_small_chunk (G.grid grid.now)) (tuples_left indices) ≡ true },
}

impl<G: ChunkGridTraits> Iterator for ChunkIndicesAndSubsets<'_, G> {
    type Item = Result<(ArrayIndicesTinyVec, ArraySubset), AllocError>;

    ghost next_gives = { λ s r t. (t.grid.now ≡ s.grid.now)
        × TakesFirst (IsChunkWithBox (G.grid s.grid.now)) (λ it. tuples_left it.indices) s r t };

    ghost remaining = { item_count (λ it. tuples_left it.indices) };

    fn next(&mut self) -> Option<Result<(ArrayIndicesTinyVec, ArraySubset), AllocError>> {
        match self.indices.next() {
            None => None,
            Some(Err(error)) => Some(Err(error)),
            Some(Ok(chunk)) => Some(with_box(self.grid, self.alloc, chunk)),
        }
    }

    fn size_hint(&self) -> (usize, Option<usize>)
        ensures lower { IsWithinCount result.0 (item_count tuples_left self.now.indices) }
        ensures upper { IfSome result.1 (UpTo (item_count tuples_left self.now.indices)) }
        ensures exact { result.0 ≡ length (tuples_left self.now.indices) }
        ensures told { result.1 ≡ Some (length (tuples_left self.now.indices)) }
    {
        self.indices.size_hint()
    }
}

impl<G: ChunkGridTraits> DoubleEndedIterator for ChunkIndicesAndSubsets<'_, G> {
    ghost next_back_gives = { λ s r t. (t.grid.now ≡ s.grid.now)
        × TakesLast (IsChunkWithBox (G.grid s.grid.now)) (λ it. tuples_left it.indices) s r t };

    fn next_back(&mut self) -> Option<Result<(ArrayIndicesTinyVec, ArraySubset), AllocError>> {
        match self.indices.next_back() {
            None => None,
            Some(Err(error)) => Some(Err(error)),
            Some(Ok(chunk)) => Some(with_box(self.grid, self.alloc, chunk)),
        }
    }
}

impl<G: ChunkGridTraits> ExactSizeIterator for ChunkIndicesAndSubsets<'_, G> {
    fn len(&self) -> usize {
        self.indices.len()
    }
}

// A chunk with its box.
fn with_box<G: ChunkGridTraits>(
    grid: &G,
    alloc: Global,
    chunk: ArrayIndicesTinyVec,
) -> Result<(ArrayIndicesTinyVec, ArraySubset), AllocError>
    requires { IsTrue (is_small_chunk (G.grid grid.now) chunk.items) }
    ensures { IsChunkWithBox (G.grid grid.now) chunk.items result }
{
    let subset = grid.chunk_box(alloc, &chunk)?;
    Ok((chunk, subset))
}

/// Iterators over the chunks of a grid.
pub trait ChunkGridTraitsIterators: ChunkGridTraits {
    /// The boxes of the chunks, in row-major order of the chunks.
    ///
    /// # Errors
    /// [`AllocError`] where memory runs out.
    fn iter_chunk_subsets(&self, alloc: Global) -> Result<ChunkSubsets<'_, Self>, AllocError>
        requires few { count_of (Self.grid self.now).grid_shape < 2 ^ 64 }
        requires fit { AllFit (Self.grid self.now) }
        ensures { IfOk result (λ it. (it.grid.now ≡ self.now)
            × (tuples_left it.indices ≡ chunks (Self.grid self.now))) };

    /// The chunks, each with its box, in row-major order.
    ///
    /// # Errors
    /// [`AllocError`] where memory runs out.
    fn iter_chunk_indices_and_subsets(
        &self,
        alloc: Global,
    ) -> Result<ChunkIndicesAndSubsets<'_, Self>, AllocError>
        requires few { count_of (Self.grid self.now).grid_shape < 2 ^ 64 }
        requires fit { AllFit (Self.grid self.now) }
        ensures { IfOk result (λ it. (it.grid.now ≡ self.now)
            × (tuples_left it.indices ≡ chunks (Self.grid self.now))) };
}

#[tactic(auto, using(crate::proofs::SmallChunks::of_chunks))]
impl<G: ChunkGridTraits> ChunkGridTraitsIterators for G {
    fn iter_chunk_subsets(&self, alloc: Global) -> Result<ChunkSubsets<'_, G>, AllocError> {
        let indices = self.iter_chunk_indices(alloc)?;
        Ok(ChunkSubsets {
            grid: self,
            alloc,
            indices,
        })
    }

    fn iter_chunk_indices_and_subsets(
        &self,
        alloc: Global,
    ) -> Result<ChunkIndicesAndSubsets<'_, G>, AllocError> {
        let indices = self.iter_chunk_indices(alloc)?;
        Ok(ChunkIndicesAndSubsets {
            grid: self,
            alloc,
            indices,
        })
    }
}
