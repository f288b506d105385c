//! What can be said of everything that is a region of an array.

ghost use Rattle.std.specs.Prelude.{◌≡◌, ◌≢◌, ◌<◌, ◌^◌, ◌⊎◌, ◌↔◌, ℕ, List, IsTrue, IfOk, IfErr, IfSome, IfNone, true, length};
ghost use Rattle.std.specs.Option.{SomeIff};
ghost use Rattle.zarr_model.specs.Cover.{linear_indices};
ghost use Rattle.zarr_model.specs.Region.{Region, count, count_of, ends_within, sizes, starts, tuples};
ghost use Rattle.zarrs_array_subset.specs.ArraySubset.{region};
ghost use Rattle.zarrs_array_subset.specs.Boxes.{contains_front, ends, ends_fit, is_within, last_indices, moved, moved_back, overlap_of, ranges_of, starts_past};
ghost use Rattle.zarrs_array_subset.specs.Errors.{RefusesOffset, RefusesShape};
ghost use Rattle.zarrs_array_subset.specs.declared.error.IndexerError.{IndexerError};
ghost use Rattle.zarrs_chunk_grid_iterators.specs.Iterators.{linear_of, runs_of, tuple_runs_of, tuples_of};
ghost use Rattle.zarrs_chunk_grid_iterators.specs.Runs.{run_size, runs, tuple_runs};

mod ranges;
mod subset;

use std::alloc::{AllocError, Global};
use std::ops::Range;
use zarrs_array_subset::{ArrayIndices, ArraySubset, ArraySubsetError, IndexerError};
use zarrs_chunk_grid_indexer::Indexer;
use zarrs_chunk_grid_iterators::{
    ContiguousIndices, ContiguousLinearisedIndices, Indices, LinearisedIndices,
};

/// A region of an array: a start and a shape, in some form.
pub trait ArraySubsetTraits: Indexer {
    // the region that it is
    ghost extent: { Self → Region };

    /// Where the region begins in each dimension.
    ///
    /// # Errors
    /// [`AllocError`] where memory runs out.
    fn start(&self, alloc: Global) -> Result<Vec<u64>, AllocError>
        ensures { IfOk result (λ v. v.items ≡ starts (extent self.now)) };

    /// How long the region is in each dimension.
    ///
    /// # Errors
    /// [`AllocError`] where memory runs out.
    fn shape(&self, alloc: Global) -> Result<Vec<u64>, AllocError>
        ensures { IfOk result (λ v. v.items ≡ sizes (extent self.now)) };

    /// The number of elements; none exactly where it passes `u64`.
    fn checked_num_elements(&self) -> Option<u64>
        ensures { SomeIff result (count (extent self.now) < 2 ^ 64) (count (extent self.now)) };

    /// Whether each index is in the region's dimension of its place, as far as both go.
    fn contains(&self, indices: &[u64]) -> bool
        ensures { result ≡ contains_front (extent self.now) indices.now };

    /// Whether the region has this shape's rank and ends within it in each dimension.
    fn inbounds_shape(&self, array_shape: &[u64]) -> bool
        ensures { result ≡ ends_within (extent self.now) array_shape.now };

    /// Whether the region is within a subset of its rank in each dimension.
    fn inbounds(&self, other: &ArraySubset) -> bool
        ensures { result ≡ is_within (extent self.now) (region other.now) };

    /// Whether the region is this subset.
    fn equals_subset(&self, other: &ArraySubset) -> bool
        ensures { IsTrue result ↔ (extent self.now ≡ region other.now) };

    /// The region as an array subset.
    ///
    /// # Errors
    /// [`AllocError`] where memory runs out.
    fn to_array_subset(&self, alloc: Global) -> Result<ArraySubset, AllocError>
        ensures { IfOk result (λ s. region s ≡ extent self.now) };

    /// The number of elements.
    final fn num_elements(&self) -> u64
        requires { count (extent self.now) < 2 ^ 64 }
        ensures { result ≡ count (extent self.now) }
    {
        match self.checked_num_elements() {
            Some(count) => count,
            None => unreachable!(),
        }
    }

    /// The number of elements.
    final fn num_elements_usize(&self) -> usize
        requires { count (extent self.now) < 2 ^ 64 }
        ensures { result ≡ count (extent self.now) }
    {
        self.num_elements() as usize
    }

    /// The first index past the region in each dimension.
    final fn end_exc(&self, alloc: Global) -> Result<ArrayIndices, AllocError>
        ensures { IfOk result (λ v. v.items ≡ ends (extent self.now)) }
    {
        let subset = self.to_array_subset(alloc)?;
        let end = subset.end_exc(alloc)?;
        Ok(end)
    }

    /// The last index in each dimension; none exactly where the region has no element.
    final fn end_inc(&self, alloc: Global) -> Result<Option<ArrayIndices>, AllocError>
        ensures some { IfOk result (λ o. IfSome o (λ v. (count (extent self.now) ≢ 0)
            × (v.items ≡ last_indices (extent self.now)))) }
        ensures none { IfOk result (λ o. IfNone o (count (extent self.now) ≡ 0)) }
    {
        let subset = self.to_array_subset(alloc)?;
        let end = subset.end_inc(alloc)?;
        Ok(end)
    }

    /// The range of indices in each dimension.
    final fn to_ranges(&self, alloc: Global) -> Result<Vec<Range<u64>>, AllocError>
        ensures { IfOk result (λ v. v.items ≡ ranges_of (extent self.now)) }
    {
        let subset = self.to_array_subset(alloc)?;
        let ranges = subset.to_ranges(alloc)?;
        Ok(ranges)
    }

    /// The part that the region shares with a subset, which may be empty.
    ///
    /// # Errors
    /// [`ArraySubsetError`] where the subset has another dimensionality, or there is not enough
    /// memory.
    final fn overlap(
        &self,
        alloc: Global,
        other: &ArraySubset,
    ) -> Result<ArraySubset, ArraySubsetError>
        ensures ok { IfOk result (λ s. (length (extent self.now) ≡ length (region other.now))
            × (region s ≡ overlap_of (extent self.now) (region other.now))) }
        ensures refused { IfErr result (λ e. (e ≡ ArraySubsetError.OutOfMemory)
            ⊎ ((e ≡ ArraySubsetError.IncompatibleDimensionality
            (length (region other.now)) (length (extent self.now)))
            × (length (extent self.now) ≢ length (region other.now)))) }
    {
        let subset = self.to_array_subset(alloc)?;
        match subset.overlap(alloc, other) {
            Ok(overlap) => Ok(overlap),
            Err(error) => Err(error),
        }
    }

    /// The region with `offset` taken off its start.
    ///
    /// # Errors
    /// [`ArraySubsetError`] where `offset` has another dimensionality or is past the start, or
    /// there is not enough memory.
    final fn relative_to(
        &self,
        alloc: Global,
        offset: &[u64],
    ) -> Result<ArraySubset, ArraySubsetError>
        ensures ok { IfOk result (λ s. (starts_past (extent self.now) offset.now ≡ true)
            × (region s ≡ moved_back (extent self.now) offset.now)) }
        ensures refused { IfErr result (RefusesOffset (starts_past (extent self.now) offset.now)
            (extent self.now) offset.now) }
    {
        let subset = self.to_array_subset(alloc)?;
        match subset.relative_to(alloc, offset) {
            Ok(moved) => Ok(moved),
            Err(error) => Err(error),
        }
    }

    /// The region with `offset` added to its start.
    ///
    /// # Errors
    /// [`ArraySubsetError`] where `offset` has another dimensionality or leads an end past `u64`,
    /// or there is not enough memory.
    final fn offset(&self, alloc: Global, offset: &[u64]) -> Result<ArraySubset, ArraySubsetError>
        ensures ok { IfOk result (λ s. (ends_fit (extent self.now) offset.now ≡ true)
            × (region s ≡ moved (extent self.now) offset.now)) }
        ensures refused { IfErr result (RefusesOffset (ends_fit (extent self.now) offset.now)
            (extent self.now) offset.now) }
    {
        let subset = self.to_array_subset(alloc)?;
        match subset.offset(alloc, offset) {
            Ok(moved) => Ok(moved),
            Err(error) => Err(error),
        }
    }

    /// The indices.
    final fn indices(&self, alloc: Global) -> Result<Indices, AllocError>
        requires { count (extent self.now) < 2 ^ 64 }
        ensures { IfOk result (λ it. tuples_of it ≡ tuples (extent self.now)) }
    {
        let subset = self.to_array_subset(alloc)?;
        Ok(Indices::new(subset))
    }

    /// The linear indices in an array's shape.
    ///
    /// # Errors
    /// [`IndexerError`] of another dimensionality than the shape's, or else of an end past it, or
    /// where there is not enough memory.
    final fn linearised_indices(
        &self,
        alloc: Global,
        array_shape: &[u64],
    ) -> Result<LinearisedIndices, IndexerError>
        requires { count_of array_shape.now < 2 ^ 64 }
        ensures inside { IfOk result (λ it. ends_within (extent self.now) array_shape.now ≡ true) }
        ensures lists { IfOk result (λ it. linear_of it
            ≡ linear_indices array_shape.now (extent self.now)) }
        ensures refused { IfErr result (RefusesShape (extent self.now) array_shape.now) }
    {
        let subset = self.to_array_subset(alloc)?;
        let shape = array_shape.to_vec(alloc)?;
        match LinearisedIndices::new(alloc, subset, shape) {
            Ok(indices) => Ok(indices),
            Err(error) => Err(error),
        }
    }

    /// The runs in an array's shape, by the indices at which they begin.
    ///
    /// # Errors
    /// [`IndexerError`] of another dimensionality than the shape's, or else of an end past it, or
    /// where there is not enough memory.
    final fn contiguous_indices(
        &self,
        alloc: Global,
        array_shape: &[u64],
    ) -> Result<ContiguousIndices, IndexerError>
        requires { count_of array_shape.now < 2 ^ 64 }
        ensures inside { IfOk result (λ it. ends_within (extent self.now) array_shape.now ≡ true) }
        ensures lists { IfOk result (λ it. tuple_runs_of it
            ≡ tuple_runs array_shape.now (extent self.now)) }
        ensures each { IfOk result (λ it. it.contiguous_elements
            ≡ run_size array_shape.now (extent self.now)) }
        ensures refused { IfErr result (RefusesShape (extent self.now) array_shape.now) }
    {
        let subset = self.to_array_subset(alloc)?;
        match ContiguousIndices::new(alloc, subset, array_shape) {
            Ok(runs) => Ok(runs),
            Err(error) => Err(error),
        }
    }

    /// The runs of linear indices in an array's shape.
    ///
    /// # Errors
    /// [`IndexerError`] of another dimensionality than the shape's, or else of an end past it, or
    /// where there is not enough memory.
    final fn contiguous_linearised_indices(
        &self,
        alloc: Global,
        array_shape: &[u64],
    ) -> Result<ContiguousLinearisedIndices, IndexerError>
        requires { count_of array_shape.now < 2 ^ 64 }
        ensures inside { IfOk result (λ it. ends_within (extent self.now) array_shape.now ≡ true) }
        ensures lists { IfOk result (λ it. runs_of it ≡ runs array_shape.now (extent self.now)) }
        ensures each { IfOk result (λ it. it.contiguous_elements
            ≡ run_size array_shape.now (extent self.now)) }
        ensures refused { IfErr result (RefusesShape (extent self.now) array_shape.now) }
    {
        let subset = self.to_array_subset(alloc)?;
        let shape = array_shape.to_vec(alloc)?;
        match ContiguousLinearisedIndices::new(alloc, subset, shape) {
            Ok(runs) => Ok(runs),
            Err(error) => Err(error),
        }
    }

    // as an indexer it lists the region, and is refused as the region
    ghost lists: { (x : Self) → Self.places x ≡ tuples (extent x) };

    ghost bounds: { (x : Self) (shape : List ℕ)
        → Self.fits x shape ≡ ends_within (extent x) shape };

    ghost least: { (x : Self) (shape : List ℕ) → Self.pieces x shape ≡ runs shape (extent x) };

    ghost ranks: { (x : Self) → Self.rank x ≡ length (extent x) };

    ghost shapes: { (x : Self) → Self.output x ≡ sizes (extent x) };

    ghost refuses_shape: { (x : Self) (shape : List ℕ) (e : IndexerError) → Self.refuses x shape e
        → RefusesShape (extent x) shape e };
}
