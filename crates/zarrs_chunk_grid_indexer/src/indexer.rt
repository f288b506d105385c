//! What selects elements of an array.

ghost use Rattle.std.specs.Prelude.{◌≡◌, ℕ, ◌*◌, ◌<◌, ◌^◌, ◌⊎◌, List, Bool, Option, Some, true, false, length, map, nat_eq, IfOk, IfErr};
ghost use Rattle.std.specs.List.{AllByRecursion};
ghost use Rattle.std.specs.Option.{SomeIff, option_map};
ghost use Rattle.std.specs.Iterator.{AlwaysYields, IsFinite};
ghost use Rattle.zarr_model.specs.Region.{Region, Span, contains, count_of, linear_index, tuples, whole};
ghost use Rattle.zarrs_array_subset.specs.ArraySubset.{region};
ghost use Rattle.zarrs_array_subset.specs.Errors.{no_memory};
ghost use Rattle.zarrs_array_subset.specs.declared.error.IndexerError.{IndexerError};
ghost use Rattle.zarrs_chunk_grid_iterators.specs.Places.{IsTuple};
ghost use Rattle.zarrs_chunk_grid_iterators.specs.Runs.{joined, span_of};
ghost use Rattle.zarrs_chunk_grid_iterators.specs.Ends.{GivesBothEnds};

mod boxes;
mod byte_runs;
mod gather;
mod index_lists;
mod indexer_list;
mod items;
mod lists;
mod range_lists;
mod ranges;
mod subset;

pub use byte_runs::ByteRuns;
pub use gather::{
    append_contiguous_linearised_indices, append_indices, append_linearised_indices,
    collect_indices,
};
pub use index_lists::IndexSlice;
pub use indexer_list::IndexerList;
pub use range_lists::RangeSlice;
use std::alloc::{AllocError, Global};
use zarrs_array_subset::{ArrayIndicesTinyVec, ArraySubset, IndexerError};

/// An iterator that an indexer gives.
pub trait IndexerIterator: Iterator {}

impl<I: Iterator> IndexerIterator for I {}

/// A list of indices of an array, in some form.
pub trait Indexer {
    ghost use Rattle.zarrs_chunk_grid_indexer.specs.Bytes.{AllWithin, byte_steps, span_byte_range};

    /// The indices one by one.
    type IndicesIter: DoubleEndedIterator<Item = Result<ArrayIndicesTinyVec, AllocError>>
        + ExactSizeIterator;
    /// The linear indices in an array's shape one by one.
    type LinearIter: DoubleEndedIterator<Item = u64> + ExactSizeIterator;
    /// Runs of neighbouring linear indices, each as its start and its length.
    type RunsIter: DoubleEndedIterator<Item = (u64, u64)> + ExactSizeIterator;

    // the index tuples, in order
    ghost places: { Self → List (List ℕ) };

    // how many numbers a tuple has
    ghost rank: { Self → ℕ };

    // the shape of what is selected
    ghost output: { Self → List ℕ };

    // the region, where it is told to be one
    ghost as_region: { Self → Option Region };

    // whether it may be used on a shape, and why not
    ghost fits: { Self → List ℕ → Bool };

    ghost refuses: { Self → List ℕ → IndexerError → Type 0 };

    // its runs of linear indices in a shape
    ghost pieces: { Self → List ℕ → List Span };

    // what its iterators have left
    ghost indices_left: { Self.IndicesIter → List (List ℕ) };

    ghost linearised_left: { Self.LinearIter → List ℕ };

    ghost contiguous_left: { Self.RunsIter → List Span };

    // what counts have to fit 64 bits before its tuples are listed, and its output shape is told
    ghost listable: { Self → Type 0 };

    ghost has_output: { Self → Type 0 };

    /// The number of dimensions.
    fn dimensionality(&self) -> usize
        ensures { result ≡ rank self.now };

    /// The number of indices.
    fn len(&self) -> u64
        requires { length (places self.now) < 2 ^ 64 }
        ensures { result ≡ length (places self.now) };

    /// The number of indices; none exactly where it passes `u64`.
    fn checked_len(&self) -> Option<u64>
        ensures { SomeIff result (length (places self.now) < 2 ^ 64) (length (places self.now)) };

    /// Whether there is no index.
    fn is_empty(&self) -> bool
        ensures { result ≡ nat_eq (length (places self.now)) 0 };

    /// The shape of what is selected.
    ///
    /// # Errors
    /// [`AllocError`] where memory runs out.
    fn output_shape(&self, alloc: Global) -> Result<Vec<u64>, AllocError>
        requires { has_output self.now }
        ensures { IfOk result (λ v. v.items ≡ output self.now) };

    /// The indices, one by one from both ends.
    ///
    /// # Errors
    /// [`AllocError`] where there is not enough memory.
    fn iter_indices(&self, alloc: Global) -> Result<Self::IndicesIter, AllocError>
        requires { listable self.now }
        ensures can { IfOk result (λ it. Self.IndicesIter.can_next it) }
        ensures finite { IfOk result (λ it. IsFinite (Self.IndicesIter.remaining it)) }
        ensures lists { IfOk result (λ it. indices_left it ≡ places self.now) };

    /// The linear indices in an array's shape, one by one from both ends.
    ///
    /// # Errors
    /// [`IndexerError`] of another dimensionality than the shape's, or else of an index out of its
    /// bounds, or where there is not enough memory.
    fn iter_linearised_indices(
        &self,
        alloc: Global,
        array_shape: &[u64],
    ) -> Result<Self::LinearIter, IndexerError>
        requires { count_of array_shape.now < 2 ^ 64 }
        ensures can { IfOk result (λ it. Self.LinearIter.can_next it) }
        ensures finite { IfOk result (λ it. IsFinite (Self.LinearIter.remaining it)) }
        ensures inside { IfOk result (λ it. fits self.now array_shape.now ≡ true) }
        ensures lists { IfOk result (λ it. linearised_left it
            ≡ map (linear_index array_shape.now) (places self.now)) }
        ensures refused { IfErr result (refuses self.now array_shape.now) };

    /// The runs of linear indices in an array's shape, from both ends.
    ///
    /// # Errors
    /// [`IndexerError`] of another dimensionality than the shape's, or else of an index out of its
    /// bounds, or where there is not enough memory.
    fn iter_contiguous_linearised_indices(
        &self,
        alloc: Global,
        array_shape: &[u64],
    ) -> Result<Self::RunsIter, IndexerError>
        requires { count_of array_shape.now < 2 ^ 64 }
        ensures can { IfOk result (λ it. Self.RunsIter.can_next it) }
        ensures finite { IfOk result (λ it. IsFinite (Self.RunsIter.remaining it)) }
        ensures inside { IfOk result (λ it. fits self.now array_shape.now ≡ true) }
        ensures lists { IfOk result (λ it. contiguous_left it ≡ pieces self.now array_shape.now) }
        ensures refused { IfErr result (refuses self.now array_shape.now) };

    /// The runs as ranges of bytes, in an array whose elements have `element_size` bytes.
    ///
    /// # Errors
    /// [`IndexerError`] of another dimensionality than the shape's, or else of an index out of its
    /// bounds, or where there is not enough memory.
    final fn iter_contiguous_byte_ranges(
        &self,
        alloc: Global,
        array_shape: &[u64],
        element_size: usize,
    ) -> Result<ByteRuns<Self::RunsIter>, IndexerError>
        requires elements { count_of array_shape.now < 2 ^ 64 }
        requires bytes { count_of array_shape.now * element_size < 2 ^ 64 }
        ensures can { IfOk result (λ it. Self.RunsIter.can_next it.runs) }
        ensures finite { IfOk result (λ it. IsFinite (Self.RunsIter.remaining it.runs)) }
        ensures inside { IfOk result (λ it. fits self.now array_shape.now ≡ true) }
        ensures left { IfOk result
            (λ it. contiguous_left it.runs ≡ pieces self.now array_shape.now) }
        ensures size { IfOk result (λ it. it.element_size ≡ element_size) }
        ensures lists { IfOk result
            (λ it. AlwaysYields (byte_steps Self.RunsIter.next_gives) (λ x. x)
            it (map (span_byte_range element_size) (pieces self.now array_shape.now))) }
        ensures refused { IfErr result (refuses self.now array_shape.now) }
    {
        match self.iter_contiguous_linearised_indices(alloc, array_shape) {
            Ok(runs) => Ok(ByteRuns::new(runs, element_size as u64)),
            Err(error) => Err(error),
        }
    }

    /// The indexer as an array subset, where it is told to be one.
    ///
    /// # Errors
    /// [`AllocError`] where memory runs out.
    fn as_array_subset(&self, alloc: Global) -> Result<Option<ArraySubset>, AllocError>
        ensures { IfOk result (λ o. option_map region o ≡ as_region self.now) };

    // each tuple lies inside a shape that the indexer fits
    ghost inside: { (x : Self) (shape : List ℕ) → fits x shape ≡ true
        → AllByRecursion (λ tuple. contains (whole shape) tuple ≡ true) (places x) };

    // a refusal is want of memory, or the indexer does not fit; want of memory may always come
    ghost refusal: { (x : Self) (shape : List ℕ) (e : IndexerError) → refuses x shape e
        → (e ≡ no_memory) ⊎ (fits x shape ≡ false) };

    ghost memory: { (x : Self) (shape : List ℕ) → refuses x shape no_memory };

    // the runs, one after another, are the linear indices, and each lies within the shape
    ghost joins: { (x : Self) (shape : List ℕ) → fits x shape ≡ true
        → joined (pieces x shape) ≡ map (linear_index shape) (places x) };

    ghost within: { (x : Self) (shape : List ℕ) → fits x shape ≡ true
        → AllWithin (count_of shape) (pieces x shape) };

    // its iterators give both ends of what they have left
    ghost indices_ends: { GivesBothEnds Self.IndicesIter.can_next Self.IndicesIter.can_next_back
        Self.IndicesIter.remaining Self.IndicesIter.next_gives Self.IndicesIter.next_back_gives
        IsTuple indices_left };

    ghost linearised_ends: { GivesBothEnds Self.LinearIter.can_next Self.LinearIter.can_next_back
        Self.LinearIter.remaining Self.LinearIter.next_gives Self.LinearIter.next_back_gives
        (λ y x. x ≡ y) linearised_left };

    ghost contiguous_ends: { GivesBothEnds Self.RunsIter.can_next Self.RunsIter.can_next_back
        Self.RunsIter.remaining Self.RunsIter.next_gives Self.RunsIter.next_back_gives
        (λ y x. span_of x ≡ y) contiguous_left };

    // what 64 bits count may be listed, and its output shape told
    ghost can_list: { (x : Self) → length (places x) < 2 ^ 64 → listable x };

    ghost can_output: { (x : Self) → length (places x) < 2 ^ 64 → has_output x };

    // the output shape has as many places, and a region has these tuples
    ghost outputs: { (x : Self) → count_of (output x) ≡ length (places x) };

    ghost boxed: { (x : Self) (r : Region) → as_region x ≡ Some r
        → (places x ≡ tuples r) × (rank x ≡ length r) };
}
