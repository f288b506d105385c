//! Runs of neighbours of an array subset inside an array's shape, by the indices at which they
//! begin.

ghost use Rattle.std.specs.Prelude.{⊤, ◌≡◌, ◌<◌, ◌^◌, true, false, ℕ, List, length, Some, IfOk, IfErr, IfSome, nat_eq};
ghost use Rattle.std.specs.Iterator.{item_count, MakesProgress, UpTo};
ghost use Rattle.std.specs.Iterator.SizeHint.{IsWithinCount};
ghost use Rattle.zarr_model.specs.Region.{count_of, ends_within};
ghost use Rattle.zarrs_array_subset.specs.ArraySubset.{region};
ghost use Rattle.zarrs_array_subset.specs.Errors.{RefusesShape};
ghost use Rattle.zarrs_chunk_grid_iterators.specs.Places.{IsRun, IsTuple, YieldsOne, YieldsOneBack};
ghost use Rattle.zarrs_chunk_grid_iterators.specs.Runs.{run_size, tuple_runs};

use crate::indices_iterator::{Indices, IndicesIntoIterator, IndicesIterator};
use crate::runs::run_starts;
use std::alloc::{AllocError, Global};
use zarrs_array_subset::{ArrayIndicesTinyVec, ArraySubset, IndexerError};

/// The runs of an array subset as
/// [`ContiguousLinearisedIndices`](crate::ContiguousLinearisedIndices)
/// has them, each as the indices of its first element and its length.
///
/// In a 4x3 array the lower right 2x2 subset has ((2, 1), 2), ((3, 1), 2), and the lower two rows
/// are ((2, 0), 6).
#[derive(Drop)]
pub struct ContiguousIndices {
    starts: Indices,
    contiguous_elements: u64,
}

impl ContiguousIndices {
    ghost use Rattle.zarrs_chunk_grid_iterators.specs.Iterators.{tuple_runs_of, tuple_runs_lent};

    /// The runs of a subset that lies in the shape.
    ///
    /// # Errors
    /// [`IndexerError`] of another dimensionality than the shape's, or else of an end past it, or where
    /// there is not enough memory.
    #[tactic(auto, using(crate::proofs::RunShapes::of_new))]
    pub fn new(
        alloc: Global,
        subset: ArraySubset,
        array_shape: &[u64],
    ) -> Result<Self, IndexerError>
        requires { count_of array_shape.now < 2 ^ 64 }
        ensures inside { IfOk result (λ it. ends_within (region subset) array_shape.now ≡ true) }
        ensures lists { IfOk result
            (λ it. tuple_runs_of it ≡ tuple_runs array_shape.now (region subset)) }
        ensures each { IfOk result
            (λ it. it.contiguous_elements ≡ run_size array_shape.now (region subset)) }
        ensures refused { IfErr result (RefusesShape (region subset) array_shape.now) }
    {
        let (got, expected) = (subset.dimensionality(), array_shape.len());
        if got != expected {
            return Err(IndexerError::new_incompatible_dimensionality(got, expected));
        }
        if !subset.inbounds_shape(array_shape) {
            return Err(out_of_bounds(alloc, &subset, array_shape));
        }
        if subset.is_empty() {
            let starts = Indices::new(subset);
            return Ok(ContiguousIndices {
                starts,
                contiguous_elements: 0,
            });
        }
        let (starts, contiguous_elements) = run_starts(alloc, &subset, array_shape)?;
        let starts = Indices::new(starts);
        Ok(ContiguousIndices {
            starts,
            contiguous_elements,
        })
    }

    /// The number of runs.
    #[tactic(auto, using(crate::proofs::Lefts::of_lengths))]
    pub fn len(&self) -> usize
        ensures { result ≡ length (tuple_runs_of self.now) }
    {
        self.starts.len()
    }

    /// Whether there is no run.
    pub fn is_empty(&self) -> bool
        ensures { result ≡ nat_eq (length (tuple_runs_of self.now)) 0 }
    {
        self.len() == 0
    }

    /// The length of every run, and 0 where there is none.
    pub fn contiguous_elements(&self) -> u64
        ensures { result ≡ self.now.contiguous_elements }
    {
        self.contiguous_elements
    }

    /// The length of every run, and 0 where there is none.
    pub fn contiguous_elements_usize(&self) -> usize
        ensures { result ≡ self.now.contiguous_elements }
    {
        self.contiguous_elements as usize
    }

    /// The runs, from both ends.
    pub fn iter(&self) -> ContiguousIndicesIterator<'_>
        ensures lists { tuple_runs_lent result ≡ tuple_runs_of self.now }
        ensures each { result.contiguous_elements ≡ self.now.contiguous_elements }
    {
        let (starts, contiguous_elements) = (self.starts.iter(), self.contiguous_elements);
        ContiguousIndicesIterator {
            starts,
            contiguous_elements,
        }
    }
}

// A start that came, with the run's length.
fn with_length(
    start: Result<ArrayIndicesTinyVec, AllocError>,
    contiguous_elements: u64,
) -> Result<(ArrayIndicesTinyVec, u64), AllocError>
    ensures { (tuple : List ℕ) → IsTuple tuple start → IsRun (tuple, contiguous_elements) result }
{
    match start {
        Ok(start) => Ok((start, contiguous_elements)),
        Err(error) => Err(error),
    }
}

// The error that names the subset's end and the shape.
fn out_of_bounds(alloc: Global, subset: &ArraySubset, array_shape: &[u64]) -> IndexerError
    requires rank { length (region subset.now) ≡ length array_shape.now }
    requires outside { ends_within (region subset.now) array_shape.now ≡ false }
    ensures { RefusesShape (region subset.now) array_shape.now result }
{
    let Ok(end) = subset.end_exc(alloc) else {
        return IndexerError::OutOfMemory;
    };
    let Ok(shape) = array_shape.to_vec(alloc) else {
        return IndexerError::OutOfMemory;
    };
    IndexerError::OutOfBounds(end, shape)
}

impl IntoIterator for ContiguousIndices {
    ghost use Rattle.zarrs_chunk_grid_iterators.specs.Iterators.{tuple_runs_of, tuple_runs_left};

    type Item = Result<(ArrayIndicesTinyVec, u64), AllocError>;

    type IntoIter = ContiguousIndicesIntoIterator;

    ghost into_iter_gives = { λ s it. (tuple_runs_left it ≡ tuple_runs_of s)
        × (it.contiguous_elements ≡ s.contiguous_elements) };

    fn into_iter(self) -> ContiguousIndicesIntoIterator {
        let (starts, contiguous_elements) = (self.starts.into_iter(), self.contiguous_elements);
        ContiguousIndicesIntoIterator {
            starts,
            contiguous_elements,
        }
    }
}

impl<'a> IntoIterator for &'a ContiguousIndices {
    ghost use Rattle.zarrs_chunk_grid_iterators.specs.Iterators.{tuple_runs_of, tuple_runs_lent};

    type Item = Result<(ArrayIndicesTinyVec, u64), AllocError>;

    type IntoIter = ContiguousIndicesIterator<'a>;

    ghost into_iter_gives = { λ s it. (tuple_runs_lent it ≡ tuple_runs_of s.now)
        × (it.contiguous_elements ≡ s.now.contiguous_elements) };

    fn into_iter(self) -> ContiguousIndicesIterator<'a> {
        self.iter()
    }
}

/// The runs of a subset that are left.
#[derive(Drop)]
pub struct ContiguousIndicesIterator<'a> {
    starts: IndicesIterator<'a>,
    contiguous_elements: u64,
}

impl ContiguousIndicesIterator<'_> {
    /// The length of every run, and 0 where there is none.
    pub fn contiguous_elements(&self) -> u64
        ensures { result ≡ self.now.contiguous_elements }
    {
        self.contiguous_elements
    }

    /// The length of every run, and 0 where there is none.
    pub fn contiguous_elements_usize(&self) -> usize
        ensures { result ≡ self.now.contiguous_elements }
    {
        self.contiguous_elements as usize
    }
}

impl Iterator for ContiguousIndicesIterator<'_> {
    ghost use Rattle.zarrs_chunk_grid_iterators.specs.Iterators.{tuple_runs_lent, first_run_lent};

    type Item = Result<(ArrayIndicesTinyVec, u64), AllocError>;

    ghost next_gives = { YieldsOne IsRun tuple_runs_lent first_run_lent };

    ghost remaining = { item_count tuple_runs_lent };

    fn next(&mut self) -> Option<Result<(ArrayIndicesTinyVec, u64), AllocError>>
        ensures steps { YieldsOne IsRun tuple_runs_lent first_run_lent self.old result self.new }
        ensures goes { MakesProgress (λ _. ⊤)
            (item_count tuple_runs_lent) self.old result self.new }
        ensures each { self.new.contiguous_elements ≡ self.old.contiguous_elements }
    {
        let start = self.starts.next()?;
        Some(with_length(start, self.contiguous_elements))
    }

    #[tactic(auto, using(crate::proofs::Lefts::of_lengths))]
    fn size_hint(&self) -> (usize, Option<usize>)
        ensures lower { IsWithinCount result.0 (item_count tuple_runs_lent self.now) }
        ensures upper { IfSome result.1 (UpTo (item_count tuple_runs_lent self.now)) }
        ensures exact { result.0 ≡ length (tuple_runs_lent self.now) }
        ensures told { result.1 ≡ Some (length (tuple_runs_lent self.now)) }
    {
        self.starts.size_hint()
    }
}

impl DoubleEndedIterator for ContiguousIndicesIterator<'_> {
    ghost use Rattle.zarrs_chunk_grid_iterators.specs.Iterators.{tuple_runs_lent, last_run_lent};

    ghost next_back_gives = { YieldsOneBack IsRun tuple_runs_lent last_run_lent };

    fn next_back(&mut self) -> Option<Result<(ArrayIndicesTinyVec, u64), AllocError>>
        ensures steps { YieldsOneBack IsRun tuple_runs_lent last_run_lent self.old result self.new }
        ensures goes { MakesProgress (λ _. ⊤)
            (item_count tuple_runs_lent) self.old result self.new }
        ensures each { self.new.contiguous_elements ≡ self.old.contiguous_elements }
    {
        let start = self.starts.next_back()?;
        Some(with_length(start, self.contiguous_elements))
    }
}

#[tactic(auto, using(crate::proofs::Lefts::of_lengths))]
impl ExactSizeIterator for ContiguousIndicesIterator<'_> {
    fn len(&self) -> usize {
        self.starts.len()
    }
}

/// The runs of a subset that are left, with the subset.
#[derive(Drop)]
pub struct ContiguousIndicesIntoIterator {
    starts: IndicesIntoIterator,
    contiguous_elements: u64,
}

impl ContiguousIndicesIntoIterator {
    /// The length of every run, and 0 where there is none.
    pub fn contiguous_elements(&self) -> u64
        ensures { result ≡ self.now.contiguous_elements }
    {
        self.contiguous_elements
    }

    /// The length of every run, and 0 where there is none.
    pub fn contiguous_elements_usize(&self) -> usize
        ensures { result ≡ self.now.contiguous_elements }
    {
        self.contiguous_elements as usize
    }
}

impl Iterator for ContiguousIndicesIntoIterator {
    ghost use Rattle.zarrs_chunk_grid_iterators.specs.Iterators.{tuple_runs_left, first_run_left};

    type Item = Result<(ArrayIndicesTinyVec, u64), AllocError>;

    ghost next_gives = { YieldsOne IsRun tuple_runs_left first_run_left };

    ghost remaining = { item_count tuple_runs_left };

    fn next(&mut self) -> Option<Result<(ArrayIndicesTinyVec, u64), AllocError>>
        ensures steps { YieldsOne IsRun tuple_runs_left first_run_left self.old result self.new }
        ensures goes { MakesProgress (λ _. ⊤)
            (item_count tuple_runs_left) self.old result self.new }
        ensures each { self.new.contiguous_elements ≡ self.old.contiguous_elements }
    {
        let start = self.starts.next()?;
        Some(with_length(start, self.contiguous_elements))
    }

    #[tactic(auto, using(crate::proofs::Lefts::of_lengths))]
    fn size_hint(&self) -> (usize, Option<usize>)
        ensures lower { IsWithinCount result.0 (item_count tuple_runs_left self.now) }
        ensures upper { IfSome result.1 (UpTo (item_count tuple_runs_left self.now)) }
        ensures exact { result.0 ≡ length (tuple_runs_left self.now) }
        ensures told { result.1 ≡ Some (length (tuple_runs_left self.now)) }
    {
        self.starts.size_hint()
    }
}

impl DoubleEndedIterator for ContiguousIndicesIntoIterator {
    ghost use Rattle.zarrs_chunk_grid_iterators.specs.Iterators.{tuple_runs_left, last_run_left};

    ghost next_back_gives = { YieldsOneBack IsRun tuple_runs_left last_run_left };

    fn next_back(&mut self) -> Option<Result<(ArrayIndicesTinyVec, u64), AllocError>>
        ensures steps { YieldsOneBack IsRun tuple_runs_left last_run_left self.old result self.new }
        ensures goes { MakesProgress (λ _. ⊤)
            (item_count tuple_runs_left) self.old result self.new }
        ensures each { self.new.contiguous_elements ≡ self.old.contiguous_elements }
    {
        let start = self.starts.next_back()?;
        Some(with_length(start, self.contiguous_elements))
    }
}

#[tactic(auto, using(crate::proofs::Lefts::of_lengths))]
impl ExactSizeIterator for ContiguousIndicesIntoIterator {
    fn len(&self) -> usize {
        self.starts.len()
    }
}
