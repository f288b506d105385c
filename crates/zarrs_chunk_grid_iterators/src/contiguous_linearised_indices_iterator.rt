//! Runs of neighbouring linear indices of an array subset inside an array's shape.

ghost use Rattle.std.specs.Prelude.{⊤, ◌≡◌, ◌<◌, ◌^◌, true, length, Some, IfOk, IfErr, IfSome, nat_eq};
ghost use Rattle.std.specs.Iterator.{YieldsFirstBy, YieldsLastBy, item_count, MakesProgress, UpTo};
ghost use Rattle.std.specs.Iterator.SizeHint.{IsWithinCount};
ghost use Rattle.zarr_model.specs.Region.{count_of, ends_within};
ghost use Rattle.zarrs_array_subset.specs.ArraySubset.{region};
ghost use Rattle.zarrs_array_subset.specs.Errors.{RefusesShape};
ghost use Rattle.zarrs_chunk_grid_iterators.specs.Runs.{run_size, runs, span_of};

use crate::linearised_indices_iterator::{
    LinearisedIndices, LinearisedIndicesIntoIterator, LinearisedIndicesIterator,
};
use crate::runs::run_starts;
use std::alloc::Global;
use zarrs_array_subset::{ArrayShape, ArraySubset, IndexerError};

/// The fewest runs of neighbours that are the linear indices of an array subset, each as its first
/// linear index and its length.
///
/// In a 4x3 array with the linear indices
/// ```text
/// 0   1   2
/// 3   4   5
/// 6   7   8
/// 9  10  11
/// ```
/// the lower right 2x2 subset has (7, 2), (10, 2), and the lower two rows are (6, 6).
#[derive(Drop)]
pub struct ContiguousLinearisedIndices {
    starts: LinearisedIndices,
    contiguous_elements: u64,
}

impl ContiguousLinearisedIndices {
    ghost use Rattle.zarrs_chunk_grid_iterators.specs.Iterators.{runs_of, runs_lent};

    /// The runs of a subset that lies in the shape.
    ///
    /// # Errors
    /// [`IndexerError`] of another dimensionality than the shape's, or else of an end past it, or where
    /// there is not enough memory.
    #[tactic(auto, using(crate::proofs::RunShapes::of_new))]
    pub fn new(
        alloc: Global,
        subset: ArraySubset,
        array_shape: ArrayShape,
    ) -> Result<Self, IndexerError>
        requires { count_of array_shape.items < 2 ^ 64 }
        ensures inside { IfOk result (λ it. ends_within (region subset) array_shape.items ≡ true) }
        ensures lists { IfOk result (λ it. runs_of it ≡ runs array_shape.items (region subset)) }
        ensures each { IfOk result
            (λ it. it.contiguous_elements ≡ run_size array_shape.items (region subset)) }
        ensures refused { IfErr result (RefusesShape (region subset) array_shape.items) }
    {
        let (got, expected) = (subset.dimensionality(), array_shape.len());
        if got != expected {
            return Err(IndexerError::new_incompatible_dimensionality(got, expected));
        }
        if !subset.inbounds_shape(&array_shape) {
            return Err(IndexerError::OutOfBounds(subset.end_exc(alloc)?, array_shape));
        }
        if subset.is_empty() {
            let starts = LinearisedIndices::new_unchecked(subset, array_shape);
            return Ok(ContiguousLinearisedIndices {
                starts,
                contiguous_elements: 0,
            });
        }
        let (starts, contiguous_elements) = run_starts(alloc, &subset, &array_shape)?;
        let starts = LinearisedIndices::new_unchecked(starts, array_shape);
        Ok(ContiguousLinearisedIndices {
            starts,
            contiguous_elements,
        })
    }

    /// The number of runs.
    #[tactic(auto, using(crate::proofs::Lefts::of_lengths))]
    pub fn len(&self) -> usize
        ensures { result ≡ length (runs_of self.now) }
    {
        self.starts.len()
    }

    /// Whether there is no run.
    pub fn is_empty(&self) -> bool
        ensures { result ≡ nat_eq (length (runs_of self.now)) 0 }
    {
        self.len() == 0
    }

    /// The length of every run, and 0 where there is none.
    pub fn contiguous_elements(&self) -> u64
        ensures { result ≡ self.now.contiguous_elements }
    {
        self.contiguous_elements
    }

    /// The length of every run, and 0 where there is none.
    pub fn contiguous_elements_usize(&self) -> usize
        ensures { result ≡ self.now.contiguous_elements }
    {
        self.contiguous_elements as usize
    }

    /// The runs, from both ends.
    pub fn iter(&self) -> ContiguousLinearisedIndicesIterator<'_>
        ensures lists { runs_lent result ≡ runs_of self.now }
        ensures each { result.contiguous_elements ≡ self.now.contiguous_elements }
    {
        let (starts, contiguous_elements) = (self.starts.iter(), self.contiguous_elements);
        ContiguousLinearisedIndicesIterator {
            starts,
            contiguous_elements,
        }
    }
}

impl IntoIterator for ContiguousLinearisedIndices {
    ghost use Rattle.zarrs_chunk_grid_iterators.specs.Iterators.{runs_of, runs_left};

    type Item = (u64, u64);

    type IntoIter = ContiguousLinearisedIndicesIntoIterator;

    ghost into_iter_gives = { λ s it. (runs_left it ≡ runs_of s)
        × (it.contiguous_elements ≡ s.contiguous_elements) };

    fn into_iter(self) -> ContiguousLinearisedIndicesIntoIterator {
        let (starts, contiguous_elements) = (self.starts.into_iter(), self.contiguous_elements);
        ContiguousLinearisedIndicesIntoIterator {
            starts,
            contiguous_elements,
        }
    }
}

impl<'a> IntoIterator for &'a ContiguousLinearisedIndices {
    ghost use Rattle.zarrs_chunk_grid_iterators.specs.Iterators.{runs_of, runs_lent};

    type Item = (u64, u64);

    type IntoIter = ContiguousLinearisedIndicesIterator<'a>;

    ghost into_iter_gives = { λ s it. (runs_lent it ≡ runs_of s.now)
        × (it.contiguous_elements ≡ s.now.contiguous_elements) };

    fn into_iter(self) -> ContiguousLinearisedIndicesIterator<'a> {
        self.iter()
    }
}

/// The runs of a subset that are left.
#[derive(Drop)]
pub struct ContiguousLinearisedIndicesIterator<'a> {
    starts: LinearisedIndicesIterator<'a>,
    contiguous_elements: u64,
}

impl ContiguousLinearisedIndicesIterator<'_> {
    /// The length of every run, and 0 where there is none.
    pub fn contiguous_elements(&self) -> u64
        ensures { result ≡ self.now.contiguous_elements }
    {
        self.contiguous_elements
    }

    /// The length of every run, and 0 where there is none.
    pub fn contiguous_elements_usize(&self) -> usize
        ensures { result ≡ self.now.contiguous_elements }
    {
        self.contiguous_elements as usize
    }
}

impl Iterator for ContiguousLinearisedIndicesIterator<'_> {
    ghost use Rattle.zarrs_chunk_grid_iterators.specs.Iterators.{runs_lent};

    type Item = (u64, u64);

    ghost next_gives = { YieldsFirstBy span_of runs_lent };

    ghost remaining = { item_count runs_lent };

    fn next(&mut self) -> Option<(u64, u64)>
        ensures steps { YieldsFirstBy span_of runs_lent self.old result self.new }
        ensures goes { MakesProgress (λ _. ⊤) (item_count runs_lent) self.old result self.new }
        ensures each { self.new.contiguous_elements ≡ self.old.contiguous_elements }
    {
        let start = self.starts.next()?;
        Some((start, self.contiguous_elements))
    }

    #[tactic(auto, using(crate::proofs::Lefts::of_lengths))]
    fn size_hint(&self) -> (usize, Option<usize>)
        ensures lower { IsWithinCount result.0 (item_count runs_lent self.now) }
        ensures upper { IfSome result.1 (UpTo (item_count runs_lent self.now)) }
        ensures exact { result.0 ≡ length (runs_lent self.now) }
        ensures told { result.1 ≡ Some (length (runs_lent self.now)) }
    {
        self.starts.size_hint()
    }
}

impl DoubleEndedIterator for ContiguousLinearisedIndicesIterator<'_> {
    ghost use Rattle.zarrs_chunk_grid_iterators.specs.Iterators.{runs_lent};

    ghost next_back_gives = { YieldsLastBy span_of runs_lent };

    fn next_back(&mut self) -> Option<(u64, u64)>
        ensures steps { YieldsLastBy span_of runs_lent self.old result self.new }
        ensures goes { MakesProgress (λ _. ⊤) (item_count runs_lent) self.old result self.new }
        ensures each { self.new.contiguous_elements ≡ self.old.contiguous_elements }
    {
        let start = self.starts.next_back()?;
        Some((start, self.contiguous_elements))
    }
}

#[tactic(auto, using(crate::proofs::Lefts::of_lengths))]
impl ExactSizeIterator for ContiguousLinearisedIndicesIterator<'_> {
    fn len(&self) -> usize {
        self.starts.len()
    }
}

/// The runs of a subset that are left, with the subset.
#[derive(Drop)]
pub struct ContiguousLinearisedIndicesIntoIterator {
    starts: LinearisedIndicesIntoIterator,
    contiguous_elements: u64,
}

impl ContiguousLinearisedIndicesIntoIterator {
    /// The length of every run, and 0 where there is none.
    pub fn contiguous_elements(&self) -> u64
        ensures { result ≡ self.now.contiguous_elements }
    {
        self.contiguous_elements
    }

    /// The length of every run, and 0 where there is none.
    pub fn contiguous_elements_usize(&self) -> usize
        ensures { result ≡ self.now.contiguous_elements }
    {
        self.contiguous_elements as usize
    }
}

impl Iterator for ContiguousLinearisedIndicesIntoIterator {
    ghost use Rattle.zarrs_chunk_grid_iterators.specs.Iterators.{runs_left};

    type Item = (u64, u64);

    ghost next_gives = { YieldsFirstBy span_of runs_left };

    ghost remaining = { item_count runs_left };

    fn next(&mut self) -> Option<(u64, u64)>
        ensures steps { YieldsFirstBy span_of runs_left self.old result self.new }
        ensures goes { MakesProgress (λ _. ⊤) (item_count runs_left) self.old result self.new }
        ensures each { self.new.contiguous_elements ≡ self.old.contiguous_elements }
    {
        let start = self.starts.next()?;
        Some((start, self.contiguous_elements))
    }

    #[tactic(auto, using(crate::proofs::Lefts::of_lengths))]
    fn size_hint(&self) -> (usize, Option<usize>)
        ensures lower { IsWithinCount result.0 (item_count runs_left self.now) }
        ensures upper { IfSome result.1 (UpTo (item_count runs_left self.now)) }
        ensures exact { result.0 ≡ length (runs_left self.now) }
        ensures told { result.1 ≡ Some (length (runs_left self.now)) }
    {
        self.starts.size_hint()
    }
}

impl DoubleEndedIterator for ContiguousLinearisedIndicesIntoIterator {
    ghost use Rattle.zarrs_chunk_grid_iterators.specs.Iterators.{runs_left};

    ghost next_back_gives = { YieldsLastBy span_of runs_left };

    fn next_back(&mut self) -> Option<(u64, u64)>
        ensures steps { YieldsLastBy span_of runs_left self.old result self.new }
        ensures goes { MakesProgress (λ _. ⊤) (item_count runs_left) self.old result self.new }
        ensures each { self.new.contiguous_elements ≡ self.old.contiguous_elements }
    {
        let start = self.starts.next_back()?;
        Some((start, self.contiguous_elements))
    }
}

#[tactic(auto, using(crate::proofs::Lefts::of_lengths))]
impl ExactSizeIterator for ContiguousLinearisedIndicesIntoIterator {
    fn len(&self) -> usize {
        self.starts.len()
    }
}
