//! Lists of ranges as indexers: a range for each dimension.

ghost use Rattle.std.specs.Prelude.{◌≡◌, ◌<◌, ◌^◌, None, Some, length};
ghost use Rattle.zarr_model.specs.Region.{count, ends_within, sizes, tuples};
ghost use Rattle.zarrs_array_subset.specs.Boxes.{region_of_ranges};
ghost use Rattle.zarrs_array_subset.specs.Errors.{RefusesShape};
ghost use Rattle.zarrs_chunk_grid_iterators.specs.Iterators.{linear_left, runs_left, tuples_left};
ghost use Rattle.zarrs_chunk_grid_iterators.specs.Runs.{runs};
ghost use Rattle.zarrs_chunk_grid_iterators.proofs.BoxFacts.{box_inside, box_joins, box_listable, box_outputs, box_refusal, box_within, no_region, same_region};
ghost use Rattle.zarrs_chunk_grid_iterators.proofs.Ends.{box_contiguous_ends, box_indices_ends, box_linearised_ends};

use super::Indexer;
use super::boxes::{list_linear, list_runs, list_tuples};
use super::ranges::{count_of_ranges, is_empty, lengths_of, num_of_ranges};
use std::alloc::{AllocError, Global};
use std::ops::Range;
use zarrs_array_subset::{ArraySubset, IndexerError};
use zarrs_chunk_grid_iterators::{
    ContiguousLinearisedIndicesIntoIterator, IndicesIntoIterator, LinearisedIndicesIntoIterator,
};

/// A slice of ranges, one for each dimension.
#[derive(Clone, Copy)]
pub struct RangeSlice<'a> {
    ranges: &'a [Range<u64>],
}

impl<'a> RangeSlice<'a> {
    /// These ranges.
    pub fn new(ranges: &'a [Range<u64>]) -> Self
        ensures { result.ranges.now ≡ ranges.now }
    {
        RangeSlice { ranges }
    }

    /// The ranges.
    pub fn as_slice(&self) -> &'a [Range<u64>]
        ensures { result.now ≡ self.now.ranges.now }
    {
        self.ranges
    }
}

#[tactic(auto, using(crate::proofs::Boxes::of_boxes))]
impl Indexer for RangeSlice<'_> {
    type IndicesIter = IndicesIntoIterator;

    type LinearIter = LinearisedIndicesIntoIterator;

    type RunsIter = ContiguousLinearisedIndicesIntoIterator;

    ghost places = { λ s. tuples (region_of_ranges s.ranges.now) };

    ghost rank = { λ s. length (region_of_ranges s.ranges.now) };

    ghost output = { λ s. sizes (region_of_ranges s.ranges.now) };

    ghost as_region = { λ s. None };

    ghost fits = { λ s shape. ends_within (region_of_ranges s.ranges.now) shape };

    ghost refuses = { λ s shape e. RefusesShape (region_of_ranges s.ranges.now) shape e };

    ghost pieces = { λ s shape. runs shape (region_of_ranges s.ranges.now) };

    ghost indices_left = { tuples_left };

    ghost linearised_left = { linear_left };

    ghost contiguous_left = { runs_left };

    ghost indices_ends = { box_indices_ends };

    ghost linearised_ends = { box_linearised_ends };

    ghost contiguous_ends = { box_contiguous_ends };

    ghost listable = { λ s. count (region_of_ranges s.ranges.now) < 2 ^ 64 };

    ghost has_output = { λ s. Unit {0} };

    ghost inside = { λ s shape h. box_inside (region_of_ranges s.ranges.now) shape h };

    ghost refusal = { λ s shape e h. box_refusal (region_of_ranges s.ranges.now) shape e h };

    ghost memory = { λ s shape. tt };

    ghost joins = { λ s shape h. box_joins (region_of_ranges s.ranges.now) shape h };

    ghost within = { λ s shape h. box_within (region_of_ranges s.ranges.now) shape h };

    ghost can_list = { λ s h. box_listable (region_of_ranges s.ranges.now) h };

    ghost can_output = { λ s h. tt };

    ghost outputs = { λ s. box_outputs (region_of_ranges s.ranges.now) };

    ghost boxed = { λ s r h. no_region
        ((tuples (region_of_ranges s.ranges.now) ≡ tuples r)
        × (length (region_of_ranges s.ranges.now) ≡ length r)) r h };

    #[tactic(auto, using(crate::proofs::Ranges::of_rank))]
    fn dimensionality(&self) -> usize {
        self.ranges.len()
    }

    fn len(&self) -> u64 {
        num_of_ranges(self.ranges)
    }

    fn checked_len(&self) -> Option<u64> {
        count_of_ranges(self.ranges)
    }

    fn is_empty(&self) -> bool {
        is_empty(self.ranges)
    }

    fn output_shape(&self, alloc: Global) -> Result<Vec<u64>, AllocError> {
        lengths_of(alloc, self.ranges)
    }

    fn iter_indices(&self, alloc: Global) -> Result<IndicesIntoIterator, AllocError> {
        let subset = ArraySubset::new_with_ranges(alloc, self.ranges)?;
        Ok(list_tuples(subset))
    }

    fn iter_linearised_indices(
        &self,
        alloc: Global,
        array_shape: &[u64],
    ) -> Result<LinearisedIndicesIntoIterator, IndexerError> {
        let subset = ArraySubset::new_with_ranges(alloc, self.ranges)?;
        match list_linear(alloc, subset, array_shape) {
            Ok(indices) => Ok(indices),
            Err(error) => Err(error),
        }
    }

    fn iter_contiguous_linearised_indices(
        &self,
        alloc: Global,
        array_shape: &[u64],
    ) -> Result<ContiguousLinearisedIndicesIntoIterator, IndexerError> {
        let subset = ArraySubset::new_with_ranges(alloc, self.ranges)?;
        match list_runs(alloc, subset, array_shape) {
            Ok(runs) => Ok(runs),
            Err(error) => Err(error),
        }
    }

    fn as_array_subset(&self, _alloc: Global) -> Result<Option<ArraySubset>, AllocError> {
        Ok(None)
    }
}

#[tactic(auto, using(crate::proofs::Boxes::of_boxes))]
impl Indexer for Vec<Range<u64>> {
    type IndicesIter = IndicesIntoIterator;

    type LinearIter = LinearisedIndicesIntoIterator;

    type RunsIter = ContiguousLinearisedIndicesIntoIterator;

    ghost places = { λ s. tuples (region_of_ranges s.items) };

    ghost rank = { λ s. length (region_of_ranges s.items) };

    ghost output = { λ s. sizes (region_of_ranges s.items) };

    ghost as_region = { λ s. None };

    ghost fits = { λ s shape. ends_within (region_of_ranges s.items) shape };

    ghost refuses = { λ s shape e. RefusesShape (region_of_ranges s.items) shape e };

    ghost pieces = { λ s shape. runs shape (region_of_ranges s.items) };

    ghost indices_left = { tuples_left };

    ghost linearised_left = { linear_left };

    ghost contiguous_left = { runs_left };

    ghost indices_ends = { box_indices_ends };

    ghost linearised_ends = { box_linearised_ends };

    ghost contiguous_ends = { box_contiguous_ends };

    ghost listable = { λ s. count (region_of_ranges s.items) < 2 ^ 64 };

    ghost has_output = { λ s. Unit {0} };

    ghost inside = { λ s shape h. box_inside (region_of_ranges s.items) shape h };

    ghost refusal = { λ s shape e h. box_refusal (region_of_ranges s.items) shape e h };

    ghost memory = { λ s shape. tt };

    ghost joins = { λ s shape h. box_joins (region_of_ranges s.items) shape h };

    ghost within = { λ s shape h. box_within (region_of_ranges s.items) shape h };

    ghost can_list = { λ s h. box_listable (region_of_ranges s.items) h };

    ghost can_output = { λ s h. tt };

    ghost outputs = { λ s. box_outputs (region_of_ranges s.items) };

    ghost boxed = { λ s r h. no_region
        ((tuples (region_of_ranges s.items) ≡ tuples r)
        × (length (region_of_ranges s.items) ≡ length r)) r h };

    #[tactic(auto, using(crate::proofs::Ranges::of_rank))]
    fn dimensionality(&self) -> usize {
        self.as_slice().len()
    }

    fn len(&self) -> u64 {
        num_of_ranges(self.as_slice())
    }

    fn checked_len(&self) -> Option<u64> {
        count_of_ranges(self.as_slice())
    }

    fn is_empty(&self) -> bool {
        is_empty(self.as_slice())
    }

    fn output_shape(&self, alloc: Global) -> Result<Vec<u64>, AllocError> {
        lengths_of(alloc, self.as_slice())
    }

    fn iter_indices(&self, alloc: Global) -> Result<IndicesIntoIterator, AllocError> {
        let subset = ArraySubset::new_with_ranges(alloc, self.as_slice())?;
        Ok(list_tuples(subset))
    }

    fn iter_linearised_indices(
        &self,
        alloc: Global,
        array_shape: &[u64],
    ) -> Result<LinearisedIndicesIntoIterator, IndexerError> {
        let subset = ArraySubset::new_with_ranges(alloc, self.as_slice())?;
        match list_linear(alloc, subset, array_shape) {
            Ok(indices) => Ok(indices),
            Err(error) => Err(error),
        }
    }

    fn iter_contiguous_linearised_indices(
        &self,
        alloc: Global,
        array_shape: &[u64],
    ) -> Result<ContiguousLinearisedIndicesIntoIterator, IndexerError> {
        let subset = ArraySubset::new_with_ranges(alloc, self.as_slice())?;
        match list_runs(alloc, subset, array_shape) {
            Ok(runs) => Ok(runs),
            Err(error) => Err(error),
        }
    }

    fn as_array_subset(&self, _alloc: Global) -> Result<Option<ArraySubset>, AllocError> {
        Ok(None)
    }
}

#[tactic(auto, using(crate::proofs::Boxes::of_boxes))]
impl<const N: usize> Indexer for [Range<u64>; N] {
    type IndicesIter = IndicesIntoIterator;

    type LinearIter = LinearisedIndicesIntoIterator;

    type RunsIter = ContiguousLinearisedIndicesIntoIterator;

    ghost places = { λ s. tuples (region_of_ranges s) };

    ghost rank = { λ s. length (region_of_ranges s) };

    ghost output = { λ s. sizes (region_of_ranges s) };

    ghost as_region = { λ s. Some (region_of_ranges s) };

    ghost fits = { λ s shape. ends_within (region_of_ranges s) shape };

    ghost refuses = { λ s shape e. RefusesShape (region_of_ranges s) shape e };

    ghost pieces = { λ s shape. runs shape (region_of_ranges s) };

    ghost indices_left = { tuples_left };

    ghost linearised_left = { linear_left };

    ghost contiguous_left = { runs_left };

    ghost indices_ends = { box_indices_ends };

    ghost linearised_ends = { box_linearised_ends };

    ghost contiguous_ends = { box_contiguous_ends };

    ghost listable = { λ s. count (region_of_ranges s) < 2 ^ 64 };

    ghost has_output = { λ s. Unit {0} };

    ghost inside = { λ s shape h. box_inside (region_of_ranges s) shape h };

    ghost refusal = { λ s shape e h. box_refusal (region_of_ranges s) shape e h };

    ghost memory = { λ s shape. tt };

    ghost joins = { λ s shape h. box_joins (region_of_ranges s) shape h };

    ghost within = { λ s shape h. box_within (region_of_ranges s) shape h };

    ghost can_list = { λ s h. box_listable (region_of_ranges s) h };

    ghost can_output = { λ s h. tt };

    ghost outputs = { λ s. box_outputs (region_of_ranges s) };

    ghost boxed = { λ s r h. same_region (region_of_ranges s) r h };

    #[tactic(auto, using(crate::proofs::Ranges::of_rank))]
    fn dimensionality(&self) -> usize {
        self[..].len()
    }

    fn len(&self) -> u64 {
        num_of_ranges(&self[..])
    }

    fn checked_len(&self) -> Option<u64> {
        count_of_ranges(&self[..])
    }

    fn is_empty(&self) -> bool {
        is_empty(&self[..])
    }

    fn output_shape(&self, alloc: Global) -> Result<Vec<u64>, AllocError> {
        lengths_of(alloc, &self[..])
    }

    fn iter_indices(&self, alloc: Global) -> Result<IndicesIntoIterator, AllocError> {
        let subset = ArraySubset::new_with_ranges(alloc, &self[..])?;
        Ok(list_tuples(subset))
    }

    fn iter_linearised_indices(
        &self,
        alloc: Global,
        array_shape: &[u64],
    ) -> Result<LinearisedIndicesIntoIterator, IndexerError> {
        let subset = ArraySubset::new_with_ranges(alloc, &self[..])?;
        match list_linear(alloc, subset, array_shape) {
            Ok(indices) => Ok(indices),
            Err(error) => Err(error),
        }
    }

    fn iter_contiguous_linearised_indices(
        &self,
        alloc: Global,
        array_shape: &[u64],
    ) -> Result<ContiguousLinearisedIndicesIntoIterator, IndexerError> {
        let subset = ArraySubset::new_with_ranges(alloc, &self[..])?;
        match list_runs(alloc, subset, array_shape) {
            Ok(runs) => Ok(runs),
            Err(error) => Err(error),
        }
    }

    fn as_array_subset(&self, alloc: Global) -> Result<Option<ArraySubset>, AllocError> {
        let subset = ArraySubset::new_with_ranges(alloc, &self[..])?;
        Ok(Some(subset))
    }
}
