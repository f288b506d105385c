//! Lists of indices as indexers.

ghost use Rattle.std.specs.Prelude.{◌≡◌, ◌∷◌, [], None, length, map};
ghost use Rattle.std.specs.Vec.Iter.{into_iter_items};
ghost use Rattle.zarr_model.specs.Region.{tuples};
ghost use Rattle.zarrs_chunk_grid_iterators.specs.ListIterators.{gathered_left, singles_left};
ghost use Rattle.zarrs_chunk_grid_iterators.specs.Lists.{RefusesList, first_rank, is_list_inside, single_runs};
ghost use Rattle.zarrs_chunk_grid_iterators.proofs.Ends.{gathered_numbers_ends, gathered_tuples_ends, singles_ends};
ghost use Rattle.zarrs_chunk_grid_iterators.proofs.BoxFacts.{no_region};
ghost use Rattle.zarrs_chunk_grid_iterators.proofs.ListFacts.{list_inside, list_joins, list_no_memory, list_outputs, list_refusal, list_within};

use super::Indexer;
use super::lists::{iter_linear, iter_runs, iter_tuples, rank_of};
use std::alloc::{AllocError, Global};
use std::vec::IntoIter;
use zarrs_array_subset::{ArrayIndices, ArraySubset, IndexerError};
use zarrs_chunk_grid_iterators::{GatheredTuples, SingleRuns};

/// A slice of indices.
#[derive(Clone, Copy)]
pub struct IndexSlice<'a> {
    list: &'a [ArrayIndices],
}

impl<'a> IndexSlice<'a> {
    /// These indices.
    pub fn new(list: &'a [ArrayIndices]) -> Self
        ensures { result.list.now ≡ list.now }
    {
        IndexSlice { list }
    }

    /// The indices.
    pub fn as_slice(&self) -> &'a [ArrayIndices]
        ensures { result.now ≡ self.now.list.now }
    {
        self.list
    }
}

#[tactic(auto, using(crate::proofs::Boxes::of_lists))]
impl Indexer for IndexSlice<'_> {
    type IndicesIter = GatheredTuples;

    type LinearIter = IntoIter<u64, Global>;

    type RunsIter = SingleRuns;

    ghost places = { λ s. map (λ t. t.items) s.list.now };

    ghost rank = { λ s. first_rank (map (λ t. t.items) s.list.now) };

    ghost output = { λ s. length (map (λ t. t.items) s.list.now) ∷ [] };

    ghost as_region = { λ s. None };

    ghost fits = { λ s shape. is_list_inside (map (λ t. t.items) s.list.now) shape };

    ghost refuses = { λ s shape e. RefusesList (map (λ t. t.items) s.list.now) shape e };

    ghost pieces = { λ s shape. single_runs (map (λ t. t.items) s.list.now) shape };

    ghost indices_left = { gathered_left };

    ghost linearised_left = { λ it. into_iter_items it };

    ghost contiguous_left = { singles_left };

    ghost indices_ends = { gathered_tuples_ends };

    ghost linearised_ends = { gathered_numbers_ends };

    ghost contiguous_ends = { singles_ends };

    ghost listable = { λ s. Unit {0} };

    ghost has_output = { λ s. Unit {0} };

    ghost inside = { λ s shape h. list_inside (map (λ t. t.items) s.list.now) shape h };

    ghost refusal = { λ s shape e h. list_refusal (map (λ t. t.items) s.list.now) shape e h };

    ghost memory = { λ s shape. list_no_memory (map (λ t. t.items) s.list.now) shape };

    ghost joins = { λ s shape h. list_joins (map (λ t. t.items) s.list.now) shape };

    ghost within = { λ s shape h. list_within (map (λ t. t.items) s.list.now) shape h };

    ghost can_list = { λ s h. tt };

    ghost can_output = { λ s h. tt };

    ghost outputs = { λ s. list_outputs (length (map (λ t. t.items) s.list.now)) };

    ghost boxed = { λ s r h. no_region
        ((map (λ t. t.items) s.list.now ≡ tuples r)
        × (first_rank (map (λ t. t.items) s.list.now) ≡ length r)) r h };

    fn dimensionality(&self) -> usize {
        rank_of(self.list)
    }

    fn len(&self) -> u64 {
        self.list.len() as u64
    }

    fn checked_len(&self) -> Option<u64> {
        Some(self.list.len() as u64)
    }

    fn is_empty(&self) -> bool {
        self.list.is_empty()
    }

    fn output_shape(&self, alloc: Global) -> Result<Vec<u64>, AllocError> {
        let shape = vec![in alloc; self.list.len() as u64]?;
        Ok(shape)
    }

    fn iter_indices(&self, alloc: Global) -> Result<GatheredTuples, AllocError> {
        let tuples = iter_tuples(alloc, self.list)?;
        Ok(tuples)
    }

    fn iter_linearised_indices(
        &self,
        alloc: Global,
        array_shape: &[u64],
    ) -> Result<IntoIter<u64, Global>, IndexerError> {
        match iter_linear(alloc, self.list, array_shape) {
            Ok(indices) => Ok(indices),
            Err(error) => Err(error),
        }
    }

    fn iter_contiguous_linearised_indices(
        &self,
        alloc: Global,
        array_shape: &[u64],
    ) -> Result<SingleRuns, IndexerError> {
        match iter_runs(alloc, self.list, array_shape) {
            Ok(runs) => Ok(runs),
            Err(error) => Err(error),
        }
    }

    fn as_array_subset(&self, _alloc: Global) -> Result<Option<ArraySubset>, AllocError> {
        Ok(None)
    }
}

#[tactic(auto, using(crate::proofs::Boxes::of_lists))]
impl Indexer for Vec<ArrayIndices> {
    type IndicesIter = GatheredTuples;

    type LinearIter = IntoIter<u64, Global>;

    type RunsIter = SingleRuns;

    ghost places = { λ s. map (λ t. t.items) s.items };

    ghost rank = { λ s. first_rank (map (λ t. t.items) s.items) };

    ghost output = { λ s. length (map (λ t. t.items) s.items) ∷ [] };

    ghost as_region = { λ s. None };

    ghost fits = { λ s shape. is_list_inside (map (λ t. t.items) s.items) shape };

    ghost refuses = { λ s shape e. RefusesList (map (λ t. t.items) s.items) shape e };

    ghost pieces = { λ s shape. single_runs (map (λ t. t.items) s.items) shape };

    ghost indices_left = { gathered_left };

    ghost linearised_left = { λ it. into_iter_items it };

    ghost contiguous_left = { singles_left };

    ghost indices_ends = { gathered_tuples_ends };

    ghost linearised_ends = { gathered_numbers_ends };

    ghost contiguous_ends = { singles_ends };

    ghost listable = { λ s. Unit {0} };

    ghost has_output = { λ s. Unit {0} };

    ghost inside = { λ s shape h. list_inside (map (λ t. t.items) s.items) shape h };

    ghost refusal = { λ s shape e h. list_refusal (map (λ t. t.items) s.items) shape e h };

    ghost memory = { λ s shape. list_no_memory (map (λ t. t.items) s.items) shape };

    ghost joins = { λ s shape h. list_joins (map (λ t. t.items) s.items) shape };

    ghost within = { λ s shape h. list_within (map (λ t. t.items) s.items) shape h };

    ghost can_list = { λ s h. tt };

    ghost can_output = { λ s h. tt };

    ghost outputs = { λ s. list_outputs (length (map (λ t. t.items) s.items)) };

    ghost boxed = { λ s r h. no_region
        ((map (λ t. t.items) s.items ≡ tuples r)
        × (first_rank (map (λ t. t.items) s.items) ≡ length r)) r h };

    fn dimensionality(&self) -> usize {
        rank_of(self.as_slice())
    }

    fn len(&self) -> u64 {
        self.as_slice().len() as u64
    }

    fn checked_len(&self) -> Option<u64> {
        Some(self.as_slice().len() as u64)
    }

    fn is_empty(&self) -> bool {
        self.as_slice().is_empty()
    }

    fn output_shape(&self, alloc: Global) -> Result<Vec<u64>, AllocError> {
        let shape = vec![in alloc; self.as_slice().len() as u64]?;
        Ok(shape)
    }

    fn iter_indices(&self, alloc: Global) -> Result<GatheredTuples, AllocError> {
        let tuples = iter_tuples(alloc, self.as_slice())?;
        Ok(tuples)
    }

    fn iter_linearised_indices(
        &self,
        alloc: Global,
        array_shape: &[u64],
    ) -> Result<IntoIter<u64, Global>, IndexerError> {
        match iter_linear(alloc, self.as_slice(), array_shape) {
            Ok(indices) => Ok(indices),
            Err(error) => Err(error),
        }
    }

    fn iter_contiguous_linearised_indices(
        &self,
        alloc: Global,
        array_shape: &[u64],
    ) -> Result<SingleRuns, IndexerError> {
        match iter_runs(alloc, self.as_slice(), array_shape) {
            Ok(runs) => Ok(runs),
            Err(error) => Err(error),
        }
    }

    fn as_array_subset(&self, _alloc: Global) -> Result<Option<ArraySubset>, AllocError> {
        Ok(None)
    }
}
