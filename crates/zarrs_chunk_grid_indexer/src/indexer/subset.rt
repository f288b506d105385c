//! Array subsets as indexers.

ghost use Rattle.std.specs.Prelude.{◌<◌, ◌^◌, Some, length};
ghost use Rattle.zarr_model.specs.Region.{count, ends_within, sizes, tuples};
ghost use Rattle.zarrs_array_subset.specs.ArraySubset.{region};
ghost use Rattle.zarrs_array_subset.specs.Errors.{RefusesShape};
ghost use Rattle.zarrs_chunk_grid_iterators.specs.Iterators.{linear_left, runs_left, tuples_left};
ghost use Rattle.zarrs_chunk_grid_iterators.specs.Runs.{runs};
ghost use Rattle.zarrs_chunk_grid_iterators.proofs.BoxFacts.{box_inside, box_joins, box_listable, box_outputs, box_refusal, box_within, same_region};
ghost use Rattle.zarrs_chunk_grid_iterators.proofs.Ends.{box_contiguous_ends, box_indices_ends, box_linearised_ends};

use super::Indexer;
use super::boxes::{list_linear, list_runs, list_tuples};
use std::alloc::{AllocError, Global};
use zarrs_array_subset::{ArraySubset, IndexerError};
use zarrs_chunk_grid_iterators::{
    ContiguousLinearisedIndicesIntoIterator, IndicesIntoIterator, LinearisedIndicesIntoIterator,
};

#[tactic(auto, using(crate::proofs::Boxes::of_boxes))]
impl Indexer for ArraySubset {
    type IndicesIter = IndicesIntoIterator;

    type LinearIter = LinearisedIndicesIntoIterator;

    type RunsIter = ContiguousLinearisedIndicesIntoIterator;

    ghost places = { λ s. tuples (region s) };

    ghost rank = { λ s. length (region s) };

    ghost output = { λ s. sizes (region s) };

    ghost as_region = { λ s. Some (region s) };

    ghost fits = { λ s shape. ends_within (region s) shape };

    ghost refuses = { λ s shape e. RefusesShape (region s) shape e };

    ghost pieces = { λ s shape. runs shape (region s) };

    ghost indices_left = { tuples_left };

    ghost linearised_left = { linear_left };

    ghost contiguous_left = { runs_left };

    ghost indices_ends = { box_indices_ends };

    ghost linearised_ends = { box_linearised_ends };

    ghost contiguous_ends = { box_contiguous_ends };

    ghost listable = { λ s. count (region s) < 2 ^ 64 };

    ghost has_output = { λ s. Unit {0} };

    ghost inside = { λ s shape h. box_inside (region s) shape h };

    ghost refusal = { λ s shape e h. box_refusal (region s) shape e h };

    ghost memory = { λ s shape. tt };

    ghost joins = { λ s shape h. box_joins (region s) shape h };

    ghost within = { λ s shape h. box_within (region s) shape h };

    ghost can_list = { λ s h. box_listable (region s) h };

    ghost can_output = { λ s h. tt };

    ghost outputs = { λ s. box_outputs (region s) };

    ghost boxed = { λ s r h. same_region (region s) r h };

    fn dimensionality(&self) -> usize {
        self.dimensionality()
    }

    fn len(&self) -> u64 {
        self.num_elements()
    }

    fn checked_len(&self) -> Option<u64> {
        self.checked_num_elements()
    }

    fn is_empty(&self) -> bool {
        self.is_empty()
    }

    fn output_shape(&self, alloc: Global) -> Result<Vec<u64>, AllocError> {
        self.shape().to_vec(alloc)
    }

    fn iter_indices(&self, alloc: Global) -> Result<IndicesIntoIterator, AllocError> {
        let subset = self.try_clone(alloc)?;
        Ok(list_tuples(subset))
    }

    fn iter_linearised_indices(
        &self,
        alloc: Global,
        array_shape: &[u64],
    ) -> Result<LinearisedIndicesIntoIterator, IndexerError> {
        let subset = self.try_clone(alloc)?;
        match list_linear(alloc, subset, array_shape) {
            Ok(indices) => Ok(indices),
            Err(error) => Err(error),
        }
    }

    fn iter_contiguous_linearised_indices(
        &self,
        alloc: Global,
        array_shape: &[u64],
    ) -> Result<ContiguousLinearisedIndicesIntoIterator, IndexerError> {
        let subset = self.try_clone(alloc)?;
        match list_runs(alloc, subset, array_shape) {
            Ok(runs) => Ok(runs),
            Err(error) => Err(error),
        }
    }

    fn as_array_subset(&self, alloc: Global) -> Result<Option<ArraySubset>, AllocError> {
        let subset = self.try_clone(alloc)?;
        Ok(Some(subset))
    }
}
