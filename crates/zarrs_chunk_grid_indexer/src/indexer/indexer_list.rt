//! Lists of indexers as one indexer: one item after another.

ghost use Rattle.std.specs.Prelude.{◌≡◌, ◌<◌, ◌^◌, ◌+◌, ◌≤◌, ◌∷◌, [], None, length, map, true};
ghost use Rattle.std.specs.List.{AllByRecursion, flat_map, list_all};
ghost use Rattle.std.specs.Vec.Iter.{into_iter_items};
ghost use Rattle.zarr_model.specs.Region.{contains, count_of, linear_index, tuples, whole};
ghost use Rattle.zarrs_chunk_grid_iterators.specs.ListIterators.{gathered_left};
ghost use Rattle.zarrs_chunk_grid_iterators.specs.Lists.{RefusesItems, first_of_items};
ghost use Rattle.zarrs_chunk_grid_iterators.specs.Runs.{span_of};
ghost use Rattle.zarrs_chunk_grid_iterators.proofs.Ends.{gathered_numbers_ends, gathered_runs_ends, gathered_tuples_ends};
ghost use Rattle.zarrs_chunk_grid_iterators.proofs.BoxFacts.{no_region};
ghost use Rattle.zarrs_chunk_grid_iterators.proofs.ListFacts.{all_items, items_listable, items_memory, items_refusal, joined_items, list_outputs};

use super::Indexer;
use super::items::{
    are_empty, count_items, linear_of_items, rank_of_items, runs_of_items, tuples_of_items,
};
use std::alloc::{AllocError, Global};
use std::vec::IntoIter;
use zarrs_array_subset::{ArraySubset, IndexerError};
use zarrs_chunk_grid_iterators::GatheredTuples;

/// A list of indexers, whose indices come one item after another.
#[derive(Drop)]
pub struct IndexerList<T> {
    list: Vec<T>,
}

impl<T> IndexerList<T> {
    /// These items.
    pub fn new(list: Vec<T>) -> Self
        ensures { result.list ≡ list }
    {
        IndexerList { list }
    }

    /// The items.
    pub fn as_slice(&self) -> &[T]
        ensures { result.now ≡ self.now.list.items }
    {
        self.list.as_slice()
    }
}

impl<T: Indexer> Indexer for IndexerList<T> {
    type IndicesIter = GatheredTuples;

    type LinearIter = IntoIter<u64, Global>;

    type RunsIter = IntoIter<(u64, u64), Global>;

    ghost places = { λ s. flat_map T.places s.list.items };

    ghost rank = { λ s. first_of_items T.rank s.list.items };

    ghost output = { λ s. length (flat_map T.places s.list.items) ∷ [] };

    ghost as_region = { λ s. None };

    ghost fits = { λ s shape. list_all (λ x. T.fits x shape) s.list.items };

    ghost refuses = { λ s shape e. RefusesItems (λ x. T.fits x shape)
        (λ x e. T.refuses x shape e) s.list.items e };

    ghost pieces = { λ s shape. flat_map (λ x. T.pieces x shape) s.list.items };

    ghost indices_left = { gathered_left };

    ghost linearised_left = { λ it. into_iter_items it };

    ghost contiguous_left = { λ it. map span_of (into_iter_items it) };

    ghost indices_ends = { gathered_tuples_ends };

    ghost linearised_ends = { gathered_numbers_ends };

    ghost contiguous_ends = { gathered_runs_ends };

    ghost listable = { λ s. AllByRecursion T.listable s.list.items };

    ghost has_output = { λ s. length (flat_map T.places s.list.items) < 2 ^ 64 };

    ghost inside = { λ s shape h. all_items T.places (λ x. T.fits x shape)
        (λ tuple. contains (whole shape) tuple ≡ true) (λ x k. T.inside x shape k) s.list.items h };

    ghost refusal = { λ s shape e h. items_refusal (λ x. T.fits x shape)
        (λ x e. T.refuses x shape e) s.list.items e h };

    ghost memory = { λ s shape. items_memory (λ x. T.fits x shape) (λ x e. T.refuses x shape e)
        (λ x. T.memory x shape) s.list.items };

    ghost joins = { λ s shape h. joined_items (λ x. T.pieces x shape) T.places (λ x. T.fits x shape)
        (linear_index shape) (λ x k. T.joins x shape k) s.list.items h };

    ghost within = { λ s shape h. all_items (λ x. T.pieces x shape) (λ x. T.fits x shape)
        (λ span. span.start + span.size ≤ count_of shape)
        (λ x k. T.within x shape k) s.list.items h };

    ghost can_list = { λ s h. items_listable T.places T.listable
        (λ x k. T.can_list x k) s.list.items h };

    ghost can_output = { λ s h. h };

    ghost outputs = { λ s. list_outputs (length (flat_map T.places s.list.items)) };

    ghost boxed = { λ s r h. no_region
        ((flat_map T.places s.list.items ≡ tuples r)
        × (first_of_items T.rank s.list.items ≡ length r)) r h };

    fn dimensionality(&self) -> usize {
        rank_of_items(self.list.as_slice())
    }

    fn len(&self) -> u64 {
        match count_items(self.list.as_slice()) {
            Some(count) => count,
            None => unreachable!(),
        }
    }

    fn checked_len(&self) -> Option<u64> {
        count_items(self.list.as_slice())
    }

    fn is_empty(&self) -> bool {
        are_empty(self.list.as_slice())
    }

    fn output_shape(&self, alloc: Global) -> Result<Vec<u64>, AllocError> {
        let shape = vec![in alloc; self.len()]?;
        Ok(shape)
    }

    fn iter_indices(&self, alloc: Global) -> Result<GatheredTuples, AllocError> {
        let tuples = tuples_of_items(alloc, self.list.as_slice())?;
        Ok(GatheredTuples {
            tuples: tuples.into_iter(),
        })
    }

    fn iter_linearised_indices(
        &self,
        alloc: Global,
        array_shape: &[u64],
    ) -> Result<IntoIter<u64, Global>, IndexerError> {
        match linear_of_items(alloc, self.list.as_slice(), array_shape) {
            Ok(indices) => Ok(indices.into_iter()),
            Err(error) => Err(error),
        }
    }

    fn iter_contiguous_linearised_indices(
        &self,
        alloc: Global,
        array_shape: &[u64],
    ) -> Result<IntoIter<(u64, u64), Global>, IndexerError> {
        match runs_of_items(alloc, self.list.as_slice(), array_shape) {
            Ok(runs) => Ok(runs.into_iter()),
            Err(error) => Err(error),
        }
    }

    fn as_array_subset(&self, _alloc: Global) -> Result<Option<ArraySubset>, AllocError> {
        Ok(None)
    }
}
