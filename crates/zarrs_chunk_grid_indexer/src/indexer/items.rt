//! What lists of indexers list: one item after another.

ghost use Rattle.std.specs.Prelude.{◌≡◌, ◌<◌, ◌^◌, true, length, map, nat_eq, IfOk, IfErr};
ghost use Rattle.std.specs.List.{AllByRecursion, flat_map, list_all};
ghost use Rattle.std.specs.Option.{SomeIff};
ghost use Rattle.zarr_model.specs.Region.{count_of, linear_index};
ghost use Rattle.zarrs_chunk_grid_iterators.specs.Lists.{RefusesItems, first_of_items};
ghost use Rattle.zarrs_chunk_grid_iterators.specs.Runs.{span_of};

use super::Indexer;
use super::gather::{
    append_contiguous_linearised_indices, append_indices, append_linearised_indices,
};
use std::alloc::{AllocError, Global};
use zarrs_array_subset::{ArrayIndicesTinyVec, IndexerError};

// The dimensionality of the first item.
pub(crate) fn rank_of_items<T: Indexer>(list: &[T]) -> usize
    ensures { result ≡ first_of_items T.rank list.now }
{
    match list {
        [] => 0,
        [first, ..] => first.dimensionality(),
    }
}

// The number of indices; none exactly where it passes `u64`.
#[tactic(auto, using(crate::proofs::Items::of_counts))]
pub(crate) fn count_items<T: Indexer>(list: &[T]) -> Option<u64>
    ensures { SomeIff result (length (flat_map T.places list.now) < 2 ^ 64)
        (length (flat_map T.places list.now)) }
{
    match list {
        [] => Some(0),
        [first, rest @ ..] => {
            let count = first.checked_len()?;
            let others = count_items(rest)?;
            count.checked_add(others)
        }
    }
}

// Whether there is no index.
#[tactic(auto, using(crate::proofs::Items::of_counts))]
pub(crate) fn are_empty<T: Indexer>(list: &[T]) -> bool
    ensures { result ≡ nat_eq (length (flat_map T.places list.now)) 0 }
{
    match list {
        [] => true,
        [first, rest @ ..] => first.is_empty() && are_empty(rest),
    }
}

// The indices.
pub(crate) fn tuples_of_items<T: Indexer>(
    alloc: Global,
    list: &[T],
) -> Result<Vec<ArrayIndicesTinyVec>, AllocError>
    requires { AllByRecursion T.listable list.now }
    ensures { IfOk result (λ v. map (λ t. t.items) v.items ≡ flat_map T.places list.now) }
{
    let mut tuples = Vec::new(alloc);
    for item in list {
        append_indices(&mut tuples, alloc, item)?;
    }
    Ok(tuples)
}

// The linear indices.
pub(crate) fn linear_of_items<T: Indexer>(
    alloc: Global,
    list: &[T],
    array_shape: &[u64],
) -> Result<Vec<u64>, IndexerError>
    requires { count_of array_shape.now < 2 ^ 64 }
    ensures inside { IfOk result (λ v. list_all (λ x. T.fits x array_shape.now) list.now ≡ true) }
    ensures lists { IfOk result
        (λ v. v.items ≡ flat_map (λ x. map (linear_index array_shape.now) (T.places x)) list.now) }
    ensures refused { IfErr result
        (RefusesItems (λ x. T.fits x array_shape.now)
        (λ x e. T.refuses x array_shape.now e) list.now) }
{
    let mut indices = Vec::new(alloc);
    for item in list {
        match append_linearised_indices(&mut indices, alloc, item, array_shape) {
            Ok(()) => {}
            Err(error) => return Err(error),
        }
    }
    Ok(indices)
}

// The runs.
pub(crate) fn runs_of_items<T: Indexer>(
    alloc: Global,
    list: &[T],
    array_shape: &[u64],
) -> Result<Vec<(u64, u64)>, IndexerError>
    requires { count_of array_shape.now < 2 ^ 64 }
    ensures inside { IfOk result (λ v. list_all (λ x. T.fits x array_shape.now) list.now ≡ true) }
    ensures lists { IfOk result
        (λ v. map span_of v.items ≡ flat_map (λ x. T.pieces x array_shape.now) list.now) }
    ensures refused { IfErr result
        (RefusesItems (λ x. T.fits x array_shape.now)
        (λ x e. T.refuses x array_shape.now e) list.now) }
{
    let mut runs = Vec::new(alloc);
    for item in list {
        match append_contiguous_linearised_indices(&mut runs, alloc, item, array_shape) {
            Ok(()) => {}
            Err(error) => return Err(error),
        }
    }
    Ok(runs)
}
