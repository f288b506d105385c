//! Callers that are proved from what `zarrs_chunk_grid` promises, with no other crate at hand.

ghost use Rattle.std.specs.Prelude.{◌≡◌, ℕ, ◌<◌, ◌^◌, ◌∷◌, ◌++◌, List, [], map, IfOk, MatchOption};
ghost use Rattle.zarrs_chunk_grid.specs.ArraySubset.{region};
ghost use Rattle.zarr_model.specs.Cover.{linear_indices};
ghost use Rattle.zarrs_chunk_grid.specs.Iterators.{linear_of};
ghost use Rattle.zarr_model.specs.Region.{count_of, linear_index};

use std::alloc::{AllocError, Global};
use zarrs_chunk_grid::{ArraySubset, Indexer, IndexerError, LinearisedIndices};

/// The last linear index of a subset, taken from the back.
///
/// # Errors
/// [`IndexerError`] where the subset is refused for the shape, or there is not enough memory.
pub fn last_of_subset(
    alloc: Global,
    subset: &ArraySubset,
    array_shape: &[u64],
) -> Result<Option<u64>, IndexerError>
    requires { count_of array_shape.now < 2 ^ 64 }
    ensures { IfOk result (λ o. MatchOption o
        (linear_indices array_shape.now (region subset.now) ≡ [])
        (λ n. (rest : List ℕ)
        × (linear_indices array_shape.now (region subset.now) ≡ rest ++ n ∷ []))) }
{
    match subset.iter_linearised_indices(alloc, array_shape) {
        Ok(mut indices) => Ok(indices.next_back()),
        Err(error) => Err(error),
    }
}

/// The last linear index of any indexer, taken from the back.
///
/// # Errors
/// [`IndexerError`] where the indexer is refused for the shape, or there is not enough memory.
pub fn last_of<I: Indexer>(
    alloc: Global,
    indexer: &I,
    array_shape: &[u64],
) -> Result<Option<u64>, IndexerError>
    requires { count_of array_shape.now < 2 ^ 64 }
    ensures { IfOk result (λ o. MatchOption o
        (map (linear_index array_shape.now) (I.places indexer.now) ≡ [])
        (λ n. (rest : List ℕ)
        × (map (linear_index array_shape.now) (I.places indexer.now) ≡ rest ++ n ∷ []))) }
{
    match indexer.iter_linearised_indices(alloc, array_shape) {
        Ok(mut indices) => Ok(indices.next_back()),
        Err(error) => Err(error),
    }
}

/// The linear indices of a list that is lent.
///
/// # Errors
/// [`AllocError`] where there is not enough memory.
pub fn lent_indices(alloc: Global, indices: &LinearisedIndices) -> Result<Vec<u64>, AllocError>
    ensures { IfOk result (λ v. v.items ≡ linear_of indices.now) }
{
    let mut all = Vec::new(alloc);
    for index in indices.iter() {
        all.push(index)?;
    }
    Ok(all)
}

/// The linear indices of a list that is used up.
///
/// # Errors
/// [`AllocError`] where there is not enough memory.
pub fn owned_indices(alloc: Global, indices: LinearisedIndices) -> Result<Vec<u64>, AllocError>
    ensures { IfOk result (λ v. v.items ≡ linear_of indices) }
{
    let mut all = Vec::new(alloc);
    for index in indices {
        all.push(index)?;
    }
    Ok(all)
}
