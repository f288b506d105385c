//! The lists of array subsets and of ranges, as indexers give them.

ghost use Rattle.std.specs.Prelude.{◌≡◌, ◌<◌, ◌^◌, true, map, IfOk, IfErr};
ghost use Rattle.zarr_model.specs.Region.{Region, count, count_of, ends_within, linear_index, tuples};
ghost use Rattle.zarrs_array_subset.specs.ArraySubset.{region};
ghost use Rattle.zarrs_array_subset.specs.Errors.{RefusesShape};
ghost use Rattle.zarrs_chunk_grid_iterators.specs.Iterators.{linear_left, runs_left, tuples_left};
ghost use Rattle.zarrs_chunk_grid_iterators.specs.Runs.{runs};

use std::alloc::Global;
use zarrs_array_subset::{ArraySubset, IndexerError};
use zarrs_chunk_grid_iterators::{
    ContiguousLinearisedIndices, ContiguousLinearisedIndicesIntoIterator, Indices,
    IndicesIntoIterator, LinearisedIndices, LinearisedIndicesIntoIterator,
};

// The tuples of a subset that is the region r.
pub(crate) fn list_tuples(subset: ArraySubset) -> IndicesIntoIterator
    requires { count (region subset) < 2 ^ 64 }
    ensures { (r : Region) → region subset ≡ r → tuples_left result ≡ tuples r }
{
    Indices::new(subset).into_iter()
}

// Its linear indices in a shape.
pub(crate) fn list_linear(
    alloc: Global,
    subset: ArraySubset,
    array_shape: &[u64],
) -> Result<LinearisedIndicesIntoIterator, IndexerError>
    requires { count_of array_shape.now < 2 ^ 64 }
    ensures inside { IfOk result (λ it. ends_within (region subset) array_shape.now ≡ true) }
    ensures lists { IfOk result (λ it. (r : Region) → region subset ≡ r
        → linear_left it ≡ map (linear_index array_shape.now) (tuples r)) }
    ensures refused { IfErr result (λ e. (r : Region) → region subset ≡ r
        → RefusesShape r array_shape.now e) }
{
    let shape = array_shape.to_vec(alloc)?;
    match LinearisedIndices::new(alloc, subset, shape) {
        Ok(indices) => Ok(indices.into_iter()),
        Err(error) => Err(error),
    }
}

// Its runs in a shape.
pub(crate) fn list_runs(
    alloc: Global,
    subset: ArraySubset,
    array_shape: &[u64],
) -> Result<ContiguousLinearisedIndicesIntoIterator, IndexerError>
    requires { count_of array_shape.now < 2 ^ 64 }
    ensures inside { IfOk result (λ it. ends_within (region subset) array_shape.now ≡ true) }
    ensures lists { IfOk result (λ it. (r : Region) → region subset ≡ r
        → runs_left it ≡ runs array_shape.now r) }
    ensures refused { IfErr result (λ e. (r : Region) → region subset ≡ r
        → RefusesShape r array_shape.now e) }
{
    let shape = array_shape.to_vec(alloc)?;
    match ContiguousLinearisedIndices::new(alloc, subset, shape) {
        Ok(runs) => Ok(runs.into_iter()),
        Err(error) => Err(error),
    }
}
