//! What lists of index tuples are in a shape.

ghost use Rattle.std.specs.Prelude.{ℕ, List, ◌≡◌, ◌<◌, ◌^◌, true, map, IfOk, IfErr};
ghost use Rattle.zarr_model.specs.Region.{contains, count_of, linear_index, whole};
ghost use Rattle.std.specs.Vec.Iter.{into_iter_items};
ghost use Rattle.zarrs_chunk_grid_iterators.specs.Lists.{RefusesList, RefusesTuple, first_rank, is_list_inside, single_runs};
ghost use Rattle.zarrs_chunk_grid_iterators.specs.ListIterators.{gathered_left, singles_left};

use smallvec::SmallVec;
use std::alloc::{AllocError, Global};
use std::vec::IntoIter;
use zarrs_array_subset::{ArrayIndices, ArrayIndicesTinyVec, IndexerError, ravel_indices};
use zarrs_chunk_grid_iterators::{GatheredTuples, SingleRuns};

// The length of the first tuple.
pub(crate) fn rank_of(list: &[ArrayIndices]) -> usize
    ensures { result ≡ first_rank (map (λ t. t.items) list.now) }
{
    match list {
        [] => 0,
        [first, ..] => first.len(),
    }
}

// A copy of a list of tuples.
pub(crate) fn copy_tuples(
    alloc: Global,
    list: &[ArrayIndices],
) -> Result<Vec<ArrayIndicesTinyVec>, AllocError>
    ensures { IfOk result (λ v. map (λ t. t.items) v.items ≡ map (λ t. t.items) list.now) }
{
    let mut copy = Vec::with_capacity(alloc, list.len())?;
    for tuple in list {
        let tuple = SmallVec::from_slice(alloc, tuple)?;
        copy.push(tuple)?;
    }
    Ok(copy)
}

// The linear index of a tuple.
#[tactic(auto, using(zarrs_chunk_grid_iterators::proofs::ListFacts::of_fronts))]
fn linear_of(alloc: Global, tuple: &[u64], array_shape: &[u64]) -> Result<u64, IndexerError>
    requires { count_of array_shape.now < 2 ^ 64 }
    ensures ok { IfOk result (λ n. (contains (whole array_shape.now) tuple.now ≡ true)
        × (n ≡ linear_index array_shape.now tuple.now)) }
    ensures refused { IfErr result (RefusesTuple tuple.now array_shape.now) }
{
    let (got, expected) = (tuple.len(), array_shape.len());
    if got != expected {
        return Err(IndexerError::new_incompatible_dimensionality(got, expected));
    }
    match ravel_indices(tuple, array_shape) {
        Some(index) => Ok(index),
        None => Err(IndexerError::OutOfBounds(tuple.to_vec(alloc)?, array_shape.to_vec(alloc)?)),
    }
}

// The linear indices of a list of tuples.
pub(crate) fn linear_of_list(
    alloc: Global,
    list: &[ArrayIndices],
    array_shape: &[u64],
) -> Result<Vec<u64>, IndexerError>
    requires { count_of array_shape.now < 2 ^ 64 }
    ensures inside { IfOk result (λ v. is_list_inside (map (λ t. t.items) list.now) array_shape.now
        ≡ true) }
    ensures lists { IfOk result (λ v. v.items
        ≡ map (linear_index array_shape.now) (map (λ t. t.items) list.now)) }
    ensures refused { IfErr result (RefusesList (map (λ t. t.items) list.now) array_shape.now) }
{
    let mut indices = Vec::with_capacity(alloc, list.len())?;
    for tuple in list {
        match linear_of(alloc, tuple, array_shape) {
            Ok(index) => indices.push(index)?,
            Err(error) => return Err(error),
        }
    }
    Ok(indices)
}

// The tuples of a list, xs.
pub(crate) fn iter_tuples(
    alloc: Global,
    list: &[ArrayIndices],
) -> Result<GatheredTuples, AllocError>
    ensures { IfOk result (λ it. (xs : List (List ℕ)) → map (λ t. t.items) list.now ≡ xs
        → gathered_left it ≡ xs) }
{
    let copy = copy_tuples(alloc, list)?;
    Ok(GatheredTuples {
        tuples: copy.into_iter(),
    })
}

// The linear indices of a list, xs.
pub(crate) fn iter_linear(
    alloc: Global,
    list: &[ArrayIndices],
    array_shape: &[u64],
) -> Result<IntoIter<u64, Global>, IndexerError>
    requires { count_of array_shape.now < 2 ^ 64 }
    ensures inside { IfOk result (λ v. is_list_inside (map (λ t. t.items) list.now) array_shape.now
        ≡ true) }
    ensures lists { IfOk result (λ it. (xs : List (List ℕ)) → map (λ t. t.items) list.now ≡ xs
        → into_iter_items it ≡ map (linear_index array_shape.now) xs) }
    ensures refused { IfErr result (λ e. (xs : List (List ℕ)) → map (λ t. t.items) list.now ≡ xs
        → RefusesList xs array_shape.now e) }
{
    match linear_of_list(alloc, list, array_shape) {
        Ok(indices) => Ok(indices.into_iter()),
        Err(error) => Err(error),
    }
}

// The runs of a list, xs: each index is one.
pub(crate) fn iter_runs(
    alloc: Global,
    list: &[ArrayIndices],
    array_shape: &[u64],
) -> Result<SingleRuns, IndexerError>
    requires { count_of array_shape.now < 2 ^ 64 }
    ensures inside { IfOk result (λ v. is_list_inside (map (λ t. t.items) list.now) array_shape.now
        ≡ true) }
    ensures lists { IfOk result (λ it. (xs : List (List ℕ)) → map (λ t. t.items) list.now ≡ xs
        → singles_left it ≡ single_runs xs array_shape.now) }
    ensures refused { IfErr result (λ e. (xs : List (List ℕ)) → map (λ t. t.items) list.now ≡ xs
        → RefusesList xs array_shape.now e) }
{
    match linear_of_list(alloc, list, array_shape) {
        Ok(indices) => Ok(SingleRuns {
            indices: indices.into_iter(),
        }),
        Err(error) => Err(error),
    }
}
