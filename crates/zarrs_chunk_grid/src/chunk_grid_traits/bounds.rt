//! Indices below a shape.

ghost use Rattle.std.specs.Prelude.{◌≡◌, ◌<◌, ◌^◌, ◌==◌, ◌||◌, nat_lt, IfOk};
ghost use Rattle.zarr_model.specs.Region.{contains, count_of, is_in, tuples, whole};
ghost use Rattle.zarrs_chunk_grid_iterators.specs.Iterators.{tuples_left};
ghost use Rattle.zarrs_chunk_grid.specs.ChunkGrid.{are_inbounds};

use std::alloc::{AllocError, Global};
use zarrs_array_subset::ArraySubset;
use zarrs_chunk_grid_iterators::{Indices, IndicesIntoIterator};

#[tactic(auto, using(crate::proofs::GridIndices::of_indices))]
fn is_below(index: u64, length: u64) -> bool
    ensures { result ≡ is_in index (record { start = 0; size = length }) }
{
    index < length
}

/// Whether there is an index for each dimension of a shape, below the length there.
pub fn are_below(shape: &[u64], indices: &[u64]) -> bool
    ensures { result ≡ contains (whole shape.now) indices.now }
{
    match shape {
        [] => match indices {
            [] => true,
            [_, ..] => false,
        },
        [length, shape @ ..] => match indices {
            [] => false,
            [index, indices @ ..] => is_below(*index, *length) && are_below(shape, indices),
        },
    }
}

fn is_inbounds(index: u64, length: u64) -> bool
    ensures { result ≡ ((length == 0) || nat_lt index length) }
{
    length == 0 || index < length
}

// The same, where every index is below a length of 0.
pub(crate) fn are_inbounds(shape: &[u64], indices: &[u64]) -> bool
    ensures { result ≡ are_inbounds shape.now indices.now }
{
    match shape {
        [] => match indices {
            [] => true,
            [_, ..] => false,
        },
        [length, shape @ ..] => match indices {
            [] => false,
            [index, indices @ ..] => is_inbounds(*index, *length) && are_inbounds(shape, indices),
        },
    }
}

// All indices below a shape.
#[tactic(auto, using(zarr_model::proofs::RegionLaws::sizes_whole))]
pub(crate) fn indices_within(
    alloc: Global,
    shape: &[u64],
) -> Result<IndicesIntoIterator, AllocError>
    requires { count_of shape.now < 2 ^ 64 }
    ensures { IfOk result (λ it. tuples_left it ≡ tuples (whole shape.now)) }
{
    let shape = shape.to_vec(alloc)?;
    let all = ArraySubset::new_with_shape(alloc, shape)?;
    let indices = Indices::new(all).into_iter();
    Ok(indices)
}
