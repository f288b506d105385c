//! Numbers of a grid of boundaries, dimension by dimension.

ghost use Rattle.std.specs.Prelude.{◌≡◌, ◌^◌, length, map, nat_lt, sum, IfOk};
ghost use Rattle.std.specs.List.{list_all};
ghost use Rattle.zarr_model.specs.Prelude.{boundary_grid, sums_fit};
ghost use Rattle.zarr_basics.specs.Axes.{axis_lengths, chunks_at, largest_of, last_chunks, starts_at, lengths_at, lengths_of};
ghost use Rattle.zarr_basics.specs.Lengths.{nonzeros};

use crate::axis::BoundaryAxis;
use std::alloc::{AllocError, Global};
use zarrs_array_subset::{ArrayShape, ChunkShape};

// The number of each dimension's lengths.
fn counts(alloc: Global, axes: &[BoundaryAxis]) -> Result<Vec<u64>, AllocError>
    ensures { IfOk result (λ v. v.items ≡ map (λ axis. length axis.lengths.items) axes.now) }
{
    axes.iter()
        .map(|axis| axis.lengths.len() as u64)
        .collect(alloc)
}

// How many chunks there are in each dimension.
#[tactic(auto, using(crate::proofs::AxisFacts::counts_are))]
pub(crate) fn counts_of(alloc: Global, axes: &[BoundaryAxis]) -> Result<Vec<u64>, AllocError>
    ensures { IfOk result (λ v. v.items ≡ (boundary_grid (lengths_of axes.now)).grid_shape) }
{
    let counts = counts(alloc, axes)?;
    Ok(counts)
}

// The chunk of each index.
pub(crate) fn chunks_at(
    alloc: Global,
    axes: &[BoundaryAxis],
    indices: &[u64],
) -> Result<Vec<u64>, AllocError>
    ensures { IfOk result (λ v. v.items ≡ chunks_at axes.now indices.now) }
{
    axes.iter()
        .zip(indices)
        .map(|(axis, index)| axis.chunk_at(*index))
        .collect(alloc)
}

// The chunk of the last index of each start and length.
pub(crate) fn last_chunks(
    alloc: Global,
    axes: &[BoundaryAxis],
    start: &[u64],
    shape: &[u64],
) -> Result<Vec<u64>, AllocError>
    ensures { IfOk result (λ v. v.items ≡ last_chunks axes.now start.now shape.now) }
{
    axes.iter()
        .zip(start)
        .zip(shape)
        .map(|((axis, s), n)| axis.chunk_at(s.saturating_add(*n).saturating_sub(1)))
        .collect(alloc)
}

// Where each chunk begins.
pub(crate) fn starts_at(
    alloc: Global,
    axes: &[BoundaryAxis],
    chunk: &[u64],
) -> Result<Vec<u64>, AllocError>
    ensures { IfOk result (λ v. v.items ≡ starts_at axes.now chunk.now) }
{
    axes.iter()
        .zip(chunk)
        .map(|(axis, index)| axis.start_of(*index))
        .collect(alloc)
}

// The length of each chunk.
#[tactic(auto, using(crate::proofs::Taken::one_length, crate::proofs::Taken::all_lengths))]
pub(crate) fn lengths_at(
    alloc: Global,
    axes: &[BoundaryAxis],
    chunk: &[u64],
) -> Result<ChunkShape, AllocError>
    requires { length axes.now ≡ length chunk.now }
    ensures { IfOk result (λ v. nonzeros v.items ≡ lengths_at axes.now chunk.now) }
{
    let mut lengths = Vec::with_capacity(alloc, axes.len())?;
    for k in 0..axes.len() {
        lengths.push(axes[k].length_of(chunk[k]))?;
    }
    Ok(lengths)
}

// The length of each chunk as a number.
pub(crate) fn numbers_at(
    alloc: Global,
    axes: &[BoundaryAxis],
    chunk: &[u64],
) -> Result<ArrayShape, AllocError>
    ensures { IfOk result (λ v. v.items ≡ lengths_at axes.now chunk.now) }
{
    axes.iter()
        .zip(chunk)
        .map(|(axis, index)| axis.length_of(*index).get())
        .collect(alloc)
}

// The largest length of each dimension.
pub(crate) fn largest_of(alloc: Global, axes: &[BoundaryAxis]) -> Result<ChunkShape, AllocError>
    ensures { IfOk result (λ v. nonzeros v.items ≡ largest_of axes.now) }
{
    let mut lengths = Vec::with_capacity(alloc, axes.len())?;
    for axis in axes {
        lengths.push(axis.largest())?;
    }
    Ok(lengths)
}

fn each_end_fits(axes: &[BoundaryAxis]) -> bool
    ensures { result ≡ list_all (λ axis. nat_lt (sum (axis_lengths axis)) (2 ^ 64)) axes.now }
{
    axes.iter().all(|axis| axis.end_fits())
}

// Whether the last chunk of each dimension ends within `u64`.
#[tactic(auto, using(crate::proofs::AxisFacts::all_fit))]
pub(crate) fn ends_fit(axes: &[BoundaryAxis]) -> bool
    ensures { result ≡ sums_fit (lengths_of axes.now) }
{
    each_end_fits(axes)
}
