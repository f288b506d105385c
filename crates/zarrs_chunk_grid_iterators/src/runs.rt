//! Where runs of neighbours begin, and how long they are.

ghost use Rattle.std.specs.Prelude.{◌≡◌, ◌<◌, ◌≤◌, ◌^◌, ◌++◌, true, length, replicate, IfOk, OnOk};
ghost use Rattle.zarr_model.specs.Region.{count, count_of};
ghost use Rattle.zarrs_array_subset.specs.Boxes.{is_box, region_of};
ghost use Rattle.zarrs_array_subset.specs.ArraySubset.{region};
ghost use Rattle.zarrs_chunk_grid_iterators.specs.Runs.{is_whole, run_box, run_front, run_length, run_size};

use std::alloc::{AllocError, Global};
use zarrs_array_subset::{ArraySubset, shape_product};

// The product of the lengths.
fn count_indices(shape: &[u64]) -> u64
    requires { count_of shape.now < 2 ^ 64 }
    ensures { result ≡ count_of shape.now }
{
    match shape_product(shape) {
        Some(count) => count,
        None => unreachable!(),
    }
}

// Appends a 1 for each dimension.
fn push_ones(out: &mut Vec<u64>, shape: &[u64]) -> Result<(), AllocError>
    ensures { OnOk result (out.new.items ≡ out.old.items ++ replicate (length shape.now) 1) }
{
    for _n in shape {
        out.push(1)?;
    }
    Ok(())
}

// How many dimensions come before those that a run passes through, and whether the box is the whole of the shape.
#[tactic(auto, using(crate::proofs::RunShapes::of_runs))]
fn run_front(start: &[u64], shape: &[u64], array_shape: &[u64]) -> (usize, bool)
    requires fits { is_box start.now shape.now ≡ true }
    requires rank { length shape.now ≡ length array_shape.now }
    ensures front { result.0 ≡ run_front array_shape.now (region_of start.now shape.now) }
    ensures whole { result.1 ≡ is_whole array_shape.now (region_of start.now shape.now) }
    ensures few { result.0 ≤ length shape.now }
{
    match shape {
        [] => (0, true),
        [n, shape @ ..] => match start {
            [] => unreachable!(),
            [s, start @ ..] => match array_shape {
                [] => unreachable!(),
                [m, array_shape @ ..] => {
                    let (front, is_whole) = run_front(start, shape, array_shape);
                    if is_whole {
                        (0, *s == 0 && *n == *m)
                    } else {
                        (front + 1, false)
                    }
                }
            },
        },
    }
}

// The box of the indices at which runs begin, and how many indices each run has.
#[tactic(auto, using(crate::proofs::RunShapes::of_starts))]
pub(crate) fn run_starts(
    alloc: Global,
    subset: &ArraySubset,
    array_shape: &[u64],
) -> Result<(ArraySubset, u64), AllocError>
    requires rank { length (region subset.now) ≡ length array_shape.now }
    requires small { count (region subset.now) < 2 ^ 64 }
    requires some { 0 < count (region subset.now) }
    ensures starts { IfOk result (λ p. region p.0 ≡ run_box array_shape.now (region subset.now)) }
    ensures run { IfOk result (λ p. p.1 ≡ run_length array_shape.now (region subset.now)) }
{
    let (front, _is_whole) = run_front(subset.start(), subset.shape(), array_shape);
    let (before, run) = subset.shape().split_at(front);
    let mut shape = Vec::with_capacity(alloc, array_shape.len())?;
    shape.extend_from_slice(before)?;
    push_ones(&mut shape, run)?;
    let start = subset.start().to_vec(alloc)?;
    match ArraySubset::new_with_start_shape(start, shape) {
        Ok(starts) => Ok((starts, count_indices(run))),
        Err(_) => unreachable!(),
    }
}

/// How many indices each run of a box in a shape has, and 0 where the box has none.
#[tactic(auto, using(crate::proofs::RunShapes::of_starts))]
pub fn run_size(subset: &ArraySubset, array_shape: &[u64]) -> u64
    requires rank { length (region subset.now) ≡ length array_shape.now }
    requires small { count (region subset.now) < 2 ^ 64 }
    ensures { result ≡ run_size array_shape.now (region subset.now) }
{
    if subset.is_empty() {
        return 0;
    }
    let (front, _is_whole) = run_front(subset.start(), subset.shape(), array_shape);
    let (_before, run) = subset.shape().split_at(front);
    count_indices(run)
}
