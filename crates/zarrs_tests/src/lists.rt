//! The four lists of a region, from both ends and in loops.

use crate::grid_callers::owned_indices;
use crate::texts::{gives, says};
use std::alloc::Global;
use std::process::Abort;
use zarrs_chunk_grid::{
    ArraySubset, ArraySubsetTraits, ContiguousIndices, ContiguousLinearisedIndices, Indices,
    LinearisedIndices,
};

// The tuples of a box of four.
fn are_tuples(rt: &impl Abort, alloc: Global, indices: Indices) {
    let mut iter = indices.iter();
    let seen = (iter.size_hint(), iter.next_back());
    says(rt, alloc, &seen, "((4, Some(4)), Some(Ok([2, 6])))");
    let mut iter = indices.into_iter();
    let seen = (iter.len(), iter.next());
    says(rt, alloc, &seen, "(4, Some(Ok([1, 5])))");
}

// The tuples of the box but for the first, until there are no more.
fn are_last_three(rt: &impl Abort, alloc: Global, subset: ArraySubset) {
    if subset.checked_num_elements().is_some() {
        let indices = Indices::new_with_start_end(subset, 1..4);
        let mut iter = indices.iter();
        let seen = (iter.next(), iter.next_back(), iter.next(), iter.next());
        let want = "(Some(Ok([1, 6])), Some(Ok([2, 6])), Some(Ok([2, 5])), None)";
        says(rt, alloc, &seen, want);
    } else {
        assert!(rt; false, "too many");
    }
}

// Its linear indices in an 8x8 array, until there are no more.
fn are_linear(rt: &impl Abort, alloc: Global, indices: LinearisedIndices) {
    let mut iter = indices.iter();
    says(rt, alloc, &iter.size_hint(), "(4, Some(4))");
    let seen = (iter.next(), iter.next(), iter.next_back());
    says(rt, alloc, &seen, "(Some(13), Some(14), Some(22))");
    says(rt, alloc, &(iter.next(), iter.next()), "(Some(21), None)");
    gives(rt, alloc, owned_indices(alloc, indices), "[13, 14, 21, 22]");
}

// Its runs there.
fn are_runs(rt: &impl Abort, alloc: Global, runs: ContiguousLinearisedIndices) {
    let mut iter = runs.iter();
    let seen = (iter.size_hint(), iter.next_back());
    says(rt, alloc, &seen, "((2, Some(2)), Some((21, 2)))");
    let mut iter = runs.into_iter();
    let seen = (iter.contiguous_elements(), iter.next());
    says(rt, alloc, &seen, "(2, Some((13, 2)))");
}

// Its runs by the tuples at which they begin.
fn are_tuple_runs(rt: &impl Abort, alloc: Global, runs: ContiguousIndices) {
    let mut iter = runs.iter();
    let seen = (iter.contiguous_elements_usize(), iter.next_back());
    says(rt, alloc, &seen, "(2, Some(Ok(([2, 5], 2))))");
    let mut iter = runs.into_iter();
    let seen = (iter.len(), iter.next());
    says(rt, alloc, &seen, "(2, Some(Ok(([1, 5], 2))))");
}

#[test]
fn lists_of_tuples(rt: HostRuntime) {
    match [1..3, 5..7].indices(rt.alloc()) {
        Ok(indices) => are_tuples(&rt, rt.alloc(), indices),
        Err(_) => assert!(rt; false, "no list"),
    }
    match [1..3, 5..7].contiguous_indices(rt.alloc(), &[8, 8]) {
        Ok(runs) => are_tuple_runs(&rt, rt.alloc(), runs),
        Err(_) => assert!(rt; false, "no list"),
    }
    match [1..3, 5..7].to_array_subset(rt.alloc()) {
        Ok(subset) => are_last_three(&rt, rt.alloc(), subset),
        Err(_) => assert!(rt; false, "no subset"),
    }
}

#[test]
fn lists_of_numbers(rt: HostRuntime) {
    match [1..3, 5..7].linearised_indices(rt.alloc(), &[8, 8]) {
        Ok(indices) => are_linear(&rt, rt.alloc(), indices),
        Err(_) => assert!(rt; false, "no list"),
    }
    match [1..3, 5..7].contiguous_linearised_indices(rt.alloc(), &[8, 8]) {
        Ok(runs) => are_runs(&rt, rt.alloc(), runs),
        Err(_) => assert!(rt; false, "no list"),
    }
}

// The last tuple of a box of five axes.
#[test]
fn lists_of_more_axes(rt: HostRuntime) {
    match [3..4, 1..2, 0..1, 0..1, 4..6].indices(rt.alloc()) {
        Ok(indices) => says(
            &rt,
            rt.alloc(),
            &indices.iter().next_back(),
            "Some(Ok([3, 1, 0, 0, 5]))",
        ),
        Err(_) => assert!(rt; false, "no list"),
    }
}
