//! Each kind of region, through its bound: the inner box of a 4x4 array.

use crate::texts::gives;
use std::alloc::Global;
use std::ops::Range;
use std::process::Abort;
use zarrs_chunk_grid::{ArraySubset, ArraySubsetTraits, ChunkShapeTraits, RangeSlice};

// Where it begins, how long it is, and its subset.
fn is_inner<R: ArraySubsetTraits>(rt: &impl Abort, alloc: Global, region: &R) {
    gives(rt, alloc, region.start(alloc), "[1, 1]");
    gives(rt, alloc, region.shape(alloc), "[2, 2]");
    let told = "ArraySubset { start: [1, 1], shape: [2, 2] }";
    gives(rt, alloc, region.to_array_subset(alloc), told);
}

/// Each kind is the inner box.
pub fn are_regions(rt: &impl Abort, alloc: Global, inner: &ArraySubset, ranges: &Vec<Range<u64>>) {
    is_inner(rt, alloc, inner);
    is_inner(rt, alloc, &[1..3, 1..3]);
    is_inner(rt, alloc, &RangeSlice::new(ranges));
    is_inner(rt, alloc, ranges);
}

/// The lengths of the inner box as numbers of two kinds.
pub fn has_lengths(rt: &impl Abort, alloc: Global, inner: &ArraySubset) {
    gives(rt, alloc, inner.shape_usize(alloc), "[2, 2]");
    match inner.chunk_shape(alloc) {
        Ok(Some(shape)) => gives(rt, alloc, shape.to_array_shape(alloc), "[2, 2]"),
        _ => assert!(rt; false, "lengths"),
    }
}

// The calls that every region has by these.
#[test]
fn ends(rt: HostRuntime) {
    let (region, alloc) = ([1..5, 2..6], rt.alloc());
    gives(&rt, alloc, region.end_exc(alloc), "[5, 6]");
    gives(&rt, alloc, region.end_inc(alloc), "Some([4, 5])");
    gives(&rt, alloc, region.to_ranges(alloc), "[1..5, 2..6]");
}
