//! Each kind of indexer, through its bound.

ghost use Rattle.std.specs.Prelude.{◌*◌, ◌<◌, ◌^◌};
ghost use Rattle.zarr_model.specs.Region.{count_of};

use crate::regions::{are_regions, has_lengths};
use crate::texts::{gives, is_text};
use std::alloc::{AllocError, Global};
use std::ops::Range;
use std::process::Abort;
use std::test::Fail;
use zarrs_chunk_grid::{
    ArrayIndices, ArraySubset, ArraySubsetTraits, IndexSlice, Indexer, IndexerError, IndexerList,
    RangeSlice, append_contiguous_linearised_indices, append_linearised_indices, collect_indices,
};

// The texts of what an indexer lists: its indices, the shape of what it selects, its linear indices
// and runs in a 4x4 array, and what it is told to be as a subset.
#[derive(Drop)]
struct Listed {
    indices: &'static str,
    shape: &'static str,
    linear: &'static str,
    runs: &'static str,
    told: &'static str,
}

// Its linear indices in a 4x4 array.
fn linear<I: Indexer>(alloc: Global, indexer: &I) -> Result<Vec<u64>, IndexerError> {
    let mut gathered = Vec::new(alloc);
    match append_linearised_indices(&mut gathered, alloc, indexer, &[4, 4]) {
        Ok(()) => Ok(gathered),
        Err(error) => Err(error),
    }
}

// Its runs there.
fn runs<I: Indexer>(alloc: Global, indexer: &I) -> Result<Vec<(u64, u64)>, IndexerError> {
    let mut gathered = Vec::new(alloc);
    match append_contiguous_linearised_indices(&mut gathered, alloc, indexer, &[4, 4]) {
        Ok(()) => Ok(gathered),
        Err(error) => Err(error),
    }
}

// Its indices and the shape of what it selects, where their number fits.
fn has_indices<I: Indexer>(rt: &impl Abort, alloc: Global, indexer: &I, want: &Listed) {
    if indexer.checked_len().is_some() {
        gives(rt, alloc, collect_indices(alloc, indexer), want.indices);
        gives(rt, alloc, indexer.output_shape(alloc), want.shape);
    } else {
        assert!(rt; false, "too many");
    }
}

fn is<I: Indexer>(rt: &impl Abort, alloc: Global, indexer: &I, want: &Listed) {
    has_indices(rt, alloc, indexer, want);
    gives(rt, alloc, linear(alloc, indexer), want.linear);
    gives(rt, alloc, runs(alloc, indexer), want.runs);
    gives(rt, alloc, indexer.as_array_subset(alloc), want.told);
}

// The inner box.
fn is_inner<I: Indexer>(rt: &impl Abort, alloc: Global, indexer: &I, told: &'static str) {
    let want = Listed {
        indices: "[[1, 1], [1, 2], [2, 1], [2, 2]]",
        shape: "[2, 2]",
        linear: "[5, 6, 9, 10]",
        runs: "[(5, 2), (9, 2)]",
        told,
    };
    is(rt, alloc, indexer, &want);
}

fn are_inner(rt: &impl Abort, alloc: Global, inner: &ArraySubset, ranges: &Vec<Range<u64>>) {
    let told = "Some(ArraySubset { start: [1, 1], shape: [2, 2] })";
    is_inner(rt, alloc, inner, told);
    is_inner(rt, alloc, &[1..3, 1..3], told);
    is_inner(rt, alloc, ranges, "None");
    is_inner(rt, alloc, &RangeSlice::new(ranges), "None");
}

#[test]
fn boxes_and_ranges(rt: HostRuntime) -> Result<(), Fail> {
    let ranges = Vec::from_array(rt.alloc(), [1..3, 1..3])?;
    let inner = ranges.to_array_subset(rt.alloc())?;
    are_inner(&rt, rt.alloc(), &inner, &ranges);
    are_regions(&rt, rt.alloc(), &inner, &ranges);
    has_lengths(&rt, rt.alloc(), &inner);
    Ok(())
}

// The index tuples 1 2 and 0 3.
fn two_tuples(alloc: Global) -> Result<Vec<ArrayIndices>, AllocError> {
    let mut tuples = Vec::new(alloc);
    for tuple in [[1, 2], [0, 3]] {
        tuples.push(Vec::from_array(alloc, tuple)?)?;
    }
    Ok(tuples)
}

fn are_two<I: Indexer>(rt: &impl Abort, alloc: Global, indexer: &I) {
    let want = Listed {
        indices: "[[1, 2], [0, 3]]",
        shape: "[2]",
        linear: "[6, 3]",
        runs: "[(6, 1), (3, 1)]",
        told: "None",
    };
    is(rt, alloc, indexer, &want);
}

#[test]
fn lists_of_indices(rt: HostRuntime) -> Result<(), Fail> {
    let list = two_tuples(rt.alloc())?;
    are_two(&rt, rt.alloc(), &list);
    are_two(&rt, rt.alloc(), &IndexSlice::new(&list));
    Ok(())
}

// The list of two boxes.
fn is_list(rt: &impl Abort, alloc: Global, list: &IndexerList<[Range<u64>; 2]>) {
    let want = Listed {
        indices: "[[1, 1], [1, 2], [2, 1], [2, 2], [0, 0], [0, 1], [0, 2]]",
        shape: "[7]",
        linear: "[5, 6, 9, 10, 0, 1, 2]",
        runs: "[(5, 2), (9, 2), (0, 3)]",
        told: "None",
    };
    is(rt, alloc, list, &want);
}

#[test]
fn lists_of_boxes(rt: HostRuntime) -> Result<(), Fail> {
    let boxes = Vec::from_array(rt.alloc(), [[1..3, 1..3], [0..1, 0..3]])?;
    is_list(&rt, rt.alloc(), &IndexerList::new(boxes));
    Ok(())
}

// The number of runs of the inner box as ranges of bytes, the last one and the first, or why there are none.
fn byte_runs(alloc: Global, shape: &[u64], size: usize) -> Result<String, AllocError>
    requires elements { count_of shape.now < 2 ^ 64 }
    requires bytes { count_of shape.now * size < 2 ^ 64 }
{
    match [1..3, 1..3].iter_contiguous_byte_ranges(alloc, shape, size) {
        Ok(mut runs) => {
            let seen = (runs.size_hint(), runs.next_back(), runs.next());
            format!(in alloc; "{seen:?}")
        }
        Err(error) => format!(in alloc; "{error}"),
    }
}

#[test]
fn byte_ranges(rt: HostRuntime) {
    let alloc = rt.alloc();
    let two = "((2, Some(2)), Some(18..22), Some(10..14))";
    is_text(&rt, byte_runs(alloc, &[4, 4], 2), two);
    let one = "((2, Some(2)), Some(9..11), Some(5..7))";
    is_text(&rt, byte_runs(alloc, &[4, 4], 1), one);
    let refused = "indices [3, 3] are out of bounds of array shape [1, 1]";
    is_text(&rt, byte_runs(alloc, &[1, 1], 1), refused);
    let other = "got dimensionality 2, expected 1";
    is_text(&rt, byte_runs(alloc, &[4], 1), other);
}
