//! What becomes of subsets.

use crate::texts::is_text;
use std::alloc::{AllocError, Global};
use std::test::Fail;
use zarrs_chunk_grid::{ArraySubset, ArraySubsetError, ArraySubsetTraits};

type Made = Result<ArraySubset, ArraySubsetError>;

// What calls make of `[1..5, 2..6]`, and its text.
fn changed(alloc: Global, subset: &ArraySubset) -> [(Made, &'static str); 5] {
    [
        (subset.bound(alloc, &[3, 5]), "[1..3, 2..5]"),
        ([1..5, 2..6].offset(alloc, &[3, 5]), "[4..8, 7..11]"),
        ([1..5, 2..6].relative_to(alloc, &[1, 1]), "[0..4, 1..5]"),
        ([3..6, 4..7].overlap(alloc, subset), "[3..5, 4..6]"),
        (
            [1..5, 2..6].offset(alloc, &[1, 1, 1]),
            "start [1, 2] does not go with offset [1, 1, 1]",
        ),
    ]
}

// The text of a subset, or of a refusal.
fn text_of(alloc: Global, made: Made) -> Result<String, AllocError> {
    match made {
        Ok(subset) => format!(in alloc; "{subset}"),
        Err(error) => format!(in alloc; "{error}"),
    }
}

#[test]
fn subsets_are_changed(rt: HostRuntime) -> Result<(), Fail> {
    let subset = ArraySubset::new_with_ranges(rt.alloc(), &[1..5, 2..6])?;
    for (made, want) in changed(rt.alloc(), &subset) {
        is_text(&rt, text_of(rt.alloc(), made), want);
    }
    Ok(())
}
