//! What ranges are as a subset, told without making one.

ghost use Rattle.std.specs.Prelude.{◌-◌, map, ◌≡◌, ◌<◌, ◌^◌, IfOk, nat_eq};
ghost use Rattle.std.specs.Option.{SomeIff};
ghost use Rattle.zarr_model.specs.Region.{count, sizes};
ghost use Rattle.zarrs_array_subset.specs.Boxes.{region_of_ranges};
ghost use Rattle.zarrs_chunk_grid_indexer.specs.RangeTests.{some_is_empty};

use std::alloc::{AllocError, Global};
use std::ops::Range;

// The lengths.
#[tactic(auto, using(crate::proofs::Ranges::of_lists))]
pub(crate) fn lengths_of(alloc: Global, ranges: &[Range<u64>]) -> Result<Vec<u64>, AllocError>
    ensures { IfOk result (λ v. v.items ≡ sizes (region_of_ranges ranges.now)) }
{
    let lengths = list_lengths(alloc, ranges)?;
    Ok(lengths)
}

fn list_lengths(alloc: Global, ranges: &[Range<u64>]) -> Result<Vec<u64>, AllocError>
    ensures { IfOk result (λ v. v.items ≡ map (λ range. range.end - range.start) ranges.now) }
{
    ranges
        .iter()
        .map(|range| range.end.saturating_sub(range.start))
        .collect(alloc)
}

// The number of tuples; none exactly where it passes `u64`.
#[tactic(auto, using(zarrs_array_subset::proofs::BoxLaws::of_products))]
pub(crate) fn count_of_ranges(ranges: &[Range<u64>]) -> Option<u64>
    ensures { SomeIff result (count (region_of_ranges ranges.now) < 2 ^ 64)
        (count (region_of_ranges ranges.now)) }
{
    match ranges {
        [] => Some(1),
        [first, rest @ ..] => {
            let length = first.end.saturating_sub(first.start);
            if length == 0 {
                return Some(0);
            }
            let count = count_of_ranges(rest)?;
            length.checked_mul(count)
        }
    }
}

// The number of tuples.
pub(crate) fn num_of_ranges(ranges: &[Range<u64>]) -> u64
    requires { count (region_of_ranges ranges.now) < 2 ^ 64 }
    ensures { result ≡ count (region_of_ranges ranges.now) }
{
    match count_of_ranges(ranges) {
        Some(count) => count,
        None => unreachable!(),
    }
}

#[tactic(auto, unfolding(crate::specs::RangeTests::some_is_empty))]
fn has_empty(ranges: &[Range<u64>]) -> bool
    ensures { result ≡ some_is_empty ranges.now }
{
    ranges.iter().any(|range| range.end <= range.start)
}

// Whether a range is empty.
#[tactic(auto, using(crate::proofs::Ranges::of_empty))]
pub(crate) fn is_empty(ranges: &[Range<u64>]) -> bool
    ensures { result ≡ nat_eq (count (region_of_ranges ranges.now)) 0 }
{
    has_empty(ranges)
}
