//! What ranges are as a region, told without making one.

ghost use Rattle.std.specs.Prelude.{◌-◌, ◌≡◌, ◌↔◌, IsTrue, IfOk};
ghost use Rattle.zarr_model.specs.Region.{ends_within, starts};
ghost use Rattle.zarrs_array_subset.specs.ArraySubset.{region};
ghost use Rattle.zarrs_array_subset.specs.Boxes.{contains_front, is_within, region_of_ranges};
ghost use Rattle.zarrs_chunk_grid_indexer.specs.RangeTests.{are_box, are_in_box, are_in_ranges, end_in_shape};

use std::alloc::{AllocError, Global};
use std::ops::Range;
use zarrs_array_subset::ArraySubset;

// The starts.
#[tactic(auto, using(crate::proofs::Ranges::of_starts))]
pub(crate) fn starts_of(alloc: Global, ranges: &[Range<u64>]) -> Result<Vec<u64>, AllocError>
    ensures { IfOk result (λ v. v.items ≡ starts (region_of_ranges ranges.now)) }
{
    let starts = zarrs_array_subset::starts_of(alloc, ranges)?;
    Ok(starts)
}

#[tactic(auto, unfolding(zarrs_chunk_grid_indexer::specs::RangeTests::are_in_ranges))]
fn have_indices(ranges: &[Range<u64>], indices: &[u64]) -> bool
    ensures { result ≡ are_in_ranges ranges.now indices.now }
{
    ranges
        .iter()
        .zip(indices)
        .all(|(range, i)| range.start <= *i && *i < range.end)
}

// Whether each index is in its range, as far as both lists go.
#[tactic(auto, using(crate::proofs::Ranges::of_tests))]
pub(crate) fn contain(ranges: &[Range<u64>], indices: &[u64]) -> bool
    ensures { result ≡ contains_front (region_of_ranges ranges.now) indices.now }
{
    have_indices(ranges, indices)
}

#[tactic(auto, unfolding(zarrs_chunk_grid_indexer::specs::RangeTests::end_in_shape))]
fn end_within(ranges: &[Range<u64>], shape: &[u64]) -> bool
    ensures { result ≡ end_in_shape ranges.now shape.now }
{
    ranges
        .iter()
        .zip(shape)
        .all(|(range, n)| range.start.max(range.end) <= *n)
}

// Whether the ranges end within a shape of their rank.
#[tactic(auto, using(crate::proofs::Ranges::of_tests))]
pub(crate) fn are_inbounds_shape(ranges: &[Range<u64>], shape: &[u64]) -> bool
    ensures { result ≡ ends_within (region_of_ranges ranges.now) shape.now }
{
    ranges.len() == shape.len() && end_within(ranges, shape)
}

#[tactic(auto, unfolding(zarrs_chunk_grid_indexer::specs::RangeTests::are_in_box))]
fn lie_in(ranges: &[Range<u64>], start: &[u64], shape: &[u64]) -> bool
    ensures { result ≡ are_in_box ranges.now start.now shape.now }
{
    ranges.iter().zip(start).zip(shape).all(|((range, s), n)| {
        *s <= range.start && range.start.max(range.end) <= s.saturating_add(*n)
    })
}

// Whether the ranges are within a subset of their rank.
#[tactic(auto, using(crate::proofs::Ranges::of_boxes))]
pub(crate) fn are_inbounds(ranges: &[Range<u64>], other: &ArraySubset) -> bool
    ensures { result ≡ is_within (region_of_ranges ranges.now) (region other.now) }
{
    ranges.len() == other.dimensionality() && lie_in(ranges, other.start(), other.shape())
}

#[tactic(auto, unfolding(zarrs_chunk_grid_indexer::specs::RangeTests::are_box))]
fn have_parts(ranges: &[Range<u64>], start: &[u64], shape: &[u64]) -> bool
    ensures { result ≡ are_box ranges.now start.now shape.now }
{
    ranges.iter().zip(start).zip(shape).all(|((range, s), n)| {
        range.start == *s && range.end.saturating_sub(range.start) == *n
    })
}

// Whether the ranges are a subset.
pub(crate) fn are_subset(ranges: &[Range<u64>], other: &ArraySubset) -> bool
    ensures { IsTrue result ↔ (region_of_ranges ranges.now ≡ region other.now) }
{
    ranges.len() == other.dimensionality() && have_parts(ranges, other.start(), other.shape())
}
