//! How many threads a codec can use well.

ghost use Rattle.std.specs.Prelude.{◌≡◌};
ghost use Rattle.std.specs.Range.Bound.{bound_map};
ghost use Rattle.std.specs.declared.ops.Bound.TheVariants.{Included, Excluded, Unbounded};
ghost use Rattle.zarrs_codec_error.specs.RecommendedConcurrency.{start_of, bound_end, concurrency_of};

use std::ops::{Bound, RangeBounds};

/// A range of how many threads a codec can use well: the least number, and the one past the greatest.
#[derive(Clone, Copy, Debug)]
pub struct RecommendedConcurrency {
    minimum: usize,
    maximum: usize,
}

impl RecommendedConcurrency {
    /// The concurrency of a range. A number that would be 0 is 1.
    pub fn new<R: RangeBounds<usize>>(range: R) -> Self
        ensures { R.has_bounds range
            → result ≡ concurrency_of (R.start_bound range) (R.end_bound range) }
    {
        RecommendedConcurrency {
            minimum: start_of(range.start_bound()).max(1),
            maximum: end_of(range.end_bound()).max(1),
        }
    }

    /// The concurrency from a number on.
    pub fn new_minimum(minimum: usize) -> Self
        ensures { result ≡ concurrency_of (Included minimum) Unbounded }
    {
        Self::new(minimum..)
    }

    /// The concurrency up to a number.
    pub fn new_maximum(maximum: usize) -> Self
        ensures { result ≡ concurrency_of Unbounded (Excluded maximum) }
    {
        Self::new(..maximum)
    }

    /// The least number.
    pub fn min(&self) -> usize
        ensures { result ≡ self.now.minimum }
    {
        self.minimum
    }

    /// The number at which the range ends.
    pub fn max(&self) -> usize
        ensures { result ≡ self.now.maximum }
    {
        self.maximum
    }
}

// Where a range begins.
fn start_of(bound: Bound<&usize>) -> usize
    ensures { result ≡ start_of (bound_map (λ x. x.now) bound.entry) }
{
    match bound {
        Bound::Included(start) => *start,
        Bound::Excluded(start) => start.saturating_add(1),
        Bound::Unbounded => 0,
    }
}

// The number past the last one of a range.
fn end_of(bound: Bound<&usize>) -> usize
    ensures { result ≡ bound_end (bound_map (λ x. x.now) bound.entry) }
{
    match bound {
        Bound::Included(end) => end.saturating_add(1),
        Bound::Excluded(end) => *end,
        Bound::Unbounded => usize::MAX,
    }
}
