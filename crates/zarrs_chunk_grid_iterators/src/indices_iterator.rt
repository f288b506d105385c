//! The indices of an array subset.

ghost use Rattle.std.specs.Prelude.{◌≡◌, ◌<◌, ◌≤◌, ◌-◌, ◌^◌, length, Some, IfOk, IfSome, IsOk, nat_eq};
ghost use Rattle.std.specs.Iterator.{item_count, UpTo};
ghost use Rattle.std.specs.Iterator.SizeHint.{IsWithinCount};
ghost use Rattle.std.specs.Range.Bound.{bound_map};
ghost use Rattle.zarr_model.specs.Region.{count, tuple_at, tuples};
ghost use Rattle.zarrs_array_subset.specs.ArraySubset.{region};
ghost use Rattle.zarrs_chunk_grid_iterators.specs.Places.{IsTuple, YieldsOne, YieldsOneBack, end_place, first_place};

use crate::places::Places;
use smallvec::SmallVec;
use std::alloc::{AllocError, Global};
use std::ops::{Bound, RangeBounds};
use zarrs_array_subset::{ArrayIndicesTinyVec, ArraySubset, push_tuple};

/// The indices of an array subset, the last dimension fastest.
///
/// Of a 4x3 array with the indices
/// ```text
/// (0, 0)  (0, 1)  (0, 2)
/// (1, 0)  (1, 1)  (1, 2)
/// (2, 0)  (2, 1)  (2, 2)
/// (3, 0)  (3, 1)  (3, 2)
/// ```
/// the lower right 2x2 subset has (2, 1), (2, 2), (3, 1), (3, 2).
#[derive(Drop)]
pub struct Indices {
    subset: ArraySubset,
    total: u64,
    left: Places,
    ghost whole: { total ≡ count (region subset) },
    ghost within: { left.end ≤ total },
}

#[tactic(auto, using(crate::proofs::Linears::of_all))]
impl Indices {
    ghost use Rattle.zarrs_chunk_grid_iterators.specs.Iterators.{tuples_of, tuples_lent, indices_of};

    /// All indices of a subset.
    pub fn new(subset: ArraySubset) -> Self
        requires { count (region subset) < 2 ^ 64 }
        ensures { tuples_of result ≡ tuples (region subset) }
    {
        let total = subset.num_elements();
        Indices {
            subset,
            total,
            left: Places {
                start: 0,
                end: total,
            },
        }
    }

    /// The indices at a range of places of the subset's list. An end past the list is its end.
    pub fn new_with_start_end<R: RangeBounds<usize>>(subset: ArraySubset, range: R) -> Self
        requires { count (region subset) < 2 ^ 64 }
        ensures lists { R.has_bounds range
            → tuples_of result ≡ indices_of (region subset) (first_place (R.start_bound range))
            (end_place (R.end_bound range) (count (region subset))) }
        ensures start { R.has_bounds range → result.left.start ≡ first_place (R.start_bound range) }
        ensures end { R.has_bounds range
            → result.left.end ≡ end_place (R.end_bound range) (count (region subset)) }
    {
        let total = subset.num_elements();
        let start = first_of(range.start_bound());
        let end = end_of(range.end_bound(), total);
        Indices {
            subset,
            total,
            left: Places { start, end },
        }
    }

    /// The number of indices.
    #[tactic(auto, using(crate::proofs::Lefts::of_places))]
    pub fn len(&self) -> usize
        ensures { result ≡ length (tuples_of self.now) }
    {
        self.left.len()
    }

    /// Whether there is no index.
    pub fn is_empty(&self) -> bool
        ensures { result ≡ nat_eq (length (tuples_of self.now)) 0 }
    {
        self.len() == 0
    }

    /// The indices, from both ends.
    pub fn iter(&self) -> IndicesIterator<'_>
        ensures { tuples_lent result ≡ tuples_of self.now }
    {
        IndicesIterator {
            indices: self,
            left: self.left,
        }
    }

    // The tuple at a place.
    fn at(&self, place: u64) -> Result<ArrayIndicesTinyVec, AllocError>
        requires { place < self.now.total }
        ensures { IsTuple (tuple_at (region self.now.subset) place) result }
    {
        tuple_of_place(self.subset.allocator(), &self.subset, place, self.total)
    }
}

// The first place of a range.
fn first_of(bound: Bound<&usize>) -> u64
    ensures { result ≡ first_place (bound_map (λ x. x.now) bound.entry) }
{
    match bound {
        Bound::Included(start) => *start as u64,
        Bound::Excluded(start) => start.saturating_add(1) as u64,
        Bound::Unbounded => 0,
    }
}

// The place past a range's last one, within this many.
fn end_of(bound: Bound<&usize>, total: u64) -> u64
    ensures { result ≡ end_place (bound_map (λ x. x.now) bound.entry) total }
{
    match bound {
        Bound::Included(end) => (end.saturating_add(1) as u64).min(total),
        Bound::Excluded(end) => (*end as u64).min(total),
        Bound::Unbounded => total,
    }
}

// The tuple at a place of a subset's list, which has this many.
#[tactic(auto, using(crate::proofs::Lefts::of_tuple))]
fn tuple_of_place(
    alloc: Global,
    subset: &ArraySubset,
    place: u64,
    total: u64,
) -> Result<ArrayIndicesTinyVec, AllocError>
    requires whole { total ≡ count (region subset.now) }
    requires below { place < total }
    ensures tuple { IfOk result (λ v. v.items ≡ tuple_at (region subset.now) place) }
    ensures inline { length (tuple_at (region subset.now) place) ≤ 4 → IsOk result }
{
    let mut tuple = SmallVec::new(alloc);
    push_tuple(&mut tuple, subset.start(), subset.shape(), place, total)?;
    Ok(tuple)
}

impl IntoIterator for Indices {
    ghost use Rattle.zarrs_chunk_grid_iterators.specs.Iterators.{tuples_of, tuples_left};

    type Item = Result<ArrayIndicesTinyVec, AllocError>;

    type IntoIter = IndicesIntoIterator;

    ghost into_iter_gives = { λ s it. tuples_left it ≡ tuples_of s };

    fn into_iter(self) -> IndicesIntoIterator {
        let left = self.left;
        IndicesIntoIterator {
            indices: self,
            left,
        }
    }
}

impl<'a> IntoIterator for &'a Indices {
    ghost use Rattle.zarrs_chunk_grid_iterators.specs.Iterators.{tuples_of, tuples_lent};

    type Item = Result<ArrayIndicesTinyVec, AllocError>;

    type IntoIter = IndicesIterator<'a>;

    ghost into_iter_gives = { λ s it. tuples_lent it ≡ tuples_of s.now };

    fn into_iter(self) -> IndicesIterator<'a> {
        self.iter()
    }
}

/// The indices of a subset that are left.
#[derive(Drop)]
pub struct IndicesIterator<'a> {
    indices: &'a Indices,
    left: Places,
    ghost within: { left.end ≤ indices.now.total },
}

#[tactic(auto, using(crate::proofs::Lefts::of_places))]
impl Iterator for IndicesIterator<'_> {
    ghost use Rattle.zarrs_chunk_grid_iterators.specs.Iterators.{tuples_lent, first_lent};

    type Item = Result<ArrayIndicesTinyVec, AllocError>;

    ghost next_gives = { YieldsOne IsTuple tuples_lent first_lent };

    ghost remaining = { item_count tuples_lent };

    fn next(&mut self) -> Option<Result<ArrayIndicesTinyVec, AllocError>> {
        let place = self.left.next()?;
        Some(self.indices.at(place))
    }

    fn size_hint(&self) -> (usize, Option<usize>)
        ensures lower { IsWithinCount result.0 (item_count tuples_lent self.now) }
        ensures upper { IfSome result.1 (UpTo (item_count tuples_lent self.now)) }
        ensures exact { result.0 ≡ length (tuples_lent self.now) }
        ensures told { result.1 ≡ Some (length (tuples_lent self.now)) }
    {
        let left = self.left.len();
        (left, Some(left))
    }
}

#[tactic(auto, using(crate::proofs::Lefts::of_places))]
impl DoubleEndedIterator for IndicesIterator<'_> {
    ghost use Rattle.zarrs_chunk_grid_iterators.specs.Iterators.{tuples_lent, last_lent};

    ghost next_back_gives = { YieldsOneBack IsTuple tuples_lent last_lent };

    fn next_back(&mut self) -> Option<Result<ArrayIndicesTinyVec, AllocError>> {
        let place = self.left.next_back()?;
        Some(self.indices.at(place))
    }
}

#[tactic(auto, using(crate::proofs::Lefts::of_places))]
impl ExactSizeIterator for IndicesIterator<'_> {
    fn len(&self) -> usize {
        self.left.len()
    }
}

/// The indices of a subset that are left, with the subset.
#[derive(Drop)]
pub struct IndicesIntoIterator {
    indices: Indices,
    left: Places,
    ghost within: { left.end ≤ indices.total },
}

#[tactic(auto, using(crate::proofs::Lefts::of_places))]
impl Iterator for IndicesIntoIterator {
    ghost use Rattle.zarrs_chunk_grid_iterators.specs.Iterators.{tuples_left, first_left};

    type Item = Result<ArrayIndicesTinyVec, AllocError>;

    ghost next_gives = { YieldsOne IsTuple tuples_left first_left };

    ghost remaining = { item_count tuples_left };

    fn next(&mut self) -> Option<Result<ArrayIndicesTinyVec, AllocError>> {
        let place = self.left.next()?;
        Some(self.indices.at(place))
    }

    fn size_hint(&self) -> (usize, Option<usize>)
        ensures lower { IsWithinCount result.0 (item_count tuples_left self.now) }
        ensures upper { IfSome result.1 (UpTo (item_count tuples_left self.now)) }
        ensures exact { result.0 ≡ length (tuples_left self.now) }
        ensures told { result.1 ≡ Some (length (tuples_left self.now)) }
    {
        let left = self.left.len();
        (left, Some(left))
    }
}

#[tactic(auto, using(crate::proofs::Lefts::of_places))]
impl DoubleEndedIterator for IndicesIntoIterator {
    ghost use Rattle.zarrs_chunk_grid_iterators.specs.Iterators.{tuples_left, last_left};

    ghost next_back_gives = { YieldsOneBack IsTuple tuples_left last_left };

    fn next_back(&mut self) -> Option<Result<ArrayIndicesTinyVec, AllocError>> {
        let place = self.left.next_back()?;
        Some(self.indices.at(place))
    }
}

#[tactic(auto, using(crate::proofs::Lefts::of_places))]
impl ExactSizeIterator for IndicesIntoIterator {
    fn len(&self) -> usize {
        self.left.len()
    }
}
