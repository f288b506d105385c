//! The linear indices of an array subset inside an array's shape.

ghost use Rattle.std.specs.Prelude.{◌≡◌, ◌<◌, ◌≤◌, ◌+◌, ◌-◌, ◌^◌, true, length, Some, IfOk, IfErr, IfSome, IsTrue, nat_eq};
ghost use Rattle.std.specs.Iterator.{YieldsFirst, YieldsLast, item_count, UpTo};
ghost use Rattle.std.specs.Iterator.SizeHint.{IsWithinCount};
ghost use Rattle.zarr_model.specs.Region.{count, count_of, ends_within};
ghost use Rattle.zarr_model.specs.Cover.{linear_indices};
ghost use Rattle.zarrs_array_subset.specs.ArraySubset.{region};
ghost use Rattle.zarrs_array_subset.specs.Errors.{RefusesShape};
ghost use Rattle.zarrs_chunk_grid_iterators.specs.Places.{linear_at, PlacesRise};

use crate::places::Places;
use crate::rows::{Row, row_of_place};
use std::alloc::Global;
use zarrs_array_subset::{ArrayShape, ArraySubset, IndexerError};

/// The linear indices of an array subset, the last dimension fastest.
///
/// In a 4x3 array with the linear indices
/// ```text
/// 0   1   2
/// 3   4   5
/// 6   7   8
/// 9  10  11
/// ```
/// the lower right 2x2 subset has 7, 8, 10, 11.
#[derive(Drop)]
pub struct LinearisedIndices {
    subset: ArraySubset,
    array_shape: ArrayShape,
    total: u64,
    ghost inside: { IsTrue (ends_within (region subset) array_shape.items) },
    ghost small: { count_of array_shape.items < 2 ^ 64 },
    ghost whole: { total ≡ count (region subset) },
}

#[tactic(auto, using(crate::proofs::Linears::of_new))]
impl LinearisedIndices {
    ghost use Rattle.zarrs_chunk_grid_iterators.specs.Iterators.{linear_of, linear_lent};

    /// The linear indices of a subset that lies in the shape.
    ///
    /// # Errors
    /// [`IndexerError`] of another dimensionality than the shape's, or else of an end past it, or where
    /// there is not enough memory.
    pub fn new(
        alloc: Global,
        subset: ArraySubset,
        array_shape: ArrayShape,
    ) -> Result<Self, IndexerError>
        requires { count_of array_shape.items < 2 ^ 64 }
        ensures inside { IfOk result (λ it. ends_within (region subset) array_shape.items ≡ true) }
        ensures lists { IfOk result
            (λ it. linear_of it ≡ linear_indices array_shape.items (region subset)) }
        ensures refused { IfErr result (RefusesShape (region subset) array_shape.items) }
    {
        let (got, expected) = (subset.dimensionality(), array_shape.len());
        if got != expected {
            return Err(IndexerError::new_incompatible_dimensionality(got, expected));
        }
        if !subset.inbounds_shape(&array_shape) {
            return Err(IndexerError::OutOfBounds(subset.end_exc(alloc)?, array_shape));
        }
        Ok(Self::new_unchecked(subset, array_shape))
    }

    /// The linear indices of a subset that is known to lie in the shape.
    pub fn new_unchecked(subset: ArraySubset, array_shape: ArrayShape) -> Self
        requires small { count_of array_shape.items < 2 ^ 64 }
        requires inside { ends_within (region subset) array_shape.items ≡ true }
        ensures { linear_of result ≡ linear_indices array_shape.items (region subset) }
    {
        let total = subset.num_elements();
        LinearisedIndices {
            subset,
            array_shape,
            total,
        }
    }

    /// The number of indices.
    #[tactic(auto, using(crate::proofs::Lefts::of_places))]
    pub fn len(&self) -> usize
        ensures { result ≡ length (linear_of self.now) }
    {
        self.total as usize
    }

    /// Whether there is no index.
    pub fn is_empty(&self) -> bool
        ensures { result ≡ nat_eq (length (linear_of self.now)) 0 }
    {
        self.len() == 0
    }

    /// The linear indices, from both ends.
    pub fn iter(&self) -> LinearisedIndicesIterator<'_>
        ensures { linear_lent result ≡ linear_of self.now }
    {
        LinearisedIndicesIterator {
            indices: self,
            left: Places {
                start: 0,
                end: self.total,
            },
            row: Row::NONE,
        }
    }

    // The linear index at a place.
    fn at(&self, place: u64) -> u64
        requires { place < self.now.total }
        ensures { result ≡ linear_at self.now.array_shape.items (region self.now.subset) place }
    {
        self.row_at(place).index
    }

    // The row from a place on.
    #[tactic(auto, using(crate::proofs::Lefts::of_parts))]
    fn row_at(&self, place: u64) -> Row
        requires { place < self.now.total }
        ensures index { result.index
            ≡ linear_at self.now.array_shape.items (region self.now.subset) place }
        ensures rises { PlacesRise self.now.array_shape.items (region self.now.subset) (place + 1)
            result.index result.step result.left }
    {
        let (start, shape) = (self.subset.start(), self.subset.shape());
        let (row, _) = row_of_place(start, shape, &self.array_shape, place, self.total);
        row
    }

    // The row from a place on, of the row from the place before it on, by adding as long as that is in
    // the row.
    #[tactic(auto, using(crate::proofs::RowLaws::of_next))]
    fn row_after(&self, row: Row, place: u64) -> Row
        requires below { place < self.now.total }
        requires rises { PlacesRise self.now.array_shape.items (region self.now.subset) place
            row.index row.step row.left }
        ensures index { result.index
            ≡ linear_at self.now.array_shape.items (region self.now.subset) place }
        ensures rises { PlacesRise self.now.array_shape.items (region self.now.subset) (place + 1)
            result.index result.step result.left }
    {
        if row.left == 0 {
            return self.row_at(place);
        }
        Row {
            index: row.index + row.step,
            step: row.step,
            left: row.left - 1,
        }
    }
}

impl IntoIterator for LinearisedIndices {
    ghost use Rattle.zarrs_chunk_grid_iterators.specs.Iterators.{linear_of, linear_left};

    type Item = u64;

    type IntoIter = LinearisedIndicesIntoIterator;

    ghost into_iter_gives = { λ s it. linear_left it ≡ linear_of s };

    fn into_iter(self) -> LinearisedIndicesIntoIterator {
        let end = self.total;
        LinearisedIndicesIntoIterator {
            indices: self,
            left: Places { start: 0, end },
            row: Row::NONE,
        }
    }
}

impl<'a> IntoIterator for &'a LinearisedIndices {
    ghost use Rattle.zarrs_chunk_grid_iterators.specs.Iterators.{linear_of, linear_lent};

    type Item = u64;

    type IntoIter = LinearisedIndicesIterator<'a>;

    ghost into_iter_gives = { λ s it. linear_lent it ≡ linear_of s.now };

    fn into_iter(self) -> LinearisedIndicesIterator<'a> {
        self.iter()
    }
}

/// The linear indices of a subset that are left.
#[derive(Drop)]
pub struct LinearisedIndicesIterator<'a> {
    indices: &'a LinearisedIndices,
    left: Places,
    row: Row,
    ghost within: { left.end ≤ indices.now.total },
    ghost rises: { PlacesRise indices.now.array_shape.items (region indices.now.subset) left.start
        row.index row.step row.left },
}

#[tactic(auto, using(crate::proofs::Lefts::of_places))]
impl Iterator for LinearisedIndicesIterator<'_> {
    ghost use Rattle.zarrs_chunk_grid_iterators.specs.Iterators.{linear_lent};

    type Item = u64;

    ghost next_gives = { YieldsFirst linear_lent };

    ghost remaining = { item_count linear_lent };

    fn next(&mut self) -> Option<u64> {
        let place = self.left.next()?;
        self.row = self.indices.row_after(self.row, place);
        Some(self.row.index)
    }

    fn size_hint(&self) -> (usize, Option<usize>)
        ensures lower { IsWithinCount result.0 (item_count linear_lent self.now) }
        ensures upper { IfSome result.1 (UpTo (item_count linear_lent self.now)) }
        ensures exact { result.0 ≡ length (linear_lent self.now) }
        ensures told { result.1 ≡ Some (length (linear_lent self.now)) }
    {
        let left = self.left.len();
        (left, Some(left))
    }
}

#[tactic(auto, using(crate::proofs::Lefts::of_places))]
impl DoubleEndedIterator for LinearisedIndicesIterator<'_> {
    ghost use Rattle.zarrs_chunk_grid_iterators.specs.Iterators.{linear_lent};

    ghost next_back_gives = { YieldsLast linear_lent };

    fn next_back(&mut self) -> Option<u64> {
        let place = self.left.next_back()?;
        Some(self.indices.at(place))
    }
}

#[tactic(auto, using(crate::proofs::Lefts::of_places))]
impl ExactSizeIterator for LinearisedIndicesIterator<'_> {
    fn len(&self) -> usize {
        self.left.len()
    }
}

/// The linear indices of a subset that are left, with the subset.
#[derive(Drop)]
pub struct LinearisedIndicesIntoIterator {
    indices: LinearisedIndices,
    left: Places,
    row: Row,
    ghost within: { left.end ≤ indices.total },
    ghost rises: { PlacesRise indices.array_shape.items (region indices.subset) left.start
        row.index row.step row.left },
}

#[tactic(auto, using(crate::proofs::Lefts::of_places))]
impl Iterator for LinearisedIndicesIntoIterator {
    ghost use Rattle.zarrs_chunk_grid_iterators.specs.Iterators.{linear_left};

    type Item = u64;

    ghost next_gives = { YieldsFirst linear_left };

    ghost remaining = { item_count linear_left };

    fn next(&mut self) -> Option<u64> {
        let place = self.left.next()?;
        self.row = self.indices.row_after(self.row, place);
        Some(self.row.index)
    }

    fn size_hint(&self) -> (usize, Option<usize>)
        ensures lower { IsWithinCount result.0 (item_count linear_left self.now) }
        ensures upper { IfSome result.1 (UpTo (item_count linear_left self.now)) }
        ensures exact { result.0 ≡ length (linear_left self.now) }
        ensures told { result.1 ≡ Some (length (linear_left self.now)) }
    {
        let left = self.left.len();
        (left, Some(left))
    }
}

#[tactic(auto, using(crate::proofs::Lefts::of_places))]
impl DoubleEndedIterator for LinearisedIndicesIntoIterator {
    ghost use Rattle.zarrs_chunk_grid_iterators.specs.Iterators.{linear_left};

    ghost next_back_gives = { YieldsLast linear_left };

    fn next_back(&mut self) -> Option<u64> {
        let place = self.left.next_back()?;
        Some(self.indices.at(place))
    }
}

#[tactic(auto, using(crate::proofs::Lefts::of_places))]
impl ExactSizeIterator for LinearisedIndicesIntoIterator {
    fn len(&self) -> usize {
        self.left.len()
    }
}
