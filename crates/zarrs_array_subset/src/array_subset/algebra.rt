//! What array subsets contain, and are when moved or cut.

ghost use Rattle.std.specs.Prelude.{IsTrue, ◌↔◌, true, false, ◌≡◌, ◌≢◌, IfOk, IfErr, length};
ghost use Rattle.zarr_model.specs.Region.{ends_within};
ghost use Rattle.zarrs_array_subset.specs.Boxes.{contains_front, is_within, cut_at, moved, moved_back, starts_past, ends_fit};

use super::ArraySubset;
use super::numbers::{
    are_boxes_within, are_ends_within, are_within, differences, is_below, lesser, may_move, sums,
};
use crate::error::ArraySubsetError;
use std::alloc::Global;

impl ArraySubset {
    ghost use Rattle.zarrs_array_subset.specs.ArraySubset.{region};
    ghost use Rattle.zarrs_array_subset.specs.Errors.{RefusesEnd, RefusesOffset};

    /// Whether the subset has this shape's rank and ends within it in each dimension.
    #[tactic(auto, using(crate::proofs::BoxLaws::of_tests))]
    pub fn inbounds_shape(&self, array_shape: &[u64]) -> bool
        ensures { result ≡ ends_within (region self.now) array_shape.now }
    {
        self.start.len() == array_shape.len()
            && are_ends_within(&self.start, &self.shape, array_shape)
    }

    /// Whether each index is in the subset's dimension of its place, as far as both go.
    #[tactic(auto, using(crate::proofs::BoxLaws::of_tests))]
    pub fn contains(&self, indices: &[u64]) -> bool
        ensures { result ≡ contains_front (region self.now) indices.now }
    {
        are_within(&self.start, &self.shape, indices)
    }

    /// Whether both are one subset.
    pub fn equals_subset(&self, other: &ArraySubset) -> bool
        ensures { IsTrue result ↔ (region self.now ≡ region other.now) }
    {
        are_same(self, other)
    }

    /// Whether the subset is within another one of its rank in each dimension.
    #[tactic(auto, using(crate::proofs::BoxLaws::of_within))]
    pub fn inbounds(&self, other: &ArraySubset) -> bool
        ensures { result ≡ is_within (region self.now) (region other.now) }
    {
        self.start.len() == other.start.len()
            && are_boxes_within(&self.start, &self.shape, &other.start, &other.shape)
    }

    /// The subset with `offset` taken off its start.
    ///
    /// # Errors
    /// [`ArraySubsetError`] where `offset` has another dimensionality or is past the start, or there is
    /// not enough memory.
    #[tactic(auto, using(crate::proofs::BoxLaws::of_moves))]
    pub fn relative_to(
        &self,
        alloc: Global,
        offset: &[u64],
    ) -> Result<ArraySubset, ArraySubsetError>
        ensures ok { IfOk result (λ s. (starts_past (region self.now) offset.now ≡ true)
            × (region s ≡ moved_back (region self.now) offset.now)) }
        ensures refused { IfErr result
            (RefusesOffset (starts_past (region self.now) offset.now)
            (region self.now) offset.now) }
    {
        if offset.len() != self.start.len() || !is_below(offset, &self.start) {
            return Err(self.refused_offset(alloc, offset));
        }
        let start = differences(alloc, &self.start, offset)?;
        let shape = self.shape.as_slice().to_vec(alloc)?;
        Ok(ArraySubset { start, shape })
    }

    /// The subset with `offset` added to its start.
    ///
    /// # Errors
    /// [`ArraySubsetError`] where `offset` has another dimensionality or leads an end past `u64`, or
    /// there is not enough memory.
    #[tactic(auto, using(crate::proofs::BoxLaws::of_offsets))]
    pub fn offset(&self, alloc: Global, offset: &[u64]) -> Result<ArraySubset, ArraySubsetError>
        ensures ok { IfOk result (λ s. (ends_fit (region self.now) offset.now ≡ true)
            × (region s ≡ moved (region self.now) offset.now)) }
        ensures refused { IfErr result
            (RefusesOffset (ends_fit (region self.now) offset.now) (region self.now) offset.now) }
    {
        if offset.len() != self.start.len() || !may_move(&self.start, &self.shape, offset) {
            return Err(self.refused_offset(alloc, offset));
        }
        let start = sums(alloc, &self.start, offset)?;
        let shape = self.shape.as_slice().to_vec(alloc)?;
        Ok(ArraySubset { start, shape })
    }

    // The error that names both.
    #[tactic(auto, using(crate::proofs::BoxLaws::of_boxes))]
    fn refused_offset(&self, alloc: Global, offset: &[u64]) -> ArraySubsetError
        ensures { RefusesOffset false (region self.now) offset.now result }
    {
        let Ok(start) = self.start.as_slice().to_vec(alloc) else {
            return ArraySubsetError::OutOfMemory;
        };
        let Ok(offset) = offset.to_vec(alloc) else {
            return ArraySubsetError::OutOfMemory;
        };
        ArraySubsetError::IncompatibleOffset { start, offset }
    }

    /// The subset with its start and its end cut at `end`.
    ///
    /// # Errors
    /// [`ArraySubsetError`] where `end` has another dimensionality, or there is not enough memory.
    #[tactic(auto, using(crate::proofs::BoxLaws::of_cuts))]
    pub fn bound(&self, alloc: Global, end: &[u64]) -> Result<ArraySubset, ArraySubsetError>
        ensures ok { IfOk result (λ s. (length (region self.now) ≡ length end.now)
            × (region s ≡ cut_at (region self.now) end.now)) }
        ensures refused { IfErr result (RefusesEnd (region self.now) end.now) }
    {
        if end.len() != self.dimensionality() {
            return Err(self.refused_end(alloc, end));
        }
        let start = lesser(alloc, &self.start, end)?;
        let end = lesser(alloc, &self.end_exc(alloc)?, end)?;
        let shape = differences(alloc, &end, &start)?;
        Ok(ArraySubset { start, shape })
    }

    // The error that names both.
    #[tactic(auto, using(crate::proofs::BoxLaws::of_boxes))]
    fn refused_end(&self, alloc: Global, end: &[u64]) -> ArraySubsetError
        requires { length (region self.now) ≢ length end.now }
        ensures { RefusesEnd (region self.now) end.now result }
    {
        let Ok(start) = self.start.as_slice().to_vec(alloc) else {
            return ArraySubsetError::OutOfMemory;
        };
        let Ok(end) = end.to_vec(alloc) else {
            return ArraySubsetError::OutOfMemory;
        };
        ArraySubsetError::IncompatibleStartEnd {
            start,
            end,
            inclusive: false,
        }
    }
}

// Whether two subsets have the same starts and the same lengths.
fn are_same(a: &ArraySubset, b: &ArraySubset) -> bool
    ensures { IsTrue result ↔
        ((a.now.start.items ≡ b.now.start.items) × (a.now.shape.items ≡ b.now.shape.items)) }
{
    *a == *b
}
