//! How many elements array subsets have, and where they end.

ghost use Rattle.std.specs.Prelude.{◌≡◌, ◌<◌, ◌^◌, IfOk, IfSome, IfNone, ◌≢◌, map};
ghost use Rattle.std.specs.Option.{SomeIff};
ghost use Rattle.std.specs.Int.NonZero.{non_zero_u64_get};
ghost use Rattle.zarr_model.specs.Region.{sizes, count};
ghost use Rattle.zarrs_array_subset.specs.Boxes.{ends, last_indices, ranges_of};

use super::ArraySubset;
use super::numbers::{non_zeros, numbers_before, ranges_between, shape_product, sums, to_usizes};
use crate::error::ArrayIndices;
use std::alloc::{AllocError, Global};
use std::ops::Range;
use zarr_model::ChunkShape;

#[tactic(auto, using(crate::proofs::BoxLaws::of_boxes))]
impl ArraySubset {
    ghost use Rattle.zarrs_array_subset.specs.ArraySubset.{region};

    /// The number of elements; none exactly where it passes `u64`.
    pub fn checked_num_elements(&self) -> Option<u64>
        ensures { SomeIff result (count (region self.now) < 2 ^ 64) (count (region self.now)) }
    {
        shape_product(&self.shape)
    }

    /// The number of elements.
    pub fn num_elements(&self) -> u64
        requires { count (region self.now) < 2 ^ 64 }
        ensures { result ≡ count (region self.now) }
    {
        match self.checked_num_elements() {
            Some(n) => n,
            None => unreachable!(),
        }
    }

    /// The first index past the subset in each dimension.
    ///
    /// # Errors
    /// [`AllocError`] where memory runs out.
    pub fn end_exc(&self, alloc: Global) -> Result<ArrayIndices, AllocError>
        ensures ok { IfOk result (λ v. v.items ≡ ends (region self.now)) }
    {
        sums(alloc, &self.start, &self.shape)
    }

    /// The last index in each dimension; none exactly where the subset has no element in one.
    ///
    /// # Errors
    /// [`AllocError`] where memory runs out.
    #[tactic(auto, using(crate::proofs::BoxLaws::of_ends))]
    pub fn end_inc(&self, alloc: Global) -> Result<Option<ArrayIndices>, AllocError>
        ensures some { IfOk result (λ o. IfSome o (λ v. (count (region self.now) ≢ 0)
            × (v.items ≡ last_indices (region self.now)))) }
        ensures none { IfOk result (λ o. IfNone o (count (region self.now) ≡ 0)) }
    {
        if self.is_empty() {
            return Ok(None);
        }
        let end = numbers_before(alloc, &self.end_exc(alloc)?)?;
        Ok(Some(end))
    }

    /// The range of indices in each dimension.
    ///
    /// # Errors
    /// [`AllocError`] where memory runs out.
    #[tactic(auto, using(crate::proofs::BoxLaws::of_ends))]
    pub fn to_ranges(&self, alloc: Global) -> Result<Vec<Range<u64>>, AllocError>
        ensures ok { IfOk result (λ v. v.items ≡ ranges_of (region self.now)) }
    {
        ranges_between(alloc, &self.start, &self.end_exc(alloc)?)
    }

    /// The number of elements.
    pub fn num_elements_usize(&self) -> usize
        requires { count (region self.now) < 2 ^ 64 }
        ensures { result ≡ count (region self.now) }
    {
        self.num_elements() as usize
    }

    /// The shape as one of a chunk; none exactly where a length is 0.
    ///
    /// # Errors
    /// [`AllocError`] where memory runs out.
    pub fn chunk_shape(&self, alloc: Global) -> Result<Option<ChunkShape>, AllocError>
        ensures some { IfOk result
            (λ o. IfSome o (λ v. map non_zero_u64_get v.items ≡ sizes (region self.now))) }
        ensures none { IfOk result (λ o. IfNone o (count (region self.now) ≡ 0)) }
    {
        if self.is_empty() {
            return Ok(None);
        }
        non_zeros(alloc, &self.shape)
    }

    /// The shape, each length as a `usize`.
    ///
    /// # Errors
    /// [`AllocError`] where memory runs out.
    pub fn shape_usize(&self, alloc: Global) -> Result<Vec<usize>, AllocError>
        ensures ok { IfOk result (λ v. v.items ≡ sizes (region self.now)) }
    {
        to_usizes(alloc, &self.shape)
    }
}
