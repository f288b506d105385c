//! The part that two array subsets share.

ghost use Rattle.std.specs.Prelude.{◌≡◌, ◌≢◌, ◌⊎◌, IfOk, IfErr, length};
ghost use Rattle.zarr_model.specs.Region.{overlap_of, part_of_box};

use super::ArraySubset;
use super::numbers::{differences, greater, shared_lengths};
use crate::error::ArraySubsetError;
use std::alloc::{AllocError, Global};

impl ArraySubset {
    ghost use Rattle.zarrs_array_subset.specs.ArraySubset.{region};

    /// The part that both subsets share, which may be empty.
    ///
    /// # Errors
    /// [`ArraySubsetError`] where they have another dimensionality, or there is not enough memory.
    #[tactic(auto, using(crate::proofs::BoxLaws::of_boxes))]
    pub fn overlap(
        &self,
        alloc: Global,
        other: &ArraySubset,
    ) -> Result<ArraySubset, ArraySubsetError>
        ensures ok { IfOk result (λ s. (length (region self.now) ≡ length (region other.now))
            × (region s ≡ overlap_of (region self.now) (region other.now))) }
        ensures refused { IfErr result (λ e. (e ≡ ArraySubsetError.OutOfMemory)
            ⊎ ((e ≡ ArraySubsetError.IncompatibleDimensionality (length (region other.now))
            (length (region self.now)))
            × (length (region self.now) ≢ length (region other.now)))) }
    {
        let (got, expected) = (other.dimensionality(), self.dimensionality());
        if got != expected {
            return Err(ArraySubsetError::IncompatibleDimensionality { got, expected });
        }
        let part = self.shared_part(alloc, other)?;
        Ok(part)
    }

    /// The part that it shares with another subset of its rank. Nothing is made but its start and its lengths.
    ///
    /// # Errors
    /// [`AllocError`] where memory runs out.
    #[tactic(auto, using(crate::proofs::PartLaws::of_parts))]
    pub fn shared_part(&self, alloc: Global, other: &ArraySubset) -> Result<ArraySubset, AllocError>
        requires { length (region self.now) ≡ length (region other.now) }
        ensures { IfOk result (λ s. region s ≡ overlap_of (region self.now) (region other.now)) }
    {
        let start = greater(alloc, &self.start, &other.start)?;
        let shape = shared_lengths(alloc, &self.start, &self.shape, &other.start, &other.shape)?;
        Ok(ArraySubset { start, shape })
    }

    /// The same part by its place in the other subset.
    ///
    /// # Errors
    /// [`AllocError`] where memory runs out.
    #[tactic(auto, using(crate::proofs::PartLaws::of_parts))]
    pub fn part_of_box(&self, alloc: Global, other: &ArraySubset) -> Result<ArraySubset, AllocError>
        requires { length (region self.now) ≡ length (region other.now) }
        ensures { IfOk result (λ s. region s ≡ part_of_box (region self.now) (region other.now)) }
    {
        let start = differences(alloc, &self.start, &other.start)?;
        let shape = shared_lengths(alloc, &self.start, &self.shape, &other.start, &other.shape)?;
        Ok(ArraySubset { start, shape })
    }
}
