//! An array subset: a start and a shape.

ghost use Rattle.std.specs.Prelude.{replicate, ◌≡◌, ◌<◌, IsTrue, IfOk, IfErr, true, false, length, nat_eq};
ghost use Rattle.zarr_model.specs.Region.{starts, sizes, whole, count};
ghost use Rattle.zarrs_array_subset.specs.Boxes.{is_box, is_rising, is_rising_inc, region_of, region_between, region_through, region_of_ranges};

mod algebra;
mod display;
mod extents;
mod numbers;
mod overlap;

use crate::error::{ArrayIndices, ArraySubsetError};
pub use numbers::{differences, ranges_between, shape_product, starts_of};
use numbers::{ends_of, fits, has_zero, no_lengths, rises, rises_inc, to_lengths, zeros};
use std::alloc::{AllocError, Global};
use std::ops::Range;
use zarr_model::ArrayShape;

/// A box of an array: a start and a length in each dimension, whose ends fit `u64`.
#[derive(PartialEq, Eq, PartialOrd, Ord, Hash, Debug, Drop)]
pub struct ArraySubset {
    start: Vec<u64>,
    shape: Vec<u64>,
    ghost is_box: { IsTrue (is_box start.items shape.items) },
}

#[tactic(auto, using(crate::proofs::BoxLaws::of_boxes))]
impl ArraySubset {
    ghost use Rattle.zarrs_array_subset.specs.ArraySubset.{region};

    /// The subset of these ranges. One whose end is below its start has length 0.
    ///
    /// # Errors
    /// [`AllocError`] where there is not enough memory.
    #[tactic(auto, using(crate::proofs::BoxLaws::of_ranges))]
    pub fn new_with_ranges(alloc: Global, ranges: &[Range<u64>]) -> Result<Self, AllocError>
        ensures ok { IfOk result (λ s. region s ≡ region_of_ranges ranges.now) }
    {
        let start = starts_of(alloc, ranges)?;
        let end = ends_of(alloc, ranges)?;
        Ok(Self::between(start, end))
    }

    // From each start to the end there, or of length 0. The lengths stand where the ends stood.
    #[tactic(auto, using(crate::proofs::Lengths::of_ends))]
    fn between(start: Vec<u64>, end: Vec<u64>) -> ArraySubset
        requires { length start.items ≡ length end.items }
        ensures { region result ≡ region_between start.items end.items }
    {
        let mut shape = end;
        to_lengths(&mut shape, &start, 0);
        ArraySubset { start, shape }
    }

    // From each start through the end there. The lengths stand where the ends stood.
    #[tactic(auto, using(crate::proofs::Lengths::of_ends))]
    fn through(start: Vec<u64>, end: Vec<u64>) -> ArraySubset
        requires { is_rising_inc start.items end.items ≡ true }
        ensures { region result ≡ region_through start.items end.items }
    {
        let mut shape = end;
        to_lengths(&mut shape, &start, 1);
        ArraySubset { start, shape }
    }

    /// All of an array of this shape.
    ///
    /// # Errors
    /// [`AllocError`] where there is not enough memory.
    #[tactic(auto, using(crate::proofs::BoxLaws::of_wholes))]
    pub fn new_with_shape(alloc: Global, shape: ArrayShape) -> Result<Self, AllocError>
        ensures ok { IfOk result (λ s. region s ≡ whole shape.items) }
    {
        let start = zeros(alloc, &shape)?;
        Ok(ArraySubset { start, shape })
    }

    /// The subset with this start and this shape.
    ///
    /// # Errors
    /// [`ArraySubsetError`] where the two have another dimensionality, or an end is past `u64`.
    pub fn new_with_start_shape(
        start: ArrayIndices,
        shape: ArrayShape,
    ) -> Result<Self, ArraySubsetError>
        ensures ok { IfOk result (λ s. (is_box start.items shape.items ≡ true)
            × (region s ≡ region_of start.items shape.items)) }
        ensures refused { IfErr result
            (λ e. (e ≡ ArraySubsetError.IncompatibleStartShape start shape)
            × (is_box start.items shape.items ≡ false)) }
    {
        if fits(&start, &shape) {
            Ok(ArraySubset { start, shape })
        } else {
            Err(ArraySubsetError::IncompatibleStartShape { start, shape })
        }
    }

    /// The subset of this dimensionality whose starts and lengths are all 0.
    ///
    /// # Errors
    /// [`AllocError`] where there is not enough memory.
    pub fn new_empty(alloc: Global, dimensionality: usize) -> Result<Self, AllocError>
        ensures ok { IfOk result (λ s. region s ≡ whole (replicate dimensionality 0)) }
    {
        let shape = no_lengths(alloc, dimensionality)?;
        Self::new_with_shape(alloc, shape)
    }

    /// From a start to an end that is not included.
    ///
    /// # Errors
    /// [`ArraySubsetError`] where the two have another dimensionality, or an end is below its start.
    #[tactic(auto, using(crate::proofs::BoxLaws::of_rising))]
    pub fn new_with_start_end_exc(
        start: ArrayIndices,
        end: ArrayIndices,
    ) -> Result<Self, ArraySubsetError>
        ensures ok { IfOk result (λ s. (is_rising start.items end.items ≡ true)
            × (region s ≡ region_between start.items end.items)) }
        ensures refused { IfErr result
            (λ e. (e ≡ ArraySubsetError.IncompatibleStartEnd start end false)
            × (is_rising start.items end.items ≡ false)) }
    {
        if !rises(&start, &end) {
            return Err(ArraySubsetError::IncompatibleStartEnd {
                start,
                end,
                inclusive: false,
            });
        }
        Ok(Self::between(start, end))
    }

    /// From a start to an end that is included.
    ///
    /// # Errors
    /// [`ArraySubsetError`] where the two have another dimensionality, an end is below its start, or
    /// an end is the greatest `u64`.
    #[tactic(auto, using(crate::proofs::BoxLaws::of_rising))]
    pub fn new_with_start_end_inc(
        start: ArrayIndices,
        end: ArrayIndices,
    ) -> Result<Self, ArraySubsetError>
        ensures ok { IfOk result (λ s. (is_rising_inc start.items end.items ≡ true)
            × (region s ≡ region_through start.items end.items)) }
        ensures refused { IfErr result
            (λ e. (e ≡ ArraySubsetError.IncompatibleStartEnd start end true)
            × (is_rising_inc start.items end.items ≡ false)) }
    {
        if !rises_inc(&start, &end) {
            return Err(ArraySubsetError::IncompatibleStartEnd {
                start,
                end,
                inclusive: true,
            });
        }
        Ok(Self::through(start, end))
    }

    /// Where the subset begins in each dimension.
    pub fn start(&self) -> &[u64]
        ensures { result.now ≡ starts (region self.now) }
    {
        self.start.as_slice()
    }

    /// How long the subset is in each dimension. Each end fits `u64`.
    #[tactic(auto, using(crate::proofs::BoxLaws::of_shapes))]
    pub fn shape(&self) -> &[u64]
        ensures value { result.now ≡ sizes (region self.now) }
        ensures fits { is_box (starts (region self.now)) (sizes (region self.now)) ≡ true }
    {
        self.shape.as_slice()
    }

    /// The number of dimensions.
    pub fn dimensionality(&self) -> usize
        ensures { result ≡ length (region self.now) }
    {
        self.start.len()
    }

    /// Whether the subset has no element, so whether a length is 0.
    pub fn is_empty(&self) -> bool
        ensures { result ≡ nat_eq (count (region self.now)) 0 }
    {
        has_zero(&self.shape)
    }

    /// A copy.
    ///
    /// # Errors
    /// [`AllocError`] where memory runs out.
    pub fn try_clone(&self, alloc: Global) -> Result<Self, AllocError>
        ensures ok { IfOk result (λ s. region s ≡ region self.now) }
    {
        let start = self.start.as_slice().to_vec(alloc)?;
        let shape = self.shape.as_slice().to_vec(alloc)?;
        Ok(ArraySubset { start, shape })
    }

    /// The allocator that holds the start and the shape.
    pub fn allocator(&self) -> Global {
        *self.start.allocator()
    }
}
