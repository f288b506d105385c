//! Lists of ranges as regions.

ghost use Rattle.std.specs.Prelude.{refl};
ghost use Rattle.zarrs_array_subset.specs.Boxes.{region_of_ranges};

use super::ArraySubsetTraits;
use crate::range_tests::{are_inbounds, are_inbounds_shape, are_subset, contain, starts_of};
use std::alloc::{AllocError, Global};
use std::ops::Range;
use zarrs_array_subset::ArraySubset;
use zarrs_chunk_grid_indexer::{Indexer, RangeSlice};

#[tactic(auto, using(zarrs_chunk_grid_indexer::proofs::Boxes::of_boxes))]
impl ArraySubsetTraits for RangeSlice<'_> {
    ghost extent = { λ s. region_of_ranges s.ranges.now };

    ghost lists = { λ s. refl };

    ghost bounds = { λ s shape. refl };

    ghost least = { λ s shape. refl };

    ghost ranks = { λ s. refl };

    ghost shapes = { λ s. refl };

    ghost refuses_shape = { λ s shape e h. h };

    fn start(&self, alloc: Global) -> Result<Vec<u64>, AllocError> {
        starts_of(alloc, self.as_slice())
    }

    fn shape(&self, alloc: Global) -> Result<Vec<u64>, AllocError> {
        self.output_shape(alloc)
    }

    fn checked_num_elements(&self) -> Option<u64> {
        self.checked_len()
    }

    fn contains(&self, indices: &[u64]) -> bool {
        contain(self.as_slice(), indices)
    }

    fn inbounds_shape(&self, array_shape: &[u64]) -> bool {
        are_inbounds_shape(self.as_slice(), array_shape)
    }

    fn inbounds(&self, other: &ArraySubset) -> bool {
        are_inbounds(self.as_slice(), other)
    }

    fn equals_subset(&self, other: &ArraySubset) -> bool {
        are_subset(self.as_slice(), other)
    }

    fn to_array_subset(&self, alloc: Global) -> Result<ArraySubset, AllocError> {
        ArraySubset::new_with_ranges(alloc, self.as_slice())
    }
}

#[tactic(auto, using(zarrs_chunk_grid_indexer::proofs::Boxes::of_boxes))]
impl ArraySubsetTraits for Vec<Range<u64>> {
    ghost extent = { λ s. region_of_ranges s.items };

    ghost lists = { λ s. refl };

    ghost bounds = { λ s shape. refl };

    ghost least = { λ s shape. refl };

    ghost ranks = { λ s. refl };

    ghost shapes = { λ s. refl };

    ghost refuses_shape = { λ s shape e h. h };

    fn start(&self, alloc: Global) -> Result<Vec<u64>, AllocError> {
        starts_of(alloc, self.as_slice())
    }

    fn shape(&self, alloc: Global) -> Result<Vec<u64>, AllocError> {
        self.output_shape(alloc)
    }

    fn checked_num_elements(&self) -> Option<u64> {
        self.checked_len()
    }

    fn contains(&self, indices: &[u64]) -> bool {
        contain(self.as_slice(), indices)
    }

    fn inbounds_shape(&self, array_shape: &[u64]) -> bool {
        are_inbounds_shape(self.as_slice(), array_shape)
    }

    fn inbounds(&self, other: &ArraySubset) -> bool {
        are_inbounds(self.as_slice(), other)
    }

    fn equals_subset(&self, other: &ArraySubset) -> bool {
        are_subset(self.as_slice(), other)
    }

    fn to_array_subset(&self, alloc: Global) -> Result<ArraySubset, AllocError> {
        ArraySubset::new_with_ranges(alloc, self.as_slice())
    }
}

#[tactic(auto, using(zarrs_chunk_grid_indexer::proofs::Boxes::of_boxes))]
impl<const N: usize> ArraySubsetTraits for [Range<u64>; N] {
    ghost extent = { λ s. region_of_ranges s };

    ghost lists = { λ s. refl };

    ghost bounds = { λ s shape. refl };

    ghost least = { λ s shape. refl };

    ghost ranks = { λ s. refl };

    ghost shapes = { λ s. refl };

    ghost refuses_shape = { λ s shape e h. h };

    fn start(&self, alloc: Global) -> Result<Vec<u64>, AllocError> {
        starts_of(alloc, &self[..])
    }

    fn shape(&self, alloc: Global) -> Result<Vec<u64>, AllocError> {
        self.output_shape(alloc)
    }

    fn checked_num_elements(&self) -> Option<u64> {
        self.checked_len()
    }

    fn contains(&self, indices: &[u64]) -> bool {
        contain(&self[..], indices)
    }

    fn inbounds_shape(&self, array_shape: &[u64]) -> bool {
        are_inbounds_shape(&self[..], array_shape)
    }

    fn inbounds(&self, other: &ArraySubset) -> bool {
        are_inbounds(&self[..], other)
    }

    fn equals_subset(&self, other: &ArraySubset) -> bool {
        are_subset(&self[..], other)
    }

    fn to_array_subset(&self, alloc: Global) -> Result<ArraySubset, AllocError> {
        ArraySubset::new_with_ranges(alloc, &self[..])
    }
}
