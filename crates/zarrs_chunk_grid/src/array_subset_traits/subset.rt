//! Array subsets as regions.

ghost use Rattle.std.specs.Prelude.{refl};
ghost use Rattle.zarrs_array_subset.specs.ArraySubset.{region};

use super::ArraySubsetTraits;
use std::alloc::{AllocError, Global};
use zarrs_array_subset::ArraySubset;

impl ArraySubsetTraits for ArraySubset {
    ghost extent = { λ s. region s };

    ghost lists = { λ s. refl };

    ghost bounds = { λ s shape. refl };

    ghost least = { λ s shape. refl };

    ghost ranks = { λ s. refl };

    ghost shapes = { λ s. refl };

    ghost refuses_shape = { λ s shape e h. h };

    fn start(&self, alloc: Global) -> Result<Vec<u64>, AllocError> {
        let start: &[u64] = self.start();
        start.to_vec(alloc)
    }

    fn shape(&self, alloc: Global) -> Result<Vec<u64>, AllocError> {
        let shape: &[u64] = self.shape();
        shape.to_vec(alloc)
    }

    fn checked_num_elements(&self) -> Option<u64> {
        self.checked_num_elements()
    }

    fn contains(&self, indices: &[u64]) -> bool {
        self.contains(indices)
    }

    fn inbounds_shape(&self, array_shape: &[u64]) -> bool {
        self.inbounds_shape(array_shape)
    }

    fn inbounds(&self, other: &ArraySubset) -> bool {
        self.inbounds(other)
    }

    fn equals_subset(&self, other: &ArraySubset) -> bool {
        self.equals_subset(other)
    }

    fn to_array_subset(&self, alloc: Global) -> Result<ArraySubset, AllocError> {
        self.try_clone(alloc)
    }
}
