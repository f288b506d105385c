//! The chunk grid `regular`: chunks of one shape, as many as cover the array.
//!
//! See <https://zarr-specs.readthedocs.io/en/latest/v3/core/index.html#regular-grids>.

ghost use Rattle.std.specs.Prelude.{◌≡◌, length, Option, IfOk};
ghost use Rattle.zarr_model.specs.Prelude.{regular_grid};
ghost use Rattle.zarr_basics.specs.Lengths.{nonzeros};

mod chunks;
mod numbers;

use crate::limits::{are_some, is_too_large};
use numbers::{counts, ends_fit};
use std::alloc::{AllocError, Global};
use std::num::NonZeroU64;
use zarrs_array_subset::ChunkShape;

/// The regular grid of an array's shape and a chunk shape of the same rank.
#[derive(Drop)]
pub struct RegularGrid {
    /// The length of each dimension of the array.
    pub array_shape: Vec<u64>,
    /// The length of each dimension of a chunk.
    pub chunk_shape: ChunkShape,
    /// How many chunks there are in each dimension.
    pub grid_shape: Vec<u64>,
    ghost rank: { length array_shape.items ≡ length chunk_shape.items },
    ghost counts: { grid_shape.items ≡ (regular_grid array_shape.items
        (nonzeros chunk_shape.items)).grid_shape },
}

impl RegularGrid {
    ghost use Rattle.zarr_basics.specs.Largest.{AreLargest};
    ghost use Rattle.zarr_basics.specs.Limits.{has_large_chunk};
    ghost use Rattle.zarr_basics.specs.GridOf.{grid_of_regular};

    /// The grid of an array's shape and a chunk shape of the same rank.
    ///
    /// # Errors
    /// [`AllocError`] where memory runs out.
    #[tactic(auto, using(crate::proofs::RegularLaws::counts_grid))]
    pub fn new(
        alloc: Global,
        array_shape: Vec<u64>,
        chunk_shape: ChunkShape,
    ) -> Result<Self, AllocError>
        requires { length array_shape.items ≡ length chunk_shape.items }
        ensures array { IfOk result (λ grid. grid.array_shape.items ≡ array_shape.items) }
        ensures chunk { IfOk result (λ grid. grid.chunk_shape.items ≡ chunk_shape.items) }
    {
        let grid_shape = counts(alloc, &array_shape, &chunk_shape)?;
        Ok(RegularGrid {
            array_shape,
            chunk_shape,
            grid_shape,
        })
    }

    /// The lengths of a largest chunk, which are those of every chunk.
    pub fn largest_lengths(&self) -> &[NonZeroU64]
        ensures { AreLargest (grid_of_regular self.now) (nonzeros result.now) }
    {
        self.chunk_shape.as_slice()
    }

    /// Whether some chunk is too large for elements of a size: its box ends past `u64`, or the number of its elements
    /// plus one, or their number times the size, passes `usize`.
    pub fn has_large_chunk(&self, size: Option<usize>) -> bool
        ensures { result ≡ has_large_chunk (grid_of_regular self.now) size }
    {
        if !are_some(&self.grid_shape) {
            return false;
        }
        if !ends_fit(&self.grid_shape, &self.chunk_shape) {
            return true;
        }
        is_too_large(&self.chunk_shape, size)
    }
}
