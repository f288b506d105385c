//! Array subsets: boxes of an array, their algebra, and the linear indices of a shape.
#![tactic(auto)]

mod array_subset;
mod chunk_shape;
mod error;
mod laws;
mod ravel;

pub use array_subset::{ArraySubset, differences, ranges_between, shape_product, starts_of};
pub use chunk_shape::shape_numbers;
pub use error::{ArrayIndices, ArraySubsetError, IncompatibleDimensionalityError, IndexerError};
pub use laws::{offset_undoes, overlap_contains, ravel_inverse};
pub use ravel::{ArrayIndicesTinyVec, push_tuple, ravel_indices, unravel_index};
pub use zarr_model::{ArrayShape, ChunkShape};
