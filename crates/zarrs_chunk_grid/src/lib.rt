//! Regions of an array in any form, shapes of chunks, and chunk grids: their trait and laws, iterators over their
//! chunks, and what makes them of metadata.
//!
//! Subsets, lists of indices and indexers come from the crates `zarrs_array_subset`, `zarrs_chunk_grid_iterators` and
//! `zarrs_chunk_grid_indexer`, and are passed on here.
//!
//! See <https://zarr-specs.readthedocs.io/en/latest/v3/core/index.html#chunk-grids>.
#![tactic(auto)]

mod array_subset_traits;
mod chunk_grid;
mod chunk_grid_error;
mod chunk_grid_iterators;
mod chunk_grid_traits;
mod chunk_shape_traits;
mod range_tests;

pub use array_subset_traits::ArraySubsetTraits;
pub use chunk_grid::{ChunkGrid, GridMaker};
pub use chunk_grid_error::ChunkGridError;
pub use chunk_grid_iterators::{ChunkGridTraitsIterators, ChunkIndicesAndSubsets, ChunkSubsets};
pub use chunk_grid_traits::{ChunkGridTraits, are_below};
pub use chunk_shape_traits::ChunkShapeTraits;
pub use zarrs_array_subset::{
    ArrayIndices, ArrayIndicesTinyVec, ArrayShape, ArraySubset, ArraySubsetError, ChunkShape,
    IncompatibleDimensionalityError, IndexerError, offset_undoes, overlap_contains, push_tuple,
    ravel_indices, ravel_inverse, shape_product, unravel_index,
};
pub use zarrs_chunk_grid_indexer::{
    ByteRuns, IndexSlice, Indexer, IndexerIterator, IndexerList, RangeSlice,
    append_contiguous_linearised_indices, append_indices, append_linearised_indices,
    collect_indices,
};
pub use zarrs_chunk_grid_iterators::{
    ContiguousIndices, ContiguousIndicesIntoIterator, ContiguousIndicesIterator,
    ContiguousLinearisedIndices, ContiguousLinearisedIndicesIntoIterator,
    ContiguousLinearisedIndicesIterator, GatheredTuples, Indices, IndicesIntoIterator,
    IndicesIterator, LinearisedIndices, LinearisedIndicesIntoIterator, LinearisedIndicesIterator,
    SingleRuns, iterators_end, runs_begin, runs_cover,
};
