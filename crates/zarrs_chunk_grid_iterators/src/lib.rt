//! The indices of an array subset in row-major order: as tuples, as linear indices of an array's
//! shape, and as runs of neighbours.
#![tactic(auto)]

mod contiguous_indices_iterator;
mod contiguous_linearised_indices_iterator;
mod gathered;
mod indices_iterator;
mod laws;
mod linearised_indices_iterator;
mod places;
mod rows;
mod runs;

pub use contiguous_indices_iterator::{
    ContiguousIndices, ContiguousIndicesIntoIterator, ContiguousIndicesIterator,
};
pub use contiguous_linearised_indices_iterator::{
    ContiguousLinearisedIndices, ContiguousLinearisedIndicesIntoIterator,
    ContiguousLinearisedIndicesIterator,
};
pub use gathered::{GatheredTuples, SingleRuns};
pub use indices_iterator::{Indices, IndicesIntoIterator, IndicesIterator};
pub use laws::{iterators_end, runs_begin, runs_cover};
pub use linearised_indices_iterator::{
    LinearisedIndices, LinearisedIndicesIntoIterator, LinearisedIndicesIterator,
};
pub use runs::run_size;
