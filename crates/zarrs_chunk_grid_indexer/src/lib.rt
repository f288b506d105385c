//! What selects elements of an array: array subsets, ranges, lists of indices, and lists of these.
#![tactic(auto)]

mod indexer;

pub use indexer::{
    ByteRuns, IndexSlice, Indexer, IndexerIterator, IndexerList, RangeSlice,
    append_contiguous_linearised_indices, append_indices, append_linearised_indices,
    collect_indices,
};
