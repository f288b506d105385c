//! Where a chunk of an array lies.

use zarrs_array_subset::{ArrayIndicesTinyVec, ArraySubset};
use zarrs_storage::StoreKey;

/// The indices of a chunk, where it lies, and the key that its value stands under.
#[derive(Drop)]
pub struct ChunkPlace {
    /// Its indices in the grid.
    pub indices: ArrayIndicesTinyVec,
    /// The box of its elements in the array.
    pub subset: ArraySubset,
    /// The key that its value stands under.
    pub key: StoreKey,
}
