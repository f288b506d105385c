//! The callers that the crates' READMEs show.

ghost use Rattle.std.specs.Prelude.{◌≡◌, ◌<◌, ◌^◌, ◌∷◌, ℕ, List, None, map, IfOk, IfSome};
ghost use Rattle.zarrs_codec_traits.specs.Prelude.{region, overlap_of, count_of, linear_index};
ghost use Rattle.zarrs_codec_traits.specs.Prelude.{sizes, value_bytes};
ghost use Rattle.zarr_model.specs.Cover.{linear_indices};

use std::alloc::Global;
use zarrs_chunk_grid::{
    ArraySubset, ArraySubsetError, Indexer, IndexerError, LinearisedIndices,
    append_linearised_indices,
};
use zarrs_storage::{StorageError, Store, StoreKey};

/// What stands under a key that was erased.
///
/// # Errors
/// As of `Store::erase` and `Store::get`.
pub fn erased<S: Store>(
    store: &mut S,
    alloc: Global,
    key: &StoreKey,
) -> Result<Option<Vec<u8>>, StorageError>
    ensures { IfOk result (λ value. value_bytes value ≡ None) }
{
    store.erase(key)?;
    store.get(alloc, key)
}

/// The shape of what two subsets share.
///
/// # Errors
/// As of `ArraySubset::overlap`.
pub fn shared_shape(
    alloc: Global,
    a: &ArraySubset,
    b: &ArraySubset,
) -> Result<Vec<u64>, ArraySubsetError>
    ensures { IfOk result (λ v. v.items ≡ sizes (overlap_of (region a.now) (region b.now))) }
{
    let overlap = a.overlap(alloc, b)?;
    let shape = overlap.shape().to_vec(alloc)?;
    Ok(shape)
}

/// The first linear index of a subset.
///
/// # Errors
/// As of `LinearisedIndices::new`.
pub fn first_index(
    alloc: Global,
    subset: ArraySubset,
    shape: Vec<u64>,
) -> Result<Option<u64>, IndexerError>
    requires { count_of shape.items < 2 ^ 64 }
    ensures { IfOk result (λ o. IfSome o (λ n. (rest : List ℕ)
        × (linear_indices shape.items (region subset) ≡ n ∷ rest))) }
{
    let mut indices = LinearisedIndices::new(alloc, subset, shape)?.into_iter();
    Ok(indices.next())
}

/// The linear indices of any indexer.
///
/// # Errors
/// As of `append_linearised_indices`.
pub fn gather<I: Indexer>(
    alloc: Global,
    indexer: &I,
    array_shape: &[u64],
) -> Result<Vec<u64>, IndexerError>
    requires { count_of array_shape.now < 2 ^ 64 }
    ensures { IfOk result (λ v. v.items
        ≡ map (linear_index array_shape.now) (I.places indexer.now)) }
{
    let mut indices = Vec::new(alloc);
    match append_linearised_indices(&mut indices, alloc, indexer, array_shape) {
        Ok(()) => Ok(indices),
        Err(error) => Err(error),
    }
}
