//! The tuples of a box by their places.

ghost use Rattle.std.specs.Prelude.{◌≡◌, ◌<◌, ◌^◌, IfOk};
ghost use Rattle.zarr_model.specs.Region.{count, tuple_at};
ghost use Rattle.zarrs_array_subset.specs.ArraySubset.{region};

use std::alloc::{AllocError, Global};
use zarrs_array_subset::{ArrayIndicesTinyVec, ArraySubset, push_tuple};

/// The indices at a place of a subset's row-major list.
///
/// # Errors
/// [`AllocError`] where memory runs out.
#[tactic(auto, using(crate::proofs::IndexLaws::of_subsets))]
pub fn indices_at(
    alloc: Global,
    subset: &ArraySubset,
    place: u64,
) -> Result<ArrayIndicesTinyVec, AllocError>
    requires few { count (region subset.now) < 2 ^ 64 }
    requires below { place < count (region subset.now) }
    ensures { IfOk result (λ indices. indices.items ≡ tuple_at (region subset.now) place) }
{
    let mut indices = ArrayIndicesTinyVec::new(alloc);
    push_tuple(
        &mut indices,
        subset.start(),
        subset.shape(),
        place,
        subset.num_elements(),
    )?;
    Ok(indices)
}
