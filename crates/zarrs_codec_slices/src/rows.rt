//! Elements of one size in boxes, run by run.

ghost use Rattle.std.specs.Prelude.{◌≡◌, ◌*◌, ◌<◌, ◌^◌, true, length, map, IfOk};
ghost use Rattle.std.specs.List.{flat_map, AllByRecursion};
ghost use Rattle.zarr_model.specs.Region.{count, contains, place, tuples};
ghost use Rattle.zarrs_array_subset.specs.ArraySubset.{region};
ghost use Rattle.zarrs_codec_slices.specs.Elements.{fixed_elements};
ghost use Rattle.zarrs_codec_slices.specs.Overlap.{Copied};
ghost use Rattle.zarrs_codec_slices.specs.Picking.{picked_piece};

use crate::overlap::copy_elements;
use std::alloc::{AllocError, Global};
use zarrs_array_subset::ArraySubset;

/// Copies the elements at the indices that two boxes share, from the bytes into a vector. Both have their boxes'
/// elements of `size` bytes in row-major order.
pub fn copy_into(
    out: &mut Vec<u8>,
    out_subset: &ArraySubset,
    bytes: &[u8],
    subset: &ArraySubset,
    size: usize,
)
    requires some { 0 < size }
    requires rank { length (region out_subset.now) ≡ length (region subset.now) }
    requires out_long { length out.old.items ≡ count (region out_subset.now) * size }
    requires long { length bytes.now ≡ count (region subset.now) * size }
    ensures as_long { length out.new.items ≡ length out.old.items }
    ensures copied { Copied (region out_subset.now) (region subset.now)
        (fixed_elements size bytes.now) (fixed_elements size out.old.items)
        (fixed_elements size out.new.items) }
{
    copy_elements(out.as_mut_slice(), out_subset, bytes, subset, size);
}

/// The elements of a box, out of those of an outer one, which has them in row-major order, `size` bytes each.
///
/// # Errors
/// [`AllocError`] where memory runs out.
pub fn extract_rows(
    alloc: Global,
    bytes: &[u8],
    outer: &ArraySubset,
    subset: &ArraySubset,
    size: usize,
) -> Result<Vec<u8>, AllocError>
    requires some { 0 < size }
    requires rank { length (region subset.now) ≡ length (region outer.now) }
    requires inside { AllByRecursion (λ tuple. contains (region outer.now) tuple ≡ true)
        (tuples (region subset.now)) }
    requires long { length bytes.now ≡ count (region outer.now) * size }
    requires few { count (region subset.now) < 2 ^ 64 }
    requires fits { count (region subset.now) * size < 2 ^ 64 }
    ensures { IfOk result (λ v. v.items
        ≡ flat_map (picked_piece size (count (region outer.now)) bytes.now bytes.now)
        (map (place (region outer.now)) (tuples (region subset.now)))) }
{
    let len = subset.num_elements_usize() * size;
    let mut out = vec![in alloc; 0; len]?;
    copy_into(&mut out, subset, bytes, outer, size);
    Ok(out)
}
