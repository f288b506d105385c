//! Index tuples as linear indices of an array, and back.

ghost use Rattle.std.specs.Prelude.{◌≡◌, ◌<◌, ◌^◌, ◌*◌, ◌/◌, ◌%◌, ◌⊎◌, ◌≤◌, true, false, length, Some, None, IfOk, IfSome, IfNone, IsOk, OnOk, OnErr, ◌++◌};
ghost use Rattle.zarr_model.specs.Region.{count, count_of, whole, tuple_at};
ghost use Rattle.zarrs_array_subset.specs.Boxes.{region_of, is_box};
ghost use Rattle.smallvec.specs.SmallVec.{HasRoomFor};
ghost use Rattle.zarrs_array_subset.specs.Ravel.{count_front, place_front, is_below, raveled};

use crate::array_subset::shape_product;
use smallvec::SmallVec;
use std::alloc::{AllocError, Global};

pub type ArrayIndicesTinyVec = SmallVec<u64, 4>;

/// The linear index and the number of indices, as far as both lists go.
#[tactic(auto, using(crate::proofs::Ravels::of_fronts))]
fn ravel_counted(indices: &[u64], shape: &[u64]) -> Option<(u64, u64)>
    requires { count_front shape.now indices.now < 2 ^ 64 }
    ensures some { IfSome result
        (λ p. (is_below shape.now indices.now ≡ true) × (p.0 ≡ place_front shape.now indices.now)
        × (p.1 ≡ count_front shape.now indices.now)) }
    ensures none { IfNone result (is_below shape.now indices.now ≡ false) }
{
    match indices {
        [] => Some((0, 1)),
        [i, indices @ ..] => match shape {
            [] => Some((0, 1)),
            [n, shape @ ..] => {
                if *i >= *n {
                    return None;
                }
                let (place, count) = ravel_counted(indices, shape)?;
                Some((*i * count + place, *n * count))
            }
        },
    }
}

/// The linear index, as far as both lists go.
pub fn ravel_indices(indices: &[u64], shape: &[u64]) -> Option<u64>
    requires { count_front shape.now indices.now < 2 ^ 64 }
    ensures { result ≡ raveled shape.now indices.now }
{
    let (place, _count) = ravel_counted(indices, shape)?;
    Some(place)
}

/// Appends the tuple at a place of the box's row-major list. `count` is the number of its tuples.
///
/// # Errors
/// [`AllocError`] where there is not enough memory; `out` is then as it was.
#[tactic(auto, using(crate::proofs::Ravels::of_tuples))]
pub fn push_tuple(
    out: &mut ArrayIndicesTinyVec,
    start: &[u64],
    shape: &[u64],
    place: u64,
    count: u64,
) -> Result<(), AllocError>
    requires fits { is_box start.now shape.now ≡ true }
    requires whole { count ≡ count_of shape.now }
    requires below { place < count }
    ensures tuple { OnOk result
        (out.new.items ≡ out.old.items ++ tuple_at (region_of start.now shape.now) place) }
    ensures inline { HasRoomFor out.old (length shape.now) → IsOk result }
    ensures err { OnErr result (out.new.items ≡ out.old.items) }
{
    match shape {
        [] => Ok(()),
        [n, shape @ ..] => match start {
            [] => Ok(()),
            [first, start @ ..] => {
                let count = count / *n;
                out.push(*first + place / count)?;
                match push_tuple(out, start, shape, place % count, count) {
                    Ok(()) => Ok(()),
                    Err(error) => {
                        out.pop();
                        Err(error)
                    }
                }
            }
        },
    }
}

/// The tuple of a linear index.
///
/// # Errors
/// [`AllocError`] where memory runs out.
#[tactic(auto, using(crate::proofs::Ravels::of_zeros))]
pub fn unravel_index(
    alloc: Global,
    index: u64,
    shape: &[u64],
) -> Result<Option<ArrayIndicesTinyVec>, AllocError>
    ensures some { IfOk result
        (λ o. IfSome o (λ v. (count_of shape.now < 2 ^ 64) × (index < count_of shape.now)
        × (v.items ≡ tuple_at (whole shape.now) index))) }
    ensures none { IfOk result
        (λ o. IfNone o ((2 ^ 64 ≤ count_of shape.now) ⊎ (count_of shape.now ≤ index))) }
    ensures inline { length shape.now ≤ 4 → IsOk result }
{
    let Some(count) = shape_product(shape) else {
        return Ok(None);
    };
    if index >= count {
        return Ok(None);
    }
    let start = SmallVec::<u64, 4>::from_elem(alloc, 0, shape.len())?;
    let mut tuple = SmallVec::new(alloc);
    push_tuple(&mut tuple, start.as_slice(), shape, index, count)?;
    Ok(Some(tuple))
}
