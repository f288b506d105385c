//! Orders of dimensions.

ghost use Rattle.std.specs.Prelude.{◌≡◌, true, false, length, replicate, IfOk};
ghost use Rattle.std.specs.List.{range_with_len};
ghost use Rattle.zarrs_codec_traits.specs.Prelude.{permuted, AllBelow};
ghost use Rattle.zarr_codecs_elements.specs.Order.{is_order as is_order_of, scattered, inverse};

use std::alloc::{AllocError, Global};

/// The numbers that stand at each place that an order names.
///
/// # Errors
/// [`AllocError`] where memory runs out.
pub fn permuted_numbers(
    alloc: Global,
    order: &[usize],
    numbers: &[u64],
) -> Result<Vec<u64>, AllocError>
    requires { AllBelow (length numbers.now) order.now }
    ensures { IfOk result (λ v. v.items ≡ permuted order.now numbers.now) }
{
    let mut out = Vec::with_capacity(alloc, order.len())?;
    for dimension in order {
        out.push(numbers[*dimension])?;
    }
    Ok(out)
}

// Puts the place of each number of the order there.
fn put_places(places: &mut [usize], order: &[usize])
    requires { AllBelow (length places.old) order.now }
    ensures { places.new
        ≡ scattered order.now (range_with_len 0 (length order.now)) places.old }
{
    let mut next = order.len();
    while next > 0 {
        next -= 1;
        let dimension = order[next];
        places[dimension] = next;
    }
}

/// The place of each number in an order.
///
/// # Errors
/// [`AllocError`] where memory runs out.
pub fn inverse_of(alloc: Global, order: &[usize]) -> Result<Vec<usize>, AllocError>
    requires { is_order_of order.now ≡ true }
    ensures { IfOk result (λ v. v.items ≡ inverse order.now) }
{
    let mut places = vec![in alloc; 0; order.len()]?;
    put_places(places.as_mut_slice(), order);
    Ok(places)
}

// Whether each number of the list is below its length, and stands in it once; `seen` has no number yet.
fn are_new(seen: &mut [bool], order: &[usize]) -> bool
    requires { seen.old ≡ replicate (length order.now) false }
    ensures { result ≡ is_order_of order.now }
{
    for number in order {
        if *number >= seen.len() {
            return false;
        }
        if seen[*number] {
            return false;
        }
        seen[*number] = true;
    }
    true
}

/// Whether a list has each number below its length, once.
///
/// # Errors
/// [`AllocError`] where memory runs out.
pub fn is_order(alloc: Global, order: &[usize]) -> Result<bool, AllocError>
    ensures { IfOk result (λ b. b ≡ is_order_of order.now) }
{
    let mut seen = vec![in alloc; false; order.len()]?;
    Ok(are_new(seen.as_mut_slice(), order))
}
