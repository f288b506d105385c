//! Where elements stand once the dimensions of their array are ordered anew.

ghost use Rattle.std.specs.Prelude.{◌≡◌, ◌<◌, ◌+◌, ◌-◌, ◌*◌, ◌^◌, ◌++◌, true, length, map, drop, ℕ, IfOk};
ghost use Rattle.std.specs.List.{range_with_len};
ghost use Rattle.zarrs_codec_traits.specs.Prelude.{count_of, permuted, AllBelow};
ghost use Rattle.zarr_codecs_elements.specs.Order.{is_order, scattered, row_major, dot};
ghost use Rattle.zarr_codecs_elements.specs.Moved.{moved_places as places_of, moved_steps as steps_of, strided};

use std::alloc::{AllocError, Global};

// Puts the step of each dimension of a shape in the list of the ordered shape.
fn put_steps(steps: &mut [u64], order: &[usize], shape: &[u64])
    requires below { AllBelow (length steps.old) order.now }
    requires within { AllBelow (length shape.now) order.now }
    requires fits { (k : ℕ) → count_of (permuted (drop k order.now) shape.now) < 2 ^ 64 }
    ensures { steps.new
        ≡ scattered order.now (row_major (permuted order.now shape.now)) steps.old }
{
    let mut step: u64 = 1;
    let mut next = order.len();
    while next > 0 {
        next -= 1;
        let dimension = order[next];
        steps[dimension] = step;
        step *= shape[dimension];
    }
}

/// The step of each dimension of a shape in the list of the ordered shape.
///
/// # Errors
/// [`AllocError`] where memory runs out.
pub fn moved_steps(alloc: Global, order: &[usize], shape: &[u64]) -> Result<Vec<u64>, AllocError>
    requires order { is_order order.now ≡ true }
    requires rank { length shape.now ≡ length order.now }
    requires some { 0 < count_of shape.now }
    requires fits { count_of shape.now < 2 ^ 64 }
    ensures { IfOk result (λ v. v.items ≡ steps_of order.now shape.now) }
{
    let mut steps = vec![in alloc; 0; order.len()]?;
    put_steps(steps.as_mut_slice(), order, shape);
    Ok(steps)
}

// So many numbers, each by a step greater than the one before.
fn push_run(out: &mut Vec<u64>, len: u64, step: u64, from: u64) -> Result<(), AllocError>
    requires { from + (len - 1) * step < 2 ^ 64 }
    ensures { IfOk result (λ _. out.new.items
        ≡ out.old.items ++ map (λ i. from + i * step) (range_with_len 0 len)) }
{
    for i in 0..len {
        out.push(from + i * step)?;
    }
    Ok(())
}

// Numbers over a shape, in row-major order, that grow by a step for each index of a dimension.
fn push_strided(
    out: &mut Vec<u64>,
    shape: &[u64],
    steps: &[u64],
    from: u64,
) -> Result<(), AllocError>
    requires { from + dot (map (λ n. n - 1) shape.now) steps.now < 2 ^ 64 }
    ensures { IfOk result (λ _. out.new.items
        ≡ out.old.items ++ strided shape.now steps.now from) }
{
    let [len, rest @ ..] = shape else {
        out.push(from)?;
        return Ok(());
    };
    let [step, more @ ..] = steps else {
        out.push(from)?;
        return Ok(());
    };
    if rest.is_empty() {
        return push_run(out, *len, *step, from);
    }
    for i in 0..*len {
        push_strided(out, rest, more, from + i * *step)?;
    }
    Ok(())
}

/// For each place of a shape's elements in row-major order, the place of the element in the list of the ordered shape.
///
/// # Errors
/// [`AllocError`] where memory runs out.
pub fn moved_places(
    alloc: Global,
    order: &[usize],
    shape: &[u64],
    count: u64,
) -> Result<Vec<u64>, AllocError>
    requires order { is_order order.now ≡ true }
    requires rank { length shape.now ≡ length order.now }
    requires some { 0 < count_of shape.now }
    requires count { count ≡ count_of shape.now }
    ensures { IfOk result (λ v. v.items ≡ places_of order.now shape.now) }
{
    let steps = moved_steps(alloc, order, shape)?;
    let mut places = Vec::with_capacity(alloc, count as usize)?;
    push_strided(&mut places, shape, &steps, 0)?;
    Ok(places)
}
