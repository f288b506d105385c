//! Elements of one size, picked out by steps, and put behind one another.

ghost use Rattle.std.specs.Prelude.{◌≡◌, ◌+◌, ◌-◌, ◌*◌, ◌<◌, ◌++◌, length, map, IfOk};
ghost use Rattle.std.specs.List.{flat_map, range_with_len};
ghost use Rattle.zarrs_codec_slices.specs.Picking.{piece_of};
ghost use Rattle.zarr_codecs_elements.specs.Order.{dot};
ghost use Rattle.zarr_codecs_elements.specs.Moved.{strided};

use std::alloc::{AllocError, Global};

// So many single bytes, each by a step behind the one before.
#[tactic(auto, using(crate::proofs::LoopLaws::run_below))]
fn push_bytes(
    given: Vec<u8>,
    items: &[u8],
    len: u64,
    step: u64,
    from: u64,
) -> Result<Vec<u8>, AllocError>
    requires { from + (len - 1) * step < length items.now }
    ensures { IfOk result (λ v. v.items ≡ given.items
        ++ flat_map (λ i. piece_of 1 items.now (from + i * step)) (range_with_len 0 len)) }
{
    let mut out = given;
    for i in 0..len {
        out.push(items[(from + i * step) as usize])?;
    }
    Ok(out)
}

// So many pieces of one size, each by a step behind the one before.
#[inline(always)]
#[tactic(auto, using(crate::proofs::LoopLaws::run_below, zarrs_codec_slices::proofs::PieceLaws::piece_ends))]
fn push_sized(
    given: Vec<u8>,
    items: &[u8],
    size: usize,
    count: u64,
    len: u64,
    step: u64,
    from: u64,
) -> Result<Vec<u8>, AllocError>
    requires within { from + (len - 1) * step < count }
    requires long { length items.now ≡ count * size }
    ensures { IfOk result (λ v. v.items ≡ given.items
        ++ flat_map (λ i. piece_of size items.now (from + i * step)) (range_with_len 0 len)) }
{
    let mut out = given;
    for i in 0..len {
        let at = (from + i * step) as usize * size;
        out.extend_from_slice(&items[at..at + size])?;
    }
    Ok(out)
}

// The same, for the sizes of numbers by a loop of their own.
fn push_run(
    given: Vec<u8>,
    items: &[u8],
    size: usize,
    count: u64,
    len: u64,
    step: u64,
    from: u64,
) -> Result<Vec<u8>, AllocError>
    requires within { from + (len - 1) * step < count }
    requires long { length items.now ≡ count * size }
    ensures { IfOk result (λ v. v.items ≡ given.items
        ++ flat_map (λ i. piece_of size items.now (from + i * step)) (range_with_len 0 len)) }
{
    match size {
        1 => push_bytes(given, items, len, step, from),
        2 => push_sized(given, items, 2, count, len, step, from),
        4 => push_sized(given, items, 4, count, len, step, from),
        8 => push_sized(given, items, 8, count, len, step, from),
        _ => push_sized(given, items, size, count, len, step, from),
    }
}

// The pieces at the numbers over a shape, in row-major order, that grow by a step for each index of a dimension.
fn push_pieces(
    given: Vec<u8>,
    items: &[u8],
    size: usize,
    count: u64,
    shape: &[u64],
    steps: &[u64],
    from: u64,
) -> Result<Vec<u8>, AllocError>
    requires within { from + dot (map (λ n. n - 1) shape.now) steps.now < count }
    requires long { length items.now ≡ count * size }
    ensures { IfOk result (λ v. v.items ≡ given.items
        ++ flat_map (piece_of size items.now) (strided shape.now steps.now from)) }
{
    let [len, rest @ ..] = shape else {
        return push_run(given, items, size, count, 1, 0, from);
    };
    let [step, more @ ..] = steps else {
        return push_run(given, items, size, count, 1, 0, from);
    };
    if rest.is_empty() {
        return push_run(given, items, size, count, *len, *step, from);
    }
    let mut out = given;
    for i in 0..*len {
        out = push_pieces(out, items, size, count, rest, more, from + i * *step)?;
    }
    Ok(out)
}

/// The pieces at the numbers over a shape. There are `count` pieces of `size` bytes each.
///
/// # Errors
/// [`AllocError`] where memory runs out.
pub fn strided_pieces(
    alloc: Global,
    items: &[u8],
    size: usize,
    count: u64,
    shape: &[u64],
    steps: &[u64],
) -> Result<Vec<u8>, AllocError>
    requires within { 0 + dot (map (λ n. n - 1) shape.now) steps.now < count }
    requires long { length items.now ≡ count * size }
    ensures { IfOk result (λ v. v.items
        ≡ flat_map (piece_of size items.now) (strided shape.now steps.now 0)) }
{
    let out = Vec::with_capacity(alloc, items.len())?;
    push_pieces(out, items, size, count, shape, steps, 0)
}
