//! Numbers in bytes, the lowest first.

ghost use Rattle.std.specs.Prelude.{◌≡◌, ◌<◌, ◌≤◌, ◌^◌, ◌+◌, ◌++◌, length, IfOk, OnOk};
ghost use Rattle.zarr_model.specs.Codec.{number_of_bytes, low_bytes};
ghost use Rattle.zarr_codecs_elements.specs.Numbers.{each_piece, raised};

use std::alloc::{AllocError, Global};

// The number in up to 8 bytes.
#[tactic(auto, using(crate::proofs::PieceLaws::few_digits, crate::proofs::PieceLaws::more_digits))]
fn number_of(bytes: &[u8]) -> u64
    requires { length bytes.now ≤ 8 }
    ensures value { result ≡ number_of_bytes bytes.now }
    ensures below { result < 256 ^ length bytes.now }
{
    match bytes {
        [] => 0,
        [first, rest @ ..] => {
            let above = number_of(rest);
            *first as u64 + 256 * above
        }
    }
}

// Appends the lowest bytes of a number.
#[tactic(auto, using(crate::proofs::PieceLaws::push_low_step, crate::proofs::PieceLaws::push_low_end))]
fn push_low(out: &mut Vec<u8>, size: usize, number: u128) -> Result<(), AllocError>
    ensures { OnOk result (out.new.items ≡ out.old.items ++ low_bytes size number) }
{
    let mut left = number;
    for digit in 0..size {
        out.push((left % 256) as u8)?;
        left /= 256;
    }
    Ok(())
}

// Appends the number in a piece and more, in as many bytes.
#[tactic(auto, unfolding(crate::specs::Numbers::raised))]
fn push_raised(out: &mut Vec<u8>, piece: &[u8], amount: u64) -> Result<(), AllocError>
    requires { length piece.now ≤ 8 }
    ensures { OnOk result (out.new.items ≡ out.old.items ++ raised amount piece.now) }
{
    let number = number_of(piece) as u128 + amount as u128;
    push_low(out, piece.len(), number)
}

/// The number in some bytes and `amount` more, in as many bytes.
///
/// # Errors
/// [`AllocError`] where memory runs out.
pub fn raise(alloc: Global, bytes: &[u8], amount: u64) -> Result<Vec<u8>, AllocError>
    requires { length bytes.now ≤ 8 }
    ensures { IfOk result (λ v. v.items ≡ raised amount bytes.now) }
{
    let mut out = Vec::new(alloc);
    push_raised(&mut out, bytes, amount)?;
    Ok(out)
}

/// Each number of `size` bytes and `amount` more, in as many bytes.
///
/// # Errors
/// [`AllocError`] where memory runs out.
pub fn raise_each(
    alloc: Global,
    bytes: &[u8],
    size: usize,
    amount: u64,
) -> Result<Vec<u8>, AllocError>
    requires some { 0 < size }
    requires few { size ≤ 8 }
    ensures { IfOk result (λ v. v.items ≡ each_piece (raised amount) size bytes.now) }
{
    let mut out = Vec::with_capacity(alloc, bytes.len())?;
    let mut rest = bytes;
    while rest.len() >= size {
        let (piece, others) = rest.split_at(size);
        push_raised(&mut out, piece, amount)?;
        rest = others;
    }
    Ok(out)
}
