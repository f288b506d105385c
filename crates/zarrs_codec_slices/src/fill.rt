//! Bytes of elements that are all the fill value.

ghost use Rattle.std.specs.Prelude.{◌≡◌, ◌<◌, ◌*◌, ◌^◌, length, replicate, IfOk, IfSome, IsTrue, ◌↔◌};
ghost use Rattle.zarrs_data_type_bytes.specs.Pieces.{repeated};

use std::alloc::{AllocError, Global};

// Whether all bytes are this one.
fn are_all(bytes: &[u8], byte: u8) -> bool
    ensures { IsTrue result ↔ (bytes.now ≡ replicate (length bytes.now) byte) }
{
    bytes.iter().all(|other| *other == byte)
}

// The byte that all bytes of a fill value are, if they are one.
pub(crate) fn same_byte(fill: &[u8]) -> Option<u8>
    ensures { IfSome result (λ byte. fill.now ≡ replicate (length fill.now) byte) }
{
    match fill {
        [] => None,
        [byte, ..] => {
            if are_all(fill, *byte) {
                Some(*byte)
            } else {
                None
            }
        }
    }
}

// A fill value so many times, one after another.
#[tactic(auto, using(zarrs_data_type_bytes::proofs::PieceLaws::repeated_step))]
fn repeated(alloc: Global, fill: &[u8], num_elements: usize) -> Result<Vec<u8>, AllocError>
    requires { num_elements * length fill.now < 2 ^ 64 }
    ensures { IfOk result (λ bytes. bytes.items ≡ repeated num_elements fill.now) }
{
    let mut bytes = Vec::with_capacity(alloc, num_elements * fill.len())?;
    for _ in 0..num_elements {
        bytes.extend_from_slice(fill)?;
    }
    Ok(bytes)
}

/// The bytes of so many elements that are all the fill value with these bytes.
///
/// # Errors
/// [`AllocError`] where memory runs out.
#[tactic(auto, using(crate::proofs::FillLaws::repeated_byte))]
pub fn filled(alloc: Global, fill: &[u8], num_elements: usize) -> Result<Vec<u8>, AllocError>
    requires { num_elements * length fill.now < 2 ^ 64 }
    ensures { IfOk result (λ bytes. bytes.items ≡ repeated num_elements fill.now) }
{
    match same_byte(fill) {
        Some(byte) => {
            let bytes = vec![in alloc; byte; num_elements * fill.len()]?;
            Ok(bytes)
        }
        None => repeated(alloc, fill, num_elements),
    }
}
