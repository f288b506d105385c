//! Numbers in 4 bytes, the lowest first.

ghost use Rattle.std.specs.Prelude.{◌≡◌, ◌<◌, ◌+◌, ◌^◌, ◌++◌, length, take, drop, MatchOption, OnOk};
ghost use Rattle.zarr_model.specs.Codec.{number_of_bytes, low_bytes};

use std::alloc::AllocError;

/// The number in the first 4 bytes, and the bytes after it, if there are so many.
pub(crate) fn split_number(bytes: &[u8]) -> Option<(u32, &[u8])>
    ensures { MatchOption result (length bytes.now < 4)
        (λ r. (r.0 ≡ number_of_bytes (take 4 bytes.now)) × (r.1.now ≡ drop 4 bytes.now)
        × (length r.1.now + 4 ≡ length bytes.now)) }
{
    match bytes {
        [a, b, c, d, rest @ ..] => Some((u32::from_le_bytes([*a, *b, *c, *d]), rest)),
        _ => None,
    }
}

/// Appends a number.
pub(crate) fn push_number(out: &mut Vec<u8>, number: u32) -> Result<(), AllocError>
    ensures { OnOk result (out.new.items ≡ out.old.items ++ low_bytes 4 number) }
{
    out.extend_from_slice(&number.to_le_bytes())
}

/// Appends an element behind its length.
pub(crate) fn push_item(out: &mut Vec<u8>, value: &[u8]) -> Result<(), AllocError>
    requires { length value.now < 2 ^ 32 }
    ensures { OnOk result (out.new.items
        ≡ out.old.items ++ (low_bytes 4 (length value.now) ++ value.now)) }
{
    push_number(out, value.len() as u32)?;
    out.extend_from_slice(value)
}
