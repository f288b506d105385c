//! Parts put into a value.
ghost use Rattle.std.specs.Prelude.{◌≡◌, ◌+◌, ◌≤◌, length, OnOk, OnErr};
ghost use Rattle.zarrs_storage.specs.Parts.{PartsFit, end_of, filled_to, replaced_at, with_parts};

use crate::byte_range::OffsetBytes;
use std::alloc::AllocError;

// Where the last of the parts ends that ends last, and 0 where there are none.
fn end_of_parts(parts: &[OffsetBytes]) -> usize
    requires { PartsFit parts.now }
    ensures { result ≡ end_of parts.now }
{
    let mut end = 0_usize;
    for part in parts {
        end = end.max(part.offset as usize + part.bytes.len());
    }
    end
}

// Puts bytes into a value at a place.
fn put_bytes(value: &mut Vec<u8>, start: usize, bytes: &[u8])
    requires { start + length bytes.now ≤ length value.old.items }
    ensures { value.new.items ≡ replaced_at start bytes.now value.old.items }
{
    value[start..start + bytes.len()].copy_from_slice(bytes);
}

// Puts parts into a value that is long enough for all of them.
fn overwrite(value: &mut Vec<u8>, parts: &[OffsetBytes])
    requires { end_of parts.now ≤ length value.old.items }
    ensures { value.new.items ≡ with_parts parts.now value.old.items }
{
    for part in parts {
        put_bytes(value, part.offset as usize, &part.bytes);
    }
}

// Fills a value up with zero bytes to a length.
fn fill_up(value: &mut Vec<u8>, end: usize) -> Result<(), AllocError>
    ensures ok { OnOk result (value.new.items ≡ filled_to end value.old.items) }
    ensures err { OnErr result (value.new.items ≡ value.old.items) }
{
    if end <= value.len() {
        return Ok(());
    }
    value.resize(end, 0)
}

/// Puts each part into a value, in order: the value is filled up with zero bytes to the part's end, and the part
/// replaces the bytes at its place.
///
/// # Errors
/// [`AllocError`] where memory runs out: the bytes are as before.
pub fn put_parts(value: &mut Vec<u8>, parts: &[OffsetBytes]) -> Result<(), AllocError>
    requires fit { PartsFit parts.now }
    ensures ok { OnOk result (value.new.items ≡ with_parts parts.now value.old.items) }
    ensures err { OnErr result (value.new.items ≡ value.old.items) }
{
    fill_up(value, end_of_parts(parts))?;
    overwrite(value, parts);
    Ok(())
}
