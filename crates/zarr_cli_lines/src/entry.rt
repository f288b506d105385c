//! Key lines: `key`, a key of the store, and its value in hexadecimal.

ghost use Rattle.std.specs.Prelude.{◌≡◌, ◌++◌, IfOk, OnOk, option_map};
ghost use Rattle.zarr_cli_lines.specs.Text.{entry_of_line, entry_text, line_of};
ghost use Rattle.zarr_cli_lines.specs.Parts.{entry_view};

use crate::digits::{parse_hex, push_hex};
use crate::parts::three_parts;
use std::alloc::{AllocError, Global};
use zarrs_storage::StoreKey;

/// A key of a store, and the value to be put under it.
#[derive(Debug, Drop)]
pub struct Entry {
    /// The key.
    pub key: StoreKey,
    /// The value.
    pub value: Vec<u8>,
}

/// The entry of a key line, if the line is one.
///
/// # Errors
/// [`AllocError`] where memory runs out.
pub fn parse_key_line(alloc: Global, line: &str) -> Result<Option<Entry>, AllocError>
    ensures { IfOk result (λ entry. option_map entry_view entry ≡ entry_of_line line.now) }
{
    let Some((word, key, value)) = three_parts(line, ' ') else {
        return Ok(None);
    };
    if word != "key" {
        return Ok(None);
    }
    let Ok(key) = StoreKey::new(String::from_str(alloc, key)?) else {
        return Ok(None);
    };
    let Some(value) = parse_hex(alloc, value)? else {
        return Ok(None);
    };
    Ok(Some(Entry { key, value }))
}

/// Appends the key line of a key and its value, in lower-case hexadecimal.
///
/// # Errors
/// [`AllocError`] where memory runs out; the text may then have a part of the line.
pub fn push_entry(text: &mut Vec<u8>, key: &StoreKey, value: &[u8]) -> Result<(), AllocError>
    ensures { OnOk result (text.new.items ≡ text.old.items
        ++ line_of (entry_text (key.now, value.now))) }
{
    let room = key
        .as_str()
        .len()
        .saturating_add(value.len().saturating_mul(2))
        .saturating_add(7);
    text.reserve(room)?;
    text.extend_from_slice(b"key ")?;
    text.extend_from_slice(key.as_str().as_bytes())?;
    text.push(b' ')?;
    push_hex(text, value)?;
    text.push(b'\n')?;
    Ok(())
}
