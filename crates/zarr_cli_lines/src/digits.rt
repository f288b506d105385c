//! Bytes in hexadecimal, behind an `h`.

ghost use Rattle.std.specs.Prelude.{◌≡◌, ◌*◌, ◌++◌, replicate, if◌then◌else◌, Some, None, IfOk, OnOk, option_map};
ghost use Rattle.std.specs.Result.{result_ok};
ghost use Rattle.hex.specs.Hex.{encode_lower, decode_of};
ghost use Rattle.zarr_cli_lines.specs.ElementText.{hex_of, hex_text};

use hex::FromHexError;
use std::alloc::{AllocError, Global};

/// The bytes that `h` and hexadecimal digits of either case denote.
///
/// # Errors
/// [`AllocError`] where memory runs out.
pub fn parse_hex(alloc: Global, text: &str) -> Result<Option<Vec<u8>>, AllocError>
    ensures { IfOk result (λ value. option_map (λ v. v.items) value ≡ hex_of text.now) }
{
    let Some(digits) = text.strip_prefix('h') else {
        return Ok(None);
    };
    match hex::decode(alloc, digits) {
        Ok(value) => Ok(Some(value)),
        Err(FromHexError::OutOfMemory) => Err(AllocError),
        Err(_) => Ok(None),
    }
}

/// Appends room for `count` pieces of `width` bytes.
pub(crate) fn push_room(text: &mut Vec<u8>, count: usize, width: usize) -> Result<(), AllocError>
    ensures { OnOk result (text.new.items ≡ text.old.items ++ replicate (count * width) 0) }
{
    let Some(room) = count.checked_mul(width) else {
        return Err(AllocError);
    };
    let Some(all) = text.len().checked_add(room) else {
        return Err(AllocError);
    };
    text.resize(all, 0)
}

// Appends the bytes that hexadecimal digits denote, if they go in pairs and each is one.
#[tactic(auto, using(crate::proofs::DigitLemmas::digits_put, crate::proofs::DigitLemmas::digits_none))]
fn push_decoded(value: &mut Vec<u8>, digits: &str) -> Result<bool, AllocError>
    ensures { IfOk result (λ pushed. (if pushed then Some value.new.items else None)
        ≡ option_map (λ bytes. value.old.items ++ bytes) (result_ok (decode_of digits.now))) }
{
    let before = value.len();
    push_room(value, digits.len() / 2, 1)?;
    Ok(hex::decode_to_slice(digits, &mut value[before..]).is_ok())
}

/// Appends the bytes that `h` and hexadecimal digits of either case denote, decoded where they stay, and says whether
/// the text is such. Else the value may have more bytes.
///
/// An error comes only for want of memory.
pub(crate) fn push_parsed(value: &mut Vec<u8>, text: &str) -> Result<bool, AllocError>
    ensures { IfOk result (λ pushed. (if pushed then Some value.new.items else None)
        ≡ option_map (λ bytes. value.old.items ++ bytes) (hex_of text.now)) }
{
    let Some(digits) = text.strip_prefix('h') else {
        return Ok(false);
    };
    push_decoded(value, digits)
}

// Appends two lower-case digits for each byte.
fn push_bytes(text: &mut Vec<u8>, value: &[u8]) -> Result<(), AllocError>
    ensures { OnOk result (text.new.items ≡ text.old.items ++ encode_lower value.now) }
{
    let before = text.len();
    push_room(text, value.len(), 2)?;
    let Ok(()) = hex::encode_to_slice(value, &mut text[before..]) else {
        unreachable!();
    };
    Ok(())
}

/// Appends `h` and two lower-case digits for each byte.
///
/// # Errors
/// [`AllocError`] where memory runs out; the text may then have a part of them.
pub fn push_hex(text: &mut Vec<u8>, value: &[u8]) -> Result<(), AllocError>
    ensures { OnOk result (text.new.items ≡ text.old.items ++ hex_text value.now) }
{
    text.push(b'h')?;
    push_bytes(text, value)
}
