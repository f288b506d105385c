//! Elements of one size: `h` and two hexadecimal digits for each byte, and a space between two elements.

ghost use Rattle.std.specs.Prelude.{◌≡◌, ◌<◌, ◌≤◌, ◌+◌, ◌*◌, ◌/◌, [], ◌∷◌, ◌++◌, length, take, if◌then◌else◌, Some, None, IfOk, IfSome, IfNone, OnOk, option_map};
ghost use Rattle.hex.specs.Hex.{encode_lower};
ghost use Rattle.zarr_model.specs.Prelude.{fixed};
ghost use Rattle.zarr_cli_lines.specs.ElementText.{split_at, words_left, element_of, hex_text};
ghost use Rattle.zarr_cli_lines.specs.Fixed.{behind_space, IsElement, PushesElement, written_bytes, room_left, bytes_text};

use crate::digits::push_room;
use std::alloc::{AllocError, Global};

// Digits at the front, two for each byte of an element, and what follows the space behind them.
#[tactic(auto, using(crate::proofs::FixedLemmas::no_digits))]
fn digits_first(text: &[u8], size: usize) -> Option<(&[u8], Option<&[u8]>)>
    ensures text { IfSome result (λ first. text.now ≡ first.0.now ++ behind_space first.1) }
    ensures digits { IfSome result (λ first. length first.0.now ≡ 2 * size) }
    ensures none { IfNone result (written_bytes size (split_at 32 (104 ∷ text.now)) ≡ None) }
{
    let (digits, behind) = text.split_at_checked(size.saturating_mul(2))?;
    match behind {
        [] => Some((digits, None)),
        [separator, rest @ ..] => {
            if *separator == b' ' {
                Some((digits, Some(rest)))
            } else {
                None
            }
        }
    }
}

// The digits of an element at the front of a text, and what follows the space behind them.
#[tactic(auto, using(crate::proofs::FixedLemmas::no_h))]
fn first_digits(text: &[u8], size: usize) -> Option<(&[u8], Option<&[u8]>)>
    ensures text { IfSome result (λ first. text.now ≡ 104 ∷ (first.0.now ++ behind_space first.1)) }
    ensures digits { IfSome result (λ first. length first.0.now ≡ 2 * size) }
    ensures none { IfNone result (written_bytes size (split_at 32 text.now) ≡ None) }
{
    match text {
        [b'h', others @ ..] => digits_first(others, size),
        _ => None,
    }
}

// Decodes digits into as many bytes as they denote, if all are hexadecimal.
#[tactic(auto, using(crate::proofs::FixedLemmas::element_of_decoded, crate::proofs::FixedLemmas::element_of_undecoded))]
fn decode_into(digits: &[u8], bytes: &mut [u8]) -> bool
    requires { length digits.now ≡ 2 * length bytes.old }
    ensures { IsElement (element_of (fixed (length bytes.old)) (104 ∷ digits.now)) result
        bytes.new }
{
    hex::decode_to_slice(digits, bytes).is_ok()
}

// Decodes digits into the places from `at` on, if all are hexadecimal.
#[tactic(auto, using(crate::proofs::FixedLemmas::element_put))]
fn put_bytes(places: &mut [u8], at: usize, digits: &[u8], size: usize) -> bool
    requires digits { length digits.now ≡ 2 * size }
    requires room { at + size ≤ length places.old }
    ensures pushes { PushesElement (element_of (fixed size) (104 ∷ digits.now)) result
        (take at places.old) (take (at + size) places.new) }
    ensures length { length places.new ≡ length places.old }
{
    decode_into(digits, &mut places[at..at + size])
}

// The two digits of an element of one byte, and what follows the space behind them.
#[tactic(auto, using(crate::proofs::FixedLemmas::no_digits))]
fn pair_first(text: &[u8]) -> Option<(u8, u8, Option<&[u8]>)>
    ensures text { IfSome result (λ first. text.now ≡ first.0 ∷ first.1 ∷ behind_space first.2) }
    ensures none { IfNone result (written_bytes 1 (split_at 32 (104 ∷ text.now)) ≡ None) }
{
    match text {
        [high, low] => Some((*high, *low, None)),
        [high, low, separator, rest @ ..] => {
            if *separator == b' ' {
                Some((*high, *low, Some(rest)))
            } else {
                None
            }
        }
        _ => None,
    }
}

// The two digits of an element of one byte at the front of a text, and what follows the space behind them.
#[tactic(auto, using(crate::proofs::FixedLemmas::no_h))]
fn first_pair(text: &[u8]) -> Option<(u8, u8, Option<&[u8]>)>
    ensures text { IfSome result (λ first. text.now ≡ 104 ∷ first.0 ∷ first.1
        ∷ behind_space first.2) }
    ensures none { IfNone result (written_bytes 1 (split_at 32 text.now) ≡ None) }
{
    match text {
        [b'h', others @ ..] => pair_first(others),
        _ => None,
    }
}

// Appends the byte that two digits denote, if both are hexadecimal. An error comes only for want of memory.
fn push_byte(value: &mut Vec<u8>, high: u8, low: u8) -> Result<bool, AllocError>
    ensures { IfOk result (λ pushed. PushesElement (element_of (fixed 1)
        (104 ∷ high ∷ low ∷ [])) pushed value.old.items value.new.items) }
{
    let mut byte = [0];
    let decoded = decode_into(&[high, low], &mut byte);
    if decoded {
        value.push(byte[0])?;
    }
    Ok(decoded)
}

// The bytes of elements of one byte each, with one space between two. No text has no elements.
#[tactic(auto, using(crate::proofs::FixedLemmas::of_words))]
fn parse_bytes(alloc: Global, text: Option<&str>) -> Result<Option<Vec<u8>>, AllocError>
    ensures { IfOk result (λ value. option_map (λ v. v.items) value
        ≡ written_bytes 1 (words_left text.entry)) }
{
    let room = text.map_or(0, |text| text.len() / 4 + 1);
    let mut value = Vec::with_capacity(alloc, room)?;
    let mut left = text.map(|text| text.as_bytes());
    'elements: while let Some(text) = left {
        let Some((high, low, rest)) = first_pair(text) else {
            return Ok(None);
        };
        if !push_byte(&mut value, high, low)? {
            return Ok(None);
        }
        left = rest;
    }
    Ok(Some(value))
}

// How many bytes the elements of a text have at most. Each stands there by its `h`, two digits a byte and a space.
fn room_for(text: Option<&str>, size: usize) -> usize
    ensures { result ≡ room_left size text.entry }
{
    let Some(text) = text else {
        return 0;
    };
    (text.len() + 1) / 2 / size.saturating_add(1) * size
}

// Decodes the words of a text into places that have room for them, and counts the bytes, if each is an element.
#[tactic(auto, using(crate::proofs::FixedLemmas::of_words))]
fn decode_words(places: &mut [u8], text: Option<&str>, size: usize) -> Option<usize>
    requires { room_left size text ≤ length places.old }
    ensures { option_map (λ count. take count places.new) result
        ≡ written_bytes size (words_left text.entry) }
{
    let mut at = 0;
    let mut left = text.map(|text| text.as_bytes());
    'elements: while let Some(text) = left {
        let (digits, rest) = first_digits(text, size)?;
        if !put_bytes(places, at, digits, size) {
            return None;
        }
        at += size;
        left = rest;
    }
    Some(at)
}

// Decodes the words of a text into bytes that have room for them, and cuts off what is left, if each is an element.
fn fill_room(value: &mut Vec<u8>, text: Option<&str>, size: usize) -> bool
    requires { room_left size text ≤ length value.old.items }
    ensures { (if result then Some value.new.items else None)
        ≡ written_bytes size (words_left text.entry) }
{
    let Some(count) = decode_words(value.as_mut_slice(), text, size) else {
        return false;
    };
    value.truncate(count);
    true
}

/// The bytes of elements of `size` bytes each, with one space between two. No text has no elements.
///
/// An error comes only for want of memory.
pub(crate) fn parse_fixed(
    alloc: Global,
    text: Option<&str>,
    size: usize,
) -> Result<Option<Vec<u8>>, AllocError>
    ensures { IfOk result (λ value. option_map (λ v. v.items) value
        ≡ written_bytes size (words_left text.entry)) }
{
    if size == 1 {
        return parse_bytes(alloc, text);
    }
    let mut value = Vec::new(alloc);
    value.resize(room_for(text, size), 0)?;
    if fill_room(&mut value, text, size) {
        Ok(Some(value))
    } else {
        Ok(None)
    }
}

// The two lower-case digits of a byte.
fn digits_of(byte: u8) -> [u8; 2]
    ensures { result ≡ encode_lower (byte ∷ []) }
{
    let mut digits = [0; 2];
    let Ok(()) = hex::encode_to_slice([byte], &mut digits) else {
        unreachable!();
    };
    digits
}

// Writes a space and the text of an element.
fn write_element(slot: &mut [u8], element: &[u8])
    requires { length slot.old ≡ 2 + 2 * length element.now }
    ensures { slot.new ≡ 32 ∷ hex_text element.now }
{
    let (front, digits) = slot.split_at_mut(2);
    front[0] = b' ';
    front[1] = b'h';
    let Ok(()) = hex::encode_to_slice(element, digits) else {
        unreachable!();
    };
}

// Writes a space and the text of an element of one byte, in one piece.
fn write_byte(slot: &mut [u8], byte: u8)
    requires { length slot.old ≡ 4 }
    ensures { slot.new ≡ 32 ∷ hex_text (byte ∷ []) }
{
    let [high, low] = digits_of(byte);
    slot[0] = b' ';
    slot[1] = b'h';
    slot[2] = high;
    slot[3] = low;
}

// The same of each byte, 4 bytes for each.
#[tactic(auto, using(crate::proofs::TextLemmas::next_byte))]
fn write_bytes(slots: &mut [u8], bytes: &[u8])
    requires { length slots.old ≡ length bytes.now * 4 }
    ensures { slots.new ≡ bytes_text 1 bytes.now }
{
    for k in 0..bytes.len() {
        write_byte(&mut slots[k * 4..k * 4 + 4], bytes[k]);
    }
}

// Writes a space and the text of each element of `size` bytes, `width` bytes for each.
#[tactic(auto, using(crate::proofs::TextLemmas::next_slot))]
fn write_elements(slots: &mut [u8], elements: &[u8], size: usize, width: usize)
    requires some { 0 < size }
    requires wide { width ≡ 2 + 2 * size }
    requires room { length slots.old ≡ length elements.now / size * width }
    ensures { slots.new ≡ bytes_text size elements.now }
{
    for k in 0..elements.len() / size {
        write_element(
            &mut slots[k * width..k * width + width],
            &elements[k * size..k * size + size],
        );
    }
}

// The same, whatever the size is.
fn write_slots(slots: &mut [u8], elements: &[u8], size: usize, width: usize)
    requires some { 0 < size }
    requires wide { width ≡ 2 + 2 * size }
    requires room { length slots.old ≡ length elements.now / size * width }
    ensures { slots.new ≡ bytes_text size elements.now }
{
    if size == 1 {
        write_bytes(slots, elements);
    } else {
        write_elements(slots, elements, size, width);
    }
}

/// Appends a space and the text of each element of `size` bytes. The room for them is taken first.
///
/// An error comes only for want of memory.
pub(crate) fn push_fixed(text: &mut Vec<u8>, elements: &[u8], size: usize) -> Result<(), AllocError>
    requires { 0 < size }
    ensures { OnOk result (text.new.items ≡ text.old.items ++ bytes_text size elements.now) }
{
    let Some(digits) = size.checked_mul(2) else {
        return Err(AllocError);
    };
    let Some(width) = digits.checked_add(2) else {
        return Err(AllocError);
    };
    let before = text.len();
    push_room(text, elements.len() / size, width)?;
    write_slots(&mut text[before..], elements, size, width);
    Ok(())
}
