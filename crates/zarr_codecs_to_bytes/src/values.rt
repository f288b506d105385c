//! The values of elements of any length.

ghost use Rattle.std.specs.Prelude.{◌≡◌, ◌∷◌, [], ◌≤◌, ◌<◌, ◌-◌, ◌^◌, ◌++◌, ℕ, length, take, drop, suc, None, IfOk, OnOk, MatchOption};
ghost use Rattle.zarr_model.specs.ArrayBytes.{between_offsets};
ghost use Rattle.zarr_model.specs.Codec as model;
ghost use Rattle.zarr_model.specs.Codec.{low_bytes, decode_vlen, vlen_value};
ghost use Rattle.zarr_codecs_to_bytes.specs.Values.{items_of, elements_between, AreValues, AreBetween, IsFirstItem, HoldsElements, HoldsItems};

use crate::numbers::{push_item, push_number, split_number};
use std::alloc::{AllocError, Global};

// Appends the bytes between two offsets behind their length.
fn push_between(out: &mut Vec<u8>, bytes: &[u8], from: usize, to: usize) -> Result<(), AllocError>
    requires rise { from ≤ to }
    requires within { to ≤ length bytes.now }
    requires short { to - from < 2 ^ 32 }
    ensures { OnOk result (out.new.items
        ≡ out.old.items ++ items_of (take (to - from) (drop from bytes.now) ∷ [])) }
{
    push_item(out, &bytes[from..to])
}

// Appends the elements between the first offset and the others, each behind its length.
#[tactic(auto, using(crate::proofs::ValueLaws::step_within))]
fn push_items(
    out: &mut Vec<u8>,
    bytes: &[u8],
    first: usize,
    rest: &[usize],
) -> Result<(), AllocError>
    requires { AreBetween bytes.now first rest.now }
    ensures { OnOk result (out.new.items
        ≡ out.old.items ++ items_of (between_offsets (first ∷ rest.now) bytes.now)) }
{
    let mut from = first;
    for to in rest {
        push_between(out, bytes, from, *to)?;
        from = *to;
    }
    Ok(())
}

// Appends the number of the elements between some offsets, and each behind its length.
#[tactic(auto, using(crate::proofs::ValueLaws::between_first))]
fn push_elements(out: &mut Vec<u8>, bytes: &[u8], offsets: &[usize]) -> Result<(), AllocError>
    requires few { length offsets.now ≤ 2 ^ 32 }
    requires values { AreValues (length offsets.now - 1) bytes.now offsets.now }
    ensures { OnOk result (out.new.items ≡ out.old.items ++ (low_bytes 4 (length offsets.now - 1)
        ++ items_of (between_offsets offsets.now bytes.now))) }
{
    let [first, rest @ ..] = offsets else {
        unreachable!();
    };
    push_number(out, rest.len() as u32)?;
    push_items(out, bytes, *first, rest)
}

/// The value of the elements between some offsets: how many they are in 4 bytes, and each behind its length in 4 bytes.
///
/// # Errors
/// [`AllocError`] where memory runs out.
#[tactic(auto, using(crate::proofs::ValueLaws::value_is))]
pub fn encode_values(alloc: Global, bytes: &[u8], offsets: &[usize]) -> Result<Vec<u8>, AllocError>
    requires few { length offsets.now ≤ 2 ^ 32 }
    requires values { AreValues (length offsets.now - 1) bytes.now offsets.now }
    ensures { IfOk result
        (λ v. v.items ≡ vlen_value (elements_between offsets.now bytes.now)) }
{
    let lengths = offsets.len().saturating_mul(4);
    let mut value = Vec::with_capacity(alloc, lengths.saturating_add(bytes.len()))?;
    push_elements(&mut value, bytes, offsets)?;
    Ok(value)
}

// The first item, and what follows it.
#[tactic(auto, using(crate::proofs::ValueLaws::no_length, crate::proofs::ValueLaws::no_item, crate::proofs::ValueLaws::first_item))]
fn split_item(items: &[u8]) -> Option<(&[u8], &[u8])>
    ensures { MatchOption result
        ((k : ℕ) → model.decode_items (suc k) items.now ≡ None)
        (λ r. IsFirstItem items.now r.0.now r.1.now) }
{
    let (size, behind) = split_number(items)?;
    behind.split_at_checked(size as usize)
}

// Appends an element's bytes and where it ends.
fn push_value(bytes: &mut Vec<u8>, offsets: &mut Vec<usize>, value: &[u8]) -> Result<(), AllocError>
    ensures { OnOk result ((bytes.new.items ≡ bytes.old.items ++ value.now)
        × (offsets.new.items ≡ offsets.old.items ++ length (bytes.old.items ++ value.now) ∷ [])) }
{
    bytes.extend_from_slice(value)?;
    offsets.push(bytes.len())?;
    Ok(())
}

// The bytes and the offsets of so many elements, each behind its length, and nothing after them. No more room is taken
// than the items can fill, whatever the number says.
fn decode_items(
    alloc: Global,
    items: &[u8],
    elements: u64,
) -> Result<Option<(Vec<u8>, Vec<usize>)>, AllocError>
    ensures { IfOk result (λ r. MatchOption r
        (model.decode_items elements items.now ≡ None)
        (λ p. HoldsItems elements items.now p.0.items p.1.items)) }
{
    let most = elements.min(items.len() as u64 / 4) as usize;
    let lengths = most.saturating_mul(4);
    let mut bytes = Vec::with_capacity(alloc, items.len().saturating_sub(lengths))?;
    let mut offsets: Vec<usize> = Vec::with_capacity(alloc, most.saturating_add(1))?;
    offsets.push(0)?;
    let mut rest = items;
    let mut left = elements;
    while left > 0 {
        let Some((item, behind)) = split_item(rest) else {
            return Ok(None);
        };
        push_value(&mut bytes, &mut offsets, item)?;
        rest = behind;
        left -= 1;
    }
    if !rest.is_empty() {
        return Ok(None);
    }
    Ok(Some((bytes, offsets)))
}

/// The bytes and the offsets of so many elements, and [`None`] exactly where the value is not theirs: their number,
/// then each behind its length, and nothing after them.
///
/// # Errors
/// [`AllocError`] where memory runs out.
#[tactic(auto, using(crate::proofs::ValueLaws::no_number, crate::proofs::ValueLaws::other_number, crate::proofs::ValueLaws::same_number, crate::proofs::ValueLaws::held_items))]
pub fn decode_values(
    alloc: Global,
    value: &[u8],
    elements: u64,
) -> Result<Option<(Vec<u8>, Vec<usize>)>, AllocError>
    ensures { IfOk result (λ r. MatchOption r (decode_vlen elements value.now ≡ None)
        (λ p. HoldsElements elements value.now p.0.items p.1.items)) }
{
    let Some((number, items)) = split_number(value) else {
        return Ok(None);
    };
    if number as u64 != elements {
        return Ok(None);
    }
    decode_items(alloc, items, elements)
}
