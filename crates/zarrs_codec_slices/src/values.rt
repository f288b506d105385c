//! Elements of any length, between offsets.

ghost use Rattle.std.specs.Prelude.{◌≡◌, ◌+◌, ◌∷◌, ◌<◌, ◌↔◌, length, map, replicate, IfOk, IsTrue, true};
ghost use Rattle.std.specs.List.{flat_map};
ghost use Rattle.zarr_model.specs.ArrayBytes.{ends_from};
ghost use Rattle.zarrs_data_type_bytes.specs.Pieces.{repeated};
ghost use Rattle.zarrs_codec_slices.specs.Picking.{AllBelow, value_of, picked_value, are_within};
ghost use Rattle.zarrs_codec_slices.specs.Filling.{AreFilledValues};

use std::alloc::{AllocError, Global};

/// The element at a place: the bytes between its offset and the next.
#[tactic(auto, using(crate::proofs::ValueLaws::value_rises, crate::proofs::ValueLaws::value_ends))]
pub fn value_at<'a>(bytes: &'a [u8], offsets: &[usize], place: u64) -> &'a [u8]
    requires offsets_within { are_within bytes.now offsets.now ≡ true }
    requires within { place + 1 < length offsets.now }
    ensures { result.now ≡ value_of bytes.now offsets.now place }
{
    let from = offsets[place as usize];
    let to = offsets[place as usize + 1];
    &bytes[from..to]
}

// The element that a pick names: one of the first list, or behind these one of the second.
fn picked<'a>(
    pick: u64,
    count: u64,
    old: &'a [u8],
    old_offsets: &[usize],
    new: &'a [u8],
    new_offsets: &[usize],
) -> &'a [u8]
    requires old_within { are_within old.now old_offsets.now ≡ true }
    requires new_within { are_within new.now new_offsets.now ≡ true }
    requires old_long { length old_offsets.now ≡ count + 1 }
    requires within { pick + 1 < count + length new_offsets.now }
    ensures { result.now
        ≡ picked_value count old.now old_offsets.now new.now new_offsets.now pick }
{
    if pick < count {
        value_at(old, old_offsets, pick)
    } else {
        value_at(new, new_offsets, pick - count)
    }
}

/// The elements that the picks name, those below the count of the first list, the others of the second: their bytes one
/// after another, and their offsets.
///
/// # Errors
/// [`AllocError`] where memory runs out.
pub fn gather_values(
    alloc: Global,
    picks: &[u64],
    count: u64,
    old: &[u8],
    old_offsets: &[usize],
    new_count: u64,
    new: &[u8],
    new_offsets: &[usize],
) -> Result<(Vec<u8>, Vec<usize>), AllocError>
    requires within { AllBelow (count + new_count) picks.now }
    requires old_within { are_within old.now old_offsets.now ≡ true }
    requires new_within { are_within new.now new_offsets.now ≡ true }
    requires old_long { length old_offsets.now ≡ count + 1 }
    requires new_long { length new_offsets.now ≡ new_count + 1 }
    ensures values { IfOk result (λ v. v.0.items
        ≡ flat_map (picked_value count old.now old_offsets.now new.now new_offsets.now) picks.now) }
    ensures offsets { IfOk result (λ v. v.1.items ≡ 0 ∷ ends_from 0
        (map (picked_value count old.now old_offsets.now new.now new_offsets.now) picks.now)) }
    ensures within { IfOk result (λ v. are_within v.0.items v.1.items ≡ true) }
{
    let mut bytes = Vec::new(alloc);
    let mut offsets = Vec::with_capacity(alloc, picks.len().saturating_add(1))?;
    offsets.push(0)?;
    for pick in picks {
        let value = picked(*pick, count, old, old_offsets, new, new_offsets);
        bytes.extend_from_slice(value)?;
        offsets.push(bytes.len())?;
    }
    Ok((bytes, offsets))
}

/// So many elements with the same bytes: these one after another, and their offsets.
///
/// # Errors
/// [`AllocError`] where memory runs out.
#[tactic(auto, using(crate::proofs::RepeatLaws::more_bytes, crate::proofs::RepeatLaws::more_offsets))]
pub fn repeated_values(
    alloc: Global,
    value: &[u8],
    count: usize,
) -> Result<(Vec<u8>, Vec<usize>), AllocError>
    ensures values { IfOk result (λ v. v.0.items ≡ repeated count value.now) }
    ensures offsets { IfOk result
        (λ v. v.1.items ≡ 0 ∷ ends_from 0 (replicate count value.now)) }
    ensures within { IfOk result (λ v. are_within v.0.items v.1.items ≡ true) }
{
    let Some(len) = count.checked_mul(value.len()) else {
        return Err(AllocError);
    };
    let mut bytes = Vec::with_capacity(alloc, len)?;
    let mut offsets = Vec::with_capacity(alloc, count.saturating_add(1))?;
    offsets.push(0)?;
    for _ in 0..count {
        bytes.extend_from_slice(value)?;
        offsets.push(bytes.len())?;
    }
    Ok((bytes, offsets))
}

// Whether the element at a place has these bytes.
fn is_value_at(bytes: &[u8], offsets: &[usize], place: usize, value: &[u8]) -> bool
    requires offsets_within { are_within bytes.now offsets.now ≡ true }
    requires within { place + 1 < length offsets.now }
    ensures { IsTrue result ↔ (value_of bytes.now offsets.now place ≡ value.now) }
{
    value_at(bytes, offsets, place as u64) == value
}

/// Whether there is an element between the offsets, and each has these bytes.
pub fn are_values(bytes: &[u8], offsets: &[usize], value: &[u8]) -> bool
    requires { are_within bytes.now offsets.now ≡ true }
    ensures { IsTrue result ↔ AreFilledValues value.now bytes.now offsets.now }
{
    if offsets.len() < 2 {
        return false;
    }
    for place in 0..offsets.len() - 1 {
        let same = is_value_at(bytes, offsets, place, value);
        if !same {
            return false;
        }
    }
    true
}
