//! Which element of two lists stands at each place once some are replaced.

ghost use Rattle.std.specs.Prelude.{◌≡◌, ◌+◌, ◌<◌, ◌^◌, length, IfOk};
ghost use Rattle.std.specs.List.{range_with_len};
ghost use Rattle.zarrs_codec_slices.specs.Picking.{AllBelow, replaced};

use std::alloc::{AllocError, Global};

// Writes one number after another at the indices; the last one at an index stays.
fn put_from(picks: &mut [u64], indices: &[u64], from: u64)
    requires within { AllBelow (length picks.old) indices.now }
    requires fits { from + length indices.now < 2 ^ 64 }
    ensures { picks.new
        ≡ replaced indices.now (range_with_len from (length indices.now)) picks.old }
{
    let mut next = from;
    for index in indices {
        picks[*index as usize] = next;
        next += 1;
    }
}

// The numbers below a count.
fn places(alloc: Global, count: u64) -> Result<Vec<u64>, AllocError>
    ensures { IfOk result (λ v. v.items ≡ range_with_len 0 count) }
{
    let mut places = Vec::with_capacity(alloc, count as usize)?;
    for place in 0..count {
        places.push(place)?;
    }
    Ok(places)
}

fn put_in(picks: &mut Vec<u64>, indices: &[u64], from: u64)
    requires within { AllBelow (length picks.old.items) indices.now }
    requires fits { from + length indices.now < 2 ^ 64 }
    ensures { picks.new.items
        ≡ replaced indices.now (range_with_len from (length indices.now)) picks.old.items }
{
    put_from(picks.as_mut_slice(), indices, from);
}

/// For each place below the count, which element stands there once those at the indices are replaced in order: the old
/// one, named by its place, or the last new one that was given to it, named by the count and its number.
///
/// # Errors
/// [`AllocError`] where memory runs out.
#[tactic(auto, using(crate::proofs::PickLaws::length_of_places))]
pub fn picks_of(alloc: Global, count: u64, indices: &[u64]) -> Result<Vec<u64>, AllocError>
    requires within { AllBelow count indices.now }
    ensures { IfOk result (λ v. v.items ≡ replaced indices.now
        (range_with_len count (length indices.now)) (range_with_len 0 count)) }
{
    if count.checked_add(indices.len() as u64).is_none() {
        return Err(AllocError);
    }
    let mut picks = places(alloc, count)?;
    put_in(&mut picks, indices, count);
    Ok(picks)
}
