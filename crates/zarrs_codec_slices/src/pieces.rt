//! Elements of one size, picked out of two lists.

ghost use Rattle.std.specs.Prelude.{◌≡◌, ◌+◌, ◌*◌, ◌<◌, length, IfOk};
ghost use Rattle.std.specs.List.{flat_map};
ghost use Rattle.zarrs_codec_slices.specs.Picking.{AllBelow, piece_of, picked_piece};

use std::alloc::{AllocError, Global};

// The element at a place.
#[tactic(auto, using(crate::proofs::PieceLaws::piece_ends))]
fn piece_at(bytes: &[u8], place: u64, size: usize, count: u64) -> &[u8]
    requires within { place < count }
    requires long { length bytes.now ≡ count * size }
    ensures { result.now ≡ piece_of size bytes.now place }
{
    let from = place as usize * size;
    &bytes[from..from + size]
}

// The element that a pick names: one of the first list, or behind these one of the second.
fn picked<'a>(
    pick: u64,
    count: u64,
    old: &'a [u8],
    new_count: u64,
    new: &'a [u8],
    size: usize,
) -> &'a [u8]
    requires within { pick < count + new_count }
    requires old_long { length old.now ≡ count * size }
    requires new_long { length new.now ≡ new_count * size }
    ensures { result.now ≡ picked_piece size count old.now new.now pick }
{
    if pick < count {
        piece_at(old, pick, size, count)
    } else {
        piece_at(new, pick - count, size, new_count)
    }
}

/// The elements that the picks name, one after another: those below the count of the first list, the others of the
/// second. Both lists have elements of `size` bytes.
///
/// # Errors
/// [`AllocError`] where memory runs out.
pub fn gather_pieces(
    alloc: Global,
    picks: &[u64],
    count: u64,
    old: &[u8],
    new_count: u64,
    new: &[u8],
    size: usize,
) -> Result<Vec<u8>, AllocError>
    requires within { AllBelow (count + new_count) picks.now }
    requires old_long { length old.now ≡ count * size }
    requires new_long { length new.now ≡ new_count * size }
    ensures { IfOk result (λ v. v.items
        ≡ flat_map (picked_piece size count old.now new.now) picks.now) }
{
    let Some(len) = picks.len().checked_mul(size) else {
        return Err(AllocError);
    };
    let mut out = Vec::with_capacity(alloc, len)?;
    for pick in picks {
        let piece = picked(*pick, count, old, new_count, new, size);
        out.extend_from_slice(piece)?;
    }
    Ok(out)
}
