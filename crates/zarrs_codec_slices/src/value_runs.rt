//! Runs of elements of any length, between offsets.

ghost use Rattle.std.specs.Prelude.{◌≡◌, ◌+◌, ◌-◌, ◌++◌, ◌∷◌, ◌<◌, ◌≤◌, ◌^◌, length, map, IfOk, OnOk, true};
ghost use Rattle.std.specs.List.{flat_map, range_with_len};
ghost use Rattle.zarr_model.specs.ArrayBytes.{ends_from};
ghost use Rattle.zarrs_codec_slices.specs.Picking.{value_of, picked_value, are_within};
ghost use Rattle.zarrs_codec_slices.specs.PickedRuns.{run_numbers, AreRunsOf, StayBetween};

use std::alloc::{AllocError, Global};

// Appends offsets between a first and a last one, each as far behind a place as it is behind the first one.
fn append_ends(
    offsets: &mut Vec<usize>,
    more: &[usize],
    first: usize,
    last: usize,
    place: usize,
) -> Result<(), AllocError>
    requires between { StayBetween first last more.now }
    requires fits { place + (last - first) < 2 ^ 64 }
    ensures { OnOk result (offsets.new.items
        ≡ offsets.old.items ++ map (λ offset. place + (offset - first)) more.now) }
{
    offsets.reserve(more.len())?;
    for offset in more {
        offsets.push(place + (*offset - first))?;
    }
    Ok(())
}

// Appends the elements of a run.
#[tactic(auto, using(crate::proofs::PieceRunLaws::run_rises, crate::proofs::ValueLaws::value_ends, crate::proofs::PieceRunLaws::run_between))]
fn append_run(
    bytes: &mut Vec<u8>,
    offsets: &mut Vec<usize>,
    start: usize,
    len: usize,
    from: &[u8],
    from_offsets: &[usize],
) -> Result<(), AllocError>
    requires offsets_within { are_within from.now from_offsets.now ≡ true }
    requires within { start + len < length from_offsets.now }
    ensures values { OnOk result (bytes.new.items ≡ bytes.old.items
        ++ flat_map (value_of from.now from_offsets.now) (range_with_len start len)) }
    ensures offsets { OnOk result (offsets.new.items ≡ offsets.old.items
        ++ ends_from (length bytes.old.items)
        (map (value_of from.now from_offsets.now) (range_with_len start len))) }
{
    let place = bytes.len();
    let first = from_offsets[start];
    let last = from_offsets[start + len];
    bytes.extend_from_slice(&from[first..last])?;
    let _end = bytes.len();
    append_ends(
        offsets,
        &from_offsets[start + 1..start + len + 1],
        first,
        last,
        place,
    )
}

// Appends the elements of a run of the first list, or behind it of the second one.
fn append_picked(
    bytes: &mut Vec<u8>,
    offsets: &mut Vec<usize>,
    run: (u64, u64),
    count: u64,
    old: &[u8],
    old_offsets: &[usize],
    new: &[u8],
    new_offsets: &[usize],
) -> Result<(), AllocError>
    requires old_within { are_within old.now old_offsets.now ≡ true }
    requires new_within { are_within new.now new_offsets.now ≡ true }
    requires old_long { length old_offsets.now ≡ count + 1 }
    requires first { run.0 < count → run.0 + run.1 ≤ count }
    requires within { run.0 + run.1 < count + length new_offsets.now }
    ensures values { OnOk result (bytes.new.items ≡ bytes.old.items
        ++ flat_map (picked_value count old.now old_offsets.now new.now new_offsets.now)
        (range_with_len run.0 run.1)) }
    ensures offsets { OnOk result (offsets.new.items ≡ offsets.old.items
        ++ ends_from (length bytes.old.items)
        (map (picked_value count old.now old_offsets.now new.now new_offsets.now)
        (range_with_len run.0 run.1))) }
{
    let (start, len) = run;
    if start < count {
        append_run(
            bytes,
            offsets,
            start as usize,
            len as usize,
            old,
            old_offsets,
        )
    } else {
        let start = start - count;
        append_run(
            bytes,
            offsets,
            start as usize,
            len as usize,
            new,
            new_offsets,
        )
    }
}

/// The elements of runs, those below the count of the first list, the others of the second: their bytes one after
/// another, and their offsets.
///
/// # Errors
/// [`AllocError`] where memory runs out.
pub fn gather_value_runs(
    alloc: Global,
    runs: &[(u64, u64)],
    count: u64,
    old: &[u8],
    old_offsets: &[usize],
    new_count: u64,
    new: &[u8],
    new_offsets: &[usize],
) -> Result<(Vec<u8>, Vec<usize>), AllocError>
    requires within { AreRunsOf count new_count runs.now }
    requires old_within { are_within old.now old_offsets.now ≡ true }
    requires new_within { are_within new.now new_offsets.now ≡ true }
    requires old_long { length old_offsets.now ≡ count + 1 }
    requires new_long { length new_offsets.now ≡ new_count + 1 }
    ensures values { IfOk result (λ v. v.0.items
        ≡ flat_map (picked_value count old.now old_offsets.now new.now new_offsets.now)
        (run_numbers runs.now)) }
    ensures offsets { IfOk result (λ v. v.1.items ≡ 0 ∷ ends_from 0
        (map (picked_value count old.now old_offsets.now new.now new_offsets.now)
        (run_numbers runs.now))) }
    ensures within { IfOk result (λ v. are_within v.0.items v.1.items ≡ true) }
{
    let mut bytes = Vec::new(alloc);
    let mut offsets = vec![in alloc; 0]?;
    for run in runs {
        append_picked(
            &mut bytes,
            &mut offsets,
            *run,
            count,
            old,
            old_offsets,
            new,
            new_offsets,
        )?;
    }
    Ok((bytes, offsets))
}
