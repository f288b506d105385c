//! Runs of elements of one size, picked out of two lists.

ghost use Rattle.std.specs.Prelude.{◌≡◌, ◌+◌, ◌*◌, ◌<◌, ◌≤◌, length, IfOk};
ghost use Rattle.std.specs.List.{flat_map, range_with_len};
ghost use Rattle.zarrs_codec_slices.specs.Picking.{piece_of, picked_piece};
ghost use Rattle.zarrs_codec_slices.specs.PickedRuns.{run_numbers, AreRunsOf};

use std::alloc::{AllocError, Global};

// The elements of a run.
#[tactic(auto, using(crate::proofs::PieceRunLaws::run_starts, crate::proofs::PieceRunLaws::run_ends))]
fn run_at(bytes: &[u8], start: u64, len: u64, size: usize, count: u64) -> &[u8]
    requires within { start + len ≤ count }
    requires long { length bytes.now ≡ count * size }
    ensures { result.now ≡ flat_map (piece_of size bytes.now) (range_with_len start len) }
{
    let from = start as usize * size;
    let to = (start + len) as usize * size;
    &bytes[from..to]
}

// The elements of a run of the first list, or behind it of the second one.
fn picked_run<'a>(
    run: (u64, u64),
    count: u64,
    old: &'a [u8],
    new_count: u64,
    new: &'a [u8],
    size: usize,
) -> &'a [u8]
    requires first { run.0 < count → run.0 + run.1 ≤ count }
    requires within { run.0 + run.1 ≤ count + new_count }
    requires old_long { length old.now ≡ count * size }
    requires new_long { length new.now ≡ new_count * size }
    ensures { result.now
        ≡ flat_map (picked_piece size count old.now new.now) (range_with_len run.0 run.1) }
{
    let (start, len) = run;
    if start < count {
        run_at(old, start, len, size, count)
    } else {
        run_at(new, start - count, len, size, new_count)
    }
}

/// The elements of runs, one after another: those below the count of the first list, the others of the second. Both
/// lists have elements of `size` bytes.
///
/// # Errors
/// [`AllocError`] where memory runs out.
pub fn gather_piece_runs(
    alloc: Global,
    runs: &[(u64, u64)],
    count: u64,
    old: &[u8],
    new_count: u64,
    new: &[u8],
    size: usize,
) -> Result<Vec<u8>, AllocError>
    requires within { AreRunsOf count new_count runs.now }
    requires old_long { length old.now ≡ count * size }
    requires new_long { length new.now ≡ new_count * size }
    ensures { IfOk result (λ v. v.items
        ≡ flat_map (picked_piece size count old.now new.now) (run_numbers runs.now)) }
{
    let mut out = Vec::new(alloc);
    for run in runs {
        let elements = picked_run(*run, count, old, new_count, new, size);
        out.extend_from_slice(elements)?;
    }
    Ok(out)
}
