//! Which element stands at each place of a box, run by run, once elements are given to some of its places.

ghost use Rattle.std.specs.Prelude.{IsPermutation, get_or, ◌-◌, ◌≡◌, ◌+◌, ◌++◌, ◌∷◌, [], ◌^◌, ◌<◌, length, replicate, IfOk, IfSome, OnOk, ℕ};
ghost use Rattle.std.specs.List.{All};
ghost use Rattle.zarrs_codec_slices.specs.PickedRuns.{run_numbers, AreRunsBelow};

use std::alloc::{AllocError, Global};
use zarrs_codec_slices::pick_runs::runs_of;

// A run of elements that were given to neighbouring places: the first place, the number of the first element, and how
// many.
#[derive(Clone, Copy)]
struct GivenRun {
    place: u64,
    number: u64,
    len: u64,
}

ghost use Rattle.zarr_array_boxes.specs.PlaceRuns.{given_at, numbered_from, AreRising, numbers_over, IsGivenWithin, ArePicksOver};

// Runs that were given one after another, with how many elements they are.
#[derive(Drop)]
struct NumberedRuns {
    runs: Vec<GivenRun>,
    total: u64,
}

// The runs with the numbers of their elements.
fn numbered(alloc: Global, runs: &[(u64, u64)]) -> Result<NumberedRuns, AllocError>
    ensures runs { IfOk result (λ v. v.runs.items ≡ numbered_from 0 runs.now) }
    ensures total { IfOk result (λ v. v.total ≡ length (run_numbers runs.now)) }
    ensures fits { IfOk result (λ v. v.total + 1 < 2 ^ 64) }
{
    let mut numbered = Vec::with_capacity(alloc, runs.len())?;
    let mut total: u64 = 0;
    for run in runs {
        let (place, len) = *run;
        let Some(behind) = total.checked_add(len) else {
            return Err(AllocError);
        };
        numbered.push(GivenRun {
            place,
            number: total,
            len,
        })?;
        total = behind;
    }
    if total.checked_add(1).is_none() {
        return Err(AllocError);
    }
    Ok(NumberedRuns {
        runs: numbered,
        total,
    })
}

// Appends one element so many times.
fn push_blanks(picks: &mut Vec<(u64, u64)>, blank: u64, len: u64) -> Result<(), AllocError>
    ensures { OnOk result (picks.new.items ≡ picks.old.items ++ replicate len (blank, 1)) }
{
    for _ in 0..len {
        picks.push((blank, 1))?;
    }
    Ok(())
}

// The picks of runs that rise, with the blank element where none is. None where a run begins before the end of the one
// before it.
fn rising_picks(
    alloc: Global,
    count: u64,
    given: &NumberedRuns,
) -> Result<Option<Vec<(u64, u64)>>, AllocError>
    requires within { All (IsGivenWithin count given.now.total) given.now.runs.items }
    ensures rising { IfOk result (λ o. IfSome o (λ _. AreRising 0 given.now.runs.items)) }
    ensures picks { IfOk result (λ o. IfSome o
        (λ v. run_numbers v.items ≡ numbers_over given.now.total count 0 given.now.runs.items)) }
    ensures within { IfOk result (λ o. IfSome o (λ v. AreRunsBelow (given.now.total + 1) v.items)) }
{
    let mut picks = Vec::with_capacity(alloc, given.runs.len())?;
    let mut next = 0;
    for run in &given.runs {
        if run.place < next {
            return Ok(None);
        }
        push_blanks(&mut picks, given.total, run.place - next)?;
        picks.push((run.number, run.len))?;
        next = run.place + run.len;
    }
    push_blanks(&mut picks, given.total, count - next)?;
    Ok(Some(picks))
}

// Writes the numbers of a run to its places.
fn put_run(picks: &mut [u64], run: GivenRun)
    requires { IsGivenWithin (length picks.old) (2 ^ 64) run }
    ensures long { length picks.new ≡ length picks.old }
    ensures each { (place : ℕ) → place < length picks.old → get_or picks.new place 0
        ≡ given_at place (get_or picks.old place 0) (run ∷ []) }
{
    for offset in 0..run.len {
        picks[(run.place + offset) as usize] = run.number + offset;
    }
}

// The same of runs in their order.
fn put_runs(picks: &mut [u64], runs: &[GivenRun])
    requires { All (IsGivenWithin (length picks.old) (2 ^ 64)) runs.now }
    ensures long { length picks.new ≡ length picks.old }
    ensures each { (place : ℕ) → place < length picks.old → get_or picks.new place 0
        ≡ given_at place (get_or picks.old place 0) runs.now }
{
    for run in runs {
        put_run(picks, *run);
    }
}

fn put_in(picks: &mut Vec<u64>, runs: &[GivenRun])
    requires { All (IsGivenWithin (length picks.old.items) (2 ^ 64)) runs.now }
    ensures long { length picks.new.items ≡ length picks.old.items }
    ensures each { (place : ℕ) → place < length picks.old.items → get_or picks.new.items place 0
        ≡ given_at place (get_or picks.old.items place 0) runs.now }
{
    put_runs(picks.as_mut_slice(), runs);
}

/// The picks of elements for the places of a box, and how many elements there are to pick.
#[derive(Drop)]
pub(crate) struct PlacePicks {
    pub(crate) runs: Vec<(u64, u64)>,
    pub(crate) total: u64,
}

// The runs in the order of their places.
fn in_order(alloc: Global, runs: &[(u64, u64)]) -> Result<NumberedRuns, AllocError>
    ensures runs { IfOk result (λ v. IsPermutation (numbered_from 0 runs.now) v.runs.items) }
    ensures total { IfOk result (λ v. v.total ≡ length (run_numbers runs.now)) }
    ensures fits { IfOk result (λ v. v.total + 1 < 2 ^ 64) }
{
    let NumberedRuns { runs, total } = numbered(alloc, runs)?;
    let mut sorted = runs;
    sorted.sort_by_key(|run| run.place)?;
    Ok(NumberedRuns {
        runs: sorted,
        total,
    })
}

// The picks where no two runs have a place in common.
fn picks_of_disjoint(
    alloc: Global,
    count: u64,
    runs: &[(u64, u64)],
) -> Result<Option<PlacePicks>, AllocError>
    requires { AreRunsBelow count runs.now }
    ensures { IfOk result (λ o. IfSome o (ArePicksOver count runs.now)) }
{
    let sorted = in_order(alloc, runs)?;
    let Some(picks) = rising_picks(alloc, count, &sorted)? else {
        return Ok(None);
    };
    Ok(Some(PlacePicks {
        runs: picks,
        total: sorted.total,
    }))
}

// The picks, place by place.
fn picks_of_any(alloc: Global, count: u64, runs: &[(u64, u64)]) -> Result<PlacePicks, AllocError>
    requires { AreRunsBelow count runs.now }
    ensures { IfOk result (ArePicksOver count runs.now) }
{
    let given = numbered(alloc, runs)?;
    let mut picks = vec![in alloc; given.total; count as usize]?;
    put_in(&mut picks, &given.runs);
    let runs = runs_of(alloc, &picks, given.total, 1)?;
    Ok(PlacePicks {
        runs,
        total: given.total,
    })
}

/// For each place below the count, which element stands there once elements are given to those of the runs, one after
/// another: the last one that was given to it, by its number, or the blank one, which is named by their number.
///
/// # Errors
/// [`AllocError`] where memory runs out.
pub(crate) fn picks_over_blank(
    alloc: Global,
    count: u64,
    runs: &[(u64, u64)],
) -> Result<PlacePicks, AllocError>
    requires { AreRunsBelow count runs.now }
    ensures { IfOk result (ArePicksOver count runs.now) }
{
    match picks_of_disjoint(alloc, count, runs)? {
        Some(picks) => Ok(picks),
        None => picks_of_any(alloc, count, runs),
    }
}
