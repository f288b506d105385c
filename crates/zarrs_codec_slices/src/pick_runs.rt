//! Runs of neighbouring picks of two lists.

ghost use Rattle.std.specs.Prelude.{◌≡◌, ◌+◌, ◌-◌, ◌++◌, ◌∷◌, [], ◌<◌, ◌^◌, length, IfOk, IfSome, OnOk};
ghost use Rattle.std.specs.List.{range_with_len};
ghost use Rattle.zarrs_codec_slices.specs.Picking.{AllBelow, replaced};
ghost use Rattle.zarrs_codec_slices.specs.PickedRuns.{run_numbers, AreRunsBelow, AreRunsOf};

use crate::picks::picks_of;
use std::alloc::{AllocError, Global};

// Appends the run of old elements before a place, and one of new elements from there on.
fn push_both(
    picks: &mut Vec<(u64, u64)>,
    before: (u64, u64),
    given: (u64, u64),
) -> Result<(), AllocError>
    ensures { OnOk result (picks.new.items ≡ picks.old.items ++ before ∷ given ∷ []) }
{
    picks.push(before)?;
    picks.push(given)?;
    Ok(())
}

// The picks of a list with the numbers of runs replaced. None where a run does not begin behind the one before it, as
// those of a box do.
fn rising_picks(
    alloc: Global,
    count: u64,
    runs: &[(u64, u64)],
) -> Result<Option<Vec<(u64, u64)>>, AllocError>
    requires within { AreRunsBelow count runs.now }
    ensures picks { IfOk result (λ o. IfSome o (λ v. run_numbers v.items
        ≡ replaced (run_numbers runs.now)
        (range_with_len count (length (run_numbers runs.now))) (range_with_len 0 count))) }
    ensures within { IfOk result (λ o. IfSome o
        (λ v. AreRunsOf count (length (run_numbers runs.now)) v.items)) }
{
    let mut picks = Vec::with_capacity(alloc, runs.len().saturating_mul(2))?;
    let mut next = 0;
    let mut given = count;
    for run in runs {
        let (start, len) = *run;
        if start < next {
            return Ok(None);
        }
        let Some(behind) = given.checked_add(len) else {
            return Err(AllocError);
        };
        push_both(&mut picks, (next, start - next), (given, len))?;
        next = start + len;
        given = behind;
    }
    picks.push((next, count - next))?;
    Ok(Some(picks))
}

// Appends the numbers of a run.
fn push_numbers(numbers: &mut Vec<u64>, first: u64, len: u64) -> Result<(), AllocError>
    requires { first + len < 2 ^ 64 }
    ensures { OnOk result (numbers.new.items
        ≡ numbers.old.items ++ range_with_len first len) }
{
    for number in first..first + len {
        numbers.push(number)?;
    }
    Ok(())
}

// The numbers of runs, one by one.
fn numbers_of(alloc: Global, count: u64, runs: &[(u64, u64)]) -> Result<Vec<u64>, AllocError>
    requires { AreRunsBelow count runs.now }
    ensures { IfOk result (λ v. v.items ≡ run_numbers runs.now) }
{
    let mut numbers = Vec::new(alloc);
    for run in runs {
        push_numbers(&mut numbers, run.0, run.1)?;
    }
    Ok(numbers)
}

// The same picks in any order of the runs.
#[tactic(auto, using(crate::proofs::PickRunLaws::numbers_below, crate::proofs::PickRunLaws::picks_below_both))]
fn listed_picks(
    alloc: Global,
    count: u64,
    runs: &[(u64, u64)],
) -> Result<Vec<(u64, u64)>, AllocError>
    requires within { AreRunsBelow count runs.now }
    ensures picks { IfOk result (λ v. run_numbers v.items
        ≡ replaced (run_numbers runs.now)
        (range_with_len count (length (run_numbers runs.now))) (range_with_len 0 count)) }
    ensures within { IfOk result
        (λ v. AreRunsOf count (length (run_numbers runs.now)) v.items) }
{
    let numbers = numbers_of(alloc, count, runs)?;
    let picks = picks_of(alloc, count, &numbers)?;
    runs_of(alloc, &picks, count, numbers.len() as u64)
}

/// For each place below the count, which element stands there once those at the numbers of the runs are replaced in
/// order: the old one, named by its place, or the last new one that was given to it, named by the count and its number.
///
/// # Errors
/// [`AllocError`] where memory runs out.
pub fn replaced_runs(
    alloc: Global,
    count: u64,
    runs: &[(u64, u64)],
) -> Result<Vec<(u64, u64)>, AllocError>
    requires { AreRunsBelow count runs.now }
    ensures picks { IfOk result (λ v. run_numbers v.items
        ≡ replaced (run_numbers runs.now)
        (range_with_len count (length (run_numbers runs.now))) (range_with_len 0 count)) }
    ensures within { IfOk result
        (λ v. AreRunsOf count (length (run_numbers runs.now)) v.items) }
{
    match rising_picks(alloc, count, runs)? {
        Some(picks) => Ok(picks),
        None => listed_picks(alloc, count, runs),
    }
}

/// The runs of neighbours that picks are, each of them below the count or from there on.
///
/// # Errors
/// [`AllocError`] where memory runs out.
pub fn runs_of(
    alloc: Global,
    picks: &[u64],
    count: u64,
    new_count: u64,
) -> Result<Vec<(u64, u64)>, AllocError>
    requires { AllBelow (count + new_count) picks.now }
    ensures picks { IfOk result (λ v. run_numbers v.items ≡ picks.now) }
    ensures within { IfOk result (λ v. AreRunsOf count new_count v.items) }
{
    let mut runs = Vec::new(alloc);
    let mut first = 0;
    let mut len = 0;
    for pick in picks {
        let pick = *pick;
        if pick != count && first <= pick && pick - first == len {
            len += 1;
            continue;
        }
        runs.push((first, len))?;
        first = pick;
        len = 1;
    }
    runs.push((first, len))?;
    Ok(runs)
}
