//! One dimension of a grid of boundaries.

ghost use Rattle.std.specs.Prelude.{◌≡◌, ◌^◌, true, false, get_or, max, nat_lt, sum, IfOk, IfSome, IfNone};
ghost use Rattle.std.specs.Int.NonZero.{non_zero_u64_get};
ghost use Rattle.zarr_model.specs.Prelude.{starts_from, cuts, chunk_at, IsRising, largest};
ghost use Rattle.zarr_basics.specs.Lengths.{nonzeros};

use std::alloc::{AllocError, Global};
use std::num::NonZeroU64;

/// One dimension of a grid: its chunks one after another.
#[derive(Drop)]
pub struct BoundaryAxis {
    /// The length of each chunk.
    pub lengths: Vec<NonZeroU64>,
    /// Where each chunk begins.
    pub starts: Vec<u64>,
    ghost begin: { starts.items ≡ starts_from 0 (nonzeros lengths.items) },
}

// The chunk that an index is in, by where each begins.
#[tactic(auto, using(zarr_model::proofs::ReachedLaws::of_searches))]
fn chunk_in(starts: &[u64], index: u64) -> u64
    requires { IsRising starts.now }
    ensures { result ≡ chunk_at starts.now index }
{
    match starts.binary_search(&index) {
        Ok(chunk) => chunk as u64,
        Err(after) => after.saturating_sub(1) as u64,
    }
}

fn number_at(numbers: &[u64], place: u64) -> u64
    ensures { result ≡ get_or numbers.now place 0 }
{
    match numbers.get(place as usize) {
        Some(number) => *number,
        None => 0,
    }
}

fn length_at(lengths: &[NonZeroU64], place: u64) -> NonZeroU64
    ensures { non_zero_u64_get result ≡ get_or (nonzeros lengths.now) place 1 }
{
    match lengths.get(place as usize) {
        Some(length) => *length,
        None => NonZeroU64::MIN,
    }
}

// The largest of some lengths.
#[tactic(auto, using(crate::proofs::AxisFacts::of_largest))]
fn largest_in(lengths: &[NonZeroU64]) -> NonZeroU64
    ensures { non_zero_u64_get result ≡ max 1 (largest (nonzeros lengths.now)) }
{
    let mut most = 0;
    for length in lengths {
        if most < length.get() {
            most = length.get();
        }
    }
    match NonZeroU64::new(most) {
        Some(length) => length,
        None => NonZeroU64::MIN,
    }
}

impl BoundaryAxis {
    ghost use Rattle.zarr_basics.specs.Axes.{axis_lengths, axis_starts};

    /// The dimension of an array's length that these lengths cut, if they do: positive ones, each of which begins
    /// before the array ends, and the last of which reaches that end.
    ///
    /// # Errors
    /// [`AllocError`] where memory runs out.
    pub fn new(alloc: Global, extent: u64, lengths: &[u64]) -> Result<Option<Self>, AllocError>
        ensures cut { IfOk result (λ o. IfSome o (λ axis. cuts extent (axis_lengths axis) ≡ true)) }
        ensures lengths { IfOk result (λ o. IfSome o (λ axis. axis_lengths axis ≡ lengths.now)) }
        ensures none { IfOk result (λ o. IfNone o (cuts extent lengths.now ≡ false)) }
    {
        let mut left = extent;
        let mut kept = Vec::with_capacity(alloc, lengths.len())?;
        let mut starts = Vec::with_capacity(alloc, lengths.len())?;
        for length in lengths {
            if left == 0 {
                return Ok(None);
            }
            let Some(length) = NonZeroU64::new(*length) else {
                return Ok(None);
            };
            starts.push(extent.saturating_sub(left))?;
            kept.push(length)?;
            left = left.saturating_sub(length.get());
        }
        if left != 0 {
            return Ok(None);
        }
        Ok(Some(BoundaryAxis {
            lengths: kept,
            starts,
        }))
    }

    /// The chunk that an index is in.
    pub fn chunk_at(&self, index: u64) -> u64
        ensures { result ≡ chunk_at (axis_starts self.now) index }
    {
        chunk_in(&self.starts, index)
    }

    /// Where a chunk begins.
    pub fn start_of(&self, chunk: u64) -> u64
        ensures { result ≡ get_or (axis_starts self.now) chunk 0 }
    {
        number_at(&self.starts, chunk)
    }

    /// The length of a chunk.
    pub fn length_of(&self, chunk: u64) -> NonZeroU64
        ensures { non_zero_u64_get result ≡ get_or (axis_lengths self.now) chunk 1 }
    {
        length_at(&self.lengths, chunk)
    }

    /// The largest of the lengths, or 1 where there is none.
    pub fn largest(&self) -> NonZeroU64
        ensures { non_zero_u64_get result ≡ max 1 (largest (axis_lengths self.now)) }
    {
        largest_in(&self.lengths)
    }

    /// Whether all lengths together end within `u64`.
    pub fn end_fits(&self) -> bool
        ensures { result ≡ nat_lt (sum (axis_lengths self.now)) (2 ^ 64) }
    {
        if self.lengths.is_empty() {
            return true;
        }
        let last = self.lengths.len().saturating_sub(1) as u64;
        let length = self.length_of(last);
        self.start_of(last).checked_add(length.get()).is_some()
    }
}
