//! Numbers of a regular grid, made of two lists place by place.

ghost use Rattle.std.specs.Prelude.{◌≡◌, IfOk};
ghost use Rattle.zarr_basics.specs.Lengths.{nonzeros};
ghost use Rattle.zarr_basics.specs.RegularEnds.{chunk_ends_fit};
ghost use Rattle.zarr_basics.specs.RegularGrid.{quotients_up, quotients, lasts, products};

use crate::limits::product;
use std::alloc::{AllocError, Global};
use std::num::NonZeroU64;

// How many chunks cover each length.
pub(super) fn counts(
    alloc: Global,
    shape: &[u64],
    lengths: &[NonZeroU64],
) -> Result<Vec<u64>, AllocError>
    ensures { IfOk result (λ v. v.items ≡ quotients_up shape.now lengths.now) }
{
    shape
        .iter()
        .zip(lengths)
        .map(|(n, p)| n.div_ceil(p.get()))
        .collect(alloc)
}

// The chunk of each index.
pub(super) fn quotients(
    alloc: Global,
    indices: &[u64],
    lengths: &[NonZeroU64],
) -> Result<Vec<u64>, AllocError>
    ensures { IfOk result (λ v. v.items ≡ quotients indices.now lengths.now) }
{
    indices
        .iter()
        .zip(lengths)
        .map(|(index, p)| *index / p.get())
        .collect(alloc)
}

// The chunk of the last index of each start and length.
pub(super) fn lasts(
    alloc: Global,
    start: &[u64],
    shape: &[u64],
    lengths: &[NonZeroU64],
) -> Result<Vec<u64>, AllocError>
    ensures { IfOk result (λ v. v.items ≡ lasts start.now shape.now lengths.now) }
{
    start
        .iter()
        .zip(shape)
        .zip(lengths)
        .map(|((s, n), p)| s.saturating_add(*n).saturating_sub(1) / p.get())
        .collect(alloc)
}

// Where each chunk starts.
pub(super) fn products(
    alloc: Global,
    chunk: &[u64],
    lengths: &[NonZeroU64],
) -> Result<Vec<u64>, AllocError>
    ensures { IfOk result (λ v. v.items ≡ products chunk.now lengths.now) }
{
    chunk
        .iter()
        .zip(lengths)
        .map(|(index, p)| index.saturating_mul(p.get()))
        .collect(alloc)
}

// Whether the last chunk of each dimension ends within `u64`.
pub(super) fn ends_fit(counts: &[u64], lengths: &[NonZeroU64]) -> bool
    ensures { result ≡ chunk_ends_fit counts.now (nonzeros lengths.now) }
{
    match counts {
        [] => true,
        [count, counts @ ..] => match lengths {
            [] => true,
            [length, lengths @ ..] => {
                if product(*count, length.get()).is_none() {
                    return false;
                }
                ends_fit(counts, lengths)
            }
        },
    }
}
