//! Chunks whose elements, or whose index, can't be addressed.

ghost use Rattle.std.specs.Prelude.{◌≡◌, IfOk};
ghost use Rattle.zarr_model.specs.Prelude.{count_of, is_too_large};
ghost use Rattle.zarr_array_open.specs.Parts.{documented_parts};
ghost use Rattle.zarr_array_open.specs.ShardOpening.{is_large_shard};

use crate::ArrayParts;
use crate::inner_shape::positive_lengths;
use std::alloc::{AllocError, Global};
use zarr_basics::limits::is_too_large;
use zarrs_chunk_grid::ChunkGridTraits;

// Whether there are too many elements of a size: as many as the greatest number, or more bytes than it.
#[tactic(auto, using(crate::proofs::ShardSizeLaws::none_large))]
fn are_too_many(alloc: Global, lengths: &[u64], size: Option<usize>) -> Result<bool, AllocError>
    ensures { IfOk result (λ large. large ≡ is_too_large size (count_of lengths.now)) }
{
    match positive_lengths(alloc, lengths)? {
        Some(lengths) => Ok(is_too_large(&lengths, size)),
        None => Ok(false),
    }
}

/// Whether a chunk, whose inner chunks are those of an array with its shape, has more elements or bytes than can be
/// addressed, of elements one more, or its index has more bytes.
///
/// # Errors
/// [`AllocError`] where memory runs out.
pub(crate) fn is_large_shard(
    alloc: Global,
    inner: &ArrayParts,
    checked: bool,
) -> Result<bool, AllocError>
    ensures { IfOk result (λ large. large ≡ is_large_shard (documented_parts inner.now) checked) }
{
    if are_too_many(alloc, inner.shape(), inner.data_type().fixed_size())? {
        return Ok(true);
    }
    are_too_many(alloc, inner.grid().grid_shape(), Some(16))
}
