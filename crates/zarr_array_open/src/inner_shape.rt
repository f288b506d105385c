//! The lengths of inner chunks, which divide those of a chunk.

ghost use Rattle.std.specs.Prelude.{◌≡◌, true, false, nat_le, IfOk, IfSome, IfNone};
ghost use Rattle.std.specs.List.{list_all};
ghost use Rattle.zarrs_metadata_values.specs.Reading.{Reads};
ghost use Rattle.zarr_basics.specs.Lengths.{nonzeros};
ghost use Rattle.zarr_array_open.specs.Sharding.{are_inner_lengths, if_inner_lengths};

use std::alloc::{AllocError, Global};
use std::num::NonZeroU64;
use zarrs_array_subset::ChunkShape;
use zarrs_metadata_parts::MetadataError;

// Whether lengths are positive and divide those of a chunk, one for each dimension.
fn are_inner_lengths(chunk_shape: &[u64], lengths: &[u64]) -> bool
    ensures { result ≡ are_inner_lengths chunk_shape.now lengths.now }
{
    match chunk_shape {
        [] => lengths.is_empty(),
        [whole, chunk_shape @ ..] => match lengths {
            [] => false,
            [part, lengths @ ..] => {
                1 <= *part && *whole % *part == 0 && are_inner_lengths(chunk_shape, lengths)
            }
        },
    }
}

/// The numbers as lengths, if none is 0.
#[tactic(auto, using(crate::proofs::LengthLaws::zero_length))]
pub(crate) fn positive_lengths(
    alloc: Global,
    numbers: &[u64],
) -> Result<Option<ChunkShape>, AllocError>
    ensures some { IfOk result (λ shape. IfSome shape (λ v. nonzeros v.items ≡ numbers.now)) }
    ensures none { IfOk result (λ shape.
        IfNone shape (list_all (λ p. nat_le 1 p) numbers.now ≡ false)) }
{
    let mut lengths = Vec::with_capacity(alloc, numbers.len())?;
    for number in numbers {
        let Some(length) = NonZeroU64::new(*number) else {
            return Ok(None);
        };
        lengths.push(length)?;
    }
    Ok(Some(lengths))
}

/// The lengths as those of inner chunks, if they are of the form for chunks of a shape.
///
/// # Errors
/// `InvalidMetadata` exactly where they are not positive ones that divide the chunk's; or where memory runs out.
#[tactic(auto, using(crate::proofs::LengthLaws::none_cut))]
pub(crate) fn inner_lengths(
    alloc: Global,
    chunk_shape: &[u64],
    lengths: &[u64],
) -> Result<ChunkShape, MetadataError>
    ensures reads { Reads (λ v. nonzeros v.items) result
        (if_inner_lengths chunk_shape.now lengths.now) }
    ensures cut { IfOk result (λ v. are_inner_lengths chunk_shape.now (nonzeros v.items) ≡ true) }
{
    let Some(shape) = positive_lengths(alloc, lengths)? else {
        return Err(MetadataError::InvalidMetadata);
    };
    if are_inner_lengths(chunk_shape, lengths) {
        Ok(shape)
    } else {
        Err(MetadataError::InvalidMetadata)
    }
}
