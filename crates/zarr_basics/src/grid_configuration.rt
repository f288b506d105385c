//! The configuration of the grid `regular`, read.

ghost use Rattle.std.specs.Prelude.{◌≡◌, IsTrue, IfOk, IfSome, IfNone, false, nat_le};
ghost use Rattle.std.specs.List.{list_all};
ghost use Rattle.zarrs_metadata_parts.specs.MetadataV3.{extension_seen};
ghost use Rattle.zarrs_metadata_values.specs.Reading.{Reads};
ghost use Rattle.zarr_basics.specs.Lengths.{nonzeros};
ghost use Rattle.zarr_basics.specs.GridConfigurations.{are_chunk_lengths, if_chunk_lengths, chunk_shape_in};

use std::alloc::{AllocError, Global};
use std::num::NonZeroU64;
use zarrs_array_subset::ChunkShape;
use zarrs_metadata_parts::json::read_whole_numbers;
use zarrs_metadata_parts::making::configured;
use zarrs_metadata_parts::{MetadataError, MetadataV3};
use zarrs_metadata_values::configuration::only_member;

fn are_positive(lengths: &[u64]) -> bool
    ensures { result ≡ list_all (λ p. nat_le 1 p) lengths.now }
{
    lengths.iter().all(|length| 1 <= *length)
}

// Whether lengths are positive, one for each dimension.
fn are_chunk_lengths(array_shape: &[u64], lengths: &[u64]) -> bool
    ensures { result ≡ are_chunk_lengths array_shape.now lengths.now }
{
    lengths.len() == array_shape.len() && are_positive(lengths)
}

// The lengths as numbers that are not 0, if none is 0.
#[tactic(auto, using(crate::proofs::LengthLaws::zero_length))]
fn positive_lengths(alloc: Global, lengths: &[u64]) -> Result<Option<ChunkShape>, AllocError>
    ensures some { IfOk result (λ shape. IfSome shape (λ v. nonzeros v.items ≡ lengths.now)) }
    ensures none { IfOk result (λ shape.
        IfNone shape (list_all (λ p. nat_le 1 p) lengths.now ≡ false)) }
{
    let mut shape = Vec::with_capacity(alloc, lengths.len())?;
    for length in lengths {
        let Some(length) = NonZeroU64::new(*length) else {
            return Ok(None);
        };
        shape.push(length)?;
    }
    Ok(Some(shape))
}

// The lengths as a chunk shape, if they are positive, one for each dimension.
fn chunk_lengths(
    alloc: Global,
    array_shape: &[u64],
    lengths: &[u64],
) -> Result<ChunkShape, MetadataError>
    ensures reads { Reads (λ v. nonzeros v.items) result
        (if_chunk_lengths array_shape.now lengths.now) }
    ensures lengths { IfOk result (λ v.
        IsTrue (are_chunk_lengths array_shape.now (nonzeros v.items))) }
{
    let Some(shape) = positive_lengths(alloc, lengths)? else {
        return Err(MetadataError::InvalidMetadata);
    };
    if are_chunk_lengths(array_shape, lengths) {
        Ok(shape)
    } else {
        Err(MetadataError::InvalidMetadata)
    }
}

/// The chunk shape that the configuration of a grid `regular` names for an array of this shape: a positive length for
/// each dimension.
///
/// # Errors
/// `InvalidMetadata` exactly where the configuration is not exactly a `chunk_shape` of such lengths.
#[tactic(auto, unfolding(crate::specs::GridConfigurations::chunk_shape_in))]
pub(crate) fn read_chunk_shape(
    alloc: Global,
    array_shape: &[u64],
    metadata: &MetadataV3,
) -> Result<ChunkShape, MetadataError>
    ensures reads { Reads (λ v. nonzeros v.items) result
        (chunk_shape_in array_shape.now (extension_seen metadata.now).configuration) }
    ensures lengths { IfOk result (λ v.
        IsTrue (are_chunk_lengths array_shape.now (nonzeros v.items))) }
{
    let value = only_member(configured(metadata)?, "chunk_shape")?;
    let lengths = read_whole_numbers(alloc, value)?;
    chunk_lengths(alloc, array_shape, &lengths)
}
