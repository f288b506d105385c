//! The box that an indexer is.

ghost use Rattle.std.specs.Prelude.{◌≡◌, Some, IfOk, option_map};
ghost use Rattle.zarrs_array_subset.specs.ArraySubset.{region as box_of};
ghost use Rattle.zarrs_codec.specs.Boxes.{same_lengths as have_same_lengths, is_smaller as is_smaller_box, is_all as is_whole, smaller_box as box_within};

use std::alloc::{AllocError, Global};
use zarrs_array_subset::ArraySubset;
use zarrs_chunk_grid_indexer::Indexer;

fn same_lengths(sizes: &[u64], shape: &[u64]) -> bool
    ensures { result ≡ have_same_lengths sizes.now shape.now }
{
    match sizes {
        [] => shape.is_empty(),
        [size, more @ ..] => match shape {
            [] => false,
            [length, rest @ ..] => *size == *length && same_lengths(more, rest),
        },
    }
}

// Whether a region lies inside a shape, and is not all of it.
fn is_smaller(region: &ArraySubset, shape: &[u64]) -> bool
    ensures { result ≡ is_smaller_box shape.now (box_of region.now) }
{
    region.inbounds_shape(shape) && !same_lengths(region.shape(), shape)
}

// The box that an indexer is, where that is smaller than a shape.
pub(crate) fn smaller_box<I: Indexer>(
    alloc: Global,
    indexer: &I,
    shape: &[u64],
) -> Result<Option<ArraySubset>, AllocError>
    ensures { IfOk result
        (λ o. option_map box_of o ≡ box_within shape.now (I.as_region indexer.now)) }
{
    match indexer.as_array_subset(alloc) {
        Ok(Some(region)) => {
            if is_smaller(&region, shape) {
                Ok(Some(region))
            } else {
                Ok(None)
            }
        }
        Ok(None) => Ok(None),
        Err(error) => Err(error),
    }
}

// Whether a region is all of a shape.
fn is_all(region: &ArraySubset, shape: &[u64]) -> bool
    ensures { result ≡ is_whole shape.now (Some (box_of region.now)) }
{
    region.inbounds_shape(shape) && same_lengths(region.shape(), shape)
}

// Whether an indexer is the box of a whole shape.
pub(crate) fn covers<I: Indexer>(
    alloc: Global,
    indexer: &I,
    shape: &[u64],
) -> Result<bool, AllocError>
    ensures { IfOk result (λ b. b ≡ is_whole shape.now (I.as_region indexer.now)) }
{
    match indexer.as_array_subset(alloc) {
        Ok(Some(region)) => Ok(is_all(&region, shape)),
        Ok(None) => Ok(false),
        Err(error) => Err(error),
    }
}
