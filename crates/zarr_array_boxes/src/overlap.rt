//! A chunk with the elements that a box shares with it.

ghost use Rattle.std.specs.Prelude.{◌≡◌, false, Some, length, IfOk};
ghost use Rattle.zarr_model.specs.Region.{count};
ghost use Rattle.zarr_model.specs.ArrayBytes.{meaning};
ghost use Rattle.zarr_model.specs.Command.{has_long_element};
ghost use Rattle.zarrs_array_subset.specs.ArraySubset.{region};
ghost use Rattle.zarrs_codec_slices.specs.Overlap.{Copied};
ghost use Rattle.zarrs_codec_array_bytes.specs.Raw.{raw_of};
ghost use Rattle.zarrs_codec_array_bytes.specs.Steps.{kind_seen, bytes_seen};
ghost use Rattle.zarr_array_boxes.specs.Elements.{list_in, HaveRoom, PutsOverlap};

use crate::fixed::put_fixed;
use crate::piece::{part_in, piece_in};
use std::alloc::{AllocError, Global};
use zarrs_array_subset::ArraySubset;
use zarrs_codec_array_bytes::ArrayBytes;
use zarrs_codec_array_bytes::array_bytes::step::element_size;
use zarrs_codec_array_bytes_parts::update_owned_array_bytes;
use zarrs_data_type::{DataType, type_size};

// A chunk of elements of any kind, with those that a box shares with it replaced.
fn put_listed(
    alloc: Global,
    data_type: &DataType,
    chunk: ArrayBytes<'static>,
    chunk_subset: &ArraySubset,
    bytes: &ArrayBytes<'_>,
    subset: &ArraySubset,
) -> Result<ArrayBytes<'static>, AllocError>
    requires rank { length (region chunk_subset.now) ≡ length (region subset.now) }
    requires chunk { HaveRoom (kind_seen data_type.now) (bytes_seen data_type.now)
        (region chunk_subset.now) (raw_of chunk) }
    requires bytes { HaveRoom (kind_seen data_type.now) (bytes_seen data_type.now)
        (region subset.now) (raw_of bytes.now) }
    ensures puts { IfOk result (λ v. PutsOverlap (kind_seen data_type.now)
        (region chunk_subset.now) (region subset.now) (raw_of bytes.now) (raw_of chunk.entry)
        (raw_of v)) }
    ensures short { has_long_element (raw_of bytes.now) ≡ false
        → has_long_element (raw_of chunk.entry) ≡ false
        → IfOk result (λ v. has_long_element (raw_of v) ≡ false) }
{
    let part = chunk_subset.shared_part(alloc, subset)?;
    if part.is_empty() {
        return Ok(chunk);
    }
    let piece = piece_in(alloc, data_type, bytes, subset, &part)?;
    let at = part_in(alloc, &part, chunk_subset)?;
    let size = type_size(data_type);
    match update_owned_array_bytes(alloc, chunk, chunk_subset.shape(), &at, &piece, size) {
        Ok(bytes) => Ok(bytes),
        Err(error) => Err(error.only_memory()),
    }
}

/// A chunk with the elements that a box shares with it replaced by those of the box.
///
/// # Errors
/// [`AllocError`] where memory runs out.
pub fn put_overlap(
    alloc: Global,
    data_type: &DataType,
    chunk: ArrayBytes<'static>,
    chunk_subset: &ArraySubset,
    bytes: &ArrayBytes<'_>,
    subset: &ArraySubset,
) -> Result<ArrayBytes<'static>, AllocError>
    requires rank { length (region chunk_subset.now) ≡ length (region subset.now) }
    requires chunk { HaveRoom (kind_seen data_type.now) (bytes_seen data_type.now)
        (region chunk_subset.now) (raw_of chunk) }
    requires bytes { HaveRoom (kind_seen data_type.now) (bytes_seen data_type.now)
        (region subset.now) (raw_of bytes.now) }
    ensures held { IfOk result (λ v.
        meaning (kind_seen data_type.now) (count (region chunk_subset.now)) (raw_of v)
        ≡ Some (list_in (kind_seen data_type.now) (region chunk_subset.now) (raw_of v))) }
    ensures copied { let kind = kind_seen data_type.now in
        IfOk result (λ v. Copied (region chunk_subset.now) (region subset.now)
        (list_in kind (region subset.now) (raw_of bytes.now))
        (list_in kind (region chunk_subset.now) (raw_of chunk.entry))
        (list_in kind (region chunk_subset.now) (raw_of v))) }
    ensures short { has_long_element (raw_of bytes.now) ≡ false
        → has_long_element (raw_of chunk.entry) ≡ false
        → IfOk result (λ v. has_long_element (raw_of v) ≡ false) }
{
    if element_size(data_type) == 0 {
        return put_listed(alloc, data_type, chunk, chunk_subset, bytes, subset);
    }
    put_fixed(alloc, data_type, chunk, chunk_subset, bytes, subset)
}
