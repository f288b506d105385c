//! Whether a command is refused, and why.

ghost use Rattle.std.specs.Prelude.{◌≡◌, ℕ, Option, Some, option_map};
ghost use Rattle.zarr_model.specs.Command as Model;
ghost use Rattle.zarr_model.specs.Prelude.{write, erase, region_refusal, refusal};
ghost use Rattle.zarrs_codec_traits.specs.Prelude.{region, raw_of, told_by, sized_answer};
ghost use Rattle.zarr_array.specs.Access.{described};
ghost use Rattle.zarr_array_boxes.specs.Command.{refusal_of};

use crate::ChunkAccess;
use zarr_array_boxes::{Refusal, is_too_large};
use zarrs_array_subset::ArraySubset;
use zarrs_chunk_grid::ChunkGridTraits;
use zarrs_codec_array_bytes::ArrayBytes;
use zarrs_codec_array_bytes::array_bytes::long::has_long_element;
use zarrs_codec_error::CodecError;

// Why bytes are refused, by what is told of them.
#[tactic(auto, using(crate::proofs::RefusalLaws::of_told))]
fn refusal_by(error: CodecError) -> Refusal
    ensures { (len expected : ℕ) (why : Option Model.Refusal)
        → told_by error ≡ sized_answer len expected why → why ≡ Some (refusal_of result) }
{
    match error {
        CodecError::ExpectedFixedLengthBytes(_) => Refusal::ExpectedFixedLengthBytes,
        CodecError::ExpectedVariableLengthBytes(_) => Refusal::ExpectedVariableLengthBytes,
        CodecError::ExpectedOptionalBytes(_) => Refusal::ExpectedOptionalBytes,
        CodecError::InvalidMask => Refusal::InvalidMask,
        CodecError::UnexpectedChunkDecodedSize(_) => Refusal::UnexpectedChunkDecodedSize,
        // No other error is told of bytes.
        _ => Refusal::InvalidVariableSizedArrayOffsets,
    }
}

/// Why a region of an array is refused, if it is: its rank is tested first, then its end, then how many elements it
/// has.
pub(crate) fn region_refusal<C: ChunkAccess>(array: &C, subset: &ArraySubset) -> Option<Refusal>
    ensures { option_map refusal_of result
        ≡ region_refusal (described (C.seen array.now)) (region subset.now) }
{
    let shape = array.grid().array_shape();
    if subset.dimensionality() != shape.len() {
        return Some(Refusal::IncompatibleDimensionality);
    }
    if !subset.inbounds_shape(shape) {
        return Some(Refusal::SubsetOutOfBounds);
    }
    if is_too_large(subset, array.data_type()) {
        return Some(Refusal::RegionTooLarge);
    }
    None
}

/// Why a write is refused, if it is: its region is tested first, then its bytes as elements of the region, the
/// outermost level first, and last how long its elements are.
pub(crate) fn write_refusal<C: ChunkAccess>(
    array: &C,
    subset: &ArraySubset,
    bytes: &ArrayBytes<'_>,
) -> Option<Refusal>
    ensures { option_map refusal_of result ≡ refusal (described (C.seen array.now))
        (write (region subset.now) (raw_of bytes.now)) }
{
    let refusal = region_refusal(array, subset);
    if refusal.is_some() {
        return refusal;
    }
    match bytes.validate(subset.num_elements(), array.data_type()) {
        Ok(()) => {
            if has_long_element(bytes) {
                return Some(Refusal::ElementTooLong);
            }
            None
        }
        Err(error) => Some(refusal_by(error)),
    }
}

/// Why an erase is refused, if it is: no chunk of the grid has these indices.
pub(crate) fn erase_refusal<C: ChunkAccess>(array: &C, chunk_indices: &[u64]) -> Option<Refusal>
    ensures { option_map refusal_of result
        ≡ refusal (described (C.seen array.now)) (erase chunk_indices.now) }
{
    let grid = array.grid();
    if chunk_indices.len() != grid.grid_shape().len() {
        return Some(Refusal::IncompatibleDimensionality);
    }
    if !grid.has_chunk(chunk_indices) {
        return Some(Refusal::SubsetOutOfBounds);
    }
    None
}
