//! Parts of a value in memory.

ghost use Rattle.std.specs.Prelude.{◌≡◌, ◌⊎◌, length, Some, IfOk, IfErr};
ghost use Rattle.zarrs_storage.specs.ByteRange.{parts_of};
ghost use Rattle.zarrs_codec_error.specs.declared.error.CodecError.TheVariants as codec;
ghost use Rattle.zarrs_codec_traits.specs.Held.{value_part};
ghost use Rattle.zarrs_codec_traits.specs.Reads.{AreParts, RefusesSome, IsRangeErrorOf};

use std::alloc::Global;
use zarrs_codec_error::CodecError;
use zarrs_storage::{ByteRange, extract_byte_ranges};

/// The bytes of each range of a value in memory.
///
/// # Errors
/// [`CodecError::InvalidByteRangeError`] exactly where a range is not valid, which names the first such one; or
/// [`CodecError::OutOfMemory`].
#[tactic(auto, using(crate::proofs::PartLaws::slices_given, crate::proofs::PartLaws::fault_told))]
pub fn parts_in_memory(
    alloc: Global,
    bytes: &[u8],
    ranges: &[ByteRange],
) -> Result<Vec<Vec<u8>>, CodecError>
    ensures value { IfOk result
        (λ parts. AreParts (value_part (Some bytes.now)) ranges.now (parts_of parts)) }
    ensures cause { IfErr result (λ e. (e ≡ codec.OutOfMemory)
        ⊎ (RefusesSome (value_part (Some bytes.now)) ranges.now
        × IsRangeErrorOf ranges.now (length bytes.now) e)) }
{
    match extract_byte_ranges(alloc, bytes, ranges) {
        Ok(parts) => Ok(parts),
        Err(fault) => Err(CodecError::from(fault)),
    }
}
