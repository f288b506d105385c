//! Elements picked out of two array bytes.

ghost use Rattle.std.specs.Prelude.{◌≡◌, true, None, IfOk, IfErr};
ghost use Rattle.zarrs_codec_slices.specs.Picking.{gathered};
ghost use Rattle.zarrs_codec_slices.specs.PickedRuns.{run_numbers, AreRunsOf};
ghost use Rattle.zarrs_codec_array_bytes.specs.Raw.{raw_of};
ghost use Rattle.zarrs_codec_array_bytes.specs.Refusals.{lengths_refusal};
ghost use Rattle.zarrs_codec_array_bytes_parts.specs.Pairs.{are_alike};
ghost use Rattle.zarrs_codec_error.specs.declared.error.CodecError.TheVariants as codec;

use std::alloc::Global;
use std::borrow::CowSlice;
use zarrs_codec_array_bytes::array_bytes::bytes_in;
use zarrs_codec_array_bytes::array_bytes::gather::optional_of;
use zarrs_codec_array_bytes::{ArrayBytes, ArrayBytesVariableLength};
use zarrs_codec_error::CodecError;
use zarrs_codec_slices::piece_runs::gather_piece_runs;
use zarrs_codec_slices::value_runs::gather_value_runs;

/// The elements of runs: those below the count of the old ones, the others of the new ones. Both are of one kind, level
/// by level.
///
/// # Errors
/// [`CodecError::OutOfMemory`] where memory runs out.
#[tactic(auto, using(zarrs_codec_array_bytes::proofs::CheckLaws::fixed_long, zarrs_codec_array_bytes::proofs::CheckLaws::variable_long, zarrs_codec_array_bytes::proofs::CheckLaws::mask_long, zarrs_codec_array_bytes::proofs::CheckLaws::inner_long))]
pub(crate) fn gather_runs(
    alloc: Global,
    runs: &[(u64, u64)],
    count: u64,
    old: &ArrayBytes<'_>,
    new_count: u64,
    new: &ArrayBytes<'_>,
    size: usize,
) -> Result<ArrayBytes<'static>, CodecError>
    requires within { AreRunsOf count new_count runs.now }
    requires alike { are_alike (raw_of old.now) (raw_of new.now) ≡ true }
    requires old_long { lengths_refusal size count (raw_of old.now) ≡ None }
    requires new_long { lengths_refusal size new_count (raw_of new.now) ≡ None }
    ensures value { IfOk result (λ v. raw_of v
        ≡ gathered size count (run_numbers runs.now) (raw_of old.now) (raw_of new.now)) }
    ensures memory { IfErr result (λ e. e ≡ codec.OutOfMemory) }
{
    match old {
        ArrayBytes::Fixed(a) => match new {
            ArrayBytes::Fixed(b) => {
                let (a, b) = (bytes_in(a), bytes_in(b));
                let out = gather_piece_runs(alloc, runs, count, a, new_count, b, size)?;
                Ok(ArrayBytes::Fixed(CowSlice::Owned(out)))
            }
            ArrayBytes::Variable(_) => unreachable!(),
            ArrayBytes::Optional(_) => unreachable!(),
        },
        ArrayBytes::Variable(a) => match new {
            ArrayBytes::Variable(b) => {
                let (bytes, offsets) = gather_value_runs(
                    alloc,
                    runs,
                    count,
                    a.items(),
                    a.numbers(),
                    new_count,
                    b.items(),
                    b.numbers(),
                )?;
                Ok(ArrayBytes::Variable(ArrayBytesVariableLength::from_gathered(bytes, offsets)))
            }
            ArrayBytes::Fixed(_) => unreachable!(),
            ArrayBytes::Optional(_) => unreachable!(),
        },
        ArrayBytes::Optional(a) => match new {
            ArrayBytes::Optional(b) => {
                let (kept, given) = (a.flags(), b.flags());
                let mask = gather_piece_runs(alloc, runs, count, kept, new_count, given, 1)?;
                let inner = gather_runs(alloc, runs, count, a.data(), new_count, b.data(), size)?;
                optional_of(alloc, inner, mask)
            }
            ArrayBytes::Fixed(_) => unreachable!(),
            ArrayBytes::Variable(_) => unreachable!(),
        },
    }
}
