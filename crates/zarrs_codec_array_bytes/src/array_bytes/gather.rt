//! Elements picked out of array bytes.

ghost use Rattle.std.specs.Prelude.{◌≡◌, None, IfOk, IfErr};
ghost use Rattle.zarr_model.specs.ArrayBytes.{optional_bytes};
ghost use Rattle.zarrs_codec_slices.specs.Picking.{AllBelow, gathered};
ghost use Rattle.zarrs_codec_slices.specs.PickedRuns.{run_numbers, AreRunsBelow};
ghost use Rattle.zarrs_codec_array_bytes.specs.Raw.{raw_of};
ghost use Rattle.zarrs_codec_array_bytes.specs.Refusals.{lengths_refusal};
ghost use Rattle.zarrs_codec_error.specs.declared.error.CodecError.TheVariants as codec;

use super::{ArrayBytes, ArrayBytesOptional, ArrayBytesVariableLength, bytes_in};
use std::alloc::Global;
use std::borrow::CowSlice;
use zarrs_codec_error::CodecError;
use zarrs_codec_slices::piece_runs::gather_piece_runs;
use zarrs_codec_slices::pieces::gather_pieces;
use zarrs_codec_slices::value_runs::gather_value_runs;
use zarrs_codec_slices::values::gather_values;

/// Optional elements over owned data, under an owned mask.
///
/// # Errors
/// [`CodecError::OutOfMemory`] where memory runs out.
pub fn optional_of(
    alloc: Global,
    inner: ArrayBytes<'static>,
    mask: Vec<u8>,
) -> Result<ArrayBytes<'static>, CodecError>
    ensures value { IfOk result (λ v. raw_of v ≡ optional_bytes (raw_of inner.entry) mask.items) }
    ensures memory { IfErr result (λ e. e ≡ codec.OutOfMemory) }
{
    let inner = Box::new(alloc, inner)?;
    Ok(ArrayBytes::Optional(ArrayBytesOptional::new(inner, CowSlice::Owned(mask))))
}

/// The elements at these places.
///
/// # Errors
/// [`CodecError::OutOfMemory`] where memory runs out.
#[tactic(auto, using(crate::proofs::CheckLaws::fixed_long, crate::proofs::CheckLaws::variable_long, crate::proofs::CheckLaws::mask_long, crate::proofs::CheckLaws::inner_long, crate::proofs::CheckLaws::below_twice))]
pub fn select(
    alloc: Global,
    places: &[u64],
    count: u64,
    bytes: &ArrayBytes<'_>,
    size: usize,
) -> Result<ArrayBytes<'static>, CodecError>
    requires within { AllBelow count places.now }
    requires long { lengths_refusal size count (raw_of bytes.now) ≡ None }
    ensures value { IfOk result (λ v. raw_of v
        ≡ gathered size count places.now (raw_of bytes.now) (raw_of bytes.now)) }
    ensures memory { IfErr result (λ e. e ≡ codec.OutOfMemory) }
{
    match bytes {
        ArrayBytes::Fixed(a) => {
            let items = bytes_in(a);
            let out = gather_pieces(alloc, places, count, items, count, items, size)?;
            Ok(ArrayBytes::Fixed(CowSlice::Owned(out)))
        }
        ArrayBytes::Variable(a) => {
            let (items, from) = (a.items(), a.numbers());
            let (bytes, offsets) = gather_values(
                alloc, places, count, items, from, count, items, from,
            )?;
            Ok(ArrayBytes::Variable(ArrayBytesVariableLength::from_gathered(bytes, offsets)))
        }
        ArrayBytes::Optional(a) => {
            let flags = a.flags();
            let mask = gather_pieces(alloc, places, count, flags, count, flags, 1)?;
            let inner = select(alloc, places, count, a.data(), size)?;
            optional_of(alloc, inner, mask)
        }
    }
}

/// The elements at the places of these runs.
///
/// # Errors
/// [`CodecError::OutOfMemory`] where memory runs out.
#[tactic(auto, using(crate::proofs::CheckLaws::fixed_long, crate::proofs::CheckLaws::variable_long, crate::proofs::CheckLaws::mask_long, crate::proofs::CheckLaws::inner_long, zarrs_codec_slices::proofs::PieceRunLaws::runs_of_either))]
pub fn select_runs(
    alloc: Global,
    runs: &[(u64, u64)],
    count: u64,
    bytes: &ArrayBytes<'_>,
    size: usize,
) -> Result<ArrayBytes<'static>, CodecError>
    requires within { AreRunsBelow count runs.now }
    requires long { lengths_refusal size count (raw_of bytes.now) ≡ None }
    ensures value { IfOk result (λ v. raw_of v
        ≡ gathered size count (run_numbers runs.now) (raw_of bytes.now) (raw_of bytes.now)) }
    ensures memory { IfErr result (λ e. e ≡ codec.OutOfMemory) }
{
    match bytes {
        ArrayBytes::Fixed(a) => {
            let items = bytes_in(a);
            let out = gather_piece_runs(alloc, runs, count, items, count, items, size)?;
            Ok(ArrayBytes::Fixed(CowSlice::Owned(out)))
        }
        ArrayBytes::Variable(a) => {
            let (items, from) = (a.items(), a.numbers());
            let (bytes, offsets) = gather_value_runs(
                alloc, runs, count, items, from, count, items, from,
            )?;
            Ok(ArrayBytes::Variable(ArrayBytesVariableLength::from_gathered(bytes, offsets)))
        }
        ArrayBytes::Optional(a) => {
            let flags = a.flags();
            let mask = gather_piece_runs(alloc, runs, count, flags, count, flags, 1)?;
            let inner = select_runs(alloc, runs, count, a.data(), size)?;
            optional_of(alloc, inner, mask)
        }
    }
}
