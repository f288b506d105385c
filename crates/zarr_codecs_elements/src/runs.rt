//! Array bytes of every kind whose elements are moved, those of each run together.

ghost use Rattle.std.specs.Prelude.{◌≡◌, ◌+◌, ◌*◌, ◌<◌, ◌^◌, ◌++◌, true, length, IfOk, IfErr};
ghost use Rattle.std.specs.List.{range_with_len};
ghost use Rattle.zarrs_codec_traits.specs.Prelude.{count_of, AllBelow, gathered, raw_of};
ghost use Rattle.zarrs_codec_error.specs.declared.error.CodecError.TheVariants as codec;
ghost use Rattle.zarr_codecs_elements.specs.Order.{is_order};
ghost use Rattle.zarr_codecs_elements.specs.Moved.{moved_places as places_of, in_runs, AreRuns};

use crate::{moved_places, strided_pieces};
use std::alloc::{AllocError, Global};
use std::borrow::CowSlice;
use zarrs_codec_array_bytes::ArrayBytes;
use zarrs_codec_array_bytes::array_bytes::bytes_in;
use zarrs_codec_array_bytes::array_bytes::gather::{optional_of, select};
use zarrs_codec_error::CodecError;

// The places of one run more.
fn push_run(places: &mut Vec<u64>, from: u64, run: u64) -> Result<(), AllocError>
    requires { from + run < 2 ^ 64 }
    ensures { IfOk result (λ _. places.new.items
        ≡ places.old.items ++ range_with_len from run) }
{
    for i in 0..run {
        places.push(from + i)?;
    }
    Ok(())
}

// The places of the elements of runs.
fn expanded(alloc: Global, runs: &[u64], count: u64, run: u64) -> Result<Vec<u64>, AllocError>
    requires within { AllBelow count runs.now }
    requires fits { count * run < 2 ^ 64 }
    ensures { IfOk result (λ v. v.items ≡ in_runs run runs.now) }
{
    let mut places = Vec::with_capacity(alloc, runs.len().saturating_mul(run as usize))?;
    for place in runs {
        push_run(&mut places, *place * run, run)?;
    }
    Ok(places)
}

// The places of elements that are moved by runs.
#[tactic(auto, using(crate::proofs::SplitLaws::runs_low))]
fn run_places(
    alloc: Global,
    order: &[usize],
    shape: &[u64],
    count: u64,
    run: u64,
) -> Result<Vec<u64>, AllocError>
    requires order { is_order order.now ≡ true }
    requires rank { length shape.now ≡ length order.now }
    requires some { 0 < count_of shape.now }
    requires count { count ≡ count_of shape.now }
    requires fits { count * run < 2 ^ 64 }
    ensures value { IfOk result (λ v. v.items ≡ in_runs run (places_of order.now shape.now)) }
    ensures below { IfOk result (λ v. AllBelow (count * run) v.items) }
{
    let runs = moved_places(alloc, order, shape, count)?;
    let places = expanded(alloc, &runs, count, run)?;
    Ok(places)
}

/// The elements of a shape of `count` runs, out of those of the ordered shape; each run has `run` elements that stay
/// together. The steps are those of the shape's dimensions in the list of the ordered shape.
///
/// # Errors
/// [`CodecError::OutOfMemory`] where memory runs out.
#[tactic(auto, using(crate::proofs::MovedPieceLaws::runs_moved, crate::proofs::MovedPieceLaws::mask_moved, crate::proofs::MovedPieceLaws::steps_within, zarrs_codec_array_bytes::proofs::CheckLaws::fixed_long, zarrs_codec_array_bytes::proofs::CheckLaws::mask_long, zarrs_codec_array_bytes::proofs::CheckLaws::inner_long, crate::proofs::RunLaws::long_of_runs))]
pub(crate) fn moved_kinds(
    alloc: Global,
    bytes: &ArrayBytes<'_>,
    order: &[usize],
    shape: &[u64],
    steps: &[u64],
    count: u64,
    run: u64,
    size: usize,
) -> Result<ArrayBytes<'static>, CodecError>
    requires { AreRuns order.now shape.now steps.now count run size (raw_of bytes.now) }
    ensures value { IfOk result (λ v. raw_of v ≡ gathered size (count * run)
        (in_runs run (places_of order.now shape.now)) (raw_of bytes.now) (raw_of bytes.now)) }
    ensures memory { IfErr result (λ e. e ≡ codec.OutOfMemory) }
{
    match bytes {
        ArrayBytes::Fixed(a) => {
            let items = bytes_in(a);
            let out = strided_pieces(alloc, items, run as usize * size, count, shape, steps)?;
            Ok(ArrayBytes::Fixed(CowSlice::Owned(out)))
        }
        ArrayBytes::Variable(_) => {
            let places = run_places(alloc, order, shape, count, run)?;
            select(alloc, &places, count * run, bytes, size)
        }
        ArrayBytes::Optional(a) => {
            let mask = strided_pieces(alloc, a.flags(), run as usize, count, shape, steps)?;
            let inner = moved_kinds(alloc, a.data(), order, shape, steps, count, run, size)?;
            optional_of(alloc, inner, mask)
        }
    }
}
