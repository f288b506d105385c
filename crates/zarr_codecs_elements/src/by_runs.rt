//! Elements that are moved as the dimensions of their array are ordered anew, those of each run together.

ghost use Rattle.std.specs.Prelude.{◌≡◌, ◌<◌, ◌-◌, ◌*◌, ◌^◌, true, None, length, IfOk, IfErr};
ghost use Rattle.zarrs_codec_traits.specs.Prelude.{count_of, gathered, raw_of, lengths_refusal};
ghost use Rattle.zarrs_codec_error.specs.declared.error.CodecError.TheVariants as codec;
ghost use Rattle.zarr_codecs_elements.specs.Order.{is_order};
ghost use Rattle.zarr_codecs_elements.specs.Moved.{moved_places as places_of, in_runs};

use crate::lead::leading;
use crate::moved_steps;
use crate::runs::moved_kinds;
use std::alloc::Global;
use zarrs_array_subset::shape_product;
use zarrs_codec_array_bytes::ArrayBytes;
use zarrs_codec_error::CodecError;

/// The elements of the shape `front` and then `last`, out of those of the shape whose `front` is ordered: each run over
/// `last` moves as one.
///
/// # Errors
/// [`CodecError::OutOfMemory`] where memory runs out.
#[tactic(auto, using(crate::proofs::SplitLaws::first_fits, crate::proofs::SplitLaws::last_fits, crate::proofs::SplitLaws::run_bytes, crate::proofs::SplitLaws::runs_low))]
pub(crate) fn moved_parts(
    alloc: Global,
    bytes: &ArrayBytes<'_>,
    order: &[usize],
    front: &[u64],
    last: &[u64],
    size: usize,
) -> Result<ArrayBytes<'static>, CodecError>
    requires order { is_order order.now ≡ true }
    requires rank { length front.now ≡ length order.now }
    requires some { 0 < count_of front.now }
    requires others { 0 < count_of last.now }
    requires fits { count_of front.now * count_of last.now < 2 ^ 64 }
    requires bytes { count_of front.now * count_of last.now * size < 2 ^ 64 }
    requires long { lengths_refusal size (count_of front.now * count_of last.now)
        (raw_of bytes.now) ≡ None }
    ensures value { IfOk result (λ v. raw_of v
        ≡ gathered size (count_of front.now * count_of last.now)
        (in_runs (count_of last.now) (places_of order.now front.now))
        (raw_of bytes.now) (raw_of bytes.now)) }
    ensures memory { IfErr result (λ e. e ≡ codec.OutOfMemory) }
{
    let count = shape_product(front).unwrap();
    let run = shape_product(last).unwrap();
    let steps = moved_steps(alloc, order, front)?;
    moved_kinds(alloc, bytes, order, front, &steps, count, run, size)
}

/// The elements of a shape, out of those of the ordered shape: those that stay neighbours together.
///
/// # Errors
/// [`CodecError::OutOfMemory`] where memory runs out.
pub(crate) fn moved_runs(
    alloc: Global,
    bytes: &ArrayBytes<'_>,
    order: &[usize],
    shape: &[u64],
    size: usize,
) -> Result<ArrayBytes<'static>, CodecError>
    requires order { is_order order.now ≡ true }
    requires rank { length shape.now ≡ length order.now }
    requires some { 0 < count_of shape.now }
    requires fits { count_of shape.now < 2 ^ 64 }
    requires bytes { count_of shape.now * size < 2 ^ 64 }
    requires long { lengths_refusal size (count_of shape.now) (raw_of bytes.now) ≡ None }
    ensures value { IfOk result (λ v. raw_of v ≡ gathered size (count_of shape.now)
        (places_of order.now shape.now) (raw_of bytes.now) (raw_of bytes.now)) }
    ensures memory { IfErr result (λ e. e ≡ codec.OutOfMemory) }
{
    let lead = leading(order);
    moved_parts(
        alloc,
        bytes,
        &order[..lead],
        &shape[..lead],
        &shape[lead..],
        size,
    )
}
