//! The shape of a chunk, and the bytes of its elements.

ghost use Rattle.std.specs.Prelude.{◌≡◌, ◌<◌, ◌^◌, true, IfOk, IfErr, MatchResult};
ghost use Rattle.zarr_model.specs.Region.{count_of, whole};
ghost use Rattle.zarr_model.specs.ArrayBytes.{fixed_bytes};
ghost use Rattle.zarrs_array_subset.specs.ArraySubset.{region as box_of};
ghost use Rattle.zarrs_codec_array_bytes.specs.Levels.{is_fixed};
ghost use Rattle.zarrs_codec_array_bytes.specs.Raw.{raw_of};
ghost use Rattle.zarrs_codec_error.specs.declared.error.CodecError.TheVariants as codec;
ghost use Rattle.zarrs_codec_traits.specs.Views.{lengths};

use std::alloc::{AllocError, Global};
use std::num::NonZeroU64;
use zarrs_array_subset::{ArraySubset, ChunkShape, shape_numbers};
use zarrs_codec_array_bytes::ArrayBytes;
use zarrs_codec_error::CodecError;

/// The number of elements of a chunk.
#[tactic(auto, using(crate::proofs::CountLaws::count_rest))]
pub fn num_elements(shape: &[NonZeroU64]) -> u64
    requires { count_of (lengths shape.now) < 2 ^ 64 }
    ensures { result ≡ count_of (lengths shape.now) }
{
    match shape {
        [] => 1,
        [first, rest @ ..] => first.get() * num_elements(rest),
    }
}

/// The box of all of a shape.
///
/// # Errors
/// [`CodecError::OutOfMemory`] where memory runs out.
pub fn whole_box(alloc: Global, shape: &[NonZeroU64]) -> Result<ArraySubset, CodecError>
    ensures { MatchResult result (λ r. box_of r ≡ whole (lengths shape.now))
        (λ e. e ≡ codec.OutOfMemory) }
{
    let numbers = shape_numbers(alloc, shape)?;
    let all = ArraySubset::new_with_shape(alloc, numbers)?;
    Ok(all)
}

/// The same shape.
///
/// # Errors
/// [`AllocError`] where memory runs out.
pub fn same_shape(alloc: Global, shape: &[NonZeroU64]) -> Result<ChunkShape, AllocError>
    ensures { IfOk result (λ v. v.items ≡ shape.now) }
{
    shape.to_vec(alloc)
}

/// The bytes of elements of one size.
///
/// # Errors
/// [`CodecError`] where memory runs out.
pub fn fixed_value(alloc: Global, bytes: ArrayBytes<'static>) -> Result<Vec<u8>, CodecError>
    requires { is_fixed (raw_of bytes) ≡ true }
    ensures value { IfOk result (λ v. raw_of bytes.entry ≡ fixed_bytes v.items) }
    ensures memory { IfErr result (λ e. e ≡ codec.OutOfMemory) }
{
    let raw = match bytes.into_fixed() {
        Ok(raw) => raw,
        Err(_) => unreachable!(),
    };
    let value = raw.into_owned(alloc)?;
    Ok(value)
}
