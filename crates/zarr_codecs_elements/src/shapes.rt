//! Shapes and boxes whose dimensions are ordered anew.

ghost use Rattle.std.specs.Prelude.{◌≡◌, true, length, IfOk, IfErr, MatchResult, option_map, None, Some};
ghost use Rattle.zarrs_codec_traits.specs.Prelude.{permuted, permuted_box, region as box_of};
ghost use Rattle.zarrs_codec_traits.specs.Prelude.{AllBelow, unserved_error, lengths};
ghost use Rattle.zarrs_codec_error.specs.declared.error.CodecError.TheVariants as codec;
ghost use Rattle.zarr_codecs_elements.specs.Order.{is_order};
ghost use Rattle.zarr_codecs_elements.specs.Moving.{rank_unserved};

use crate::permuted_numbers;
use std::alloc::{AllocError, Global};
use std::num::NonZeroU64;
use zarrs_array_subset::{ArraySubset, ChunkShape};
use zarrs_codec_error::CodecError;
use zarrs_data_type_bytes::{CodecName, DataTypeCodecError};

/// The lengths in an order.
///
/// # Errors
/// [`AllocError`] where memory runs out.
pub fn permuted_shape(
    alloc: Global,
    order: &[usize],
    shape: &[NonZeroU64],
) -> Result<ChunkShape, AllocError>
    requires { AllBelow (length shape.now) order.now }
    ensures { IfOk result (λ v. lengths v.items ≡ permuted order.now (lengths shape.now)) }
{
    let mut out = Vec::with_capacity(alloc, order.len())?;
    for dimension in order {
        out.push(shape[*dimension])?;
    }
    Ok(out)
}

/// Tests that a shape has an order's rank.
///
/// # Errors
/// `UnsupportedDataTypeCodec` exactly where it has another.
pub fn expect_rank(order: &[usize], shape: &[NonZeroU64]) -> Result<(), CodecError>
    ensures served { IfOk result
        (λ _. rank_unserved order.now (Some (lengths shape.now)) ≡ None) }
    ensures rank { IfOk result (λ _. length shape.now ≡ length order.now) }
    ensures refused { IfErr result (λ e. option_map unserved_error
        (rank_unserved order.now (Some (lengths shape.now))) ≡ Some e) }
{
    if shape.len() == order.len() {
        Ok(())
    } else {
        Err(CodecError::UnsupportedDataTypeCodec(DataTypeCodecError::UnsupportedDataType {
            codec_name: CodecName::Transpose,
        }))
    }
}

/// A box with its dimensions in an order.
///
/// # Errors
/// [`CodecError::OutOfMemory`] where memory runs out.
pub fn permuted_subset(
    alloc: Global,
    order: &[usize],
    region: &ArraySubset,
) -> Result<ArraySubset, CodecError>
    requires order { is_order order.now ≡ true }
    requires rank { length (box_of region.now) ≡ length order.now }
    ensures { MatchResult result (λ r. box_of r ≡ permuted_box order.now (box_of region.now))
        (λ e. e ≡ codec.OutOfMemory) }
{
    let start = permuted_numbers(alloc, order, region.start())?;
    let shape = permuted_numbers(alloc, order, region.shape())?;
    match ArraySubset::new_with_start_shape(start, shape) {
        Ok(permuted) => Ok(permuted),
        Err(_) => unreachable!(),
    }
}
