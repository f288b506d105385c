//! Elements of a level from those of the level below, whose dimensions are ordered anew, and back.

ghost use Rattle.std.specs.Prelude.{◌≡◌, true, false, length, List, Some, IsSome, option_map, IfOk};
ghost use Rattle.zarrs_codec_traits.specs.Prelude.{count, count_of, sizes, ends_within, Element};
ghost use Rattle.zarrs_codec_traits.specs.Prelude.{meaning, has_long_element, permuted};
ghost use Rattle.zarrs_codec_traits.specs.Prelude.{permuted_box, region as box_of, type_of, raw_of};
ghost use Rattle.zarrs_codec_traits.specs.Prelude.{validity, Answers, kind_seen, lengths, Gives};
ghost use Rattle.zarrs_codec_traits.specs.Prelude.{IsFit, select};
ghost use Rattle.zarr_codecs_elements.specs.Order.{is_order};
ghost use Rattle.zarr_codecs_elements.specs.Moving.{moved_list};

use crate::moving::moved;
use crate::{inverse_of, permuted_numbers};
use std::alloc::Global;
use std::num::NonZeroU64;
use zarrs_array_subset::{ArraySubset, shape_numbers};
use zarrs_codec_array_bytes::ArrayBytes;
use zarrs_codec_error::CodecError;
use zarrs_data_type::DataType;

/// The elements of a shape, from those of the ordered shape below.
///
/// # Errors
/// [`CodecError`] exactly where the bytes are not valid elements, as many as the shape has, or where memory runs out.
pub fn decoded(
    alloc: Global,
    bytes: ArrayBytes<'static>,
    order: &[usize],
    shape: &[NonZeroU64],
    data_type: &DataType,
) -> Result<ArrayBytes<'static>, CodecError>
    requires order { is_order order.now ≡ true }
    requires rank { length shape.now ≡ length order.now }
    requires fits { IsFit (lengths shape.now) (type_of data_type.now) }
    ensures exact { Answers (validity (kind_seen data_type.now)
        (count_of (permuted order.now (lengths shape.now))) (raw_of bytes.entry)) result }
    ensures value { (list : List Element)
        → meaning (kind_seen data_type.now) (count_of (permuted order.now (lengths shape.now)))
        (raw_of bytes.entry) ≡ Some list → IfOk result (λ v.
        Gives (meaning (kind_seen data_type.now) (count_of (lengths shape.now)) (raw_of v))
        (Some (moved_list order.now (lengths shape.now) list))) }
    ensures short { has_long_element (raw_of bytes.entry) ≡ false
        → IfOk result (λ v. has_long_element (raw_of v) ≡ false) }
{
    let numbers = shape_numbers(alloc, shape)?;
    moved(alloc, bytes, order, &numbers, data_type)
}

/// The elements of the ordered shape below that decode to these of a shape.
///
/// # Errors
/// [`CodecError`] exactly where the bytes are not valid elements, as many as the shape has, or where memory runs out.
pub fn encoded(
    alloc: Global,
    bytes: ArrayBytes<'static>,
    order: &[usize],
    shape: &[NonZeroU64],
    data_type: &DataType,
) -> Result<ArrayBytes<'static>, CodecError>
    requires order { is_order order.now ≡ true }
    requires rank { length shape.now ≡ length order.now }
    requires fits { IsFit (lengths shape.now) (type_of data_type.now) }
    ensures exact { Answers (validity (kind_seen data_type.now) (count_of (lengths shape.now))
        (raw_of bytes.entry)) result }
    ensures value { IfOk result (λ v. option_map (moved_list order.now (lengths shape.now))
        (meaning (kind_seen data_type.now) (count_of (permuted order.now (lengths shape.now)))
        (raw_of v))
        ≡ meaning (kind_seen data_type.now) (count_of (lengths shape.now)) (raw_of bytes.entry)) }
    ensures short { has_long_element (raw_of bytes.entry) ≡ false
        → IfOk result (λ v. has_long_element (raw_of v) ≡ false) }
{
    let numbers = shape_numbers(alloc, shape)?;
    let below = permuted_numbers(alloc, order, &numbers)?;
    let back = inverse_of(alloc, order)?;
    moved(alloc, bytes, &back, &below, data_type)
}

/// The elements of a region of a shape, from those of the ordered region below.
///
/// # Errors
/// [`CodecError`] exactly where the bytes are not valid elements, as many as the region has, or where memory runs out.
pub fn region_decoded(
    alloc: Global,
    bytes: ArrayBytes<'static>,
    order: &[usize],
    region: &ArraySubset,
    shape: &[NonZeroU64],
    data_type: &DataType,
) -> Result<ArrayBytes<'static>, CodecError>
    requires order { is_order order.now ≡ true }
    requires rank { length shape.now ≡ length order.now }
    requires fits { IsFit (lengths shape.now) (type_of data_type.now) }
    requires inside { ends_within (box_of region.now) (lengths shape.now) ≡ true }
    ensures exact { Answers (validity (kind_seen data_type.now)
        (count_of (sizes (permuted_box order.now (box_of region.now)))) (raw_of bytes.entry))
        result }
    ensures value { (list : List Element)
        → meaning (kind_seen data_type.now)
        (count_of (sizes (permuted_box order.now (box_of region.now)))) (raw_of bytes.entry)
        ≡ Some (select (permuted order.now (lengths shape.now))
        (permuted_box order.now (box_of region.now)) list) → IfOk result (λ v.
        meaning (kind_seen data_type.now) (count (box_of region.now)) (raw_of v)
        ≡ Some (select (lengths shape.now) (box_of region.now)
        (moved_list order.now (lengths shape.now) list))) }
    ensures valid { IfOk result (λ v. IsSome
        (meaning (kind_seen data_type.now) (count (box_of region.now)) (raw_of v))) }
    ensures short { has_long_element (raw_of bytes.entry) ≡ false
        → IfOk result (λ v. has_long_element (raw_of v) ≡ false) }
{
    moved(alloc, bytes, order, region.shape(), data_type)
}
