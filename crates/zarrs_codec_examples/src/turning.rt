//! Elements of a list that is turned round.

ghost use Rattle.std.specs.Prelude.{◌≡◌, ◌<◌, ◌^◌, true, false, reverse, IfOk, IfErr, option_map};
ghost use Rattle.zarrs_codec_traits.specs.Prelude.{count, count_of, tuples, ends_within, meaning};
ghost use Rattle.zarrs_codec_traits.specs.Prelude.{has_long_element, region as box_of, type_of};
ghost use Rattle.zarrs_codec_traits.specs.Prelude.{raw_of, validity, Answers, linear, kind_seen};
ghost use Rattle.zarrs_codec_traits.specs.Prelude.{lengths, Gives, IsFit};
ghost use Rattle.zarrs_codec_error.specs.declared.error.CodecError.TheVariants as codec;
ghost use Rattle.zarrs_codec_examples.specs.Turned.{mirrored, turned_part};

use std::alloc::{AllocError, Global};
use std::num::NonZeroU64;
use zarrs_array_subset::{ArraySubset, shape_numbers};
use zarrs_codec_array_bytes::ArrayBytes;
use zarrs_codec_array_bytes::array_bytes::extract::linear_indices;
use zarrs_codec_array_bytes::array_bytes::gather::select;
use zarrs_codec_array_bytes::array_bytes::step::element_size;
use zarrs_codec_error::CodecError;
use zarrs_codec_traits::{num_elements, whole_box};
use zarrs_data_type::DataType;

// Each place, counted from the other end of so many.
fn mirror(alloc: Global, places: &[u64], count: u64) -> Result<Vec<u64>, AllocError>
    ensures { IfOk result (λ v. v.items ≡ mirrored count places.now) }
{
    let last = count.saturating_sub(1);
    places
        .iter()
        .map(|place| last.saturating_sub(*place))
        .collect(alloc)
}

// The places of a region's elements, counted from the end of the shape's list.
fn mirrored_places(
    alloc: Global,
    region: &ArraySubset,
    shape: &[NonZeroU64],
) -> Result<Vec<u64>, CodecError>
    requires count { count_of (lengths shape.now) < 2 ^ 64 }
    requires inside { ends_within (box_of region.now) (lengths shape.now) ≡ true }
    ensures value { IfOk result (λ v. v.items ≡ mirrored (count_of (lengths shape.now))
        (linear (lengths shape.now) (tuples (box_of region.now)))) }
    ensures memory { IfErr result (λ e. e ≡ codec.OutOfMemory) }
{
    let numbers = shape_numbers(alloc, shape)?;
    let places = linear_indices(alloc, region, &numbers)?;
    let mirrored = mirror(alloc, &places, num_elements(shape))?;
    Ok(mirrored)
}

/// The elements of a region of a shape's list turned round. All elements of the list are tested first.
///
/// # Errors
/// [`CodecError`] exactly where the bytes are not valid elements of the shape, or where memory runs out.
pub fn turned_region(
    alloc: Global,
    bytes: &ArrayBytes<'_>,
    region: &ArraySubset,
    shape: &[NonZeroU64],
    data_type: &DataType,
) -> Result<ArrayBytes<'static>, CodecError>
    requires fits { IsFit (lengths shape.now) (type_of data_type.now) }
    requires inside { ends_within (box_of region.now) (lengths shape.now) ≡ true }
    ensures exact { Answers (validity (kind_seen data_type.now) (count_of (lengths shape.now))
        (raw_of bytes.now)) result }
    ensures value { IfOk result
        (λ v. Gives (meaning (kind_seen data_type.now) (count (box_of region.now)) (raw_of v))
        (turned_part (lengths shape.now) (box_of region.now)
        (meaning (kind_seen data_type.now) (count_of (lengths shape.now)) (raw_of bytes.now)))) }
    ensures short { has_long_element (raw_of bytes.now) ≡ false
        → IfOk result (λ v. has_long_element (raw_of v) ≡ false) }
{
    let count = num_elements(shape);
    bytes.validate(count, data_type)?;
    let places = mirrored_places(alloc, region, shape)?;
    let out = select(alloc, &places, count, bytes, element_size(data_type))?;
    Ok(out)
}

/// All elements of a shape's list, the last one first.
///
/// # Errors
/// [`CodecError`] exactly where the bytes are not valid elements of the shape, or where memory runs out.
pub fn turned(
    alloc: Global,
    bytes: &ArrayBytes<'_>,
    shape: &[NonZeroU64],
    data_type: &DataType,
) -> Result<ArrayBytes<'static>, CodecError>
    requires { IsFit (lengths shape.now) (type_of data_type.now) }
    ensures exact { Answers (validity (kind_seen data_type.now) (count_of (lengths shape.now))
        (raw_of bytes.now)) result }
    ensures value { IfOk result (λ v.
        Gives (meaning (kind_seen data_type.now) (count_of (lengths shape.now)) (raw_of v))
        (option_map reverse (meaning (kind_seen data_type.now) (count_of (lengths shape.now))
        (raw_of bytes.now)))) }
    ensures short { has_long_element (raw_of bytes.now) ≡ false
        → IfOk result (λ v. has_long_element (raw_of v) ≡ false) }
{
    match whole_box(alloc, shape) {
        Ok(all) => turned_region(alloc, bytes, &all, shape, data_type),
        Err(error) => Err(error),
    }
}
