//! Elements that are moved as the dimensions of their array are ordered anew.

ghost use Rattle.std.specs.Prelude.{◌≡◌, ◌<◌, ◌*◌, ◌^◌, true, false, None, length, option_map, IfOk, IfErr};
ghost use Rattle.zarrs_codec_traits.specs.Prelude.{count_of, meaning, has_long_element, type_of};
ghost use Rattle.zarrs_codec_traits.specs.Prelude.{raw_of, validity, lengths_refusal, Answers};
ghost use Rattle.zarrs_codec_traits.specs.Prelude.{gathered, kind_seen, Gives, IsFit};
ghost use Rattle.zarrs_codec_error.specs.declared.error.CodecError.TheVariants as codec;
ghost use Rattle.zarr_codecs_elements.specs.Order.{is_order};
ghost use Rattle.zarr_codecs_elements.specs.Moved.{moved_places as places_of};
ghost use Rattle.zarr_codecs_elements.specs.Moving.{moved_list};

use crate::by_runs::moved_runs;
use crate::lead::leading;
use std::alloc::Global;
use zarrs_array_subset::shape_product;
use zarrs_codec_array_bytes::ArrayBytes;
use zarrs_codec_array_bytes::array_bytes::gather::select;
use zarrs_codec_array_bytes::array_bytes::step::element_size;
use zarrs_codec_error::CodecError;
use zarrs_data_type::DataType;

// The same once the elements are tested: so many of them, of so many bytes each.
#[tactic(auto, using(crate::proofs::MovingLaws::no_places))]
fn picked(
    alloc: Global,
    bytes: &ArrayBytes<'_>,
    order: &[usize],
    shape: &[u64],
    count: u64,
    size: usize,
) -> Result<ArrayBytes<'static>, CodecError>
    requires order { is_order order.now ≡ true }
    requires rank { length shape.now ≡ length order.now }
    requires count { count ≡ count_of shape.now }
    requires bytes { count * size < 2 ^ 64 }
    requires long { lengths_refusal size count (raw_of bytes.now) ≡ None }
    ensures value { IfOk result (λ v. raw_of v ≡ gathered size count
        (places_of order.now shape.now) (raw_of bytes.now) (raw_of bytes.now)) }
    ensures memory { IfErr result (λ e. e ≡ codec.OutOfMemory) }
{
    if count == 0 {
        return select(alloc, &[], count, bytes, size);
    }
    moved_runs(alloc, bytes, order, shape, size)
}

/// The elements of a shape, out of those of the ordered shape. All elements are tested first; where each dimension
/// stays they are the same bytes.
///
/// # Errors
/// [`CodecError`] exactly where the bytes are not valid elements, as many as the shape has, or where memory runs out.
pub(crate) fn moved(
    alloc: Global,
    bytes: ArrayBytes<'static>,
    order: &[usize],
    shape: &[u64],
    data_type: &DataType,
) -> Result<ArrayBytes<'static>, CodecError>
    requires order { is_order order.now ≡ true }
    requires rank { length shape.now ≡ length order.now }
    requires fits { IsFit shape.now (type_of data_type.now) }
    ensures exact { Answers (validity (kind_seen data_type.now) (count_of shape.now)
        (raw_of bytes.entry)) result }
    ensures value { IfOk result (λ v.
        Gives (meaning (kind_seen data_type.now) (count_of shape.now) (raw_of v))
        (option_map (moved_list order.now shape.now)
        (meaning (kind_seen data_type.now) (count_of shape.now) (raw_of bytes.entry)))) }
    ensures short { has_long_element (raw_of bytes.entry) ≡ false
        → IfOk result (λ v. has_long_element (raw_of v) ≡ false) }
{
    let count = shape_product(shape).unwrap();
    bytes.validate(count, data_type)?;
    if leading(order) == 0 {
        return Ok(bytes);
    }
    let out = picked(alloc, &bytes, order, shape, count, element_size(data_type))?;
    Ok(out)
}
