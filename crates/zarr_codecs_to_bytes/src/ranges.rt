//! The runs of a region as ranges of the bytes of a value.

ghost use Rattle.std.specs.Prelude.{◌≡◌, ◌==◌, ◌+◌, ◌*◌, ◌<◌, ◌^◌, ◌++◌, true, length, IfOk, IfErr, OnOk};
ghost use Rattle.zarrs_codec_traits.specs.Prelude.{count_of, ends_within, sizes, region as box_of};
ghost use Rattle.zarrs_codec_traits.specs.Prelude.{region_of, is_box, type_of, lengths, IsFit};
ghost use Rattle.zarrs_chunk_grid_iterators.specs.Runs.{run_box};
ghost use Rattle.zarrs_codec_error.specs.declared.error.CodecError.TheVariants as codec;
ghost use Rattle.zarr_codecs_to_bytes.specs.BytesCodec.{element_bytes};
ghost use Rattle.zarr_codecs_to_bytes.specs.Ranges.{run_ranges, ranges_after};

use std::alloc::{AllocError, Global};
use std::num::NonZeroU64;
use zarrs_array_subset::{ArraySubset, shape_product};
use zarrs_codec_array_bytes::array_bytes::step::element_size;
use zarrs_codec_error::CodecError;
use zarrs_codec_traits::num_elements;
use zarrs_data_type::DataType;
use zarrs_storage::ByteRange;

// Whether a box has so many elements: inside a shape that has as many it is all of the shape.
fn has_all(shape: &[u64], elements: u64) -> bool
    ensures { result ≡ (count_of shape.now == elements) }
{
    shape_product(shape) == Some(elements)
}

// How many runs a box of a shape has.
fn count_runs(start: &[u64], shape: &[u64], array_shape: &[NonZeroU64]) -> u64
    requires fits { is_box start.now shape.now ≡ true }
    requires starts { length start.now ≡ length array_shape.now }
    requires rank { length shape.now ≡ length array_shape.now }
    requires inside { ends_within (region_of start.now shape.now) (lengths array_shape.now) ≡ true }
    requires some { 0 < count_of shape.now }
    requires few { count_of (lengths array_shape.now) < 2 ^ 64 }
    ensures { result ≡ count_of
        (sizes (run_box (lengths array_shape.now) (region_of start.now shape.now))) }
{
    if array_shape.is_empty() || has_all(&shape[1..], num_elements(&array_shape[1..])) {
        return 1;
    }
    shape[0] * count_runs(&start[1..], &shape[1..], &array_shape[1..])
}

// Appends the ranges of the runs of a box of a shape whose elements are behind so many bytes.
fn push_runs(
    ranges: &mut Vec<ByteRange>,
    start: &[u64],
    shape: &[u64],
    array_shape: &[NonZeroU64],
    before: u64,
    size: u64,
) -> Result<(), AllocError>
    requires fits { is_box start.now shape.now ≡ true }
    requires starts { length start.now ≡ length array_shape.now }
    requires rank { length shape.now ≡ length array_shape.now }
    requires inside { ends_within (region_of start.now shape.now) (lengths array_shape.now) ≡ true }
    requires some { 0 < count_of shape.now }
    requires few { count_of (lengths array_shape.now) < 2 ^ 64 }
    requires room { before + count_of (lengths array_shape.now) * size < 2 ^ 64 }
    ensures { OnOk result (ranges.new.items ≡ ranges.old.items ++ ranges_after before size
        (lengths array_shape.now) (region_of start.now shape.now)) }
{
    if array_shape.is_empty() {
        ranges.push(ByteRange::FromStart(before, Some(size)))?;
        return Ok(());
    }
    let (rest_start, rest_shape, inner) = (&start[1..], &shape[1..], &array_shape[1..]);
    let elements = num_elements(inner);
    let row = elements * size;
    if has_all(rest_shape, elements) {
        ranges.push(ByteRange::FromStart(before + start[0] * row, Some(shape[0] * row)))?;
        return Ok(());
    }
    for i in 0..shape[0] {
        push_runs(
            ranges,
            rest_start,
            rest_shape,
            inner,
            before + (start[0] + i) * row,
            size,
        )?;
    }
    Ok(())
}

// The ranges of the runs of a box of a shape.
#[tactic(auto, using(crate::proofs::RowLaws::from_first))]
fn box_ranges(
    alloc: Global,
    start: &[u64],
    shape: &[u64],
    array_shape: &[NonZeroU64],
    size: u64,
) -> Result<Vec<ByteRange>, AllocError>
    requires fits { is_box start.now shape.now ≡ true }
    requires starts { length start.now ≡ length array_shape.now }
    requires rank { length shape.now ≡ length array_shape.now }
    requires inside { ends_within (region_of start.now shape.now) (lengths array_shape.now) ≡ true }
    requires some { 0 < count_of shape.now }
    requires few { count_of (lengths array_shape.now) < 2 ^ 64 }
    requires room { count_of (lengths array_shape.now) * size < 2 ^ 64 }
    ensures { IfOk result (λ v. v.items
        ≡ run_ranges size (lengths array_shape.now) (region_of start.now shape.now)) }
{
    let number = count_runs(start, shape, array_shape);
    let mut ranges = Vec::with_capacity(alloc, number as usize)?;
    push_runs(&mut ranges, start, shape, array_shape, 0, size)?;
    Ok(ranges)
}

/// The ranges of a region's runs in a value of elements of one size.
///
/// # Errors
/// [`CodecError::OutOfMemory`].
#[tactic(auto, using(crate::proofs::RowLaws::of_regions))]
pub(crate) fn region_request(
    alloc: Global,
    region: &ArraySubset,
    shape: &[NonZeroU64],
    data_type: &DataType,
) -> Result<Vec<ByteRange>, CodecError>
    requires fits { IsFit (lengths shape.now) (type_of data_type.now) }
    requires inside { ends_within (box_of region.now) (lengths shape.now) ≡ true }
    ensures value { IfOk result (λ v. v.items ≡ run_ranges (element_bytes (type_of data_type.now))
        (lengths shape.now) (box_of region.now)) }
    ensures memory { IfErr result (λ e. e ≡ codec.OutOfMemory) }
{
    if region.is_empty() {
        return Ok(Vec::new(alloc));
    }
    let size = element_size(data_type) as u64;
    let ranges = box_ranges(alloc, region.start(), region.shape(), shape, size)?;
    Ok(ranges)
}
