//! Views of boxes of an array's bytes, and values decoded into them, of optional elements into those of their masks and
//! data.

ghost use Rattle.std.specs.Prelude.{◌<◌};

use crate::makers::{fill, line, numbers, over_optional, owned, twice_optional};
use crate::texts::is_text;
use std::alloc::{AllocError, Global};
use std::borrow::CowSlice;
use std::ops::Range;
use std::process::Abort;
use zarrs_array_subset::ArraySubset;
use zarrs_codec::{ArrayPartialDecoderTraits, MemoryHandle};
use zarrs_codec_array_bytes::ArrayBytes;
use zarrs_codec_array_bytes_parts::{
    ArrayBytesDecodeIntoTarget, ArrayBytesFixedDisjointView, copy_fill_value_into,
    decode_into_array_bytes_target,
};
use zarrs_codec_error::{CodecError, CodecOptions};
use zarrs_codec_partial_elements::ArrayToBytesCodecPartialDefault;
use zarrs_codec_traits::ArrayToBytesCodecTraits;
use zarrs_data_type::DataType;

fn region(rt: &impl Abort, alloc: Global, ranges: &[Range<u64>]) -> ArraySubset {
    ArraySubset::new_with_ranges(alloc, ranges).expect(rt, "memory")
}

// A view of a box of three rows of three elements.
fn view_in<'b>(
    rt: &impl Abort,
    alloc: Global,
    bytes: &'b mut [u8],
    ranges: &[Range<u64>],
) -> ArrayBytesFixedDisjointView<'b> {
    let subset = region(rt, alloc, ranges);
    let view = ArrayBytesFixedDisjointView::new(alloc, bytes, 1, &[3, 3], subset);
    view.expect(rt, "a view")
}

// A box is written, through a view of it.
fn copy_box(rt: &impl Abort, alloc: Global, bytes: &mut [u8]) {
    let mut view = view_in(rt, alloc, bytes, &[0..2, 1..3]);
    let copied = view.copy_from_slice(&[11, 12, 14, 15]);
    copied.expect(rt, "a copy");
}

// A smaller one through a view of that view.
fn copy_inner(rt: &impl Abort, alloc: Global, bytes: &mut [u8]) {
    let mut view = view_in(rt, alloc, bytes, &[0..3, 1..3]);
    let inner = view.subdivide(alloc, region(rt, alloc, &[1..2, 1..3]));
    let mut inner = inner.expect(rt, "a view");
    inner.copy_from_slice(&[24, 25]).expect(rt, "a copy");
}

// One is filled.
fn fill_box(rt: &impl Abort, alloc: Global, bytes: &mut [u8]) {
    let mut view = view_in(rt, alloc, bytes, &[2..3, 1..3]);
    view.fill(&[255]).expect(rt, "a fill value");
}

// Smaller boxes are written and filled through a view of the two last columns.
fn write_subsets(rt: &impl Abort, alloc: Global, bytes: &mut [u8]) {
    let mut view = view_in(rt, alloc, bytes, &[0..3, 1..3]);
    let last = region(rt, alloc, &[0..2, 2..3]);
    let copied = view.copy_subset_from_slice(alloc, last, &[32, 35]);
    copied.expect(rt, "a copy");
    let middle = region(rt, alloc, &[1..2, 1..2]);
    let filled = view.fill_subset(alloc, middle, &[7]);
    filled.expect(rt, "a fill value");
}

#[test]
fn views_write_their_boxes(rt: HostRuntime) {
    let alloc = rt.alloc();
    let mut bytes: [u8; 9] = [0, 1, 2, 3, 4, 5, 6, 7, 8];
    copy_box(&rt, alloc, &mut bytes);
    copy_inner(&rt, alloc, &mut bytes);
    fill_box(&rt, alloc, &mut bytes);
    assert_eq!(rt; bytes, [0, 11, 12, 3, 24, 25, 6, 255, 255]);
    write_subsets(&rt, alloc, &mut bytes);
    assert_eq!(rt; bytes, [0, 11, 32, 3, 7, 35, 6, 255, 255]);
}

// A view of all of two elements.
fn view_of<'b>(
    rt: &impl Abort,
    alloc: Global,
    bytes: &'b mut [u8],
    size: usize,
) -> ArrayBytesFixedDisjointView<'b>
    requires { 0 < size }
{
    let all = region(rt, alloc, &[0..2]);
    let view = ArrayBytesFixedDisjointView::new(alloc, bytes, size, &[2], all);
    view.expect(rt, "a view")
}

fn put_views<'b>(
    alloc: Global,
    mut view: ArrayBytesFixedDisjointView<'b>,
    mask: ArrayBytesFixedDisjointView<'b>,
    bytes: &ArrayBytes<'_>,
) -> Result<(), CodecError> {
    let mut masks = Vec::new(alloc);
    masks.push(mask)?;
    decode_into_array_bytes_target(
        bytes,
        ArrayBytesDecodeIntoTarget::Optional(&mut view, masks.as_mut_slice()),
    )
}

// Two optional elements of two bytes are put into two buffers.
fn put(rt: &impl Abort, alloc: Global, inner: &mut [u8], mask: &mut [u8]) {
    let bytes = numbers(&[1, 2, 3, 4]).with_optional_mask(alloc, CowSlice::Borrowed(&[1, 0]));
    let bytes = bytes.expect(rt, "memory");
    let view = view_of(rt, alloc, inner, 2);
    let mask = view_of(rt, alloc, mask, 1);
    put_views(alloc, view, mask, &bytes).expect(rt, "elements");
}

// Two elements of two bytes are filled.
fn fill_target(rt: &impl Abort, alloc: Global, bytes: &mut [u8]) {
    let fill = fill(rt, alloc, &[7, 8]);
    let mut view = view_of(rt, alloc, bytes, 2);
    assert_eq!(rt; view.num_elements(), 2);
    let target = ArrayBytesDecodeIntoTarget::Fixed(&mut view);
    let filled = copy_fill_value_into(alloc, &DataType::UInt16, &fill, target);
    filled.expect(rt, "a fill value");
}

#[test]
fn targets_hold_what_is_put(rt: HostRuntime) {
    let (mut inner, mut mask): ([u8; 4], [u8; 2]) = ([0; 4], [9; 2]);
    put(&rt, rt.alloc(), &mut inner, &mut mask);
    assert_eq!(rt; inner, [1, 2, 3, 4]);
    assert_eq!(rt; mask, [1, 0]);
    fill_target(&rt, rt.alloc(), &mut inner);
    assert_eq!(rt; inner, [7, 8, 7, 8]);
}

// Null, some null and some 42 of the type of twice optional numbers: the outer mask, the inner one, and the numbers.
const NESTED: [u8; 9] = [0, 1, 1, 0, 0, 1, 0, 0, 42];

// They are put into views of the numbers and of both masks, the outer one first.
fn decode_nested<'b>(
    rt: &impl Abort,
    alloc: Global,
    view: &mut ArrayBytesFixedDisjointView<'b>,
    masks: &mut [ArrayBytesFixedDisjointView<'b>],
) -> Result<(), CodecError> {
    let (codec, data_type) = (over_optional(rt, alloc), twice_optional(rt, alloc));
    let (value, fill) = (owned(rt, alloc, &NESTED), fill(rt, alloc, &[0]));
    let shape = line(rt, alloc, 3);
    codec.decode_into(
        alloc,
        value,
        &shape,
        &data_type,
        &fill,
        ArrayBytesDecodeIntoTarget::Optional(view, masks),
        &CodecOptions::default(),
    )
}

// The last two of them are read through a handle.
fn decode_last<'b>(
    rt: &impl Abort,
    alloc: Global,
    view: &mut ArrayBytesFixedDisjointView<'b>,
    masks: &mut [ArrayBytesFixedDisjointView<'b>],
) -> Result<(), CodecError> {
    let value = MemoryHandle::new(Some(owned(rt, alloc, &NESTED)));
    let fill = fill(rt, alloc, &[0]);
    let (shape, data_type) = (line(rt, alloc, 3), twice_optional(rt, alloc));
    let codec = over_optional(rt, alloc);
    let region = ArraySubset::new_with_ranges(alloc, &[1..3]).expect(rt, "memory");
    let mut chunk = ArrayToBytesCodecPartialDefault::new(value, shape, data_type, fill, codec);
    let target = ArrayBytesDecodeIntoTarget::Optional(view, masks);
    chunk.partial_decode_into(alloc, &region, target, &CodecOptions::default())
}

// All of them, or the last two alone.
fn beside_masks<'b>(
    rt: &impl Abort,
    alloc: Global,
    mut view: ArrayBytesFixedDisjointView<'b>,
    outer: ArrayBytesFixedDisjointView<'b>,
    inner: ArrayBytesFixedDisjointView<'b>,
    all: bool,
) -> Result<(), CodecError> {
    let mut masks = Vec::new(alloc);
    masks.push(outer)?;
    masks.push(inner)?;
    if all {
        return decode_nested(rt, alloc, &mut view, masks.as_mut_slice());
    }
    decode_last(rt, alloc, &mut view, masks.as_mut_slice())
}

// A view of some of five bytes, from the second on.
fn some_of_five<'b>(
    rt: &impl Abort,
    alloc: Global,
    bytes: &'b mut [u8],
    number: u64,
) -> ArrayBytesFixedDisjointView<'b>
    requires { number < 5 }
{
    let part = region(rt, alloc, &[1..number + 1]);
    let view = ArrayBytesFixedDisjointView::new(alloc, bytes, 1, &[5], part);
    view.expect(rt, "a view")
}

fn put_nested<'b>(
    rt: &impl Abort,
    alloc: Global,
    numbers: &'b mut [u8],
    outer: &'b mut [u8],
    inner: &'b mut [u8],
    all: bool,
) -> Result<(), CodecError> {
    let number = if all { 3 } else { 2 };
    let view = some_of_five(rt, alloc, numbers, number);
    let outer = some_of_five(rt, alloc, outer, number);
    let inner = some_of_five(rt, alloc, inner, number);
    beside_masks(rt, alloc, view, outer, inner, all)
}

fn told(rt: &impl Abort, alloc: Global, all: bool) -> Result<String, AllocError> {
    let (mut numbers, mut outer, mut inner): ([u8; 5], [u8; 5], [u8; 5]) = ([9; 5], [9; 5], [9; 5]);
    match put_nested(rt, alloc, &mut numbers, &mut outer, &mut inner, all) {
        Ok(()) => format!(in alloc; "{numbers:?} {outer:?} {inner:?}"),
        Err(error) => format!(in alloc; "{error:?}"),
    }
}

#[test]
fn each_mask_is_put_into_its_view(rt: HostRuntime) {
    let all = "[9, 0, 0, 42, 9] [9, 0, 1, 1, 9] [9, 0, 0, 1, 9]";
    is_text(&rt, told(&rt, rt.alloc(), true), all);
    let last = "[9, 0, 42, 9, 9] [9, 1, 1, 9, 9] [9, 0, 1, 9, 9]";
    is_text(&rt, told(&rt, rt.alloc(), false), last);
}
