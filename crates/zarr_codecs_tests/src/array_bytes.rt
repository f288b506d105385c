//! Array bytes that are copied, and elements taken out of them and put into them.

use crate::makers::{numbers, texts};
use crate::texts::{is_text, told};
use std::alloc::Global;
use std::borrow::CowSlice;
use std::process::Abort;
use zarr_model::DataTypeSize;
use zarrs_array_subset::ArraySubset;
use zarrs_chunk_grid_indexer::Indexer;
use zarrs_codec_array_bytes::ArrayBytes;
use zarrs_codec_array_bytes_parts::update_array_bytes;
use zarrs_data_type::DataType;

// Two texts that are optional twice, under the same mask, all of it borrowed.
fn twice_optional(rt: &impl Abort, alloc: Global) -> ArrayBytes<'static> {
    let mask = &[1, 0];
    let inner = texts(rt, b"abc", &[0, 2, 3])
        .with_optional_mask(alloc, CowSlice::Borrowed(mask))
        .expect(rt, "memory");
    let outer = inner.with_optional_mask(alloc, CowSlice::Borrowed(mask));
    outer.expect(rt, "memory")
}

#[test]
fn copies_have_the_same_elements(rt: HostRuntime) {
    let (alloc, want) = (rt.alloc(), "[1, 0] [1, 0] [97, 98, 99] [0, 2, 3]");
    let value = twice_optional(&rt, alloc);
    is_text(&rt, told(alloc, value.try_clone(alloc)), want);
    is_text(&rt, told(alloc, value.into_owned(alloc)), want);
}

// Places of one dimension.
fn places(rt: &impl Abort, alloc: Global, indices: &[u64]) -> Vec<Vec<u64>> {
    let mut places = Vec::new(alloc);
    for index in indices {
        let place = vec![in alloc; *index].expect(rt, "memory");
        places.push(place).expect(rt, "memory");
    }
    places
}

#[test]
fn elements_are_taken_out_in_the_order_of_places(rt: HostRuntime) {
    let alloc = rt.alloc();
    let value = texts(&rt, b"abcd", &[0, 1, 1, 3, 4]);
    let places = places(&rt, alloc, &[2, 0, 2]);
    let taken = value.extract_array_subset(alloc, &places, &[4], &DataType::String);
    is_text(&rt, told(alloc, taken), "[98, 99, 97, 98, 99] [0, 2, 3, 5]");
}

// Optional numbers of a byte.
fn masked(
    rt: &impl Abort,
    alloc: Global,
    mask: &'static [u8],
    bytes: &'static [u8],
) -> ArrayBytes<'static> {
    let optional = numbers(bytes).with_optional_mask(alloc, CowSlice::Borrowed(mask));
    optional.expect(rt, "memory")
}

// Four rows of four elements, some of which are replaced.
fn replaced<I: Indexer>(
    rt: &impl Abort,
    alloc: Global,
    value: &ArrayBytes<'_>,
    places: &I,
    update: &ArrayBytes<'_>,
) -> ArrayBytes<'static> {
    let size = DataTypeSize::Fixed(1);
    let updated = update_array_bytes(alloc, value, &[4, 4], places, update, size);
    updated.expect(rt, "elements")
}

const MASK: [u8; 16] = [1, 1, 1, 1, 1, 1, 0, 1, 1, 0, 1, 1, 0, 1, 1, 1];

const NUMBERS: [u8; 16] = [1, 2, 3, 4, 5, 6, 7, 8, 9, 10, 11, 12, 13, 14, 15, 16];

// They with a box replaced.
fn box_replaced(rt: &impl Abort, alloc: Global) -> ArrayBytes<'static> {
    let value = masked(rt, alloc, &MASK, &NUMBERS);
    let middle = ArraySubset::new_with_ranges(alloc, &[1..3, 1..3]).expect(rt, "memory");
    let update = masked(rt, alloc, &[1, 0, 1, 1], &[99, 98, 97, 96]);
    replaced(rt, alloc, &value, &middle, &update)
}

#[test]
fn elements_of_boxes_and_lists_are_replaced(rt: HostRuntime) {
    let alloc = rt.alloc();
    let value = box_replaced(&rt, alloc);
    let first = vec![in alloc; 3u64, 2].expect(&rt, "memory");
    let second = vec![in alloc; 3u64, 3].expect(&rt, "memory");
    let places = vec![in alloc; first, second].expect(&rt, "memory");
    let update = masked(&rt, alloc, &[0, 1], &[0, 255]);
    let value = replaced(&rt, alloc, &value, &places, &update);
    is_text(
        &rt,
        told(alloc, value.try_clone(alloc)),
        "[1, 1, 1, 1, 1, 1, 0, 1, 1, 1, 1, 1, 0, 1, 0, 1] [1, 2, 3, 4, 5, 99, 98, 8, 9, 97, 96, 12, 13, 14, 0, 255]",
    );
}
