//! Handles on elements: an offset over bytes, over a value in memory and under a key of a store, a list turned round,
//! and a codec that asks for the bytes of a part alone.

ghost use Rattle.std.specs.Prelude.{◌≡◌, ◌∷◌, [], ◌<◌, length, IsTrue};
ghost use Rattle.zarrs_codec_traits.specs.Prelude.{tuples, kind_of, fixed, region as box_of};
ghost use Rattle.zarrs_codec_traits.specs.Prelude.{type_of};

use crate::makers::{fill, key, line, owned, table};
use crate::texts::{cut, told as told_elements};
use std::alloc::Global;
use std::borrow::CowSlice;
use std::ops::Range;
use std::process::Abort;
use zarr_codecs_array_to_array::OffsetCodec;
use zarr_codecs_to_bytes::BytesCodec;
use zarrs_array_subset::ArraySubset;
use zarrs_chunk_grid_indexer::Indexer;
use zarrs_codec::{
    ArrayPartialDecoderTraits, ArrayPartialEncoderTraits, BytesPartialEncoderTraits, MemoryHandle,
    StoragePartialDecoder, StoragePartialEncoder,
};
use zarrs_codec_array_bytes::ArrayBytes;
use zarrs_codec_array_bytes_parts::{ArrayBytesDecodeIntoTarget, ArrayBytesFixedDisjointView};
use zarrs_codec_error::{CodecError, CodecOptions};
use zarrs_codec_examples::chunks::{Chunk, chunk_of};
use zarrs_codec_examples::{ReversedElementsCodec, SingleBytesCodec};
use zarrs_codec_partial_elements::ArrayToBytesCodecPartialDefault;
use zarrs_codec_traits::ArrayToArrayCodecTraits;
use zarrs_data_type::DataType;
use zarrs_storage::{MemoryStore, Store};

// A read from a place to another, or a write of bytes there, also of the fill value where a mark stands first; and what
// is told of it.
const ROWS: &str = "0 4 -> [10, 10, 10, 10]
1 3 11 12 -> Ok(true)
2 4 -> [12, 10]
0 4 -> [10, 11, 12, 10]
1 3 10 10 -> Ok(false)
1 2 -> [10]
! 0 4 10 10 10 10 -> Ok(true)
3 4 13 -> Ok(true)";

// The same of a chunk whose stored elements are read the last one first.
const TURNED_ROWS: &str = "0 4 -> [4, 3, 2, 1]
1 3 -> [3, 2]
0 4 10 10 10 10 -> Ok(false)
1 3 -> [10, 10]
0 4 4 3 2 1 -> Ok(true)
0 1 9 -> Ok(true)
0 4 -> [9, 3, 2, 1]";

fn numbers(rt: &impl Abort, alloc: Global, words: &str) -> Vec<u8> {
    let mut numbers = Vec::new(alloc);
    for word in words.split_whitespace() {
        numbers.push(word.parse().unwrap_or(0)).expect(rt, "memory");
    }
    numbers
}

// Whether a region has fewer than 256 elements.
fn are_few(region: &ArraySubset) -> bool
    ensures { IsTrue result → length (tuples (box_of region.now)) < 256 }
{
    match region.checked_len() {
        Some(len) => len < 256,
        None => false,
    }
}

// The elements of a region, as text.
#[tactic(auto, using(crate::proofs::FewLaws::few_bytes))]
fn read<H: ArrayPartialDecoderTraits>(
    rt: &impl Abort,
    alloc: Global,
    chunk: &mut H,
    region: &ArraySubset,
) -> String
    requires few { length (tuples (box_of region.now)) < 256 }
    requires bytes { kind_of (H.seen chunk.old).level.data_type ≡ fixed 1 }
    ensures { kind_of (H.seen chunk.new).level.data_type ≡ fixed 1 }
{
    let read = chunk.partial_decode(alloc, region, &CodecOptions::default());
    told_elements(alloc, read).expect(rt, "memory")
}

// Whether the chunk is there after a write of bytes.
#[tactic(auto, using(crate::proofs::FewLaws::few_bytes))]
fn write<H: ArrayPartialEncoderTraits>(
    rt: &impl Abort,
    alloc: Global,
    chunk: &mut H,
    region: &ArraySubset,
    bytes: &[u8],
    options: &CodecOptions,
) -> String
    requires few { length (tuples (box_of region.now)) < 256 }
    requires bytes { kind_of (H.seen chunk.old).level.data_type ≡ fixed 1 }
    ensures { kind_of (H.seen chunk.new).level.data_type ≡ fixed 1 }
{
    let elements = ArrayBytes::new_flen(CowSlice::Borrowed(bytes));
    let done = chunk.partial_encode(alloc, region, &elements, options);
    done.expect(rt, "a write");
    format!(in alloc; "{:?}", chunk.exists()).expect(rt, "memory")
}

// What is told of a row.
fn told<H: ArrayPartialEncoderTraits>(
    rt: &impl Abort,
    alloc: Global,
    chunk: &mut H,
    numbers: &[u8],
    options: &CodecOptions,
) -> String
    requires bytes { kind_of (H.seen chunk.old).level.data_type ≡ fixed 1 }
    ensures { kind_of (H.seen chunk.new).level.data_type ≡ fixed 1 }
{
    match numbers {
        [start, end, bytes @ ..] => {
            let ranges = [*start as u64..*end as u64];
            let region = ArraySubset::new_with_ranges(alloc, &ranges).expect(rt, "memory");
            if !are_few(&region) {
                panic!(rt; "too many");
            }
            if bytes.is_empty() {
                return read(rt, alloc, chunk, &region);
            }
            write(rt, alloc, chunk, &region, bytes, options)
        }
        _ => panic!(rt; "no range"),
    }
}

fn is_row<H: ArrayPartialEncoderTraits>(rt: &impl Abort, alloc: Global, chunk: &mut H, row: &str)
    requires bytes { kind_of (H.seen chunk.old).level.data_type ≡ fixed 1 }
    ensures { kind_of (H.seen chunk.new).level.data_type ≡ fixed 1 }
{
    let (words, want) = cut(row);
    let options = CodecOptions::default().with_store_empty_chunks(words.starts_with('!'));
    let numbers = numbers(rt, alloc, words.trim_start_matches('!'));
    let text = told(rt, alloc, chunk, &numbers, &options);
    assert_eq!(rt; text.as_str(), want);
}

fn are_rows<H: ArrayPartialEncoderTraits>(rt: &impl Abort, alloc: Global, chunk: &mut H, rows: &str)
    requires bytes { kind_of (H.seen chunk.old).level.data_type ≡ fixed 1 }
{
    for row in rows.lines() {
        is_row(rt, alloc, chunk, row);
    }
}

// A chunk of four bytes through a codec; the fill value is 10.
fn four_bytes<H: BytesPartialEncoderTraits + Drop, A: ArrayToArrayCodecTraits + Drop>(
    rt: &impl Abort,
    alloc: Global,
    handle: H,
    codec: A,
) -> Chunk<H, A, BytesCodec>
    ensures { kind_of (type_of result.level.data_type) ≡ fixed 1 }
{
    let shape = line(rt, alloc, 4);
    let fill = fill(rt, alloc, &[10]);
    let bytes = BytesCodec::new(None);
    match chunk_of(alloc, handle, shape, DataType::UInt8, fill, codec, bytes) {
        Ok(chunk) => chunk,
        Err(error) => panic!(rt; "{error}"),
    }
}

// The value that a chunk in memory is left with.
fn is_left(rt: &impl Abort, handle: &MemoryHandle, want: &[u8]) {
    match handle.value() {
        Some(value) => assert_eq!(rt; value, want),
        None => panic!(rt; "absent"),
    }
}

fn in_memory(rt: &impl Abort, alloc: Global, value: &[u8]) -> MemoryHandle {
    MemoryHandle::new(Some(owned(rt, alloc, value)))
}

#[test]
fn a_chunk_in_memory_is_read_and_written(rt: HostRuntime) {
    let handle = MemoryHandle::new(None);
    let mut chunk = four_bytes(&rt, rt.alloc(), handle, OffsetCodec::new(250));
    are_rows(&rt, rt.alloc(), &mut chunk, ROWS);
    is_left(&rt, &chunk.into_handle().into_handle(), &[4, 4, 4, 7]);
}

#[test]
fn a_chunk_is_stored_the_last_element_first(rt: HostRuntime) {
    let handle = in_memory(&rt, rt.alloc(), &[1, 2, 3, 4]);
    let mut chunk = four_bytes(&rt, rt.alloc(), handle, ReversedElementsCodec);
    are_rows(&rt, rt.alloc(), &mut chunk, TURNED_ROWS);
    is_left(&rt, &chunk.into_handle().into_handle(), &[1, 2, 3, 9]);
}

#[test]
fn a_chunk_of_a_store_is_read_and_written(rt: HostRuntime) {
    let mut store = MemoryStore::new(rt.alloc());
    let key = key(&rt, rt.alloc(), "c/0");
    let handle = StoragePartialEncoder::new(&mut store, key);
    let mut chunk = four_bytes(&rt, rt.alloc(), handle, OffsetCodec::new(250));
    are_rows(&rt, rt.alloc(), &mut chunk, ROWS);
    assert_eq!(rt; chunk.faults(), 0);
}

// Reads a part of the chunk into the middle of four bytes.
#[tactic(auto, using(crate::proofs::FewLaws::few_bytes))]
fn into_middle<H: ArrayPartialDecoderTraits>(
    alloc: Global,
    chunk: &mut H,
    places: Range<u64>,
    bytes: &mut [u8],
) -> Result<(), CodecError>
    requires bytes { kind_of (H.seen chunk.old).level.data_type ≡ fixed 1 }
    ensures { kind_of (H.seen chunk.new).level.data_type ≡ fixed 1 }
{
    let region = ArraySubset::new_with_ranges(alloc, &[places])?;
    if !are_few(&region) {
        return Err(CodecError::OutOfMemory);
    }
    let middle = ArraySubset::new_with_ranges(alloc, &[1..3])?;
    let mut view = ArrayBytesFixedDisjointView::new(alloc, bytes, 1, &[4], middle)?;
    let target = ArrayBytesDecodeIntoTarget::Fixed(&mut view);
    chunk.partial_decode_into(alloc, &region, target, &CodecOptions::default())
}

#[test]
fn elements_are_read_into_a_target(rt: HostRuntime) {
    let handle = in_memory(&rt, rt.alloc(), &[4, 5, 6, 4]);
    let mut chunk = four_bytes(&rt, rt.alloc(), handle, OffsetCodec::new(250));
    let mut bytes = [0, 0, 0, 0];
    assert!(rt; into_middle(rt.alloc(), &mut chunk, 2..4, &mut bytes).is_ok());
    assert_eq!(rt; bytes, [0, 12, 10, 0]);
}

// The elements of some columns of a chunk whose fill value is 7.
fn elements_of<S: Store>(
    rt: &impl Abort,
    alloc: Global,
    store: &mut S,
    columns: Range<u64>,
) -> String {
    let region = ArraySubset::new_with_ranges(alloc, &[0..2, columns]).expect(rt, "memory");
    if !are_few(&region) {
        panic!(rt; "too many");
    }
    let (shape, fill) = (table(rt, alloc), fill(rt, alloc, &[7]));
    let handle = StoragePartialDecoder::new(store, key(rt, alloc, "c/0/0"));
    let codec = SingleBytesCodec;
    let mut chunk = ArrayToBytesCodecPartialDefault::new(
        handle,
        shape,
        DataType::UInt8,
        fill,
        codec,
    );
    read(rt, alloc, &mut chunk, &region)
}

// What is read, and what the store was asked for till then.
fn is_told<S: Store>(
    rt: &impl Abort,
    alloc: Global,
    store: &mut S,
    columns: Range<u64>,
    want: &str,
) {
    let text = elements_of(rt, alloc, store, columns);
    let asks = store.asks();
    let taken = store.taken();
    let told = format!(in alloc; "{text} by {asks} asks of {taken} bytes").expect(rt, "memory");
    assert_eq!(rt; told.as_str(), want);
}

#[test]
fn a_smaller_box_takes_its_bytes_alone(rt: HostRuntime) {
    let (alloc, mut store) = (rt.alloc(), MemoryStore::new(rt.alloc()));
    let absent = "[7, 7, 7, 7] by 1 asks of 0 bytes";
    is_told(&rt, alloc, &mut store, 1..3, absent);
    let set = store.set(alloc, &key(&rt, alloc, "c/0/0"), &[0, 1, 2, 3, 4, 5]);
    set.expect(&rt, "a value");
    let columns = "[1, 2, 4, 5] by 2 asks of 4 bytes";
    is_told(&rt, alloc, &mut store, 1..3, columns);
    let all = "[0, 1, 2, 3, 4, 5] by 3 asks of 10 bytes";
    is_told(&rt, alloc, &mut store, 0..3, all);
}
