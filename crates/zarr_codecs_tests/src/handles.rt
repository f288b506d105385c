//! Handles on bytes, each by the same calls: parts of what it holds, and all of it; and what is put there.

use crate::makers::{key, owned};
use crate::texts::is_text;
use std::alloc::{AllocError, Global};
use std::borrow::CowSlice;
use std::process::Abort;
use zarr_codecs_to_bytes::Sha256Codec;
use zarrs_codec::{
    ByteIntervalPartialDecoder, BytesPartialDecoderTraits, BytesPartialEncoderTraits,
    BytesToBytesCodecPartialDefault, MemoryHandle, StoragePartialDecoder, StoragePartialEncoder,
};
use zarrs_codec_error::{BytesRepresentation, CodecOptions};
use zarrs_codec_examples::ReversedCodec;
use zarrs_codec_traits::BytesToBytesCodecTraits;
use zarrs_storage::{ByteRange, MemoryStore, OffsetBytes, Store};

const SIX: [u8; 6] = [0, 1, 2, 3, 4, 5];

// The second and the third byte with the last one, the last one alone, and all bytes.
fn told<H: BytesPartialDecoderTraits>(alloc: Global, handle: &mut H) -> Result<String, AllocError> {
    let options = CodecOptions::default();
    let ranges = [ByteRange::FromStart(1, Some(2)), ByteRange::Suffix(1)];
    let parts = handle.partial_decode_many(alloc, &ranges, &options).ok();
    let last = handle
        .partial_decode(alloc, ByteRange::Suffix(1), &options)
        .ok();
    let whole = handle.decode(alloc, &options).ok();
    format!(in alloc; "{parts:?} {last:?} {whole:?}")
}

const TOLD: &str = "Some(Some([[1, 2], [5]])) Some(Some([5])) Some(Some([0, 1, 2, 3, 4, 5]))";

#[test]
fn bytes_in_memory_are_read(rt: HostRuntime) {
    let alloc = rt.alloc();
    let mut bytes: CowSlice<'_, u8> = CowSlice::Owned(owned(&rt, alloc, &SIX));
    is_text(&rt, told(alloc, &mut bytes), TOLD);
    let mut bytes: CowSlice<'_, u8> = CowSlice::Borrowed(&SIX);
    is_text(&rt, told(alloc, &mut bytes), TOLD);
    is_text(&rt, told(alloc, &mut owned(&rt, alloc, &SIX)), TOLD);
    let mut handle = MemoryHandle::new(Some(owned(&rt, alloc, &SIX)));
    is_text(&rt, told(alloc, &mut handle), TOLD);
    let none = told(alloc, &mut MemoryHandle::new(None));
    is_text(&rt, none, "Some(None) Some(None) Some(None)");
    let mut interval = ByteIntervalPartialDecoder::new(owned(&rt, alloc, &SIX), 2, 3);
    let part = "Some(Some([[3, 4], [4]])) Some(Some([4])) Some(Some([2, 3, 4]))";
    is_text(&rt, told(alloc, &mut interval), part);
}

// Parts are put into the bytes, the second over the end of the first.
fn put<H: BytesPartialEncoderTraits>(rt: &impl Abort, alloc: Global, handle: &mut H) {
    let options = CodecOptions::default();
    let last = vec![in alloc; 9].expect(rt, "memory");
    let done = handle.partial_encode(alloc, 7, last, &options);
    done.expect(rt, "a part");
    let first = OffsetBytes {
        offset: 5,
        bytes: vec![in alloc; 7, 8].expect(rt, "memory"),
    };
    let second = OffsetBytes {
        offset: 6,
        bytes: vec![in alloc; 6].expect(rt, "memory"),
    };
    let parts = [first, second];
    let done = handle.partial_encode_many(alloc, &parts, &options);
    done.expect(rt, "parts");
}

fn whole<H: BytesPartialDecoderTraits>(
    rt: &impl Abort,
    alloc: Global,
    handle: &mut H,
) -> Option<Vec<u8>> {
    let value = handle.decode(alloc, &CodecOptions::default());
    value.expect(rt, "a value")
}

// The bytes are read, and what they are with the parts, replaced, and erased.
fn changed<H: BytesPartialEncoderTraits>(rt: &impl Abort, alloc: Global, handle: &mut H) {
    is_text(rt, told(alloc, handle), TOLD);
    put(rt, alloc, handle);
    let with_parts = whole(rt, alloc, handle);
    let done = handle.replace(alloc, &[7, 8], &CodecOptions::default());
    done.expect(rt, "a value");
    let after = whole(rt, alloc, handle);
    handle.erase().expect(rt, "erased");
    let erased = whole(rt, alloc, handle);
    is_text(
        rt,
        format!(in alloc; "{with_parts:?} {after:?} {erased:?}"),
        "Some([0, 1, 2, 3, 4, 7, 6, 9]) Some([7, 8]) None",
    );
}

#[test]
fn values_are_changed(rt: HostRuntime) {
    let alloc = rt.alloc();
    let mut handle = MemoryHandle::new(Some(owned(&rt, alloc, &SIX)));
    changed(&rt, alloc, &mut handle);
    let memory = MemoryHandle::new(Some(owned(&rt, alloc, &[5, 4, 3, 2, 1, 0])));
    let size = BytesRepresentation::UnboundedSize;
    let mut handle = BytesToBytesCodecPartialDefault::new_bytes(memory, size, ReversedCodec);
    changed(&rt, alloc, &mut handle);
}

#[test]
fn values_of_a_store_are_changed(rt: HostRuntime) {
    let alloc = rt.alloc();
    let mut store = MemoryStore::new(alloc);
    let set = store.set(alloc, &key(&rt, alloc, "c/0"), &SIX);
    set.expect(&rt, "a value");
    let mut handle = StoragePartialDecoder::new(&mut store, key(&rt, alloc, "c/0"));
    is_text(&rt, told(alloc, &mut handle), TOLD);
    let store = handle.into_storage();
    let mut handle = StoragePartialEncoder::new(store, key(&rt, alloc, "c/0"));
    changed(&rt, alloc, &mut handle);
}

// `abc` with its digest.
const ABC: [u8; 35] = [
    0x61, 0x62, 0x63, 0xba, 0x78, 0x16, 0xbf, 0x8f, 0x01, 0xcf, 0xea, 0x41, 0x41, 0x40, 0xde, 0x5d,
    0xae, 0x22, 0x23, 0xb0, 0x03, 0x61, 0xa3, 0x96, 0x17, 0x7a, 0x9c, 0xb4, 0x10, 0xff, 0x61, 0xf2,
    0x00, 0x15, 0xad,
];

#[test]
fn a_digest_stands_behind_a_value(rt: HostRuntime) {
    let (alloc, options) = (rt.alloc(), CodecOptions::default());
    let value = Sha256Codec::new().encode(alloc, owned(&rt, alloc, b"abc"), &options);
    let value = value.expect(&rt, "a value");
    assert_eq!(rt; value.as_slice(), ABC.as_slice());
    let size = BytesRepresentation::UnboundedSize;
    let mut handle = BytesToBytesCodecPartialDefault::new_bytes(value, size, Sha256Codec::new());
    is_text(
        &rt,
        told(alloc, &mut handle),
        "Some(Some([[98, 99], [99]])) Some(Some([99])) Some(Some([97, 98, 99]))",
    );
}
