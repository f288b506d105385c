//! Elements of another kind than the array's: by which reason a write of them is refused.

use crate::made::region;
use std::alloc::Global;
use std::borrow::CowSlice;
use std::ops::Range;
use std::process::Abort;
use zarr_array::{CodecOptions, Command, Reply, builtin_registries, run_session};
use zarrs_codec_array_bytes::{ArrayBytes, ArrayBytesOffsets};
use zarrs_storage::MemoryStore;

// Two elements of three bytes, each in a chunk.
const PAIR: &str =
    r#"{"zarr_format":3,"node_type":"array","shape":[2],"data_type":"r24","chunk_grid":{"name":"regular","configuration":{"chunk_shape":[1]}},"chunk_key_encoding":"default","fill_value":[0,0,0],"codecs":["bytes","zarr_basics.sha256"]}"#;

// Two texts, each in a chunk.
const TEXTS: &str =
    r#"{"zarr_format":3,"node_type":"array","shape":[2],"data_type":"string","chunk_grid":{"name":"regular","configuration":{"chunk_shape":[1]}},"chunk_key_encoding":"default","fill_value":"a","codecs":["vlen-utf8"]}"#;

// Three optional elements of optional numbers, in a chunk.
const OPTIONAL: &str =
    r#"{"zarr_format":3,"node_type":"array","shape":[3],"data_type":{"name":"zarrs.optional","configuration":{"name":"zarrs.optional","configuration":{"name":"uint8","configuration":{}}}},"chunk_grid":{"name":"regular","configuration":{"chunk_shape":[3]}},"chunk_key_encoding":"default","fill_value":null,"codecs":[{"name":"zarr_basics.optional","configuration":{"inner":{"name":"zarr_basics.optional","configuration":{"inner":"bytes"}}}}]}"#;

// The name of the refusal that comes first, or what else does.
fn first_name(replies: &[Reply]) -> &'static str {
    match replies.first() {
        Some(Reply::Elements(_)) => "elements",
        Some(Reply::Done) => "done",
        Some(Reply::Refused(why)) => why.name(),
        None => "no reply",
    }
}

// A session over an empty store of one write of elements to these ranges replies this.
fn is_told(
    rt: &impl Abort,
    alloc: Global,
    document: &str,
    ranges: &[Range<u64>],
    bytes: ArrayBytes<'static>,
    want: &str,
) {
    let registries = builtin_registries(alloc).expect(rt, "memory");
    let write = Command::Write(region(rt, alloc, ranges), bytes);
    let commands = vec![in alloc; write].expect(rt, "memory");
    let (mut store, options) = (MemoryStore::new(alloc), CodecOptions::default());
    let told = match run_session(
        alloc,
        document,
        &registries,
        &commands,
        &mut store,
        &options,
    ) {
        Ok(replies) => first_name(&replies),
        Err(_) => panic!(rt; "an error"),
    };
    assert_eq!(rt; told, want);
}

// These elements under a mask.
fn masked(
    rt: &impl Abort,
    alloc: Global,
    bytes: ArrayBytes<'static>,
    mask: &'static [u8],
) -> ArrayBytes<'static> {
    let optional = bytes.with_optional_mask(alloc, CowSlice::Borrowed(mask));
    optional.expect(rt, "memory")
}

// The bytes of three letters between offsets that do not end with them.
fn texts(rt: &impl Abort) -> ArrayBytes<'static> {
    let offsets = ArrayBytesOffsets::new(CowSlice::Borrowed(&[0, 1, 2]));
    let offsets = offsets.ok().expect(rt, "offsets");
    let texts = ArrayBytes::new_vlen(CowSlice::Borrowed(b"abc"), offsets);
    texts.ok().expect(rt, "texts")
}

// The region is tested first.
#[test]
fn elements_of_another_kind_are_refused(rt: HostRuntime) {
    let alloc = rt.alloc();
    let optional = masked(&rt, alloc, ArrayBytes::from(&[1, 2, 3]), &[1]);
    is_told(&rt, alloc, PAIR, &[2..3], optional, "SubsetOutOfBounds");
    let (optional, why) = (
        masked(&rt, alloc, ArrayBytes::from(&[1, 2, 3]), &[1]),
        "ExpectedFixedLengthBytes",
    );
    is_told(&rt, alloc, PAIR, &[0..1], optional, why);
    let (numbers, why) = (ArrayBytes::from(&[97, 98]), "ExpectedVariableLengthBytes");
    is_told(&rt, alloc, TEXTS, &[0..2], numbers, why);
    let (numbers, why) = (ArrayBytes::from(&[7, 8, 9]), "ExpectedOptionalBytes");
    is_told(&rt, alloc, OPTIONAL, &[0..3], numbers, why);
}

#[test]
fn offsets_and_masks_are_tested(rt: HostRuntime) {
    let (alloc, wrong) = (rt.alloc(), "InvalidVariableSizedArrayOffsets");
    is_told(&rt, alloc, TEXTS, &[0..2], texts(&rt), wrong);
    let numbers = masked(&rt, alloc, ArrayBytes::from(&[7, 8, 9]), &[0, 0, 2]);
    let numbers = masked(&rt, alloc, numbers, &[1, 0, 1]);
    is_told(&rt, alloc, OPTIONAL, &[0..3], numbers, "InvalidMask");
}
