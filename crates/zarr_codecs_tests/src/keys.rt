//! Chunk keys.

use std::alloc::Global;
use std::process::Abort;
use zarr_basics::ChunkKeyKind;
use zarrs_metadata_parts::MetadataV3;

// The key of some indices under the encoding of a kind and its metadata.
fn has_key(
    rt: &impl Abort,
    alloc: Global,
    kind: ChunkKeyKind,
    text: &str,
    indices: &[u64],
    want: &str,
) {
    let metadata = MetadataV3::try_from_text(alloc, text).expect(rt, text);
    let keys = kind.make(alloc, &metadata).expect(rt, text);
    let key = keys.key(alloc, indices).expect(rt, "memory");
    assert_eq!(rt; key.as_str(), want);
}

const DOT: &str = r#"{"name":"k","configuration":{"separator":"."}}"#;

const SLASH: &str = r#"{"name":"k","configuration":{"separator":"/"}}"#;

#[test]
fn keys_join_indices(rt: HostRuntime) {
    let (some, alloc) = (ChunkKeyKind::Default, rt.alloc());
    let (default, v2) = (r#""default""#, r#""v2""#);
    has_key(&rt, alloc, some, default, &[1, 23, 45], "c/1/23/45");
    let last = "c.1.18446744073709551615";
    has_key(&rt, alloc, some, DOT, &[1, u64::MAX], last);
    has_key(&rt, alloc, some, SLASH, &[], "c");
    let other = ChunkKeyKind::V2;
    has_key(&rt, alloc, other, v2, &[1, 23, 45], "1.23.45");
    has_key(&rt, alloc, other, SLASH, &[1, 0], "1/0");
    has_key(&rt, alloc, other, DOT, &[], "0");
}
