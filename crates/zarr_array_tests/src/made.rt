//! Documents, arrays, regions, values and elements.

use std::alloc::Global;
use std::ops::Range;
use std::process::Abort;
use zarr_array::{OpenArray, Reply, SessionError, builtin_registries};
use zarrs_array_subset::ArraySubset;
use zarrs_codec_array_bytes::ArrayBytes;
use zarrs_codec_array_bytes::array_bytes::bytes_in;
use zarrs_storage::{MemoryStore, Store, StoreKey};

/// A document of a square in four chunks.
pub const SQUARE: &str =
    r#"{"zarr_format":3,"node_type":"array","shape":[4,4],"data_type":"uint8","chunk_grid":{"name":"regular","configuration":{"chunk_shape":[2,2]}},"chunk_key_encoding":"default","fill_value":0,"codecs":["bytes"]}"#;

/// A document of a line of two-byte numbers, stored the greater byte first, in three chunks, the last of which goes
/// past it.
pub const LINE: &str =
    r#"{"zarr_format":3,"node_type":"array","shape":[5],"data_type":"int16","chunk_grid":{"name":"regular","configuration":{"chunk_shape":[2]}},"chunk_key_encoding":"default","fill_value":7,"codecs":[{"name":"bytes","configuration":{"endian":"big"}}]}"#;

/// The array of a document.
pub fn opened(rt: &impl Abort, alloc: Global, document: &str) -> OpenArray {
    let registries = builtin_registries(alloc).expect(rt, "memory");
    OpenArray::open(alloc, document, &registries).expect(rt, "a document")
}

/// The region of these ranges.
pub fn region(rt: &impl Abort, alloc: Global, ranges: &[Range<u64>]) -> ArraySubset {
    ArraySubset::new_with_ranges(alloc, ranges).expect(rt, "memory")
}

/// A key that is in form.
pub fn key_of(rt: &impl Abort, alloc: Global, key: &str) -> StoreKey {
    let text = String::from_str(alloc, key).expect(rt, "memory");
    StoreKey::new(text).ok().expect(rt, key)
}

/// Sets the value under a key.
pub fn put(rt: &impl Abort, alloc: Global, store: &mut MemoryStore, key: &str, value: &[u8]) {
    let key = key_of(rt, alloc, key);
    store.set(alloc, &key, value).ok().expect(rt, "a value");
}

/// Whether these are elements of one size, and the bytes of all.
pub fn are_elements(bytes: &ArrayBytes<'_>, elements: &[u8]) -> bool {
    match bytes {
        ArrayBytes::Fixed(fixed) => bytes_in(fixed) == elements,
        _ => false,
    }
}

/// The reply, where there is no error.
pub fn reply_in(rt: &impl Abort, reply: Result<Reply, SessionError>) -> Reply {
    match reply {
        Ok(reply) => reply,
        Err(_) => panic!(rt; "an error"),
    }
}
