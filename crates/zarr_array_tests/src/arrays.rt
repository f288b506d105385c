//! Each call on a sharded array once.

use crate::made::{are_elements, region, reply_in};
use std::alloc::Global;
use std::ops::Range;
use std::process::Abort;
use zarr_array::Reply;
use zarr_array_open::builtin_registries;
use zarr_shard::ShardArray;
use zarrs_codec_array_bytes::ArrayBytes;
use zarrs_codec_error::CodecOptions;
use zarrs_metadata::ArrayMetadataV3;
use zarrs_storage::{MemoryStore, Store};

// Two chunks of four numbers, each in two inner chunks.
const DOCUMENT: &str =
    r#"{"zarr_format":3,"node_type":"array","shape":[8],"data_type":"uint8","chunk_grid":{"name":"regular","configuration":{"chunk_shape":[4]}},"chunk_key_encoding":"default","fill_value":0,"codecs":[{"name":"sharding_indexed","configuration":{"chunk_shape":[2],"codecs":["bytes"],"index_codecs":[{"name":"bytes","configuration":{"endian":"little"}}]}}]}"#;

// The array of the fields of a document.
fn made(rt: &impl Abort, alloc: Global) -> ShardArray {
    let registries = builtin_registries(alloc).expect(rt, "memory");
    let metadata = ArrayMetadataV3::try_from_text(alloc, DOCUMENT).expect(rt, "a document");
    match ShardArray::from_metadata(alloc, &metadata, &registries) {
        Ok(array) => array,
        Err(_) => panic!(rt; "no array"),
    }
}

// Whether a write of three elements in two chunks is done.
fn is_written(rt: &impl Abort, alloc: Global, array: &ShardArray, store: &mut MemoryStore) -> bool {
    let subset = region(rt, alloc, &[2..5]);
    let elements = ArrayBytes::from([10, 11, 12].as_slice());
    let reply = array.write(alloc, &subset, &elements, store, &CodecOptions::default());
    matches!(&reply_in(rt, reply), Reply::Done)
}

// Whether a region has these elements.
fn is_read(
    rt: &impl Abort,
    alloc: Global,
    array: &ShardArray,
    range: Range<u64>,
    bytes: &[u8],
    store: &mut MemoryStore,
) -> bool {
    let subset = region(rt, alloc, &[range]);
    let reply = array.read(alloc, &subset, store, &CodecOptions::default());
    match &reply_in(rt, reply) {
        Reply::Elements(elements) => are_elements(elements, bytes),
        _ => false,
    }
}

// The second half of the first chunk is one inner chunk: its index of 32 bytes is read, and its two bytes.
#[test]
fn an_array_is_written_read_and_erased(rt: HostRuntime) {
    let alloc = rt.alloc();
    let array = made(&rt, alloc);
    let mut store = MemoryStore::new(alloc);
    assert!(rt; is_written(&rt, alloc, &array, &mut store));
    assert!(rt; store.puts() == 2);
    let (asks, taken) = (store.asks(), store.taken());
    assert!(rt; is_read(&rt, alloc, &array, 3..4, &[11], &mut store));
    assert!(rt; store.asks() == asks.wrapping_add(2));
    assert!(rt; store.taken() == taken.wrapping_add(34));
    let reply = array.erase(alloc, &[0], &mut store, &CodecOptions::default());
    assert!(rt; matches!(&reply_in(&rt, reply), Reply::Done));
    assert!(rt; is_read(&rt, alloc, &array, 1..6, &[0, 0, 0, 12, 0], &mut store));
}
