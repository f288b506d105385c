//! Each call on an open array once.

use crate::made::{LINE, are_elements, opened, region, reply_in};
use std::alloc::Global;
use std::process::Abort;
use zarr_array::{CodecOptions, OpenArray, Reply};
use zarrs_codec_array_bytes::ArrayBytes;
use zarrs_storage::{MemoryStore, Store};

fn is_done(reply: &Reply) -> bool {
    matches!(reply, Reply::Done)
}

// Whether a write of two elements in two chunks is done.
fn is_written(rt: &impl Abort, alloc: Global, array: &OpenArray, store: &mut MemoryStore) -> bool {
    let subset = region(rt, alloc, &[3..5]);
    let elements = ArrayBytes::from([7, 0, 42, 1].as_slice());
    let options = CodecOptions::default().with_store_empty_chunks(true);
    let reply = array.write(alloc, &subset, &elements, store, &options);
    is_done(&reply_in(rt, reply))
}

// Whether they are read behind the fill value.
fn is_read(rt: &impl Abort, alloc: Global, array: &OpenArray, store: &mut MemoryStore) -> bool {
    let subset = region(rt, alloc, &[2..5]);
    let reply = array.read(alloc, &subset, store, &CodecOptions::default());
    match &reply_in(rt, reply) {
        Reply::Elements(elements) => are_elements(elements, &[7, 0, 7, 0, 42, 1]),
        _ => false,
    }
}

#[test]
fn an_array_is_written_read_and_erased(rt: HostRuntime) {
    let alloc = rt.alloc();
    let array = opened(&rt, alloc, LINE);
    let mut store = MemoryStore::new(alloc);
    assert!(rt; array.shape() == [5].as_slice());
    assert!(rt; array.data_type().fixed_size() == Some(2));
    assert!(rt; is_written(&rt, alloc, &array, &mut store));
    assert!(rt; is_read(&rt, alloc, &array, &mut store));
    let reply = array.erase(alloc, &[2], &mut store, &CodecOptions::default());
    assert!(rt; is_done(&reply_in(&rt, reply)));
    assert!(rt; store.puts() == 3);
    assert!(rt; store.keys(alloc).expect(&rt, "memory").len() == 1);
}
