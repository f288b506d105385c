//! Stores, each by the same calls, and the bytes that ranges name of a value.

use crate::makers::key;
use crate::texts::{gives, is_text};
use std::alloc::{AllocError, Global};
use std::process::Abort;
use zarrs_storage::{
    ByteRange, FailingStore, MemoryStore, OffsetBytes, Store, extract_byte_ranges,
    extract_byte_ranges_concat,
};

// A value is put, and two parts of an absent one, the second over the end of the first.
fn put<S: Store>(rt: &impl Abort, alloc: Global, store: &mut S) {
    let set = store.set(alloc, &key(rt, alloc, "a"), &[1, 2, 3]);
    set.expect(rt, "a value");
    let first = OffsetBytes {
        offset: 2,
        bytes: vec![in alloc; 7, 8].expect(rt, "memory"),
    };
    let second = OffsetBytes {
        offset: 3,
        bytes: vec![in alloc; 9].expect(rt, "memory"),
    };
    let parts = [first, second];
    let set = store.set_partial_many(alloc, &key(rt, alloc, "b"), &parts);
    set.expect(rt, "parts");
}

// The value, three ranges and the size of the other one, and the keys.
fn held<S: Store>(rt: &impl Abort, alloc: Global, store: &mut S) -> Result<String, AllocError> {
    let (first, second) = (key(rt, alloc, "a"), key(rt, alloc, "b"));
    let ranges = [
        ByteRange::FromStart(1, Some(3)),
        ByteRange::Suffix(1),
        ByteRange::FromStart(0, None),
    ];
    let value = store.get(alloc, &first);
    let parts = store.get_partial_many(alloc, &second, &ranges);
    let size = store.size_key(&second);
    let keys = store.list(alloc);
    format!(in alloc; "{value:?} {parts:?} {size:?} {keys:?}")
}

const HELD: &str =
    r#"Ok(Some([1, 2, 3])) Ok(Some([[0, 7, 9], [9], [0, 0, 7, 9]])) Ok(Some(4)) Ok([StoreKey { text: "a" }, StoreKey { text: "b" }])"#;

fn holds<S: Store>(rt: &impl Abort, alloc: Global, store: &mut S) {
    put(rt, alloc, store);
    is_text(rt, held(rt, alloc, store), HELD);
    let first = key(rt, alloc, "a");
    store.erase(&first).expect(rt, "erased");
    gives(rt, alloc, store.get(alloc, &first), "None");
}

#[test]
fn values_are_put_read_and_erased(rt: HostRuntime) {
    let alloc = rt.alloc();
    holds(&rt, alloc, &mut MemoryStore::new(alloc));
    let calls = vec![in alloc; 8].expect(&rt, "memory");
    let mut store = FailingStore::new(MemoryStore::new(alloc), calls);
    holds(&rt, alloc, &mut store);
    gives(&rt, alloc, store.list(alloc), "Failed");
}

#[test]
fn ranges_name_bytes(rt: HostRuntime) {
    let (alloc, bytes) = (rt.alloc(), [0, 1, 2, 3, 4, 5]);
    let ranges = [
        ByteRange::FromStart(1, Some(3)),
        ByteRange::Suffix(2),
        ByteRange::FromStart(4, None),
    ];
    let parts = extract_byte_ranges(alloc, &bytes, &ranges);
    gives(&rt, alloc, parts, "[[1, 2, 3], [4, 5], [4, 5]]");
    let joined = extract_byte_ranges_concat(alloc, &bytes, &ranges);
    gives(&rt, alloc, joined, "[1, 2, 3, 4, 5, 4, 5]");
}
