//! Slices of one value, read; and references that are refused.

use crate::made::key_of;
use std::alloc::Global;
use std::process::Abort;
use zarr_refs::{RefError, RefStore, Reference};
use zarrs_storage::{ByteRange, FailingStore, MemoryStore, StorageError, Store};

// A reference to `length` bytes of a value from `offset` on.
fn slice(
    rt: &impl Abort,
    alloc: Global,
    key: &str,
    base: &str,
    offset: u64,
    length: u64,
) -> Reference {
    Reference {
        key: key_of(rt, alloc, key),
        base: key_of(rt, alloc, base),
        offset,
        length,
    }
}

// A store with five bytes under `blob`.
fn blob(rt: &impl Abort, alloc: Global) -> MemoryStore {
    let mut base = MemoryStore::new(alloc);
    let key = key_of(rt, alloc, "blob");
    base.set(alloc, &key, &[0, 1, 2, 3, 4]).expect(rt, "memory");
    base
}

fn both(rt: &impl Abort, alloc: Global, first: Reference, second: Reference) -> Vec<Reference> {
    let mut references = Vec::new(alloc);
    references.push(first).ok().expect(rt, "memory");
    references.push(second).ok().expect(rt, "memory");
    references
}

// The first bytes of the blob but one, and the last two, the later key first.
fn halves(rt: &impl Abort, alloc: Global) -> Vec<Reference> {
    let first = slice(rt, alloc, "c/0", "blob", 1, 2);
    let second = slice(rt, alloc, "c/1", "blob", 3, 2);
    both(rt, alloc, second, first)
}

// Whether the value under a key is these bytes.
fn holds<S: Store>(rt: &impl Abort, alloc: Global, store: &mut S, key: &str, bytes: &[u8]) -> bool {
    let key = key_of(rt, alloc, key);
    match store.get(alloc, &key) {
        Ok(Some(value)) => value.as_slice() == bytes,
        _ => false,
    }
}

// Whether the last byte of the value under a key and all of it are these.
fn has_parts<S: Store>(
    rt: &impl Abort,
    alloc: Global,
    store: &mut S,
    key: &str,
    last: &[u8],
    all: &[u8],
) -> bool {
    let key = key_of(rt, alloc, key);
    let ranges = [ByteRange::Suffix(1), ByteRange::FromStart(0, None)];
    match store.get_partial_many(alloc, &key, &ranges) {
        Ok(Some(parts)) => match parts.as_slice() {
            [first, second] => first.as_slice() == last && second.as_slice() == all,
            _ => false,
        },
        _ => false,
    }
}

// Whether these two keys are all that a store has.
fn lists<S: Store>(alloc: Global, store: &mut S, first: &str, second: &str) -> bool {
    match store.list(alloc) {
        Ok(keys) => match keys.as_slice() {
            [a, b] => a.as_str() == first && b.as_str() == second,
            _ => false,
        },
        Err(_) => false,
    }
}

// How many bytes the value under a key has.
fn size<S: Store>(rt: &impl Abort, alloc: Global, store: &mut S, key: &str) -> Option<u64> {
    let key = key_of(rt, alloc, key);
    store.size_key(&key).ok().expect(rt, "a size")
}

// Whether the halves are read, by five calls.
fn are_halves<S: Store>(rt: &impl Abort, alloc: Global, store: &mut S) -> bool {
    holds(rt, alloc, store, "c/0", &[1, 2])
        && has_parts(rt, alloc, store, "c/1", &[4], &[3, 4])
        && lists(alloc, store, "c/0", "c/1")
        && size(rt, alloc, store, "c/1") == Some(2)
        && size(rt, alloc, store, "blob") == None
}

// The counts of a store: of reading calls, of bytes handed out and of faults.
fn counts<S: Store>(store: &S) -> (u64, u64, u64) {
    (store.asks(), store.taken(), store.faults())
}

#[test]
fn slices_are_values(rt: HostRuntime) {
    let alloc = rt.alloc();
    let mut base = blob(&rt, alloc);
    let mut store = match RefStore::new(alloc, &mut base, halves(&rt, alloc)) {
        Ok(store) => store,
        Err(_) => panic!(rt; "refused"),
    };
    let halves = are_halves(&rt, alloc, &mut store);
    let read = counts(&store);
    let erased = store.erase(&key_of(&rt, alloc, "c/0"));
    let faults = store.faults();
    // Of the base: a size for each reference, and two reads.
    let below = counts(store.into_base());
    assert_eq!(rt; halves, true);
    assert_eq!(rt; read, (5, 5, 0));
    assert_eq!(rt; erased, Err(StorageError::Failed));
    assert_eq!(rt; faults, 1);
    assert_eq!(rt; below, (4, 5, 0));
}

// Whether each writing call fails, also one that would change nothing.
fn only_reads<S: Store>(rt: &impl Abort, alloc: Global, store: &mut S) -> bool {
    let (here, absent) = (key_of(rt, alloc, "c/0"), key_of(rt, alloc, "blob"));
    store.set(alloc, &here, &[1, 2]) == Err(StorageError::Failed)
        && store.set_partial_many(alloc, &here, &[]) == Err(StorageError::Failed)
        && store.erase(&absent) == Err(StorageError::Failed)
}

#[test]
fn slices_are_not_written(rt: HostRuntime) {
    let alloc = rt.alloc();
    let mut base = blob(&rt, alloc);
    let mut store = match RefStore::new(alloc, &mut base, halves(&rt, alloc)) {
        Ok(store) => store,
        Err(_) => panic!(rt; "refused"),
    };
    assert!(rt; only_reads(&rt, alloc, &mut store));
    assert_eq!(rt; counts(&store), (0, 0, 3));
    assert_eq!(rt; counts(store.into_base()), (2, 0, 0));
}

// Why two references over a store are refused, or nothing.
fn refusal<S: Store>(alloc: Global, base: &mut S, references: Vec<Reference>) -> &'static str {
    match RefStore::new(alloc, base, references) {
        Ok(_) => "none",
        Err(RefError::RepeatedKey { key: _ }) => "repeated",
        Err(RefError::MissingBase { key: _ }) => "missing",
        Err(RefError::SliceOutOfBounds { key: _ }) => "out of bounds",
        Err(RefError::Store) => "store",
        Err(RefError::OutOfMemory) => "memory",
    }
}

// Why this reference is refused behind one that is fine.
fn behind(rt: &impl Abort, alloc: Global, second: Reference) -> &'static str {
    let first = slice(rt, alloc, "c/0", "blob", 5, 0);
    let mut base = blob(rt, alloc);
    refusal(alloc, &mut base, both(rt, alloc, first, second))
}

#[test]
fn references_are_refused(rt: HostRuntime) {
    let alloc = rt.alloc();
    let repeated = slice(&rt, alloc, "c/0", "none", 0, 1);
    assert_eq!(rt; behind(&rt, alloc, repeated), "repeated");
    let missing = slice(&rt, alloc, "c/1", "none", 0, 0);
    assert_eq!(rt; behind(&rt, alloc, missing), "missing");
    let past = slice(&rt, alloc, "c/1", "blob", 4, 2);
    assert_eq!(rt; behind(&rt, alloc, past), "out of bounds");
    let far = slice(&rt, alloc, "c/1", "blob", 18446744073709551615, 2);
    assert_eq!(rt; behind(&rt, alloc, far), "out of bounds");
    let whole = slice(&rt, alloc, "c/1", "blob", 0, 5);
    assert_eq!(rt; behind(&rt, alloc, whole), "none");
}

// Why the halves are refused where a call of the base fails, or how the first read ends and how many faults there are.
fn over_failing(rt: &impl Abort, alloc: Global, call: u64) -> (&'static str, u64) {
    let mut failing = Vec::new(alloc);
    failing.push(call).ok().expect(rt, "memory");
    let mut base = FailingStore::new(blob(rt, alloc), failing);
    match RefStore::new(alloc, &mut base, halves(rt, alloc)) {
        Ok(mut store) => {
            let read = match store.get(alloc, &key_of(rt, alloc, "c/0")) {
                Err(StorageError::Failed) => "not read",
                _ => "read",
            };
            (read, store.faults())
        }
        Err(RefError::Store) => ("not made", 0),
        Err(_) => ("refused", 0),
    }
}

#[test]
fn a_base_fails(rt: HostRuntime) {
    let alloc = rt.alloc();
    assert_eq!(rt; over_failing(&rt, alloc, 0), ("not made", 0));
    assert_eq!(rt; over_failing(&rt, alloc, 1), ("not made", 0));
    assert_eq!(rt; over_failing(&rt, alloc, 2), ("not read", 1));
    assert_eq!(rt; over_failing(&rt, alloc, 3), ("read", 0));
}
