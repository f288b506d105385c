//! Where a move ends whose store fails, or whose chunk does not decode.

use crate::made::{SQUARE, opened, put};
use std::alloc::Global;
use std::process::Abort;
use zarr_array::CodecOptions;
use zarr_rechunk::{RechunkError, RechunkErrorKind, rechunk};
use zarrs_storage::{FailingStore, MemoryStore, Store};

// The square in two chunks, the second of which ends past it.
const HIGH: &str =
    r#"{"zarr_format":3,"node_type":"array","shape":[4,4],"data_type":"uint8","chunk_grid":{"name":"regular","configuration":{"chunk_shape":[3,4]}},"chunk_key_encoding":"default","fill_value":0,"codecs":["bytes"]}"#;

// What an end is called, and the band that it tells.
fn told(end: Result<(), RechunkError>) -> (&'static str, Option<u64>) {
    match end {
        Ok(()) => ("moved", None),
        Err(error) => (name_of(&error.kind), error.at),
    }
}

fn name_of(kind: &RechunkErrorKind) -> &'static str {
    match kind {
        RechunkErrorKind::SourceChunk { key, error: _ } if key.as_str() == "c/0/0" => "c/0/0",
        RechunkErrorKind::SourceStore => "SourceStore",
        RechunkErrorKind::TargetStore => "TargetStore",
        _ => "another end",
    }
}

// How the square is moved from one store into another.
fn moved<S: Store, T: Store>(
    rt: &impl Abort,
    alloc: Global,
    from: &mut S,
    to: &mut T,
) -> (&'static str, Option<u64>) {
    let source = opened(rt, alloc, SQUARE);
    let target = opened(rt, alloc, HIGH);
    told(rechunk(alloc, &source, &target, from, to, &CodecOptions::default()))
}

// A store with this value for the first chunk of the square.
fn with_first(rt: &impl Abort, alloc: Global, value: &[u8]) -> MemoryStore {
    let mut store = MemoryStore::new(alloc);
    put(rt, alloc, &mut store, "c/0/0", value);
    store
}

// A store over another one, one of whose calls fails.
fn failing(rt: &impl Abort, alloc: Global, memory: MemoryStore, call: u64) -> FailingStore {
    let calls = vec![in alloc; call].expect(rt, "memory");
    FailingStore::new(memory, calls)
}

// The first band ends at the source's fourth call and at the target's second. What is left is moved by another move.
#[test]
fn a_failing_store_is_told_with_its_band(rt: HostRuntime) {
    let alloc = rt.alloc();
    for (call, band) in [(0, 0), (3, 0), (4, 1), (5, 1)] {
        let mut from = failing(&rt, alloc, with_first(&rt, alloc, &[1, 2, 3, 4]), call);
        let mut to = MemoryStore::new(alloc);
        let want = ("SourceStore", Some(band));
        assert_eq!(rt; moved(&rt, alloc, &mut from, &mut to), want);
        assert_eq!(rt; moved(&rt, alloc, &mut from, &mut to), ("moved", None));
    }
    for (call, band) in [(0, 0), (1, 0), (2, 1), (3, 1)] {
        let mut from = with_first(&rt, alloc, &[1, 2, 3, 4]);
        let mut to = failing(&rt, alloc, MemoryStore::new(alloc), call);
        let want = ("TargetStore", Some(band));
        assert_eq!(rt; moved(&rt, alloc, &mut from, &mut to), want);
        assert_eq!(rt; moved(&rt, alloc, &mut from, &mut to), ("moved", None));
    }
}

#[test]
fn a_damaged_chunk_is_told_with_its_band(rt: HostRuntime) {
    let alloc = rt.alloc();
    let mut from = with_first(&rt, alloc, &[1, 2, 3]);
    let mut to = MemoryStore::new(alloc);
    assert_eq!(rt; moved(&rt, alloc, &mut from, &mut to), ("c/0/0", Some(0)));
}
