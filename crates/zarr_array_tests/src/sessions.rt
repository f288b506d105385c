//! Where a session's error says that it came.

use crate::made::{LINE, SQUARE, opened, put, region};
use std::alloc::Global;
use std::process::Abort;
use zarr_array::{
    CodecOptions, Command, SessionError, SessionErrorKind, builtin_registries, run_session,
};
use zarrs_codec_array_bytes::ArrayBytes;
use zarrs_codec_error::CodecError;
use zarrs_storage::{FailingStore, MemoryStore};

// A write of one element of the square, and one of four in four chunks.
fn two_writes(rt: &impl Abort, alloc: Global) -> Vec<Command> {
    let corner = region(rt, alloc, &[0..1, 0..1]);
    let first = Command::Write(corner, ArrayBytes::from(&[1]));
    let middle = region(rt, alloc, &[1..3, 1..3]);
    let second = Command::Write(middle, ArrayBytes::from(&[11, 12, 14, 15]));
    vec![in alloc; first, second].expect(rt, "memory")
}

// The place of a store's fault.
fn fault_at(error: &SessionError) -> Option<(usize, u64)> {
    match error.kind {
        SessionErrorKind::Store => error.at,
        _ => None,
    }
}

// The place where these writes end whose store fails at a call.
fn failed_at(rt: &impl Abort, alloc: Global, call: u64) -> Option<(usize, u64)> {
    let registries = builtin_registries(alloc).expect(rt, "memory");
    let (commands, options) = (two_writes(rt, alloc), CodecOptions::default());
    let failing = vec![in alloc; call].expect(rt, "memory");
    let mut store = FailingStore::new(MemoryStore::new(alloc), failing);
    match run_session(alloc, SQUARE, &registries, &commands, &mut store, &options) {
        Ok(_) => None,
        Err(error) => fault_at(&error),
    }
}

// The command, and how many of its chunks are done, for a call that asks and for one that stores.
#[test]
fn a_failing_store_is_placed(rt: HostRuntime) {
    let places = [
        (0, (0, 0)),
        (3, (1, 0)),
        (4, (1, 1)),
        (7, (1, 2)),
        (8, (1, 3)),
    ];
    for (call, place) in places {
        assert!(rt; failed_at(&rt, rt.alloc(), call) == Some(place), "{call}");
    }
}

// Two reads, the second of which meets all chunks of the line.
fn two_reads(rt: &impl Abort, alloc: Global) -> Vec<Command> {
    let first = Command::Read(region(rt, alloc, &[0..2]));
    let second = Command::Read(region(rt, alloc, &[0..5]));
    vec![in alloc; first, second].expect(rt, "memory")
}

// The place of a chunk whose value is too short, if it is that of this key.
fn damage_at(error: &SessionError, key: &str) -> Option<(usize, u64)> {
    match &error.kind {
        SessionErrorKind::ChunkDecode {
            key: told,
            error: CodecError::UnexpectedChunkDecodedSize(_),
        } if told.as_str() == key => error.at,
        _ => None,
    }
}

// The place where these reads end over a line whose second chunk has one byte.
fn damaged_at(rt: &impl Abort, alloc: Global) -> Option<(usize, u64)> {
    let (array, commands) = (opened(rt, alloc, LINE), two_reads(rt, alloc));
    let mut store = MemoryStore::new(alloc);
    put(rt, alloc, &mut store, "c/1", &[1]);
    match array.run_commands(alloc, &commands, &mut store, &CodecOptions::default()) {
        Ok(_) => None,
        Err(error) => damage_at(&error, "c/1"),
    }
}

#[test]
fn a_damaged_chunk_is_placed(rt: HostRuntime) {
    assert!(rt; damaged_at(&rt, rt.alloc()) == Some((1, 1)));
}
