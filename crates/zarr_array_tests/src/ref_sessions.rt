//! Sessions of commands over slices.

use crate::made::{are_elements, key_of, put};
use std::alloc::Global;
use std::process::Abort;
use zarr_array::{
    ArraySubset, CodecOptions, Command, MemoryStore, OpenError, Reply, SessionErrorKind,
    builtin_registries,
};
use zarr_refs::{RefSessionError, RefStore, Reference, run_ref_session};

const DOCUMENT: &str =
    r#"{"zarr_format":3,"node_type":"array","shape":[4],"data_type":"uint8","chunk_grid":{"name":"regular","configuration":{"chunk_shape":[2]}},"chunk_key_encoding":"default","fill_value":0,"codecs":["bytes"]}"#;

// A read of all of the array, and if it is asked for an erase of its first chunk.
fn commands(rt: &impl Abort, alloc: Global, erase: bool) -> Vec<Command> {
    let all = ArraySubset::new_with_ranges(alloc, &[0..4]).expect(rt, "memory");
    let mut commands = Vec::new(alloc);
    commands.push(Command::Read(all)).ok().expect(rt, "memory");
    if erase {
        let chunk = Vec::from_array(alloc, [0]).expect(rt, "memory");
        commands
            .push(Command::Erase(chunk))
            .ok()
            .expect(rt, "memory");
    }
    commands
}

// What a session comes to, over one slice of five bytes for the first chunk.
fn session(
    rt: &impl Abort,
    alloc: Global,
    document: &str,
    erase: bool,
) -> Result<Vec<Reply>, RefSessionError> {
    let registries = builtin_registries(alloc).expect(rt, "memory");
    let mut base = MemoryStore::new(alloc);
    put(rt, alloc, &mut base, "blob", &[0, 1, 2, 3, 4]);
    let mut references = Vec::new(alloc);
    let reference = Reference {
        key: key_of(rt, alloc, "c/0"),
        base: key_of(rt, alloc, "blob"),
        offset: 3,
        length: 2,
    };
    references.push(reference).ok().expect(rt, "memory");
    let Ok(mut store) = RefStore::new(alloc, &mut base, references) else {
        panic!(rt; "refused");
    };
    let commands = commands(rt, alloc, erase);
    let options = CodecOptions::default();
    run_ref_session(
        alloc,
        document,
        &registries,
        &commands,
        &mut store,
        &options,
    )
}

// Whether a reply has these elements.
fn has_elements(reply: Option<Reply>, elements: &[u8]) -> bool {
    match reply {
        Some(Reply::Elements(bytes)) => are_elements(&bytes, elements),
        _ => false,
    }
}

#[test]
fn reads_go_through_slices(rt: HostRuntime) {
    let alloc = rt.alloc();
    let Ok(mut replies) = session(&rt, alloc, DOCUMENT, false) else {
        panic!(rt; "replies");
    };
    assert_eq!(rt; replies.len(), 1);
    assert!(rt; has_elements(replies.pop(), &[3, 4, 0, 0]));
}

// Whether an error tells that the document is none.
fn is_no_document(kind: &SessionErrorKind) -> bool {
    match kind {
        SessionErrorKind::NotOpened(OpenError::InvalidMetadata) => true,
        _ => false,
    }
}

// How a session over no document ends.
fn ending(rt: &impl Abort, alloc: Global, erase: bool) -> &'static str {
    match session(rt, alloc, "{}", erase) {
        Ok(_) => "done",
        Err(RefSessionError::ReadOnly { command: 1 }) => "the second command changes",
        Err(RefSessionError::ReadOnly { command: _ }) => "another command changes",
        Err(RefSessionError::Session(error)) => {
            if is_no_document(&error.kind) {
                "no document"
            } else {
                "another error"
            }
        }
    }
}

#[test]
fn a_command_that_changes_is_told_before_the_document(rt: HostRuntime) {
    let alloc = rt.alloc();
    assert_eq!(rt; ending(&rt, alloc, true), "the second command changes");
    assert_eq!(rt; ending(&rt, alloc, false), "no document");
}
