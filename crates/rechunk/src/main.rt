//! The program `rechunk`: reads two documents and key lines from standard input, moves the array of the first into the
//! second, and writes the keys that its new store holds to standard output.
#![tactic(auto)]

use std::io;
use std::process::ExitCode;
use std::rt::Env;
use zarr_cli::Status;
use zarr_cli::args::words;
use zarr_rechunk::run_rechunk;
use zarrs_storage::{MemoryStore, ReadSource, WriteSink};

fn run<R: Env + AllocGlobal + Input + Print>(rt: &R) -> u8 {
    let alloc = rt.alloc();
    let Ok(words) = words(rt) else {
        return Status::OutOfMemory.code();
    };
    let mut source = ReadSource::new(rt.reader());
    let mut sink = WriteSink::new(io::writer(rt));
    let (mut from, mut to) = (MemoryStore::new(alloc), MemoryStore::new(alloc));
    run_rechunk(alloc, &words, &mut source, &mut sink, &mut from, &mut to).code()
}

fn main(rt: HostRuntime) -> ExitCode {
    ExitCode::from(run(&rt))
}
