//! The program `v2`: reads a version 2 document, key lines and commands from standard input, and writes the replies to
//! standard output.
#![tactic(auto)]

use std::io;
use std::process::ExitCode;
use std::rt::Env;
use zarr_cli::Status;
use zarr_cli::args::words;
use zarr_v2::run_v2_program;
use zarrs_storage::{MemoryStore, ReadSource, WriteSink};

fn run<R: Env + AllocGlobal + Input + Print>(rt: &R) -> u8 {
    let alloc = rt.alloc();
    let Ok(words) = words(rt) else {
        return Status::OutOfMemory.code();
    };
    let mut source = ReadSource::new(rt.reader());
    let mut sink = WriteSink::new(io::writer(rt));
    let mut store = MemoryStore::new(alloc);
    run_v2_program(alloc, &words, &mut source, &mut sink, &mut store).code()
}

fn main(rt: HostRuntime) -> ExitCode {
    ExitCode::from(run(&rt))
}
