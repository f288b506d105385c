//! Runs of the programs over a store in memory, empty at first.

use hex::encode;
use std::alloc::{AllocError, Global};
use zarr_cli::program::run_program;
use zarr_rechunk::run_rechunk;
use zarr_refs::run_refs;
use zarr_shard::run_shard_program;
use zarr_v2::run_v2_program;
use zarrs_storage::{
    FailingStore, MemorySink, MemorySource, MemoryStore, StorageError, Store, StoreKey,
};

// The room of each sink.
const ROOM: usize = 65_536;

/// The program that is run.
#[derive(Clone, Copy)]
pub enum Program {
    /// `zarr`.
    Zarr,
    /// `refs`.
    Refs,
    /// `rechunk`, into an empty store.
    Rechunk,
    /// `v2`.
    V2,
    /// `shard`.
    Shard,
}

impl Program {
    /// The program of a name, or `zarr`.
    pub fn named(name: &str) -> Program {
        match name {
            "refs" => Program::Refs,
            "rechunk" => Program::Rechunk,
            "v2" => Program::V2,
            "shard" => Program::Shard,
            _ => Program::Zarr,
        }
    }

    // Runs the program, and gives its status code.
    fn run(
        self,
        alloc: Global,
        words: &[String],
        source: &mut MemorySource,
        sink: &mut MemorySink,
        store: &mut FailingStore,
    ) -> u8 {
        match self {
            Program::Zarr => run_program(alloc, words, source, sink, store).code(),
            Program::Refs => run_refs(alloc, words, source, sink, store).code(),
            Program::Rechunk => {
                let mut to = MemoryStore::new(alloc);
                run_rechunk(alloc, words, source, sink, store, &mut to).code()
            }
            Program::V2 => run_v2_program(alloc, words, source, sink, store).code(),
            Program::Shard => run_shard_program(alloc, words, source, sink, store).code(),
        }
    }
}

/// The program, the words, the failing calls and the input of one run.
#[derive(Drop)]
pub struct Run {
    pub program: Program,
    pub words: Vec<String>,
    pub failing_reads: Vec<u64>,
    pub failing_writes: Vec<u64>,
    pub failing_calls: Vec<u64>,
    pub input: Vec<u8>,
    // The lines of a second run.
    pub then: Vec<u8>,
}

impl Run {
    /// A run of nothing.
    pub fn new(alloc: Global) -> Run {
        Run {
            program: Program::Zarr,
            words: Vec::new(alloc),
            failing_reads: Vec::new(alloc),
            failing_writes: Vec::new(alloc),
            failing_calls: Vec::new(alloc),
            input: Vec::new(alloc),
            then: Vec::new(alloc),
        }
    }

    /// The input as text, or no text.
    pub fn text(&self) -> &str {
        str::from_utf8(&self.input).unwrap_or("")
    }

    // The second run: the same document, and the lines of its own.
    fn second(&self, alloc: Global) -> Result<Run, AllocError> {
        let mut run = Run::new(alloc);
        run.program = self.program;
        if let Some((document, _)) = self.text().split_once('\n') {
            run.input.extend_from_slice(document.as_bytes())?;
            run.input.push(b'\n')?;
            run.input.extend_from_slice(&self.then)?;
        }
        Ok(run)
    }

    // Runs the program over a store, and appends how it ends, what it wrote and what the store holds, which it gives.
    fn run_over(
        &self,
        alloc: Global,
        mut store: FailingStore,
        out: &mut Vec<u8>,
    ) -> Result<MemoryStore, AllocError> {
        let mut source = MemorySource::new(self.input.clone()?, self.failing_reads.clone()?);
        let mut sink = MemorySink::new(alloc, self.failing_writes.clone()?);
        sink.reserve(ROOM)?;
        let code = self
            .program
            .run(alloc, &self.words, &mut source, &mut sink, &mut store);
        push_end(alloc, code, &store, out)?;
        out.extend_from_slice(sink.written())?;
        let mut memory = store.into_memory();
        push_content(alloc, &mut memory, out)?;
        Ok(memory)
    }

    // Runs the program over an empty store with these failing calls, and what is to run then over what is left.
    fn run_failing(
        &self,
        alloc: Global,
        failing: Vec<u64>,
        out: &mut Vec<u8>,
    ) -> Result<(), AllocError> {
        let empty = FailingStore::new(MemoryStore::new(alloc), failing);
        let memory = self.run_over(alloc, empty, out)?;
        if self.then.is_empty() {
            return Ok(());
        }
        out.extend_from_slice(b"then\n")?;
        let left = FailingStore::new(memory, Vec::new(alloc));
        let _ = self.second(alloc)?.run_over(alloc, left, out)?;
        Ok(())
    }

    /// Runs the program, and what is to run then, and appends what comes of it.
    pub fn run(&self, alloc: Global, out: &mut Vec<u8>) -> Result<(), AllocError> {
        self.run_failing(alloc, self.failing_calls.clone()?, out)
    }

    /// Runs this once for each of the first calls of the store, which fails then.
    pub fn run_each_call(
        &self,
        alloc: Global,
        calls: u64,
        out: &mut Vec<u8>,
    ) -> Result<(), AllocError> {
        for call in 0..calls {
            let name = format!(in alloc; "> {call}\n")?;
            out.extend_from_slice(name.as_bytes())?;
            self.run_failing(alloc, vec![in alloc; call]?, out)?;
        }
        Ok(())
    }
}

fn run_line(
    alloc: Global,
    program: Program,
    document: &str,
    line: &str,
    out: &mut Vec<u8>,
) -> Result<(), AllocError> {
    let name = format!(in alloc; "> {line:?}\n")?;
    out.extend_from_slice(name.as_bytes())?;
    let input = format!(in alloc; "{document}\n{line}\n")?;
    let mut run = Run::new(alloc);
    run.program = program;
    run.input.extend_from_slice(input.as_bytes())?;
    run.run(alloc, out)
}

/// Runs the program for each line after the first, on these two lines, and appends how each run ends.
pub fn run_each_line(
    alloc: Global,
    program: Program,
    text: &str,
    out: &mut Vec<u8>,
) -> Result<(), AllocError> {
    if let Some((document, lines)) = text.split_once('\n') {
        for line in lines.split_terminator('\n') {
            run_line(alloc, program, document, line, out)?;
        }
    }
    Ok(())
}

fn push_end(
    alloc: Global,
    code: u8,
    store: &FailingStore,
    out: &mut Vec<u8>,
) -> Result<(), AllocError> {
    let line = format!(in alloc; "= {code} asks {} taken {}", store.asks(), store.taken())?;
    out.extend_from_slice(line.as_bytes())?;
    if store.faults() > 0 {
        let faults = format!(in alloc; " faults {}", store.faults())?;
        out.extend_from_slice(faults.as_bytes())?;
    }
    out.extend_from_slice(b"\n")
}

// Appends a line for each key of a store.
fn push_content(
    alloc: Global,
    store: &mut MemoryStore,
    out: &mut Vec<u8>,
) -> Result<(), AllocError> {
    for key in store.keys(alloc)? {
        push_key(alloc, store, &key, out)?;
    }
    Ok(())
}

fn push_key(
    alloc: Global,
    store: &mut MemoryStore,
    key: &StoreKey,
    out: &mut Vec<u8>,
) -> Result<(), AllocError> {
    if let Ok(Some(value)) = store.get(alloc, key) {
        let digits = encode(alloc, &value)?;
        let line = format!(in alloc; "holds {} h{}\n", key.as_str(), digits.as_str())?;
        out.extend_from_slice(line.as_bytes())?;
    }
    Ok(())
}
