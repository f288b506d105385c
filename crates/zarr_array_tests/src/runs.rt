//! Whole runs from a number, over a source without end, and into a sink that takes a byte a call; the line of a reply.

ghost use Rattle.std.specs.Prelude.{◌≡◌, None};

use crate::made::SQUARE;
use std::alloc::{AllocError, Global};
use std::test::Fail;
use zarr_array::Reply;
use zarr_cli::program::run_program;
use zarr_cli::{Status, reply_line};
use zarrs_data_type::DataType;
use zarrs_storage::{IoFailed, MemorySink, MemorySource, MemoryStore, Sink, Source, Store};

// A run over an empty store in memory, which never fails.
fn run_in_memory<R: Source, W: Sink>(
    alloc: Global,
    words: &[String],
    source: &mut R,
    sink: &mut W,
) -> Status
    ensures { ¬ (result ≡ Status.Store) }
{
    let mut store = MemoryStore::new(alloc);
    run_program(alloc, words, source, sink, &mut store)
}

// A source of the square's document and this line.
fn source_of(alloc: Global, line: &str) -> Result<MemorySource, AllocError> {
    let input = format!(in alloc; "{SQUARE}\n{line}\n")?;
    let bytes = Vec::from_slice(alloc, input.as_bytes())?;
    Ok(MemorySource::new(bytes, Vec::new(alloc)))
}

fn sink_with_room(alloc: Global) -> Result<MemorySink, AllocError> {
    let mut sink = MemorySink::new(alloc, Vec::new(alloc));
    sink.reserve(100)?;
    Ok(sink)
}

// A source of spaces.
#[derive(Drop)]
struct Spaces {
    left: usize,
}

impl Source for Spaces {
    ghost shown = { λ _. record {
      left = None;
      faults = 0;
    } };

    fn read(&mut self, buffer: &mut [u8]) -> Result<usize, IoFailed> {
        let got = buffer.len().min(self.left);
        for byte in buffer.iter_mut() {
            *byte = b' ';
        }
        self.left -= got;
        Ok(got)
    }

    fn faults(&self) -> u64 {
        0
    }
}

// A run from a number over an empty store: no byte of the source is taken.
fn run_from(alloc: Global, number: &str, sink: &mut MemorySink) -> Result<(u8, u64, usize), Fail> {
    let mut words = Vec::with_capacity(alloc, 2)?;
    words.push(String::from_str(alloc, "--make")?)?;
    words.push(String::from_str(alloc, number)?)?;
    let mut source = Spaces { left: 1 };
    let mut store = MemoryStore::new(alloc);
    let status = run_program(alloc, &words, &mut source, sink, &mut store);
    Ok((status.code(), store.asks(), source.left))
}

#[test]
fn a_run_is_made_from_a_number(rt: HostRuntime) -> Result<(), Fail> {
    let alloc = rt.alloc();
    // The number, the reading calls and the summary, from a program in another language.
    let table = [
        (
            "1",
            2167,
            "commands 300\nok 117\ndone 174\nrefused 9\nelements 871693\nkeys 40\nsha256 7b5fd22fe4db2bee0d064174d866e5205b644367641e3970f4d5b2513e5cd473\n",
        ),
        (
            "2",
            2127,
            "commands 300\nok 112\ndone 177\nrefused 11\nelements 779246\nkeys 40\nsha256 7e0629cf4767b87d2beb30440845a0164c57b9b368024fd8b13afb2b59a7b269\n",
        ),
    ];
    for (number, asks, summary) in table {
        let mut sink = MemorySink::new(alloc, Vec::new(alloc));
        sink.reserve(200)?;
        let end = run_from(alloc, number, &mut sink)?;
        assert_eq!(rt; sink.written(), summary.as_bytes(), "of {number}");
        assert_eq!(rt; end, (0, asks, 1), "of {number}");
    }
    Ok(())
}

#[test]
fn an_input_may_have_so_many_bytes(rt: HostRuntime) -> Result<(), Fail> {
    let alloc = rt.alloc();
    let table = [
        (67_108_864, 0, 4, "document InvalidJson\n"),
        (67_108_865, 0, 9, "too long\n"),
        (67_108_900, 35, 9, "too long\n"),
    ];
    for (bytes, left, code, output) in table {
        let mut source = Spaces { left: bytes };
        let mut sink = sink_with_room(alloc)?;
        let status = run_in_memory(alloc, &[], &mut source, &mut sink);
        assert_eq!(rt; sink.written(), output.as_bytes(), "at {bytes}");
        assert_eq!(rt; (status.code(), source.left), (code, left), "at {bytes}");
    }
    Ok(())
}

// A sink that takes a byte a call, and fails at its third.
#[derive(Drop)]
struct Drip {
    taken: [u8; 2],
    calls: usize,
    faults: u64,
}

impl Sink for Drip {
    ghost shown = { λ s. record {
      bytes = None;
      faults = s.faults;
    } };

    fn write(&mut self, piece: &[u8]) -> Result<usize, IoFailed> {
        if self.calls >= 2 {
            self.faults = self.faults.saturating_add(1);
            return Err(IoFailed);
        }
        let Some(first) = piece.first() else {
            return Ok(0);
        };
        self.taken[self.calls] = *first;
        self.calls += 1;
        Ok(1)
    }

    fn faults(&self) -> u64 {
        self.faults
    }
}

#[test]
fn a_failing_sink_has_a_front(rt: HostRuntime) -> Result<(), Fail> {
    let alloc = rt.alloc();
    let mut source = source_of(alloc, "read 0..1,0..1")?;
    let mut sink = Drip {
        taken: [0; 2],
        calls: 0,
        faults: 0,
    };
    let status = run_in_memory(alloc, &[], &mut source, &mut sink);
    assert_eq!(rt; status.code(), 8);
    assert_eq!(rt; sink.taken.as_slice(), b"ok".as_slice());
    Ok(())
}

#[test]
fn line_of_a_reply(rt: HostRuntime) {
    let alloc = rt.alloc();
    let line = reply_line(alloc, &Reply::Done, &DataType::UInt8).expect(&rt, "memory");
    assert_eq!(rt; line.as_str(), "done");
}
