//! An array as programs make them: the lines of a write of a block and of a read of its corner, without a last newline.

use std::alloc::{AllocError, Global};
use std::test::Fail;
use zarr_cli::program::run_program;
use zarrs_storage::{MemorySink, MemorySource, MemoryStore};

// A document of heights in millimetres, in chunks that end in digests.
const HEIGHTS: &str =
    r#"{"shape":[1000,700],"data_type":"int32","chunk_grid":{"name":"regular","configuration":{"chunk_shape":[128,128]}},"chunk_key_encoding":{"name":"default","configuration":{"separator":"/"}},"fill_value":0,"codecs":[{"name":"bytes","configuration":{"endian":"little"}},{"name":"zarr_basics.sha256"}],"attributes":{"title":"height","units":"mm","version":2},"dimension_names":["y","x"],"storage_transformers":[],"zarr_format":3,"node_type":"array"}"#;

// Half a byte, as a digit.
fn digit(half: u8) -> u8 {
    match half {
        0..=9 => half.wrapping_add(b'0'),
        _ => half.wrapping_add(b'a' - 10),
    }
}

// Appends an element to a line.
fn push_element(input: &mut Vec<u8>, number: u32) -> Result<(), AllocError> {
    let [a, b, c, d] = number.to_le_bytes();
    let text = [
        b' ',
        b'h',
        digit(a >> 4),
        digit(a & 15),
        digit(b >> 4),
        digit(b & 15),
        digit(c >> 4),
        digit(c & 15),
        digit(d >> 4),
        digit(d & 15),
    ];
    input.extend_from_slice(&text)?;
    Ok(())
}

// Appends the elements of 300 columns of a row: the number of each in rows of 700.
fn push_row(input: &mut Vec<u8>, row: u32) -> Result<(), AllocError> {
    for column in 100..400u32 {
        push_element(input, row.wrapping_mul(700).wrapping_add(column))?;
    }
    Ok(())
}

fn source(alloc: Global) -> Result<MemorySource, AllocError> {
    let mut input = Vec::from_slice(alloc, HEIGHTS.as_bytes())?;
    input.extend_from_slice(b"\nwrite 300..600,100..400")?;
    for row in 300..600u32 {
        push_row(&mut input, row)?;
    }
    input.extend_from_slice(b"\nread 299..301,100..102")?;
    Ok(MemorySource::new(input, Vec::new(alloc)))
}

// Runs the lines over an empty store, and tells how many keys it then has.
fn run(alloc: Global, sink: &mut MemorySink) -> Result<usize, AllocError> {
    let mut source = source(alloc)?;
    let mut store = MemoryStore::new(alloc);
    let _status = run_program(alloc, &[], &mut source, sink, &mut store);
    let keys = store.keys(alloc)?;
    Ok(keys.len())
}

const REPLIES: &[u8] = b"done\nok h00000000 h00000000 hb4340300 hb5340300\n";

#[test]
fn heights_are_written_and_read(rt: HostRuntime) -> Result<(), Fail> {
    let mut sink = MemorySink::new(rt.alloc(), Vec::new(rt.alloc()));
    sink.reserve(100)?;
    assert_eq!(rt; run(rt.alloc(), &mut sink)?, 12);
    assert_eq!(rt; sink.written(), REPLIES);
    Ok(())
}
