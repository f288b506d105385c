//! Tries each row of standard input, and prints what comes of it.
#![tactic(auto)]

mod data_type;
mod document;
mod extension;
mod field;
mod fill;
mod group;
mod kind;
mod line;
mod node;
mod row;
mod run;
mod shard;
mod version_2;

use row::Row;
use std::alloc::{AllocError, Global};
use std::io::{self, BufRead, BufReader, Write};

// The row that a line begins or goes on with. One that ends is tried first.
fn next(alloc: Global, row: Row, line: &str, out: &mut Vec<u8>) -> Result<Row, AllocError> {
    match line.strip_prefix("# ") {
        Some(name) => {
            row.run(alloc, out)?;
            Row::new(alloc, name)
        }
        None => row.with_line(alloc, line),
    }
}

fn main(rt: HostRuntime) -> io::Result<()> {
    let alloc = rt.alloc();
    let mut out = Vec::new(alloc);
    let mut row = Row::new(alloc, "")?;
    for line in BufReader::new(alloc, rt.reader())?.lines(alloc) {
        row = next(alloc, row, line?.as_str(), &mut out)?;
    }
    row.run(alloc, &mut out)?;
    io::writer(&rt).write_all(&out)
}
