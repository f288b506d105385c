//! One row: its name, what it tries, and on what.

use crate::kind::TextKind;
use crate::run::{Program, Run, run_each_line};
use hex::decode;
use std::alloc::{AllocError, Global};

// What stands before each value of `! array`, and after the last.
const BEFORE: [&str; 5] = [
    "{\"zarr_format\":3,\"node_type\":\"array\",\"shape\":",
    ",\"data_type\":",
    ",\"chunk_grid\":{\"name\":\"regular\",\"configuration\":{\"chunk_shape\":",
    "}},\"chunk_key_encoding\":\"default\",\"fill_value\":",
    ",\"codecs\":",
];

// The same of `! boundaries`, of an array whose grid is one of boundaries.
const BEFORE_BOUNDARIES: [&str; 5] = [
    "{\"zarr_format\":3,\"node_type\":\"array\",\"shape\":",
    ",\"data_type\":",
    ",\"chunk_grid\":{\"name\":\"zarr_basics.boundaries\",\"configuration\":{\"lengths\":",
    "}},\"chunk_key_encoding\":\"default\",\"fill_value\":",
    ",\"codecs\":",
];

const AFTER: &str = "}\n";

// What a row tries.
#[derive(Clone, Copy)]
enum Kind {
    // One run of the program.
    Run,
    // A run for each line after the document.
    Lines,
    // A run for each of so many calls of the store, which fails.
    Calls(u64),
    // Texts, read and written.
    Texts(TextKind),
}

/// A row of the tables.
#[derive(Drop)]
pub struct Row {
    name: String,
    kind: Kind,
    run: Run,
}

impl Row {
    /// A run without words, failing calls and input. The first, which no line names, is not run.
    pub fn new(alloc: Global, name: &str) -> Result<Row, AllocError> {
        Ok(Row {
            name: String::from_str(alloc, name)?,
            kind: Kind::Run,
            run: Run::new(alloc),
        })
    }

    // Appends the line of an array's document, of which these are the values, with spaces between.
    fn add_array(&mut self, before: &[&str], values: &str) -> Result<(), AllocError> {
        for (before, value) in before.iter().zip(values.split(' ')) {
            self.run.input.extend_from_slice(before.as_bytes())?;
            self.run.input.extend_from_slice(value.as_bytes())?;
        }
        self.run.input.extend_from_slice(AFTER.as_bytes())
    }

    fn set(&mut self, setting: &str) -> Result<(), AllocError> {
        if let Some(values) = setting.strip_prefix("array ") {
            self.add_array(&BEFORE, values)?;
        } else if let Some(values) = setting.strip_prefix("boundaries ") {
            self.add_array(&BEFORE_BOUNDARIES, values)?;
        } else if let Some(call) = setting.strip_prefix("read ") {
            self.run.failing_reads.push(call.parse().unwrap_or(0))?;
        } else if let Some(call) = setting.strip_prefix("write ") {
            self.run.failing_writes.push(call.parse().unwrap_or(0))?;
        } else if let Some(call) = setting.strip_prefix("store ") {
            self.run.failing_calls.push(call.parse().unwrap_or(0))?;
        } else if let Some(calls) = setting.strip_prefix("calls ") {
            self.kind = Kind::Calls(calls.parse().unwrap_or(0));
        } else if let Some(line) = setting.strip_prefix("then ") {
            self.run.then.extend_from_slice(line.as_bytes())?;
            self.run.then.push(b'\n')?;
        } else if let Some(name) = setting.strip_prefix("program ") {
            self.run.program = Program::named(name);
        } else if setting == "lines" {
            self.kind = Kind::Lines;
        } else if let Some(kind) = TextKind::of_word(setting) {
            self.kind = Kind::Texts(kind);
        }
        Ok(())
    }

    fn add_word(&mut self, alloc: Global, word: &str) -> Result<(), AllocError> {
        let word = String::from_str(alloc, word)?;
        self.run.words.push(word)?;
        Ok(())
    }

    fn add_bytes(&mut self, alloc: Global, digits: &str) -> Result<(), AllocError> {
        if let Ok(bytes) = decode(alloc, digits) {
            self.run.input.extend_from_slice(&bytes)?;
        }
        Ok(())
    }

    fn add_text(&mut self, line: &str) -> Result<(), AllocError> {
        match line.strip_suffix('\\') {
            Some(front) => self.run.input.extend_from_slice(front.as_bytes()),
            None => {
                self.run.input.extend_from_slice(line.as_bytes())?;
                self.run.input.push(b'\n')?;
                Ok(())
            }
        }
    }

    fn add(&mut self, alloc: Global, line: &str) -> Result<(), AllocError> {
        if let Some(word) = line.strip_prefix("$ ") {
            self.add_word(alloc, word)
        } else if let Some(setting) = line.strip_prefix("! ") {
            self.set(setting)
        } else if let Some(digits) = line.strip_prefix('\\') {
            self.add_bytes(alloc, digits)
        } else {
            self.add_text(line)
        }
    }

    /// The row with one more line of it.
    pub fn with_line(mut self, alloc: Global, line: &str) -> Result<Row, AllocError> {
        self.add(alloc, line)?;
        Ok(self)
    }

    /// Appends the row's name and what comes of it.
    pub fn run(self, alloc: Global, out: &mut Vec<u8>) -> Result<(), AllocError> {
        if self.name.is_empty() {
            return Ok(());
        }
        push_name(alloc, self.name.as_str(), out)?;
        match self.kind {
            Kind::Run => self.run.run(alloc, out),
            Kind::Lines => run_each_line(alloc, self.run.program, self.run.text(), out),
            Kind::Calls(calls) => self.run.run_each_call(alloc, calls, out),
            Kind::Texts(kind) => kind.try_text(alloc, self.run.text(), out),
        }
    }
}

fn push_name(alloc: Global, name: &str, out: &mut Vec<u8>) -> Result<(), AllocError> {
    let line = format!(in alloc; "# {name}\n")?;
    out.extend_from_slice(line.as_bytes())
}
