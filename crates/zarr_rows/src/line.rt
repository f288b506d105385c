//! Rows of single lines: what one says as a key line and as a command line.

use hex::encode;
use std::alloc::{AllocError, Global};
use zarr_array::Command;
use zarr_cli::{command_line, key_line};
use zarrs_data_type::DataType;

/// The key and the value that a key line says, or that a text is none.
pub fn entry_of(alloc: Global, line: &str) -> Result<String, AllocError> {
    match key_line(alloc, line)? {
        Some((key, value)) => {
            let digits = encode(alloc, &value)?;
            format!(in alloc; "{} h{}", key.as_str(), digits.as_str())
        }
        None => "no key line".to_string(alloc),
    }
}

/// The command that a line says to an array of numbers of one byte, or that a text is none.
pub fn command_of(alloc: Global, line: &str) -> Result<String, AllocError> {
    match command_line(alloc, line, &DataType::UInt8)? {
        Some(Command::Read(region)) => {
            format!(in alloc; "read {:?} {:?}", region.start(), region.shape())
        }
        Some(Command::Write(region, _)) => {
            format!(in alloc; "write {:?} {:?}", region.start(), region.shape())
        }
        Some(Command::Erase(chunk)) => format!(in alloc; "erase {chunk:?}"),
        None => "no command line".to_string(alloc),
    }
}
