//! Lines: what a key line and a command line say, and the line of a reply.

ghost use Rattle.std.specs.Prelude.{◌≡◌, ◌<◌, ℕ, string_bytes, IfOk, option_map};
ghost use Rattle.zarrs_codec_traits.specs.Prelude.{fixed, Matches, kind_seen};
ghost use Rattle.zarr_model.specs.Command as Model;
ghost use Rattle.zarr_cli_runs.specs.array.boxes.Command.{command_of, answer_of};
ghost use Rattle.zarr_cli_runs.specs.lines.Text.{entry_of_line, line_command, reply_text};

use std::alloc::{AllocError, Global};
use zarr_cli_runs::{Command, Entry, Reply, parse_command_line, parse_key_line, push_reply};
use zarrs_data_type::DataType;
use zarrs_storage::StoreKey;

/// The key of a key line and its value, or None where the line is no key line.
///
/// # Errors
/// Want of memory alone.
pub fn key_line(alloc: Global, line: &str) -> Result<Option<(StoreKey, Vec<u8>)>, AllocError>
    ensures { IfOk result (λ entry. option_map (λ pair. (pair.0, pair.1.items)) entry
        ≡ entry_of_line line.now) }
{
    match parse_key_line(alloc, line)? {
        Some(Entry { key, value }) => Ok(Some((key, value))),
        None => Ok(None),
    }
}

/// The command of a line, or None where the line is no command; elements are of a data type.
///
/// # Errors
/// Want of memory alone.
pub fn command_line(
    alloc: Global,
    line: &str,
    data_type: &DataType,
) -> Result<Option<Command>, AllocError>
    ensures { IfOk result (λ command.
        option_map command_of command ≡ line_command (kind_seen data_type.now) line.now) }
{
    parse_command_line(alloc, line, data_type)
}

/// The line of a reply, without a newline: `ok` and the elements as text, `done`, or `refused` and the refusal's name.
/// Elements are valid for the data type, and those of one size have a byte or more.
///
/// # Errors
/// Want of memory alone.
pub fn reply_line(alloc: Global, reply: &Reply, data_type: &DataType) -> Result<String, AllocError>
    requires sizes { (n : ℕ) → kind_seen data_type.now ≡ fixed n → 0 < n }
    requires valid { (answer : Model.Reply)
        × Matches (kind_seen data_type.now) (answer_of reply.now) answer }
    ensures { IfOk result (λ line. (answer : Model.Reply) →
        Matches (kind_seen data_type.now) (answer_of reply.now) answer →
        string_bytes line ≡ reply_text answer) }
{
    let mut text = Vec::new(alloc);
    push_reply(&mut text, reply, data_type)?;
    text.pop();
    match String::from_utf8(text) {
        Ok(line) => Ok(line),
        Err(_) => unreachable!(),
    }
}
