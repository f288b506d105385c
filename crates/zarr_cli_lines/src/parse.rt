//! The lines after the document: key lines, and then commands.

ghost use Rattle.std.specs.Prelude.{◌≡◌, ◌<◌, ℕ, map, length, string_bytes, Some, is_some, IfOk, IfErr, option_map};
ghost use Rattle.std.specs.List.{prefix_len};
ghost use Rattle.zarrs_codec_array_bytes.specs.Steps.{kind_seen};
ghost use Rattle.zarr_array_boxes.specs.Command.{command_of};
ghost use Rattle.zarr_cli_lines.specs.Text.{words_left, first_entries, line_command, commands_of, all_some, box_of, element_of, write_of};
ghost use Rattle.zarr_cli_lines.specs.Parts.{entry_view, IsLineFault};

use crate::boxes::parse_box;
use crate::element_parts::cut;
use crate::entry::{Entry, parse_key_line};
use crate::indices::parse_indices;
use crate::parse_elements;
use std::alloc::{AllocError, AllocFailed, Global};
use thiserror::Error;
use zarr_array_boxes::Command;
use zarrs_data_type::DataType;

/// The key lines and the commands of an input.
#[derive(Drop)]
pub struct ParsedLines {
    /// The entries of the key lines.
    pub entries: Vec<Entry>,
    /// The commands after them.
    pub commands: Vec<Command>,
}

/// Why lines are not parsed.
#[derive(Clone, Copy, Debug, PartialEq, Eq, Error)]
pub enum LineError {
    /// A line is neither a key line before all commands nor a command.
    #[error("the line after {good_lines} good ones is out of form")]
    OutOfForm {
        /// How many lines come before it.
        good_lines: usize,
    },
    /// Memory ran out.
    #[error("out of memory")]
    OutOfMemory,
}

impl From<AllocError> for LineError {
    ghost use Rattle.zarr_cli_lines.specs.declared.parse.LineError.TheVariants.{OutOfMemory};

    ghost from_gives = { λ _ e. e ≡ OutOfMemory };

    fn from(_error: AllocError) -> LineError {
        LineError::OutOfMemory
    }
}

impl<T: Drop> From<AllocFailed<T>> for LineError {
    ghost use Rattle.zarr_cli_lines.specs.declared.parse.LineError.TheVariants.{OutOfMemory};

    ghost from_gives = { λ _ e. e ≡ OutOfMemory };

    fn from(_error: AllocFailed<T>) -> LineError {
        LineError::OutOfMemory
    }
}

// The write of a box and of elements after it.
#[tactic(auto, using(crate::proofs::LineLemmas::of_writes))]
fn parse_write(
    alloc: Global,
    region: &str,
    elements: Option<&str>,
    data_type: &DataType,
) -> Result<Option<Command>, AllocError>
    ensures { IfOk result (λ command. option_map command_of command
        ≡ write_of (kind_seen data_type.now) (box_of region.now)
        (all_some (map (element_of (kind_seen data_type.now)) (words_left elements.entry)))) }
{
    let Some(region) = parse_box(alloc, region)? else {
        return Ok(None);
    };
    let Some(value) = parse_elements(alloc, elements, data_type)? else {
        return Ok(None);
    };
    Ok(Some(Command::Write(region, value)))
}

/// The command of a line, if the line is one; elements are of a data type.
///
/// # Errors
/// [`AllocError`] where memory runs out.
#[tactic(auto, using(crate::proofs::LineLemmas::no_longer_line))]
pub fn parse_command_line(
    alloc: Global,
    line: &str,
    data_type: &DataType,
) -> Result<Option<Command>, AllocError>
    ensures { IfOk result (λ command.
        option_map command_of command ≡ line_command (kind_seen data_type.now) line.now) }
{
    let (word, rest) = cut(line, ' ');
    let Some(rest) = rest else {
        return Ok(None);
    };
    let (first, more) = cut(rest, ' ');
    if word == "write" {
        return parse_write(alloc, first, more, data_type);
    }
    let None = more else {
        return Ok(None);
    };
    match word {
        "read" => Ok(parse_box(alloc, first)?.map(Command::Read)),
        "erase" => Ok(parse_indices(alloc, first)?.map(Command::Erase)),
        _ => Ok(None),
    }
}

/// The entries of the key lines at the front.
///
/// # Errors
/// [`AllocError`] where memory runs out.
pub fn first_entries(alloc: Global, lines: &[String]) -> Result<Vec<Entry>, AllocError>
    ensures { IfOk result (λ entries. map entry_view entries.items
        ≡ first_entries (map string_bytes lines.now)) }
{
    let mut entries = Vec::new(alloc);
    for line in lines {
        let Some(entry) = parse_key_line(alloc, line.as_str())? else {
            return Ok(entries);
        };
        entries.push(entry)?;
    }
    Ok(entries)
}

// The commands of lines, or how many come before the first that is none.
fn parse_commands(
    alloc: Global,
    lines: &[String],
    data_type: &DataType,
) -> Result<Vec<Command>, LineError>
    ensures ok { IfOk result (λ commands.
        all_some (map (line_command (kind_seen data_type.now)) (map string_bytes lines.now))
        ≡ Some (map command_of commands.items)) }
    ensures fault { IfErr result (λ error. (good : ℕ) → error ≡ LineError.OutOfForm good →
        (good ≡ prefix_len (λ line. is_some (line_command (kind_seen data_type.now) line))
        (map string_bytes lines.now))
        × (good < length lines.now)) }
{
    let mut commands = Vec::new(alloc);
    for line in lines {
        let Some(command) = parse_command_line(alloc, line.as_str(), data_type)? else {
            return Err(LineError::OutOfForm {
                good_lines: commands.len(),
            });
        };
        commands.push(command)?;
    }
    Ok(commands)
}

/// Parses the lines after the document, each once; elements are of a data type.
///
/// # Errors
///
/// [`LineError::OutOfForm`] where a line is out of form: how many come before the first such line.
/// [`LineError::OutOfMemory`] for want of memory.
pub fn parse_lines(
    alloc: Global,
    lines: &[String],
    data_type: &DataType,
) -> Result<ParsedLines, LineError>
    ensures entries { IfOk result (λ parsed. map entry_view parsed.entries.items
        ≡ first_entries (map string_bytes lines.now)) }
    ensures commands { IfOk result (λ parsed.
        commands_of (line_command (kind_seen data_type.now)) (map string_bytes lines.now)
        ≡ Some (map command_of parsed.commands.items)) }
    ensures fault { IfErr result (λ error. IsLineFault error
        (line_command (kind_seen data_type.now)) (map string_bytes lines.now)) }
{
    let entries = first_entries(alloc, lines)?;
    match parse_commands(alloc, &lines[entries.len()..], data_type) {
        Ok(commands) => Ok(ParsedLines { entries, commands }),
        Err(LineError::OutOfForm { good_lines }) => Err(LineError::OutOfForm {
            good_lines: entries.len() + good_lines,
        }),
        Err(LineError::OutOfMemory) => Err(LineError::OutOfMemory),
    }
}
