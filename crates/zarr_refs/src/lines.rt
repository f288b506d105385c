//! The lines behind the document: key lines, then references, then reads.

ghost use Rattle.std.specs.Prelude.{◌≡◌, map, string_bytes, Some, IfOk, IfErr, option_map};
ghost use Rattle.zarrs_codec_array_bytes.specs.Steps.{kind_seen};
ghost use Rattle.zarr_cli_lines.specs.Text.{all_some, split_at};
ghost use Rattle.zarr_array.specs.boxes.Command.{command_of};
ghost use Rattle.zarr_refs.specs.Lines.{five_of, reference_of_line, first_references, that_reads, line_read};
ghost use Rattle.zarr_refs.specs.Steps.{SaysRefs, IsRefLineFault, IsReadFault, stop_after};

use crate::Reference;
use std::alloc::{AllocError, AllocFailed, Global};
use thiserror::Error;
use zarr_cli_lines::element_parts::cut;
use zarr_cli_lines::parse::first_entries;
use zarr_cli_runs::{Command, Entry, parse_command_line};
use zarrs_data_type::DataType;
use zarrs_plugin::parse_number;
use zarrs_storage::StoreKey;

/// The key lines, the references and the reads of an input.
#[derive(Drop)]
pub struct RefLines {
    /// The entries of the key lines.
    pub entries: Vec<Entry>,
    /// The references after them.
    pub references: Vec<Reference>,
    /// The reads after these.
    pub reads: Vec<Command>,
}

/// Why lines are not parsed.
#[derive(Clone, Copy, Debug, PartialEq, Eq, Error)]
pub enum RefLineError {
    /// The first line that does not have its form, of key lines, then references, then reads, is no command either.
    #[error("the line after {good_lines} good ones is out of form")]
    OutOfForm {
        /// How many lines come before it.
        good_lines: usize,
    },
    /// The first line that does not have its form is a command that writes or erases.
    #[error("the line after {good_lines} good ones does not read")]
    ReadOnly {
        /// How many lines come before it.
        good_lines: usize,
    },
    /// Memory ran out.
    #[error("out of memory")]
    OutOfMemory,
}

impl From<AllocError> for RefLineError {
    ghost use Rattle.zarr_refs.specs.declared.lines.RefLineError.TheVariants.{OutOfMemory};

    ghost from_gives = { λ _ e. e ≡ OutOfMemory };

    fn from(_error: AllocError) -> RefLineError {
        RefLineError::OutOfMemory
    }
}

impl<T: Drop> From<AllocFailed<T>> for RefLineError {
    ghost use Rattle.zarr_refs.specs.declared.lines.RefLineError.TheVariants.{OutOfMemory};

    ghost from_gives = { λ _ e. e ≡ OutOfMemory };

    fn from(_error: AllocFailed<T>) -> RefLineError {
        RefLineError::OutOfMemory
    }
}

// The five words of a line, if it has five.
#[tactic(auto, using(crate::proofs::LineLaws::more_than_five))]
fn five_words(line: &str) -> Option<(&str, &str, &str, &str, &str)>
    ensures { option_map (λ p. (p.0.now, p.1.now, p.2.now, p.3.now, p.4.now)) result
        ≡ five_of (split_at 32 line.now) }
{
    let (first, rest) = cut(line, ' ');
    let (second, rest) = cut(rest?, ' ');
    let (third, rest) = cut(rest?, ' ');
    let (fourth, rest) = cut(rest?, ' ');
    let (fifth, None) = cut(rest?, ' ') else {
        return None;
    };
    Some((first, second, third, fourth, fifth))
}

/// The reference of a ref line, if the line is one: `ref`, a key, the key of its base, an offset and a length.
///
/// # Errors
/// [`AllocError`] where memory runs out.
pub fn reference_line(alloc: Global, line: &str) -> Result<Option<Reference>, AllocError>
    ensures { IfOk result (λ reference. reference ≡ reference_of_line line.now) }
{
    let Some((word, key, base, offset, length)) = five_words(line) else {
        return Ok(None);
    };
    if word != "ref" {
        return Ok(None);
    }
    let (Some(offset), Some(length)) = (parse_number(offset), parse_number(length)) else {
        return Ok(None);
    };
    let Ok(key) = StoreKey::new(String::from_str(alloc, key)?) else {
        return Ok(None);
    };
    let Ok(base) = StoreKey::new(String::from_str(alloc, base)?) else {
        return Ok(None);
    };
    Ok(Some(Reference {
        key,
        base,
        offset,
        length,
    }))
}

// The references of the ref lines at the front.
fn first_references(alloc: Global, lines: &[String]) -> Result<Vec<Reference>, AllocError>
    ensures { IfOk result (λ references. references.items
        ≡ first_references (map string_bytes lines.now)) }
{
    let mut references = Vec::new(alloc);
    for line in lines {
        let Some(reference) = reference_line(alloc, line.as_str())? else {
            return Ok(references);
        };
        references.push(reference)?;
    }
    Ok(references)
}

// A command that reads.
fn only_read(command: Option<Command>) -> Option<Command>
    ensures { option_map command_of result ≡ that_reads (option_map command_of command) }
{
    match command {
        Some(Command::Read(region)) => Some(Command::Read(region)),
        _ => None,
    }
}

// Why lines are not parsed whose next one is no read, by whether it is a command.
fn stop_after(good_lines: usize, changes: bool) -> RefLineError
    ensures { result ≡ stop_after good_lines changes }
{
    if changes {
        RefLineError::ReadOnly { good_lines }
    } else {
        RefLineError::OutOfForm { good_lines }
    }
}

// The reads of lines, or how many come before the first that is none.
fn parse_reads(
    alloc: Global,
    lines: &[String],
    data_type: &DataType,
) -> Result<Vec<Command>, RefLineError>
    ensures ok { IfOk result (λ reads.
        all_some (map (line_read (kind_seen data_type.now)) (map string_bytes lines.now))
        ≡ Some (map command_of reads.items)) }
    ensures fault { IfErr result
        (IsReadFault (kind_seen data_type.now) (map string_bytes lines.now)) }
{
    let mut reads = Vec::new(alloc);
    for line in lines {
        let command = parse_command_line(alloc, line.as_str(), data_type)?;
        let changes = command.is_some();
        let Some(read) = only_read(command) else {
            return Err(stop_after(reads.len(), changes));
        };
        reads.push(read)?;
    }
    Ok(reads)
}

/// Parses the lines behind the document; the reads are of an array of this data type.
///
/// # Errors
/// [`RefLineError::ReadOnly`] or [`RefLineError::OutOfForm`] by the first line that is not of its form, with how many
/// come before it, or [`RefLineError::OutOfMemory`].
pub fn parse_ref_lines(
    alloc: Global,
    lines: &[String],
    data_type: &DataType,
) -> Result<RefLines, RefLineError>
    ensures says { IfOk result (SaysRefs (kind_seen data_type.now) (map string_bytes lines.now)) }
    ensures fault { IfErr result
        (IsRefLineFault (kind_seen data_type.now) (map string_bytes lines.now)) }
{
    let entries = first_entries(alloc, lines)?;
    let others = &lines[entries.len()..];
    let references = first_references(alloc, others)?;
    let before = entries.len() + references.len();
    match parse_reads(alloc, &others[references.len()..], data_type) {
        Ok(reads) => Ok(RefLines {
            entries,
            references,
            reads,
        }),
        Err(RefLineError::OutOfForm { good_lines }) => Err(RefLineError::OutOfForm {
            good_lines: before + good_lines,
        }),
        Err(RefLineError::ReadOnly { good_lines }) => Err(RefLineError::ReadOnly {
            good_lines: before + good_lines,
        }),
        Err(RefLineError::OutOfMemory) => Err(RefLineError::OutOfMemory),
    }
}
