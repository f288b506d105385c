//! The lines of an input.

ghost use Rattle.std.specs.Prelude.{◌≡◌, ◌≤◌, ℕ, List, [], length, drop, map, string_bytes, Some, IsUtf8, IfOk, IfErr, OnOk};
ghost use Rattle.zarr_cli_runs.specs.lines.Text.{input_lines};
ghost use Rattle.zarr_cli.specs.Input.{input_limit, IsInputFault};
ghost use Rattle.zarr_cli.specs.Lines.{first_line};
ghost use Rattle.zarr_cli.specs.Status.{fault_status};

use crate::read::read_input;
use std::alloc::{AllocError, AllocFailed, Global};
use thiserror::Error;
use zarr_cli_runs::Status;
use zarrs_storage::Source;

/// Why lines were not read.
#[derive(Clone, Copy, Debug, PartialEq, Eq, Error)]
pub enum InputFault {
    /// The source failed.
    #[error("the source failed")]
    Read,
    /// The source had more bytes than an input may have.
    #[error("the input is too long")]
    TooLong,
    /// The bytes are no UTF-8.
    #[error("line {line} is not UTF-8")]
    NotUtf8 {
        /// The line of the first byte that is none, from 1.
        line: u64,
    },
    /// Memory ran out.
    #[error("out of memory")]
    OutOfMemory,
}

impl From<AllocError> for InputFault {
    ghost use Rattle.zarr_cli.specs.declared.lines.InputFault.TheVariants.{OutOfMemory};

    ghost from_gives = { λ _ fault. fault ≡ OutOfMemory };

    fn from(_error: AllocError) -> InputFault {
        InputFault::OutOfMemory
    }
}

impl<T: Drop> From<AllocFailed<T>> for InputFault {
    ghost use Rattle.zarr_cli.specs.declared.lines.InputFault.TheVariants.{OutOfMemory};

    ghost from_gives = { λ _ fault. fault ≡ OutOfMemory };

    fn from(_error: AllocFailed<T>) -> InputFault {
        InputFault::OutOfMemory
    }
}

/// The lines of all bytes of a source, of which none is left. Each line ends with a newline, which the last one may
/// lack; no bytes are one empty line. Of the input one copy is kept at a time, and no byte is taken past the first that
/// makes it too long.
///
/// # Errors
/// [`InputFault::Read`] where the source failed, [`InputFault::TooLong`] where it had more than 67,108,864 bytes left,
/// [`InputFault::NotUtf8`] where these are no UTF-8, and `OutOfMemory`: the first of them that applies.
pub fn read_lines<R: Source>(alloc: Global, source: &mut R) -> Result<Vec<String>, InputFault>
    ensures text { (left : List ℕ) → (R.shown source.old).left ≡ Some left →
        IfOk result (λ lines. (length left ≤ input_limit) × IsUtf8 left
        × (map string_bytes lines.items ≡ input_lines left)) }
    ensures whole { (left : List ℕ) → (R.shown source.old).left ≡ Some left →
        OnOk result ((R.shown source.new).left ≡ Some []) }
    ensures fault { IfErr result (λ fault.
        IsInputFault (R.shown source.old) (R.shown source.new) fault) }
{
    read_input(alloc, source)?.into_lines()
}

/// The status of an input whose lines were not read.
pub fn fault_status(fault: InputFault) -> Status
    ensures { result ≡ fault_status fault }
{
    match fault {
        InputFault::Read => Status::Read,
        InputFault::TooLong => Status::TooLong,
        InputFault::NotUtf8 { line } => Status::BadInput { line },
        InputFault::OutOfMemory => Status::OutOfMemory,
    }
}

/// The first of some lines, or an empty one.
pub fn first_line(lines: &[String]) -> &str
    ensures { result.now ≡ first_line (map string_bytes lines.now) }
{
    match lines {
        [] => "",
        [line, ..] => line.as_str(),
    }
}

/// The lines behind the first one.
pub fn behind_first(lines: &[String]) -> &[String]
    ensures { result.now ≡ drop 1 lines.now }
{
    match lines {
        [] => &[],
        [_, others @ ..] => others,
    }
}
