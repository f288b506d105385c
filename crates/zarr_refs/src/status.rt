//! How a run over references ends, and the line that is written then.

ghost use Rattle.std.specs.Prelude.{◌≡◌, IfOk, IfSome, MatchResult, string_bytes};
ghost use Rattle.zarr_refs.specs.Ending.{ref_code, ref_line, ref_ending_of, by_reference};
ghost use Rattle.zarr_refs.specs.Written.{WritesRefs, EndsRef};

use crate::RefError;
use std::alloc::{AllocError, Global};
use zarr_cli::write::{end_with, write_output};
use zarr_cli::{Status, status_line, write_text};
use zarrs_storage::Sink;

/// How a run over references ends.
#[derive(Debug, Drop)]
pub enum RefStatus {
    /// As every program ends.
    Cli(Status),
    /// A reference is refused: its key, or the slice that it is to. A fault of the store and want of memory are told by
    /// `Cli`.
    Reference(RefError),
    /// A line is a command that writes or erases, the first line that is not of its form.
    ReadOnly {
        /// The number of the line, from 1.
        line: u64,
    },
}

impl RefStatus {
    /// The status code that the program ends with.
    pub fn code(&self) -> u8
        ensures { result ≡ ref_code (ref_ending_of self.now) }
    {
        match self {
            RefStatus::Cli(status) => status.code(),
            RefStatus::Reference(RefError::Store) => 6,
            RefStatus::Reference(RefError::OutOfMemory) => 10,
            RefStatus::Reference(_) => 11,
            RefStatus::ReadOnly { line: _ } => 11,
        }
    }
}

// The line of a refused reference.
fn refusal_line(alloc: Global, error: &RefError) -> Result<String, AllocError>
    ensures { IfOk result (λ line. IfSome (ref_line (by_reference error.now))
        (λ text. string_bytes line ≡ text)) }
{
    match error {
        RefError::RepeatedKey { key } => format!(in alloc;
            "refused RepeatedKey {}\n",
            key.as_str()
        ),
        RefError::MissingBase { key } => format!(in alloc;
            "refused MissingBase {}\n",
            key.as_str()
        ),
        RefError::SliceOutOfBounds { key } => {
            format!(in alloc; "refused SliceOutOfBounds {}\n", key.as_str())
        }
        RefError::Store => String::from_str(alloc, "store\n"),
        RefError::OutOfMemory => Ok(String::new(alloc)),
    }
}

// The line of a status, which stands in place of the replies.
fn ref_status_line(alloc: Global, status: &RefStatus) -> Result<String, AllocError>
    ensures { IfOk result (λ line. IfSome (ref_line (ref_ending_of status.now))
        (λ text. string_bytes line ≡ text)) }
{
    match status {
        RefStatus::Cli(status) => status_line(alloc, status),
        RefStatus::Reference(error) => refusal_line(alloc, error),
        RefStatus::ReadOnly { line } => format!(in alloc; "refused ReadOnly {line}\n"),
    }
}

// Writes the line of a status, and answers the status, or want of memory where the line found none.
fn end_refused<W: Sink>(alloc: Global, status: RefStatus, sink: &mut W) -> RefStatus
    ensures { EndsRef status (W.shown sink.old) (W.shown sink.new) result }
{
    let Ok(line) = ref_status_line(alloc, &status) else {
        return RefStatus::Cli(Status::OutOfMemory);
    };
    // Whether the sink takes all of it or not.
    let _ = write_text(line.as_str(), sink);
    status
}

/// Writes the text of a run, or the line of the status that ended it, and answers the status.
pub(crate) fn write_refs<W: Sink>(
    alloc: Global,
    output: Result<Vec<u8>, RefStatus>,
    sink: &mut W,
) -> RefStatus
    ensures { MatchResult output
        (λ text. WritesRefs text.items (W.shown sink.old) (W.shown sink.new) result)
        (λ status. EndsRef status (W.shown sink.old) (W.shown sink.new) result) }
{
    match output {
        Ok(text) => RefStatus::Cli(write_output(alloc, Ok(text), sink)),
        Err(RefStatus::Cli(status)) => RefStatus::Cli(end_with(alloc, status, sink)),
        Err(status) => end_refused(alloc, status, sink),
    }
}
