//! Writing the output.

ghost use Rattle.std.specs.Prelude.{◌≡◌, IfOk, IfSome, OnOk, OnErr, MatchResult, string_bytes};
ghost use Rattle.zarr_model.specs.Prelude.{Rose};
ghost use Rattle.zarr_cli_runs.specs.Ending.{IsGiven, IsGivenFront, ending_line};
ghost use Rattle.zarr_cli_runs.specs.Status.{ending_of};
ghost use Rattle.zarr_cli.specs.Written.{WritesText, EndsWith};

use std::alloc::{AllocError, Global};
use zarr_cli_runs::{OpenError, Status};
use zarrs_storage::{IoFailed, Sink};

// Writes bytes piece by piece.
fn write_bytes<W: Sink>(text: &[u8], sink: &mut W) -> Result<(), IoFailed>
    ensures whole { OnOk result (IsGiven text.now (W.shown sink.old).bytes
        (W.shown sink.new).bytes) }
    ensures front { OnErr result (Rose (W.shown sink.old).faults (W.shown sink.new).faults
        × IsGivenFront text.now (W.shown sink.old).bytes (W.shown sink.new).bytes) }
{
    let mut done = 0;
    'pieces: while done < text.len() {
        done += sink.write(&text[done..])?;
    }
    Ok(())
}

/// Writes a text piece by piece.
///
/// # Errors
/// [`IoFailed`] where the sink failed, which then has a front of the text.
pub fn write_text<W: Sink>(text: &str, sink: &mut W) -> Result<(), IoFailed>
    ensures whole { OnOk result (IsGiven text.now (W.shown sink.old).bytes
        (W.shown sink.new).bytes) }
    ensures front { OnErr result (Rose (W.shown sink.old).faults (W.shown sink.new).faults
        × IsGivenFront text.now (W.shown sink.old).bytes (W.shown sink.new).bytes) }
{
    write_bytes(text.as_bytes(), sink)
}

/// The line of a status, which stands in place of the replies. Where memory was wanting or replies are written there is
/// none.
///
/// # Errors
/// Want of memory alone.
pub fn status_line(alloc: Global, status: &Status) -> Result<String, AllocError>
    ensures { IfOk result (λ line. IfSome (ending_line (ending_of status.now))
        (λ text. string_bytes line ≡ text)) }
{
    match status {
        Status::Done | Status::Write | Status::OutOfMemory => Ok(String::new(alloc)),
        Status::Document(OpenError::OutOfMemory) => Ok(String::new(alloc)),
        Status::BadWords => String::from_str(alloc, "words\n"),
        Status::BadInput { line } => format!(in alloc; "input {line}\n"),
        Status::Document(error) => format!(in alloc; "document {}\n", error.name()),
        Status::Chunk { key } => format!(in alloc; "chunk {}\n", key.as_str()),
        Status::Store => String::from_str(alloc, "store\n"),
        Status::Read => String::from_str(alloc, "read\n"),
        Status::TooLong => String::from_str(alloc, "too long\n"),
    }
}

/// Writes the line of a status in place of replies, and answers the status, or want of memory where the line found
/// none.
pub fn end_with<W: Sink>(alloc: Global, status: Status, sink: &mut W) -> Status
    ensures { EndsWith status (W.shown sink.old) (W.shown sink.new) result }
{
    // What a fault of the store leaves is told by its own status, so this line takes no memory.
    if let Status::Store = status {
        let _ = write_text("store\n", sink);
        return Status::Store;
    }
    let Ok(line) = status_line(alloc, &status) else {
        return Status::OutOfMemory;
    };
    // Whether the sink takes all of it or not.
    let _ = write_text(line.as_str(), sink);
    status
}

/// Writes the text of a run, or the line of the status that ended it, and answers the status.
pub fn write_output<W: Sink>(alloc: Global, output: Result<Vec<u8>, Status>, sink: &mut W) -> Status
    ensures { MatchResult output
        (λ text. WritesText text.items (W.shown sink.old) (W.shown sink.new) result)
        (λ status. EndsWith status (W.shown sink.old) (W.shown sink.new) result) }
{
    match output {
        Ok(text) => match write_bytes(&text, sink) {
            Ok(()) => Status::Done,
            Err(IoFailed) => Status::Write,
        },
        Err(status) => end_with(alloc, status, sink),
    }
}
