//! How moving an array ends, and the line that is written then.

ghost use Rattle.std.specs.Prelude.{◌≡◌, IfOk, IfSome, MatchResult, string_bytes};
ghost use Rattle.zarr_rechunk.specs.Ending.{refusal_text, move_code, move_line, move_ending_of};
ghost use Rattle.zarr_rechunk.specs.Written.{WritesKeys, EndsMove};

use std::alloc::{AllocError, Global};
use zarr_cli::write::{end_with, write_output};
use zarr_cli::{Status, write_text};
use zarrs_storage::Sink;

/// Why an array may not be moved into another.
#[derive(Clone, Copy, Debug, PartialEq, Eq)]
pub enum RechunkRefusal {
    /// The shapes differ.
    ShapeMismatch,
    /// The shapes are the same, and the data types differ.
    DataTypeMismatch,
    /// The shapes and data types are the same, and a band is too large.
    BandTooLarge,
}

impl RechunkRefusal {
    /// Its name.
    pub fn name(self) -> &'static str
        ensures { result.now ≡ refusal_text self }
    {
        match self {
            RechunkRefusal::ShapeMismatch => "ShapeMismatch",
            RechunkRefusal::DataTypeMismatch => "DataTypeMismatch",
            RechunkRefusal::BandTooLarge => "BandTooLarge",
        }
    }
}

/// How moving an array ends.
#[derive(Debug, Drop)]
pub enum RechunkStatus {
    /// As every program ends.
    Cli(Status),
    /// The array may not be moved.
    Refused(RechunkRefusal),
}

impl RechunkStatus {
    /// The status code that the program ends with.
    pub fn code(&self) -> u8
        ensures { result ≡ move_code (move_ending_of self.now) }
    {
        match self {
            RechunkStatus::Cli(status) => status.code(),
            RechunkStatus::Refused(_) => 11,
        }
    }
}

// The line of a refusal.
fn refusal_line(alloc: Global, refusal: RechunkRefusal) -> Result<String, AllocError>
    ensures { IfOk result (λ line.
        IfSome (move_line (move_ending_of (RechunkStatus.Refused refusal)))
        (λ text. string_bytes line ≡ text)) }
{
    format!(in alloc; "refused {}\n", refusal.name())
}

// Writes the line of a refusal, and answers it, or want of memory where the line found none.
fn end_refused<W: Sink>(alloc: Global, refusal: RechunkRefusal, sink: &mut W) -> RechunkStatus
    ensures { EndsMove (RechunkStatus.Refused refusal)
        (W.shown sink.old) (W.shown sink.new) result }
{
    let Ok(line) = refusal_line(alloc, refusal) else {
        return RechunkStatus::Cli(Status::OutOfMemory);
    };
    // Whether the sink takes all of it or not.
    let _ = write_text(line.as_str(), sink);
    RechunkStatus::Refused(refusal)
}

/// Writes the text of a run, or the line of the status that ended it, and answers the status.
pub(crate) fn write_moved<W: Sink>(
    alloc: Global,
    output: Result<Vec<u8>, RechunkStatus>,
    sink: &mut W,
) -> RechunkStatus
    ensures { MatchResult output
        (λ text. WritesKeys text.items (W.shown sink.old) (W.shown sink.new) result)
        (λ status. EndsMove status (W.shown sink.old) (W.shown sink.new) result) }
{
    match output {
        Ok(text) => RechunkStatus::Cli(write_output(alloc, Ok(text), sink)),
        Err(RechunkStatus::Cli(status)) => RechunkStatus::Cli(end_with(alloc, status, sink)),
        Err(RechunkStatus::Refused(refusal)) => end_refused(alloc, refusal, sink),
    }
}
