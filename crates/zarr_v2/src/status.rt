//! How a run over a version 2 document ends.

ghost use Rattle.std.specs.Prelude.{◌≡◌};
ghost use Rattle.zarr_v2.specs.Ending.{code_v2, ending_v2, v2_error_name};
ghost use Rattle.zarr_v2.specs.Steps.{EndsWithV2};

use crate::V2Error;
use std::alloc::Global;
use zarr_cli::write::end_with;
use zarr_cli::{Status, write_text};
use zarrs_storage::Sink;

/// How the program over a version 2 document ends.
#[derive(Debug, Drop)]
pub enum V2Status {
    /// As the program over a document of version 3 does; a document that is not opened is the translated one.
    Cli(Status),
    /// The first line is no version 2 array document, or one that is not translated; never by want of memory.
    Refused(V2Error),
}

impl V2Status {
    /// The status code that the program ends with.
    pub fn code(&self) -> u8
        ensures { result ≡ code_v2 (ending_v2 self.now) }
    {
        match self {
            V2Status::Cli(status) => status.code(),
            V2Status::Refused(_) => 4,
        }
    }
}

// The name of a refusal.
fn refusal_name(why: V2Error) -> &'static str
    ensures { result.now ≡ v2_error_name why }
{
    match why {
        V2Error::InvalidJson => "InvalidJson",
        V2Error::FloatNumber => "FloatNumber",
        V2Error::InvalidMetadata => "InvalidMetadata",
        V2Error::RankMismatch => "RankMismatch",
        V2Error::UnsupportedDataType => "UnsupportedDataType",
        V2Error::UnsupportedFillValue => "UnsupportedFillValue",
        V2Error::UnsupportedCodec => "UnsupportedCodec",
        V2Error::OutOfMemory => "OutOfMemory",
    }
}

// Writes the line of a refused document.
fn end_refused<W: Sink>(alloc: Global, why: V2Error, sink: &mut W) -> V2Status
    ensures { EndsWithV2 (V2Status.Refused why) (W.shown sink.old) (W.shown sink.new) result }
{
    let Ok(line) = format!(in alloc; "document {}\n", refusal_name(why)) else {
        return V2Status::Cli(Status::OutOfMemory);
    };
    // Whether the sink takes all of it or not.
    let _ = write_text(line.as_str(), sink);
    V2Status::Refused(why)
}

// Writes the line of a status of the program's own.
fn end_cli<W: Sink>(alloc: Global, status: Status, sink: &mut W) -> V2Status
    ensures { EndsWithV2 (V2Status.Cli status) (W.shown sink.old) (W.shown sink.new) result }
{
    V2Status::Cli(end_with(alloc, status, sink))
}

/// Writes the line of a status in place of replies, and answers the status, or want of memory where the line found
/// none.
pub(crate) fn end_with_v2<W: Sink>(alloc: Global, status: V2Status, sink: &mut W) -> V2Status
    ensures { EndsWithV2 status (W.shown sink.old) (W.shown sink.new) result }
{
    match status {
        V2Status::Cli(status) => end_cli(alloc, status, sink),
        V2Status::Refused(why) => end_refused(alloc, why, sink),
    }
}
