//! A run of the lines of a program, whose first one is the document of an array.

ghost use Rattle.std.specs.Prelude.{◌≡◌, map, string_bytes, IfOk, IfErr};
ghost use Rattle.zarrs_codec_traits.specs.Prelude.{Description, kind, kind_seen};
ghost use Rattle.zarr_cli_runs.specs.Status.{ending_of};
ghost use Rattle.zarr_cli.specs.Status.{settings_view};
ghost use Rattle.zarr_cli.specs.Answers.{AnswersLines, outside};
ghost use Rattle.zarr_cli.specs.Steps.{SaysLines, IsFormFault, RanLines};

use crate::array::CommandArray;
use crate::lines::behind_first;
use crate::run::run_parsed;
use crate::words::Words;
use crate::write::write_output;
use std::alloc::Global;
use zarr_cli_runs::{LineError, OpenError, ParsedLines, Status, parse_lines};
use zarrs_data_type::DataType;
use zarrs_storage::{Sink, Store};

// What the lines behind the document say; elements are of a data type.
fn parse_behind(
    alloc: Global,
    lines: &[String],
    data_type: &DataType,
) -> Result<ParsedLines, Status>
    ensures says { (description : Description) → kind_seen data_type.now ≡ kind description →
        IfOk result (SaysLines description (map string_bytes lines.now)) }
    ensures fault { (description : Description) → kind_seen data_type.now ≡ kind description →
        IfErr result (IsFormFault description (map string_bytes lines.now)) }
{
    match parse_lines(alloc, behind_first(lines), data_type) {
        Ok(parsed) => Ok(parsed),
        Err(LineError::OutOfForm { good_lines }) => Err(Status::BadInput {
            line: good_lines as u64 + 2,
        }),
        Err(LineError::OutOfMemory) => Err(Status::OutOfMemory),
    }
}

// Runs lines over a store, and gives the text of their replies and of the keys that are asked for.
fn text_of_lines<A: CommandArray, S: Store>(
    alloc: Global,
    array: &A,
    lines: &[String],
    words: &Words,
    store: &mut S,
) -> Result<Vec<u8>, Status>
    ensures { RanLines (A.costs array.now) (A.described array.now) (settings_view words.now)
        (map string_bytes lines.now) (S.shown store.old) (S.shown store.new) result }
{
    match parse_behind(alloc, lines, array.data_type()) {
        Ok(parsed) => run_parsed(alloc, words, array, &parsed, store),
        Err(status) => Err(status),
    }
}

/// Runs the lines of a program, whose first one is a document that was opened as an array: sets its key lines, runs its
/// commands over `store`, and writes their replies to `sink`, with `--dump` also the lines of the final keys. No lines
/// have none behind a document; a number that a run is to be made from has no effect.
///
/// In order: all lines, setting the key lines, the commands, listing the keys, writing. The first that fails decides
/// the status.
pub fn run_lines<A: CommandArray, W: Sink, S: Store>(
    alloc: Global,
    array: &A,
    lines: &[String],
    words: &Words,
    sink: &mut W,
    store: &mut S,
) -> Status
    ensures answers { AnswersLines (A.costs array.now) (A.described array.now)
        (settings_view words.now) (map string_bytes lines.now)
        (outside (W.shown sink.old) (S.shown store.old))
        (outside (W.shown sink.new) (S.shown store.new)) (ending_of result) }
    ensures named { ¬ (result ≡ Status.Document OpenError.OutOfMemory) }
{
    let output = text_of_lines(alloc, array, lines, words, store);
    write_output(alloc, output, sink)
}
