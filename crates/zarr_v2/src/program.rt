//! The program over a version 2 document: words, the document, key lines and commands in, the replies of one array and
//! its final keys out.

ghost use Rattle.std.specs.Prelude.{◌≡◌, ◌≤◌, List, ℕ, [], length, map, string_bytes, IsUtf8, Some};
ghost use Rattle.zarr_model.specs.Prelude.{Told};
ghost use Rattle.zarr_cli_runs.specs.lines.Text.{input_lines};
ghost use Rattle.zarr_cli.specs.Words.{Settings, ReadsBy};
ghost use Rattle.zarr_cli.specs.Status.{words_of, settings_view};
ghost use Rattle.zarr_cli.specs.Input.{input_limit};
ghost use Rattle.zarr_cli.specs.Seen.{seen};
ghost use Rattle.zarr_v2.specs.Ending.{ending_v2};
ghost use Rattle.zarr_v2.specs.Opening.{open_builtin_v2};
ghost use Rattle.zarr_v2.specs.Steps.{OpensLineV2};
ghost use Rattle.zarr_v2.specs.Answers.{AnswersV2, EndsV2};

use crate::V2Error;
use crate::error::V2OpenError;
use crate::opening::open_v2;
use crate::status::{V2Status, end_with_v2};
use std::alloc::Global;
use zarr_array::{OpenArray, OpenError, builtin_registries};
use zarr_cli::lines::{fault_status, first_line};
use zarr_cli::write::end_with;
use zarr_cli::{Status, Words, read_input_words, read_lines, run_lines};
use zarrs_storage::{Sink, Source, Store};

// The array of a first line, by the built-in names.
fn open_line(alloc: Global, line: &str) -> Result<OpenArray, V2Status>
    ensures { OpensLineV2 result (open_builtin_v2 line.now) }
{
    let Ok(registries) = builtin_registries(alloc) else {
        return Err(V2Status::Cli(Status::OutOfMemory));
    };
    match open_v2(alloc, line, &registries) {
        Ok(array) => Ok(array),
        Err(V2OpenError::Refused(why)) => Err(V2Status::Refused(why)),
        Err(V2OpenError::Open(error)) => Err(V2Status::Cli(Status::Document(error))),
        Err(V2OpenError::OutOfMemory) => Err(V2Status::Cli(Status::OutOfMemory)),
    }
}

// Opens the first line and runs the others.
fn run_document<W: Sink, S: Store>(
    alloc: Global,
    words: &Words,
    lines: &[String],
    sink: &mut W,
    store: &mut S,
) -> V2Status
    ensures told { (input : List ℕ) → length input ≤ input_limit → IsUtf8 input →
        map string_bytes lines.now ≡ input_lines input →
        (before now : Told) → now.left ≡ Some [] → AnswersV2 (settings_view words.now) input
        (seen before (W.shown sink.old) (S.shown store.old))
        (seen now (W.shown sink.new) (S.shown store.new)) (ending_v2 result) }
    ensures ends { (known : List (List ℕ)) → ReadsBy known (settings_view words.now) →
        (before now : Told) → EndsV2 known (seen before (W.shown sink.old) (S.shown store.old))
        (seen now (W.shown sink.new) (S.shown store.new)) (ending_v2 result) }
    ensures named { ¬ (result ≡ V2Status.Cli (Status.Document OpenError.OutOfMemory)) }
    ensures named_v2 { ¬ (result ≡ V2Status.Refused V2Error.OutOfMemory) }
{
    match open_line(alloc, first_line(lines)) {
        Ok(array) => V2Status::Cli(run_lines(alloc, &array, lines, words, sink, store)),
        Err(status) => end_with_v2(alloc, status, sink),
    }
}

// Reads an input and runs it.
fn run_input<R: Source, W: Sink, S: Store>(
    alloc: Global,
    words: &Words,
    source: &mut R,
    sink: &mut W,
    store: &mut S,
) -> V2Status
    ensures told { (input : List ℕ) → (R.shown source.old).left ≡ Some input →
        AnswersV2 (settings_view words.now) input
        (seen (R.shown source.old) (W.shown sink.old) (S.shown store.old))
        (seen (R.shown source.new) (W.shown sink.new) (S.shown store.new)) (ending_v2 result) }
    ensures ends { (known : List (List ℕ)) → ReadsBy known (settings_view words.now) → EndsV2 known
        (seen (R.shown source.old) (W.shown sink.old) (S.shown store.old))
        (seen (R.shown source.new) (W.shown sink.new) (S.shown store.new)) (ending_v2 result) }
    ensures named { ¬ (result ≡ V2Status.Cli (Status.Document OpenError.OutOfMemory)) }
    ensures named_v2 { ¬ (result ≡ V2Status.Refused V2Error.OutOfMemory) }
{
    match read_lines(alloc, source) {
        Ok(lines) => run_document(alloc, words, &lines, sink, store),
        Err(fault) => V2Status::Cli(end_with(alloc, fault_status(fault), sink)),
    }
}

/// Reads a version 2 array document, key lines and commands from `source`, runs the commands over `store`, and writes
/// their replies to `sink`, with `--dump` also the lines of the final keys. The store means what it means by that
/// document alone. The words are those of `run_program` but for `--make`, which is none here.
///
/// In order: the words, reading, UTF-8, the first line as a version 2 document, its translation as one of version 3,
/// all other lines, setting the key lines, the commands, listing the keys, writing. The first that fails decides the
/// status.
pub fn run_v2_program<R: Source, W: Sink, S: Store>(
    alloc: Global,
    words: &[String],
    source: &mut R,
    sink: &mut W,
    store: &mut S,
) -> V2Status
    // Over a source that tells its bytes, where the words are known: each answer with its cause, and what it leaves.
    ensures told { (settings : Settings) → ReadsBy (words_of words.now) settings →
        (input : List ℕ) → (R.shown source.old).left ≡ Some input → AnswersV2 settings input
        (seen (R.shown source.old) (W.shown sink.old) (S.shown store.old))
        (seen (R.shown source.new) (W.shown sink.new) (S.shown store.new)) (ending_v2 result) }
    // Over any source: the words, the faults, the line on an early end, and what is left then.
    ensures ends { EndsV2 (words_of words.now)
        (seen (R.shown source.old) (W.shown sink.old) (S.shown store.old))
        (seen (R.shown source.new) (W.shown sink.new) (S.shown store.new)) (ending_v2 result) }
    // Want of memory is told as such.
    ensures named { ¬ (result ≡ V2Status.Cli (Status.Document OpenError.OutOfMemory)) }
    ensures named_v2 { ¬ (result ≡ V2Status.Refused V2Error.OutOfMemory) }
{
    match read_input_words(words) {
        Some(settings) => run_input(alloc, &settings, source, sink, store),
        None => V2Status::Cli(end_with(alloc, Status::BadWords, sink)),
    }
}
