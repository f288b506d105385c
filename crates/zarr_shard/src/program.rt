//! The program over the document of a sharded array: words, the document, key lines and commands in, the replies of one
//! array and its final keys out.

ghost use Rattle.std.specs.Prelude.{◌≡◌, ◌≤◌, List, ℕ, [], length, map, string_bytes, IsUtf8, Some};
ghost use Rattle.zarr_model.specs.Prelude.{Told};
ghost use Rattle.zarr_cli_runs.specs.Status.{ending_of};
ghost use Rattle.zarr_cli_runs.specs.lines.Text.{input_lines};
ghost use Rattle.zarr_cli.specs.Ends.{EndsBy};
ghost use Rattle.zarr_cli.specs.Input.{input_limit};
ghost use Rattle.zarr_cli.specs.Seen.{seen};
ghost use Rattle.zarr_cli.specs.Status.{words_of, settings_view};
ghost use Rattle.zarr_cli.specs.Words.{Settings, ReadsBy, HasNoReading};
ghost use Rattle.zarr_array_open.specs.ShardOpening.{open_builtin_sharded};
ghost use Rattle.zarr_shard.specs.Answers.{AnswersShard};
ghost use Rattle.zarr_shard.specs.Steps.{OpensShardLine};

use crate::array::ShardArray;
use std::alloc::Global;
use zarr_array::{OpenError, builtin_registries};
use zarr_cli::lines::{fault_status, first_line};
use zarr_cli::write::end_with;
use zarr_cli::{Status, Words, read_input_words, read_lines, run_lines};
use zarrs_storage::{Sink, Source, Store};

// The array of a first line, by the built-in names.
fn open_line(alloc: Global, line: &str) -> Result<ShardArray, Status>
    ensures { OpensShardLine result (open_builtin_sharded line.now) }
{
    let Ok(registries) = builtin_registries(alloc) else {
        return Err(Status::OutOfMemory);
    };
    match ShardArray::open(alloc, line, &registries) {
        Ok(array) => Ok(array),
        Err(OpenError::OutOfMemory) => Err(Status::OutOfMemory),
        Err(error) => Err(Status::Document(error)),
    }
}

// Opens the first line and runs the others.
fn run_document<W: Sink, S: Store>(
    alloc: Global,
    words: &Words,
    lines: &[String],
    sink: &mut W,
    store: &mut S,
) -> Status
    ensures told { (input : List ℕ) → length input ≤ input_limit → IsUtf8 input →
        map string_bytes lines.now ≡ input_lines input →
        (before now : Told) → now.left ≡ Some [] → AnswersShard (settings_view words.now) input
        (seen before (W.shown sink.old) (S.shown store.old))
        (seen now (W.shown sink.new) (S.shown store.new)) (ending_of result) }
    ensures ends { (known : List (List ℕ)) → ReadsBy known (settings_view words.now) →
        (before now : Told) → EndsBy (HasNoReading known)
        (seen before (W.shown sink.old) (S.shown store.old))
        (seen now (W.shown sink.new) (S.shown store.new)) (ending_of result) }
    ensures named { ¬ (result ≡ Status.Document OpenError.OutOfMemory) }
{
    match open_line(alloc, first_line(lines)) {
        Ok(array) => run_lines(alloc, &array, lines, words, sink, store),
        Err(status) => end_with(alloc, status, sink),
    }
}

// Reads an input and runs it.
fn run_input<R: Source, W: Sink, S: Store>(
    alloc: Global,
    words: &Words,
    source: &mut R,
    sink: &mut W,
    store: &mut S,
) -> Status
    ensures told { (input : List ℕ) → (R.shown source.old).left ≡ Some input →
        AnswersShard (settings_view words.now) input
        (seen (R.shown source.old) (W.shown sink.old) (S.shown store.old))
        (seen (R.shown source.new) (W.shown sink.new) (S.shown store.new)) (ending_of result) }
    ensures ends { (known : List (List ℕ)) → ReadsBy known (settings_view words.now) →
        EndsBy (HasNoReading known)
        (seen (R.shown source.old) (W.shown sink.old) (S.shown store.old))
        (seen (R.shown source.new) (W.shown sink.new) (S.shown store.new)) (ending_of result) }
    ensures named { ¬ (result ≡ Status.Document OpenError.OutOfMemory) }
{
    match read_lines(alloc, source) {
        Ok(lines) => run_document(alloc, words, &lines, sink, store),
        Err(fault) => end_with(alloc, fault_status(fault), sink),
    }
}

/// Reads the document of a sharded array, key lines and commands from `source`, runs the commands over `store`, and
/// writes their replies to `sink`, with `--dump` also the lines of the final keys. The words are those of `run_program`
/// but for `--make`, which is none here.
///
/// In order: the words, reading, UTF-8, the first line as a document, all other lines, setting the key lines, the
/// commands, listing the keys, writing. The first that fails decides the status.
pub fn run_shard_program<R: Source, W: Sink, S: Store>(
    alloc: Global,
    words: &[String],
    source: &mut R,
    sink: &mut W,
    store: &mut S,
) -> Status
    // Over a source that tells its bytes, where the words are known: each answer with its cause, and what it leaves.
    ensures told { (settings : Settings) → ReadsBy (words_of words.now) settings →
        (input : List ℕ) → (R.shown source.old).left ≡ Some input → AnswersShard settings input
        (seen (R.shown source.old) (W.shown sink.old) (S.shown store.old))
        (seen (R.shown source.new) (W.shown sink.new) (S.shown store.new)) (ending_of result) }
    // Over any source: the words, the faults, the line on an early end, and what is left then.
    ensures ends { EndsBy (HasNoReading (words_of words.now))
        (seen (R.shown source.old) (W.shown sink.old) (S.shown store.old))
        (seen (R.shown source.new) (W.shown sink.new) (S.shown store.new)) (ending_of result) }
    // Want of memory is told as such.
    ensures named { ¬ (result ≡ Status.Document OpenError.OutOfMemory) }
{
    match read_input_words(words) {
        Some(settings) => run_input(alloc, &settings, source, sink, store),
        None => end_with(alloc, Status::BadWords, sink),
    }
}
