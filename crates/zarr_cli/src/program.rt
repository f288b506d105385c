//! The program: words, a document, key lines and commands in, the replies of one array and its final keys out.

ghost use Rattle.std.specs.Prelude.{◌≡◌, ◌≤◌, List, ℕ, [], length, map, string_bytes, IsUtf8, Some};
ghost use Rattle.zarrs_codec_traits.specs.Prelude.{Options, Told, options_of};
ghost use Rattle.zarr_cli_runs.specs.Status.{ending_of};
ghost use Rattle.zarr_cli.specs.Words.{ReadsBy, MakesFrom, MakesNothing, settings_of};
ghost use Rattle.zarr_cli.specs.Status.{words_of, settings_view};
ghost use Rattle.zarr_cli.specs.ProgramInput.{input_limit};
ghost use Rattle.zarr_cli_runs.specs.lines.Text.{input_lines};
ghost use Rattle.zarr_cli.specs.Seen.{seen};
ghost use Rattle.zarr_cli.specs.ProgramAnswers.{AnswersWords, Ends};
ghost use Rattle.zarr_cli.specs.Made.{AnswersMade};

use crate::lines::{fault_status, first_line};
use crate::write::{end_with, write_output};
use crate::{Status, Words, read_lines, read_words, run_lines};
use std::alloc::Global;
use zarr_cli_runs::OpenError;
use zarr_cli_runs::made::run_made;
use zarr_cli_runs::opening::open_line;
use zarrs_storage::{Sink, Source, Store};

// Opens the first line and runs the others.
fn run_document<W: Sink, S: Store>(
    alloc: Global,
    words: &Words,
    lines: &[String],
    sink: &mut W,
    store: &mut S,
) -> Status
    ensures told { (known : List (List ℕ)) → ReadsBy known (settings_view words.now) →
        (input : List ℕ) → length input ≤ input_limit → IsUtf8 input →
        map string_bytes lines.now ≡ input_lines input →
        (before now : Told) → now.left ≡ Some [] → AnswersWords known input
        (seen before (W.shown sink.old) (S.shown store.old))
        (seen now (W.shown sink.new) (S.shown store.new)) (ending_of result) }
    ensures ends { (known : List (List ℕ)) → ReadsBy known (settings_view words.now) →
        (before now : Told) → Ends known (seen before (W.shown sink.old) (S.shown store.old))
        (seen now (W.shown sink.new) (S.shown store.new)) (ending_of result) }
    ensures named { ¬ (result ≡ Status.Document OpenError.OutOfMemory) }
{
    match open_line(alloc, first_line(lines)) {
        Ok(array) => run_lines(alloc, &array, lines, words, sink, store),
        Err(status) => end_with(alloc, status, sink),
    }
}

// Reads an input and runs it.
fn run_input<R: Source, W: Sink, S: Store>(
    alloc: Global,
    words: &Words,
    source: &mut R,
    sink: &mut W,
    store: &mut S,
) -> Status
    ensures told { (known : List (List ℕ)) → ReadsBy known (settings_view words.now) →
        (input : List ℕ) → (R.shown source.old).left ≡ Some input → AnswersWords known input
        (seen (R.shown source.old) (W.shown sink.old) (S.shown store.old))
        (seen (R.shown source.new) (W.shown sink.new) (S.shown store.new)) (ending_of result) }
    ensures ends { (known : List (List ℕ)) → ReadsBy known (settings_view words.now) → Ends known
        (seen (R.shown source.old) (W.shown sink.old) (S.shown store.old))
        (seen (R.shown source.new) (W.shown sink.new) (S.shown store.new)) (ending_of result) }
    ensures named { ¬ (result ≡ Status.Document OpenError.OutOfMemory) }
{
    match read_lines(alloc, source) {
        Ok(lines) => run_document(alloc, words, &lines, sink, store),
        Err(fault) => end_with(alloc, fault_status(fault), sink),
    }
}

// Runs what is made from a number.
fn run_number<W: Sink, S: Store>(
    alloc: Global,
    words: &Words,
    number: u64,
    sink: &mut W,
    store: &mut S,
) -> Status
    ensures made { (source : Told) → AnswersMade number (options_of words.now.options)
        (seen source (W.shown sink.old) (S.shown store.old))
        (seen source (W.shown sink.new) (S.shown store.new)) (ending_of result) }
    ensures ends { (known : List (List ℕ)) → settings_of known ≡ Some (settings_view words.now) →
        (source : Told) → Ends known (seen source (W.shown sink.old) (S.shown store.old))
        (seen source (W.shown sink.new) (S.shown store.new)) (ending_of result) }
    ensures named { ¬ (result ≡ Status.Document OpenError.OutOfMemory) }
{
    let output = run_made(alloc, &words.options, number, store);
    write_output(alloc, output, sink)
}

/// Reads a document, key lines and commands from `source`, runs the commands over `store`, and writes their
/// replies to `sink`, with `--dump` also the lines of the final keys.
///
/// In order: the words, reading, UTF-8, the first line as a document, all other lines, setting the key lines, the
/// commands, listing the keys, writing. The first that fails decides the status.
///
/// With `--make` and a number nothing is read: the commands are made from the number, and the text is the summary of
/// their replies and of how many keys the store then holds. The last `--make` counts, and `--dump` has no effect beside
/// it.
pub fn run_program<R: Source, W: Sink, S: Store>(
    alloc: Global,
    words: &[String],
    source: &mut R,
    sink: &mut W,
    store: &mut S,
) -> Status
    // Over a source that tells its bytes: each answer with its cause, and what it leaves.
    ensures told { MakesNothing (words_of words.now) →
        (input : List ℕ) → (R.shown source.old).left ≡ Some input →
        AnswersWords (words_of words.now) input
        (seen (R.shown source.old) (W.shown sink.old) (S.shown store.old))
        (seen (R.shown source.new) (W.shown sink.new) (S.shown store.new)) (ending_of result) }
    // Over any source, where the run is made from a number: its summary, and each other answer with its cause.
    ensures made { (number : ℕ) (options : Options) →
        MakesFrom (words_of words.now) number options →
        AnswersMade number options
        (seen (R.shown source.old) (W.shown sink.old) (S.shown store.old))
        (seen (R.shown source.new) (W.shown sink.new) (S.shown store.new)) (ending_of result) }
    // Over any source: the words, the faults, the line on an early end, and what is left then.
    ensures ends { Ends (words_of words.now)
        (seen (R.shown source.old) (W.shown sink.old) (S.shown store.old))
        (seen (R.shown source.new) (W.shown sink.new) (S.shown store.new)) (ending_of result) }
    // Want of memory is told as such.
    ensures named { ¬ (result ≡ Status.Document OpenError.OutOfMemory) }
{
    let Some(words) = read_words(words) else {
        return end_with(alloc, Status::BadWords, sink);
    };
    match words.make {
        Some(number) => run_number(alloc, &words, number, sink, store),
        None => run_input(alloc, &words, source, sink, store),
    }
}
