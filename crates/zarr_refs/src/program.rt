//! The program over references: words, a document, key lines, references and reads in, the replies of the array out.

ghost use Rattle.std.specs.Prelude.{◌≡◌, List, ℕ, map, string_bytes, Some, None, Err, IfErr, option_map};
ghost use Rattle.zarrs_codec_traits.specs.Prelude.{options_of, Rose};
ghost use Rattle.zarr_array.specs.OpenArray.{described_array};
ghost use Rattle.zarr_cli.specs.Status.{words_of};
ghost use Rattle.zarr_cli.specs.Seen.{seen};
ghost use Rattle.zarr_refs.specs.Input.{word_options, ref_lines_say, all_lines_say, input_says_refs, verdict};
ghost use Rattle.zarr_refs.specs.Said.{RanBy, RanInput, IsNamed, IsPlainRef, outcome};
ghost use Rattle.zarr_refs.specs.Ending.{ref_ending_of};
ghost use Rattle.zarr_refs.specs.declared.status.RefStatus.TheVariants.{Cli};
ghost use Rattle.zarr_cli_runs.specs.declared.status.Status.TheVariants.{BadWords};
ghost use Rattle.zarr_refs.specs.Answers.{AnswersRefs, EndsRefs};

use crate::lines::{RefLineError, parse_ref_lines};
use crate::run::run_ref_lines;
use crate::status::{RefStatus, write_refs};
use std::alloc::Global;
use zarr_array::{CodecOptions, OpenArray, Store};
use zarr_cli::lines::{behind_first, fault_status, first_line};
use zarr_cli::{Status, read_lines};
use zarr_cli_runs::opening::open_line;
use zarrs_storage::{Sink, Source};

// The options of the words, if each of them is known.
fn word_options(words: &[String]) -> Option<CodecOptions>
    ensures { option_map options_of result ≡ word_options (words_of words.now) }
{
    for word in words {
        if word.as_str() != "--no-checksums" {
            return None;
        }
    }
    Some(CodecOptions::default().with_validate_checksums(words.is_empty()))
}

// Runs the lines behind a document.
fn text_of_lines<S: Store>(
    alloc: Global,
    array: &OpenArray,
    lines: &[String],
    options: &CodecOptions,
    store: &mut S,
) -> Result<Vec<u8>, RefStatus>
    ensures ran { RanBy (ref_lines_say (described_array array.now) (options_of options.now)
        (map string_bytes lines.now)) (S.shown store.old) (S.shown store.new) result }
    ensures plain { IfErr result (IsPlainRef (outcome ⊥ ⊥ (S.shown store.old)
        (S.shown store.new))) }
{
    match parse_ref_lines(alloc, lines, array.data_type()) {
        Ok(parsed) => run_ref_lines(alloc, array, &parsed, store, options),
        Err(RefLineError::OutOfForm { good_lines }) => Err(RefStatus::Cli(Status::BadInput {
            line: good_lines as u64 + 2,
        })),
        Err(RefLineError::ReadOnly { good_lines }) => Err(RefStatus::ReadOnly {
            line: good_lines as u64 + 2,
        }),
        Err(RefLineError::OutOfMemory) => Err(RefStatus::Cli(Status::OutOfMemory)),
    }
}

// Opens the first line and runs the others.
fn text_of_document<S: Store>(
    alloc: Global,
    lines: &[String],
    options: &CodecOptions,
    store: &mut S,
) -> Result<Vec<u8>, RefStatus>
    ensures ran { RanBy (all_lines_say (options_of options.now) (map string_bytes lines.now))
        (S.shown store.old) (S.shown store.new) result }
    ensures plain { IfErr result (IsPlainRef (outcome ⊥ ⊥ (S.shown store.old)
        (S.shown store.new))) }
{
    match open_line(alloc, first_line(lines)) {
        Ok(array) => text_of_lines(alloc, &array, behind_first(lines), options, store),
        Err(status) => Err(RefStatus::Cli(status)),
    }
}

// Reads an input and runs it.
fn text_of_input<R: Source, S: Store>(
    alloc: Global,
    options: &CodecOptions,
    source: &mut R,
    store: &mut S,
) -> Result<Vec<u8>, RefStatus>
    ensures ran { RanInput (input_says_refs (options_of options.now)) (R.shown source.old)
        (R.shown source.new) (S.shown store.old) (S.shown store.new) result }
    ensures plain { IfErr result (IsPlainRef (outcome ⊥
        (Rose (R.shown source.old).faults (R.shown source.new).faults)
        (S.shown store.old) (S.shown store.new))) }
{
    match read_lines(alloc, source) {
        Ok(lines) => text_of_document(alloc, &lines, options, store),
        Err(fault) => Err(RefStatus::Cli(fault_status(fault))),
    }
}

// Runs what words and an input say.
fn text_of_words<R: Source, S: Store>(
    alloc: Global,
    words: &[String],
    source: &mut R,
    store: &mut S,
) -> Result<Vec<u8>, RefStatus>
    ensures ran { RanInput (verdict (words_of words.now)) (R.shown source.old)
        (R.shown source.new) (S.shown store.old) (S.shown store.new) result }
    ensures plain { IfErr result (IsPlainRef (outcome (word_options (words_of words.now) ≡ None)
        (Rose (R.shown source.old).faults (R.shown source.new).faults)
        (S.shown store.old) (S.shown store.new))) }
    ensures unread { word_options (words_of words.now) ≡ None →
        (R.shown source.new ≡ R.shown source.old) × (result ≡ Err (Cli BadWords)) }
{
    match word_options(words) {
        Some(options) => text_of_input(alloc, &options, source, store),
        None => Err(RefStatus::Cli(Status::BadWords)),
    }
}

/// Reads a document, key lines, references and reads from `source`, sets the key lines in `store`, runs the reads over
/// the slices that the references are to, and writes their replies to `sink`. The only word is `--no-checksums`.
///
/// In order: the words, reading, UTF-8, the first line as a document, all other lines, setting the key lines, the
/// references, the reads, writing. The first that fails decides the status. But for its key lines the store is never
/// changed.
pub fn run_refs<R: Source, W: Sink, S: Store>(
    alloc: Global,
    words: &[String],
    source: &mut R,
    sink: &mut W,
    store: &mut S,
) -> RefStatus
    // Over a source that tells its bytes: each answer with its cause, and what it leaves.
    ensures told { (input : List ℕ) → (R.shown source.old).left ≡ Some input →
        AnswersRefs (verdict (words_of words.now) input)
        (seen (R.shown source.old) (W.shown sink.old) (S.shown store.old))
        (seen (R.shown source.new) (W.shown sink.new) (S.shown store.new))
        (ref_ending_of result) }
    // Over any source: the words, the faults, the line on an early end, and what is left then.
    ensures ends { EndsRefs (words_of words.now)
        (seen (R.shown source.old) (W.shown sink.old) (S.shown store.old))
        (seen (R.shown source.new) (W.shown sink.new) (S.shown store.new))
        (ref_ending_of result) }
    // A fault of the store and want of memory are told as such.
    ensures named { IsNamed result }
{
    let output = text_of_words(alloc, words, source, store);
    write_refs(alloc, output, sink)
}
