//! The program that moves an array: two documents and key lines in, the keys of the array's new store out.

ghost use Rattle.std.specs.Prelude.{◌≡◌, true, List, ℕ, [], length, map, drop, string_bytes, Some, Err, IfOk, IfErr, OnOk};
ghost use Rattle.zarrs_codec_traits.specs.Prelude.{Rose, counted, SameContent};
ghost use Rattle.zarr_array.specs.OpenArray.{documented};
ghost use Rattle.zarr_cli_lines.specs.Text.{first_entries};
ghost use Rattle.zarr_cli_lines.specs.Parts.{entry_view};
ghost use Rattle.zarr_cli_runs.specs.Keys.{IsDump, IsDumpAsks, ReadsKeys};
ghost use Rattle.zarr_cli_runs.specs.declared.status.Status.TheVariants.{BadWords};
ghost use Rattle.zarr_cli.specs.Status.{words_of};
ghost use Rattle.zarr_rechunk.specs.declared.status.RechunkStatus.TheVariants.{Cli};
ghost use Rattle.zarr_rechunk.specs.Ending.{move_ending_of};
ghost use Rattle.zarr_rechunk.specs.Input.{stops, key_lines, keys_say, target_lines_say, move_lines_say, move_verdict};
ghost use Rattle.zarr_cli.specs.Input.{text_says};
ghost use Rattle.zarr_rechunk.specs.Program.{seen_both, AnswersMove, EndsMoved};
ghost use Rattle.zarr_rechunk.specs.Said.{both, move_of, RanMove, RanMoveBy, RanMoveInput, IsNamedMove, IsPlainMove, move_outcome, status_of, IsKeysFault};

use crate::error::RechunkErrorKind;
use crate::status::{RechunkRefusal, RechunkStatus, write_moved};
use crate::whole::rechunk;
use std::alloc::{AllocError, Global};
use zarr_array::{CodecOptions, OpenArray};
use zarr_cli::lines::{behind_first, fault_status, first_line};
use zarr_cli::run::set_entries;
use zarr_cli::{Status, read_lines};
use zarr_cli_lines::entry::parse_key_line;
use zarr_cli_runs::Entry;
use zarr_cli_runs::keys::push_dump;
use zarr_cli_runs::opening::open_line;
use zarrs_storage::{Sink, Source, StorageError, Store};

// The status of an array that was not moved.
fn status_of(kind: RechunkErrorKind) -> RechunkStatus
    ensures { result ≡ status_of kind }
{
    match kind {
        RechunkErrorKind::ShapeMismatch => RechunkStatus::Refused(RechunkRefusal::ShapeMismatch),
        RechunkErrorKind::DataTypeMismatch => {
            RechunkStatus::Refused(RechunkRefusal::DataTypeMismatch)
        }
        RechunkErrorKind::BandTooLarge => RechunkStatus::Refused(RechunkRefusal::BandTooLarge),
        RechunkErrorKind::SourceChunk { key, error: _ } => {
            RechunkStatus::Cli(Status::Chunk { key })
        }
        RechunkErrorKind::SourceStore => RechunkStatus::Cli(Status::Store),
        RechunkErrorKind::TargetChunk { key, error: _ } => {
            RechunkStatus::Cli(Status::Chunk { key })
        }
        RechunkErrorKind::TargetStore => RechunkStatus::Cli(Status::Store),
        RechunkErrorKind::OutOfMemory => RechunkStatus::Cli(Status::OutOfMemory),
    }
}

// The lines of the keys of a store.
fn text_of_keys<T: Store>(alloc: Global, store: &mut T) -> Result<Vec<u8>, Status>
    ensures keys { IfOk result (λ text. IsDump true (T.shown store.new).content text.items) }
    ensures asks { OnOk result ((more : ℕ) × IsDumpAsks true (T.shown store.new).content more
        × ((T.shown store.new).asks ≡ counted (T.shown store.old).asks more)) }
    ensures reads { ReadsKeys (T.shown store.old) (T.shown store.new) result }
{
    let mut text = Vec::new(alloc);
    match push_dump(alloc, true, &mut text, store) {
        Ok(()) => Ok(text),
        Err(status) => Err(status),
    }
}

// Moves an array, and gives the lines of the keys that the target's store then holds.
fn text_of_moved<S: Store, T: Store>(
    alloc: Global,
    source: &OpenArray,
    target: &OpenArray,
    from: &mut S,
    to: &mut T,
) -> Result<Vec<u8>, RechunkStatus>
    ensures ran { RanMove (move_of (documented source.now) (documented target.now) [])
        (both (S.shown from.old) (T.shown to.old)) (both (S.shown from.new) (T.shown to.new))
        result }
    ensures same { SameContent (S.shown from.old) (S.shown from.new) }
{
    match rechunk(alloc, source, target, from, to, &CodecOptions::default()) {
        Ok(()) => match text_of_keys(alloc, to) {
            Ok(text) => Ok(text),
            Err(status) => Err(RechunkStatus::Cli(status)),
        },
        Err(error) => Err(status_of(error.kind)),
    }
}

// Sets key lines in the source's store, lets them go, and moves the array.
fn text_of_entries<S: Store, T: Store>(
    alloc: Global,
    source: &OpenArray,
    target: &OpenArray,
    entries: Vec<Entry>,
    from: &mut S,
    to: &mut T,
) -> Result<Vec<u8>, RechunkStatus>
    ensures { RanMove (move_of (documented source.now) (documented target.now)
        (map entry_view entries.items))
        (both (S.shown from.old) (T.shown to.old)) (both (S.shown from.new) (T.shown to.new))
        result }
{
    match set_entries(alloc, &entries, from) {
        Ok(()) => {
            drop(entries);
            text_of_moved(alloc, source, target, from, to)
        }
        Err(StorageError::Failed) => Err(RechunkStatus::Cli(Status::Store)),
        Err(StorageError::InvalidByteRange(_)) => unreachable!(),
        Err(StorageError::OutOfMemory) => Err(RechunkStatus::Cli(Status::OutOfMemory)),
    }
}

// The entries of the lines behind two documents, each of which has to be a key line. Each line is let go once it is
// parsed, so the text and its entries are not in memory together.
fn parse_entries(alloc: Global, lines: Vec<String>) -> Result<Vec<Entry>, Status>
    ensures entries { IfOk result (λ entries. (map entry_view entries.items
        ≡ first_entries (key_lines lines.items))
        × (length (first_entries (key_lines lines.items)) ≡ length (key_lines lines.items))) }
    ensures fault { IfErr result (IsKeysFault (key_lines lines.items)) }
{
    let mut left = lines.into_iter();
    let (_source, _target) = (left.next(), left.next());
    let mut entries = Vec::new(alloc);
    'lines: while let Some(line) = left.next() {
        let Some(entry) = parse_key_line(alloc, line.as_str())? else {
            return Err(Status::BadInput {
                line: entries.len() as u64 + 3,
            });
        };
        let Ok(()) = entries.push(entry) else {
            return Err(Status::OutOfMemory);
        };
    }
    Ok(entries)
}

// Runs the lines behind two documents.
fn text_of_lines<S: Store, T: Store>(
    alloc: Global,
    source: &OpenArray,
    target: &OpenArray,
    lines: Vec<String>,
    from: &mut S,
    to: &mut T,
) -> Result<Vec<u8>, RechunkStatus>
    ensures ran { RanMoveBy (keys_say (documented source.now) (documented target.now)
        (key_lines lines.items)) (both (S.shown from.old) (T.shown to.old))
        (both (S.shown from.new) (T.shown to.new)) result }
    ensures plain { IfErr result (IsPlainMove (move_outcome ⊥ ⊥
        (both (S.shown from.old) (T.shown to.old)) (both (S.shown from.new) (T.shown to.new)))) }
{
    match parse_entries(alloc, lines) {
        Ok(entries) => text_of_entries(alloc, source, target, entries, from, to),
        Err(status) => Err(RechunkStatus::Cli(status)),
    }
}

// Opens the document of the target, and runs the lines behind it.
fn text_of_target<S: Store, T: Store>(
    alloc: Global,
    source: &OpenArray,
    lines: Vec<String>,
    from: &mut S,
    to: &mut T,
) -> Result<Vec<u8>, RechunkStatus>
    ensures ran { RanMoveBy (target_lines_say (documented source.now)
        (drop 1 (map string_bytes lines.items)))
        (both (S.shown from.old) (T.shown to.old))
        (both (S.shown from.new) (T.shown to.new)) result }
    ensures plain { IfErr result (IsPlainMove (move_outcome ⊥ ⊥
        (both (S.shown from.old) (T.shown to.old)) (both (S.shown from.new) (T.shown to.new)))) }
{
    match open_line(alloc, first_line(behind_first(&lines))) {
        Ok(target) => text_of_lines(alloc, source, &target, lines, from, to),
        Err(status) => Err(RechunkStatus::Cli(status)),
    }
}

// Opens the document of the source, and runs the lines behind it.
fn text_of_source<S: Store, T: Store>(
    alloc: Global,
    lines: Vec<String>,
    from: &mut S,
    to: &mut T,
) -> Result<Vec<u8>, RechunkStatus>
    ensures ran { RanMoveBy (move_lines_say (map string_bytes lines.items))
        (both (S.shown from.old) (T.shown to.old))
        (both (S.shown from.new) (T.shown to.new)) result }
    ensures plain { IfErr result (IsPlainMove (move_outcome ⊥ ⊥
        (both (S.shown from.old) (T.shown to.old)) (both (S.shown from.new) (T.shown to.new)))) }
{
    match open_line(alloc, first_line(&lines)) {
        Ok(source) => text_of_target(alloc, &source, lines, from, to),
        Err(status) => Err(RechunkStatus::Cli(status)),
    }
}

// Reads an input and runs it.
fn text_of_input<R: Source, S: Store, T: Store>(
    alloc: Global,
    source: &mut R,
    from: &mut S,
    to: &mut T,
) -> Result<Vec<u8>, RechunkStatus>
    ensures ran { RanMoveInput (text_says stops move_lines_say) (R.shown source.old)
        (R.shown source.new)
        (both (S.shown from.old) (T.shown to.old)) (both (S.shown from.new) (T.shown to.new))
        result }
    ensures plain { IfErr result (IsPlainMove (move_outcome (⊥)
        (Rose (R.shown source.old).faults (R.shown source.new).faults)
        (both (S.shown from.old) (T.shown to.old)) (both (S.shown from.new) (T.shown to.new)))) }
{
    match read_lines(alloc, source) {
        Ok(lines) => text_of_source(alloc, lines, from, to),
        Err(fault) => Err(RechunkStatus::Cli(fault_status(fault))),
    }
}

// Runs what words and an input say: no word is known.
fn text_of_words<R: Source, S: Store, T: Store>(
    alloc: Global,
    words: &[String],
    source: &mut R,
    from: &mut S,
    to: &mut T,
) -> Result<Vec<u8>, RechunkStatus>
    ensures ran { RanMoveInput (move_verdict (words_of words.now)) (R.shown source.old)
        (R.shown source.new)
        (both (S.shown from.old) (T.shown to.old)) (both (S.shown from.new) (T.shown to.new))
        result }
    ensures plain { IfErr result (IsPlainMove (move_outcome (¬ (words_of words.now ≡ []))
        (Rose (R.shown source.old).faults (R.shown source.new).faults)
        (both (S.shown from.old) (T.shown to.old)) (both (S.shown from.new) (T.shown to.new)))) }
    ensures unread { ¬ (words_of words.now ≡ []) →
        (R.shown source.new ≡ R.shown source.old) × (result ≡ Err (Cli BadWords)) }
{
    if words.is_empty() {
        text_of_input(alloc, source, from, to)
    } else {
        Err(RechunkStatus::Cli(Status::BadWords))
    }
}

/// Reads the documents of a source and of a target and key lines from `source`, sets the key lines in `from`, moves the
/// array into `to`, and writes the lines of the keys that `to` then holds to `sink`. No word is known.
///
/// In order: the words, reading, UTF-8, the first line as the document of the source, the second one as that of the
/// target, all other lines, setting the key lines, moving, listing the keys, writing. The first that fails decides the
/// status.
pub fn run_rechunk<R: Source, W: Sink, S: Store, T: Store>(
    alloc: Global,
    words: &[String],
    source: &mut R,
    sink: &mut W,
    from: &mut S,
    to: &mut T,
) -> RechunkStatus
    // Over a source that tells its bytes: each answer with its cause, and what it leaves.
    ensures told { (input : List ℕ) → (R.shown source.old).left ≡ Some input →
        AnswersMove (move_verdict (words_of words.now) input)
        (seen_both (R.shown source.old) (W.shown sink.old) (S.shown from.old) (T.shown to.old))
        (seen_both (R.shown source.new) (W.shown sink.new) (S.shown from.new) (T.shown to.new))
        (move_ending_of result) }
    // Over any source: the words, the faults, the line on an early end, and what is left then.
    ensures ends { EndsMoved (words_of words.now)
        (seen_both (R.shown source.old) (W.shown sink.old) (S.shown from.old) (T.shown to.old))
        (seen_both (R.shown source.new) (W.shown sink.new) (S.shown from.new) (T.shown to.new))
        (move_ending_of result) }
    // Want of memory is told as such.
    ensures named { IsNamedMove result }
{
    let output = text_of_words(alloc, words, source, from, to);
    write_moved(alloc, output, sink)
}
