//! A run over a source that tells its bytes.

ghost use Rattle.std.specs.Prelude.{◌≡◌, ℕ, List, Some};
ghost use Rattle.zarr_array_open.specs.Opening.{OpenRefusal};
ghost use Rattle.zarr_cli.specs.ProgramInput.{HasBadLine, HasLongInput, HasRefusedDocument};
ghost use Rattle.zarr_cli_runs.specs.Ending.{bad_input, refused_document, too_long};
ghost use Rattle.zarr_cli.specs.Status.{words_of};
ghost use Rattle.zarr_cli_runs.specs.Status.{ending_of};

use std::alloc::Global;
use zarr_cli::{Status, run_program};
use zarrs_storage::{Sink, Source, Store};

/// A run, as `run_program`: some of its endings with their causes.
pub fn run<R: Source, W: Sink, S: Store>(
    alloc: Global,
    words: &[String],
    source: &mut R,
    sink: &mut W,
    store: &mut S,
) -> Status
    ensures bad_input { (input : List ℕ) → (R.shown source.old).left ≡ Some input →
        (line : ℕ) → ending_of result ≡ bad_input line →
        HasBadLine (words_of words.now) input line }
    ensures document { (input : List ℕ) → (R.shown source.old).left ≡ Some input →
        (why : OpenRefusal) → ending_of result ≡ refused_document why →
        HasRefusedDocument (words_of words.now) input why }
    ensures too_long { (input : List ℕ) → (R.shown source.old).left ≡ Some input →
        ending_of result ≡ too_long → HasLongInput (words_of words.now) input }
{
    run_program(alloc, words, source, sink, store)
}
