//! A run over any source, sink and store.

ghost use Rattle.std.specs.Prelude.{◌≡◌};
ghost use Rattle.zarr_model.specs.Prelude.{Rose};
ghost use Rattle.zarr_cli.specs.Words.{HasBadWords};
ghost use Rattle.zarr_cli_runs.specs.Ending.{bad_words, store_fault, read_fault, write_fault};
ghost use Rattle.zarr_cli.specs.Status.{words_of};
ghost use Rattle.zarr_cli_runs.specs.Status.{ending_of};

use std::alloc::Global;
use zarr_cli::{Status, run_program};
use zarrs_storage::{Sink, Source, Store};

/// A run, as `run_program`: some of its endings with their causes.
pub fn run<R: Source, W: Sink, S: Store>(
    alloc: Global,
    words: &[String],
    source: &mut R,
    sink: &mut W,
    store: &mut S,
) -> Status
    ensures bad_words { ending_of result ≡ bad_words →
        HasBadWords (words_of words.now) }
    ensures store { ending_of result ≡ store_fault →
        Rose (S.shown store.old).faults (S.shown store.new).faults }
    ensures read { ending_of result ≡ read_fault →
        Rose (R.shown source.old).faults (R.shown source.new).faults }
    ensures write { ending_of result ≡ write_fault →
        Rose (W.shown sink.old).faults (W.shown sink.new).faults }
{
    run_program(alloc, words, source, sink, store)
}
