//! Reads over slices of the values of a store: key lines, references, and then the reads.

ghost use Rattle.std.specs.Prelude.{◌≡◌, ◌≤◌, true, ℕ, List, [], map};
ghost use Rattle.zarrs_codec_traits.specs.Prelude.{Rose, SameContent, options_of};
ghost use Rattle.zarr_array.specs.OpenArray.{described_array};
ghost use Rattle.zarr_array.specs.boxes.Command.{command_of, AreReads};
ghost use Rattle.zarr_cli_lines.specs.Parts.{entry_view};
ghost use Rattle.zarr_refs.specs.Slices.{slice_at, slice_held, is_slice_within};
ghost use Rattle.zarr_refs.specs.Reads.{ReadsBack, RanRefs, run_of};

use crate::lines::RefLines;
use crate::status::RefStatus;
use crate::{RefError, RefStore, Slices, slices_in};
use std::alloc::Global;
use zarr_array::{CodecOptions, Command, OpenArray, Store};
use zarr_cli::Status;
use zarr_cli::run::{set_entries, text_of_commands};
use zarrs_storage::StorageError;

// Runs reads over slices of the values of a store, and gives the text of their replies.
fn text_of_reads<S: Store>(
    alloc: Global,
    array: &OpenArray,
    slices: Slices,
    reads: &[Command],
    store: &mut S,
    options: &CodecOptions,
) -> Result<Vec<u8>, Status>
    requires within { (key : List ℕ) →
        is_slice_within (S.shown store.old).content (slice_at slices key) ≡ true }
    requires reads { AreReads (map command_of reads.now) }
    ensures back { ReadsBack (described_array array.now) (options_of options.now)
        (map command_of reads.now)
        (λ key. slice_held (S.shown store.old).content (slice_at slices key))
        (Rose (S.shown store.old).faults (S.shown store.new).faults) result }
    ensures same { SameContent (S.shown store.old) (S.shown store.new) }
    ensures puts { (S.shown store.new).puts ≡ (S.shown store.old).puts }
    ensures later { (S.shown store.old).faults ≤ (S.shown store.new).faults }
{
    let mut sliced = RefStore::over(store, slices);
    let text = text_of_commands(alloc, array, reads, &mut sliced, options);
    let _ = sliced.into_base();
    text
}

// Runs reads over references into a store.
fn text_of_references<S: Store>(
    alloc: Global,
    array: &OpenArray,
    lines: &RefLines,
    store: &mut S,
    options: &CodecOptions,
) -> Result<Vec<u8>, RefStatus>
    requires reads { AreReads (map command_of lines.now.reads.items) }
    ensures { RanRefs (run_of (described_array array.now) (options_of options.now) [] lines.now)
        (S.shown store.old) (S.shown store.new) result }
{
    let slices = match slices_in(alloc, store, &lines.references) {
        Ok(slices) => slices,
        Err(RefError::Store) => return Err(RefStatus::Cli(Status::Store)),
        Err(RefError::OutOfMemory) => return Err(RefStatus::Cli(Status::OutOfMemory)),
        Err(error) => return Err(RefStatus::Reference(error)),
    };
    match text_of_reads(alloc, array, slices, &lines.reads, store, options) {
        Ok(text) => Ok(text),
        Err(status) => Err(RefStatus::Cli(status)),
    }
}

/// Sets the key lines, and runs the reads over the references into the store.
pub(crate) fn run_ref_lines<S: Store>(
    alloc: Global,
    array: &OpenArray,
    lines: &RefLines,
    store: &mut S,
    options: &CodecOptions,
) -> Result<Vec<u8>, RefStatus>
    requires reads { AreReads (map command_of lines.now.reads.items) }
    ensures { RanRefs (run_of (described_array array.now) (options_of options.now)
        (map entry_view lines.now.entries.items) lines.now)
        (S.shown store.old) (S.shown store.new) result }
{
    match set_entries(alloc, &lines.entries, store) {
        Ok(()) => text_of_references(alloc, array, lines, store, options),
        Err(StorageError::Failed) => Err(RefStatus::Cli(Status::Store)),
        Err(StorageError::InvalidByteRange(_)) => unreachable!(),
        Err(StorageError::OutOfMemory) => Err(RefStatus::Cli(Status::OutOfMemory)),
    }
}
