//! Sessions: a list of commands over a store.

ghost use Rattle.std.specs.Prelude.{IfErr, ◌≡◌, map};
ghost use Rattle.zarr_array_open.specs.Document.{ArrayDocument, describe};
ghost use Rattle.zarr_array_open.specs.Opening.{OpenRefusal, opened, not_opened, open_document};
ghost use Rattle.zarr_basics.specs.Registries.{names_of};
ghost use Rattle.zarr_array.specs.OpenError.{ended_by};
ghost use Rattle.zarr_array_boxes.specs.Command.{command_of, region_at, AreReads};
ghost use Rattle.zarrs_codec_traits.specs.Views.{options_of};
ghost use Rattle.zarr_array.specs.Session.{EndsUnopened};
ghost use Rattle.zarr_array.specs.Told.{TellsWhy};
ghost use Rattle.zarr_array.specs.Ended.{ended};
ghost use Rattle.zarr_array.specs.Runs.{Runs};
ghost use Rattle.zarr_array.specs.Taken.{TakesAlone};

use crate::commands::run_commands;
use crate::error::{SessionError, SessionErrorKind};
use crate::open::OpenArray;
use crate::{OpenError, Registries};
use std::alloc::Global;
use zarr_array_boxes::{Command, Reply};
use zarrs_codec_error::CodecOptions;
use zarrs_storage::Store;

impl OpenArray {
    ghost use Rattle.zarr_array.specs.OpenArray.{documented, described_array};

    /// Runs commands over a store. The replies are those of one plain array that the store means.
    ///
    /// The room for the replies is taken first. A refused command is answered, and the next ones run.
    ///
    /// # Errors
    /// An error says at which command, and after how many of its chunks. [`SessionErrorKind::ChunkDecode`] names a
    /// chunk that the command met and whose value does not decode, [`SessionErrorKind::Store`] comes where the store
    /// failed, and `OutOfMemory` for want of memory. What the commands before did stands, and so do these chunks; and a
    /// damaged value stands until its chunk is erased.
    #[tactic(auto, using(crate::proofs::ChunkCosts::by_chunks))]
    pub fn run_commands<S: Store>(
        &self,
        alloc: Global,
        commands: &[Command],
        store: &mut S,
        options: &CodecOptions,
    ) -> Result<Vec<Reply>, SessionError>
        ensures runs { Runs (described_array self.now) (options_of options.now)
            (map command_of commands.now) (S.shown store.old) (S.shown store.new) (ended result) }
        // Where the codec `bytes` stands alone and presence before each is known, exactly the bytes that are needed are
        // taken.
        ensures taken { TakesAlone (documented self.now) (options_of options.now)
            (map command_of commands.now) (S.shown store.old) (S.shown store.new) (ended result) }
        ensures told { IfErr result (λ error. TellsWhy
            (region_at (map command_of commands.now) error.at) (documented self.now)
            (options_of options.now) (S.shown store.new) error.kind) }
        // Reads keep what a store says that its reading calls keep.
        ensures kept { AreReads (map command_of commands.now) → S.kept store.old store.new }
    {
        run_commands(&self.parts, alloc, commands, store, options)
    }
}

/// Opens a document by the names of some registries, and runs commands over a store.
///
/// # Errors
/// A document that is refused is told as [`SessionErrorKind::NotOpened`], before any command; then the store is not
/// touched. Else those of [`OpenArray::run_commands`].
pub fn run_session<S: Store>(
    alloc: Global,
    metadata: &str,
    registries: &Registries,
    commands: &[Command],
    store: &mut S,
    options: &CodecOptions,
) -> Result<Vec<Reply>, SessionError>
    // A text that is not opened is told as such, and nothing is touched.
    ensures not_opened { (why : OpenRefusal) →
        open_document (names_of registries.now) metadata.now ≡ not_opened why →
        EndsUnopened why (S.shown store.old) (S.shown store.new) (ended result) }

    // For a text that is opened the commands run on the array that its document describes.
    ensures runs { (document : ArrayDocument) →
        open_document (names_of registries.now) metadata.now ≡ opened document →
        Runs (describe document) (options_of options.now) (map command_of commands.now)
        (S.shown store.old) (S.shown store.new) (ended result) }
    // Where the codec `bytes` stands alone and presence before each is known, exactly the bytes that are needed are
    // taken.
    ensures taken { (document : ArrayDocument) →
        open_document (names_of registries.now) metadata.now ≡ opened document →
        TakesAlone document (options_of options.now) (map command_of commands.now)
        (S.shown store.old) (S.shown store.new) (ended result) }
    // An error of a chunk tells why its value does not decode.
    ensures told { (document : ArrayDocument) →
        open_document (names_of registries.now) metadata.now ≡ opened document →
        IfErr result (λ error. TellsWhy (region_at (map command_of commands.now) error.at) document
        (options_of options.now) (S.shown store.new) error.kind) }
    // Reads keep what a store says that its reading calls keep.
    ensures kept { AreReads (map command_of commands.now) → S.kept store.old store.new }
{
    match OpenArray::open(alloc, metadata, registries) {
        Ok(array) => array.run_commands(alloc, commands, store, options),
        Err(error) => Err(SessionError::before_commands(ended_by(error))),
    }
}

// How a session ends whose document is not opened.
fn ended_by(error: OpenError) -> SessionErrorKind
    ensures { result ≡ ended_by error }
{
    match error {
        OpenError::OutOfMemory => SessionErrorKind::OutOfMemory,
        _ => SessionErrorKind::NotOpened(error),
    }
}
