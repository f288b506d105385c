//! Sessions of commands that read, over a store of slices.

ghost use Rattle.std.specs.Prelude.{◌≡◌, map, ℕ, Some, None, Err};
ghost use Rattle.zarr_array.specs.boxes.Command.{command_of};
ghost use Rattle.zarr_array.specs.Ended.{ended};
ghost use Rattle.zarr_array.specs.Runs.{Runs};
ghost use Rattle.zarr_array.specs.Session.{EndsUnopened};
ghost use Rattle.zarr_array.specs.Taken.{TakesAlone};
ghost use Rattle.zarr_array.specs.parts.Document.{ArrayDocument, describe};
ghost use Rattle.zarr_array.specs.parts.Opening.{OpenRefusal, opened, not_opened, open_document};
ghost use Rattle.zarr_array.specs.parts.basics.Registries.{names_of};
ghost use Rattle.zarrs_codec_traits.specs.Prelude.{options_of, SameContent};
ghost use Rattle.zarr_refs.specs.Over.{over_shown};
ghost use Rattle.zarr_refs.specs.Lent.{over_of};
ghost use Rattle.zarr_refs.specs.Kept.{KeepsOver};
ghost use Rattle.zarr_refs.specs.Session.{first_change, session_ended, IsSession, TellsError};
ghost use Rattle.zarr_refs.specs.declared.error.RefSessionError.TheVariants.{ReadOnly};

use crate::RefStore;
use crate::error::RefSessionError;
use std::alloc::Global;
use zarr_array::{CodecOptions, Command, Registries, Reply, SessionError, Store, run_session};

// The number of the first command that writes or erases.
#[tactic(auto, using(crate::proofs::ChangeLaws::none_before, crate::proofs::ChangeLaws::one_more, crate::proofs::ChangeLaws::is_first, crate::proofs::ChangeLaws::none_at_all))]
fn first_change(commands: &[Command]) -> Option<usize>
    ensures { result ≡ first_change (map command_of commands.now) }
{
    for (number, command) in commands.iter().enumerate() {
        match command {
            Command::Read(_) => {}
            _ => return Some(number),
        }
    }
    None
}

/// Opens a document by the names of some registries, and runs commands over slices of the values of a store.
///
/// # Errors
/// [`RefSessionError::ReadOnly`] exactly where a command writes or erases, before the document is opened: then nothing
/// is touched. Else those of [`run_session`].
#[tactic(auto, using(crate::proofs::ChangeLaws::all_read, crate::proofs::SessionLaws::is_session, crate::proofs::SessionLaws::same_slices))]
pub fn run_ref_session<S: Store>(
    alloc: Global,
    metadata: &str,
    registries: &Registries,
    commands: &[Command],
    store: &mut RefStore<'_, S>,
    options: &CodecOptions,
) -> Result<Vec<Reply>, RefSessionError>
    // A write or an erase, the first one, before the document is opened; and nothing is touched.
    ensures read_only { (n : ℕ) → first_change (map command_of commands.now) ≡ Some n →
        (result ≡ Err (ReadOnly n)) × (store.new ≡ store.old) }

    // Else it is a session: of a text that is not opened, or of the array that its document describes.
    ensures not_opened { first_change (map command_of commands.now) ≡ None → (why : OpenRefusal) →
        open_document (names_of registries.now) metadata.now ≡ not_opened why →
        IsSession result (EndsUnopened why (over_shown (over_of S.Store store.old))
        (over_shown (over_of S.Store store.new))) }
    ensures runs { first_change (map command_of commands.now) ≡ None → (document : ArrayDocument) →
        open_document (names_of registries.now) metadata.now ≡ opened document →
        IsSession result (Runs (describe document) (options_of options.now)
        (map command_of commands.now) (over_shown (over_of S.Store store.old))
        (over_shown (over_of S.Store store.new))) }
    ensures taken { first_change (map command_of commands.now) ≡ None → (document : ArrayDocument) →
        open_document (names_of registries.now) metadata.now ≡ opened document →
        IsSession result (TakesAlone document (options_of options.now)
        (map command_of commands.now) (over_shown (over_of S.Store store.old))
        (over_shown (over_of S.Store store.new))) }
    ensures told { first_change (map command_of commands.now) ≡ None → (document : ArrayDocument) →
        open_document (names_of registries.now) metadata.now ≡ opened document →
        IsSession result (TellsError document (options_of options.now)
        (map command_of commands.now) (over_shown (over_of S.Store store.new))) }

    // However it ends, the slices are the same, and their base holds what it held.
    ensures kept { KeepsOver (over_of S.Store store.old) (over_of S.Store store.new) }
    ensures same { SameContent (over_shown (over_of S.Store store.old))
        (over_shown (over_of S.Store store.new)) }
{
    match first_change(commands) {
        Some(command) => Err(RefSessionError::ReadOnly { command }),
        None => of_session(run_session(alloc, metadata, registries, commands, store, options)),
    }
}

// What a session of reads answers where it is run.
fn of_session(session: Result<Vec<Reply>, SessionError>) -> Result<Vec<Reply>, RefSessionError>
    ensures { session_ended result ≡ Some (ended session) }
{
    match session {
        Ok(replies) => Ok(replies),
        Err(error) => Err(RefSessionError::Session(error)),
    }
}
