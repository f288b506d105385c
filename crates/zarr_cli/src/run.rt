//! Running commands over a store: the key lines before them, the text of their replies, and the lines of the final
//! keys.

ghost use Rattle.std.specs.Prelude.{◌≡◌, false, map, length, List, [], ℕ, IfErr, OnOk, OnErr};
ghost use Rattle.zarrs_codec_traits.specs.Prelude.{HasCause, counted, with_keys};
ghost use Rattle.zarrs_codec_traits.specs.Prelude.{IsFault as IsStoreFault, IsPlain, options_of};
ghost use Rattle.zarr_cli_runs.specs.array.boxes.Command.{command_of, AreReads};
ghost use Rattle.zarr_cli_runs.specs.lines.Parts.{entry_view};
ghost use Rattle.zarr_cli.specs.Status.{settings_view};
ghost use Rattle.zarr_cli.specs.Lines.{with_entries, IsKeyOf};
ghost use Rattle.zarr_cli.specs.Run.{SetsPart};
ghost use Rattle.zarr_cli_runs.specs.Job.{job, Did};
ghost use Rattle.zarr_cli.specs.Steps.{RepliesTo, PrintsAll};

use crate::array::CommandArray;
use crate::words::Words;
use std::alloc::Global;
use zarr_cli_runs::commands::text_of_replies;
use zarr_cli_runs::keys::{push_dump, storage_status};
use zarr_cli_runs::{CodecOptions, Command, Entry, ParsedLines, Status};
use zarrs_storage::{StorageError, Store};

/// Sets the entries of key lines, the first one first, each by one writing call.
///
/// # Errors
/// `Failed` where the store failed, and `OutOfMemory`: some first entries are set then, and the next one perhaps.
pub fn set_entries<S: Store>(
    alloc: Global,
    entries: &[Entry],
    store: &mut S,
) -> Result<(), StorageError>
    ensures set { OnOk result ((S.shown store.new).content
        ≡ with_keys (map entry_view entries.now) (S.shown store.old).content) }
    ensures failed { OnErr result (SetsPart (map entry_view entries.now)
        (S.shown store.old).content (S.shown store.new).content) }
    ensures elsewhere { (key : List ℕ) → ¬ IsKeyOf (map entry_view entries.now) key →
        (S.shown store.new).content key ≡ (S.shown store.old).content key }
    ensures asks { (S.shown store.new).asks ≡ (S.shown store.old).asks }
    ensures taken { (S.shown store.new).taken ≡ (S.shown store.old).taken }
    ensures puts { OnOk result ((S.shown store.new).puts
        ≡ counted (S.shown store.old).puts (length (map entry_view entries.now))) }
    ensures plain { IfErr result IsPlain }
    ensures cause { HasCause IsStoreFault (S.shown store.old).faults (S.shown store.new).faults
        result }
{
    for entry in entries {
        store.set(alloc, &entry.key, &entry.value)?;
    }
    Ok(())
}

/// Runs commands over a store, and gives the text of their replies.
///
/// # Errors
/// Those of [`CommandArray::replies`].
pub fn text_of_commands<A: CommandArray, S: Store>(
    alloc: Global,
    array: &A,
    commands: &[Command],
    store: &mut S,
    options: &CodecOptions,
) -> Result<Vec<u8>, Status>
    ensures did { Did (job (A.costs array.now).once (A.described array.now)
        (options_of options.now) [] (map command_of commands.now)) (Unit {0})
        (S.shown store.old) (S.shown store.new) result
        (λ text. RepliesTo (A.costs array.now) (A.described array.now) (options_of options.now)
        (map command_of commands.now) (S.shown store.old) (S.shown store.new) text.items) }
    ensures kept { AreReads (map command_of commands.now) → S.kept store.old store.new }
{
    match array.replies(alloc, commands, store, options) {
        Ok(replies) => Ok(text_of_replies(alloc, &replies, array.data_type())?),
        Err(status) => Err(status),
    }
}

// Runs commands over a store, and gives the text of their replies and of the keys that are asked for.
fn text_of_all<A: CommandArray, S: Store>(
    alloc: Global,
    words: &Words,
    array: &A,
    commands: &[Command],
    store: &mut S,
) -> Result<Vec<u8>, Status>
    ensures { Did (job (A.costs array.now).once (A.described array.now)
        (options_of words.now.options) [] (map command_of commands.now)) (words.now.dump ≡ false)
        (S.shown store.old) (S.shown store.new) result
        (λ text. PrintsAll (A.costs array.now) (A.described array.now) (settings_view words.now)
        (map command_of commands.now) (S.shown store.old) (S.shown store.new) text.items) }
{
    match text_of_commands(alloc, array, commands, store, &words.options) {
        Ok(mut text) => match push_dump(alloc, words.dump, &mut text, store) {
            Ok(()) => Ok(text),
            Err(status) => Err(status),
        },
        Err(status) => Err(status),
    }
}

/// Sets the entries of lines and runs their commands, and gives the text of the replies and of the keys that are asked
/// for.
pub(crate) fn run_parsed<A: CommandArray, S: Store>(
    alloc: Global,
    words: &Words,
    array: &A,
    parsed: &ParsedLines,
    store: &mut S,
) -> Result<Vec<u8>, Status>
    ensures { Did (job (A.costs array.now).once (A.described array.now)
        (options_of words.now.options) (map entry_view parsed.now.entries.items)
        (map command_of parsed.now.commands.items))
        (words.now.dump ≡ false) (S.shown store.old) (S.shown store.new) result
        (λ text. PrintsAll (A.costs array.now) (A.described array.now) (settings_view words.now)
        (map command_of parsed.now.commands.items)
        (with_entries (map entry_view parsed.now.entries.items) (S.shown store.old))
        (S.shown store.new) text.items) }
{
    match set_entries(alloc, &parsed.entries, store) {
        Ok(()) => text_of_all(alloc, words, array, &parsed.commands, store),
        Err(error) => Err(storage_status(error)),
    }
}
