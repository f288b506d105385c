//! Commands run over a store, and the text of their replies.

ghost use Rattle.std.specs.Prelude.{◌≡◌, ◌<◌, map, [], ℕ, IfOk, OnOk};
ghost use Rattle.zarrs_codec_traits.specs.Prelude.{fixed, options_of, kind_seen};
ghost use Rattle.zarrs_codec_traits.specs.Prelude.{AreRefused, IsUntouched};
ghost use Rattle.zarr_array.specs.Access.{described, is_once};
ghost use Rattle.zarr_array.specs.boxes.Command.{command_of, AreReads};
ghost use Rattle.zarr_cli_lines.specs.Parts.{IsTextOfReplies};
ghost use Rattle.zarr_cli_runs.specs.Commands.{RepliedBy, CostsRun, session_status};
ghost use Rattle.zarr_cli_runs.specs.Job.{job, Did};

use crate::status::Status;
use crate::{CodecOptions, Command, Reply, SessionErrorKind, push_reply};
use std::alloc::{AllocError, Global};
use zarr_array::ChunkAccess;
use zarr_array::commands::run_commands;
use zarrs_data_type::DataType;
use zarrs_storage::Store;

/// The lines of replies, whose elements are of a data type.
///
/// # Errors
/// Want of memory alone.
pub fn text_of_replies(
    alloc: Global,
    replies: &[Reply],
    data_type: &DataType,
) -> Result<Vec<u8>, AllocError>
    requires { (n : ℕ) → kind_seen data_type.now ≡ fixed n → 0 < n }
    ensures { IfOk result (λ text. IsTextOfReplies (kind_seen data_type.now) replies.now text.items) }
{
    let mut text = Vec::new(alloc);
    for reply in replies {
        push_reply(&mut text, reply, data_type)?;
    }
    Ok(text)
}

// The status of a session that ended early.
fn session_status(kind: SessionErrorKind) -> Status
    ensures { result ≡ session_status kind }
{
    match kind {
        SessionErrorKind::NotOpened(error) => Status::Document(error),
        SessionErrorKind::ChunkDecode { key, error: _ } => Status::Chunk { key },
        SessionErrorKind::Store => Status::Store,
        SessionErrorKind::OutOfMemory => Status::OutOfMemory,
    }
}

/// Runs commands over a store, and gives their replies.
///
/// # Errors
/// `Chunk` where a read or a write met a value that does not decode, `Store` where the store failed, and `OutOfMemory`.
pub fn replies_of<C: ChunkAccess, S: Store>(
    alloc: Global,
    array: &C,
    commands: &[Command],
    store: &mut S,
    options: &CodecOptions,
) -> Result<Vec<Reply>, Status>
    ensures did { Did (job (is_once (C.seen array.now).costs) (described (C.seen array.now))
        (options_of options.now) [] (map command_of commands.now)) (Unit {0})
        (S.shown store.old) (S.shown store.new) result
        (λ held. RepliedBy (described (C.seen array.now)) (options_of options.now)
        (map command_of commands.now) (S.shown store.old) (S.shown store.new) held.items) }
    ensures refused { AreRefused (described (C.seen array.now)) (map command_of commands.now) →
        IsUntouched (S.shown store.old) (S.shown store.new) }
    ensures costs { OnOk result (CostsRun (C.seen array.now).costs
        (described (C.seen array.now)) (options_of options.now) (map command_of commands.now)
        (S.shown store.old) (S.shown store.new)) }
    ensures kept { AreReads (map command_of commands.now) → S.kept store.old store.new }
{
    match run_commands(array, alloc, commands, store, options) {
        Ok(replies) => Ok(replies),
        Err(error) => Err(session_status(error.kind)),
    }
}
