//! Commands over a store on any array that gives access to its chunks.

ghost use Rattle.std.specs.Prelude.{IfErr, IfSome, ◌≡◌, [], ◌∷◌, map, Some, None};
ghost use Rattle.zarrs_codec_traits.specs.Prelude.{raw_of, region, SameContent, options_of};
ghost use Rattle.zarr_model.specs.Prelude.{read, write, erase};
ghost use Rattle.zarr_array_boxes.specs.Command.{command_of, region_read, region_at, AreReads};
ghost use Rattle.zarr_array.specs.Access.{described, IsInHand};
ghost use Rattle.zarr_array.specs.Tells.{TellsOfSome};
ghost use Rattle.zarr_array.specs.Costs.{CostsOn};
ghost use Rattle.zarr_array.specs.Ended.{ended, ended_step};
ghost use Rattle.zarr_array.specs.WritesUpTo.{WritesUpTo};
ghost use Rattle.zarr_array.specs.Answers.{AnswersRefused, AnswersRead};
ghost use Rattle.zarr_array.specs.Runs.{RunsOn};

use crate::error::{SessionError, SessionErrorKind};
use crate::refusal::{erase_refusal, region_refusal, write_refusal};
use crate::{ChunkAccess, CommandError, read_elements, write_elements};
use std::alloc::Global;
use zarr_array_boxes::{Command, Reply};
use zarrs_array_subset::ArraySubset;
use zarrs_codec_array_bytes::ArrayBytes;
use zarrs_codec_error::CodecOptions;
use zarrs_storage::{StorageError, Store};

/// Reads a region of an array: its elements in row-major order, or why it is refused. `hand` has levels
/// from command to command, so that the next one need not make them anew; at first it has none.
///
/// # Errors
/// What a chunk's value or the store told, or want of memory, and how many chunks were finished.
pub fn run_read<C: ChunkAccess, S: Store>(
    array: &C,
    alloc: Global,
    subset: &ArraySubset,
    hand: &mut Option<C::Levels>,
    store: &mut S,
    options: &CodecOptions,
) -> Result<Reply, CommandError>
    requires hand { IfSome hand.old (IsInHand (C.serves array.now)) }
    ensures runs { RunsOn (described (C.seen array.now)) (options_of options.now)
        (read (region subset.now) ∷ [])
        (S.shown store.old) (S.shown store.new) (ended_step result) }
    ensures costs { CostsOn (C.seen array.now).costs (described (C.seen array.now))
        (options_of options.now) (read (region subset.now) ∷ []) (S.shown store.old)
        (S.shown store.new) (ended_step result) }
    ensures read { AnswersRead (described (C.seen array.now)) (region subset.now)
        (S.shown store.old) (S.shown store.new) result }
    ensures kept { S.kept store.old store.new }
    ensures told { IfErr result (λ error. TellsOfSome (Some (region subset.now))
        (described (C.seen array.now)) (C.seen array.now).says (options_of options.now)
        (S.shown store.new) error.kind) }
    ensures hand { IfSome hand.new (IsInHand (C.serves array.now)) }
{
    if let Some(refusal) = region_refusal(array, subset) {
        return Ok(Reply::Refused(refusal));
    }
    let elements = read_elements(array, alloc, subset, hand, store, options)?;
    Ok(Reply::Elements(elements))
}

/// Writes elements to a region of an array, in its row-major order: done, or why it is refused. `hand` is that of
/// `run_read`.
///
/// # Errors
/// What a chunk's value or the store told, or want of memory, and how many chunks were finished.
pub fn run_write<C: ChunkAccess, S: Store>(
    array: &C,
    alloc: Global,
    subset: &ArraySubset,
    bytes: &ArrayBytes<'_>,
    hand: &mut Option<C::Levels>,
    store: &mut S,
    options: &CodecOptions,
) -> Result<Reply, CommandError>
    requires hand { IfSome hand.old (IsInHand (C.serves array.now)) }
    ensures runs { RunsOn (described (C.seen array.now)) (options_of options.now)
        (write (region subset.now) (raw_of bytes.now) ∷ [])
        (S.shown store.old) (S.shown store.new) (ended_step result) }
    ensures costs { CostsOn (C.seen array.now).costs (described (C.seen array.now))
        (options_of options.now) (write (region subset.now) (raw_of bytes.now) ∷ [])
        (S.shown store.old) (S.shown store.new) (ended_step result) }
    ensures answered { AnswersRefused (described (C.seen array.now))
        (write (region subset.now) (raw_of bytes.now) ∷ []) result }
    ensures first { IfErr result (λ error. WritesUpTo (described (C.seen array.now))
        (options_of options.now) (region subset.now) (raw_of bytes.now) error.chunks_done
        (S.shown store.old) (S.shown store.new) error.kind) }
    ensures told { IfErr result (λ error. TellsOfSome None
        (described (C.seen array.now)) (C.seen array.now).says (options_of options.now)
        (S.shown store.new) error.kind) }
    ensures hand { IfSome hand.new (IsInHand (C.serves array.now)) }
{
    if let Some(refusal) = write_refusal(array, subset, bytes) {
        return Ok(Reply::Refused(refusal));
    }
    write_elements(array, alloc, subset, bytes, hand, store, options)?;
    Ok(Reply::Done)
}

/// Erases a chunk by one call on the store, which reads nothing: done, or why it is refused.
///
/// # Errors
/// Where the store failed, or for want of memory.
pub fn run_erase<C: ChunkAccess, S: Store>(
    array: &C,
    alloc: Global,
    chunk_indices: &[u64],
    store: &mut S,
    options: &CodecOptions,
) -> Result<Reply, CommandError>
    ensures runs { RunsOn (described (C.seen array.now)) (options_of options.now)
        (erase chunk_indices.now ∷ [])
        (S.shown store.old) (S.shown store.new) (ended_step result) }
    ensures costs { CostsOn (C.seen array.now).costs (described (C.seen array.now))
        (options_of options.now) (erase chunk_indices.now ∷ []) (S.shown store.old)
        (S.shown store.new) (ended_step result) }
    ensures answered { AnswersRefused (described (C.seen array.now))
        (erase chunk_indices.now ∷ []) result }
    ensures unasked { (S.shown store.new).asks ≡ (S.shown store.old).asks }
    ensures untaken { (S.shown store.new).taken ≡ (S.shown store.old).taken }
    ensures told { IfErr result (λ error. TellsOfSome None
        (described (C.seen array.now)) (C.seen array.now).says (options_of options.now)
        (S.shown store.new) error.kind) }
{
    if let Some(refusal) = erase_refusal(array, chunk_indices) {
        return Ok(Reply::Refused(refusal));
    }
    let key = array.chunk_key(alloc, chunk_indices)?;
    match store.erase(&key) {
        Ok(()) => Ok(Reply::Done),
        Err(StorageError::Failed) => Err(CommandError {
            chunks_done: 0,
            kind: SessionErrorKind::Store,
        }),
        Err(StorageError::InvalidByteRange(_) | StorageError::OutOfMemory) => unreachable!(),
    }
}

// Runs one command. A refused one makes no call on the store.
fn run_command<C: ChunkAccess, S: Store>(
    array: &C,
    alloc: Global,
    command: &Command,
    hand: &mut Option<C::Levels>,
    store: &mut S,
    options: &CodecOptions,
) -> Result<Reply, CommandError>
    requires hand { IfSome hand.old (IsInHand (C.serves array.now)) }
    ensures runs { RunsOn (described (C.seen array.now)) (options_of options.now)
        (command_of command.now ∷ [])
        (S.shown store.old) (S.shown store.new) (ended_step result) }
    ensures costs { CostsOn (C.seen array.now).costs (described (C.seen array.now))
        (options_of options.now) (command_of command.now ∷ []) (S.shown store.old)
        (S.shown store.new) (ended_step result) }
    ensures answered { AnswersRefused (described (C.seen array.now))
        (command_of command.now ∷ []) result }
    ensures same { AreReads (command_of command.now ∷ [])
        → SameContent (S.shown store.old) (S.shown store.new) }
    ensures kept { AreReads (command_of command.now ∷ []) → S.kept store.old store.new }
    ensures told { IfErr result (λ error. TellsOfSome (region_read (command_of command.now))
        (described (C.seen array.now)) (C.seen array.now).says (options_of options.now)
        (S.shown store.new) error.kind) }
    ensures hand { IfSome hand.new (IsInHand (C.serves array.now)) }
{
    match command {
        Command::Read(subset) => run_read(array, alloc, subset, hand, store, options),
        Command::Write(subset, bytes) => {
            run_write(array, alloc, subset, bytes, hand, store, options)
        }
        Command::Erase(chunk_indices) => run_erase(array, alloc, chunk_indices, store, options),
    }
}

/// Runs commands over a store. The replies are those of one plain array that the store means.
///
/// The room for the replies is taken first. A refused command is answered, and the next ones run.
///
/// # Errors
/// An error says at which command, and after how many of its chunks. [`SessionErrorKind::ChunkDecode`] names a chunk
/// that the command met and whose value does not decode, [`SessionErrorKind::Store`] comes where the store failed,
/// and `OutOfMemory` for want of memory. What the commands before did stands, and so do these chunks; and a damaged
/// value stands until its chunk is erased.
pub fn run_commands<C: ChunkAccess, S: Store>(
    array: &C,
    alloc: Global,
    commands: &[Command],
    store: &mut S,
    options: &CodecOptions,
) -> Result<Vec<Reply>, SessionError>
    ensures runs { RunsOn (described (C.seen array.now)) (options_of options.now)
        (map command_of commands.now) (S.shown store.old) (S.shown store.new) (ended result) }
    ensures costs { CostsOn (C.seen array.now).costs (described (C.seen array.now))
        (options_of options.now) (map command_of commands.now) (S.shown store.old)
        (S.shown store.new) (ended result) }
    ensures told { IfErr result (λ error. TellsOfSome
        (region_at (map command_of commands.now) error.at) (described (C.seen array.now))
        (C.seen array.now).says (options_of options.now) (S.shown store.new) error.kind) }
    // Reads keep what a store says that its reading calls keep.
    ensures kept { AreReads (map command_of commands.now) → S.kept store.old store.new }
{
    let mut replies = match Vec::with_capacity(alloc, commands.len()) {
        Ok(replies) => replies,
        Err(_) => return Err(SessionError::before_commands(SessionErrorKind::OutOfMemory)),
    };
    let mut hand = None;
    for (number, command) in commands.iter().enumerate() {
        match run_command(array, alloc, command, &mut hand, store, options) {
            Ok(reply) => replies.push(reply).unwrap(),
            Err(error) => {
                return Err(SessionError {
                    at: Some((number, error.chunks_done)),
                    kind: error.kind,
                });
            }
        }
    }
    Ok(replies)
}
