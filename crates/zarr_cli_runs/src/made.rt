//! A run that is made from a number.

ghost use Rattle.std.specs.Prelude.{◌≡◌, ◌<◌, map, List, [], ℕ, true, IfOk, IfErr};
ghost use Rattle.std.specs.List.{AllZip};
ghost use Rattle.zarrs_codec_traits.specs.Prelude.{kind, fixed, Matches};
ghost use Rattle.zarrs_codec_traits.specs.Prelude.{options_of, kind_seen};
ghost use Rattle.zarr_model.specs.Command as Model;
ghost use Rattle.zarr_array.specs.OpenArray.{described_array};
ghost use Rattle.zarr_array.specs.boxes.Command.{command_of, answer_of};
ghost use Rattle.zarr_cli_runs.specs.MadeCommands.{made_commands};
ghost use Rattle.zarr_cli_runs.specs.Summary.{summary_text};
ghost use Rattle.zarr_cli_runs.specs.Tally.{summary_held};
ghost use Rattle.zarr_cli_runs.specs.Job.{job, Did};
ghost use Rattle.zarr_cli_runs.specs.Made.{made_array, SumsAll};

use crate::commands::{replies_of, text_of_replies};
use crate::keys::count_keys;
use crate::opening::open_line;
use crate::status::Status;
use crate::{CodecOptions, Command, OpenArray, Reply, made_commands, made_document, push_summary};
use std::alloc::{AllocError, Global};
use zarrs_data_type::DataType;
use zarrs_storage::Store;

// The size of an element of the array that the commands are for, in bytes.
const ELEMENT_SIZE: usize = 2;

// The array that the commands are for.
fn open_made(alloc: Global) -> Result<OpenArray, Status>
    ensures array { IfOk result (λ array. described_array array ≡ made_array) }
    ensures sized { IfOk result (λ array. kind (described_array array) ≡ fixed 2) }
    ensures fault { IfErr result (λ status. status ≡ Status.OutOfMemory) }
{
    open_line(alloc, made_document())
}

// The summary of replies, whose elements are of a data type and have `size` bytes, and of a number of keys.
fn summary_of(
    alloc: Global,
    replies: &[Reply],
    data_type: &DataType,
    size: usize,
    keys: usize,
) -> Result<Vec<u8>, AllocError>
    requires some { 0 < size }
    requires kind { kind_seen data_type.now ≡ fixed size }
    ensures held { IfOk result (λ text. (lines : List ℕ)
        × (text.items ≡ summary_held size replies.now keys lines)) }
    ensures replies { IfOk result (λ text. (answers : List Model.Reply) →
        AllZip (Matches (fixed size)) (map answer_of replies.now) answers →
        text.items ≡ summary_text answers keys) }
{
    let lines = text_of_replies(alloc, replies, data_type)?;
    let mut text = Vec::new(alloc);
    push_summary(alloc, &mut text, replies, &lines, size, keys)?;
    Ok(text)
}

// Runs commands over a store, and gives the summary of their replies and of the keys at the end.
fn summary_of_commands<S: Store>(
    alloc: Global,
    array: &OpenArray,
    commands: &[Command],
    store: &mut S,
    options: &CodecOptions,
) -> Result<Vec<u8>, Status>
    requires sized { kind (described_array array.now) ≡ fixed 2 }
    ensures { Did (job true (described_array array.now) (options_of options.now) []
        (map command_of commands.now)) ⊥ (S.shown store.old) (S.shown store.new) result
        (λ text. SumsAll (described_array array.now) (options_of options.now)
        (map command_of commands.now) (S.shown store.old) (S.shown store.new) text.items) }
{
    match replies_of(alloc, array.parts(), commands, store, options) {
        Ok(replies) => match count_keys(alloc, store) {
            Ok(keys) => Ok(summary_of(alloc, &replies, array.data_type(), ELEMENT_SIZE, keys)?),
            Err(status) => Err(status),
        },
        Err(status) => Err(status),
    }
}

// Runs the commands that are made from a number on an array.
fn summary_from<S: Store>(
    alloc: Global,
    array: &OpenArray,
    number: u64,
    store: &mut S,
    options: &CodecOptions,
) -> Result<Vec<u8>, Status>
    requires sized { kind (described_array array.now) ≡ fixed 2 }
    ensures { Did (job true (described_array array.now) (options_of options.now) []
        (made_commands number)) ⊥ (S.shown store.old) (S.shown store.new) result
        (λ text. SumsAll (described_array array.now) (options_of options.now)
        (made_commands number) (S.shown store.old) (S.shown store.new) text.items) }
{
    let commands = made_commands(alloc, number)?;
    summary_of_commands(alloc, array, &commands, store, options)
}

/// Runs the commands that are made from a number over a store, and gives the summary of their replies and of how many
/// keys the store holds at the end.
///
/// # Errors
/// `Chunk` where a read or a write met a value that does not decode, `Store` where the store failed, and `OutOfMemory`.
pub fn run_made<S: Store>(
    alloc: Global,
    options: &CodecOptions,
    number: u64,
    store: &mut S,
) -> Result<Vec<u8>, Status>
    ensures { Did (job true made_array (options_of options.now) [] (made_commands number)) ⊥
        (S.shown store.old) (S.shown store.new) result (λ text. SumsAll made_array
        (options_of options.now) (made_commands number) (S.shown store.old) (S.shown store.new)
        text.items) }
{
    match open_made(alloc) {
        Ok(array) => summary_from(alloc, &array, number, store, options),
        Err(status) => Err(status),
    }
}
