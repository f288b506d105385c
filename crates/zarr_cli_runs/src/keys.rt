//! The keys of a store: their lines, and how many there are.

ghost use Rattle.std.specs.Prelude.{◌≡◌, ◌++◌, ℕ, List, [], true, false, IsSome, IfOk, OnOk, Contains, length, unwrap_or};
ghost use Rattle.zarrs_codec_traits.specs.Prelude.{counted, IsUntouched, ListsKeys};
ghost use Rattle.zarr_cli_lines.specs.Text.{entry_text, entries_text, line_of};
ghost use Rattle.zarr_cli_runs.specs.Keys.{Dumps, ReadsKeys, entries_at, storage_status};

use crate::push_entry;
use crate::status::Status;
use std::alloc::Global;
use zarrs_storage::{StorageError, Store, StoreKey};

/// The status of a call of the store that gave no answer.
pub fn storage_status(error: StorageError) -> Status
    ensures { result ≡ storage_status error }
{
    match error {
        StorageError::Failed | StorageError::InvalidByteRange(_) => Status::Store,
        StorageError::OutOfMemory => Status::OutOfMemory,
    }
}

// Appends the line of a key that the store holds.
fn push_key<S: Store>(
    alloc: Global,
    text: &mut Vec<u8>,
    key: &StoreKey,
    store: &mut S,
) -> Result<(), Status>
    requires { IsSome ((S.shown store.now).content key.now) }
    ensures line { OnOk result (text.new.items ≡ text.old.items
        ++ line_of (entry_text (key.now, unwrap_or ((S.shown store.old).content key.now) []))) }
    ensures asks { OnOk result ((S.shown store.new).asks ≡ counted (S.shown store.old).asks 1) }
    ensures reads { ReadsKeys (S.shown store.old) (S.shown store.new) result }
{
    match store.get(alloc, key) {
        Ok(Some(value)) => Ok(push_entry(text, key, &value)?),
        Ok(None) => unreachable!(),
        Err(error) => Err(storage_status(error)),
    }
}

// Appends the lines of keys that the store holds.
fn push_keys<S: Store>(
    alloc: Global,
    text: &mut Vec<u8>,
    keys: &[StoreKey],
    store: &mut S,
) -> Result<(), Status>
    requires { (key : List ℕ) → Contains keys.now key → IsSome ((S.shown store.now).content key) }
    ensures lines { OnOk result (text.new.items ≡ text.old.items
        ++ entries_text (entries_at (S.shown store.old).content keys.now)) }
    ensures asks { OnOk result
        ((S.shown store.new).asks ≡ counted (S.shown store.old).asks (length keys.now)) }
    ensures reads { ReadsKeys (S.shown store.old) (S.shown store.new) result }
{
    for key in keys {
        push_key(alloc, text, key, store)?;
    }
    Ok(())
}

// Appends the lines of all keys of the store, in the order of the keys' bytes.
fn push_store<S: Store>(alloc: Global, text: &mut Vec<u8>, store: &mut S) -> Result<(), Status>
    ensures dumped { OnOk result (Dumps true (S.shown store.old) (S.shown store.new)
        text.old.items text.new.items) }
    ensures reads { ReadsKeys (S.shown store.old) (S.shown store.new) result }
{
    match store.list(alloc) {
        Ok(keys) => push_keys(alloc, text, &keys, store),
        Err(error) => Err(storage_status(error)),
    }
}

/// Appends the lines of the keys that the store holds, where they are asked for: one reading call for the list, and
/// one for each key.
///
/// # Errors
/// `Store` where the store failed, and `OutOfMemory`; the text may then have some of the lines.
pub fn push_dump<S: Store>(
    alloc: Global,
    dump: bool,
    text: &mut Vec<u8>,
    store: &mut S,
) -> Result<(), Status>
    ensures dumped { OnOk result (Dumps dump (S.shown store.old) (S.shown store.new)
        text.old.items text.new.items) }
    ensures still { dump ≡ false → IsUntouched (S.shown store.old) (S.shown store.new) }
    ensures reads { ReadsKeys (S.shown store.old) (S.shown store.new) result }
{
    if dump {
        push_store(alloc, text, store)
    } else {
        Ok(())
    }
}

/// How many keys a store holds: one reading call.
///
/// # Errors
/// `Store` where the store failed, and `OutOfMemory`.
pub fn count_keys<S: Store>(alloc: Global, store: &mut S) -> Result<usize, Status>
    ensures keys { IfOk result (λ count. (keys : List (List ℕ))
        × ListsKeys (S.shown store.new).content keys × (count ≡ length keys)) }
    ensures asks { OnOk result ((S.shown store.new).asks ≡ counted (S.shown store.old).asks 1) }
    ensures reads { ReadsKeys (S.shown store.old) (S.shown store.new) result }
{
    match store.list(alloc) {
        Ok(keys) => Ok(keys.len()),
        Err(error) => Err(storage_status(error)),
    }
}
