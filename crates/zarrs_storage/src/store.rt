//! What a store is: a finite map from keys to values, with its counts.
//!
//! See <https://zarr-specs.readthedocs.io/en/latest/v3/core/index.html#abstract-store-interface>.
ghost use Rattle.std.specs.Prelude.{◌≡◌, ◌≤◌, ◌-◌, ◌^◌, Bool, Some, None, IsErrOf};
ghost use Rattle.zarr_model.specs.Prelude.{Shown};
ghost use Rattle.zarrs_storage.specs.Parts.{PartsFit, with_parts, held_bytes};
ghost use Rattle.zarrs_storage.specs.Store.{Gets, GetsParts, Sizes, Lists, Puts};

use crate::byte_range::{ByteRange, ByteRangeFault, InvalidByteRangeError, OffsetBytes};
use crate::store_key::StoreKey;
use std::alloc::{AllocError, AllocFailed, Global};
use thiserror::Error;

/// Why a call of a store gave no answer.
#[derive(Clone, Copy, Debug, PartialEq, Eq, Error)]
pub enum StorageError {
    /// The store failed, and its count of faults rose or stands at its last value.
    #[error("the store failed")]
    Failed,
    /// A range of bytes is not valid for the value, the first such one.
    #[error(transparent)]
    InvalidByteRange(InvalidByteRangeError),
    /// Memory ran out, and the content is as before.
    #[error("out of memory")]
    OutOfMemory,
}

impl From<AllocError> for StorageError {
    ghost use Rattle.zarrs_storage.specs.declared.store.StorageError.TheVariants.{OutOfMemory};

    ghost from_gives = { λ _ e. e ≡ OutOfMemory };

    fn from(_: AllocError) -> Self {
        StorageError::OutOfMemory
    }
}

impl<T: Drop> From<AllocFailed<T>> for StorageError {
    ghost use Rattle.zarrs_storage.specs.declared.store.StorageError.TheVariants.{OutOfMemory};

    ghost from_gives = { λ _ e. e ≡ OutOfMemory };

    fn from(_: AllocFailed<T>) -> Self {
        StorageError::OutOfMemory
    }
}

impl From<ByteRangeFault> for StorageError {
    ghost use Rattle.zarrs_storage.specs.Store.{range_fault};

    ghost from_gives = { λ fault e. e ≡ range_fault fault };

    fn from(fault: ByteRangeFault) -> Self {
        match fault {
            ByteRangeFault::Invalid(error) => StorageError::InvalidByteRange(error),
            ByteRangeFault::OutOfMemory => StorageError::OutOfMemory,
        }
    }
}

/// A finite map from keys to values that are bytes.
///
/// The counts of faults, of reading and of writing calls, and of bytes handed out never fall, and stay at `u64::MAX`
/// once there.
pub trait Store {
    /// Its content and its counts.
    ghost shown: { Self → Shown };

    /// What a reading call keeps of a store beside what it shows, from before the call to after it.
    ///
    /// A store that lies over another one says here what stays of that one, so who lent it knows it afterwards.
    ghost kept: { Self → Self → Type 0 };

    // Whether it reads and writes parts of a value.
    ghost gets_parts: { Self → Bool };

    ghost sets_parts: { Self → Bool };

    /// The value under `key`, or None where the key is absent. A reading call.
    ///
    /// # Errors
    /// [`StorageError::Failed`] where the store fails, which its count of faults tells, or
    /// [`StorageError::OutOfMemory`].
    fn get(&mut self, alloc: Global, key: &StoreKey) -> Result<Option<Vec<u8>>, StorageError>
        ensures reads { Gets key.now (shown self.old) (shown self.new) result }
        ensures kept { kept self.old self.new };

    /// The bytes of each range of the value under `key`, in the order of the ranges, or None where the key is absent. A
    /// reading call.
    ///
    /// # Errors
    /// [`StorageError::InvalidByteRange`] names the first range that is not valid for the value. It comes of no other
    /// call. [`StorageError::Failed`] where the store fails, which its count of faults tells, or
    /// [`StorageError::OutOfMemory`].
    fn get_partial_many(
        &mut self,
        alloc: Global,
        key: &StoreKey,
        ranges: &[ByteRange],
    ) -> Result<Option<Vec<Vec<u8>>>, StorageError>
        ensures reads { GetsParts key.now ranges.now (shown self.old) (shown self.new) result }
        ensures kept { kept self.old self.new };

    /// How many bytes the value under `key` has, or None where the key is absent. A reading call that hands out no
    /// value and takes no memory.
    ///
    /// # Errors
    /// [`StorageError::Failed`] where the store fails, which its count of faults tells.
    fn size_key(&mut self, key: &StoreKey) -> Result<Option<u64>, StorageError>
        ensures reads { Sizes key.now (shown self.old) (shown self.new) result }
        ensures kept { kept self.old self.new };

    /// All keys, in the order of their bytes. A reading call that hands out no value.
    ///
    /// # Errors
    /// [`StorageError::Failed`] where the store fails, which its count of faults tells, or
    /// [`StorageError::OutOfMemory`].
    fn list(&mut self, alloc: Global) -> Result<Vec<StoreKey>, StorageError>
        ensures reads { Lists (shown self.old) (shown self.new) result }
        ensures kept { kept self.old self.new };

    /// Makes the value under `key` exactly `value`. A writing call.
    ///
    /// # Errors
    /// [`StorageError::Failed`] where the store fails, which its count of faults tells: the value is then as before, or
    /// the new one, or absent. [`StorageError::OutOfMemory`], after which nothing has changed.
    fn set(&mut self, alloc: Global, key: &StoreKey, value: &[u8]) -> Result<(), StorageError>
        ensures { Puts key.now (Some value.now) (shown self.old) (shown self.new) result };

    /// Puts each part into the value under `key`, in order, an absent one counting as empty: the value is filled up
    /// with zero bytes to the part's end, and the part replaces the bytes at its place. A writing call.
    ///
    /// # Errors
    /// [`StorageError::Failed`] where the store fails, which its count of faults tells: the value is then as before, or
    /// the new one, or absent. [`StorageError::OutOfMemory`], after which nothing has changed.
    fn set_partial_many(
        &mut self,
        alloc: Global,
        key: &StoreKey,
        parts: &[OffsetBytes],
    ) -> Result<(), StorageError>
        requires fit { PartsFit parts.now }
        ensures { Puts key.now
            (Some (with_parts parts.now (held_bytes ((shown self.old).content key.now))))
            (shown self.old) (shown self.new) result };

    /// Leaves `key` absent, also where it was absent. Takes no memory. A writing call.
    ///
    /// # Errors
    /// [`StorageError::Failed`] where the store fails, which its count of faults tells: the value is then as before, or
    /// absent.
    fn erase(&mut self, key: &StoreKey) -> Result<(), StorageError>
        ensures puts { Puts key.now None (shown self.old) (shown self.new) result }
        ensures no_memory { IsErrOf result StorageError.OutOfMemory → ⊥ };

    /// Whether `get_partial_many` takes less than the whole value from where the store keeps it.
    fn supports_get_partial(&self) -> bool
        ensures { result ≡ gets_parts self.now };

    /// Whether `set_partial_many` gives less than the whole value to where the store keeps it.
    fn supports_set_partial(&self) -> bool
        ensures { result ≡ sets_parts self.now };

    /// How often the store has failed.
    fn faults(&self) -> u64
        ensures { result ≡ (shown self.now).faults };

    /// How many reading calls the store had.
    fn asks(&self) -> u64
        ensures { result ≡ (shown self.now).asks };

    /// How many bytes of values the store handed out.
    fn taken(&self) -> u64
        ensures { result ≡ (shown self.now).taken };

    /// How many writing calls the store had.
    fn puts(&self) -> u64
        ensures { result ≡ (shown self.now).puts };

    /// Each count has a `u64`'s range.
    ghost counts_fit: { (s : Self) → ((shown s).faults ≤ 2 ^ 64 - 1) × ((shown s).asks ≤ 2 ^ 64 - 1)
        × ((shown s).taken ≤ 2 ^ 64 - 1) × ((shown s).puts ≤ 2 ^ 64 - 1) };

    /// A reading call is no writing call.
    ghost kept_puts: { (a b : Self) → kept a b → (shown b).puts ≡ (shown a).puts };

    /// A store that is not read keeps all.
    ghost kept_self: { (s : Self) → kept s s };

    /// What each of two readings keeps, both keep one after the other.
    ghost kept_twice: { (a b c : Self) → kept a b → kept b c → kept a c };
}
