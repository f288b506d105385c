//! A store over a store in memory, some of whose calls fail.
ghost use Rattle.std.specs.Prelude.{◌≡◌, true, false, Some, None, IsErrOf};
ghost use Rattle.zarrs_storage.specs.FailingStore.{fails_call, after_call, after_failed_call};

use crate::byte_range::{ByteRange, OffsetBytes};
use crate::counts::with_lengths;
use crate::memory_store::MemoryStore;
use crate::store::{StorageError, Store};
use crate::store_key::StoreKey;
use std::alloc::Global;
use std::marker::Model;

/// A store over a store in memory. Its calls of `get`, `get_partial_many`, `size_key`, `list`, `set`,
/// `set_partial_many` and `erase` are numbered together, from 0; those whose numbers are given fail,
/// and change nothing.
///
/// Its counts are its own, whatever was asked of the store below before. The number of a call stays
/// at `u64::MAX` once there.
#[derive(Drop)]
pub struct FailingStore {
    memory: MemoryStore,
    failing: Vec<u64>,
    calls: u64,
    faults: u64,
    asks: u64,
    taken: u64,
    puts: u64,
}

impl Model for FailingStore {
    ghost use Rattle.zarrs_storage.specs.FailingStore.{FailingState, failing_code};

    ghost Value = { FailingState };

    ghost coded = { failing_code };

    ghost view = { λ s. record {
      memory = s.memory;
      failing = s.failing.items;
      calls = s.calls;
      faults = s.faults;
      asks = s.asks;
      taken = s.taken;
      puts = s.puts;
    } };
}

impl FailingStore {
    ghost use Rattle.zarrs_storage.specs.FailingStore.{new_failing};

    /// A store with the content of `memory`, whose calls with the numbers in `failing` fail. All its counts are 0.
    pub fn new(memory: MemoryStore, failing: Vec<u64>) -> Self
        ensures { result ≡ new_failing memory failing.items }
    {
        FailingStore {
            memory,
            failing,
            calls: 0,
            faults: 0,
            asks: 0,
            taken: 0,
            puts: 0,
        }
    }

    /// The store below, which has the content.
    pub fn memory(&self) -> &MemoryStore
        ensures { result.now ≡ self.now.memory }
    {
        &self.memory
    }

    /// The store below, with the content, which this one is given up for.
    pub fn into_memory(self) -> MemoryStore
        ensures { result ≡ self.memory }
    {
        let FailingStore {
            memory,
            failing: _,
            calls: _,
            faults: _,
            asks: _,
            taken: _,
            puts: _,
        } = self;
        memory
    }

    // Takes the number of a call, and tells whether it fails.
    fn fails(&mut self) -> bool
        ensures told { result ≡ fails_call self.old }
        ensures failed { result ≡ true → self.new ≡ after_failed_call self.old }
        ensures works { result ≡ false → self.new ≡ after_call self.old }
    {
        let call = self.calls;
        self.calls = call.saturating_add(1);
        if self.failing.contains(&call) {
            self.faults = self.faults.saturating_add(1);
            return true;
        }
        false
    }
}

impl Store for FailingStore {
    ghost use Rattle.std.proofs.Common.{refl, ap, ◌∙◌};
    ghost use Rattle.zarrs_storage.specs.Calls.{capped_count, count_of-fits};
    ghost use Rattle.zarrs_storage.specs.Parts.{PartsFit, with_parts, held_bytes};
    ghost use Rattle.zarrs_storage.specs.Store.{Gets, GetsParts, Sizes, Lists, Puts};
    ghost use Rattle.zarrs_storage.specs.FailingStore.{shows, IsNumbered, KeepsFailingPuts};

    ghost shown = { shows };

    ghost kept = { KeepsFailingPuts };

    ghost gets_parts = { λ _. true };

    ghost sets_parts = { λ _. true };

    fn get(&mut self, alloc: Global, key: &StoreKey) -> Result<Option<Vec<u8>>, StorageError>
        ensures reads { Gets key.now (shows self.old) (shows self.new) result }
        ensures kept { KeepsFailingPuts self.old self.new }
        ensures numbered { IsNumbered self.old self.new result }
    {
        self.asks = self.asks.saturating_add(1);
        if self.fails() {
            return Err(StorageError::Failed);
        }
        let value = self.memory.get(alloc, key)?;
        if let Some(bytes) = &value {
            self.taken = self.taken.saturating_add(bytes.len() as u64);
        }
        Ok(value)
    }

    fn get_partial_many(
        &mut self,
        alloc: Global,
        key: &StoreKey,
        ranges: &[ByteRange],
    ) -> Result<Option<Vec<Vec<u8>>>, StorageError>
        ensures reads { GetsParts key.now ranges.now (shows self.old) (shows self.new) result }
        ensures kept { KeepsFailingPuts self.old self.new }
        ensures numbered { IsNumbered self.old self.new result }
    {
        self.asks = self.asks.saturating_add(1);
        if self.fails() {
            return Err(StorageError::Failed);
        }
        let parts = self.memory.get_partial_many(alloc, key, ranges)?;
        if let Some(parts) = &parts {
            self.taken = with_lengths(self.taken, parts);
        }
        Ok(parts)
    }

    fn size_key(&mut self, key: &StoreKey) -> Result<Option<u64>, StorageError>
        ensures reads { Sizes key.now (shows self.old) (shows self.new) result }
        ensures kept { KeepsFailingPuts self.old self.new }
        ensures numbered { IsNumbered self.old self.new result }
    {
        self.asks = self.asks.saturating_add(1);
        if self.fails() {
            return Err(StorageError::Failed);
        }
        self.memory.size_key(key)
    }

    fn list(&mut self, alloc: Global) -> Result<Vec<StoreKey>, StorageError>
        ensures reads { Lists (shows self.old) (shows self.new) result }
        ensures kept { KeepsFailingPuts self.old self.new }
        ensures numbered { IsNumbered self.old self.new result }
    {
        self.asks = self.asks.saturating_add(1);
        if self.fails() {
            return Err(StorageError::Failed);
        }
        self.memory.list(alloc)
    }

    fn set(&mut self, alloc: Global, key: &StoreKey, value: &[u8]) -> Result<(), StorageError>
        ensures puts { Puts key.now (Some value.now) (shows self.old) (shows self.new) result }
        ensures numbered { IsNumbered self.old self.new result }
    {
        self.puts = self.puts.saturating_add(1);
        if self.fails() {
            return Err(StorageError::Failed);
        }
        self.memory.set(alloc, key, value)
    }

    fn set_partial_many(
        &mut self,
        alloc: Global,
        key: &StoreKey,
        parts: &[OffsetBytes],
    ) -> Result<(), StorageError>
        requires fit { PartsFit parts.now }
        ensures puts { Puts key.now
            (Some (with_parts parts.now (held_bytes ((shows self.old).content key.now))))
            (shows self.old) (shows self.new) result }
        ensures numbered { IsNumbered self.old self.new result }
    {
        self.puts = self.puts.saturating_add(1);
        if self.fails() {
            return Err(StorageError::Failed);
        }
        self.memory.set_partial_many(alloc, key, parts)
    }

    fn erase(&mut self, key: &StoreKey) -> Result<(), StorageError>
        ensures puts { Puts key.now None (shows self.old) (shows self.new) result }
        ensures numbered { IsNumbered self.old self.new result }
        ensures no_memory { IsErrOf result StorageError.OutOfMemory → ⊥ }
    {
        self.puts = self.puts.saturating_add(1);
        if self.fails() {
            return Err(StorageError::Failed);
        }
        self.memory.erase(key)
    }

    fn supports_get_partial(&self) -> bool {
        true
    }

    fn supports_set_partial(&self) -> bool {
        true
    }

    fn faults(&self) -> u64 {
        self.faults
    }

    fn asks(&self) -> u64 {
        self.asks
    }

    fn taken(&self) -> u64 {
        self.taken
    }

    fn puts(&self) -> u64 {
        self.puts
    }

    ghost counts_fit = { λ s. (
      count_of-fits s.faults,
      count_of-fits s.asks,
      count_of-fits s.taken,
      count_of-fits s.puts,
    ) };

    ghost kept_puts = { λ _ _ same. ap capped_count same };

    ghost kept_self = { λ _. refl };

    ghost kept_twice = { λ _ _ _ first second. second ∙ first };
}
