//! A store in memory.
ghost use Rattle.std.specs.Prelude.{◌≡◌, IfOk};
ghost use Rattle.zarrs_storage.specs.Calls.{capped_count};
ghost use Rattle.zarrs_storage.specs.Store.{ListsKeys};

use crate::byte_range::{ByteRange, OffsetBytes, extract_byte_ranges};
use crate::counts::with_lengths;
use crate::parts::put_parts;
use crate::store::{StorageError, Store};
use crate::store_key::StoreKey;
use std::alloc::{AllocError, Global};
use std::collections::BTreeMap;
use std::marker::Model;

/// A store in memory, which never fails: its count of faults is 0.
#[derive(Drop)]
pub struct MemoryStore {
    map: BTreeMap<StoreKey, Vec<u8>>,
    asks: u64,
    taken: u64,
    puts: u64,
}

impl Model for MemoryStore {
    ghost use Rattle.zarrs_storage.specs.MemoryStore.{MemoryState, memory_code, memory_of};

    ghost Value = { MemoryState };

    ghost coded = { memory_code };

    ghost view = { λ s. memory_of s.map s.asks s.taken s.puts };
}

impl MemoryStore {
    ghost use Rattle.zarrs_storage.specs.MemoryStore.{new_memory, content_of};

    /// A store that holds no key.
    pub fn new(alloc: Global) -> Self
        ensures { result ≡ new_memory }
    {
        MemoryStore {
            map: BTreeMap::new(alloc),
            asks: 0,
            taken: 0,
            puts: 0,
        }
    }

    /// All keys, in the order of their bytes. No reading call.
    ///
    /// # Errors
    /// [`AllocError`] where memory runs out.
    pub fn keys(&self, alloc: Global) -> Result<Vec<StoreKey>, AllocError>
        ensures { IfOk result (λ keys. ListsKeys (content_of self.now) keys.items) }
    {
        let mut keys = Vec::with_capacity(alloc, self.map.len())?;
        for key in self.map.keys() {
            keys.push(key.try_clone(alloc)?)?;
        }
        Ok(keys)
    }
}

impl Store for MemoryStore {
    ghost use Rattle.std.proofs.Common.{refl, ap, ◌∙◌};
    ghost use Rattle.std.specs.Prelude.{true};
    ghost use Rattle.zarrs_storage.specs.MemoryStore.{shown_of, KeepsPuts};
    ghost use Rattle.zarrs_storage.specs.Calls.{count_of-fits};

    ghost shown = { shown_of };

    ghost kept = { KeepsPuts };

    ghost gets_parts = { λ _. true };

    ghost sets_parts = { λ _. true };

    fn get(&mut self, alloc: Global, key: &StoreKey) -> Result<Option<Vec<u8>>, StorageError> {
        self.asks = self.asks.saturating_add(1);
        let Some(value) = self.map.get(key) else {
            return Ok(None);
        };
        let copy = Vec::from_slice(alloc, value)?;
        self.taken = self.taken.saturating_add(copy.len() as u64);
        Ok(Some(copy))
    }

    fn get_partial_many(
        &mut self,
        alloc: Global,
        key: &StoreKey,
        ranges: &[ByteRange],
    ) -> Result<Option<Vec<Vec<u8>>>, StorageError> {
        self.asks = self.asks.saturating_add(1);
        let Some(value) = self.map.get(key) else {
            return Ok(None);
        };
        let parts = extract_byte_ranges(alloc, value, ranges)?;
        self.taken = with_lengths(self.taken, &parts);
        Ok(Some(parts))
    }

    fn size_key(&mut self, key: &StoreKey) -> Result<Option<u64>, StorageError> {
        self.asks = self.asks.saturating_add(1);
        let Some(value) = self.map.get(key) else {
            return Ok(None);
        };
        Ok(Some(value.len() as u64))
    }

    fn list(&mut self, alloc: Global) -> Result<Vec<StoreKey>, StorageError> {
        self.asks = self.asks.saturating_add(1);
        Ok(self.keys(alloc)?)
    }

    fn set(&mut self, alloc: Global, key: &StoreKey, value: &[u8]) -> Result<(), StorageError> {
        self.puts = self.puts.saturating_add(1);
        let value = Vec::from_slice(alloc, value)?;
        let key = key.try_clone(alloc)?;
        self.map.insert(key, value)?;
        Ok(())
    }

    fn set_partial_many(
        &mut self,
        alloc: Global,
        key: &StoreKey,
        parts: &[OffsetBytes],
    ) -> Result<(), StorageError> {
        self.puts = self.puts.saturating_add(1);
        if let Some(value) = self.map.get_mut(key) {
            put_parts(value, parts)?;
            return Ok(());
        }
        let mut value = Vec::new(alloc);
        put_parts(&mut value, parts)?;
        let key = key.try_clone(alloc)?;
        self.map.insert(key, value)?;
        Ok(())
    }

    fn erase(&mut self, key: &StoreKey) -> Result<(), StorageError> {
        self.puts = self.puts.saturating_add(1);
        self.map.remove(key);
        Ok(())
    }

    fn supports_get_partial(&self) -> bool {
        true
    }

    fn supports_set_partial(&self) -> bool {
        true
    }

    fn faults(&self) -> u64 {
        0
    }

    fn asks(&self) -> u64 {
        self.asks
    }

    fn taken(&self) -> u64 {
        self.taken
    }

    fn puts(&self) -> u64 {
        self.puts
    }

    ghost counts_fit = { λ s. (
      count_of-fits 0,
      count_of-fits s.asks,
      count_of-fits s.taken,
      count_of-fits s.puts,
    ) };

    ghost kept_puts = { λ _ _ same. ap capped_count same };

    ghost kept_self = { λ _. refl };

    ghost kept_twice = { λ _ _ _ first second. second ∙ first };
}
