//! A store of slices of the values of another store.

ghost use Rattle.std.specs.Prelude.{◌≡◌, ℕ, ◌+◌, ◌<◌, true, List, [], ◌∷◌, Some, None, IfOk, IfErr};
ghost use Rattle.zarrs_codec_traits.specs.Prelude.{counted};
ghost use Rattle.zarrs_storage.specs.Store.{value_bytes, part_bytes, handed_out, handed_parts, SameContent};
ghost use Rattle.zarrs_storage.specs.Calls.{capped_count};
ghost use Rattle.zarrs_storage.specs.declared.store.StorageError.TheVariants.{OutOfMemory};
ghost use Rattle.zarr_refs.specs.Slices.{slice_at, slice_bytes, lies_in, is_slice_within};
ghost use Rattle.zarr_refs.specs.RefStore.{ReadsSlice, ReadsParts, ListsSlices};

use crate::reference::{RefError, Reference};
use crate::slices::{Slice, Slices, slices_in};
use std::alloc::Global;
use zarrs_storage::counts::with_lengths;
use zarrs_storage::{ByteRange, OffsetBytes, StorageError, Store, StoreKey, shift_byte_ranges};

// The bytes of ranges of a slice that lies in its base's value.
fn read_parts<S: Store>(
    alloc: Global,
    base: &mut S,
    slice: &Slice,
    ranges: &[ByteRange],
) -> Result<Option<Vec<Vec<u8>>>, StorageError>
    requires { lies_in ((S.shown base.old).content slice.now.base) slice.now ≡ true }
    ensures reads { ReadsParts (slice_bytes (S.shown base.old).content slice.now) ranges.now
        (S.shown base.old) (S.shown base.new) result }
    ensures puts { (S.shown base.new).puts ≡ (S.shown base.old).puts }
{
    let ranges = shift_byte_ranges(alloc, ranges, slice.offset, slice.length)?;
    base.get_partial_many(alloc, &slice.base, &ranges)
}

// The only part, if there is one.
fn only_part(parts: Option<Vec<Vec<u8>>>) -> Option<Vec<u8>>
    ensures value { (bytes : List ℕ) → part_bytes parts ≡ Some (bytes ∷ []) →
        value_bytes result ≡ Some bytes }
    ensures handed { (bytes : List ℕ) → part_bytes parts ≡ Some (bytes ∷ []) →
        handed_out result ≡ handed_parts parts }
{
    match parts {
        Some(mut parts) => parts.pop(),
        None => None,
    }
}

// The bytes of a slice that lies in its base's value.
pub(crate) fn read_slice<S: Store>(
    alloc: Global,
    base: &mut S,
    slice: &Slice,
) -> Result<Option<Vec<u8>>, StorageError>
    requires { lies_in ((S.shown base.old).content slice.now.base) slice.now ≡ true }
    ensures reads { ReadsSlice (slice_bytes (S.shown base.old).content slice.now)
        (S.shown base.old) (S.shown base.new) result }
    ensures puts { (S.shown base.new).puts ≡ (S.shown base.old).puts }
{
    let all = [ByteRange::FromStart(slice.offset, Some(slice.length))];
    match base.get_partial_many(alloc, &slice.base, &all) {
        Ok(parts) => Ok(only_part(parts)),
        Err(error) => Err(error),
    }
}

// A count with the bytes of a value.
pub(crate) fn with_value(count: u64, value: &Option<Vec<u8>>) -> u64
    ensures { result ≡ counted count (handed_out value.now) }
{
    match value {
        Some(value) => count.saturating_add(value.len() as u64),
        None => count,
    }
}

// A count with the bytes of parts.
fn with_parts(count: u64, parts: &Option<Vec<Vec<u8>>>) -> u64
    ensures { result ≡ counted count (handed_parts parts.now) }
{
    match parts {
        Some(parts) => with_lengths(count, parts.as_slice()),
        None => count,
    }
}

// All keys of slices, in the order of their bytes.
fn keys_of(alloc: Global, slices: &Slices) -> Result<Vec<StoreKey>, StorageError>
    ensures keys { IfOk result (λ keys. ListsSlices slices.now keys.items) }
    ensures memory { IfErr result (λ e. e ≡ OutOfMemory) }
{
    let mut keys = Vec::with_capacity(alloc, slices.len())?;
    for key in slices.keys() {
        keys.push(key.try_clone(alloc)?)?;
    }
    Ok(keys)
}

/// A store whose keys hold slices of the values of another store, its base, which it is lent.
///
/// It is read: a writing call fails, raises the count of faults and changes nothing. It has counts of reading calls and
/// of bytes handed out of its own, which begin at 0; its count of faults is the base's and its own together.
#[derive(Drop)]
pub struct RefStore<'s, S: Store> {
    pub(crate) base: &'s mut S,
    pub(crate) slices: Slices,
    pub(crate) own_faults: u64,
    pub(crate) asks: u64,
    pub(crate) taken: u64,
    ghost within: { (key : List ℕ) →
        is_slice_within (S.shown base.now).content (slice_at slices key) ≡ true },
}

impl<'s, S: Store> RefStore<'s, S> {
    ghost use Rattle.std.specs.Prelude.{◌≤◌, OnOk, length};
    ghost use Rattle.zarr_refs.specs.References.{first_repeated, unfit, IsRefusedApart, IsAsked};
    ghost use Rattle.zarr_refs.specs.Slices.{sliced};
    ghost use Rattle.zarr_refs.specs.Over.{over_shown};
    ghost use Rattle.zarr_refs.specs.Lent.{over_of};

    /// The slices over their base, all of which lie in it.
    pub fn over(base: &'s mut S, slices: Slices) -> Self
        requires { (key : List ℕ) →
            is_slice_within (S.shown base.old).content (slice_at slices key) ≡ true }
        ensures same_reference { result.base.ghost_name ≡ base.entry.ghost_name }
        ensures base { result.base.now ≡ base.old }
        ensures slices { result.slices ≡ slices }
        ensures counts { (result.own_faults ≡ 0) × ((result.asks ≡ 0) × (result.taken ≡ 0)) }
    {
        RefStore {
            base,
            slices,
            own_faults: 0,
            asks: 0,
            taken: 0,
        }
    }

    /// The references over their base, which is asked for the size of a value once for each. Its content stays as it
    /// was.
    ///
    /// # Errors
    /// [`RefError::RepeatedKey`] exactly for the first reference whose key an earlier one has, before the base is
    /// asked; [`RefError::MissingBase`] or [`RefError::SliceOutOfBounds`] exactly for the first one whose base is
    /// absent, or that ends past its base's value; [`RefError::Store`] where the base fails, or
    /// [`RefError::OutOfMemory`].
    pub fn new(alloc: Global, base: &'s mut S, references: Vec<Reference>) -> Result<Self, RefError>
        ensures same_reference { IfOk result (λ store.
            store.base.ghost_name ≡ base.entry.ghost_name) }
        ensures content { IfOk result (λ store.
            SameContent (S.shown base.old) (S.shown store.base.now)) }
        ensures asked { IfOk result (λ store. IsAsked (length references.items)
            (S.shown base.old) (S.shown store.base.now)) }
        ensures sliced { IfOk result (λ store. (key : List ℕ) →
            (over_shown (over_of S.Store store)).content key
            ≡ sliced references.items (S.shown base.old).content key) }
        ensures later { IfOk result (λ store.
            (S.shown base.old).faults ≤ (S.shown store.base.now).faults) }
        ensures counts { IfOk result (λ store.
            (store.own_faults ≡ 0) × ((store.asks ≡ 0) × (store.taken ≡ 0))) }
        ensures apart { IfErr result (IsRefusedApart references.items (S.shown base.old).content) }
        ensures made { OnOk result ((first_repeated references.items ≡ None)
            × (unfit (S.shown base.old).content references.items ≡ None)) }
    {
        let slices = slices_in(alloc, base, &references)?;
        Ok(RefStore::over(base, slices))
    }

    /// The base again.
    pub fn into_base(self) -> &'s mut S
        ensures same_reference { result.ghost_name ≡ self.entry.base.ghost_name }
        ensures value { result.now ≡ self.entry.base.now }
    {
        let RefStore {
            base,
            slices: _,
            own_faults: _,
            asks: _,
            taken: _,
        } = self;
        base
    }
}

impl<S: Store> Store for RefStore<'_, S> {
    ghost use Rattle.std.specs.Prelude.{false};
    ghost use Rattle.std.proofs.Common.{ap};
    ghost use Rattle.zarrs_storage.specs.Calls.{capped_count, count_of-fits};
    ghost use Rattle.zarr_refs.specs.Over.{over_shown};
    ghost use Rattle.zarr_refs.specs.Lent.{over_of};
    ghost use Rattle.zarr_refs.specs.Kept.{KeepsOver, keeps_self, keeps_twice};

    ghost shown = { λ s. over_shown (over_of S.Store s) };

    ghost kept = { λ a b. KeepsOver (over_of S.Store a) (over_of S.Store b) };

    ghost gets_parts = { λ s. S.gets_parts s.base.now };

    ghost sets_parts = { λ _. false };

    fn get(&mut self, alloc: Global, key: &StoreKey) -> Result<Option<Vec<u8>>, StorageError> {
        self.asks = self.asks.saturating_add(1);
        let Some(slice) = self.slices.get(key) else {
            return Ok(None);
        };
        match read_slice(alloc, self.base, slice) {
            Ok(value) => {
                self.taken = with_value(self.taken, &value);
                Ok(value)
            }
            Err(error) => Err(error),
        }
    }

    fn get_partial_many(
        &mut self,
        alloc: Global,
        key: &StoreKey,
        ranges: &[ByteRange],
    ) -> Result<Option<Vec<Vec<u8>>>, StorageError> {
        self.asks = self.asks.saturating_add(1);
        let Some(slice) = self.slices.get(key) else {
            return Ok(None);
        };
        match read_parts(alloc, self.base, slice, ranges) {
            Ok(parts) => {
                self.taken = with_parts(self.taken, &parts);
                Ok(parts)
            }
            Err(error) => Err(error),
        }
    }

    fn size_key(&mut self, key: &StoreKey) -> Result<Option<u64>, StorageError> {
        self.asks = self.asks.saturating_add(1);
        match self.slices.get(key) {
            Some(slice) => Ok(Some(slice.length)),
            None => Ok(None),
        }
    }

    fn list(&mut self, alloc: Global) -> Result<Vec<StoreKey>, StorageError> {
        self.asks = self.asks.saturating_add(1);
        keys_of(alloc, &self.slices)
    }

    fn set(&mut self, _alloc: Global, _key: &StoreKey, _value: &[u8]) -> Result<(), StorageError> {
        self.own_faults = self.own_faults.saturating_add(1);
        Err(StorageError::Failed)
    }

    fn set_partial_many(
        &mut self,
        _alloc: Global,
        _key: &StoreKey,
        _parts: &[OffsetBytes],
    ) -> Result<(), StorageError> {
        self.own_faults = self.own_faults.saturating_add(1);
        Err(StorageError::Failed)
    }

    fn erase(&mut self, _key: &StoreKey) -> Result<(), StorageError> {
        self.own_faults = self.own_faults.saturating_add(1);
        Err(StorageError::Failed)
    }

    fn supports_get_partial(&self) -> bool {
        self.base.supports_get_partial()
    }

    fn supports_set_partial(&self) -> bool {
        false
    }

    fn faults(&self) -> u64 {
        self.base.faults().saturating_add(self.own_faults)
    }

    fn asks(&self) -> u64 {
        self.asks
    }

    fn taken(&self) -> u64 {
        self.taken
    }

    fn puts(&self) -> u64 {
        self.own_faults
    }

    ghost counts_fit = { λ s. (
      count_of-fits ((S.shown s.base.now).faults + s.own_faults),
      count_of-fits s.asks,
      count_of-fits s.taken,
      count_of-fits s.own_faults,
    ) };

    ghost kept_puts = { λ _ _ keeps. ap capped_count keeps.same_faults };

    ghost kept_self = { λ _. keeps_self };

    ghost kept_twice = { λ _ _ _. keeps_twice };
}
