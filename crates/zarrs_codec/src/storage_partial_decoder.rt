//! The value under a key of a store, read.

ghost use Rattle.std.specs.Prelude.{◌≡◌};

use crate::BytesPartialDecoderTraits;
use std::alloc::Global;
use zarrs_codec_error::{CodecError, CodecOptions};
use zarrs_storage::{ByteRange, StorageError, Store, StoreKey};

/// The value under one key of a store, which is read.
#[derive(Drop)]
pub struct StoragePartialDecoder<'s, S> {
    pub(crate) storage: &'s mut S,
    pub(crate) key: StoreKey,
}

impl<'s, S: Store> StoragePartialDecoder<'s, S> {
    /// The value under this key.
    pub fn new(storage: &'s mut S, key: StoreKey) -> Self
        ensures same_reference { result.storage.ghost_name ≡ storage.entry.ghost_name }
        ensures value { result.storage.now ≡ storage.old }
        ensures key { result.key ≡ key }
    {
        StoragePartialDecoder { storage, key }
    }

    /// The store again.
    pub fn into_storage(self) -> &'s mut S
        ensures same_reference { result.ghost_name ≡ self.entry.storage.ghost_name }
        ensures value { result.now ≡ self.entry.storage.now }
    {
        let StoragePartialDecoder { storage, key: _ } = self;
        storage
    }
}

impl<S: Store> BytesPartialDecoderTraits for StoragePartialDecoder<'_, S> {
    ghost use Rattle.std.specs.Prelude.{None};
    ghost use Rattle.zarrs_codec_traits.specs.Reads.{TellsRangeOf};
    ghost use Rattle.zarrs_codec.specs.Ranges.{value_no_fault};
    ghost use Rattle.zarrs_codec.specs.Stored.{stored, stored_sound};

    ghost seen = { λ h. stored h.storage.ghost_name h.key (S.shown h.storage.now) };

    ghost tells = { λ h under asked e. TellsRangeOf asked
        ((S.shown h.storage.now).content h.key) e };

    ghost same = { λ a b. Unit {0} };

    ghost same_self = { λ h. tt };

    ghost same_twice = { λ a b c x y. tt };

    ghost early = { λ h asked. None };

    ghost reads_parts = { λ h. S.gets_parts h.storage.now };

    ghost no_fault = { λ h under asked e told. value_no_fault asked
        ((S.shown h.storage.now).content h.key) e told };

    ghost sound = { λ h. stored_sound h.storage.ghost_name h.key (S.shown h.storage.now) };

    fn faults(&self) -> u64 {
        self.storage.faults()
    }

    #[tactic(auto, using(crate::proofs::StoredLaws::told_stored))]
    fn exists(&mut self) -> Result<bool, StorageError> {
        match self.storage.size_key(&self.key) {
            Ok(size) => Ok(size.is_some()),
            Err(error) => Err(error),
        }
    }

    fn size_held(&self) -> usize {
        0
    }

    fn supports_partial_decode(&self) -> bool {
        self.storage.supports_get_partial()
    }

    #[tactic(auto, using(crate::proofs::StoredLaws::told_stored))]
    fn partial_decode_many(
        &mut self,
        alloc: Global,
        decoded_regions: &[ByteRange],
        _options: &CodecOptions,
    ) -> Result<Option<Vec<Vec<u8>>>, CodecError> {
        match self
            .storage
            .get_partial_many(alloc, &self.key, decoded_regions)
        {
            Ok(parts) => Ok(parts),
            Err(error) => Err(CodecError::from(error)),
        }
    }

    #[tactic(auto, using(crate::proofs::StoredLaws::told_stored))]
    fn decode(
        &mut self,
        alloc: Global,
        _options: &CodecOptions,
    ) -> Result<Option<Vec<u8>>, CodecError> {
        match self.storage.get(alloc, &self.key) {
            Ok(value) => Ok(value),
            Err(error) => Err(CodecError::from(error)),
        }
    }
}
