//! The value under a key of a store, read and written.

ghost use Rattle.std.specs.Prelude.{◌≡◌};

use crate::storage_partial_decoder::StoragePartialDecoder;
use crate::{BytesPartialDecoderTraits, BytesPartialEncoderTraits};
use std::alloc::Global;
use zarrs_codec_error::{CodecError, CodecOptions};
use zarrs_storage::{ByteRange, OffsetBytes, StorageError, Store, StoreKey};

/// The value under one key of a store, which is read and written.
#[derive(Drop)]
pub struct StoragePartialEncoder<'s, S> {
    decoder: StoragePartialDecoder<'s, S>,
}

impl<'s, S: Store> StoragePartialEncoder<'s, S> {
    /// The value under this key.
    pub fn new(storage: &'s mut S, key: StoreKey) -> Self
        ensures same_reference { result.decoder.storage.ghost_name ≡ storage.entry.ghost_name }
        ensures value { result.decoder.storage.now ≡ storage.old }
        ensures key { result.decoder.key ≡ key }
    {
        StoragePartialEncoder {
            decoder: StoragePartialDecoder::new(storage, key),
        }
    }

    /// The store again.
    pub fn into_storage(self) -> &'s mut S
        ensures same_reference { result.ghost_name ≡ self.entry.decoder.storage.ghost_name }
        ensures value { result.now ≡ self.entry.decoder.storage.now }
    {
        self.decoder.into_storage()
    }
}

impl<'s, S: Store> BytesPartialDecoderTraits for StoragePartialEncoder<'s, S> {
    ghost use Rattle.zarrs_codec.specs.Ranges.{value_no_fault};
    ghost use Rattle.zarrs_codec.specs.Stored.{stored_sound};

    ghost seen = { λ h. ⟦<StoragePartialDecoder<'s, S> as BytesPartialDecoderTraits>⟧.seen
        h.decoder };

    ghost tells = { λ h. ⟦<StoragePartialDecoder<'s, S> as BytesPartialDecoderTraits>⟧.tells
        h.decoder };

    ghost same = { λ a b. ⟦<StoragePartialDecoder<'s, S> as BytesPartialDecoderTraits>⟧.same
        a.decoder b.decoder };

    ghost same_self = { λ h. tt };

    ghost same_twice = { λ a b c x y. tt };

    ghost early = { λ h. ⟦<StoragePartialDecoder<'s, S> as BytesPartialDecoderTraits>⟧.early
        h.decoder };

    ghost reads_parts = { λ h.
        ⟦<StoragePartialDecoder<'s, S> as BytesPartialDecoderTraits>⟧.reads_parts h.decoder };

    ghost no_fault = { λ h under asked e told. value_no_fault asked
        ((S.shown h.decoder.storage.now).content h.decoder.key) e told };

    ghost sound = { λ h. stored_sound h.decoder.storage.ghost_name h.decoder.key
        (S.shown h.decoder.storage.now) };

    fn faults(&self) -> u64 {
        self.decoder.faults()
    }

    fn exists(&mut self) -> Result<bool, StorageError> {
        self.decoder.exists()
    }

    fn size_held(&self) -> usize {
        self.decoder.size_held()
    }

    fn supports_partial_decode(&self) -> bool {
        self.decoder.supports_partial_decode()
    }

    fn partial_decode_many(
        &mut self,
        alloc: Global,
        decoded_regions: &[ByteRange],
        options: &CodecOptions,
    ) -> Result<Option<Vec<Vec<u8>>>, CodecError> {
        self.decoder
            .partial_decode_many(alloc, decoded_regions, options)
    }

    fn decode(
        &mut self,
        alloc: Global,
        options: &CodecOptions,
    ) -> Result<Option<Vec<u8>>, CodecError> {
        self.decoder.decode(alloc, options)
    }
}

impl<S: Store> BytesPartialEncoderTraits for StoragePartialEncoder<'_, S> {
    ghost use Rattle.std.specs.Prelude.{false};

    ghost writes_parts = { λ h. S.sets_parts h.decoder.storage.now };

    ghost rereads = { λ h. false };

    fn erase(&mut self) -> Result<(), CodecError> {
        let decoder = &mut self.decoder;
        match decoder.storage.erase(&decoder.key) {
            Ok(()) => Ok(()),
            Err(error) => Err(CodecError::from(error)),
        }
    }

    fn supports_partial_encode(&self) -> bool {
        self.decoder.storage.supports_set_partial()
    }

    fn partial_encode_many(
        &mut self,
        alloc: Global,
        offset_values: &[OffsetBytes],
        _options: &CodecOptions,
    ) -> Result<(), CodecError> {
        let decoder = &mut self.decoder;
        match decoder
            .storage
            .set_partial_many(alloc, &decoder.key, offset_values)
        {
            Ok(()) => Ok(()),
            Err(error) => Err(CodecError::from(error)),
        }
    }

    fn replace(
        &mut self,
        alloc: Global,
        bytes: &[u8],
        _options: &CodecOptions,
    ) -> Result<(), CodecError> {
        let decoder = &mut self.decoder;
        match decoder.storage.set(alloc, &decoder.key, bytes) {
            Ok(()) => Ok(()),
            Err(error) => Err(CodecError::from(error)),
        }
    }
}
