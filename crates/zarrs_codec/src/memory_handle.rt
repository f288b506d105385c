//! A value in memory, read and written.

ghost use Rattle.std.specs.Prelude.{◌≡◌, option_map};
ghost use Rattle.zarrs_storage.specs.Store.{value_bytes};

use crate::{BytesPartialDecoderTraits, BytesPartialEncoderTraits};
use std::alloc::Global;
use zarrs_codec_error::{CodecError, CodecOptions};
use zarrs_codec_traits::parts_in_memory;
use zarrs_storage::{ByteRange, OffsetBytes, StorageError, put_parts};

/// A value in memory, or none.
#[derive(Debug, Drop)]
pub struct MemoryHandle {
    value: Option<Vec<u8>>,
}

impl MemoryHandle {
    /// A handle that holds this value, or none.
    pub fn new(value: Option<Vec<u8>>) -> Self
        ensures { value_bytes result.value ≡ value_bytes value }
    {
        MemoryHandle { value }
    }

    /// The value that it holds, if it holds one.
    pub fn value(&self) -> Option<&[u8]>
        ensures { option_map (λ v. v.now) result ≡ value_bytes self.now.value }
    {
        match &self.value {
            Some(value) => Some(value.as_slice()),
            None => None,
        }
    }
}

impl BytesPartialDecoderTraits for MemoryHandle {
    ghost use Rattle.std.specs.Prelude.{true, None};
    ghost use Rattle.zarrs_codec_traits.specs.Held.{in_memory};
    ghost use Rattle.zarrs_codec_traits.specs.Reads.{TellsRangeOf};
    ghost use Rattle.zarrs_codec.specs.Ranges.{value_no_fault};
    ghost use Rattle.zarrs_codec_traits.proofs.PartLaws.{sound_memory};

    ghost seen = { λ h. in_memory (value_bytes h.value) };

    ghost tells = { λ h under asked e. TellsRangeOf asked (value_bytes h.value) e };

    ghost same = { λ a b. Unit {0} };

    ghost same_self = { λ h. tt };

    ghost same_twice = { λ a b c x y. tt };

    ghost early = { λ h asked. None };

    ghost reads_parts = { λ h. true };

    ghost no_fault = { λ h under asked e told. value_no_fault asked (value_bytes h.value)
        e told };

    ghost sound = { λ h. sound_memory (value_bytes h.value) };

    fn faults(&self) -> u64 {
        0
    }

    fn exists(&mut self) -> Result<bool, StorageError> {
        Ok(self.value.is_some())
    }

    fn size_held(&self) -> usize {
        match &self.value {
            Some(value) => value.len(),
            None => 0,
        }
    }

    fn supports_partial_decode(&self) -> bool {
        true
    }

    fn partial_decode_many(
        &mut self,
        alloc: Global,
        decoded_regions: &[ByteRange],
        _options: &CodecOptions,
    ) -> Result<Option<Vec<Vec<u8>>>, CodecError> {
        match &self.value {
            Some(value) => match parts_in_memory(alloc, value, decoded_regions) {
                Ok(parts) => Ok(Some(parts)),
                Err(error) => Err(error),
            },
            None => Ok(None),
        }
    }

    fn decode(
        &mut self,
        alloc: Global,
        _options: &CodecOptions,
    ) -> Result<Option<Vec<u8>>, CodecError> {
        match &self.value {
            Some(value) => {
                let copy = Vec::from_slice(alloc, value)?;
                Ok(Some(copy))
            }
            None => Ok(None),
        }
    }
}

impl BytesPartialEncoderTraits for MemoryHandle {
    ghost use Rattle.std.specs.Prelude.{true, false};

    ghost writes_parts = { λ h. true };

    ghost rereads = { λ h. false };

    fn erase(&mut self) -> Result<(), CodecError> {
        self.value = None;
        Ok(())
    }

    fn supports_partial_encode(&self) -> bool {
        true
    }

    fn partial_encode_many(
        &mut self,
        alloc: Global,
        offset_values: &[OffsetBytes],
        _options: &CodecOptions,
    ) -> Result<(), CodecError> {
        let mut value = Vec::new(alloc);
        if let Some(old) = &self.value {
            value.extend_from_slice(old)?;
        }
        put_parts(&mut value, offset_values)?;
        self.value = Some(value);
        Ok(())
    }

    fn replace(
        &mut self,
        alloc: Global,
        bytes: &[u8],
        _options: &CodecOptions,
    ) -> Result<(), CodecError> {
        let value = Vec::from_slice(alloc, bytes)?;
        self.value = Some(value);
        Ok(())
    }
}
