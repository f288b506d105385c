//! Bytes in memory, as handles.

ghost use Rattle.std.specs.Cow.{cow_slice_items};

use crate::bytes_partial_decoder::BytesPartialDecoderTraits;
use std::alloc::Global;
use std::borrow::CowSlice;
use zarrs_codec_array_bytes::array_bytes::bytes_in;
use zarrs_codec_error::{CodecError, CodecOptions};
use zarrs_codec_traits::parts_in_memory;
use zarrs_storage::{ByteRange, StorageError};

impl BytesPartialDecoderTraits for Vec<u8> {
    ghost use Rattle.std.specs.Prelude.{true, Some, None};
    ghost use Rattle.zarrs_codec_traits.specs.Held.{in_memory};
    ghost use Rattle.zarrs_codec_traits.specs.Reads.{TellsRangeOf};
    ghost use Rattle.zarrs_codec_traits.proofs.PartLaws.{sound_memory};
    ghost use Rattle.zarrs_codec.specs.Ranges.{value_no_fault};

    ghost seen = { λ v. in_memory (Some v.items) };

    ghost tells = { λ v under asked e. TellsRangeOf asked (Some v.items) e };

    ghost same = { λ a b. Unit {0} };

    ghost same_self = { λ h. tt };

    ghost same_twice = { λ a b c x y. tt };

    ghost early = { λ h asked. None };

    ghost reads_parts = { λ v. true };

    ghost no_fault = { λ v under asked e told. value_no_fault asked (Some v.items) e told };

    ghost sound = { λ v. sound_memory (Some v.items) };

    fn faults(&self) -> u64 {
        0
    }

    fn exists(&mut self) -> Result<bool, StorageError> {
        Ok(true)
    }

    fn size_held(&self) -> usize {
        self.len()
    }

    fn supports_partial_decode(&self) -> bool {
        true
    }

    fn partial_decode_many(
        &mut self,
        alloc: Global,
        decoded_regions: &[ByteRange],
        _options: &CodecOptions,
    ) -> Result<Option<Vec<Vec<u8>>>, CodecError> {
        match parts_in_memory(alloc, self, decoded_regions) {
            Ok(parts) => Ok(Some(parts)),
            Err(error) => Err(error),
        }
    }

    fn decode(
        &mut self,
        alloc: Global,
        _options: &CodecOptions,
    ) -> Result<Option<Vec<u8>>, CodecError> {
        let value = Vec::from_slice(alloc, self)?;
        Ok(Some(value))
    }
}

impl BytesPartialDecoderTraits for CowSlice<'_, u8> {
    ghost use Rattle.std.specs.Prelude.{true, Some, None};
    ghost use Rattle.zarrs_codec_traits.specs.Held.{in_memory};
    ghost use Rattle.zarrs_codec_traits.specs.Reads.{TellsRangeOf};
    ghost use Rattle.zarrs_codec_traits.proofs.PartLaws.{sound_memory};
    ghost use Rattle.zarrs_codec.specs.Ranges.{value_no_fault};

    ghost seen = { λ v. in_memory (Some (cow_slice_items v)) };

    ghost tells = { λ v under asked e. TellsRangeOf asked (Some (cow_slice_items v)) e };

    ghost same = { λ a b. Unit {0} };

    ghost same_self = { λ h. tt };

    ghost same_twice = { λ a b c x y. tt };

    ghost early = { λ h asked. None };

    ghost reads_parts = { λ v. true };

    ghost no_fault = { λ v under asked e told. value_no_fault asked
        (Some (cow_slice_items v)) e told };

    ghost sound = { λ v. sound_memory (Some (cow_slice_items v)) };

    fn faults(&self) -> u64 {
        0
    }

    fn exists(&mut self) -> Result<bool, StorageError> {
        Ok(true)
    }

    fn size_held(&self) -> usize {
        bytes_in(self).len()
    }

    fn supports_partial_decode(&self) -> bool {
        true
    }

    fn partial_decode_many(
        &mut self,
        alloc: Global,
        decoded_regions: &[ByteRange],
        _options: &CodecOptions,
    ) -> Result<Option<Vec<Vec<u8>>>, CodecError> {
        match parts_in_memory(alloc, bytes_in(self), decoded_regions) {
            Ok(parts) => Ok(Some(parts)),
            Err(error) => Err(error),
        }
    }

    fn decode(
        &mut self,
        alloc: Global,
        _options: &CodecOptions,
    ) -> Result<Option<Vec<u8>>, CodecError> {
        let value = Vec::from_slice(alloc, bytes_in(self))?;
        Ok(Some(value))
    }
}
