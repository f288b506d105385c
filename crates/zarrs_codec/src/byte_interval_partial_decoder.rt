//! An interval of the value that a handle holds.

ghost use Rattle.std.specs.Prelude.{◌≡◌, ◌+◌, ◌<◌, ◌^◌};

use crate::BytesPartialDecoderTraits;
use std::alloc::Global;
use zarrs_codec_error::{CodecError, CodecOptions};
use zarrs_storage::{ByteRange, StorageError, shift_byte_ranges};

/// The bytes of an interval of the value that a handle holds, which are a value of their own.
///
/// A range is read against the interval's length. Where the value ends within the interval, what lies before its end
/// can be read, and the interval as a whole does not decode.
#[derive(Drop)]
pub struct ByteIntervalPartialDecoder<H> {
    handle: H,
    byte_offset: u64,
    byte_length: u64,
    ghost fits: { byte_offset + byte_length < 2 ^ 64 },
}

impl<H> ByteIntervalPartialDecoder<H> {
    /// The `byte_length` bytes of the handle's value from `byte_offset` on.
    pub fn new(handle: H, byte_offset: u64, byte_length: u64) -> Self
        requires { byte_offset + byte_length < 2 ^ 64 }
        ensures handle { result.handle ≡ handle }
        ensures offset { result.byte_offset ≡ byte_offset }
        ensures length { result.byte_length ≡ byte_length }
    {
        ByteIntervalPartialDecoder {
            handle,
            byte_offset,
            byte_length,
        }
    }

    /// The handle again.
    pub fn into_handle(self) -> H
        ensures { result ≡ self.handle }
    {
        self.handle
    }
}

impl<H: BytesPartialDecoderTraits> BytesPartialDecoderTraits for ByteIntervalPartialDecoder<H> {
    ghost use Rattle.std.proofs.Common.{refl, ◌∙◌};
    ghost use Rattle.zarrs_codec_traits.specs.Interval.{interval, interval_early, interval_tells};
    ghost use Rattle.zarrs_codec_traits.proofs.IntervalLaws.{interval_sound};
    ghost use Rattle.zarrs_codec.specs.NoFault.{interval_no_fault};

    ghost seen = { λ h. interval h.byte_offset h.byte_length (H.seen h.handle) };

    ghost tells = { λ h under asked e. interval_tells h.byte_offset h.byte_length
        (H.tells h.handle under) asked e };

    ghost same = { λ a b. (a.byte_offset ≡ b.byte_offset)
        × ((a.byte_length ≡ b.byte_length) × H.same a.handle b.handle) };

    ghost same_self = { λ h. (refl, (refl, H.same_self h.handle)) };

    ghost same_twice = { λ a b c x y. (
      x.0 ∙ y.0,
      (
        x.1.0 ∙ y.1.0,
        H.same_twice a.handle b.handle c.handle x.1.1 y.1.1,
      ),
    ) };

    ghost early = { λ h. interval_early h.byte_offset h.byte_length (H.early h.handle) };

    ghost reads_parts = { λ h. H.reads_parts h.handle };

    ghost no_fault = { λ h under asked e told. interval_no_fault h.byte_offset h.byte_length
        (H.tells h.handle under) asked e (λ there more. H.no_fault h.handle under there e more)
        told };

    ghost sound = { λ h. interval_sound h.byte_offset h.byte_length (H.seen h.handle)
        (H.sound h.handle) };

    fn faults(&self) -> u64 {
        self.handle.faults()
    }

    #[tactic(auto, using(zarrs_codec_traits::proofs::IntervalLaws::interval_keeps, zarrs_codec_traits::proofs::IntervalLaws::told_below))]
    fn exists(&mut self) -> Result<bool, StorageError> {
        self.handle.exists()
    }

    fn size_held(&self) -> usize {
        self.handle.size_held()
    }

    fn supports_partial_decode(&self) -> bool {
        self.handle.supports_partial_decode()
    }

    #[tactic(auto, using(zarrs_codec_traits::proofs::IntervalLaws::interval_given, zarrs_codec_traits::proofs::IntervalLaws::interval_told, zarrs_codec_traits::proofs::IntervalLaws::shift_told, zarrs_codec_traits::proofs::IntervalLaws::first_passed, zarrs_codec_traits::proofs::IntervalLaws::interval_reads, zarrs_codec_traits::proofs::IntervalLaws::unread, zarrs_codec_traits::proofs::IntervalLaws::told_below))]
    fn partial_decode_many(
        &mut self,
        alloc: Global,
        decoded_regions: &[ByteRange],
        options: &CodecOptions,
    ) -> Result<Option<Vec<Vec<u8>>>, CodecError> {
        match shift_byte_ranges(alloc, decoded_regions, self.byte_offset, self.byte_length) {
            Ok(ranges) => self.handle.partial_decode_many(alloc, &ranges, options),
            Err(fault) => Err(CodecError::from(fault)),
        }
    }

    #[tactic(auto, using(zarrs_codec_traits::proofs::IntervalLaws::one_told, zarrs_codec_traits::proofs::IntervalLaws::interval_reads, zarrs_codec_traits::proofs::IntervalLaws::told_below))]
    fn decode(
        &mut self,
        alloc: Global,
        options: &CodecOptions,
    ) -> Result<Option<Vec<u8>>, CodecError> {
        let all = ByteRange::FromStart(self.byte_offset, Some(self.byte_length));
        self.handle.partial_decode(alloc, all, options)
    }
}
