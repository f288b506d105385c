//! What a bytes-to-bytes codec makes of the value that a handle holds.

ghost use Rattle.std.specs.Prelude.{◌≡◌, List, Option, Some, None, IfOk, IfErr};
ghost use Rattle.zarrs_codec_traits.specs.Prelude.{Options, value_bytes, options_of};
ghost use Rattle.zarrs_storage.specs.declared.byte_range.ByteRange.{ByteRange};
ghost use Rattle.zarrs_storage.specs.Parts.{PartsFit, held_bytes, with_parts};
ghost use Rattle.zarrs_codec_error.specs.declared.error.CodecError.{CodecError};
ghost use Rattle.zarrs_codec_error.specs.declared.error.CodecError.TheVariants as codec;
ghost use Rattle.zarrs_codec_traits.specs.Reads.{ReadsRanges, IsHandleError, IsReadError, RefusesFirst};
ghost use Rattle.zarrs_codec_traits.specs.Writes.{Writes, ToldAfter, Unasked};
ghost use Rattle.zarrs_codec_traits.specs.Through.{through, through_says, decoded_through};

use crate::{BytesPartialDecoderTraits, BytesPartialEncoderTraits};
use std::alloc::{AllocError, Global};
use zarrs_codec_error::{BytesRepresentation, CodecError, CodecOptions};
use zarrs_codec_traits::{BytesToBytesCodecTraits, parts_in_memory};
use zarrs_storage::{ByteRange, OffsetBytes, StorageError, put_parts};

/// The value that a handle's value decodes to, by a bytes-to-bytes codec: each read decodes all of it, and each write
/// encodes all of it.
#[derive(Drop)]
pub struct BytesToBytesCodecPartialDefault<H, C> {
    handle: H,
    decoded_representation: BytesRepresentation,
    codec: C,
}

// A value with parts put in, an absent one counting as empty.
fn with_parts_put(
    alloc: Global,
    value: Option<Vec<u8>>,
    parts: &[OffsetBytes],
) -> Result<Vec<u8>, CodecError>
    requires { PartsFit parts.now }
    ensures value { IfOk result
        (λ v. v.items ≡ with_parts parts.now (held_bytes (value_bytes value))) }
    ensures memory { IfErr result (λ e. e ≡ codec.OutOfMemory) }
{
    let mut bytes = match value {
        Some(bytes) => bytes,
        None => Vec::new(alloc),
    };
    put_parts(&mut bytes, parts)?;
    Ok(bytes)
}

// A copy of the bytes.
fn copied(alloc: Global, bytes: &[u8]) -> Result<Vec<u8>, AllocError>
    ensures { IfOk result (λ v. v.items ≡ bytes.now) }
{
    Vec::from_slice(alloc, bytes)
}

impl<H, C> BytesToBytesCodecPartialDefault<H, C> {
    /// The handle's value through the codec.
    pub fn new_bytes(handle: H, decoded_representation: BytesRepresentation, codec: C) -> Self
        ensures handle { result.handle ≡ handle }
        ensures codec { result.codec ≡ codec }
    {
        BytesToBytesCodecPartialDefault {
            handle,
            decoded_representation,
            codec,
        }
    }

    /// The handle again.
    pub fn into_handle(self) -> H
    where
        C: Drop,
        ensures { result ≡ self.handle }
    {
        self.handle
    }
}

impl<H: BytesPartialDecoderTraits, C: BytesToBytesCodecTraits> BytesToBytesCodecPartialDefault<
    H,
    C,
> {
    // The whole value, decoded.
    #[tactic(auto, using(zarrs_codec_traits::proofs::ThroughLaws::read_told, zarrs_codec_traits::proofs::ThroughLaws::decode_told, zarrs_codec_traits::proofs::ThroughLaws::reads_ok, zarrs_codec_traits::proofs::ThroughLaws::reads_err, zarrs_codec_traits::proofs::IntervalLaws::first_ok, zarrs_codec_traits::proofs::IntervalLaws::first_err))]
    fn decode_value(
        &mut self,
        alloc: Global,
        options: &CodecOptions,
    ) -> Result<Option<Vec<u8>>, CodecError>
        ensures value { IfOk result
            (λ v. through (C.meaning self.old.codec (options_of options.now))
            ((H.seen self.old.handle).held (options_of options.now)) ≡ Some (value_bytes v)) }
        ensures cause { IfErr result (IsReadError
            (through (C.meaning self.old.codec (options_of options.now))
            ((H.seen self.old.handle).held (options_of options.now)))
            (through_says (C.meaning self.old.codec (options_of options.now))
            (C.says self.old.codec (options_of options.now))
            (H.tells self.old.handle (options_of options.now) None)
            ((H.seen self.old.handle).held (options_of options.now)) None)
            (H.seen self.old.handle).shown.faults (H.seen self.new.handle).shown.faults) }
        ensures first { RefusesFirst (H.early self.old.handle None)
            (H.seen self.old.handle).shown (H.seen self.new.handle).shown result }
        ensures reads { ReadsRanges None (H.seen self.old.handle) (H.seen self.new.handle) result }
        ensures tells { (under : Options) (asked : Option (List ByteRange)) (e : CodecError)
            → H.tells self.new.handle under asked e → H.tells self.old.handle under asked e }
        ensures same { (self.old.codec ≡ self.new.codec)
            × ((self.old.decoded_representation ≡ self.new.decoded_representation)
            × H.same self.old.handle self.new.handle) }
        ensures settings { self.new ≡ record self.old { handle = self.new.handle } }
    {
        match self.handle.decode(alloc, options) {
            Ok(Some(value)) => {
                match self
                    .codec
                    .decode(alloc, value, &self.decoded_representation, options)
                {
                    Ok(bytes) => Ok(Some(bytes)),
                    Err(error) => Err(error),
                }
            }
            Ok(None) => Ok(None),
            Err(error) => Err(error),
        }
    }
}

impl<H: BytesPartialDecoderTraits, C: BytesToBytesCodecTraits> BytesPartialDecoderTraits
    for BytesToBytesCodecPartialDefault<H, C> {
    ghost use Rattle.std.specs.Prelude.{◌&&◌};
    ghost use Rattle.std.proofs.Common.{refl, ◌∙◌};
    ghost use Rattle.zarrs_codec_traits.proofs.ThroughLaws.{decoded_sound};
    ghost use Rattle.zarrs_codec.specs.NoFault.{through_no_fault};

    ghost seen = { λ h. decoded_through (C.meaning h.codec) (H.seen h.handle) };

    ghost tells = { λ h under asked e. through_says (C.meaning h.codec under)
        (C.says h.codec under) (H.tells h.handle under None) ((H.seen h.handle).held under)
        asked e };

    ghost same = { λ a b. (a.codec ≡ b.codec)
        × ((a.decoded_representation ≡ b.decoded_representation) × H.same a.handle b.handle) };

    ghost same_self = { λ h. (refl, (refl, H.same_self h.handle)) };

    ghost same_twice = { λ a b c x y. (
      x.0 ∙ y.0,
      (
        x.1.0 ∙ y.1.0,
        H.same_twice a.handle b.handle c.handle x.1.1 y.1.1,
      ),
    ) };

    ghost early = { λ h asked. H.early h.handle None };

    ghost reads_parts = { λ h. (C.decodes_parts h.codec).partial_decode && H.reads_parts h.handle };

    ghost no_fault = { λ h under asked e told. through_no_fault (C.meaning h.codec under)
        (C.says h.codec under) (H.tells h.handle under None) ((H.seen h.handle).held under)
        asked e (λ more. H.no_fault h.handle under None e more)
        (λ value said. C.no_fault h.codec under value e said) told };

    ghost sound = { λ h. decoded_sound (C.meaning h.codec) (H.seen h.handle)
        (H.sound h.handle) };

    fn faults(&self) -> u64 {
        self.handle.faults()
    }

    #[tactic(auto, using(zarrs_codec_traits::proofs::ThroughLaws::decoded_keeps, zarrs_codec_traits::proofs::ThroughLaws::through_told))]
    fn exists(&mut self) -> Result<bool, StorageError> {
        self.handle.exists()
    }

    fn size_held(&self) -> usize {
        self.handle.size_held()
    }

    fn supports_partial_decode(&self) -> bool {
        self.codec.partial_decoder_capability().partial_decode
            && self.handle.supports_partial_decode()
    }

    #[tactic(auto, using(zarrs_codec_traits::proofs::ThroughLaws::decoded_reads, zarrs_codec_traits::proofs::ThroughLaws::through_told))]
    fn partial_decode_many(
        &mut self,
        alloc: Global,
        decoded_regions: &[ByteRange],
        options: &CodecOptions,
    ) -> Result<Option<Vec<Vec<u8>>>, CodecError> {
        match self.decode_value(alloc, options) {
            Ok(Some(value)) => match parts_in_memory(alloc, &value, decoded_regions) {
                Ok(parts) => Ok(Some(parts)),
                Err(error) => Err(error),
            },
            Ok(None) => Ok(None),
            Err(error) => Err(error),
        }
    }

    #[tactic(auto, using(zarrs_codec_traits::proofs::ThroughLaws::decoded_reads, zarrs_codec_traits::proofs::ThroughLaws::through_told))]
    fn decode(
        &mut self,
        alloc: Global,
        options: &CodecOptions,
    ) -> Result<Option<Vec<u8>>, CodecError> {
        self.decode_value(alloc, options)
    }
}

impl<H: BytesPartialEncoderTraits, C: BytesToBytesCodecTraits> BytesToBytesCodecPartialDefault<
    H,
    C,
> {
    // Makes the handle's value one that decodes to these bytes.
    #[tactic(auto, using(zarrs_codec_traits::proofs::ThroughLaws::writes_some, zarrs_codec_traits::proofs::ThroughLaws::writes_not, zarrs_codec_traits::proofs::ThroughLaws::told_replaced, zarrs_codec_traits::proofs::ThroughLaws::told_still))]
    fn replace_value(
        &mut self,
        alloc: Global,
        bytes: Vec<u8>,
        options: &CodecOptions,
    ) -> Result<(), CodecError>
        ensures writes { Writes (Some bytes.items)
            (decoded_through (C.meaning self.old.codec) (H.seen self.old.handle))
            (decoded_through (C.meaning self.old.codec) (H.seen self.new.handle)) result }
        ensures unasked { Unasked (H.seen self.old.handle) (H.seen self.new.handle) }
        ensures tells { (under : Options) (asked : Option (List ByteRange)) (e : CodecError)
            → through_says (C.meaning self.old.codec under) (C.says self.old.codec under)
            (H.tells self.new.handle under None) ((H.seen self.new.handle).held under) asked e
            → ToldAfter
            (through (C.meaning self.old.codec under) ((H.seen self.new.handle).held under)) asked
            (through_says (C.meaning self.old.codec under) (C.says self.old.codec under)
            (H.tells self.old.handle under None) ((H.seen self.old.handle).held under) asked) e }
        ensures cause { IfErr result (IsHandleError (H.seen self.old.handle).shown.faults
            (H.seen self.new.handle).shown.faults) }
        ensures same { (self.old.codec ≡ self.new.codec)
            × ((self.old.decoded_representation ≡ self.new.decoded_representation)
            × H.same self.old.handle self.new.handle) }
        ensures settings { self.new ≡ record self.old { handle = self.new.handle } }
    {
        match self.codec.encode(alloc, bytes, options) {
            Ok(encoded) => self.handle.replace(alloc, &encoded, options),
            Err(error) => Err(error),
        }
    }
}

impl<H: BytesPartialEncoderTraits, C: BytesToBytesCodecTraits> BytesPartialEncoderTraits
    for BytesToBytesCodecPartialDefault<H, C> {
    ghost use Rattle.std.specs.Prelude.{true, ◌&&◌};

    ghost writes_parts = { λ h. (C.encodes_parts h.codec).partial_encode
        && H.writes_parts h.handle };

    ghost rereads = { λ h. true };

    #[tactic(auto, using(zarrs_codec_traits::proofs::ThroughLaws::writes_none, zarrs_codec_traits::proofs::ThroughLaws::told_erased))]
    fn erase(&mut self) -> Result<(), CodecError> {
        self.handle.erase()
    }

    fn supports_partial_encode(&self) -> bool {
        self.codec.partial_encoder_capability().partial_encode
            && self.handle.supports_partial_encode()
    }

    fn partial_encode_many(
        &mut self,
        alloc: Global,
        offset_values: &[OffsetBytes],
        options: &CodecOptions,
    ) -> Result<(), CodecError> {
        match self.decode_value(alloc, options) {
            Ok(value) => match with_parts_put(alloc, value, offset_values) {
                Ok(bytes) => self.replace_value(alloc, bytes, options),
                Err(error) => Err(error),
            },
            Err(error) => Err(error),
        }
    }

    #[tactic(auto, using(zarrs_codec_traits::proofs::ThroughLaws::writes_not, zarrs_codec_traits::proofs::ThroughLaws::told_still))]
    fn replace(
        &mut self,
        alloc: Global,
        bytes: &[u8],
        options: &CodecOptions,
    ) -> Result<(), CodecError> {
        match copied(alloc, bytes) {
            Ok(copy) => self.replace_value(alloc, copy, options),
            Err(error) => Err(CodecError::from(error)),
        }
    }
}
