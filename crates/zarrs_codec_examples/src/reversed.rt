//! A codec that turns bytes round.

ghost use Rattle.std.specs.Prelude.{◌≡◌, reverse as turned};

use std::alloc::{AllocError, Global};
use zarrs_codec_error::{
    BytesRepresentation, CodecError, CodecMetadataOptions, CodecOptions, PartialDecoderCapability,
    PartialEncoderCapability, RecommendedConcurrency,
};
use zarrs_codec_traits::{BytesToBytesCodecTraits, CodecTraits};
use zarrs_metadata_parts::Configuration;
use zarrs_plugin::{ExtensionName, ZarrVersion};

/// A codec whose encoded bytes are the decoded ones, the last one first.
#[derive(Clone, Copy, Debug)]
pub struct ReversedCodec;

fn reversed(value: Vec<u8>) -> Vec<u8>
    ensures { result.items ≡ turned value.items }
{
    let mut value = value;
    value.as_mut_slice().reverse();
    value
}

impl ExtensionName for ReversedCodec {
    ghost use Rattle.std.specs.Prelude.{None};

    ghost name_in = { λ _ _. None };

    fn name(&self, _alloc: Global, _version: ZarrVersion) -> Result<Option<String>, AllocError> {
        Ok(None)
    }
}

impl CodecTraits for ReversedCodec {
    ghost use Rattle.std.specs.Prelude.{None, true};

    ghost written = { λ _ _ _. None };

    ghost decodes_parts = { λ _. record { partial_read = true; partial_decode = true } };

    ghost encodes_parts = { λ _. record { partial_encode = true } };

    fn configuration(
        &self,
        _alloc: Global,
        _version: ZarrVersion,
        _options: &CodecMetadataOptions,
    ) -> Result<Option<Configuration>, AllocError> {
        Ok(None)
    }

    fn partial_decoder_capability(&self) -> PartialDecoderCapability {
        PartialDecoderCapability {
            partial_read: true,
            partial_decode: true,
        }
    }

    fn partial_encoder_capability(&self) -> PartialEncoderCapability {
        PartialEncoderCapability {
            partial_encode: true,
        }
    }
}

impl BytesToBytesCodecTraits for ReversedCodec {
    ghost use Rattle.std.specs.Prelude.{Some};
    ghost use Rattle.zarrs_codec_error.specs.RecommendedConcurrency.{concurrency_of};
    ghost use Rattle.std.specs.declared.ops.Bound.TheVariants.{Included};

    ghost meaning = { λ _ under value. Some (turned value) };

    ghost says = { λ _ _ value e. ⊥ };

    ghost no_fault = { λ _ _ value e told. absurd told };

    ghost representation = { λ _ r. r };

    ghost concurrency = { λ _ _. concurrency_of (Included 1) (Included 1) };

    fn recommended_concurrency(
        &self,
        _decoded_representation: &BytesRepresentation,
    ) -> Result<RecommendedConcurrency, CodecError> {
        Ok(RecommendedConcurrency::new(1..=1))
    }

    fn encoded_representation(
        &self,
        decoded_representation: &BytesRepresentation,
    ) -> BytesRepresentation {
        *decoded_representation
    }

    #[tactic(auto, using(crate::proofs::TurnLaws::turned_twice))]
    fn encode(
        &self,
        _alloc: Global,
        decoded_value: Vec<u8>,
        _options: &CodecOptions,
    ) -> Result<Vec<u8>, CodecError> {
        Ok(reversed(decoded_value))
    }

    fn decode(
        &self,
        _alloc: Global,
        encoded_value: Vec<u8>,
        _decoded_representation: &BytesRepresentation,
        _options: &CodecOptions,
    ) -> Result<Vec<u8>, CodecError> {
        Ok(reversed(encoded_value))
    }
}
