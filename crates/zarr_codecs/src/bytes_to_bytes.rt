//! The bytes-to-bytes codecs of this project as one type.

ghost use Rattle.std.specs.Prelude.{◌≡◌, Ok};
ghost use Rattle.zarr_codecs.specs.BytesToBytes.{byte_form};

use std::alloc::{AllocError, Global};
use zarr_codecs_to_bytes::Sha256Codec;
use zarrs_codec_error::{
    BytesRepresentation, CodecError, CodecMetadataOptions, CodecOptions, PartialDecoderCapability,
    PartialEncoderCapability, RecommendedConcurrency,
};
use zarrs_codec_traits::{BytesToBytesCodecTraits, CodecTraits};
use zarrs_metadata_parts::Configuration;
use zarrs_plugin::{ExtensionName, ZarrVersion};

/// A bytes-to-bytes codec of this project.
#[derive(Clone, Copy, Debug)]
pub enum BasicBytesToBytes {
    /// A value with its digest behind it.
    Sha256(Sha256Codec),
}

impl BasicBytesToBytes {
    /// A copy.
    ///
    /// # Errors
    /// None: no memory is needed.
    pub fn try_clone(&self, _alloc: Global) -> Result<Self, AllocError>
        ensures { result ≡ Ok self.now }
    {
        Ok(*self)
    }
}

impl ExtensionName for BasicBytesToBytes {
    ghost use Rattle.std.specs.Prelude.{Some};
    ghost use Rattle.zarr_codecs.specs.BytesToBytes.{byte_name_by};

    ghost name_in = { λ c _. Some (byte_name_by (byte_form c)) };

    fn name(&self, alloc: Global, version: ZarrVersion) -> Result<Option<String>, AllocError> {
        match self {
            BasicBytesToBytes::Sha256(codec) => codec.name(alloc, version),
        }
    }
}

impl CodecTraits for BasicBytesToBytes {
    ghost use Rattle.std.specs.Prelude.{Some, false};
    ghost use Rattle.zarr_codecs.specs.BytesToBytes.{byte_members_by};

    ghost written = { λ c _ _. Some (byte_members_by (byte_form c)) };

    ghost decodes_parts = { λ _. record { partial_read = false; partial_decode = false } };

    ghost encodes_parts = { λ _. record { partial_encode = false } };

    fn configuration(
        &self,
        alloc: Global,
        version: ZarrVersion,
        options: &CodecMetadataOptions,
    ) -> Result<Option<Configuration>, AllocError> {
        match self {
            BasicBytesToBytes::Sha256(codec) => codec.configuration(alloc, version, options),
        }
    }

    fn partial_decoder_capability(&self) -> PartialDecoderCapability {
        match self {
            BasicBytesToBytes::Sha256(codec) => codec.partial_decoder_capability(),
        }
    }

    fn partial_encoder_capability(&self) -> PartialEncoderCapability {
        match self {
            BasicBytesToBytes::Sha256(codec) => codec.partial_encoder_capability(),
        }
    }
}

impl BytesToBytesCodecTraits for BasicBytesToBytes {
    ghost use Rattle.zarr_codecs.specs.BytesToBytes.{byte_codec_of, byte_says_by, byte_no_fault, byte_size_by};

    ghost meaning = { λ c under value. byte_codec_of under (byte_form c) value };

    ghost says = { λ c _ value e. byte_says_by (byte_form c) value e };

    ghost no_fault = { λ c _ value e told. byte_no_fault (byte_form c) value e told };

    ghost representation = { λ c size. byte_size_by (byte_form c) size };

    ghost concurrency = { λ _ _. record { minimum = 1; maximum = 1 } };

    fn recommended_concurrency(
        &self,
        decoded_representation: &BytesRepresentation,
    ) -> Result<RecommendedConcurrency, CodecError> {
        match self {
            BasicBytesToBytes::Sha256(codec) => codec.recommended_concurrency(
                decoded_representation,
            ),
        }
    }

    fn encoded_representation(
        &self,
        decoded_representation: &BytesRepresentation,
    ) -> BytesRepresentation {
        match self {
            BasicBytesToBytes::Sha256(codec) => codec.encoded_representation(
                decoded_representation,
            ),
        }
    }

    fn encode(
        &self,
        alloc: Global,
        decoded_value: Vec<u8>,
        options: &CodecOptions,
    ) -> Result<Vec<u8>, CodecError> {
        match self {
            BasicBytesToBytes::Sha256(codec) => codec.encode(alloc, decoded_value, options),
        }
    }

    fn decode(
        &self,
        alloc: Global,
        encoded_value: Vec<u8>,
        decoded_representation: &BytesRepresentation,
        options: &CodecOptions,
    ) -> Result<Vec<u8>, CodecError> {
        match self {
            BasicBytesToBytes::Sha256(codec) => codec.decode(
                alloc,
                encoded_value,
                decoded_representation,
                options,
            ),
        }
    }
}
