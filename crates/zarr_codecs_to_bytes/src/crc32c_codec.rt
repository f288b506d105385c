//! The codec `crc32c`: bytes with their CRC-32C behind them.

ghost use Rattle.std.specs.Prelude.{◌≡◌, ◌≤◌, ◌++◌, ◌||◌, not, length, IfOk};
ghost use Rattle.serde_json.specs.Data.{no_members};
ghost use Rattle.zarr_codecs_to_bytes.specs.Crc32c.{crc32c_bytes, ends_in_crc32c};

use crate::checksum::crc32c;
use serde_json::Map;
use std::alloc::{AllocError, Global};
use zarrs_codec_error::{
    BytesRepresentation, CodecError, CodecMetadataOptions, CodecOptions, InvalidBytesLengthError,
    PartialDecoderCapability, PartialEncoderCapability, RecommendedConcurrency,
};
use zarrs_codec_traits::{BytesToBytesCodecTraits, CodecTraits};
use zarrs_metadata_parts::Configuration;
use zarrs_plugin::{ExtensionName, ZarrVersion};

// How many bytes the number has.
const NUMBER_LEN: usize = 4;

/// The codec `crc32c`, which puts the CRC-32C of a value behind it.
///
/// See <https://zarr-specs.readthedocs.io/en/latest/v3/codecs/crc32c/index.html>.
#[derive(Clone, Copy, Debug, Default, PartialEq, Eq)]
pub struct Crc32cCodec;

impl Crc32cCodec {
    /// The codec.
    pub fn new() -> Self {
        Crc32cCodec
    }
}

// The number of the bytes, the lowest byte first.
#[tactic(auto, using(crate::proofs::ChecksumLaws::of_number))]
fn number_bytes(bytes: &[u8]) -> [u8; 4]
    ensures { result ≡ crc32c_bytes bytes.now }
{
    crc32c(bytes).to_le_bytes()
}

/// Appends the number of the bytes, the lowest byte first.
///
/// # Errors
/// [`AllocError`] where memory runs out.
pub fn append_number(bytes: &mut Vec<u8>) -> Result<(), AllocError>
    ensures { IfOk result (λ _. bytes.new.items ≡ bytes.old.items ++ crc32c_bytes bytes.old.items) }
{
    let number = number_bytes(bytes.as_slice());
    bytes.extend_from_slice(&number)?;
    Ok(())
}

// Whether the last bytes are the number of those before them.
fn ends_in_number(value: &[u8]) -> bool
    requires { 4 ≤ length value.now }
    ensures { result ≡ ends_in_crc32c value.now }
{
    let (content, tail) = value.split_at(value.len() - NUMBER_LEN);
    let number = number_bytes(content);
    number.as_slice() == tail
}

/// Whether a value with room for a number ends in the right one, or is not tested.
pub fn is_intact(validate: bool, value: &[u8]) -> bool
    requires { 4 ≤ length value.now }
    ensures { result ≡ (not validate || ends_in_crc32c value.now) }
{
    !validate || ends_in_number(value)
}

impl ExtensionName for Crc32cCodec {
    ghost use Rattle.std.specs.Prelude.{Some, codes};

    ghost name_in = { λ _ _. Some (codes "crc32c") };

    fn name(&self, alloc: Global, _version: ZarrVersion) -> Result<Option<String>, AllocError> {
        let name = String::from_str(alloc, "crc32c")?;
        Ok(Some(name))
    }
}

impl CodecTraits for Crc32cCodec {
    ghost use Rattle.std.specs.Prelude.{Some, false};

    ghost written = { λ _ _ _. Some no_members };

    ghost decodes_parts = { λ _. record { partial_read = false; partial_decode = false } };

    ghost encodes_parts = { λ _. record { partial_encode = false } };

    fn configuration(
        &self,
        alloc: Global,
        _version: ZarrVersion,
        _options: &CodecMetadataOptions,
    ) -> Result<Option<Configuration>, AllocError> {
        Ok(Some(Configuration::new(Map::new(alloc))))
    }

    fn partial_decoder_capability(&self) -> PartialDecoderCapability {
        PartialDecoderCapability {
            partial_read: false,
            partial_decode: false,
        }
    }

    fn partial_encoder_capability(&self) -> PartialEncoderCapability {
        PartialEncoderCapability {
            partial_encode: false,
        }
    }
}

impl BytesToBytesCodecTraits for Crc32cCodec {
    ghost use Rattle.std.specs.Prelude.{nat_le, length};
    ghost use Rattle.zarr_codecs_to_bytes.specs.Crc32c.{crc32c_codec};
    ghost use Rattle.zarr_codecs_to_bytes.specs.Crc32cCodec.{crc32c_says, number_no_fault, with_number_size};

    ghost meaning = { λ _ under value. crc32c_codec under.validate_checksums value };

    ghost says = { λ _ _ value e. crc32c_says value e };

    ghost no_fault = { λ _ _ value e told.
        number_no_fault (nat_le 4 (length value)) value e told };

    ghost representation = { λ _ size. with_number_size size };

    ghost concurrency = { λ _ _. record { minimum = 1; maximum = 1 } };

    fn recommended_concurrency(
        &self,
        _decoded_representation: &BytesRepresentation,
    ) -> Result<RecommendedConcurrency, CodecError> {
        Ok(RecommendedConcurrency::new_maximum(1))
    }

    fn encoded_representation(
        &self,
        decoded_representation: &BytesRepresentation,
    ) -> BytesRepresentation {
        match decoded_representation {
            BytesRepresentation::FixedSize(size) => match size.checked_add(4) {
                Some(size) => BytesRepresentation::FixedSize(size),
                None => BytesRepresentation::UnboundedSize,
            },
            BytesRepresentation::BoundedSize(size) => match size.checked_add(4) {
                Some(size) => BytesRepresentation::BoundedSize(size),
                None => BytesRepresentation::UnboundedSize,
            },
            BytesRepresentation::UnboundedSize => BytesRepresentation::UnboundedSize,
        }
    }

    fn encode(
        &self,
        _alloc: Global,
        decoded_value: Vec<u8>,
        _options: &CodecOptions,
    ) -> Result<Vec<u8>, CodecError> {
        let mut value = decoded_value;
        append_number(&mut value)?;
        Ok(value)
    }

    #[tactic(auto, using(crate::proofs::ChecksumLaws::number_kept, crate::proofs::ChecksumLaws::too_short, crate::proofs::ChecksumLaws::wrong_number))]
    fn decode(
        &self,
        _alloc: Global,
        encoded_value: Vec<u8>,
        _decoded_representation: &BytesRepresentation,
        options: &CodecOptions,
    ) -> Result<Vec<u8>, CodecError> {
        let len = encoded_value.len();
        if len < NUMBER_LEN {
            return Err(CodecError::UnexpectedChunkDecodedSize(InvalidBytesLengthError {
                len,
                expected_len: NUMBER_LEN,
            }));
        }
        if !is_intact(options.validate_checksums(), &encoded_value) {
            return Err(CodecError::InvalidChecksum);
        }
        let mut value = encoded_value;
        value.truncate(len - NUMBER_LEN);
        Ok(value)
    }
}
