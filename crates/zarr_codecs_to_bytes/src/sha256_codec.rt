//! The codec `zarr_basics.sha256`: bytes with their digest behind them.

ghost use Rattle.std.specs.Prelude.{◌≡◌, ◌≤◌, ◌++◌, ◌||◌, not, length, option_map, IfOk, IfErr, Ok};
ghost use Rattle.serde_json.specs.Data.{no_members};
ghost use Rattle.sha2.specs.Sha256.{sha256};
ghost use Rattle.zarrs_metadata_values.specs.Configuration.{configuration_seen};
ghost use Rattle.zarrs_plugin.specs.Making.{Makes};
ghost use Rattle.zarrs_plugin.specs.declared.error.PluginKind.TheVariants as kinds;
ghost use Rattle.zarrs_plugin.specs.declared.error.PluginCreateError.TheVariants as plugin;
ghost use Rattle.zarrs_codec_traits.specs.Making.{none_form};
ghost use Rattle.zarr_codecs_to_bytes.specs.Sha256.{ends_in_digest, with_digest_size};

use serde_json::Map;
use sha2::{Digest, Sha256};
use std::alloc::{AllocError, Global};
use zarrs_codec_error::{
    BytesRepresentation, CodecError, CodecMetadataOptions, CodecOptions, InvalidBytesLengthError,
    PartialDecoderCapability, PartialEncoderCapability, RecommendedConcurrency,
};
use zarrs_codec_traits::{
    BytesToBytesCodecTraits, CodecTraits, CodecTraitsV3, expect_none, unsupported_codec,
};
use zarrs_metadata_parts::{Configuration, MetadataV3};
use zarrs_plugin::{ExtensionName, PluginCreateError, ZarrVersion};

/// How many bytes a digest has.
const DIGEST_LEN: usize = 32;

/// The codec `zarr_basics.sha256`, which puts the SHA-256 digest of a value behind it.
///
/// See <https://csrc.nist.gov/pubs/fips/180-4/upd1/final>.
#[derive(Clone, Copy, Debug, Default, PartialEq, Eq)]
pub struct Sha256Codec;

impl Sha256Codec {
    /// The codec.
    pub fn new() -> Self {
        Sha256Codec
    }

    /// The codec of a configuration: of none, or an empty one.
    ///
    /// # Errors
    /// `Config` exactly where the configuration has a member.
    pub fn from_configuration(
        configuration: Option<&Configuration>,
    ) -> Result<Self, PluginCreateError>
        ensures made { Makes kinds.Codec (λ _. no_members) result
            (none_form (option_map (λ c. configuration_seen c.now) configuration.entry)) }
        ensures config { IfErr result (λ e. e ≡ plugin.Config) }
    {
        match expect_none(configuration) {
            Ok(()) => Ok(Sha256Codec),
            Err(error) => Err(error),
        }
    }

    /// A copy.
    ///
    /// # Errors
    /// None: no memory is needed.
    pub fn try_clone(&self, _alloc: Global) -> Result<Self, AllocError>
        ensures { result ≡ Ok self.now }
    {
        Ok(*self)
    }
}

// Appends the digest of the bytes.
fn append_digest(bytes: &mut Vec<u8>) -> Result<(), AllocError>
    ensures { IfOk result (λ _. bytes.new.items ≡ bytes.old.items ++ sha256 bytes.old.items) }
{
    let digest = Sha256::digest(bytes.as_slice());
    bytes.extend_from_slice(&digest)?;
    Ok(())
}

// Whether the last bytes are the digest of those before them.
fn ends_in_digest(value: &[u8]) -> bool
    requires { 32 ≤ length value.now }
    ensures { result ≡ ends_in_digest value.now }
{
    let (content, tail) = value.split_at(value.len() - DIGEST_LEN);
    let digest = Sha256::digest(content);
    digest.as_slice() == tail
}

// Whether a value with room for a digest ends in the right one, or is not tested.
fn is_intact(validate: bool, value: &[u8]) -> bool
    requires { 32 ≤ length value.now }
    ensures { result ≡ (not validate || ends_in_digest value.now) }
{
    !validate || ends_in_digest(value)
}

impl ExtensionName for Sha256Codec {
    ghost use Rattle.std.specs.Prelude.{Some, codes};

    ghost name_in = { λ _ _. Some (codes "zarr_basics.sha256") };

    fn name(&self, alloc: Global, _version: ZarrVersion) -> Result<Option<String>, AllocError> {
        let name = String::from_str(alloc, "zarr_basics.sha256")?;
        Ok(Some(name))
    }
}

impl CodecTraits for Sha256Codec {
    ghost use Rattle.std.specs.Prelude.{Some, false};

    ghost written = { λ _ _ _. Some no_members };

    ghost decodes_parts = { λ _. record { partial_read = false; partial_decode = false } };

    ghost encodes_parts = { λ _. record { partial_encode = false } };

    fn configuration(
        &self,
        alloc: Global,
        _version: ZarrVersion,
        _options: &CodecMetadataOptions,
    ) -> Result<Option<Configuration>, AllocError> {
        Ok(Some(Configuration::new(Map::new(alloc))))
    }

    fn partial_decoder_capability(&self) -> PartialDecoderCapability {
        PartialDecoderCapability {
            partial_read: false,
            partial_decode: false,
        }
    }

    fn partial_encoder_capability(&self) -> PartialEncoderCapability {
        PartialEncoderCapability {
            partial_encode: false,
        }
    }
}

impl CodecTraitsV3 for Sha256Codec {
    ghost use Rattle.zarr_codecs_to_bytes.specs.Sha256.{sha256_created};

    ghost created = { sha256_created };

    fn create(alloc: Global, metadata: &MetadataV3) -> Result<Self, PluginCreateError> {
        if metadata.name() != "zarr_basics.sha256" {
            return Err(unsupported_codec(alloc, metadata.name()));
        }
        if !metadata.configuration_is_none_or_empty() {
            return Err(PluginCreateError::Config);
        }
        Ok(Sha256Codec)
    }
}

impl BytesToBytesCodecTraits for Sha256Codec {
    ghost use Rattle.zarr_model.specs.Codec.{checksum_codec};
    ghost use Rattle.std.specs.Prelude.{nat_le, length};
    ghost use Rattle.zarr_codecs_to_bytes.specs.Sha256.{sha256_says, digest_no_fault};

    ghost meaning = { λ _ under value. checksum_codec under.validate_checksums value };

    ghost says = { λ _ _ value e. sha256_says value e };

    ghost no_fault = { λ _ _ value e told.
        digest_no_fault (nat_le 32 (length value)) value e told };

    ghost representation = { λ _ size. with_digest_size size };

    ghost concurrency = { λ _ _. record { minimum = 1; maximum = 1 } };

    fn recommended_concurrency(
        &self,
        _decoded_representation: &BytesRepresentation,
    ) -> Result<RecommendedConcurrency, CodecError> {
        Ok(RecommendedConcurrency::new_maximum(1))
    }

    fn encoded_representation(
        &self,
        decoded_representation: &BytesRepresentation,
    ) -> BytesRepresentation {
        match decoded_representation {
            BytesRepresentation::FixedSize(size) => match size.checked_add(32) {
                Some(size) => BytesRepresentation::FixedSize(size),
                None => BytesRepresentation::UnboundedSize,
            },
            BytesRepresentation::BoundedSize(size) => match size.checked_add(32) {
                Some(size) => BytesRepresentation::BoundedSize(size),
                None => BytesRepresentation::UnboundedSize,
            },
            BytesRepresentation::UnboundedSize => BytesRepresentation::UnboundedSize,
        }
    }

    fn encode(
        &self,
        _alloc: Global,
        decoded_value: Vec<u8>,
        _options: &CodecOptions,
    ) -> Result<Vec<u8>, CodecError> {
        let mut value = decoded_value;
        append_digest(&mut value)?;
        Ok(value)
    }

    #[tactic(auto, using(crate::proofs::DigestLaws::digest_kept, crate::proofs::DigestLaws::too_short, crate::proofs::DigestLaws::wrong_digest))]
    fn decode(
        &self,
        _alloc: Global,
        encoded_value: Vec<u8>,
        _decoded_representation: &BytesRepresentation,
        options: &CodecOptions,
    ) -> Result<Vec<u8>, CodecError> {
        let len = encoded_value.len();
        if len < DIGEST_LEN {
            return Err(CodecError::UnexpectedChunkDecodedSize(InvalidBytesLengthError {
                len,
                expected_len: DIGEST_LEN,
            }));
        }
        if !is_intact(options.validate_checksums(), &encoded_value) {
            return Err(CodecError::InvalidChecksum);
        }
        let mut value = encoded_value;
        value.truncate(len - DIGEST_LEN);
        Ok(value)
    }
}
