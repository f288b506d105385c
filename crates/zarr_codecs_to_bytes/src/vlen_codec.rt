//! The codecs `vlen-utf8` and `vlen-bytes`: the number of elements, and each one behind its length.

ghost use Rattle.std.specs.Prelude.{◌≡◌, Ok, None, Some, IfOk, IfErr, MatchResult, option_map};
ghost use Rattle.serde_json.specs.Data.{no_members};
ghost use Rattle.zarrs_metadata_values.specs.Configuration.{configuration_seen};
ghost use Rattle.zarrs_codec_traits.specs.Prelude.{extension_seen, Makes, type_of, unserved_error};
ghost use Rattle.zarrs_plugin.specs.declared.error.PluginKind.TheVariants as kinds;
ghost use Rattle.zarrs_plugin.specs.declared.error.PluginCreateError.TheVariants as plugin;
ghost use Rattle.zarrs_codec_traits.specs.Making.{none_form};
ghost use Rattle.zarr_codecs_to_bytes.specs.VlenCodec.{text_named, text_in, error_name, serves, vlen_type_unserved};

use crate::elements::{decode_elements, encode_elements};
use serde_json::Map;
use std::alloc::{AllocError, Global};
use std::num::NonZeroU64;
use zarrs_array_subset::{ArraySubset, ChunkShape};
use zarrs_codec_array_bytes::ArrayBytes;
use zarrs_codec_error::{
    BytesRepresentation, CodecError, CodecMetadataOptions, CodecOptions, PartialDecoderCapability,
    PartialEncoderCapability, RecommendedConcurrency,
};
use zarrs_codec_traits::{
    ArrayCodecTraits, ArrayToBytesCodecTraits, CodecTraits, CodecTraitsV3, expect_none, extracted,
    num_elements, only_part, same_shape, unsupported_codec,
};
use zarrs_data_type::DataType;
use zarrs_data_type_bytes::{CodecName, DataTypeCodecError, FillValue};
use zarrs_metadata_parts::{Configuration, MetadataV3};
use zarrs_plugin::{ExtensionName, PluginCreateError, ZarrVersion};
use zarrs_storage::ByteRange;

/// The codec `vlen-utf8`, which stores texts, or `vlen-bytes`, which stores byte strings: their number in 4 bytes, and
/// then each behind its length in 4 bytes, the lowest byte first. Neither looks whether a text is UTF-8.
///
/// See <https://github.com/zarr-developers/zarr-extensions/tree/main/codecs/vlen-utf8> and
/// <https://github.com/zarr-developers/zarr-extensions/tree/main/codecs/vlen-bytes>.
#[derive(Clone, Copy, Debug, PartialEq, Eq)]
pub struct VlenCodec {
    text: bool,
}

// Whether a name is that of the codec of texts, if it is one of the two.
fn text_named(name: &str) -> Option<bool>
    ensures { result ≡ text_named name.now }
{
    match name {
        "vlen-utf8" => Some(true),
        "vlen-bytes" => Some(false),
        _ => None,
    }
}

impl VlenCodec {
    /// The codec `vlen-utf8` for texts, and else `vlen-bytes`.
    pub fn new(text: bool) -> Self
        ensures { result ≡ record { text = text } }
    {
        VlenCodec { text }
    }

    /// The codec of a configuration: of none, or an empty one.
    ///
    /// # Errors
    /// `Config` exactly where the configuration has a member.
    pub fn from_configuration(
        text: bool,
        configuration: Option<&Configuration>,
    ) -> Result<Self, PluginCreateError>
        ensures made { Makes kinds.Codec (λ _. no_members) result
            (none_form (option_map (λ c. configuration_seen c.now) configuration.entry)) }
        ensures text { IfOk result (λ c. c.text ≡ text) }
        ensures config { IfErr result (λ e. e ≡ plugin.Config) }
    {
        match expect_none(configuration) {
            Ok(()) => Ok(VlenCodec { text }),
            Err(error) => Err(error),
        }
    }

    /// The codec that version 3 metadata denotes, by its name.
    ///
    /// # Errors
    /// `Unsupported` exactly where the name is neither `vlen-utf8` nor `vlen-bytes`; else `Config` exactly where the
    /// configuration has a member; or `OutOfMemory`.
    pub fn from_metadata(alloc: Global, metadata: &MetadataV3) -> Result<Self, PluginCreateError>
        ensures { Makes kinds.Codec (λ c. c.text) result (text_in (extension_seen metadata.now)) }
    {
        let Some(text) = text_named(metadata.name()) else {
            return Err(unsupported_codec(alloc, metadata.name()));
        };
        if !metadata.configuration_is_none_or_empty() {
            return Err(PluginCreateError::Config);
        }
        Ok(VlenCodec { text })
    }

    /// Whether it is the codec of texts.
    pub fn is_text(&self) -> bool
        ensures { result ≡ self.now.text }
    {
        self.text
    }

    /// A copy.
    ///
    /// # Errors
    /// None: no memory is needed.
    pub fn try_clone(&self, _alloc: Global) -> Result<Self, AllocError>
        ensures { result ≡ Ok self.now }
    {
        Ok(*self)
    }

    // The codec, as errors name it.
    fn codec_name(&self) -> CodecName
        ensures { result ≡ error_name self.now.text }
    {
        if self.text {
            CodecName::VlenUtf8
        } else {
            CodecName::VlenBytes
        }
    }

    // Whether the codec serves a data type.
    fn serves(&self, data_type: &DataType) -> bool
        ensures { result ≡ serves self.now.text (type_of data_type.now) }
    {
        match data_type {
            DataType::String => self.text,
            DataType::Bytes => !self.text,
            _ => false,
        }
    }

    // Refuses a data type that is not served.
    fn expect_served(&self, data_type: &DataType) -> Result<(), CodecError>
        ensures { MatchResult result
            (λ _. vlen_type_unserved self.now.text (type_of data_type.now) ≡ None)
            (λ e. option_map unserved_error
            (vlen_type_unserved self.now.text (type_of data_type.now)) ≡ Some e) }
    {
        if self.serves(data_type) {
            return Ok(());
        }
        Err(CodecError::UnsupportedDataTypeCodec(DataTypeCodecError::UnsupportedDataType {
            codec_name: self.codec_name(),
        }))
    }
}

impl ExtensionName for VlenCodec {
    ghost use Rattle.zarr_codecs_to_bytes.specs.VlenCodec.{vlen_name_of};

    ghost name_in = { λ c _. Some (vlen_name_of c.text) };

    fn name(&self, alloc: Global, _version: ZarrVersion) -> Result<Option<String>, AllocError> {
        let name = if self.text { "vlen-utf8" } else { "vlen-bytes" };
        let name = String::from_str(alloc, name)?;
        Ok(Some(name))
    }
}

impl CodecTraits for VlenCodec {
    ghost use Rattle.std.specs.Prelude.{false};

    ghost written = { λ _ _ _. Some no_members };

    ghost decodes_parts = { λ _. record { partial_read = false; partial_decode = false } };

    ghost encodes_parts = { λ _. record { partial_encode = false } };

    fn configuration(
        &self,
        alloc: Global,
        _version: ZarrVersion,
        _options: &CodecMetadataOptions,
    ) -> Result<Option<Configuration>, AllocError> {
        Ok(Some(Configuration::new(Map::new(alloc))))
    }

    fn partial_decoder_capability(&self) -> PartialDecoderCapability {
        PartialDecoderCapability {
            partial_read: false,
            partial_decode: false,
        }
    }

    fn partial_encoder_capability(&self) -> PartialEncoderCapability {
        PartialEncoderCapability {
            partial_encode: false,
        }
    }
}

impl CodecTraitsV3 for VlenCodec {
    ghost use Rattle.zarr_codecs_to_bytes.specs.VlenCodec.{vlen_created};

    ghost created = { vlen_created };

    #[tactic(auto, using(crate::proofs::CodecLaws::made_without))]
    fn create(alloc: Global, metadata: &MetadataV3) -> Result<Self, PluginCreateError> {
        VlenCodec::from_metadata(alloc, metadata)
    }
}

impl ArrayCodecTraits for VlenCodec {
    ghost use Rattle.zarr_codecs_to_bytes.specs.VlenCodec.{vlen_unserved, vlen_serves};

    ghost unserved = { λ c _ data_type _. vlen_unserved c.text data_type };

    ghost concurrency = { λ _ _ _. record { minimum = 1; maximum = 1 } };

    ghost granularity = { λ _ shape. shape };

    ghost serves_parts = { λ c level fill served with_shape with_type with_fill.
        vlen_serves c.text level.data_type with_type served };

    fn recommended_concurrency(
        &self,
        _shape: &[NonZeroU64],
        data_type: &DataType,
    ) -> Result<RecommendedConcurrency, CodecError> {
        self.expect_served(data_type)?;
        Ok(RecommendedConcurrency::new_maximum(1))
    }

    fn partial_decode_granularity(
        &self,
        alloc: Global,
        shape: &[NonZeroU64],
    ) -> Result<ChunkShape, AllocError> {
        let shape = same_shape(alloc, shape)?;
        Ok(shape)
    }
}

impl ArrayToBytesCodecTraits for VlenCodec {
    ghost use Rattle.std.specs.Prelude.{◌<◌, ◌^◌, false};
    ghost use Rattle.zarr_model.specs.Region.{count_of};
    ghost use Rattle.zarr_model.specs.Codec.{vlen_codec, decode_array_to_bytes};
    ghost use Rattle.zarr_model.proofs.ChainLaws.{array_to_bytes-counted};
    ghost use Rattle.std.proofs.Common.{ap, refl};
    ghost use Rattle.zarr_model.specs.Command.{invalid_variable_sized_array_offsets};
    ghost use Rattle.zarrs_codec_array_bytes.specs.Refusals.{told_by, refused};
    ghost use Rattle.zarrs_codec_traits.proofs.FaultLaws.{told_no_fault};
    ghost use Rattle.zarrs_codec_error.specs.declared.error.CodecError.TheVariants as codec;
    ghost use Rattle.zarrs_codec_error.specs.declared.bytes_representation.BytesRepresentation.TheVariants.{UnboundedSize};
    ghost use Rattle.zarrs_codec_traits.proofs.TakenLaws.{nothing_asked};
    ghost use Rattle.zarr_codecs_to_bytes.specs.VlenCodec.{vlen_beyond, few_taken, form_refused};

    ghost meaning = { λ _ under level value.
        decode_array_to_bytes under vlen_codec level value };

    ghost says = { λ _ _ _ _ e. e ≡ codec.InvalidVariableSizedArrayOffsets };

    ghost beyond = { λ _ level bytes. vlen_beyond (count_of level.shape) bytes };

    ghost takes = { λ _ level. count_of level.shape < 2 ^ 32 };

    ghost request = { λ _ _ _ _. None };

    ghost representation = { λ _ _. UnboundedSize };

    ghost compacts = { λ _. false };

    ghost counted = { λ _ under level value xs e.
        array_to_bytes-counted under vlen_codec level value xs e };

    ghost taken = { λ _ level fill bytes served few there short.
        few_taken (count_of level.shape) bytes few short };

    ghost takes_few = { λ _ level fill served few. few };

    ghost refuses_form = { λ _ level bytes. form_refused (count_of level.shape) bytes };

    ghost asks = { λ c under level box fill value ranges served inside some.
        absurd (nothing_asked some) };

    ghost no_fault = { λ _ _ _ _ e is. told_no_fault e
        (refused invalid_variable_sized_array_offsets) refl (ap told_by is) };

    fn encoded_representation(
        &self,
        _shape: &[NonZeroU64],
        data_type: &DataType,
        _fill_value: &FillValue,
    ) -> Result<BytesRepresentation, CodecError> {
        self.expect_served(data_type)?;
        Ok(BytesRepresentation::UnboundedSize)
    }

    #[tactic(auto, using(crate::proofs::CodecLaws::served_kind))]
    fn encode(
        &self,
        alloc: Global,
        bytes: ArrayBytes<'static>,
        shape: &[NonZeroU64],
        data_type: &DataType,
        _fill_value: &FillValue,
        _options: &CodecOptions,
    ) -> Result<Vec<u8>, CodecError> {
        self.expect_served(data_type)?;
        let number = num_elements(shape);
        bytes.validate(number, data_type)?;
        let value = encode_elements(alloc, &bytes, number)?;
        Ok(value)
    }

    #[tactic(auto, using(crate::proofs::CodecLaws::served_kind))]
    fn decode(
        &self,
        alloc: Global,
        bytes: Vec<u8>,
        shape: &[NonZeroU64],
        data_type: &DataType,
        _fill_value: &FillValue,
        _options: &CodecOptions,
    ) -> Result<ArrayBytes<'static>, CodecError> {
        self.expect_served(data_type)?;
        let elements = decode_elements(alloc, &bytes, num_elements(shape))?;
        Ok(elements)
    }

    fn byte_request(
        &self,
        _alloc: Global,
        _region: &ArraySubset,
        _shape: &[NonZeroU64],
        data_type: &DataType,
    ) -> Result<Option<Vec<ByteRange>>, CodecError> {
        self.expect_served(data_type)?;
        Ok(None)
    }

    fn decode_parts(
        &self,
        alloc: Global,
        parts: Vec<Vec<u8>>,
        region: &ArraySubset,
        shape: &[NonZeroU64],
        data_type: &DataType,
        fill_value: &FillValue,
        options: &CodecOptions,
    ) -> Result<ArrayBytes<'static>, CodecError> {
        let value = only_part(parts);
        let whole = self.decode(alloc, value, shape, data_type, fill_value, options)?;
        extracted(alloc, &whole, region, shape, data_type)
    }
}
