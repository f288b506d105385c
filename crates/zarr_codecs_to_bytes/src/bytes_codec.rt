//! The codec `bytes`: the elements one after another.

ghost use Rattle.std.specs.Prelude.{◌≡◌, ◌<◌, ◌*◌, Ok, None, Some, true, refl, IfOk, IfErr, option_map};
ghost use Rattle.std.proofs.Common.{inl};
ghost use Rattle.zarrs_data_type_bytes.specs.BytesSupport.{component_of};
ghost use Rattle.zarrs_data_type_bytes.specs.ByteOrder.{in_order};
ghost use Rattle.zarrs_codec_traits.specs.Prelude.{bytes_table, type_of, unserved_error};

use crate::configuration::{order_configuration, read_order};
use crate::joining::region_parts;
use crate::ranges::region_request;
use std::alloc::{AllocError, Global};
use std::borrow::CowSlice;
use std::num::NonZeroU64;
use zarr_model::Endianness;
use zarrs_array_subset::{ArraySubset, ChunkShape};
use zarrs_codec_array_bytes::ArrayBytes;
use zarrs_codec_array_bytes::array_bytes::step::element_size;
use zarrs_codec_error::{
    BytesRepresentation, CodecError, CodecMetadataOptions, CodecOptions, InvalidBytesLengthError,
    PartialDecoderCapability, PartialEncoderCapability, RecommendedConcurrency,
};
use zarrs_codec_traits::{
    ArrayCodecTraits, ArrayToBytesCodecTraits, CodecTraits, CodecTraitsV3, fixed_value,
    num_elements, same_shape, unsupported_codec,
};
use zarrs_data_type::DataType;
use zarrs_data_type_bytes::{BytesSupport, FillValue};
use zarrs_metadata_parts::making::unmade;
use zarrs_metadata_parts::{Configuration, MetadataV3};
use zarrs_plugin::{ExtensionName, PluginCreateError, ZarrVersion};
use zarrs_storage::ByteRange;

/// The codec `bytes`, which stores the elements of a chunk in row-major order, one after another, with the bytes of
/// each component in an order.
///
/// See <https://zarr-specs.readthedocs.io/en/latest/v3/codecs/bytes/index.html>.
#[derive(Clone, Copy, Debug, PartialEq, Eq)]
pub struct BytesCodec {
    endianness: Option<Endianness>,
}

impl BytesCodec {
    ghost use Rattle.zarrs_metadata_values.specs.Configuration.{configuration_seen};
    ghost use Rattle.zarrs_plugin.specs.Making.{Makes};
    ghost use Rattle.zarrs_plugin.specs.declared.error.PluginKind.TheVariants as kinds;
    ghost use Rattle.zarrs_plugin.specs.declared.error.PluginCreateError.TheVariants as plugin;
    ghost use Rattle.zarrs_metadata_parts.specs.Making.{or_config};
    ghost use Rattle.zarr_codecs_to_bytes.specs.BytesCodec.{component_unserved, type_unserved, byte_order_in};

    /// The codec with this order of the bytes of each component, if there is one.
    pub fn new(endianness: Option<Endianness>) -> Self
        ensures { result ≡ record { endianness = endianness } }
    {
        BytesCodec { endianness }
    }

    /// The codec of a configuration: of none, an empty one, or exactly an `endian` that is `little`, `big` or null.
    ///
    /// # Errors
    /// `Config` exactly where the configuration is another.
    #[tactic(auto, using(zarrs_metadata_parts::proofs::MakingLaws::of_configurations))]
    pub fn from_configuration(
        configuration: Option<&Configuration>,
    ) -> Result<Self, PluginCreateError>
        ensures made { Makes kinds.Codec (λ c. c.endianness) result (or_config
            (byte_order_in (option_map (λ c. configuration_seen c.now) configuration.entry))) }
        ensures config { IfErr result (λ e. e ≡ plugin.Config) }
    {
        match read_order(configuration) {
            Ok(endianness) => Ok(BytesCodec { endianness }),
            Err(error) => Err(unmade(error)),
        }
    }

    /// The order of the bytes of each component, if there is one.
    pub fn endianness(&self) -> Option<Endianness>
        ensures { result ≡ self.now.endianness }
    {
        self.endianness
    }

    /// A copy.
    ///
    /// # Errors
    /// None: no memory is needed.
    pub fn try_clone(&self, _alloc: Global) -> Result<Self, AllocError>
        ensures { result ≡ Ok self.now }
    {
        Ok(*self)
    }

    // What the data type asks, where the codec serves it.
    fn support(&self, data_type: &DataType) -> Result<BytesSupport, CodecError>
        ensures served { IfOk result
            (λ _. type_unserved self.now.endianness (type_of data_type.now) ≡ None) }
        ensures seen { IfOk result
            (λ s. bytes_table (type_of data_type.now) ≡ Some (component_of s)) }
        ensures refused { IfErr result (λ e. option_map unserved_error
            (type_unserved self.now.endianness (type_of data_type.now)) ≡ Some e) }
    {
        let support = match data_type.codec_bytes() {
            Ok(support) => support,
            Err(error) => return Err(CodecError::UnsupportedDataTypeCodec(error)),
        };
        if support.component_size() != 1 && self.endianness.is_none() {
            return Err(CodecError::EndiannessMissing);
        }
        Ok(support)
    }

    // The bytes of elements as they are stored, and back.
    #[tactic(auto, using(crate::proofs::OrderLaws::served_order))]
    fn ordered(&self, support: &BytesSupport, bytes: Vec<u8>) -> Vec<u8>
        requires { component_unserved self.now.endianness (Some (component_of support.now)) ≡ None }
        ensures { in_order (component_of support.now) self.now.endianness bytes.items
            ≡ Some result.items }
    {
        match support.order_bytes(bytes, self.endianness) {
            Ok(ordered) => ordered,
            Err(_) => unreachable!(),
        }
    }
}

impl ExtensionName for BytesCodec {
    ghost use Rattle.std.specs.Prelude.{codes};

    ghost name_in = { λ _ _. Some (codes "bytes") };

    fn name(&self, alloc: Global, _version: ZarrVersion) -> Result<Option<String>, AllocError> {
        let name = String::from_str(alloc, "bytes")?;
        Ok(Some(name))
    }
}

impl CodecTraits for BytesCodec {
    ghost use Rattle.std.specs.Prelude.{true, false};
    ghost use Rattle.zarr_codecs_to_bytes.specs.BytesCodec.{byte_order_members};

    ghost written = { λ c _ _. Some (byte_order_members c.endianness) };

    ghost decodes_parts = { λ _. record { partial_read = true; partial_decode = true } };

    ghost encodes_parts = { λ _. record { partial_encode = false } };

    fn configuration(
        &self,
        alloc: Global,
        _version: ZarrVersion,
        _options: &CodecMetadataOptions,
    ) -> Result<Option<Configuration>, AllocError> {
        let configuration = order_configuration(alloc, self.endianness)?;
        Ok(Some(configuration))
    }

    fn partial_decoder_capability(&self) -> PartialDecoderCapability {
        PartialDecoderCapability {
            partial_read: true,
            partial_decode: true,
        }
    }

    fn partial_encoder_capability(&self) -> PartialEncoderCapability {
        PartialEncoderCapability {
            partial_encode: false,
        }
    }
}

impl CodecTraitsV3 for BytesCodec {
    ghost use Rattle.zarr_codecs_to_bytes.specs.BytesCodec.{bytes_created};

    ghost created = { bytes_created };

    #[tactic(auto, using(zarrs_metadata_parts::proofs::MakingLaws::of_configurations))]
    fn create(alloc: Global, metadata: &MetadataV3) -> Result<Self, PluginCreateError> {
        if metadata.name() != "bytes" {
            return Err(unsupported_codec(alloc, metadata.name()));
        }
        match read_order(metadata.configuration()) {
            Ok(endianness) => Ok(BytesCodec { endianness }),
            Err(error) => Err(unmade(error)),
        }
    }
}

impl ArrayCodecTraits for BytesCodec {
    ghost use Rattle.zarr_codecs_to_bytes.specs.BytesCodec.{bytes_unserved, bytes_serves};

    ghost unserved = { λ c _ data_type _. bytes_unserved c.endianness data_type };

    ghost concurrency = { λ _ _ _. record { minimum = 1; maximum = 1 } };

    ghost granularity = { λ _ shape. shape };

    ghost serves_parts = { λ c level fill served with_shape with_type with_fill.
        bytes_serves c.endianness level.data_type with_type served };

    fn recommended_concurrency(
        &self,
        _shape: &[NonZeroU64],
        data_type: &DataType,
    ) -> Result<RecommendedConcurrency, CodecError> {
        self.support(data_type)?;
        Ok(RecommendedConcurrency::new_maximum(1))
    }

    fn partial_decode_granularity(
        &self,
        alloc: Global,
        shape: &[NonZeroU64],
    ) -> Result<ChunkShape, AllocError> {
        let shape = same_shape(alloc, shape)?;
        Ok(shape)
    }
}

impl ArrayToBytesCodecTraits for BytesCodec {
    ghost use Rattle.std.specs.Prelude.{length, false};
    ghost use Rattle.zarr_model.specs.Codec.{bytes_codec, decode_array_to_bytes};
    ghost use Rattle.zarr_model.proofs.ChainLaws.{array_to_bytes-counted};
    ghost use Rattle.zarrs_codec_array_bytes.specs.Refusals.{fine, told_by, wrong_length};
    ghost use Rattle.zarrs_codec_traits.proofs.FaultLaws.{told_no_fault};
    ghost use Rattle.zarrs_codec_error.specs.declared.bytes_representation.BytesRepresentation.TheVariants.{FixedSize};
    ghost use Rattle.zarr_codecs_to_bytes.specs.BytesCodec.{stored_order, element_bytes, bytes_size};
    ghost use Rattle.zarr_codecs_to_bytes.specs.Ranges.{run_ranges};
    ghost use Rattle.zarr_codecs_to_bytes.specs.Asking.{runs_asked};

    ghost meaning = { λ c under level value.
        decode_array_to_bytes under (bytes_codec (stored_order c.endianness)) level value };

    ghost says = { λ _ _ level value e.
        told_by e ≡ wrong_length (length value) (bytes_size level) };

    ghost beyond = { λ _ _ _. fine };

    ghost takes = { λ _ _. Unit {0} };

    ghost request = { λ _ shape data_type box.
        Some (run_ranges (element_bytes data_type) shape box) };

    ghost representation = { λ _ level. FixedSize (bytes_size level) };

    ghost compacts = { λ _. false };

    ghost counted = { λ c under level value xs e.
        array_to_bytes-counted under (bytes_codec (stored_order c.endianness)) level value xs e };

    ghost taken = { λ _ _ _ _ _ _ _ _. refl };

    ghost takes_few = { λ _ _ _ _ _. tt };

    ghost refuses_form = { λ _ _ _. inl refl };

    ghost asks = { λ c under level box fill value ranges served inside some invalid.
        runs_asked (stored_order c.endianness) under level box value ranges inside some invalid };

    ghost no_fault = { λ c under level value e told.
        told_no_fault e (wrong_length (length value) (bytes_size level)) refl told };

    fn encoded_representation(
        &self,
        shape: &[NonZeroU64],
        data_type: &DataType,
        _fill_value: &FillValue,
    ) -> Result<BytesRepresentation, CodecError> {
        self.support(data_type)?;
        Ok(BytesRepresentation::FixedSize(num_elements(shape) * element_size(data_type) as u64))
    }

    #[tactic(auto, using(crate::proofs::OrderLaws::valid_fixed))]
    fn encode(
        &self,
        alloc: Global,
        bytes: ArrayBytes<'static>,
        shape: &[NonZeroU64],
        data_type: &DataType,
        _fill_value: &FillValue,
        _options: &CodecOptions,
    ) -> Result<Vec<u8>, CodecError> {
        let support = self.support(data_type)?;
        bytes.validate(num_elements(shape), data_type)?;
        let value = fixed_value(alloc, bytes)?;
        Ok(self.ordered(&support, value))
    }

    #[tactic(auto, using(crate::proofs::OrderLaws::length_error))]
    fn decode(
        &self,
        _alloc: Global,
        bytes: Vec<u8>,
        shape: &[NonZeroU64],
        data_type: &DataType,
        _fill_value: &FillValue,
        _options: &CodecOptions,
    ) -> Result<ArrayBytes<'static>, CodecError> {
        let support = self.support(data_type)?;
        let expected_len = num_elements(shape) as usize * element_size(data_type);
        if bytes.len() != expected_len {
            return Err(CodecError::UnexpectedChunkDecodedSize(InvalidBytesLengthError {
                len: bytes.len(),
                expected_len,
            }));
        }
        let decoded = self.ordered(&support, bytes);
        Ok(ArrayBytes::Fixed(CowSlice::Owned(decoded)))
    }

    fn byte_request(
        &self,
        alloc: Global,
        region: &ArraySubset,
        shape: &[NonZeroU64],
        data_type: &DataType,
    ) -> Result<Option<Vec<ByteRange>>, CodecError> {
        self.support(data_type)?;
        let ranges = region_request(alloc, region, shape, data_type)?;
        Ok(Some(ranges))
    }

    fn decode_parts(
        &self,
        alloc: Global,
        parts: Vec<Vec<u8>>,
        region: &ArraySubset,
        _shape: &[NonZeroU64],
        data_type: &DataType,
        _fill_value: &FillValue,
        _options: &CodecOptions,
    ) -> Result<ArrayBytes<'static>, CodecError> {
        let support = self.support(data_type)?;
        match region_parts(alloc, parts, region, data_type) {
            Ok(joined) => {
                let decoded = self.ordered(&support, joined);
                Ok(ArrayBytes::Fixed(CowSlice::Owned(decoded)))
            }
            Err(error) => Err(error),
        }
    }
}
