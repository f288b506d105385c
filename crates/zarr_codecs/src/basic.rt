//! The traits of an array-to-bytes codec of any kind.

ghost use Rattle.std.specs.Prelude.{Some, false};
ghost use Rattle.zarr_codecs.specs.Views.{plain_of};

use crate::codecs::BasicArrayToBytes;
use crate::decoding::decode_by;
use crate::encoding::encode_by;
use crate::naming::{configuration_by, name_by};
use crate::serving::{concurrency_by, size_by};
use std::alloc::{AllocError, Global};
use std::num::NonZeroU64;
use zarrs_array_subset::{ArraySubset, ChunkShape};
use zarrs_codec_array_bytes::ArrayBytes;
use zarrs_codec_error::{
    BytesRepresentation, CodecError, CodecMetadataOptions, CodecOptions, PartialDecoderCapability,
    PartialEncoderCapability, RecommendedConcurrency,
};
use zarrs_codec_traits::{ArrayCodecTraits, ArrayToBytesCodecTraits, CodecTraits, same_shape};
use zarrs_data_type::DataType;
use zarrs_data_type_bytes::FillValue;
use zarrs_metadata_parts::Configuration;
use zarrs_plugin::{ExtensionName, ZarrVersion};
use zarrs_storage::ByteRange;

impl ExtensionName for BasicArrayToBytes {
    ghost use Rattle.zarr_codecs.specs.Plain.{name_by};

    ghost name_in = { λ c _. Some (name_by (plain_of c)) };

    fn name(&self, alloc: Global, _version: ZarrVersion) -> Result<Option<String>, AllocError> {
        let name = String::from_str(alloc, name_by(self))?;
        Ok(Some(name))
    }
}

impl CodecTraits for BasicArrayToBytes {
    ghost use Rattle.zarr_codecs.specs.Plain.{members_by, parts_by};

    ghost written = { λ c _ _. Some (members_by (plain_of c)) };

    ghost decodes_parts = { λ c. parts_by (plain_of c) };

    ghost encodes_parts = { λ _. record { partial_encode = false } };

    fn configuration(
        &self,
        alloc: Global,
        _version: ZarrVersion,
        _options: &CodecMetadataOptions,
    ) -> Result<Option<Configuration>, AllocError> {
        let configuration = configuration_by(alloc, self)?;
        Ok(Some(configuration))
    }

    fn partial_decoder_capability(&self) -> PartialDecoderCapability {
        let whole = matches!(self, BasicArrayToBytes::Bytes(_));
        PartialDecoderCapability {
            partial_read: whole,
            partial_decode: whole,
        }
    }

    fn partial_encoder_capability(&self) -> PartialEncoderCapability {
        PartialEncoderCapability {
            partial_encode: false,
        }
    }
}

impl ArrayCodecTraits for BasicArrayToBytes {
    ghost use Rattle.zarr_codecs.specs.Plain.{plain_unserved};
    ghost use Rattle.zarr_codecs.specs.Laws.{plain_serves};

    ghost unserved = { λ c _ data_type _. plain_unserved (plain_of c) data_type };

    ghost concurrency = { λ _ _ _. record { minimum = 1; maximum = 1 } };

    ghost granularity = { λ _ shape. shape };

    ghost serves_parts = { λ c level fill served with_shape with_type with_fill.
        plain_serves (plain_of c) level.data_type with_type served };

    fn recommended_concurrency(
        &self,
        shape: &[NonZeroU64],
        data_type: &DataType,
    ) -> Result<RecommendedConcurrency, CodecError> {
        concurrency_by(self, shape, data_type)
    }

    fn partial_decode_granularity(
        &self,
        alloc: Global,
        shape: &[NonZeroU64],
    ) -> Result<ChunkShape, AllocError> {
        let shape = same_shape(alloc, shape)?;
        Ok(shape)
    }
}

impl ArrayToBytesCodecTraits for BasicArrayToBytes {
    ghost use Rattle.zarr_model.specs.Region.{count_of};
    ghost use Rattle.zarr_model.specs.Codec.{decode_array_to_bytes};
    ghost use Rattle.zarr_model.proofs.ChainLaws.{array_to_bytes-counted};
    ghost use Rattle.zarr_codecs.specs.Plain.{codec_of, takes_by, beyond_by, says_by, request_by, size_by};
    ghost use Rattle.zarr_codecs.specs.Laws.{plain_taken, plain_takes_few, plain_refuses_form, plain_asks, plain_no_fault};

    ghost meaning = { λ c under level value.
        decode_array_to_bytes under (codec_of (plain_of c)) level value };

    ghost says = { λ c _ level value e.
        says_by (plain_of c) (count_of level.shape) level.data_type value e };

    ghost beyond = { λ c level bytes. beyond_by (plain_of c) (count_of level.shape) bytes };

    ghost takes = { λ c level. takes_by (plain_of c) (count_of level.shape) };

    ghost request = { λ c shape data_type box. request_by (plain_of c) shape data_type box };

    ghost representation = { λ c level.
        size_by (plain_of c) (count_of level.shape) level.data_type };

    ghost compacts = { λ _. false };

    ghost counted = { λ c under level value xs e.
        array_to_bytes-counted under (codec_of (plain_of c)) level value xs e };

    ghost taken = { λ c level fill bytes served few there short.
        plain_taken (plain_of c) (count_of level.shape) bytes few short };

    ghost takes_few = { λ c level fill served few.
        plain_takes_few (plain_of c) (count_of level.shape) few };

    ghost refuses_form = { λ c level bytes.
        plain_refuses_form (plain_of c) (count_of level.shape) bytes };

    ghost asks = { λ c under level box fill value ranges served inside some invalid.
        plain_asks (plain_of c) under level box value ranges inside some invalid };

    ghost no_fault = { λ c under level value e told.
        plain_no_fault (plain_of c) (count_of level.shape) level.data_type value e told };

    fn encoded_representation(
        &self,
        shape: &[NonZeroU64],
        data_type: &DataType,
        fill_value: &FillValue,
    ) -> Result<BytesRepresentation, CodecError> {
        size_by(self, shape, data_type, fill_value)
    }

    fn encode(
        &self,
        alloc: Global,
        bytes: ArrayBytes<'static>,
        shape: &[NonZeroU64],
        data_type: &DataType,
        fill_value: &FillValue,
        options: &CodecOptions,
    ) -> Result<Vec<u8>, CodecError> {
        encode_by(self, alloc, bytes, shape, data_type, fill_value, options)
    }

    fn decode(
        &self,
        alloc: Global,
        bytes: Vec<u8>,
        shape: &[NonZeroU64],
        data_type: &DataType,
        fill_value: &FillValue,
        options: &CodecOptions,
    ) -> Result<ArrayBytes<'static>, CodecError> {
        decode_by(self, alloc, bytes, shape, data_type, fill_value, options)
    }

    fn byte_request(
        &self,
        alloc: Global,
        region: &ArraySubset,
        shape: &[NonZeroU64],
        data_type: &DataType,
    ) -> Result<Option<Vec<ByteRange>>, CodecError> {
        match self {
            BasicArrayToBytes::Bytes(codec) => codec.byte_request(alloc, region, shape, data_type),
            BasicArrayToBytes::Vlen(codec) => codec.byte_request(alloc, region, shape, data_type),
            BasicArrayToBytes::Optional(codec) => {
                codec.byte_request(alloc, region, shape, data_type)
            }
        }
    }

    fn decode_parts(
        &self,
        alloc: Global,
        parts: Vec<Vec<u8>>,
        region: &ArraySubset,
        shape: &[NonZeroU64],
        data_type: &DataType,
        fill_value: &FillValue,
        options: &CodecOptions,
    ) -> Result<ArrayBytes<'static>, CodecError> {
        match self {
            BasicArrayToBytes::Bytes(codec) => {
                codec.decode_parts(alloc, parts, region, shape, data_type, fill_value, options)
            }
            BasicArrayToBytes::Vlen(codec) => {
                codec.decode_parts(alloc, parts, region, shape, data_type, fill_value, options)
            }
            BasicArrayToBytes::Optional(codec) => {
                codec.decode_parts(alloc, parts, region, shape, data_type, fill_value, options)
            }
        }
    }
}
