//! The traits of the codec of optional elements.

ghost use Rattle.std.specs.Prelude.{None, Some, false};
ghost use Rattle.zarr_codecs.specs.Views.{optional_plain};

use crate::codecs::OptionalCodec;
use crate::decoding::decode_optional;
use crate::encoding::encode_optional;
use crate::naming::optional_configuration;
use crate::serving::{optional_concurrency, optional_size};
use std::alloc::{AllocError, Global};
use std::num::NonZeroU64;
use zarrs_array_subset::{ArraySubset, ChunkShape};
use zarrs_codec_array_bytes::ArrayBytes;
use zarrs_codec_error::{
    BytesRepresentation, CodecError, CodecMetadataOptions, CodecOptions, PartialDecoderCapability,
    PartialEncoderCapability, RecommendedConcurrency,
};
use zarrs_codec_traits::{
    ArrayCodecTraits, ArrayToBytesCodecTraits, CodecTraits, extracted, only_part, same_shape,
};
use zarrs_data_type::DataType;
use zarrs_data_type_bytes::FillValue;
use zarrs_metadata_parts::Configuration;
use zarrs_plugin::{ExtensionName, ZarrVersion};
use zarrs_storage::ByteRange;

impl ExtensionName for OptionalCodec {
    ghost use Rattle.zarr_codecs.specs.Plain.{name_by};

    ghost name_in = { λ c _. Some (name_by (optional_plain c)) };

    fn name(&self, alloc: Global, _version: ZarrVersion) -> Result<Option<String>, AllocError> {
        let name = String::from_str(alloc, "zarr_basics.optional")?;
        Ok(Some(name))
    }
}

impl CodecTraits for OptionalCodec {
    ghost use Rattle.zarr_codecs.specs.Plain.{members_by, parts_by};

    ghost written = { λ c _ _. Some (members_by (optional_plain c)) };

    ghost decodes_parts = { λ c. parts_by (optional_plain c) };

    ghost encodes_parts = { λ _. record { partial_encode = false } };

    fn configuration(
        &self,
        alloc: Global,
        _version: ZarrVersion,
        _options: &CodecMetadataOptions,
    ) -> Result<Option<Configuration>, AllocError> {
        let configuration = optional_configuration(alloc, self.inner())?;
        Ok(Some(configuration))
    }

    fn partial_decoder_capability(&self) -> PartialDecoderCapability {
        PartialDecoderCapability {
            partial_read: false,
            partial_decode: false,
        }
    }

    fn partial_encoder_capability(&self) -> PartialEncoderCapability {
        PartialEncoderCapability {
            partial_encode: false,
        }
    }
}

impl ArrayCodecTraits for OptionalCodec {
    ghost use Rattle.zarr_codecs.specs.Plain.{plain_unserved};
    ghost use Rattle.zarr_codecs.specs.Laws.{plain_serves};

    ghost unserved = { λ c _ data_type _. plain_unserved (optional_plain c) data_type };

    ghost concurrency = { λ _ _ _. record { minimum = 1; maximum = 1 } };

    ghost granularity = { λ _ shape. shape };

    ghost serves_parts = { λ c level fill served with_shape with_type with_fill.
        plain_serves (optional_plain c) level.data_type with_type served };

    fn recommended_concurrency(
        &self,
        shape: &[NonZeroU64],
        data_type: &DataType,
    ) -> Result<RecommendedConcurrency, CodecError> {
        optional_concurrency(self.inner(), shape, data_type)
    }

    fn partial_decode_granularity(
        &self,
        alloc: Global,
        shape: &[NonZeroU64],
    ) -> Result<ChunkShape, AllocError> {
        let shape = same_shape(alloc, shape)?;
        Ok(shape)
    }
}

impl ArrayToBytesCodecTraits for OptionalCodec {
    ghost use Rattle.zarr_model.specs.Region.{count_of};
    ghost use Rattle.zarr_model.specs.Codec.{decode_array_to_bytes};
    ghost use Rattle.zarr_model.proofs.ChainLaws.{array_to_bytes-counted};
    ghost use Rattle.zarrs_codec_traits.proofs.TakenLaws.{nothing_asked};
    ghost use Rattle.zarr_codecs.specs.Plain.{codec_of, takes_by, beyond_by, says_by, size_by};
    ghost use Rattle.zarr_codecs.specs.Laws.{plain_taken, plain_takes_few, plain_refuses_form, plain_no_fault};

    ghost meaning = { λ c under level value.
        decode_array_to_bytes under (codec_of (optional_plain c)) level value };

    ghost says = { λ c _ level value e.
        says_by (optional_plain c) (count_of level.shape) level.data_type value e };

    ghost beyond = { λ c level bytes. beyond_by (optional_plain c) (count_of level.shape) bytes };

    ghost takes = { λ c level. takes_by (optional_plain c) (count_of level.shape) };

    ghost request = { λ _ _ _ _. None };

    ghost representation = { λ c level.
        size_by (optional_plain c) (count_of level.shape) level.data_type };

    ghost compacts = { λ _. false };

    ghost counted = { λ c under level value xs e.
        array_to_bytes-counted under (codec_of (optional_plain c)) level value xs e };

    ghost taken = { λ c level fill bytes served few there short.
        plain_taken (optional_plain c) (count_of level.shape) bytes few short };

    ghost takes_few = { λ c level fill served few.
        plain_takes_few (optional_plain c) (count_of level.shape) few };

    ghost refuses_form = { λ c level bytes.
        plain_refuses_form (optional_plain c) (count_of level.shape) bytes };

    ghost asks = { λ c under level box fill value ranges served inside some.
        absurd (nothing_asked some) };

    ghost no_fault = { λ c under level value e told.
        plain_no_fault (optional_plain c) (count_of level.shape) level.data_type value e told };

    fn encoded_representation(
        &self,
        shape: &[NonZeroU64],
        data_type: &DataType,
        fill_value: &FillValue,
    ) -> Result<BytesRepresentation, CodecError> {
        optional_size(self.inner(), shape, data_type, fill_value)
    }

    fn encode(
        &self,
        alloc: Global,
        bytes: ArrayBytes<'static>,
        shape: &[NonZeroU64],
        data_type: &DataType,
        fill_value: &FillValue,
        options: &CodecOptions,
    ) -> Result<Vec<u8>, CodecError> {
        encode_optional(
            self.inner(),
            alloc,
            bytes,
            shape,
            data_type,
            fill_value,
            options,
        )
    }

    fn decode(
        &self,
        alloc: Global,
        bytes: Vec<u8>,
        shape: &[NonZeroU64],
        data_type: &DataType,
        fill_value: &FillValue,
        options: &CodecOptions,
    ) -> Result<ArrayBytes<'static>, CodecError> {
        decode_optional(
            self.inner(),
            alloc,
            bytes,
            shape,
            data_type,
            fill_value,
            options,
        )
    }

    fn byte_request(
        &self,
        _alloc: Global,
        _region: &ArraySubset,
        shape: &[NonZeroU64],
        data_type: &DataType,
    ) -> Result<Option<Vec<ByteRange>>, CodecError> {
        optional_concurrency(self.inner(), shape, data_type)?;
        Ok(None)
    }

    fn decode_parts(
        &self,
        alloc: Global,
        parts: Vec<Vec<u8>>,
        region: &ArraySubset,
        shape: &[NonZeroU64],
        data_type: &DataType,
        fill_value: &FillValue,
        options: &CodecOptions,
    ) -> Result<ArrayBytes<'static>, CodecError> {
        let value = only_part(parts);
        let whole = decode_optional(
            self.inner(),
            alloc,
            value,
            shape,
            data_type,
            fill_value,
            options,
        )?;
        extracted(alloc, &whole, region, shape, data_type)
    }
}
