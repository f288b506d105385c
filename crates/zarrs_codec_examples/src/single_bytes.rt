//! A codec of elements of one byte, which asks for those of a region alone.

ghost use Rattle.std.specs.Prelude.{◌≡◌, Some, None, true, false, refl};
ghost use Rattle.std.proofs.Common.{inl};
ghost use Rattle.zarr_model.specs.Region.{count_of};
ghost use Rattle.zarrs_codec_examples.specs.SingleBytes.{single_unserved, single_serves, single_list, single_asks, ranges_in};

use crate::joining::{expect_byte, joined_elements, region_ranges};
use std::alloc::{AllocError, Global};
use std::borrow::CowSlice;
use std::num::NonZeroU64;
use zarrs_array_subset::{ArraySubset, ChunkShape};
use zarrs_codec_array_bytes::ArrayBytes;
use zarrs_codec_error::{
    BytesRepresentation, CodecError, CodecMetadataOptions, CodecOptions, InvalidBytesLengthError,
    PartialDecoderCapability, PartialEncoderCapability, RecommendedConcurrency,
};
use zarrs_codec_traits::{
    ArrayCodecTraits, ArrayToBytesCodecTraits, CodecTraits, fixed_value, num_elements, same_shape,
};
use zarrs_data_type::DataType;
use zarrs_data_type_bytes::FillValue;
use zarrs_metadata_parts::Configuration;
use zarrs_plugin::{ExtensionName, ZarrVersion};
use zarrs_storage::ByteRange;

/// A codec of elements of one byte, stored in their order. Of a region it asks for the byte of each element.
#[derive(Clone, Copy, Debug)]
pub struct SingleBytesCodec;

impl ExtensionName for SingleBytesCodec {
    ghost name_in = { λ _ _. None };

    fn name(&self, _alloc: Global, _version: ZarrVersion) -> Result<Option<String>, AllocError> {
        Ok(None)
    }
}

impl CodecTraits for SingleBytesCodec {
    ghost written = { λ _ _ _. None };

    ghost decodes_parts = { λ _. record { partial_read = true; partial_decode = true } };

    ghost encodes_parts = { λ _. record { partial_encode = false } };

    fn configuration(
        &self,
        _alloc: Global,
        _version: ZarrVersion,
        _options: &CodecMetadataOptions,
    ) -> Result<Option<Configuration>, AllocError> {
        Ok(None)
    }

    fn partial_decoder_capability(&self) -> PartialDecoderCapability {
        PartialDecoderCapability {
            partial_read: true,
            partial_decode: true,
        }
    }

    fn partial_encoder_capability(&self) -> PartialEncoderCapability {
        PartialEncoderCapability {
            partial_encode: false,
        }
    }
}

impl ArrayCodecTraits for SingleBytesCodec {
    ghost unserved = { λ _ _ data_type _. single_unserved data_type };

    ghost concurrency = { λ _ _ _. record { minimum = 1; maximum = 1 } };

    ghost granularity = { λ _ shape. shape };

    ghost serves_parts = { λ c level fill served with_shape with_type with_fill.
        single_serves level.data_type with_type served };

    fn recommended_concurrency(
        &self,
        _shape: &[NonZeroU64],
        data_type: &DataType,
    ) -> Result<RecommendedConcurrency, CodecError> {
        expect_byte(data_type)?;
        Ok(RecommendedConcurrency::new_maximum(1))
    }

    fn partial_decode_granularity(
        &self,
        alloc: Global,
        shape: &[NonZeroU64],
    ) -> Result<ChunkShape, AllocError> {
        let shape = same_shape(alloc, shape)?;
        Ok(shape)
    }
}

impl ArrayToBytesCodecTraits for SingleBytesCodec {
    ghost use Rattle.std.specs.Prelude.{length};
    ghost use Rattle.zarr_model.specs.Element.{kind_of};
    ghost use Rattle.zarr_model.specs.ArrayBytes.{fixed_bytes};
    ghost use Rattle.zarr_model.proofs.BytesLaws.{length-meaning};
    ghost use Rattle.zarrs_codec_array_bytes.specs.Refusals.{fine, told_by, wrong_length};
    ghost use Rattle.zarrs_codec_error.specs.declared.bytes_representation.BytesRepresentation.TheVariants.{FixedSize};
    ghost use Rattle.zarrs_codec_traits.proofs.FaultLaws.{told_no_fault};

    ghost meaning = { λ _ _ level value. single_list level value };

    ghost says = { λ _ _ level value e.
        told_by e ≡ wrong_length (length value) (count_of level.shape) };

    ghost beyond = { λ _ _ _. fine };

    ghost takes = { λ _ _. Unit {0} };

    ghost request = { λ _ shape _ box. Some (ranges_in shape box) };

    ghost representation = { λ _ level. FixedSize (count_of level.shape) };

    ghost compacts = { λ _. false };

    ghost counted = { λ c under level value xs e.
        length-meaning (kind_of level.data_type) (count_of level.shape) (fixed_bytes value) xs e };

    ghost taken = { λ _ _ _ _ _ _ _ _. refl };

    ghost takes_few = { λ _ _ _ _ _. tt };

    ghost refuses_form = { λ _ _ _. inl refl };

    ghost asks = { λ c under level box fill value ranges served inside some invalid.
        single_asks level box value ranges served inside some invalid };

    ghost no_fault = { λ c under level value e told.
        told_no_fault e (wrong_length (length value) (count_of level.shape)) refl told };

    fn encoded_representation(
        &self,
        shape: &[NonZeroU64],
        data_type: &DataType,
        _fill_value: &FillValue,
    ) -> Result<BytesRepresentation, CodecError> {
        expect_byte(data_type)?;
        Ok(BytesRepresentation::FixedSize(num_elements(shape)))
    }

    #[tactic(auto, using(crate::proofs::SingleLaws::byte_fixed))]
    fn encode(
        &self,
        alloc: Global,
        bytes: ArrayBytes<'static>,
        shape: &[NonZeroU64],
        data_type: &DataType,
        _fill_value: &FillValue,
        _options: &CodecOptions,
    ) -> Result<Vec<u8>, CodecError> {
        expect_byte(data_type)?;
        bytes.validate(num_elements(shape), data_type)?;
        let value = fixed_value(alloc, bytes)?;
        Ok(value)
    }

    #[tactic(auto, using(crate::proofs::SingleLaws::byte_list, crate::proofs::SingleLaws::no_list))]
    fn decode(
        &self,
        _alloc: Global,
        bytes: Vec<u8>,
        shape: &[NonZeroU64],
        data_type: &DataType,
        _fill_value: &FillValue,
        _options: &CodecOptions,
    ) -> Result<ArrayBytes<'static>, CodecError> {
        expect_byte(data_type)?;
        let expected_len = num_elements(shape) as usize;
        if bytes.len() != expected_len {
            return Err(CodecError::UnexpectedChunkDecodedSize(InvalidBytesLengthError {
                len: bytes.len(),
                expected_len,
            }));
        }
        Ok(ArrayBytes::Fixed(CowSlice::Owned(bytes)))
    }

    fn byte_request(
        &self,
        alloc: Global,
        region: &ArraySubset,
        shape: &[NonZeroU64],
        data_type: &DataType,
    ) -> Result<Option<Vec<ByteRange>>, CodecError> {
        expect_byte(data_type)?;
        let ranges = region_ranges(alloc, region, shape)?;
        Ok(Some(ranges))
    }

    fn decode_parts(
        &self,
        alloc: Global,
        parts: Vec<Vec<u8>>,
        _region: &ArraySubset,
        _shape: &[NonZeroU64],
        data_type: &DataType,
        _fill_value: &FillValue,
        _options: &CodecOptions,
    ) -> Result<ArrayBytes<'static>, CodecError> {
        match expect_byte(data_type) {
            Ok(()) => joined_elements(alloc, parts),
            Err(error) => Err(error),
        }
    }
}
