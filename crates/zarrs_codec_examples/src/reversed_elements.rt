//! A codec that turns the list of elements round.

ghost use Rattle.std.specs.Prelude.{Some, None, false, refl};
ghost use Rattle.zarr_model.specs.Region.{count_of, whole};

use crate::turning::{turned, turned_region};
use std::alloc::{AllocError, Global};
use std::num::NonZeroU64;
use zarrs_array_subset::{ArraySubset, ChunkShape};
use zarrs_codec_array_bytes::ArrayBytes;
use zarrs_codec_error::{
    CodecError, CodecMetadataOptions, CodecOptions, PartialDecoderCapability,
    PartialEncoderCapability, RecommendedConcurrency,
};
use zarrs_codec_traits::{
    ArrayCodecTraits, ArrayToArrayCodecTraits, CodecTraits, same_fill, same_shape, whole_box,
};
use zarrs_data_type::DataType;
use zarrs_data_type_bytes::FillValue;
use zarrs_metadata_parts::Configuration;
use zarrs_plugin::{ExtensionName, ZarrVersion};

/// A codec whose elements below are those above, the last one first; the shape, the data type and the fill value are
/// the same. It serves every data type.
///
/// The elements of a region may stand anywhere below, so all of them are read for one.
#[derive(Clone, Copy, Debug)]
pub struct ReversedElementsCodec;

impl ExtensionName for ReversedElementsCodec {
    ghost name_in = { λ _ _. None };

    fn name(&self, _alloc: Global, _version: ZarrVersion) -> Result<Option<String>, AllocError> {
        Ok(None)
    }
}

impl CodecTraits for ReversedElementsCodec {
    ghost written = { λ _ _ _. None };

    ghost decodes_parts = { λ _. record { partial_read = false; partial_decode = false } };

    ghost encodes_parts = { λ _. record { partial_encode = false } };

    fn configuration(
        &self,
        _alloc: Global,
        _version: ZarrVersion,
        _options: &CodecMetadataOptions,
    ) -> Result<Option<Configuration>, AllocError> {
        Ok(None)
    }

    fn partial_decoder_capability(&self) -> PartialDecoderCapability {
        PartialDecoderCapability {
            partial_read: false,
            partial_decode: false,
        }
    }

    fn partial_encoder_capability(&self) -> PartialEncoderCapability {
        PartialEncoderCapability {
            partial_encode: false,
        }
    }
}

impl ArrayCodecTraits for ReversedElementsCodec {
    ghost unserved = { λ _ _ _ _. None };

    ghost concurrency = { λ _ _ _. record { minimum = 1; maximum = 1 } };

    ghost granularity = { λ _ shape. shape };

    ghost serves_parts = { λ c level fill served with_shape with_type with_fill. refl };

    fn recommended_concurrency(
        &self,
        _shape: &[NonZeroU64],
        _data_type: &DataType,
    ) -> Result<RecommendedConcurrency, CodecError> {
        Ok(RecommendedConcurrency::new_maximum(1))
    }

    fn partial_decode_granularity(
        &self,
        alloc: Global,
        shape: &[NonZeroU64],
    ) -> Result<ChunkShape, AllocError> {
        let shape = same_shape(alloc, shape)?;
        Ok(shape)
    }
}

impl ArrayToArrayCodecTraits for ReversedElementsCodec {
    ghost use Rattle.std.proofs.Math.Nat.{le_refl};
    ghost use Rattle.zarrs_codec.proofs.BoxLaws.{whole_inside};
    ghost use Rattle.zarrs_codec_examples.specs.Turned.{reversed_codec, reversed_counted, reversed_fills, same_above};

    ghost meaning = { λ _. reversed_codec };

    ghost fill_below = { λ _ _ fill. fill };

    ghost region_below = { λ _ shape _. whole shape };

    ghost shape_above = { λ _ shape. Some shape };

    ghost counted = { λ c level fill below xs served long is.
        reversed_counted (count_of level.shape) below xs long is };

    ghost decodes = { λ c level fill below served long. refl };

    ghost fills = { λ c level fill served denotes proper.
        reversed_fills (count_of level.shape) level.fill };

    ghost denotes = { λ c level fill served denotes. denotes };

    ghost keeps_bytes = { λ c level fill served denotes proper. proper };

    ghost keeps_count = { λ c level fill served. le_refl (count_of level.shape) };

    ghost keeps_fit = { λ c level fill served fits. fits };

    ghost keeps_short = { λ c level fill served denotes short. short };

    ghost region_inside = { λ c level fill box served inside. whole_inside level.shape };

    ghost shape_between = { λ c level fill shape served is. same_above shape level.shape is };

    fn encoded_data_type(
        &self,
        alloc: Global,
        decoded_data_type: &DataType,
    ) -> Result<DataType, CodecError> {
        let copy = decoded_data_type.try_clone(alloc)?;
        Ok(copy)
    }

    fn encoded_fill_value(
        &self,
        alloc: Global,
        decoded_data_type: &DataType,
        decoded_fill_value: &FillValue,
    ) -> Result<FillValue, CodecError> {
        same_fill(alloc, decoded_data_type, decoded_fill_value)
    }

    fn encoded_shape(
        &self,
        alloc: Global,
        decoded_shape: &[NonZeroU64],
    ) -> Result<ChunkShape, CodecError> {
        let shape = same_shape(alloc, decoded_shape)?;
        Ok(shape)
    }

    fn decoded_shape(
        &self,
        alloc: Global,
        encoded_shape: &[NonZeroU64],
    ) -> Result<Option<ChunkShape>, CodecError> {
        let shape = same_shape(alloc, encoded_shape)?;
        Ok(Some(shape))
    }

    fn encoded_representation(
        &self,
        alloc: Global,
        shape: &[NonZeroU64],
        data_type: &DataType,
        fill_value: &FillValue,
    ) -> Result<(ChunkShape, DataType, FillValue), CodecError> {
        let fill_below = same_fill(alloc, data_type, fill_value)?;
        let type_below = data_type.try_clone(alloc)?;
        let shape_below = same_shape(alloc, shape)?;
        Ok((shape_below, type_below, fill_below))
    }

    fn encode(
        &self,
        alloc: Global,
        bytes: ArrayBytes<'static>,
        shape: &[NonZeroU64],
        data_type: &DataType,
        _fill_value: &FillValue,
        _options: &CodecOptions,
    ) -> Result<ArrayBytes<'static>, CodecError> {
        turned(alloc, &bytes, shape, data_type)
    }

    fn decode(
        &self,
        alloc: Global,
        bytes: ArrayBytes<'static>,
        shape: &[NonZeroU64],
        data_type: &DataType,
        _fill_value: &FillValue,
        _options: &CodecOptions,
    ) -> Result<ArrayBytes<'static>, CodecError> {
        turned(alloc, &bytes, shape, data_type)
    }

    fn inner_subset(
        &self,
        alloc: Global,
        _region: &ArraySubset,
        shape: &[NonZeroU64],
    ) -> Result<ArraySubset, CodecError> {
        whole_box(alloc, shape)
    }

    fn decode_region(
        &self,
        alloc: Global,
        bytes: ArrayBytes<'static>,
        region: &ArraySubset,
        shape: &[NonZeroU64],
        data_type: &DataType,
        _fill_value: &FillValue,
        _options: &CodecOptions,
    ) -> Result<ArrayBytes<'static>, CodecError> {
        turned_region(alloc, &bytes, region, shape, data_type)
    }
}
