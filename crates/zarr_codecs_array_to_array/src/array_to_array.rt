//! The array-to-array codecs as one type.

ghost use Rattle.std.specs.Prelude.{Some, true, false};
ghost use Rattle.zarr_codecs_array_to_array.specs.Views.{array_form};

use crate::{OffsetCodec, TransposeCodec};
use std::alloc::{AllocError, Global};
use std::num::NonZeroU64;
use zarrs_array_subset::{ArraySubset, ChunkShape};
use zarrs_codec_array_bytes::ArrayBytes;
use zarrs_codec_error::{
    CodecError, CodecMetadataOptions, CodecOptions, PartialDecoderCapability,
    PartialEncoderCapability, RecommendedConcurrency,
};
use zarrs_codec_traits::{ArrayCodecTraits, ArrayToArrayCodecTraits, CodecTraits};
use zarrs_data_type::DataType;
use zarrs_data_type_bytes::FillValue;
use zarrs_metadata_parts::Configuration;
use zarrs_plugin::{ExtensionName, ZarrVersion};

/// An array-to-array codec of this project.
#[derive(Debug, Drop)]
pub enum BasicArrayToArray {
    /// Numbers with an offset added.
    Offset(OffsetCodec),
    /// The dimensions in another order.
    Transpose(TransposeCodec),
}

impl BasicArrayToArray {
    ghost use Rattle.std.specs.Prelude.{◌≡◌, IfOk};
    ghost use Rattle.zarr_codecs_array_to_array.specs.ArrayToArray.{array_has_rank};

    /// A copy.
    ///
    /// # Errors
    /// [`AllocError`] where memory runs out.
    pub fn try_clone(&self, alloc: Global) -> Result<Self, AllocError>
        ensures { IfOk result (λ c. array_form c ≡ array_form self.now) }
    {
        match self {
            BasicArrayToArray::Offset(codec) => Ok(BasicArrayToArray::Offset(*codec)),
            BasicArrayToArray::Transpose(codec) => {
                let codec = codec.try_clone(alloc)?;
                Ok(BasicArrayToArray::Transpose(codec))
            }
        }
    }

    /// Whether shapes with so many dimensions are served.
    pub fn has_rank(&self, rank: usize) -> bool
        ensures { result ≡ array_has_rank rank (array_form self.now) }
    {
        match self {
            BasicArrayToArray::Offset(_) => true,
            BasicArrayToArray::Transpose(codec) => codec.order().len() == rank,
        }
    }
}

impl ExtensionName for BasicArrayToArray {
    ghost use Rattle.zarr_codecs_array_to_array.specs.ArrayToArray.{array_name_by};

    ghost name_in = { λ c _. Some (array_name_by (array_form c)) };

    fn name(&self, alloc: Global, version: ZarrVersion) -> Result<Option<String>, AllocError> {
        match self {
            BasicArrayToArray::Offset(codec) => codec.name(alloc, version),
            BasicArrayToArray::Transpose(codec) => codec.name(alloc, version),
        }
    }
}

impl CodecTraits for BasicArrayToArray {
    ghost use Rattle.zarr_codecs_array_to_array.specs.ArrayToArray.{array_members_by};

    ghost written = { λ c _ _. Some (array_members_by (array_form c)) };

    ghost decodes_parts = { λ _. record { partial_read = true; partial_decode = true } };

    ghost encodes_parts = { λ _. record { partial_encode = false } };

    fn configuration(
        &self,
        alloc: Global,
        version: ZarrVersion,
        options: &CodecMetadataOptions,
    ) -> Result<Option<Configuration>, AllocError> {
        match self {
            BasicArrayToArray::Offset(codec) => codec.configuration(alloc, version, options),
            BasicArrayToArray::Transpose(codec) => codec.configuration(alloc, version, options),
        }
    }

    fn partial_decoder_capability(&self) -> PartialDecoderCapability {
        match self {
            BasicArrayToArray::Offset(codec) => codec.partial_decoder_capability(),
            BasicArrayToArray::Transpose(codec) => codec.partial_decoder_capability(),
        }
    }

    fn partial_encoder_capability(&self) -> PartialEncoderCapability {
        match self {
            BasicArrayToArray::Offset(codec) => codec.partial_encoder_capability(),
            BasicArrayToArray::Transpose(codec) => codec.partial_encoder_capability(),
        }
    }
}

impl ArrayCodecTraits for BasicArrayToArray {
    ghost use Rattle.zarr_codecs_array_to_array.specs.ArrayToArray.{array_unserved_by};
    ghost use Rattle.zarr_codecs_array_to_array.specs.Laws.{served_parts};

    ghost unserved = { λ c shape data_type _. array_unserved_by (array_form c) shape data_type };

    ghost concurrency = { λ _ _ _. record { minimum = 1; maximum = 1 } };

    ghost granularity = { λ _ shape. shape };

    ghost serves_parts = { λ c level fill served with_shape with_type with_fill.
        served_parts c level with_shape with_type served };

    fn recommended_concurrency(
        &self,
        shape: &[NonZeroU64],
        data_type: &DataType,
    ) -> Result<RecommendedConcurrency, CodecError> {
        match self {
            BasicArrayToArray::Offset(codec) => codec.recommended_concurrency(shape, data_type),
            BasicArrayToArray::Transpose(codec) => codec.recommended_concurrency(shape, data_type),
        }
    }

    fn partial_decode_granularity(
        &self,
        alloc: Global,
        shape: &[NonZeroU64],
    ) -> Result<ChunkShape, AllocError> {
        match self {
            BasicArrayToArray::Offset(codec) => codec.partial_decode_granularity(alloc, shape),
            BasicArrayToArray::Transpose(codec) => codec.partial_decode_granularity(alloc, shape),
        }
    }
}

impl ArrayToArrayCodecTraits for BasicArrayToArray {
    ghost use Rattle.zarr_codecs_array_to_array.specs.ArrayToArray.{array_codec_of, fill_below_by, shape_above_by};
    ghost use Rattle.zarr_codecs_array_to_array.specs.Laws.{list_counted, list_decodes, fill_decodes, fill_denotes, fill_proper, fill_short, count_below, level_fits, box_inside, shape_back};

    ghost meaning = { λ c. array_codec_of (array_form c) };

    ghost fill_below = { λ c _ fill. fill_below_by (array_form c) fill };

    ghost region_below = { λ c shape box. (array_codec_of (array_form c)).box_below shape box };

    ghost shape_above = { λ c shape. shape_above_by (array_form c) shape };

    ghost counted = { λ c level fill below xs served long is.
        list_counted c level below xs long is };

    ghost decodes = { λ c level fill below served long. list_decodes (array_form c) level below };

    ghost fills = { λ c level fill served denotes proper. fill_decodes c level served proper };

    ghost denotes = { λ c level fill served denotes. fill_denotes c level fill served denotes };

    ghost keeps_bytes = { λ c level fill served denotes proper.
        fill_proper c level fill served denotes proper };

    ghost keeps_count = { λ c level fill served. count_below c level served };

    ghost keeps_fit = { λ c level fill served fits. level_fits c level served fits };

    ghost keeps_short = { λ c level fill served denotes short.
        fill_short c level fill served short };

    ghost region_inside = { λ c level fill box served inside.
        box_inside c level box served inside };

    ghost shape_between = { λ c level fill shape served is. shape_back c level shape is };

    fn encoded_data_type(
        &self,
        alloc: Global,
        decoded_data_type: &DataType,
    ) -> Result<DataType, CodecError> {
        match self {
            BasicArrayToArray::Offset(codec) => codec.encoded_data_type(alloc, decoded_data_type),
            BasicArrayToArray::Transpose(codec) => codec.encoded_data_type(
                alloc,
                decoded_data_type,
            ),
        }
    }

    fn encoded_fill_value(
        &self,
        alloc: Global,
        decoded_data_type: &DataType,
        decoded_fill_value: &FillValue,
    ) -> Result<FillValue, CodecError> {
        match self {
            BasicArrayToArray::Offset(codec) => codec.encoded_fill_value(
                alloc,
                decoded_data_type,
                decoded_fill_value,
            ),
            BasicArrayToArray::Transpose(codec) => codec.encoded_fill_value(
                alloc,
                decoded_data_type,
                decoded_fill_value,
            ),
        }
    }

    fn encoded_shape(
        &self,
        alloc: Global,
        decoded_shape: &[NonZeroU64],
    ) -> Result<ChunkShape, CodecError> {
        match self {
            BasicArrayToArray::Offset(codec) => codec.encoded_shape(alloc, decoded_shape),
            BasicArrayToArray::Transpose(codec) => codec.encoded_shape(alloc, decoded_shape),
        }
    }

    fn decoded_shape(
        &self,
        alloc: Global,
        encoded_shape: &[NonZeroU64],
    ) -> Result<Option<ChunkShape>, CodecError> {
        match self {
            BasicArrayToArray::Offset(codec) => codec.decoded_shape(alloc, encoded_shape),
            BasicArrayToArray::Transpose(codec) => codec.decoded_shape(alloc, encoded_shape),
        }
    }

    fn encoded_representation(
        &self,
        alloc: Global,
        shape: &[NonZeroU64],
        data_type: &DataType,
        fill_value: &FillValue,
    ) -> Result<(ChunkShape, DataType, FillValue), CodecError> {
        match self {
            BasicArrayToArray::Offset(codec) => codec.encoded_representation(
                alloc, shape, data_type, fill_value,
            ),
            BasicArrayToArray::Transpose(codec) => codec.encoded_representation(
                alloc, shape, data_type, fill_value,
            ),
        }
    }

    fn encode(
        &self,
        alloc: Global,
        bytes: ArrayBytes<'static>,
        shape: &[NonZeroU64],
        data_type: &DataType,
        fill_value: &FillValue,
        options: &CodecOptions,
    ) -> Result<ArrayBytes<'static>, CodecError> {
        match self {
            BasicArrayToArray::Offset(codec) => codec.encode(
                alloc, bytes, shape, data_type, fill_value, options,
            ),
            BasicArrayToArray::Transpose(codec) => codec.encode(
                alloc, bytes, shape, data_type, fill_value, options,
            ),
        }
    }

    fn decode(
        &self,
        alloc: Global,
        bytes: ArrayBytes<'static>,
        shape: &[NonZeroU64],
        data_type: &DataType,
        fill_value: &FillValue,
        options: &CodecOptions,
    ) -> Result<ArrayBytes<'static>, CodecError> {
        match self {
            BasicArrayToArray::Offset(codec) => codec.decode(
                alloc, bytes, shape, data_type, fill_value, options,
            ),
            BasicArrayToArray::Transpose(codec) => codec.decode(
                alloc, bytes, shape, data_type, fill_value, options,
            ),
        }
    }

    fn inner_subset(
        &self,
        alloc: Global,
        region: &ArraySubset,
        shape: &[NonZeroU64],
    ) -> Result<ArraySubset, CodecError> {
        match self {
            BasicArrayToArray::Offset(codec) => codec.inner_subset(alloc, region, shape),
            BasicArrayToArray::Transpose(codec) => codec.inner_subset(alloc, region, shape),
        }
    }

    fn decode_region(
        &self,
        alloc: Global,
        bytes: ArrayBytes<'static>,
        region: &ArraySubset,
        shape: &[NonZeroU64],
        data_type: &DataType,
        fill_value: &FillValue,
        options: &CodecOptions,
    ) -> Result<ArrayBytes<'static>, CodecError> {
        match self {
            BasicArrayToArray::Offset(codec) => codec.decode_region(
                alloc, bytes, region, shape, data_type, fill_value, options,
            ),
            BasicArrayToArray::Transpose(codec) => codec.decode_region(
                alloc, bytes, region, shape, data_type, fill_value, options,
            ),
        }
    }
}
