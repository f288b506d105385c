//! The codec `transpose`: the dimensions of an array in another order.
//!
//! See <https://zarr-specs.readthedocs.io/en/latest/v3/codecs/transpose/index.html>.

ghost use Rattle.std.specs.Prelude.{◌≡◌, Some, true, false, refl, IfOk, option_map};
ghost use Rattle.zarrs_metadata_values.specs.Configuration.{configuration_seen};
ghost use Rattle.zarrs_codec_traits.specs.Prelude.{Makes, or_config};
ghost use Rattle.zarrs_plugin.specs.declared.error.PluginKind.TheVariants as kinds;
ghost use Rattle.zarr_codecs_elements.specs.Order.{is_order};
ghost use Rattle.zarr_codecs_array_to_array.specs.Configuration.{order_in};

use crate::transpose_configuration::{order_configuration, read_order};
use std::alloc::{AllocError, Global};
use std::num::NonZeroU64;
use zarr_codecs_elements::{
    decoded, encoded, expect_rank, inverse_of, permuted_shape, permuted_subset, region_decoded,
};
use zarrs_array_subset::{ArraySubset, ChunkShape};
use zarrs_codec_array_bytes::ArrayBytes;
use zarrs_codec_error::{
    CodecError, CodecMetadataOptions, CodecOptions, PartialDecoderCapability,
    PartialEncoderCapability, RecommendedConcurrency,
};
use zarrs_codec_traits::{
    ArrayCodecTraits, ArrayToArrayCodecTraits, CodecTraits, CodecTraitsV3, same_fill, same_shape,
    unsupported_codec,
};
use zarrs_data_type::DataType;
use zarrs_data_type_bytes::FillValue;
use zarrs_metadata_parts::making::unmade;
use zarrs_metadata_parts::{Configuration, MetadataV3};
use zarrs_plugin::{ExtensionName, PluginCreateError, ZarrVersion};

/// The codec `transpose`, whose dimension `i` below is dimension `order[i]` above. It serves every data type, and the
/// shapes that have as many dimensions as its order.
#[derive(Debug, Drop)]
pub struct TransposeCodec {
    order: Vec<usize>,
    ghost orders: { is_order order.items ≡ true },
}

impl TransposeCodec {
    ghost use Rattle.zarr_codecs_array_to_array.specs.OrderOf.{order_of};

    /// The codec of an order, which has each number below its length once.
    pub fn new(order: Vec<usize>) -> Self
        requires { is_order order.items ≡ true }
        ensures { order_of result ≡ order.items }
    {
        TransposeCodec { order }
    }

    /// The codec of a configuration, which is exactly an `order` that has each number below its length once.
    ///
    /// # Errors
    /// `Config` exactly where the configuration is none; or where memory runs out.
    #[tactic(auto, using(zarrs_metadata_parts::proofs::MakingLaws::of_configurations))]
    pub fn from_configuration(
        alloc: Global,
        configuration: Option<&Configuration>,
    ) -> Result<Self, PluginCreateError>
        ensures { Makes kinds.Codec order_of result (or_config
            (order_in (option_map (λ c. configuration_seen c.now) configuration.entry))) }
    {
        match read_order(alloc, configuration) {
            Ok(order) => Ok(TransposeCodec { order }),
            Err(error) => Err(unmade(error)),
        }
    }

    /// The order: which dimension above each dimension below is.
    pub fn order(&self) -> &[usize]
        ensures { result.now ≡ order_of self.now }
    {
        &self.order
    }

    /// A copy.
    ///
    /// # Errors
    /// [`AllocError`] where memory runs out.
    pub fn try_clone(&self, alloc: Global) -> Result<Self, AllocError>
        ensures { IfOk result (λ c. order_of c ≡ order_of self.now) }
    {
        let order = Vec::from_slice(alloc, &self.order)?;
        Ok(TransposeCodec { order })
    }
}

impl ExtensionName for TransposeCodec {
    ghost use Rattle.std.specs.Prelude.{codes};

    ghost name_in = { λ _ _. Some (codes "transpose") };

    fn name(&self, alloc: Global, _version: ZarrVersion) -> Result<Option<String>, AllocError> {
        let name = String::from_str(alloc, "transpose")?;
        Ok(Some(name))
    }
}

impl CodecTraits for TransposeCodec {
    ghost use Rattle.zarr_codecs_array_to_array.specs.Configuration.{order_members};
    ghost use Rattle.zarr_codecs_array_to_array.specs.OrderOf.{order_of};

    ghost written = { λ c _ _. Some (order_members (order_of c)) };

    ghost decodes_parts = { λ _. record { partial_read = true; partial_decode = true } };

    ghost encodes_parts = { λ _. record { partial_encode = false } };

    fn configuration(
        &self,
        alloc: Global,
        _version: ZarrVersion,
        _options: &CodecMetadataOptions,
    ) -> Result<Option<Configuration>, AllocError> {
        let configuration = order_configuration(alloc, &self.order)?;
        Ok(Some(configuration))
    }

    fn partial_decoder_capability(&self) -> PartialDecoderCapability {
        PartialDecoderCapability {
            partial_read: true,
            partial_decode: true,
        }
    }

    fn partial_encoder_capability(&self) -> PartialEncoderCapability {
        PartialEncoderCapability {
            partial_encode: false,
        }
    }
}

impl CodecTraitsV3 for TransposeCodec {
    ghost use Rattle.zarr_codecs_array_to_array.specs.Configuration.{transpose_created};

    ghost created = { transpose_created };

    #[tactic(auto, using(zarrs_metadata_parts::proofs::MakingLaws::of_configurations))]
    fn create(alloc: Global, metadata: &MetadataV3) -> Result<Self, PluginCreateError> {
        if metadata.name() != "transpose" {
            return Err(unsupported_codec(alloc, metadata.name()));
        }
        match read_order(alloc, metadata.configuration()) {
            Ok(order) => Ok(TransposeCodec { order }),
            Err(error) => Err(unmade(error)),
        }
    }
}

impl ArrayCodecTraits for TransposeCodec {
    ghost use Rattle.zarr_codecs_array_to_array.specs.OrderOf.{order_of};
    ghost use Rattle.zarr_codecs_elements.specs.Moving.{rank_unserved};
    ghost use Rattle.zarr_codecs_elements.proofs.MovedLevelLaws.{rank_serves};

    ghost unserved = { λ c shape _ _. rank_unserved (order_of c) shape };

    ghost concurrency = { λ _ _ _. record { minimum = 1; maximum = 1 } };

    ghost granularity = { λ _ shape. shape };

    ghost serves_parts = { λ c level fill served with_shape with_type with_fill.
        rank_serves (order_of c) level.shape with_shape served };

    fn recommended_concurrency(
        &self,
        shape: &[NonZeroU64],
        _data_type: &DataType,
    ) -> Result<RecommendedConcurrency, CodecError> {
        expect_rank(&self.order, shape)?;
        Ok(RecommendedConcurrency::new_maximum(1))
    }

    fn partial_decode_granularity(
        &self,
        alloc: Global,
        shape: &[NonZeroU64],
    ) -> Result<ChunkShape, AllocError> {
        let shape = same_shape(alloc, shape)?;
        Ok(shape)
    }
}

impl ArrayToArrayCodecTraits for TransposeCodec {
    ghost use Rattle.zarr_model.specs.Codec.{transpose_codec};
    ghost use Rattle.zarr_model.proofs.ChainLaws.{transpose-keeps_count};
    ghost use Rattle.zarr_model.specs.Codec.{permuted_box};
    ghost use Rattle.zarr_codecs_array_to_array.specs.OrderOf.{order_of};
    ghost use Rattle.zarr_codecs_elements.specs.Moving.{shape_above_of};
    ghost use Rattle.zarr_codecs_elements.proofs.MovedLevelLaws.{fill_stays, count_kept, fit_kept, region_stays, above_below};

    ghost meaning = { λ c. transpose_codec (order_of c) };

    ghost fill_below = { λ _ _ fill. fill };

    ghost region_below = { λ c _ box. permuted_box (order_of c) box };

    ghost shape_above = { λ c shape. shape_above_of (order_of c) shape };

    ghost counted = { λ c level fill below xs served long is.
        transpose-keeps_count (order_of c) level below xs long is };

    ghost decodes = { λ c level fill below served long. refl };

    ghost fills = { λ c level fill served denotes proper.
        fill_stays (order_of c) level c.orders served };

    ghost denotes = { λ c level fill served denotes. denotes };

    ghost keeps_bytes = { λ c level fill served denotes proper. proper };

    ghost keeps_count = { λ c level fill served.
        count_kept (order_of c) level.shape c.orders served };

    ghost keeps_fit = { λ c level fill served fits.
        fit_kept (order_of c) level.shape level.data_type c.orders served fits };

    ghost keeps_short = { λ c level fill served denotes short. short };

    ghost region_inside = { λ c level fill box served inside.
        region_stays (order_of c) level.shape box c.orders served inside };

    ghost shape_between = { λ c level fill shape served is.
        above_below (order_of c) shape level.shape c.orders is };

    fn encoded_data_type(
        &self,
        alloc: Global,
        decoded_data_type: &DataType,
    ) -> Result<DataType, CodecError> {
        let copy = decoded_data_type.try_clone(alloc)?;
        Ok(copy)
    }

    fn encoded_fill_value(
        &self,
        alloc: Global,
        decoded_data_type: &DataType,
        decoded_fill_value: &FillValue,
    ) -> Result<FillValue, CodecError> {
        same_fill(alloc, decoded_data_type, decoded_fill_value)
    }

    fn encoded_shape(
        &self,
        alloc: Global,
        decoded_shape: &[NonZeroU64],
    ) -> Result<ChunkShape, CodecError> {
        expect_rank(&self.order, decoded_shape)?;
        let shape = permuted_shape(alloc, &self.order, decoded_shape)?;
        Ok(shape)
    }

    fn decoded_shape(
        &self,
        alloc: Global,
        encoded_shape: &[NonZeroU64],
    ) -> Result<Option<ChunkShape>, CodecError> {
        expect_rank(&self.order, encoded_shape)?;
        let back = inverse_of(alloc, &self.order)?;
        let shape = permuted_shape(alloc, &back, encoded_shape)?;
        Ok(Some(shape))
    }

    fn encoded_representation(
        &self,
        alloc: Global,
        shape: &[NonZeroU64],
        data_type: &DataType,
        fill_value: &FillValue,
    ) -> Result<(ChunkShape, DataType, FillValue), CodecError> {
        expect_rank(&self.order, shape)?;
        let fill_below = same_fill(alloc, data_type, fill_value)?;
        let type_below = data_type.try_clone(alloc)?;
        let shape_below = permuted_shape(alloc, &self.order, shape)?;
        Ok((shape_below, type_below, fill_below))
    }

    fn encode(
        &self,
        alloc: Global,
        bytes: ArrayBytes<'static>,
        shape: &[NonZeroU64],
        data_type: &DataType,
        _fill_value: &FillValue,
        _options: &CodecOptions,
    ) -> Result<ArrayBytes<'static>, CodecError> {
        expect_rank(&self.order, shape)?;
        encoded(alloc, bytes, &self.order, shape, data_type)
    }

    fn decode(
        &self,
        alloc: Global,
        bytes: ArrayBytes<'static>,
        shape: &[NonZeroU64],
        data_type: &DataType,
        _fill_value: &FillValue,
        _options: &CodecOptions,
    ) -> Result<ArrayBytes<'static>, CodecError> {
        expect_rank(&self.order, shape)?;
        decoded(alloc, bytes, &self.order, shape, data_type)
    }

    fn inner_subset(
        &self,
        alloc: Global,
        region: &ArraySubset,
        shape: &[NonZeroU64],
    ) -> Result<ArraySubset, CodecError> {
        expect_rank(&self.order, shape)?;
        permuted_subset(alloc, &self.order, region)
    }

    fn decode_region(
        &self,
        alloc: Global,
        bytes: ArrayBytes<'static>,
        region: &ArraySubset,
        shape: &[NonZeroU64],
        data_type: &DataType,
        _fill_value: &FillValue,
        _options: &CodecOptions,
    ) -> Result<ArrayBytes<'static>, CodecError> {
        expect_rank(&self.order, shape)?;
        region_decoded(alloc, bytes, &self.order, region, shape, data_type)
    }
}
