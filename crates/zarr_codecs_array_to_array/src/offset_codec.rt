//! The codec `zarr_basics.offset`: an offset added to numbers.

ghost use Rattle.std.specs.Prelude.{◌≡◌, ◌<◌, ◌≤◌, ◌-◌, ◌+◌, ◌*◌, ◌^◌, ◌≤ℤ◌, Some, None, Ok, true, false, pos, negsuc, refl, int_lt, option_map, IfOk, IfErr};
ghost use Rattle.zarrs_codec_traits.specs.Prelude.{meaning, has_long_element, Makes, or_config};
ghost use Rattle.zarrs_codec_traits.specs.Prelude.{type_of, raw_of, validity};
ghost use Rattle.zarrs_codec_traits.specs.Prelude.{Answers, RefusesBy};
ghost use Rattle.zarrs_metadata_values.specs.Configuration.{configuration_seen};
ghost use Rattle.zarrs_plugin.specs.declared.error.PluginKind.TheVariants as kinds;
ghost use Rattle.zarrs_plugin.specs.declared.error.PluginCreateError.TheVariants as plugin;
ghost use Rattle.zarrs_codec_error.specs.declared.error.CodecError.TheVariants as codec;
ghost use Rattle.zarrs_codec_array_bytes.specs.Steps.{kind_seen, bytes_seen};
ghost use Rattle.zarr_codecs_elements.specs.Numbers.{integer_of, taken_off, TakesOff};
ghost use Rattle.zarr_codecs_elements.specs.Offset.{offset_type_unserved};
ghost use Rattle.zarr_codecs_array_to_array.specs.Offset.{offset_in};
ghost use Rattle.zarr_codecs_array_to_array.specs.Shifted.{list_less, AreMeant};

use crate::fill::shifted_fill;
use crate::offset_configuration::{Integer, offset_configuration, read_offset};
use crate::shift::{shifted, sized};
use std::alloc::{AllocError, Global};
use std::num::NonZeroU64;
use zarr_codecs_elements::amount_of;
use zarrs_array_subset::{ArraySubset, ChunkShape};
use zarrs_codec_array_bytes::ArrayBytes;
use zarrs_codec_error::{
    CodecError, CodecMetadataOptions, CodecOptions, PartialDecoderCapability,
    PartialEncoderCapability, RecommendedConcurrency,
};
use zarrs_codec_traits::{
    ArrayCodecTraits, ArrayToArrayCodecTraits, CodecTraits, CodecTraitsV3, num_elements,
    same_shape, unsupported_codec,
};
use zarrs_data_type::DataType;
use zarrs_data_type_bytes::FillValue;
use zarrs_metadata_parts::making::unmade;
use zarrs_metadata_parts::{Configuration, MetadataV3};
use zarrs_plugin::{ExtensionName, PluginCreateError, ZarrVersion};

/// The codec `zarr_basics.offset`, which adds an offset to each number, modulo the range of its type.
#[derive(Clone, Copy, Debug)]
pub struct OffsetCodec {
    offset: Integer,
}

// How far a number is from 0, or from -1 downwards.
fn distance(number: i64) -> u64
    ensures { integer_of (int_lt number (pos 0)) result ≡ number }
{
    if number < 0 {
        -(number + 1) as u64
    } else {
        number as u64
    }
}

impl OffsetCodec {
    ghost use Rattle.zarr_codecs_array_to_array.specs.OffsetOf.{offset_of};

    /// The codec that adds this offset.
    pub fn new(offset: i128) -> Self
        requires least { negsuc (2 ^ 63 - 1) ≤ℤ offset }
        requires greatest { offset ≤ℤ pos (2 ^ 64 - 1) }
        ensures { offset_of result ≡ offset }
    {
        let offset = if offset < 0 {
            Integer::Signed(offset as i64)
        } else {
            Integer::Unsigned(offset as u64)
        };
        OffsetCodec { offset }
    }

    /// The codec of a configuration, which is exactly an `offset` that is a whole number of JSON.
    ///
    /// # Errors
    /// `Config` exactly where the configuration is none.
    #[tactic(auto, using(zarrs_metadata_parts::proofs::MakingLaws::of_configurations))]
    pub fn from_configuration(
        configuration: Option<&Configuration>,
    ) -> Result<Self, PluginCreateError>
        ensures made { Makes kinds.Codec offset_of result (or_config
            (offset_in (option_map (λ c. configuration_seen c.now) configuration.entry))) }
        ensures config { IfErr result (λ e. e ≡ plugin.Config) }
    {
        match read_offset(configuration) {
            Ok(offset) => Ok(OffsetCodec { offset }),
            Err(error) => Err(unmade(error)),
        }
    }

    /// A copy.
    ///
    /// # Errors
    /// None: no memory is needed.
    pub fn try_clone(&self, _alloc: Global) -> Result<Self, AllocError>
        ensures { result ≡ Ok self.now }
    {
        Ok(*self)
    }

    // How much is added where the offset is taken off, or put on.
    fn amount(&self, modulus: u128, decoding: bool) -> u64
        requires fits { modulus ≤ 2 ^ 64 }
        requires positive { 0 < modulus }
        ensures { TakesOff modulus (taken_off decoding (offset_of self.now)) result }
    {
        match self.offset {
            Integer::Unsigned(number) => amount_of(false, number, modulus, decoding),
            Integer::Signed(number) => {
                amount_of(number < 0, distance(number), modulus, decoding)
            }
        }
    }

    // So many elements with the offset taken off, or put on.
    #[tactic(auto, using(crate::proofs::ShiftLaws::valid_fixed))]
    fn shifted(
        &self,
        alloc: Global,
        bytes: ArrayBytes<'static>,
        num_elements: u64,
        data_type: &DataType,
        decoding: bool,
    ) -> Result<ArrayBytes<'static>, CodecError>
        requires count { num_elements + 1 < 2 ^ 64 }
        requires bytes { num_elements * bytes_seen data_type.now < 2 ^ 64 }
        ensures refused { RefusesBy (offset_type_unserved (type_of data_type.now)) result }
        ensures exact { offset_type_unserved (type_of data_type.now) ≡ None → Answers
            (validity (kind_seen data_type.now) num_elements (raw_of bytes.entry)) result }
        ensures value { IfOk result
            (λ v. meaning (kind_seen data_type.now) num_elements (raw_of v)
            ≡ list_less (taken_off decoding (offset_of self.now))
            (meaning (kind_seen data_type.now) num_elements (raw_of bytes.entry))) }
        ensures meant { IfOk result (λ _. AreMeant
            (meaning (kind_seen data_type.now) num_elements (raw_of bytes.entry))) }
        ensures short { IfOk result (λ v. has_long_element (raw_of v) ≡ false) }
    {
        let (size, modulus) = sized(data_type)?;
        bytes.validate(num_elements, data_type)?;
        let amount = self.amount(modulus, decoding);
        let out = shifted(alloc, bytes, size, amount)?;
        Ok(out)
    }
}

impl ExtensionName for OffsetCodec {
    ghost use Rattle.std.specs.Prelude.{codes};

    ghost name_in = { λ _ _. Some (codes "zarr_basics.offset") };

    fn name(&self, alloc: Global, _version: ZarrVersion) -> Result<Option<String>, AllocError> {
        let name = String::from_str(alloc, "zarr_basics.offset")?;
        Ok(Some(name))
    }
}

impl CodecTraits for OffsetCodec {
    ghost use Rattle.zarr_codecs_array_to_array.specs.Offset.{offset_members};
    ghost use Rattle.zarr_codecs_array_to_array.specs.OffsetOf.{offset_of};

    ghost written = { λ c _ _. Some (offset_members (offset_of c)) };

    ghost decodes_parts = { λ _. record { partial_read = true; partial_decode = true } };

    ghost encodes_parts = { λ _. record { partial_encode = false } };

    fn configuration(
        &self,
        alloc: Global,
        _version: ZarrVersion,
        _options: &CodecMetadataOptions,
    ) -> Result<Option<Configuration>, AllocError> {
        let configuration = offset_configuration(alloc, self.offset)?;
        Ok(Some(configuration))
    }

    fn partial_decoder_capability(&self) -> PartialDecoderCapability {
        PartialDecoderCapability {
            partial_read: true,
            partial_decode: true,
        }
    }

    fn partial_encoder_capability(&self) -> PartialEncoderCapability {
        PartialEncoderCapability {
            partial_encode: false,
        }
    }
}

impl CodecTraitsV3 for OffsetCodec {
    ghost use Rattle.zarr_codecs_array_to_array.specs.Offset.{offset_created};

    ghost created = { offset_created };

    #[tactic(auto, using(zarrs_metadata_parts::proofs::MakingLaws::of_configurations))]
    fn create(alloc: Global, metadata: &MetadataV3) -> Result<Self, PluginCreateError> {
        if metadata.name() != "zarr_basics.offset" {
            return Err(unsupported_codec(alloc, metadata.name()));
        }
        match read_offset(metadata.configuration()) {
            Ok(offset) => Ok(OffsetCodec { offset }),
            Err(error) => Err(unmade(error)),
        }
    }
}

impl ArrayCodecTraits for OffsetCodec {
    ghost use Rattle.zarr_codecs_elements.specs.Offset.{offset_unserved};
    ghost use Rattle.zarr_codecs_elements.proofs.LevelLaws.{offset_serves};

    ghost unserved = { λ _ _ data_type _. offset_unserved data_type };

    ghost concurrency = { λ _ _ _. record { minimum = 1; maximum = 1 } };

    ghost granularity = { λ _ shape. shape };

    ghost serves_parts = { λ c level fill served with_shape with_type with_fill.
        offset_serves level.data_type with_type served };

    fn recommended_concurrency(
        &self,
        _shape: &[NonZeroU64],
        data_type: &DataType,
    ) -> Result<RecommendedConcurrency, CodecError> {
        let (_size, _modulus) = sized(data_type)?;
        Ok(RecommendedConcurrency::new_maximum(1))
    }

    fn partial_decode_granularity(
        &self,
        alloc: Global,
        shape: &[NonZeroU64],
    ) -> Result<ChunkShape, AllocError> {
        let shape = same_shape(alloc, shape)?;
        Ok(shape)
    }
}

impl ArrayToArrayCodecTraits for OffsetCodec {
    ghost use Rattle.zarr_model.specs.Codec.{offset_codec, opposite};
    ghost use Rattle.zarr_model.proofs.ChainLaws.{offset-keeps_count};
    ghost use Rattle.zarr_codecs_elements.specs.Numbers.{bytes_less};
    ghost use Rattle.zarr_codecs_elements.proofs.LevelLaws.{below_fills, below_denotes, below_proper, below_short, same_count, between_shapes};
    ghost use Rattle.zarr_codecs_array_to_array.specs.OffsetOf.{offset_of};

    ghost meaning = { λ c. offset_codec (offset_of c) };

    ghost fill_below = { λ c _ fill. bytes_less (opposite (offset_of c)) fill };

    ghost region_below = { λ _ _ box. box };

    ghost shape_above = { λ _ shape. Some shape };

    ghost counted = { λ c level fill below xs served long e.
        offset-keeps_count (offset_of c) level below xs long e };

    ghost decodes = { λ c level fill below served long. refl };

    ghost fills = { λ c level fill served denotes proper.
        below_fills (offset_of c) level proper };

    ghost denotes = { λ c level fill served denotes.
        below_denotes (opposite (offset_of c)) level.data_type fill level.fill served denotes };

    ghost keeps_bytes = { λ c level fill served denotes proper.
        below_proper (opposite (offset_of c)) level.data_type fill level.fill served denotes };

    ghost keeps_count = { λ c level fill served. same_count level.shape };

    ghost keeps_fit = { λ c level fill served fits.
        record { count = fits.count; bytes = fits.bytes } };

    ghost keeps_short = { λ c level fill served denotes short.
        below_short (opposite (offset_of c)) level.data_type fill served short };

    ghost region_inside = { λ c level fill box served inside. inside };

    ghost shape_between = { λ c level fill shape served is. between_shapes shape level.shape is };

    fn encoded_data_type(
        &self,
        alloc: Global,
        decoded_data_type: &DataType,
    ) -> Result<DataType, CodecError> {
        let (_size, _modulus) = sized(decoded_data_type)?;
        let copy = decoded_data_type.try_clone(alloc)?;
        Ok(copy)
    }

    fn encoded_fill_value(
        &self,
        alloc: Global,
        decoded_data_type: &DataType,
        decoded_fill_value: &FillValue,
    ) -> Result<FillValue, CodecError> {
        let (size, modulus) = sized(decoded_data_type)?;
        let amount = self.amount(modulus, false);
        shifted_fill(alloc, decoded_fill_value, size, amount)
    }

    fn encoded_shape(
        &self,
        alloc: Global,
        decoded_shape: &[NonZeroU64],
    ) -> Result<ChunkShape, CodecError> {
        let shape = same_shape(alloc, decoded_shape)?;
        Ok(shape)
    }

    fn decoded_shape(
        &self,
        alloc: Global,
        encoded_shape: &[NonZeroU64],
    ) -> Result<Option<ChunkShape>, CodecError> {
        let shape = same_shape(alloc, encoded_shape)?;
        Ok(Some(shape))
    }

    fn encoded_representation(
        &self,
        alloc: Global,
        shape: &[NonZeroU64],
        data_type: &DataType,
        fill_value: &FillValue,
    ) -> Result<(ChunkShape, DataType, FillValue), CodecError> {
        let (size, modulus) = sized(data_type)?;
        let amount = self.amount(modulus, false);
        let fill_below = shifted_fill(alloc, fill_value, size, amount)?;
        let type_below = data_type.try_clone(alloc)?;
        let shape_below = same_shape(alloc, shape)?;
        Ok((shape_below, type_below, fill_below))
    }

    fn encode(
        &self,
        alloc: Global,
        bytes: ArrayBytes<'static>,
        shape: &[NonZeroU64],
        data_type: &DataType,
        _fill_value: &FillValue,
        _options: &CodecOptions,
    ) -> Result<ArrayBytes<'static>, CodecError> {
        self.shifted(alloc, bytes, num_elements(shape), data_type, false)
    }

    fn decode(
        &self,
        alloc: Global,
        bytes: ArrayBytes<'static>,
        shape: &[NonZeroU64],
        data_type: &DataType,
        _fill_value: &FillValue,
        _options: &CodecOptions,
    ) -> Result<ArrayBytes<'static>, CodecError> {
        self.shifted(alloc, bytes, num_elements(shape), data_type, true)
    }

    fn inner_subset(
        &self,
        alloc: Global,
        region: &ArraySubset,
        _shape: &[NonZeroU64],
    ) -> Result<ArraySubset, CodecError> {
        let copy = region.try_clone(alloc)?;
        Ok(copy)
    }

    fn decode_region(
        &self,
        alloc: Global,
        bytes: ArrayBytes<'static>,
        region: &ArraySubset,
        _shape: &[NonZeroU64],
        data_type: &DataType,
        _fill_value: &FillValue,
        _options: &CodecOptions,
    ) -> Result<ArrayBytes<'static>, CodecError> {
        self.shifted(alloc, bytes, region.num_elements(), data_type, true)
    }
}
