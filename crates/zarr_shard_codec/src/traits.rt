//! The traits of the codec of shards.

ghost use Rattle.std.specs.Prelude.{Some, false};

use crate::shard_codec::ShardCodec;
use std::alloc::{AllocError, Global};
use std::num::NonZeroU64;
use zarrs_array_subset::{ArraySubset, ChunkShape};
use zarrs_codec_array_bytes::ArrayBytes;
use zarrs_codec_error::{
    BytesRepresentation, CodecError, CodecMetadataOptions, CodecOptions, PartialDecoderCapability,
    PartialEncoderCapability, RecommendedConcurrency,
};
use zarrs_codec_traits::{
    ArrayCodecTraits, ArrayToBytesCodecTraits, CodecTraits, extracted, only_part, same_shape,
};
use zarrs_data_type::DataType;
use zarrs_data_type_bytes::FillValue;
use zarrs_metadata_parts::Configuration;
use zarrs_plugin::{ExtensionName, ZarrVersion};
use zarrs_storage::ByteRange;

impl ExtensionName for ShardCodec {
    ghost use Rattle.std.specs.Prelude.{codes};

    ghost name_in = { λ _ _. Some (codes "sharding_indexed") };

    fn name(&self, alloc: Global, _version: ZarrVersion) -> Result<Option<String>, AllocError> {
        let name = String::from_str(alloc, "sharding_indexed")?;
        Ok(Some(name))
    }
}

impl CodecTraits for ShardCodec {
    ghost use Rattle.std.specs.Prelude.{option_map};
    ghost use Rattle.zarrs_metadata_values.specs.Configuration.{configuration_seen};

    ghost written = { λ c _ _. option_map configuration_seen c.configuration };

    ghost decodes_parts = { λ _. record { partial_read = false; partial_decode = false } };

    ghost encodes_parts = { λ _. record { partial_encode = false } };

    fn configuration(
        &self,
        alloc: Global,
        _version: ZarrVersion,
        _options: &CodecMetadataOptions,
    ) -> Result<Option<Configuration>, AllocError> {
        match &self.configuration {
            Some(configuration) => {
                let copy = configuration.try_clone(alloc)?;
                Ok(Some(copy))
            }
            None => Ok(None),
        }
    }

    fn partial_decoder_capability(&self) -> PartialDecoderCapability {
        PartialDecoderCapability {
            partial_read: false,
            partial_decode: false,
        }
    }

    fn partial_encoder_capability(&self) -> PartialEncoderCapability {
        PartialEncoderCapability {
            partial_encode: false,
        }
    }
}

impl ArrayCodecTraits for ShardCodec {
    ghost use Rattle.zarr_shard_codec.specs.Serving.{shard_unserved, shard_serves};
    ghost use Rattle.zarr_shard_codec.specs.ShardCodec.{inner_dims};

    ghost unserved = { shard_unserved };

    ghost concurrency = { λ _ _ _. record { minimum = 1; maximum = 1 } };

    ghost granularity = { λ c _. inner_dims c };

    ghost serves_parts = { shard_serves };

    fn recommended_concurrency(
        &self,
        shape: &[NonZeroU64],
        data_type: &DataType,
    ) -> Result<RecommendedConcurrency, CodecError> {
        self.expect_chunk(shape, data_type)?;
        Ok(RecommendedConcurrency::new_maximum(1))
    }

    fn partial_decode_granularity(
        &self,
        alloc: Global,
        _shape: &[NonZeroU64],
    ) -> Result<ChunkShape, AllocError> {
        let shape = same_shape(alloc, &self.inner_shape)?;
        Ok(shape)
    }
}

impl ArrayToBytesCodecTraits for ShardCodec {
    ghost use Rattle.std.specs.Prelude.{◌≡◌, List, None, IfOk};
    ghost use Rattle.zarr_model.specs.Prelude.{kind_of, count_of, Element, Options, decode_chain};
    ghost use Rattle.zarrs_data_type_bytes.specs.FillValue.{fill_bytes};
    ghost use Rattle.zarrs_data_type.specs.DataType.{type_of};
    ghost use Rattle.zarrs_codec_array_bytes.specs.Raw.{raw_of};
    ghost use Rattle.zarrs_codec_array_bytes.specs.Refusals.{validity, then_answer, Answers};
    ghost use Rattle.zarrs_codec_traits.specs.Errors.{unserved_at, RefusesBy};
    ghost use Rattle.zarrs_codec_traits.specs.Views.{lengths, level_of, options_of};
    ghost use Rattle.zarrs_codec_traits.specs.Words.{list_at, IsFit};
    ghost use Rattle.zarr_shard_codec.specs.Encoding.{IsEncoded};
    ghost use Rattle.zarr_shard_codec.specs.Serving.{shard_unserved};
    ghost use Rattle.zarrs_codec_error.specs.declared.bytes_representation.BytesRepresentation.TheVariants.{UnboundedSize};
    ghost use Rattle.zarrs_codec_traits.proofs.TakenLaws.{nothing_asked};
    ghost use Rattle.zarr_shard_codec.specs.NoFault.{shard_no_fault};
    ghost use Rattle.zarr_shard_codec.specs.ShardCodec.{inner_of, codec_inner_form, shard_meaning};
    ghost use Rattle.zarr_shard_codec.specs.Counted.{shard_counted};
    ghost use Rattle.zarr_shard_codec.specs.Taking.{long_refusal, short_taken, long_form};
    ghost use Rattle.zarr_shard_codec.specs.Whole.{shard_says};

    ghost meaning = { shard_meaning };

    ghost says = { λ c under _ value e. shard_says c under value e };

    ghost beyond = { λ _ _ bytes. long_refusal bytes };

    ghost takes = { λ _ _. Unit {0} };

    ghost request = { λ _ _ _ _. None };

    ghost representation = { λ _ _. UnboundedSize };

    ghost compacts = { λ _. false };

    ghost counted = { λ c under. shard_counted (codec_inner_form c) under.validate_checksums
        (decode_chain ((inner_of c).chain under)) };

    ghost taken = { λ _ _ _ bytes served few there short. short_taken bytes short };

    ghost takes_few = { λ _ _ _ served few. tt };

    ghost refuses_form = { λ _ _ bytes. long_form bytes };

    ghost asks = { λ _ under level box fill value ranges served inside some.
        absurd (nothing_asked some) };

    ghost no_fault = { λ c under _ value e told. shard_no_fault c under value e told };

    fn encoded_representation(
        &self,
        shape: &[NonZeroU64],
        data_type: &DataType,
        fill_value: &FillValue,
    ) -> Result<BytesRepresentation, CodecError> {
        self.expect_own(shape, data_type, fill_value)?;
        Ok(BytesRepresentation::UnboundedSize)
    }

    fn encode(
        &self,
        alloc: Global,
        bytes: ArrayBytes<'static>,
        shape: &[NonZeroU64],
        data_type: &DataType,
        fill_value: &FillValue,
        options: &CodecOptions,
    ) -> Result<Vec<u8>, CodecError>
        requires fits { IsFit (lengths shape.now) (type_of data_type.now) }
        ensures unserved { RefusesBy (unserved_at (shard_unserved self.now)
            (level_of shape.now data_type.now fill_value.now) (fill_bytes fill_value.now)) result }
        ensures exact { let level = level_of shape.now data_type.now fill_value.now in
            unserved_at (shard_unserved self.now) level (fill_bytes fill_value.now) ≡ None
            → Answers (then_answer
            (validity (kind_of level.data_type) (count_of level.shape) (raw_of bytes.entry))
            (long_refusal (raw_of bytes.entry))) result }
        ensures value { let level = level_of shape.now data_type.now fill_value.now in
            unserved_at (shard_unserved self.now) level (fill_bytes fill_value.now) ≡ None
            → IfOk result (λ v. (under : Options)
            → shard_meaning self.now under level v.items ≡ list_at level (raw_of bytes.entry)) }
        // The value is the inner chunks, one after another, and behind them the index of their pairs.
        ensures laid { let level = level_of shape.now data_type.now fill_value.now in
            unserved_at (shard_unserved self.now) level (fill_bytes fill_value.now) ≡ None
            → (list : List Element) → list_at level (raw_of bytes.entry) ≡ Some list
            → IfOk result (λ v. IsEncoded self.now (options_of options.now) list v.items) }
    {
        self.expect_own(shape, data_type, fill_value)?;
        self.encode_value(alloc, &bytes, options)
    }

    fn decode(
        &self,
        alloc: Global,
        bytes: Vec<u8>,
        shape: &[NonZeroU64],
        data_type: &DataType,
        fill_value: &FillValue,
        options: &CodecOptions,
    ) -> Result<ArrayBytes<'static>, CodecError> {
        self.expect_own(shape, data_type, fill_value)?;
        self.decode_value(alloc, &bytes, options)
    }

    fn byte_request(
        &self,
        _alloc: Global,
        _region: &ArraySubset,
        shape: &[NonZeroU64],
        data_type: &DataType,
    ) -> Result<Option<Vec<ByteRange>>, CodecError> {
        self.expect_chunk(shape, data_type)?;
        Ok(None)
    }

    fn decode_parts(
        &self,
        alloc: Global,
        parts: Vec<Vec<u8>>,
        region: &ArraySubset,
        shape: &[NonZeroU64],
        data_type: &DataType,
        fill_value: &FillValue,
        options: &CodecOptions,
    ) -> Result<ArrayBytes<'static>, CodecError> {
        let value = only_part(parts);
        let whole = self.decode(alloc, value, shape, data_type, fill_value, options)?;
        extracted(alloc, &whole, region, shape, data_type)
    }
}
