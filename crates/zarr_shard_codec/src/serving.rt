//! What a codec of shards serves: chunks of the shape, the data type and the fill value that it was made for.

ghost use Rattle.std.specs.Prelude.{◌≡◌, bytes_eq, Some, None, MatchResult, option_map};
ghost use Rattle.zarrs_codec_traits.specs.Prelude.{fill_bytes, type_of, lengths, level_of};
ghost use Rattle.zarrs_data_type_bytes.specs.declared.codec_support.CodecName.TheVariants as names;
ghost use Rattle.zarrs_codec_traits.specs.Errors.{unsupported, unserved_error, unserved_at};
ghost use Rattle.zarr_shard_codec.specs.Serving.{is_own_chunk, is_own, shard_unserved};

use crate::shard_codec::ShardCodec;
use std::num::NonZeroU64;
use zarrs_codec_error::CodecError;
use zarrs_data_type::DataType;
use zarrs_data_type_bytes::{CodecName, DataTypeCodecError, FillValue};

// Whether a shape has these lengths.
fn has_lengths(numbers: &[u64], shape: &[NonZeroU64]) -> bool
    ensures { result ≡ bytes_eq numbers.now (lengths shape.now) }
{
    match numbers {
        [] => shape.is_empty(),
        [number, numbers @ ..] => match shape {
            [] => false,
            [length, shape @ ..] => *number == length.get() && has_lengths(numbers, shape),
        },
    }
}

// Why other chunks are refused.
fn not_served() -> CodecError
    ensures { result ≡ unserved_error (unsupported names.Sharding) }
{
    CodecError::UnsupportedDataTypeCodec(DataTypeCodecError::UnsupportedDataType {
        codec_name: CodecName::Sharding,
    })
}

impl ShardCodec {
    // Whether a shape and a data type are the codec's.
    fn is_own_chunk(&self, shape: &[NonZeroU64], data_type: &DataType) -> bool
        ensures { result ≡ is_own_chunk self.now (Some (lengths shape.now))
            (Some (type_of data_type.now)) }
    {
        let inner = &self.shard.inner;
        has_lengths(inner.shape(), shape) && inner.data_type() == data_type
    }

    // Whether a fill value has the bytes of the codec's.
    fn is_own_fill(&self, fill_value: &FillValue) -> bool
        ensures { result
            ≡ bytes_eq (fill_bytes self.now.fill_value) (fill_bytes fill_value.now) }
    {
        self.fill_value.as_ne_bytes() == fill_value.as_ne_bytes()
    }

    // Whether all three are.
    fn is_own(&self, shape: &[NonZeroU64], data_type: &DataType, fill_value: &FillValue) -> bool
        ensures { result ≡ is_own self.now (Some (lengths shape.now))
            (Some (type_of data_type.now)) (Some (fill_bytes fill_value.now)) }
    {
        self.is_own_fill(fill_value) && self.is_own_chunk(shape, data_type)
    }

    /// Refuses a shape and a data type that are not the codec's.
    ///
    /// # Errors
    /// `UnsupportedDataTypeCodec` exactly where they are not.
    pub(crate) fn expect_chunk(
        &self,
        shape: &[NonZeroU64],
        data_type: &DataType,
    ) -> Result<(), CodecError>
        ensures { let unserved = shard_unserved self.now (Some (lengths shape.now))
            (Some (type_of data_type.now)) None in MatchResult result (λ _. unserved ≡ None)
            (λ e. option_map unserved_error unserved ≡ Some e) }
    {
        if self.is_own_chunk(shape, data_type) {
            return Ok(());
        }
        Err(not_served())
    }

    /// Refuses a shape, a data type and a fill value that are not the codec's.
    ///
    /// # Errors
    /// `UnsupportedDataTypeCodec` exactly where they are not.
    pub(crate) fn expect_own(
        &self,
        shape: &[NonZeroU64],
        data_type: &DataType,
        fill_value: &FillValue,
    ) -> Result<(), CodecError>
        ensures { let unserved = unserved_at (shard_unserved self.now)
            (level_of shape.now data_type.now fill_value.now) (fill_bytes fill_value.now) in
            MatchResult result (λ _. unserved ≡ None)
            (λ e. option_map unserved_error unserved ≡ Some e) }
    {
        if self.is_own(shape, data_type, fill_value) {
            return Ok(());
        }
        Err(not_served())
    }
}
