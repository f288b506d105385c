//! What the codecs serve.

ghost use Rattle.std.specs.Prelude.{◌≡◌, None, Some, IfOk, IfErr, MatchResult};
ghost use Rattle.zarrs_codec_traits.specs.Prelude.{count_of, optional_type, lengths, IsFit};
ghost use Rattle.zarrs_data_type_bytes.specs.declared.codec_support.CodecName.TheVariants as names;
ghost use Rattle.zarrs_data_type.specs.DataType.{type_of, inner_type_of};
ghost use Rattle.zarrs_codec_traits.specs.Errors.{unsupported, unserved_error, Serves};
ghost use Rattle.zarr_codecs.specs.Plain.{plain_optional, unserved_by, with_mask, size_by};
ghost use Rattle.zarr_codecs.specs.Views.{plain_of};
ghost use Rattle.zarr_codecs.specs.Answers.{IsUnserved};

use crate::codecs::BasicArrayToBytes;
use std::num::NonZeroU64;
use zarrs_codec_error::{BytesRepresentation, CodecError, RecommendedConcurrency};
use zarrs_codec_traits::{ArrayCodecTraits, ArrayToBytesCodecTraits, num_elements};
use zarrs_data_type::DataType;
use zarrs_data_type_bytes::{CodecName, DataTypeCodecError, FillValue};

/// The type inside an optional one, which alone the codec of optional elements serves.
///
/// # Errors
/// `UnsupportedDataTypeCodec` exactly where the type is not optional.
pub fn held_by(data_type: &DataType) -> Result<&DataType, CodecError>
    ensures { MatchResult result
        (λ held. type_of data_type.now ≡ optional_type (type_of held.now))
        (λ e. (inner_type_of (type_of data_type.now) ≡ None)
        × (e ≡ unserved_error (unsupported names.Optional))) }
{
    match data_type {
        DataType::Optional(held) => Ok(held),
        _ => Err(CodecError::UnsupportedDataTypeCodec(DataTypeCodecError::UnsupportedDataType {
            codec_name: CodecName::Optional,
        })),
    }
}

/// How many threads a codec can use well, where it serves the type.
///
/// # Errors
/// [`CodecError`] exactly where it does not.
#[cycle(concurrency)]
pub fn concurrency_by(
    codec: &BasicArrayToBytes,
    shape: &[NonZeroU64],
    data_type: &DataType,
) -> Result<RecommendedConcurrency, CodecError>
    requires fits { IsFit (lengths shape.now) (type_of data_type.now) }
    ensures { Serves (unserved_by (plain_of codec.now) (type_of data_type.now))
        (λ r. r ≡ record { minimum = 1; maximum = 1 }) result }
{
    match codec {
        BasicArrayToBytes::Bytes(codec) => codec.recommended_concurrency(shape, data_type),
        BasicArrayToBytes::Vlen(codec) => codec.recommended_concurrency(shape, data_type),
        BasicArrayToBytes::Optional(codec) => {
            optional_concurrency(&codec.inner, shape, data_type)
        }
    }
}

/// The same for optional elements over a codec of what they hold.
///
/// # Errors
/// [`CodecError`] exactly where the type is not optional, or the inner codec does not serve what it holds.
#[cycle(concurrency)]
pub fn optional_concurrency(
    inner: &BasicArrayToBytes,
    shape: &[NonZeroU64],
    data_type: &DataType,
) -> Result<RecommendedConcurrency, CodecError>
    requires fits { IsFit (lengths shape.now) (type_of data_type.now) }
    ensures { Serves (unserved_by (plain_optional (plain_of inner.now)) (type_of data_type.now))
        (λ r. r ≡ record { minimum = 1; maximum = 1 }) result }
{
    let held = held_by(data_type)?;
    concurrency_by(inner, shape, held)
}

/// The type that an optional type holds, where the inner codec serves it.
///
/// # Errors
/// [`CodecError`] exactly where it does not, or the type is not optional.
pub fn expect_optional<'t>(
    inner: &BasicArrayToBytes,
    shape: &[NonZeroU64],
    data_type: &'t DataType,
) -> Result<&'t DataType, CodecError>
    requires fits { IsFit (lengths shape.now) (type_of data_type.now) }
    ensures held { IfOk result (λ held. type_of data_type.now ≡ optional_type (type_of held.now)) }
    ensures served { IfOk result
        (λ held. unserved_by (plain_of inner.now) (type_of held.now) ≡ None) }
    ensures refused { IfErr result
        (IsUnserved (unserved_by (plain_optional (plain_of inner.now)) (type_of data_type.now))) }
{
    let held = held_by(data_type)?;
    concurrency_by(inner, shape, held)?;
    Ok(held)
}

// A mask byte for each element, before a value of one size.
fn with_mask(number: u64, inner: BytesRepresentation) -> BytesRepresentation
    ensures { result ≡ with_mask number inner }
{
    match inner {
        BytesRepresentation::FixedSize(size) => match size.checked_add(number) {
            Some(size) => BytesRepresentation::FixedSize(size),
            None => BytesRepresentation::UnboundedSize,
        },
        BytesRepresentation::BoundedSize(_) => BytesRepresentation::UnboundedSize,
        BytesRepresentation::UnboundedSize => BytesRepresentation::UnboundedSize,
    }
}

/// How many bytes the elements of a chunk have, encoded, where the codec serves them.
///
/// # Errors
/// [`CodecError`] exactly where it does not.
#[cycle(size)]
pub fn size_by(
    codec: &BasicArrayToBytes,
    shape: &[NonZeroU64],
    data_type: &DataType,
    fill_value: &FillValue,
) -> Result<BytesRepresentation, CodecError>
    requires fits { IsFit (lengths shape.now) (type_of data_type.now) }
    ensures { Serves (unserved_by (plain_of codec.now) (type_of data_type.now))
        (λ r. r ≡ size_by (plain_of codec.now) (count_of (lengths shape.now))
        (type_of data_type.now)) result }
{
    match codec {
        BasicArrayToBytes::Bytes(codec) => {
            codec.encoded_representation(shape, data_type, fill_value)
        }
        BasicArrayToBytes::Vlen(codec) => {
            codec.encoded_representation(shape, data_type, fill_value)
        }
        BasicArrayToBytes::Optional(codec) => {
            optional_size(&codec.inner, shape, data_type, fill_value)
        }
    }
}

/// The same for optional elements over a codec of what they hold.
///
/// # Errors
/// [`CodecError`] exactly where the type is not optional, or the inner codec does not serve what it holds.
#[cycle(size)]
pub fn optional_size(
    inner: &BasicArrayToBytes,
    shape: &[NonZeroU64],
    data_type: &DataType,
    fill_value: &FillValue,
) -> Result<BytesRepresentation, CodecError>
    requires fits { IsFit (lengths shape.now) (type_of data_type.now) }
    ensures { Serves (unserved_by (plain_optional (plain_of inner.now)) (type_of data_type.now))
        (λ r. r ≡ size_by (plain_optional (plain_of inner.now)) (count_of (lengths shape.now))
        (type_of data_type.now)) result }
{
    let held = held_by(data_type)?;
    let size = size_by(inner, shape, held, fill_value)?;
    Ok(with_mask(num_elements(shape), size))
}
