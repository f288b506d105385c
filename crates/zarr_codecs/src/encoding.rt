//! Encoding by a codec, and by the codec of optional elements over an inner one.

ghost use Rattle.zarrs_codec_traits.specs.Prelude.{type_of, raw_of, lengths, level_of, IsFit};
ghost use Rattle.zarr_codecs.specs.Plain.{plain_optional};
ghost use Rattle.zarr_codecs.specs.Views.{plain_of};
ghost use Rattle.zarr_codecs.specs.Answers.{Encodes};

use crate::codecs::BasicArrayToBytes;
use crate::mask::{join, masked_parts};
use crate::serving::expect_optional;
use std::alloc::Global;
use std::num::NonZeroU64;
use zarrs_codec_array_bytes::ArrayBytes;
use zarrs_codec_error::{CodecError, CodecOptions};
use zarrs_codec_traits::{ArrayToBytesCodecTraits, num_elements};
use zarrs_data_type::DataType;
use zarrs_data_type_bytes::FillValue;

/// The value that a codec encodes elements to.
///
/// # Errors
/// [`CodecError`] as [`ArrayToBytesCodecTraits::encode`] of the codec.
#[cycle(encode)]
pub fn encode_by(
    codec: &BasicArrayToBytes,
    alloc: Global,
    bytes: ArrayBytes<'static>,
    shape: &[NonZeroU64],
    data_type: &DataType,
    fill_value: &FillValue,
    options: &CodecOptions,
) -> Result<Vec<u8>, CodecError>
    requires fits { IsFit (lengths shape.now) (type_of data_type.now) }
    ensures { Encodes (plain_of codec.now) (level_of shape.now data_type.now fill_value.now)
        (raw_of bytes.entry) result }
{
    match codec {
        BasicArrayToBytes::Bytes(codec) => {
            codec.encode(alloc, bytes, shape, data_type, fill_value, options)
        }
        BasicArrayToBytes::Vlen(codec) => {
            codec.encode(alloc, bytes, shape, data_type, fill_value, options)
        }
        BasicArrayToBytes::Optional(codec) => encode_optional(
            &codec.inner,
            alloc,
            bytes,
            shape,
            data_type,
            fill_value,
            options,
        ),
    }
}

/// The value of optional elements: their mask, and what the inner codec encodes the elements under it to. No codec
/// looks at a fill value, so the inner one is given that of the optional type.
///
/// # Errors
/// [`CodecError`] first where the type is not optional or the inner codec does not serve what it holds; else
/// `ExpectedOptionalBytes` where there is no mask, else `InvalidMask` where it has another length or a byte that is
/// neither 0 nor 1, else as the inner codec answers to the elements under it. Or where memory runs out.
#[cycle(encode)]
pub fn encode_optional(
    inner: &BasicArrayToBytes,
    alloc: Global,
    bytes: ArrayBytes<'static>,
    shape: &[NonZeroU64],
    data_type: &DataType,
    fill_value: &FillValue,
    options: &CodecOptions,
) -> Result<Vec<u8>, CodecError>
    requires fits { IsFit (lengths shape.now) (type_of data_type.now) }
    ensures { Encodes (plain_optional (plain_of inner.now))
        (level_of shape.now data_type.now fill_value.now) (raw_of bytes.entry) result }
{
    let held = expect_optional(inner, shape, data_type)?;
    let (under, mask) = masked_parts(bytes, num_elements(shape))?;
    let value = encode_by(inner, alloc, under, shape, held, fill_value, options)?;
    let joined = join(alloc, &mask, &value)?;
    Ok(joined)
}
