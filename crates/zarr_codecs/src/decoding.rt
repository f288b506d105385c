//! Decoding by a codec, and by the codec of optional elements over an inner one.

ghost use Rattle.zarrs_codec_traits.specs.Prelude.{type_of, lengths, level_of, options_of, IsFit};
ghost use Rattle.zarr_codecs.specs.Plain.{plain_optional};
ghost use Rattle.zarr_codecs.specs.Views.{plain_of};
ghost use Rattle.zarr_codecs.specs.Answers.{Decodes};

use crate::codecs::BasicArrayToBytes;
use crate::mask::split_value;
use crate::serving::expect_optional;
use std::alloc::Global;
use std::borrow::CowSlice;
use std::num::NonZeroU64;
use zarrs_codec_array_bytes::ArrayBytes;
use zarrs_codec_error::{CodecError, CodecOptions};
use zarrs_codec_traits::{ArrayToBytesCodecTraits, num_elements};
use zarrs_data_type::DataType;
use zarrs_data_type_bytes::FillValue;

/// The elements that a value decodes to by a codec.
///
/// # Errors
/// [`CodecError`] as [`ArrayToBytesCodecTraits::decode`] of the codec.
#[cycle(decode)]
pub fn decode_by(
    codec: &BasicArrayToBytes,
    alloc: Global,
    bytes: Vec<u8>,
    shape: &[NonZeroU64],
    data_type: &DataType,
    fill_value: &FillValue,
    options: &CodecOptions,
) -> Result<ArrayBytes<'static>, CodecError>
    requires fits { IsFit (lengths shape.now) (type_of data_type.now) }
    ensures { Decodes (plain_of codec.now) (options_of options.now)
        (level_of shape.now data_type.now fill_value.now) bytes.items result }
{
    match codec {
        BasicArrayToBytes::Bytes(codec) => {
            codec.decode(alloc, bytes, shape, data_type, fill_value, options)
        }
        BasicArrayToBytes::Vlen(codec) => {
            codec.decode(alloc, bytes, shape, data_type, fill_value, options)
        }
        BasicArrayToBytes::Optional(codec) => decode_optional(
            &codec.inner,
            alloc,
            bytes,
            shape,
            data_type,
            fill_value,
            options,
        ),
    }
}

/// The optional elements that a value decodes to: its mask, and what the inner codec decodes of the rest. No codec
/// looks at a fill value, so the inner one is given that of the optional type.
///
/// # Errors
/// [`CodecError`] first where the type is not optional or the inner codec does not serve what it holds; else
/// `UnexpectedChunkDecodedSize` where the value is shorter than the mask, else `InvalidMask` where a mask byte is
/// neither 0 nor 1, else as the inner codec answers to the rest. Or where memory runs out.
#[cycle(decode)]
pub fn decode_optional(
    inner: &BasicArrayToBytes,
    alloc: Global,
    bytes: Vec<u8>,
    shape: &[NonZeroU64],
    data_type: &DataType,
    fill_value: &FillValue,
    options: &CodecOptions,
) -> Result<ArrayBytes<'static>, CodecError>
    requires fits { IsFit (lengths shape.now) (type_of data_type.now) }
    ensures { Decodes (plain_optional (plain_of inner.now)) (options_of options.now)
        (level_of shape.now data_type.now fill_value.now) bytes.items result }
{
    let held = expect_optional(inner, shape, data_type)?;
    let (mask, rest) = split_value(alloc, &bytes, num_elements(shape))?;
    let under = decode_by(inner, alloc, rest, shape, held, fill_value, options)?;
    let elements = under.with_optional_mask(alloc, CowSlice::Owned(mask))?;
    Ok(elements)
}
