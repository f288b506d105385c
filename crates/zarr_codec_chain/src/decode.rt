//! What a stored value decodes to through a chain.

ghost use Rattle.std.specs.Prelude.{◌≡◌, List, length, Some, MatchResult, IfOk, IfErr};
ghost use Rattle.zarrs_codec_traits.specs.Prelude.{Element, Level, decode_bytes, raw_of};
ghost use Rattle.zarrs_codec_traits.specs.Prelude.{IsDecodeError, options_of, list_at, Gives};
ghost use Rattle.zarrs_codec_error.specs.declared.error.CodecError.TheVariants as codec;
ghost use Rattle.zarr_codec_chain.specs.Levels.{steps_of, top, AreFit, AreLinked, elements_above};
ghost use Rattle.zarr_codec_chain.specs.Values.{byte_codecs, bytes_says};
ghost use Rattle.zarr_codec_chain.specs.Answers.{StaysShort};

use crate::representation::ChunkRepresentation;
use std::alloc::Global;
use zarrs_codec_array_bytes::ArrayBytes;
use zarrs_codec_error::{BytesRepresentation, CodecError, CodecOptions};
use zarrs_codec_traits::{ArrayToArrayCodecTraits, BytesToBytesCodecTraits};

/// What a value decodes to through the codecs, the last one first.
///
/// # Errors
/// The error of the first codec, from the last, that gives nothing; or [`CodecError::OutOfMemory`].
pub fn decode_through<C: BytesToBytesCodecTraits>(
    alloc: Global,
    codecs: &[C],
    value: Vec<u8>,
    options: &CodecOptions,
) -> Result<Vec<u8>, CodecError>
    ensures value { IfOk result (λ v.
        decode_bytes (byte_codecs C.meaning (options_of options.now) codecs.now) value.items
        ≡ Some v.items) }
    ensures failed { IfErr result (IsDecodeError
        (decode_bytes (byte_codecs C.meaning (options_of options.now) codecs.now) value.items)
        (bytes_says C.meaning C.says (options_of options.now) codecs.now value.items)) }
{
    let mut opened = value;
    let mut left = codecs.len();
    while left > 0 {
        left -= 1;
        opened = codecs[left].decode(alloc, opened, &BytesRepresentation::UnboundedSize, options)?;
    }
    Ok(opened)
}

/// The elements of the first level from those of the bottom, the last codec first.
///
/// # Errors
/// Of valid elements at levels that are served only [`CodecError::OutOfMemory`]; else those of the codecs.
pub fn decode_up<A: ArrayToArrayCodecTraits>(
    alloc: Global,
    codecs: &[A],
    levels: &[ChunkRepresentation],
    bytes: ArrayBytes<'static>,
    options: &CodecOptions,
) -> Result<ArrayBytes<'static>, CodecError>
    requires count { length codecs.now ≡ length levels.now }
    requires fit { AreFit (steps_of codecs.now levels.now) }
    ensures value { (bottom : Level) (list : List Element)
        → AreLinked A.meaning A.unserved (steps_of codecs.now levels.now) bottom
        → list_at bottom (raw_of bytes.entry) ≡ Some list → MatchResult result
        (λ v. Gives (list_at (top (steps_of codecs.now levels.now) bottom) (raw_of v))
        (elements_above A.meaning (steps_of codecs.now levels.now) (Some list)))
        (λ e. e ≡ codec.OutOfMemory) }
    ensures short { StaysShort bytes.entry result }
{
    let mut decoded = bytes;
    let mut left = codecs.len();
    while left > 0 {
        left -= 1;
        let level = &levels[left];
        decoded = codecs[left].decode(
            alloc,
            decoded,
            &level.shape,
            &level.data_type,
            &level.fill_value,
            options,
        )?;
    }
    Ok(decoded)
}
