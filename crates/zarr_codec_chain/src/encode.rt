//! The value that elements are encoded to through a chain.

ghost use Rattle.std.specs.Prelude.{◌≡◌, List, [], length, Some, None, MatchResult, IfOk};
ghost use Rattle.zarrs_codec_traits.specs.Prelude.{Element, Level, Options, decode_bytes, raw_of};
ghost use Rattle.zarrs_codec_traits.specs.Prelude.{list_at};
ghost use Rattle.zarrs_codec_error.specs.declared.error.CodecError.TheVariants as codec;
ghost use Rattle.zarr_codec_chain.specs.Levels.{steps_of, top, AreFit, AreLinked, elements_above, SaysInvalid};
ghost use Rattle.zarr_codec_chain.specs.Values.{byte_codecs};
ghost use Rattle.zarr_codec_chain.specs.Answers.{StaysShort};

use crate::representation::ChunkRepresentation;
use std::alloc::Global;
use zarrs_codec_array_bytes::ArrayBytes;
use zarrs_codec_error::{CodecError, CodecOptions};
use zarrs_codec_traits::{ArrayToArrayCodecTraits, BytesToBytesCodecTraits};

/// The elements of the bottom that decode to those of the first level, the first codec first.
///
/// # Errors
/// At levels that are served [`CodecError`] exactly where there is a codec and the bytes are not valid elements of the
/// first level; or where memory runs out.
pub fn encode_down<A: ArrayToArrayCodecTraits>(
    alloc: Global,
    codecs: &[A],
    levels: &[ChunkRepresentation],
    bytes: ArrayBytes<'static>,
    options: &CodecOptions,
) -> Result<ArrayBytes<'static>, CodecError>
    requires count { length codecs.now ≡ length levels.now }
    requires fit { AreFit (steps_of codecs.now levels.now) }
    ensures value { (bottom : Level) (list : List Element)
        → AreLinked A.meaning A.unserved (steps_of codecs.now levels.now) bottom
        → list_at (top (steps_of codecs.now levels.now) bottom) (raw_of bytes.entry) ≡ Some list
        → MatchResult result (λ v. elements_above A.meaning (steps_of codecs.now levels.now)
        (list_at bottom (raw_of v)) ≡ Some list) (λ e. e ≡ codec.OutOfMemory) }
    ensures refused { (bottom : Level)
        → AreLinked A.meaning A.unserved (steps_of codecs.now levels.now) bottom
        → list_at (top (steps_of codecs.now levels.now) bottom) (raw_of bytes.entry) ≡ None
        → MatchResult result (λ v. (codecs.now ≡ []) × (raw_of v ≡ raw_of bytes.entry))
        (SaysInvalid (top (steps_of codecs.now levels.now) bottom) (raw_of bytes.entry)) }
    ensures short { StaysShort bytes.entry result }
    ensures none { codecs.now ≡ [] → IfOk result (λ v. raw_of v ≡ raw_of bytes.entry) }
{
    let mut encoded = bytes;
    for (index, codec) in codecs.iter().enumerate() {
        let level = &levels[index];
        encoded = codec.encode(
            alloc,
            encoded,
            &level.shape,
            &level.data_type,
            &level.fill_value,
            options,
        )?;
    }
    Ok(encoded)
}

/// The value that the codecs encode to, the first one first.
///
/// # Errors
/// [`CodecError::OutOfMemory`].
pub fn encode_through<C: BytesToBytesCodecTraits>(
    alloc: Global,
    codecs: &[C],
    value: Vec<u8>,
    options: &CodecOptions,
) -> Result<Vec<u8>, CodecError>
    ensures { MatchResult result (λ v. (under : Options)
        → decode_bytes (byte_codecs C.meaning under codecs.now) v.items ≡ Some value.items)
        (λ e. e ≡ codec.OutOfMemory) }
{
    let mut encoded = value;
    for codec in codecs {
        encoded = codec.encode(alloc, encoded, options)?;
    }
    Ok(encoded)
}
