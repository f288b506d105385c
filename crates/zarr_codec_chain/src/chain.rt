//! A chain of codecs.

ghost use Rattle.std.specs.Prelude.{◌≡◌, ◌<◌, ◌^◌, List, Some, None, IfOk, IfErr, MatchResult, IsSome, false, option_and_then};
ghost use Rattle.zarrs_codec_traits.specs.Prelude.{Element, Options, decode_bytes};
ghost use Rattle.zarrs_codec_traits.specs.Prelude.{has_long_element, count_of, raw_of, options_of};
ghost use Rattle.zarrs_codec_traits.specs.Prelude.{list_at, Gives};
ghost use Rattle.zarrs_codec_error.specs.declared.error.CodecError.TheVariants as codec;
ghost use Rattle.zarr_codec_chain.specs.Levels.{SaysInvalid};
ghost use Rattle.zarr_codec_chain.specs.Chain.{IsServedChain, first_level, bottom_level, steps, decoded};
ghost use Rattle.zarr_codec_chain.specs.Values.{byte_codecs};
ghost use Rattle.zarr_codec_chain.specs.Encoding.{AnswersBelow};
ghost use Rattle.zarr_codec_chain.specs.Answers.{levels_list, FailsToDecode};

use crate::decode::{decode_through, decode_up};
use crate::encode::{encode_down, encode_through};
use crate::levels::ChunkLevels;
use std::alloc::Global;
use zarrs_codec_array_bytes::ArrayBytes;
use zarrs_codec_error::{CodecError, CodecOptions};
use zarrs_codec_traits::{
    ArrayToArrayCodecTraits, ArrayToBytesCodecTraits, BytesToBytesCodecTraits,
};

/// The codecs of an array in the order of encoding.
#[derive(Drop)]
pub struct CodecChain<A, B, C> {
    /// The array-to-array codecs.
    pub array_codecs: Vec<A>,
    /// The array-to-bytes codec.
    pub to_bytes: B,
    /// The bytes-to-bytes codecs.
    pub byte_codecs: Vec<C>,
}

impl<A: ArrayToArrayCodecTraits, B: ArrayToBytesCodecTraits, C: BytesToBytesCodecTraits> CodecChain<
    A,
    B,
    C,
> {
    /// The elements of a chunk that its value decodes to, the last codec first.
    ///
    /// # Errors
    /// The error of the first codec, in the order of decoding, that gives nothing; or [`CodecError::OutOfMemory`].
    pub fn decode(
        &self,
        alloc: Global,
        levels: &ChunkLevels,
        value: Vec<u8>,
        options: &CodecOptions,
    ) -> Result<ArrayBytes<'static>, CodecError>
        requires { IsServedChain A.meaning A.unserved B.unserved self.now levels.now }
        ensures value { IfOk result (λ v. Gives (levels_list levels.now v) (decoded A.meaning
            B.meaning C.meaning self.now levels.now (options_of options.now) value.items)) }
        ensures failed { FailsToDecode A.meaning B.meaning B.says C.meaning C.says self.now
            levels.now (options_of options.now) value.items result }
        ensures short { IfOk result (λ v. has_long_element (raw_of v) ≡ false) }
    {
        let below = self.decode_bottom(alloc, levels, value, options)?;
        decode_up(alloc, &self.array_codecs, &levels.above, below, options)
    }

    /// The elements of a chunk at the bottom, below all array-to-array codecs, that its value decodes to.
    ///
    /// # Errors
    /// The error of the first codec, in the order of decoding, that gives nothing; or [`CodecError::OutOfMemory`].
    pub fn decode_bottom(
        &self,
        alloc: Global,
        levels: &ChunkLevels,
        value: Vec<u8>,
        options: &CodecOptions,
    ) -> Result<ArrayBytes<'static>, CodecError>
        requires { IsServedChain A.meaning A.unserved B.unserved self.now levels.now }
        ensures value { let under = options_of options.now in
            let bottom = bottom_level levels.now in
            IfOk result (λ v. Gives (list_at bottom (raw_of v))
            (option_and_then (B.meaning self.now.to_bytes under bottom)
            (decode_bytes (byte_codecs C.meaning under self.now.byte_codecs.items) value.items))) }
        ensures failed { FailsToDecode A.meaning B.meaning B.says C.meaning C.says self.now
            levels.now (options_of options.now) value.items result }
        ensures short { IfOk result (λ v. has_long_element (raw_of v) ≡ false) }
    {
        let bytes = decode_through(alloc, &self.byte_codecs, value, options)?;
        let bottom = &levels.bottom;
        self.to_bytes.decode(
            alloc,
            bytes,
            &bottom.shape,
            &bottom.data_type,
            &bottom.fill_value,
            options,
        )
    }

    /// The value of a chunk, which decodes to these elements under all options.
    ///
    /// # Errors
    /// [`CodecError`] where the bytes are not valid elements of the chunk, with the first reason; else where the
    /// array-to-bytes codec refuses what they are encoded to above it, as too many or too long elements, with its
    /// error; or where memory runs out.
    pub fn encode(
        &self,
        alloc: Global,
        levels: &ChunkLevels,
        bytes: ArrayBytes<'static>,
        options: &CodecOptions,
    ) -> Result<Vec<u8>, CodecError>
        requires { IsServedChain A.meaning A.unserved B.unserved self.now levels.now }
        ensures value { (list : List Element) → levels_list levels.now bytes.entry ≡ Some list
            → IfOk result (λ v. (under : Options)
            → decoded A.meaning B.meaning C.meaning self.now levels.now under v.items ≡ Some list) }
        ensures refused { levels_list levels.now bytes.entry ≡ None → MatchResult result (λ v. ⊥)
            (SaysInvalid (first_level levels.now) (raw_of bytes.entry)) }
        ensures memory { IsSome (levels_list levels.now bytes.entry)
            → has_long_element (raw_of bytes.entry) ≡ false → B.takes self.now.to_bytes
            (bottom_level levels.now) → IfErr result (λ e. e ≡ codec.OutOfMemory) }
        ensures beyond { (list : List Element) → levels_list levels.now bytes.entry ≡ Some list
            → AnswersBelow A.meaning (B.beyond self.now.to_bytes (bottom_level levels.now))
            (steps self.now levels.now) (bottom_level levels.now) list (raw_of bytes.entry) result }
    {
        let below = encode_down(alloc, &self.array_codecs, &levels.above, bytes, options)?;
        let bottom = &levels.bottom;
        let value = self.to_bytes.encode(
            alloc,
            below,
            &bottom.shape,
            &bottom.data_type,
            &bottom.fill_value,
            options,
        )?;
        encode_through(alloc, &self.byte_codecs, value, options)
    }

    /// No codec above the bottom adds elements, so a chunk of fewer than 2^32 has all its short elements taken there.
    pub fn takes_few(&self, levels: &ChunkLevels)
        requires { IsServedChain A.meaning A.unserved B.unserved self.now levels.now }
        ensures { count_of (first_level levels.now).shape < 2 ^ 32
            → B.takes self.now.to_bytes (bottom_level levels.now) }
    {}
}
