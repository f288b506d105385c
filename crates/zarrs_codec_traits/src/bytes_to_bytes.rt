//! Codecs that turn bytes into bytes.

ghost use Rattle.std.specs.Prelude.{◌≡◌, ℕ, List, Option, Some, Ok, MatchResult};
ghost use Rattle.zarr_model.specs.Codec.{Options};
ghost use Rattle.zarrs_codec_error.specs.declared.error.CodecError.{CodecError};
ghost use Rattle.zarrs_codec_error.specs.declared.error.CodecError.TheVariants as codec;
ghost use Rattle.zarrs_codec_error.specs.declared.bytes_representation.BytesRepresentation.{BytesRepresentation};
ghost use Rattle.zarrs_codec_error.specs.declared.recommended_concurrency.RecommendedConcurrency.{RecommendedConcurrency};
ghost use Rattle.zarrs_codec_traits.specs.Errors.{IsNoFault, IsDecodeError};
ghost use Rattle.zarrs_codec_traits.specs.Same.{TellsSame};
ghost use Rattle.zarrs_codec_traits.specs.Views.{options_of};

use crate::codec_traits::CodecTraits;
use std::alloc::Global;
use zarrs_codec_error::{
    BytesRepresentation, CodecError, CodecOptions, CodecSpecificOptions, RecommendedConcurrency,
};

/// A codec that turns bytes into bytes.
pub trait BytesToBytesCodecTraits: CodecTraits + Sized {
    // What a value decodes to under some options, if it does.
    ghost meaning: { Self → Options → List ℕ → Option (List ℕ) };

    // Which errors tell that a value does not decode.
    ghost says: { Self → Options → List ℕ → CodecError → Type 0 };

    // How many bytes a value has, encoded, and how many threads the codec can use well.
    ghost representation: { Self → BytesRepresentation → BytesRepresentation };

    ghost concurrency: { Self → BytesRepresentation → RecommendedConcurrency };

    /// The codec with options of its own, by default the same. It decodes as before, tells the same number of bytes,
    /// and is written as before.
    fn with_codec_specific_options(self, _options: &CodecSpecificOptions) -> Self
        ensures meaning { meaning result ≡ meaning self }
        ensures says { (under : Options) (value : List ℕ) (e : CodecError)
            → says result under value e → says self under value e }
        ensures representation { representation result ≡ representation self }
        ensures told { TellsSame Self.CodecTraits.own self result }
    {
        self
    }

    /// How many threads the codec can use well for a value of this size.
    ///
    /// # Errors
    /// None: the answer is always Ok.
    fn recommended_concurrency(
        &self,
        decoded_representation: &BytesRepresentation,
    ) -> Result<RecommendedConcurrency, CodecError>
        ensures { result ≡ Ok (concurrency self.now decoded_representation.now) };

    /// How many bytes a value of this size has, encoded.
    fn encoded_representation(
        &self,
        decoded_representation: &BytesRepresentation,
    ) -> BytesRepresentation
        ensures { result ≡ representation self.now decoded_representation.now };

    /// The value, encoded. It decodes to itself under all options.
    ///
    /// # Errors
    /// [`CodecError`] where memory runs out.
    fn encode(
        &self,
        alloc: Global,
        decoded_value: Vec<u8>,
        options: &CodecOptions,
    ) -> Result<Vec<u8>, CodecError>
        ensures { MatchResult result
            (λ v. (under : Options) → meaning self.now under v.items ≡ Some decoded_value.items)
            (λ e. e ≡ codec.OutOfMemory) };

    /// What the value decodes to.
    ///
    /// # Errors
    /// [`CodecError`] exactly where the value does not decode, or where memory runs out.
    fn decode(
        &self,
        alloc: Global,
        encoded_value: Vec<u8>,
        decoded_representation: &BytesRepresentation,
        options: &CodecOptions,
    ) -> Result<Vec<u8>, CodecError>
        ensures { MatchResult result
            (λ v. meaning self.now (options_of options.now) encoded_value.items ≡ Some v.items)
            (IsDecodeError (meaning self.now (options_of options.now) encoded_value.items)
            (says self.now (options_of options.now) encoded_value.items)) };

    // An error of a value that does not decode is no fault of a store.
    ghost no_fault: { (c : Self) (under : Options) (value : List ℕ) (e : CodecError)
        → says c under value e → IsNoFault e };
}
