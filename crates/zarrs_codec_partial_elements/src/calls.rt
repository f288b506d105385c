//! The steps in which levels of elements differ, by what is below them.

ghost use Rattle.std.specs.Prelude.{◌≡◌, true, List, Option, Some, None, IsSome, IfOk, IfErr, OnErr};
ghost use Rattle.zarrs_codec.specs.Prelude.{Region, Element, Options, ends_within, region as box_of};
ghost use Rattle.zarrs_codec.specs.Prelude.{type_of, lengths, options_of, raw_of, list_at, IsFit, IsNoFault};
ghost use Rattle.zarrs_codec.specs.Prelude.{ListSeen, RefusesFor, Stores, every, boxed, KeepsSettings};
ghost use Rattle.zarrs_codec_error.specs.declared.error.CodecError.{CodecError};
ghost use Rattle.zarrs_codec_error.specs.declared.error.CodecError.TheVariants as codec;
ghost use Rattle.zarrs_codec_partial_elements.specs.Steps.{ReadsStep, ReadsHeld};

use std::alloc::Global;
use zarrs_array_subset::{ArraySubset, ChunkShape};
use zarrs_codec_array_bytes::ArrayBytes;
use zarrs_codec_error::{CodecError, CodecOptions};
use zarrs_data_type::DataType;

/// A codec with its level over a handle, whose elements are read.
pub trait LevelReads {
    // What it shows, and which errors tell why there are no elements of a box, or none at all.
    ghost seen: { Self → ListSeen };

    ghost tells: { Self → Options → Option Region → CodecError → Type 0 };

    // Two states have the same settings.
    ghost same: { Self → Self → Type 0 };

    // The level is served: by its codec, and of a codec over elements by its fill value.
    ghost served: { Self → Type 0 };

    /// The shape.
    fn shape(&self) -> &ChunkShape
        ensures { lengths result.now.items ≡ (seen self.now).level.shape };

    /// The data type of the elements.
    fn element_type(&self) -> &DataType
        ensures { type_of result.now ≡ (seen self.now).level.data_type };

    /// Tests that the level is served, which is what is tested once the indexer is known to fit.
    ///
    /// # Errors
    /// [`CodecError`] of the reason for which it is not, or [`CodecError::OutOfMemory`].
    fn expect_served(&self, alloc: Global) -> Result<(), CodecError>
        ensures served { IfOk result (λ _. served self.now) }
        ensures named { OnErr result (RefusesFor (seen self.now).unserved result) }
        ensures memory { (seen self.now).unserved ≡ None
            → IfErr result (λ e. e ≡ codec.OutOfMemory) }
        ensures no_fault { IfErr result IsNoFault };

    /// All elements.
    ///
    /// # Errors
    /// [`CodecError`] where what is below is not served, fails or does not decode, where the value is absent and the
    /// fill value has another size than an element, or where memory runs out.
    fn decode_whole(
        &mut self,
        alloc: Global,
        options: &CodecOptions,
    ) -> Result<ArrayBytes<'static>, CodecError>
        requires served { served self.old }
        ensures reads { ReadsStep (options_of options.now) None every (tells self.old)
            (seen self.old) (seen self.new) result }
        ensures kept { KeepsSettings same tells self.old self.new };

    /// The elements of a region that is smaller than the shape, without the rest where the codec can do so.
    ///
    /// # Errors
    /// [`CodecError`] as of `decode_whole`.
    fn decode_box(
        &mut self,
        alloc: Global,
        region: &ArraySubset,
        options: &CodecOptions,
    ) -> Result<ArrayBytes<'static>, CodecError>
        requires served { served self.old }
        requires inside { ends_within (box_of region.now) (seen self.old).level.shape ≡ true }
        ensures reads { ReadsStep (options_of options.now) (Some (box_of region.now))
            (boxed (box_of region.now)) (tells self.old) (seen self.old) (seen self.new) result }
        ensures kept { KeepsSettings same tells self.old self.new };

    // The level fits.
    ghost fits: { (h : Self) → IsFit (seen h).level.shape (seen h).level.data_type };

    // Settings that are kept by two calls are kept, and with them what is served.
    ghost same_self: { (h : Self) → same h h };

    ghost same_twice: { (a b c : Self) → same a b → same b c → same a c };

    ghost same_served: { (a b : Self) → same a b → served a → served b };
}

/// A codec with its level over a handle, whose elements are read and written.
pub trait LevelWrites: LevelReads {
    // Which errors tell that a list of elements is not encoded, which lists are, and where each list of short ones is.
    ghost unencoded: { Self → List Element → CodecError → Type 0 };

    ghost encodes: { Self → List Element → Type 0 };

    ghost encodes_short: { Self → Type 0 };

    /// All elements, to be changed.
    ///
    /// # Errors
    /// [`CodecError`] as of `decode_whole`; [`CodecError::DataTypeFillValueError`] where the value is absent and the
    /// fill value denotes no element.
    fn old_elements(
        &mut self,
        alloc: Global,
        options: &CodecOptions,
    ) -> Result<ArrayBytes<'static>, CodecError>
        requires served { Self.served self.old }
        ensures reads { ReadsHeld (options_of options.now)
            (Self.tells self.old (options_of options.now) None)
            (Self.seen self.old) (Self.seen self.new) result }
        ensures same { Self.same self.old self.new };

    /// Makes the value one that decodes to these elements, or leaves it absent where they are not stored: encoded they
    /// are in either case, before anything is changed.
    ///
    /// # Errors
    /// [`CodecError`] where they are not encoded, where what is below is not served or fails, or where memory runs out.
    fn store_elements(
        &mut self,
        alloc: Global,
        bytes: ArrayBytes<'static>,
        options: &CodecOptions,
    ) -> Result<(), CodecError>
        requires served { Self.served self.old }
        ensures stores { Stores (options_of options.now) (raw_of bytes.entry)
            (unencoded self.old) (encodes self.old) (encodes_short self.old)
            (Self.seen self.old) (Self.seen self.new) result }
        ensures named { IsSome (list_at (Self.seen self.old).level (raw_of bytes.entry))
            → RefusesFor (Self.seen self.old).unserved result }
        ensures same { Self.same self.old self.new };

    // These are so wherever the settings are the same.
    ghost same_unencoded: { (a b : Self) (list : List Element) (e : CodecError) → Self.same a b
        → unencoded b list e → unencoded a list e };

    ghost same_encodes: { (a b : Self) (list : List Element) → Self.same a b → encodes b list
        → encodes a list };

    ghost same_short: { (a b : Self) → Self.same a b → encodes_short a → encodes_short b };
}
