//! Handles on elements that are read and written.

ghost use Rattle.std.specs.Prelude.{◌≡◌, Bool, false, List, length, None, IfErr};
ghost use Rattle.zarrs_codec_traits.specs.Prelude.{Element, kind_of, raw_of, fine, validity};
ghost use Rattle.zarrs_codec_traits.specs.Prelude.{IfUnfit, IsFailedRead, RefusesAs, options_of};
ghost use Rattle.zarrs_codec_error.specs.declared.error.CodecError.{CodecError};
ghost use Rattle.zarrs_codec.specs.Lists.{AreFew, RefusesFor};
ghost use Rattle.zarrs_codec.specs.ListWrites.{given_answer, ErasesList, KeepsRest, UnaskedList, IsUntouchedList};
ghost use Rattle.zarrs_codec.specs.Updates.{change_of, Updates};

use crate::array_partial_decoder::ArrayPartialDecoderTraits;
use std::alloc::Global;
use zarrs_chunk_grid_indexer::Indexer;
use zarrs_codec_array_bytes::ArrayBytes;
use zarrs_codec_error::{CodecError, CodecOptions};

/// A handle on the elements that one value decodes to, which are read and written.
pub trait ArrayPartialEncoderTraits: ArrayPartialDecoderTraits {
    // Whether it writes some elements without the rest.
    ghost writes_parts: { Self → Bool };

    // Which errors tell that a list of elements is not encoded, which lists are, and where each list of short ones is.
    ghost unencoded: { Self → List Element → CodecError → Type 0 };

    ghost encodes: { Self → List Element → Type 0 };

    ghost encodes_short: { Self → Type 0 };

    /// Leaves the value absent, also where it was absent.
    ///
    /// # Errors
    /// [`CodecError::StorageError`] where what is below fails. The value is then as before, or absent.
    fn erase(&mut self) -> Result<(), CodecError>
        ensures same { Self.same self.old self.new }
        ensures erases { ErasesList (Self.seen self.old) (Self.seen self.new) result }
        ensures rest { KeepsRest (Self.seen self.old) (Self.seen self.new) }
        ensures unasked { UnaskedList (Self.seen self.old) (Self.seen self.new) }
        ensures cause { IfErr result (IsFailedRead (Self.seen self.old).shown.faults
            (Self.seen self.new).shown.faults) };

    /// Whether some elements are written without the rest.
    fn supports_partial_encode(&self) -> bool
        ensures { result ≡ writes_parts self.now };

    /// Puts the elements at the indexer's indices in order, so that the last one wins, into those of the value, or into
    /// the fill value's where it is absent. The value is then absent where all elements are the fill value's and such
    /// values are not stored, and else it decodes to these elements. Where the indexer is the box of all elements,
    /// nothing is read.
    ///
    /// # Errors
    /// [`CodecError`] where the bytes are not valid elements, so many as the indexer has, else
    /// [`CodecError::IncompatibleIndexer`] where the indexer does not fit the shape, both before anything is read;
    /// [`CodecError::StorageError`] where what is below fails: the value is then as before, or absent, or, where the
    /// new elements are stored, one that decodes to them. What tells that the old value does not decode;
    /// [`CodecError::DataTypeFillValueError`] where it is absent, some elements are given, and the fill value denotes
    /// none; what refuses to encode the new elements, also where the value would be left absent, what tells that they
    /// are not served, or [`CodecError::OutOfMemory`]; nothing is changed then.
    fn partial_encode<I: Indexer>(
        &mut self,
        alloc: Global,
        indexer: &I,
        bytes: &ArrayBytes<'_>,
        options: &CodecOptions,
    ) -> Result<(), CodecError>
        requires few { AreFew (kind_of (Self.seen self.old).level.data_type)
            (length (I.places indexer.now)) }
        ensures given { RefusesAs (given_answer (kind_of (Self.seen self.old).level.data_type)
            (I.fits indexer.now (Self.seen self.old).level.shape) (length (I.places indexer.now))
            (raw_of bytes.now)) result }
        ensures refusal { validity (kind_of (Self.seen self.old).level.data_type)
            (length (I.places indexer.now)) (raw_of bytes.now) ≡ fine
            → I.fits indexer.now (Self.seen self.old).level.shape ≡ false
            → IfErr result (IfUnfit (I.refuses indexer.now (Self.seen self.old).level.shape)) }
        ensures untouched { IsUntouchedList (given_answer
            (kind_of (Self.seen self.old).level.data_type)
            (I.fits indexer.now (Self.seen self.old).level.shape) (length (I.places indexer.now))
            (raw_of bytes.now)) (Self.seen self.old) (Self.seen self.new) }
        ensures updates { Updates (options_of options.now)
            (change_of (Self.seen self.old).level
            (I.fits indexer.now (Self.seen self.old).level.shape)
            (I.as_region indexer.now) (I.places indexer.now) (raw_of bytes.now))
            (Self.tells self.old (options_of options.now) None) (unencoded self.old)
            (encodes self.old) (encodes_short self.old)
            (Self.seen self.old) (Self.seen self.new) result }
        ensures named { given_answer (kind_of (Self.seen self.old).level.data_type)
            (I.fits indexer.now (Self.seen self.old).level.shape) (length (I.places indexer.now))
            (raw_of bytes.now) ≡ fine → RefusesFor (Self.seen self.old).unserved result }
        ensures same { Self.same self.old self.new };

    // These are so wherever the settings are the same.
    ghost same_unencoded: { (a b : Self) (list : List Element) (e : CodecError) → Self.same a b
        → unencoded b list e → unencoded a list e };

    ghost same_encodes: { (a b : Self) (list : List Element) → Self.same a b → encodes b list
        → encodes a list };

    ghost same_short: { (a b : Self) → Self.same a b → encodes_short a → encodes_short b };
}
