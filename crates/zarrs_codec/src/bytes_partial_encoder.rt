//! Handles on bytes that are read and written.

ghost use Rattle.std.specs.Prelude.{◌≡◌, ◌∷◌, [], ◌≤◌, ◌+◌, ◌-◌, ◌^◌, Bool, length, Some, None, IfErr};
ghost use Rattle.zarrs_storage.specs.Parts.{PartsFit, with_parts};
ghost use Rattle.zarrs_codec_error.specs.declared.error.CodecError.{CodecError};
ghost use Rattle.zarrs_codec_traits.specs.Prelude.{options_of, IsReadError, IsHandleError};
ghost use Rattle.zarrs_codec_traits.specs.Prelude.{IsFailedRead};
ghost use Rattle.zarrs_codec_traits.specs.Writes.{Writes, Edits, Unasked};
ghost use Rattle.zarrs_codec.specs.Settings.{KeepsOnWrite};

use crate::bytes_partial_decoder::BytesPartialDecoderTraits;
use std::alloc::Global;
use zarrs_codec_error::{CodecError, CodecOptions};
use zarrs_storage::OffsetBytes;

/// A handle on one value that is bytes, which is read and written.
pub trait BytesPartialEncoderTraits: BytesPartialDecoderTraits {
    // Whether it writes a part of the value without the rest.
    ghost writes_parts: { Self → Bool };

    // Whether it reads the whole value before it writes parts of it.
    ghost rereads: { Self → Bool };

    /// Leaves the value absent, also where it was absent.
    ///
    /// # Errors
    /// [`CodecError::StorageError`] where what is below fails. The value is then as before, or absent.
    fn erase(&mut self) -> Result<(), CodecError>
        ensures kept { KeepsOnWrite Self.seen Self.same Self.tells self.old self.new }
        ensures writes { Writes None (Self.seen self.old) (Self.seen self.new) result }
        ensures unasked { Unasked (Self.seen self.old) (Self.seen self.new) }
        ensures cause { IfErr result (IsFailedRead (Self.seen self.old).shown.faults
            (Self.seen self.new).shown.faults) };

    /// Whether a part of the value is written without the rest.
    fn supports_partial_encode(&self) -> bool
        ensures { result ≡ writes_parts self.now };

    /// Puts the bytes into the value at `offset`, an absent one counting as empty.
    ///
    /// # Errors
    /// [`CodecError`] as of `partial_encode_many`.
    final fn partial_encode(
        &mut self,
        alloc: Global,
        offset: u64,
        bytes: Vec<u8>,
        options: &CodecOptions,
    ) -> Result<(), CodecError>
        requires fit { offset + length bytes.items ≤ 2 ^ 64 - 1 }
        ensures kept { KeepsOnWrite Self.seen Self.same Self.tells self.old self.new }
        ensures edits { Edits
            (λ value. with_parts (record { offset = offset; bytes = bytes } ∷ []) value)
            (rereads self.old) (options_of options.now)
            (Self.seen self.old) (Self.seen self.new) result }
        ensures cause { IfErr result
            (IsReadError ((Self.seen self.old).held (options_of options.now))
            (Self.tells self.old (options_of options.now) None)
            (Self.seen self.old).shown.faults (Self.seen self.new).shown.faults) }
    {
        let parts = [OffsetBytes { offset, bytes }];
        self.partial_encode_many(alloc, &parts, options)
    }

    /// Puts each part into the value, in order, an absent one counting as empty: the value is filled up with zero bytes
    /// to the part's end, and the part replaces the bytes at its place.
    ///
    /// # Errors
    /// [`CodecError::StorageError`] where what is below fails; the value is then as before, or the new one, or absent.
    /// What tells that the old value does not decode, or [`CodecError::OutOfMemory`]; nothing is changed then.
    fn partial_encode_many(
        &mut self,
        alloc: Global,
        offset_values: &[OffsetBytes],
        options: &CodecOptions,
    ) -> Result<(), CodecError>
        requires fit { PartsFit offset_values.now }
        ensures kept { KeepsOnWrite Self.seen Self.same Self.tells self.old self.new }
        ensures edits { Edits (with_parts offset_values.now) (rereads self.old)
            (options_of options.now) (Self.seen self.old) (Self.seen self.new) result }
        ensures cause { IfErr result
            (IsReadError ((Self.seen self.old).held (options_of options.now))
            (Self.tells self.old (options_of options.now) None)
            (Self.seen self.old).shown.faults (Self.seen self.new).shown.faults) };

    /// Makes the value exactly these bytes.
    ///
    /// # Errors
    /// [`CodecError::StorageError`] where what is below fails; the value is then as before, or the new one, or absent.
    /// [`CodecError::OutOfMemory`], after which nothing has changed.
    fn replace(
        &mut self,
        alloc: Global,
        bytes: &[u8],
        options: &CodecOptions,
    ) -> Result<(), CodecError>
        ensures kept { KeepsOnWrite Self.seen Self.same Self.tells self.old self.new }
        ensures writes { Writes (Some bytes.now) (Self.seen self.old) (Self.seen self.new) result }
        ensures unasked { Unasked (Self.seen self.old) (Self.seen self.new) }
        ensures cause { IfErr result (IsHandleError (Self.seen self.old).shown.faults
            (Self.seen self.new).shown.faults) };
}
