//! Handles on bytes that are read.

ghost use Rattle.std.specs.Prelude.{◌≡◌, ◌∷◌, [], Bool, List, Option, Some, None, IfOk, IfErr};
ghost use Rattle.zarrs_codec_traits.specs.Prelude.{Options, Rose, value_bytes, part_bytes};
ghost use Rattle.zarrs_codec_traits.specs.Prelude.{IsNoFault, options_of, Seen, IsSoundSeen};
ghost use Rattle.zarrs_storage.specs.declared.byte_range.ByteRange.{ByteRange};
ghost use Rattle.zarrs_storage.specs.declared.byte_range.InvalidByteRangeError.{InvalidByteRangeError};
ghost use Rattle.zarrs_storage.specs.declared.store.StorageError.TheVariants as storage;
ghost use Rattle.zarrs_codec_error.specs.declared.error.CodecError.{CodecError};
ghost use Rattle.zarrs_codec.specs.Settings.{KeepsSettings};
ghost use Rattle.zarrs_codec_traits.specs.Reads.{Looks, ReadsRanges, GivesParts, IsReadError, IsPartError, RefusesFirst};

use std::alloc::Global;
use zarrs_codec_error::{CodecError, CodecOptions};
use zarrs_codec_traits::only_part;
use zarrs_storage::{ByteRange, StorageError};

/// A handle on one value that is bytes, which is read whole or by ranges.
pub trait BytesPartialDecoderTraits {
    // What it holds, and what it shows of what is below.
    ghost seen: { Self → Seen };

    // Which errors tell why a read is refused of the ranges that are asked for, or of the whole value.
    ghost tells: { Self → Options → Option (List ByteRange) → CodecError → Type 0 };

    // Two states have the same settings, which are what a handle has beside its value: a codec, or where an interval
    // lies.
    ghost same: { Self → Self → Type 0 };

    // The error of a range that is refused before anything is read, of those asked for, or for the whole value.
    ghost early: { Self → Option (List ByteRange) → Option InvalidByteRangeError };

    // Whether it reads a part of the value without the rest.
    ghost reads_parts: { Self → Bool };

    /// How often what is below has failed; 0 for values in memory.
    fn faults(&self) -> u64
        ensures { result ≡ (seen self.now).shown.faults };

    /// Whether the value is there, decoded or not.
    ///
    /// # Errors
    /// [`StorageError::Failed`] where what is below fails.
    fn exists(&mut self) -> Result<bool, StorageError>
        ensures value { IfOk result
            (λ there. there ≡ (seen self.old).there) }
        ensures failed { IfErr result (λ e. (e ≡ storage.Failed)
            × Rose (seen self.old).shown.faults (seen self.new).shown.faults) }
        ensures looks { Looks (seen self.old) (seen self.new) result }
        ensures kept { KeepsSettings same tells self.old self.new };

    /// How many bytes of the value are in memory; 0 over a store.
    fn size_held(&self) -> usize
        ensures { result ≡ (seen self.now).size };

    /// Whether a part of the value is read without the rest.
    fn supports_partial_decode(&self) -> bool
        ensures { result ≡ reads_parts self.now };

    /// The bytes of one range of the value, or [`None`] where it is absent.
    ///
    /// # Errors
    /// [`CodecError`] as of `partial_decode_many`.
    #[tactic(auto, using(zarrs_codec_traits::proofs::PartLaws::as_many, zarrs_codec_traits::proofs::IntervalLaws::first_ok, zarrs_codec_traits::proofs::IntervalLaws::first_err))]
    final fn partial_decode(
        &mut self,
        alloc: Global,
        decoded_region: ByteRange,
        options: &CodecOptions,
    ) -> Result<Option<Vec<u8>>, CodecError>
        ensures value { IfOk result
            (λ bytes. (seen self.old).part (options_of options.now) decoded_region
            ≡ Some (value_bytes bytes)) }
        ensures cause { IfErr result (IsPartError ((seen self.old).part (options_of options.now))
            (decoded_region ∷ [])
            (tells self.old (options_of options.now) (Some (decoded_region ∷ [])))
            (seen self.old).shown.faults (seen self.new).shown.faults) }
        ensures first { RefusesFirst (early self.old (Some (decoded_region ∷ [])))
            (seen self.old).shown (seen self.new).shown result }
        ensures reads { ReadsRanges (Some (decoded_region ∷ [])) (seen self.old)
            (seen self.new) result }
        ensures kept { KeepsSettings same tells self.old self.new }
    {
        let regions = [decoded_region];
        match self.partial_decode_many(alloc, &regions, options) {
            Ok(Some(parts)) => Ok(Some(only_part(parts))),
            Ok(None) => Ok(None),
            Err(error) => Err(error),
        }
    }

    /// The bytes of each range of the value, in the order of the ranges, or [`None`] where it is absent.
    ///
    /// # Errors
    /// Where a range is refused, what tells why: [`CodecError::InvalidByteRangeError`] of a value that is read whole,
    /// which names the first range that is not valid and the value's length, and what its codec says of one that does
    /// not decode. [`CodecError::StorageError`] where what is below fails; or [`CodecError::OutOfMemory`].
    fn partial_decode_many(
        &mut self,
        alloc: Global,
        decoded_regions: &[ByteRange],
        options: &CodecOptions,
    ) -> Result<Option<Vec<Vec<u8>>>, CodecError>
        ensures value { IfOk result (λ parts. GivesParts (seen self.old).there
            ((seen self.old).part (options_of options.now)) decoded_regions.now
            (part_bytes parts)) }
        ensures cause { IfErr result (IsPartError ((seen self.old).part (options_of options.now))
            decoded_regions.now
            (tells self.old (options_of options.now) (Some decoded_regions.now))
            (seen self.old).shown.faults (seen self.new).shown.faults) }
        ensures first { RefusesFirst (early self.old (Some decoded_regions.now))
            (seen self.old).shown (seen self.new).shown result }
        ensures reads { ReadsRanges (Some decoded_regions.now) (seen self.old)
            (seen self.new) result }
        ensures kept { KeepsSettings same tells self.old self.new };

    /// The whole value, or [`None`] where it is absent.
    ///
    /// # Errors
    /// [`CodecError::StorageError`] where what is below fails; what tells that the value does not decode; or
    /// [`CodecError::OutOfMemory`].
    fn decode(
        &mut self,
        alloc: Global,
        options: &CodecOptions,
    ) -> Result<Option<Vec<u8>>, CodecError>
        ensures value { IfOk result
            (λ v. (seen self.old).held (options_of options.now) ≡ Some (value_bytes v)) }
        ensures cause { IfErr result (IsReadError ((seen self.old).held (options_of options.now))
            (tells self.old (options_of options.now) None)
            (seen self.old).shown.faults (seen self.new).shown.faults) }
        ensures first { RefusesFirst (early self.old None)
            (seen self.old).shown (seen self.new).shown result }
        ensures reads { ReadsRanges None (seen self.old) (seen self.new) result }
        ensures kept { KeepsSettings same tells self.old self.new };

    // Settings that are kept by two calls are kept.
    ghost same_self: { (h : Self) → same h h };

    ghost same_twice: { (a b c : Self) → same a b → same b c → same a c };

    // What tells why a read is refused is no fault of a store.
    ghost no_fault: { (h : Self) (under : Options) (asked : Option (List ByteRange))
        (e : CodecError) → tells h under asked e → IsNoFault e };

    // What is read belongs together.
    ghost sound: { (h : Self) → IsSoundSeen (seen h) };
}
