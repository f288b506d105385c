//! Handles on elements that are read.

ghost use Rattle.std.specs.Prelude.{◌≡◌, false, Bool, List, [], length, Option, Some, None, IfOk, IfErr};
ghost use Rattle.zarrs_codec_traits.specs.Prelude.{Region, count_of, Rose, Options, type_of, options_of};
ghost use Rattle.zarr_model.specs.Element.{Element, kind_of};
ghost use Rattle.zarrs_storage.specs.declared.store.StorageError.TheVariants as storage;
ghost use Rattle.zarrs_codec_error.specs.declared.error.CodecError.{CodecError};
ghost use Rattle.zarrs_codec_array_bytes_parts.specs.Targets.{LeftBehind};
ghost use Rattle.zarrs_codec_array_bytes_parts.specs.TargetViews.{inner_view, mask_views};
ghost use Rattle.zarrs_codec.specs.Lists.{ListSeen, AreFew, LooksAt, fills};
ghost use Rattle.zarrs_codec.specs.Selects.{indexed, ReadsIndexed, ReadsInto, PutsInto};
ghost use Rattle.zarrs_codec.specs.Settings.{KeepsSettings};

use crate::into_target::{read_into_fixed, read_into_optional};
use std::alloc::Global;
use zarrs_chunk_grid_indexer::Indexer;
use zarrs_codec_array_bytes::ArrayBytes;
use zarrs_codec_array_bytes_parts::ArrayBytesDecodeIntoTarget;
use zarrs_codec_error::{CodecError, CodecOptions};
use zarrs_data_type::DataType;
use zarrs_storage::StorageError;

/// A handle on the elements that one value decodes to, which are read all or some of them.
///
/// A call with an indexer needs that its number of indices plus one, and that number times the size of the type's
/// innermost elements where these have one, fit `usize`.
pub trait ArrayPartialDecoderTraits {
    // What it holds, and what it shows of what is below.
    ghost seen: { Self → ListSeen };

    // Which errors tell why there are no elements of a box, or none at all.
    ghost tells: { Self → Options → Option Region → CodecError → Type 0 };

    // Two states have the same settings, which are what a handle has beside its value.
    ghost same: { Self → Self → Type 0 };

    // Whether it reads some elements without the rest.
    ghost reads_parts: { Self → Bool };

    /// How often what is below has failed; 0 for values in memory.
    fn faults(&self) -> u64
        ensures { result ≡ (seen self.now).shown.faults };

    /// The data type of the elements.
    fn data_type(&self) -> &DataType
        ensures { type_of result.now ≡ (seen self.now).level.data_type };

    /// Whether the value is there, decoded or not.
    ///
    /// # Errors
    /// [`StorageError::Failed`] where what is below fails.
    fn exists(&mut self) -> Result<bool, StorageError>
        ensures value { IfOk result (λ there. there ≡ (seen self.old).there) }
        ensures failed { IfErr result (λ e. (e ≡ storage.Failed)
            × Rose (seen self.old).shown.faults (seen self.new).shown.faults) }
        ensures looks { LooksAt (seen self.old) (seen self.new) result }
        ensures kept { KeepsSettings same tells self.old self.new };

    /// How many bytes of the value are in memory; 0 over a store.
    fn size_held(&self) -> usize
        ensures { result ≡ (seen self.now).size };

    /// Whether some elements are read without the rest.
    fn supports_partial_decode(&self) -> bool
        ensures { result ≡ reads_parts self.now };

    /// The elements at the indexer's indices, in their order: those of what the value decodes to, or the fill value
    /// where it is absent.
    ///
    /// # Errors
    /// [`CodecError::IncompatibleIndexer`] exactly where the indexer does not fit the shape, before anything is read;
    /// else the error of the reason for which the level is not served, exactly where there is one;
    /// [`CodecError::StorageError`] where what is below fails; what tells that the value does not decode; or
    /// [`CodecError::OutOfMemory`].
    fn partial_decode<I: Indexer>(
        &mut self,
        alloc: Global,
        indexer: &I,
        options: &CodecOptions,
    ) -> Result<ArrayBytes<'static>, CodecError>
        requires few { AreFew (kind_of (seen self.old).level.data_type)
            (length (I.places indexer.now)) }
        ensures reads { ReadsIndexed (options_of options.now)
            (indexed I.fits I.refuses I.as_region I.places (seen self.old).level.shape indexer.now)
            (tells self.old) (seen self.old) (seen self.new) result }
        ensures kept { KeepsSettings same tells self.old self.new };

    /// Puts the elements at the indexer's indices into the boxes of a target's views, and nothing else of their bytes
    /// is changed. On an error it is as it was.
    ///
    /// # Errors
    /// [`CodecError::InvalidNumberOfElements`] exactly where the target has another number of elements than the
    /// indexer, before anything is read; else as `partial_decode`, and then as the target answers to elements of the
    /// data type.
    final fn partial_decode_into<I: Indexer>(
        &mut self,
        alloc: Global,
        indexer: &I,
        output_target: ArrayBytesDecodeIntoTarget<'_, '_>,
        options: &CodecOptions,
    ) -> Result<(), CodecError>
        requires few { AreFew (kind_of (seen self.old).level.data_type)
            (length (I.places indexer.now)) }
        ensures reads { ReadsInto (options_of options.now)
            (indexed I.fits I.refuses I.as_region I.places (seen self.old).level.shape indexer.now)
            (tells self.old) (mask_views output_target.entry) (inner_view output_target.entry)
            (seen self.old) (seen self.new) result }
        ensures puts { let at = options_of options.now in LeftBehind
            (λ left. PutsInto at (I.places indexer.now) (seen self.old) [] []
            (inner_view output_target.entry) left.0.now result)
            (λ left. PutsInto at (I.places indexer.now) (seen self.old)
            (mask_views output_target.entry) left.1.0.now (inner_view output_target.entry)
            left.0.now result) output_target.exit }
        ensures kept { KeepsSettings same tells self.old self.new }
    {
        match output_target {
            ArrayBytesDecodeIntoTarget::Fixed(view) => {
                read_into_fixed(self, alloc, indexer, view, options)
            }
            ArrayBytesDecodeIntoTarget::Optional(view, masks) => {
                read_into_optional(self, alloc, indexer, view, masks, options)
            }
        }
    }

    // The list has an element for each place.
    ghost counted: { (h : Self) (under : Options) (xs : List Element) → (seen h).unserved ≡ None
        → (seen h).list under ≡ Some xs → length xs ≡ count_of (seen h).level.shape };

    // Of an absent value the list is the fill's.
    ghost absent: { (h : Self) (under : Options) → (seen h).unserved ≡ None
        → (seen h).there ≡ false → (seen h).list under ≡ fills (seen h).level (seen h).fill };

    // Settings that are kept by two calls are kept.
    ghost same_self: { (h : Self) → same h h };

    ghost same_twice: { (a b c : Self) → same a b → same b c → same a c };
}
