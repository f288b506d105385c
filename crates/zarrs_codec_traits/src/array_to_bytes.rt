//! Codecs that turn the elements of an array into bytes.

ghost use Rattle.std.specs.Prelude.{◌≡◌, ◌<◌, ◌^◌, ℕ, Bool, true, false, List, [], length, Option, Some, None, IsSome, IfOk, IfErr, IfSome, MatchResult};
ghost use Rattle.zarr_model.specs.Region.{Region, count_of, ends_within};
ghost use Rattle.zarr_model.specs.Element as Model;
ghost use Rattle.zarr_model.specs.Element.{Element, kind_of};
ghost use Rattle.zarr_model.specs.ArrayBytes as model;
ghost use Rattle.zarr_model.specs.Codec.{Level, Options};
ghost use Rattle.zarr_model.specs.Command.{has_long_element};
ghost use Rattle.zarrs_array_subset.specs.ArraySubset.{region as box_of};
ghost use Rattle.zarrs_storage.specs.declared.byte_range.ByteRange.{ByteRange};
ghost use Rattle.zarrs_storage.specs.ByteRange.{first_invalid, parts_of};
ghost use Rattle.zarrs_data_type_bytes.specs.FillValue.{fill_bytes};
ghost use Rattle.zarrs_data_type.specs.DataType.{type_of};
ghost use Rattle.zarrs_codec_error.specs.declared.error.CodecError.{CodecError};
ghost use Rattle.zarrs_codec_error.specs.declared.error.CodecError.TheVariants as codec;
ghost use Rattle.zarrs_codec_array_bytes.specs.Raw.{raw_of};
ghost use Rattle.zarrs_codec_array_bytes.specs.Refusals.{BytesAnswer, fine, validity, then_answer, Answers};
ghost use Rattle.zarrs_codec_error.specs.declared.bytes_representation.BytesRepresentation.{BytesRepresentation};
ghost use Rattle.zarrs_codec_traits.specs.Calls.{AtLevel, DecodesParts};
ghost use Rattle.zarrs_codec_traits.specs.Errors.{unserved_at, IsNoFault, RefusesBy, Serves, IsDecodeError, IsFormRefusal};
ghost use Rattle.zarrs_codec_array_bytes_parts.specs.Targets.{LeftBehind};
ghost use Rattle.zarrs_codec_array_bytes_parts.specs.TargetViews.{inner_view, mask_views};
ghost use Rattle.zarrs_codec_traits.specs.Into.{RefusesViews, FillsViews};
ghost use Rattle.zarrs_codec_traits.specs.Parts.{IsAnswer};
ghost use Rattle.zarrs_codec_traits.specs.Same.{IsSameToBytes, TellsSame};
ghost use Rattle.zarrs_codec_traits.specs.Views.{lengths, level_of, options_of, asked_ranges};
ghost use Rattle.zarrs_codec_traits.specs.Words.{list_at, Gives, IsFit};

use crate::codec_traits::ArrayCodecTraits;
use crate::decoding::{decode_into_fixed, decode_into_optional};
use std::alloc::Global;
use std::num::NonZeroU64;
use zarrs_array_subset::ArraySubset;
use zarrs_codec_array_bytes::ArrayBytes;
use zarrs_codec_array_bytes_parts::ArrayBytesDecodeIntoTarget;
use zarrs_codec_error::{BytesRepresentation, CodecError, CodecOptions, CodecSpecificOptions};
use zarrs_data_type::DataType;
use zarrs_data_type_bytes::FillValue;
use zarrs_storage::ByteRange;

/// A codec that turns the elements of an array into bytes.
///
/// Each call but `compact` refuses first what the codec does not serve of its shape, data type and fill value. A call
/// with a region needs it inside the shape.
pub trait ArrayToBytesCodecTraits: ArrayCodecTraits + Sized {
    // The list that a value decodes to at a level, if it does.
    ghost meaning: { Self → Options → Level → List ℕ → Option (List Element) };

    // Which errors tell that a value does not decode.
    ghost says: { Self → Options → Level → List ℕ → CodecError → Type 0 };

    // What is refused of array bytes that are valid, and where nothing is of any that are short.
    ghost beyond: { Self → Level → model.ArrayBytes → BytesAnswer };

    ghost takes: { Self → Level → Type 0 };

    // The ranges of a value that hold a region of a shape and data type, or none where the whole value is needed.
    ghost request: { Self → List ℕ → Model.DataType → Region → Option (List ByteRange) };

    // How many bytes the elements of a level have, encoded.
    ghost representation: { Self → Level → BytesRepresentation };

    // Whether a value may be replaced by another that decodes to the same.
    ghost compacts: { Self → Bool };

    /// The codec with options of its own, by default the same. It serves, refuses and decodes as before, asks for the
    /// same ranges, tells the same number of bytes, and is written as before.
    fn with_codec_specific_options(self, _options: &CodecSpecificOptions) -> Self
        ensures same { IsSameToBytes meaning says beyond takes request representation compacts
            self result }
        ensures unserved { Self.unserved result ≡ Self.unserved self }
        ensures told { TellsSame Self.CodecTraits.own self result }
    {
        self
    }

    /// How many bytes the elements of a chunk have, encoded.
    ///
    /// # Errors
    /// [`CodecError`] exactly where the codec does not serve the arguments.
    fn encoded_representation(
        &self,
        shape: &[NonZeroU64],
        data_type: &DataType,
        fill_value: &FillValue,
    ) -> Result<BytesRepresentation, CodecError>
        requires fits { IsFit (lengths shape.now) (type_of data_type.now) }
        ensures { let level = level_of shape.now data_type.now fill_value.now in
            Serves (unserved_at (Self.unserved self.now) level (fill_bytes fill_value.now))
            (λ r. r ≡ representation self.now level) result };

    /// The elements, encoded. They decode to themselves under all options.
    ///
    /// # Errors
    /// [`CodecError`] where the codec does not serve the arguments, else exactly where the bytes are not valid elements
    /// of the shape and data type, else exactly where there are too many or too long ones for the codec; or where
    /// memory runs out.
    fn encode(
        &self,
        alloc: Global,
        bytes: ArrayBytes<'static>,
        shape: &[NonZeroU64],
        data_type: &DataType,
        fill_value: &FillValue,
        options: &CodecOptions,
    ) -> Result<Vec<u8>, CodecError>
        requires fits { IsFit (lengths shape.now) (type_of data_type.now) }
        ensures unserved { RefusesBy (unserved_at (Self.unserved self.now)
            (level_of shape.now data_type.now fill_value.now) (fill_bytes fill_value.now)) result }
        ensures exact { let level = level_of shape.now data_type.now fill_value.now in
            unserved_at (Self.unserved self.now) level (fill_bytes fill_value.now) ≡ None
            → Answers (then_answer
            (validity (kind_of level.data_type) (count_of level.shape) (raw_of bytes.entry))
            (beyond self.now level (raw_of bytes.entry))) result }
        ensures value { let level = level_of shape.now data_type.now fill_value.now in
            unserved_at (Self.unserved self.now) level (fill_bytes fill_value.now) ≡ None
            → IfOk result (λ v. (under : Options)
            → meaning self.now under level v.items ≡ list_at level (raw_of bytes.entry)) };

    /// The elements that the value decodes to.
    ///
    /// # Errors
    /// [`CodecError`] where the codec does not serve the arguments, else exactly where the value does not decode; or
    /// where memory runs out.
    fn decode(
        &self,
        alloc: Global,
        bytes: Vec<u8>,
        shape: &[NonZeroU64],
        data_type: &DataType,
        fill_value: &FillValue,
        options: &CodecOptions,
    ) -> Result<ArrayBytes<'static>, CodecError>
        requires fits { IsFit (lengths shape.now) (type_of data_type.now) }
        ensures unserved { RefusesBy (unserved_at (Self.unserved self.now)
            (level_of shape.now data_type.now fill_value.now) (fill_bytes fill_value.now)) result }
        ensures value { let level = level_of shape.now data_type.now fill_value.now in
            let wanted = meaning self.now (options_of options.now) level bytes.items in
            unserved_at (Self.unserved self.now) level (fill_bytes fill_value.now) ≡ None
            → MatchResult result (λ v. Gives (list_at level (raw_of v)) wanted)
            (IsDecodeError wanted (says self.now (options_of options.now) level bytes.items)) }
        ensures short { IfOk result (λ v. has_long_element (raw_of v) ≡ false) };

    /// Decodes the value and puts its elements where they belong: into the boxes of the target's views, and nothing
    /// else of their bytes is changed. The target's innermost view has as many elements as the shape.
    ///
    /// # Errors
    /// [`CodecError`] where the codec does not serve the arguments; else `InvalidNumberOfElements` exactly where the
    /// target has another number of elements; else what `decode` refuses; else what the target does, by the kind of the
    /// data type and the number of elements. Or where memory runs out. The target is as it was then.
    final fn decode_into(
        &self,
        alloc: Global,
        bytes: Vec<u8>,
        shape: &[NonZeroU64],
        data_type: &DataType,
        fill_value: &FillValue,
        output_target: ArrayBytesDecodeIntoTarget<'_, '_>,
        options: &CodecOptions,
    ) -> Result<(), CodecError>
        requires fits { IsFit (lengths shape.now) (type_of data_type.now) }
        ensures at { let level = level_of shape.now data_type.now fill_value.now in
            let wanted = meaning self.now (options_of options.now) level bytes.items in
            let masks = mask_views output_target.entry in
            let inner = inner_view output_target.entry in
            AtLevel (unserved_at (Self.unserved self.now) level (fill_bytes fill_value.now))
            (RefusesViews level wanted (says self.now (options_of options.now) level bytes.items)
            masks inner result
            × LeftBehind (λ left. FillsViews level wanted [] [] inner left.0.now result)
            (λ left. FillsViews level wanted masks left.1.0.now inner left.0.now result)
            output_target.exit) result }
        ensures kept { IfErr result (λ _. LeftBehind
            (λ left. left.0.now ≡ inner_view output_target.entry)
            (λ left. (left.0.now ≡ inner_view output_target.entry)
            × (left.1.0.now ≡ mask_views output_target.entry)) output_target.exit) }
    {
        match output_target {
            ArrayBytesDecodeIntoTarget::Fixed(view) => decode_into_fixed(
                self, alloc, bytes, shape, data_type, fill_value, view, options,
            ),
            ArrayBytesDecodeIntoTarget::Optional(view, masks) => decode_into_optional(
                self, alloc, bytes, shape, data_type, fill_value, view, masks, options,
            ),
        }
    }

    /// A value that decodes to the same elements, to be stored in place of this one, and [`None`] where this one stays.
    /// By default it stays, as it does in each codec that replaces none.
    ///
    /// # Errors
    /// [`CodecError`] where the codec does not serve the arguments or the value does not decode, or memory runs out.
    fn compact(
        &self,
        _alloc: Global,
        bytes: Vec<u8>,
        shape: &[NonZeroU64],
        data_type: &DataType,
        fill_value: &FillValue,
        options: &CodecOptions,
    ) -> Result<Option<Vec<u8>>, CodecError>
        requires fits { IsFit (lengths shape.now) (type_of data_type.now) }
        ensures stays { compacts self.now ≡ false
            → MatchResult result (λ r. r ≡ None) (λ e. e ≡ codec.OutOfMemory) }
        ensures value { let level = level_of shape.now data_type.now fill_value.now in
            unserved_at (Self.unserved self.now) level (fill_bytes fill_value.now) ≡ None
            → MatchResult result (λ r. IfSome r (λ v. (under : Options)
            → meaning self.now under level v.items ≡ meaning self.now under level bytes.items))
            (IsDecodeError (meaning self.now (options_of options.now) level bytes.items)
            (says self.now (options_of options.now) level bytes.items)) }
    {
        Ok(None)
    }

    /// The ranges of a value that hold a region, and [`None`] where the whole value is needed.
    ///
    /// # Errors
    /// [`CodecError`] where the codec does not serve the shape and the data type, or memory runs out.
    fn byte_request(
        &self,
        alloc: Global,
        region: &ArraySubset,
        shape: &[NonZeroU64],
        data_type: &DataType,
    ) -> Result<Option<Vec<ByteRange>>, CodecError>
        requires fits { IsFit (lengths shape.now) (type_of data_type.now) }
        requires inside { ends_within (box_of region.now) (lengths shape.now) ≡ true }
        ensures unserved { RefusesBy (Self.unserved self.now (Some (lengths shape.now))
            (Some (type_of data_type.now)) None) result }
        ensures value { Self.unserved self.now (Some (lengths shape.now))
            (Some (type_of data_type.now)) None ≡ None → MatchResult result
            (λ r. asked_ranges r ≡ request self.now (lengths shape.now) (type_of data_type.now)
            (box_of region.now)) (λ e. e ≡ codec.OutOfMemory) };

    /// The elements of a region, out of the parts of a value that `byte_request` names, or out of the whole value
    /// where it names none.
    ///
    /// # Errors
    /// [`CodecError`] where the codec does not serve the arguments, where a part has another length than its range,
    /// where a value with these parts does not decode, or where memory runs out.
    fn decode_parts(
        &self,
        alloc: Global,
        parts: Vec<Vec<u8>>,
        region: &ArraySubset,
        shape: &[NonZeroU64],
        data_type: &DataType,
        fill_value: &FillValue,
        options: &CodecOptions,
    ) -> Result<ArrayBytes<'static>, CodecError>
        requires fits { IsFit (lengths shape.now) (type_of data_type.now) }
        requires inside { ends_within (box_of region.now) (lengths shape.now) ≡ true }
        requires answered { IsAnswer (request self.now (lengths shape.now) (type_of data_type.now)
            (box_of region.now)) (parts_of parts) }
        ensures at { let level = level_of shape.now data_type.now fill_value.now in
            AtLevel (unserved_at (Self.unserved self.now) level (fill_bytes fill_value.now))
            (DecodesParts (request self.now level.shape level.data_type (box_of region.now))
            (meaning self.now (options_of options.now) level)
            (says self.now (options_of options.now) level) level (box_of region.now)
            (parts_of parts) result) result }
        ensures short { IfOk result (λ v. has_long_element (raw_of v) ≡ false) }
        ensures no_fault { IfErr result IsNoFault };

    // What decodes has an element for each place.
    ghost counted: { (c : Self) (under : Options) (level : Level) (value : List ℕ)
        (xs : List Element) → meaning c under level value ≡ Some xs
        → length xs ≡ count_of level.shape };

    // Nothing is refused of valid array bytes that are short, where the level takes all of them.
    ghost taken: { (c : Self) (level : Level) (fill : List ℕ) (bytes : model.ArrayBytes)
        → unserved_at (Self.unserved c) level fill ≡ None → takes c level
        → IsSome (list_at level bytes) → has_long_element bytes ≡ false
        → beyond c level bytes ≡ fine };

    // A level of fewer than 2 ^ 32 elements takes all that are short, and what is refused of others is their form.
    ghost takes_few: { (c : Self) (level : Level) (fill : List ℕ)
        → unserved_at (Self.unserved c) level fill ≡ None → count_of level.shape < 2 ^ 32
        → takes c level };

    ghost refuses_form: { (c : Self) (level : Level) (bytes : model.ArrayBytes)
        → IsFormRefusal (beyond c level bytes) };

    // Where a range that is asked for does not lie within a value, the value does not decode.
    ghost asks: { (c : Self) (under : Options) (level : Level) (box : Region)
        (fill value : List ℕ) (ranges : List ByteRange)
        → unserved_at (Self.unserved c) level fill ≡ None → ends_within box level.shape ≡ true
        → request c level.shape level.data_type box ≡ Some ranges
        → ¬ (first_invalid (length value) ranges ≡ None) → meaning c under level value ≡ None };

    // An error of a value that does not decode is no fault of a store.
    ghost no_fault: { (c : Self) (under : Options) (level : Level) (value : List ℕ)
        (e : CodecError) → says c under level value e → IsNoFault e };
}
