//! Codecs that turn the elements of an array into elements of the level below.

ghost use Rattle.std.specs.Prelude.{◌≡◌, ◌≤◌, ◌<◌, ◌^◌, ℕ, true, false, List, length, replicate, Option, Some, None, IsSome, IfOk, MatchResult, option_map};
ghost use Rattle.zarr_model.specs.Region.{Region, count_of, ends_within};
ghost use Rattle.zarr_model.specs.Element as Model;
ghost use Rattle.zarr_model.specs.Element.{Element, kind_of, fill_element};
ghost use Rattle.zarr_model.specs.Codec.{Level, ArrayCodec};
ghost use Rattle.zarr_model.specs.Command.{has_long_element};
ghost use Rattle.zarrs_array_subset.specs.ArraySubset.{region as box_of};
ghost use Rattle.zarrs_data_type_bytes.specs.FillValue.{fill_bytes};
ghost use Rattle.zarrs_data_type.specs.DataType.{type_of};
ghost use Rattle.zarrs_codec_slices.specs.Filling.{has_size, innermost_fill};
ghost use Rattle.zarrs_codec_error.specs.declared.error.CodecError.TheVariants as codec;
ghost use Rattle.zarrs_codec_array_bytes.specs.Raw.{raw_of};
ghost use Rattle.zarrs_codec_traits.specs.Calls.{AtLevel, EncodesArray, DecodesArray, DecodesRegion};
ghost use Rattle.zarrs_codec_traits.specs.Errors.{unserved_at, RefusesBy, FillAnswers};
ghost use Rattle.zarrs_codec_traits.specs.Same.{IsSameToArray, TellsSame};
ghost use Rattle.zarrs_codec_traits.specs.Views.{lengths, level_of};
ghost use Rattle.zarrs_codec_traits.specs.Words.{IsFit, AreBytes};

use crate::codec_traits::ArrayCodecTraits;
use std::alloc::Global;
use std::num::NonZeroU64;
use zarrs_array_subset::{ArraySubset, ChunkShape};
use zarrs_codec_array_bytes::ArrayBytes;
use zarrs_codec_error::{CodecError, CodecOptions, CodecSpecificOptions};
use zarrs_data_type::DataType;
use zarrs_data_type_bytes::FillValue;

/// A codec that turns the elements of an array into elements of the level below: of another shape, data type or fill
/// value.
///
/// Each call refuses first what the codec does not serve of the shape, data type and fill value that it takes. A call
/// with a region needs it inside the shape.
pub trait ArrayToArrayCodecTraits: ArrayCodecTraits + Sized {
    // The level below, and what a list of it decodes to.
    ghost meaning: { Self → ArrayCodec };

    // The bytes of the fill value below, the box below that holds a region of a shape, and the shape above one below,
    // where there is one.
    ghost fill_below: { Self → Model.DataType → List ℕ → List ℕ };

    ghost region_below: { Self → List ℕ → Region → Region };

    ghost shape_above: { Self → List ℕ → Option (List ℕ) };

    /// The codec with options of its own, by default the same. It serves and decodes as before, with the same
    /// level, fill value and regions below and the same shape above, and is written as before.
    fn with_codec_specific_options(self, _options: &CodecSpecificOptions) -> Self
        ensures same { IsSameToArray meaning fill_below region_below shape_above self result }
        ensures unserved { Self.unserved result ≡ Self.unserved self }
        ensures told { TellsSame Self.CodecTraits.own self result }
    {
        self
    }

    /// The data type below.
    ///
    /// # Errors
    /// [`CodecError`] where the codec does not serve the data type, or memory runs out.
    fn encoded_data_type(
        &self,
        alloc: Global,
        decoded_data_type: &DataType,
    ) -> Result<DataType, CodecError>
        ensures unserved { RefusesBy (Self.unserved self.now None
            (Some (type_of decoded_data_type.now)) None) result }
        ensures value { Self.unserved self.now None (Some (type_of decoded_data_type.now)) None
            ≡ None → MatchResult result (λ r. (level : Level)
            → level.data_type ≡ type_of decoded_data_type.now
            → type_of r ≡ ((meaning self.now).level_below level).data_type)
            (λ e. e ≡ codec.OutOfMemory) };

    /// The fill value below.
    ///
    /// # Errors
    /// [`CodecError`] exactly where the codec does not serve the arguments, else exactly where the fill value has
    /// another size than the type's; else only where it denotes no element, or memory runs out.
    fn encoded_fill_value(
        &self,
        alloc: Global,
        decoded_data_type: &DataType,
        decoded_fill_value: &FillValue,
    ) -> Result<FillValue, CodecError>
        ensures unserved { RefusesBy (Self.unserved self.now None
            (Some (type_of decoded_data_type.now)) (Some (fill_bytes decoded_fill_value.now)))
            result }
        ensures value { Self.unserved self.now None (Some (type_of decoded_data_type.now))
            (Some (fill_bytes decoded_fill_value.now)) ≡ None
            → IsSome (fill_element (kind_of (type_of decoded_data_type.now))
            (fill_bytes decoded_fill_value.now)) → MatchResult result
            (λ r. fill_bytes r ≡ fill_below self.now (type_of decoded_data_type.now)
            (fill_bytes decoded_fill_value.now)) (λ e. e ≡ codec.OutOfMemory) }
        ensures exact { Self.unserved self.now None (Some (type_of decoded_data_type.now))
            (Some (fill_bytes decoded_fill_value.now)) ≡ None
            → FillAnswers (has_size (kind_of (type_of decoded_data_type.now))
            (fill_bytes decoded_fill_value.now)) result };

    /// The shape below.
    ///
    /// # Errors
    /// [`CodecError`] where the codec does not serve the shape, or memory runs out.
    fn encoded_shape(
        &self,
        alloc: Global,
        decoded_shape: &[NonZeroU64],
    ) -> Result<ChunkShape, CodecError>
        ensures unserved { RefusesBy (Self.unserved self.now (Some (lengths decoded_shape.now))
            None None) result }
        ensures value { Self.unserved self.now (Some (lengths decoded_shape.now)) None None ≡ None
            → MatchResult result (λ r. (level : Level) → level.shape ≡ lengths decoded_shape.now
            → lengths r.items ≡ ((meaning self.now).level_below level).shape)
            (λ e. e ≡ codec.OutOfMemory) };

    /// The shape above, and [`None`] where it does not follow from the one below.
    ///
    /// # Errors
    /// [`CodecError`] where the codec does not serve the shape, or memory runs out.
    fn decoded_shape(
        &self,
        alloc: Global,
        encoded_shape: &[NonZeroU64],
    ) -> Result<Option<ChunkShape>, CodecError>
        ensures unserved { RefusesBy (Self.unserved self.now (Some (lengths encoded_shape.now))
            None None) result }
        ensures value { Self.unserved self.now (Some (lengths encoded_shape.now)) None None ≡ None
            → MatchResult result (λ r. option_map (λ v. lengths v.items) r
            ≡ shape_above self.now (lengths encoded_shape.now)) (λ e. e ≡ codec.OutOfMemory) };

    /// The shape, the data type and the fill value below.
    ///
    /// # Errors
    /// [`CodecError`] exactly where the codec does not serve the arguments, else exactly where the fill value has
    /// another size than the type's; else only where it denotes no element, or memory runs out.
    fn encoded_representation(
        &self,
        alloc: Global,
        shape: &[NonZeroU64],
        data_type: &DataType,
        fill_value: &FillValue,
    ) -> Result<(ChunkShape, DataType, FillValue), CodecError>
        requires fits { IsFit (lengths shape.now) (type_of data_type.now) }
        ensures unserved { RefusesBy (unserved_at (Self.unserved self.now)
            (level_of shape.now data_type.now fill_value.now) (fill_bytes fill_value.now)) result }
        ensures value { let level = level_of shape.now data_type.now fill_value.now in
            unserved_at (Self.unserved self.now) level (fill_bytes fill_value.now) ≡ None
            → IsSome (fill_element (kind_of level.data_type) (fill_bytes fill_value.now))
            → MatchResult result (λ r. (level_of r.0.items r.1 r.2
            ≡ (meaning self.now).level_below level)
            × (fill_bytes r.2 ≡ fill_below self.now level.data_type (fill_bytes fill_value.now)))
            (λ e. e ≡ codec.OutOfMemory) }
        ensures exact { let level = level_of shape.now data_type.now fill_value.now in
            unserved_at (Self.unserved self.now) level (fill_bytes fill_value.now) ≡ None
            → FillAnswers (has_size (kind_of level.data_type) (fill_bytes fill_value.now))
            result };

    /// The elements of the level below that decode to these.
    ///
    /// # Errors
    /// [`CodecError`] where the codec does not serve the arguments, else exactly where the bytes are not valid elements
    /// of the shape and data type; or where memory runs out.
    fn encode(
        &self,
        alloc: Global,
        bytes: ArrayBytes<'static>,
        shape: &[NonZeroU64],
        data_type: &DataType,
        fill_value: &FillValue,
        options: &CodecOptions,
    ) -> Result<ArrayBytes<'static>, CodecError>
        requires fits { IsFit (lengths shape.now) (type_of data_type.now) }
        ensures at { let level = level_of shape.now data_type.now fill_value.now in
            AtLevel (unserved_at (Self.unserved self.now) level (fill_bytes fill_value.now))
            (EncodesArray (meaning self.now) level (raw_of bytes.entry) result) result }
        ensures short { has_long_element (raw_of bytes.entry) ≡ false
            → IfOk result (λ v. has_long_element (raw_of v) ≡ false) };

    /// The elements that those of the level below decode to.
    ///
    /// # Errors
    /// [`CodecError`] where the codec does not serve the arguments, else exactly where the bytes are not valid elements
    /// of the level below; or where memory runs out.
    fn decode(
        &self,
        alloc: Global,
        bytes: ArrayBytes<'static>,
        shape: &[NonZeroU64],
        data_type: &DataType,
        fill_value: &FillValue,
        options: &CodecOptions,
    ) -> Result<ArrayBytes<'static>, CodecError>
        requires fits { IsFit (lengths shape.now) (type_of data_type.now) }
        ensures at { let level = level_of shape.now data_type.now fill_value.now in
            AtLevel (unserved_at (Self.unserved self.now) level (fill_bytes fill_value.now))
            (DecodesArray (meaning self.now) level (raw_of bytes.entry) result) result }
        ensures short { has_long_element (raw_of bytes.entry) ≡ false
            → IfOk result (λ v. has_long_element (raw_of v) ≡ false) };

    /// The box of the level below that is needed for a region.
    ///
    /// # Errors
    /// [`CodecError`] where the codec does not serve the shape, or memory runs out.
    fn inner_subset(
        &self,
        alloc: Global,
        region: &ArraySubset,
        shape: &[NonZeroU64],
    ) -> Result<ArraySubset, CodecError>
        requires inside { ends_within (box_of region.now) (lengths shape.now) ≡ true }
        ensures unserved { RefusesBy (Self.unserved self.now (Some (lengths shape.now)) None None)
            result }
        ensures value { Self.unserved self.now (Some (lengths shape.now)) None None ≡ None
            → MatchResult result
            (λ r. box_of r ≡ region_below self.now (lengths shape.now) (box_of region.now))
            (λ e. e ≡ codec.OutOfMemory) };

    /// The elements of a region, from those of the box below that `inner_subset` names.
    ///
    /// # Errors
    /// [`CodecError`] where the codec does not serve the arguments, else exactly where the bytes are not valid elements
    /// of that box; or where memory runs out.
    fn decode_region(
        &self,
        alloc: Global,
        bytes: ArrayBytes<'static>,
        region: &ArraySubset,
        shape: &[NonZeroU64],
        data_type: &DataType,
        fill_value: &FillValue,
        options: &CodecOptions,
    ) -> Result<ArrayBytes<'static>, CodecError>
        requires fits { IsFit (lengths shape.now) (type_of data_type.now) }
        requires inside { ends_within (box_of region.now) (lengths shape.now) ≡ true }
        ensures at { let level = level_of shape.now data_type.now fill_value.now in
            AtLevel (unserved_at (Self.unserved self.now) level (fill_bytes fill_value.now))
            (DecodesRegion (meaning self.now) level (box_of region.now)
            (region_below self.now level.shape (box_of region.now)) (raw_of bytes.entry) result)
            result }
        ensures short { has_long_element (raw_of bytes.entry) ≡ false
            → IfOk result (λ v. has_long_element (raw_of v) ≡ false) };

    // What decodes has an element for each place, and every list with one for each place below decodes.
    ghost counted: { (c : Self) (level : Level) (fill : List ℕ) (below xs : List Element)
        → unserved_at (Self.unserved c) level fill ≡ None
        → length below ≡ count_of ((meaning c).level_below level).shape
        → (meaning c).decode_list level below ≡ Some xs → length xs ≡ count_of level.shape };

    ghost decodes: { (c : Self) (level : Level) (fill : List ℕ) (below : List Element)
        → unserved_at (Self.unserved c) level fill ≡ None
        → length below ≡ count_of ((meaning c).level_below level).shape
        → IsSome ((meaning c).decode_list level below) };

    // A list of the fill below decodes to a list of the fill.
    ghost fills: { (c : Self) (level : Level) (fill : List ℕ)
        → unserved_at (Self.unserved c) level fill ≡ None
        → fill_element (kind_of level.data_type) fill ≡ Some level.fill → AreBytes level.fill
        → (meaning c).decode_list level
        (replicate (count_of ((meaning c).level_below level).shape)
        ((meaning c).level_below level).fill)
        ≡ Some (replicate (count_of level.shape) level.fill) };

    // The fill value below denotes the fill element below, and its numbers are bytes where those above are.
    ghost denotes: { (c : Self) (level : Level) (fill : List ℕ)
        → unserved_at (Self.unserved c) level fill ≡ None
        → fill_element (kind_of level.data_type) fill ≡ Some level.fill
        → fill_element (kind_of ((meaning c).level_below level).data_type)
        (fill_below c level.data_type fill) ≡ Some ((meaning c).level_below level).fill };

    ghost keeps_bytes: { (c : Self) (level : Level) (fill : List ℕ)
        → unserved_at (Self.unserved c) level fill ≡ None
        → fill_element (kind_of level.data_type) fill ≡ Some level.fill → AreBytes level.fill
        → AreBytes ((meaning c).level_below level).fill };

    // The level below has no more elements, and fits where the level does.
    ghost keeps_count: { (c : Self) (level : Level) (fill : List ℕ)
        → unserved_at (Self.unserved c) level fill ≡ None
        → count_of ((meaning c).level_below level).shape ≤ count_of level.shape };

    ghost keeps_fit: { (c : Self) (level : Level) (fill : List ℕ)
        → unserved_at (Self.unserved c) level fill ≡ None → IsFit level.shape level.data_type
        → IsFit ((meaning c).level_below level).shape ((meaning c).level_below level).data_type };

    // The fill below is short where the fill is.
    ghost keeps_short: { (c : Self) (level : Level) (fill : List ℕ)
        → unserved_at (Self.unserved c) level fill ≡ None
        → fill_element (kind_of level.data_type) fill ≡ Some level.fill
        → length (innermost_fill (kind_of level.data_type) fill) < 2 ^ 32
        → length (innermost_fill (kind_of ((meaning c).level_below level).data_type)
        (fill_below c level.data_type fill)) < 2 ^ 32 };

    // The box below lies within the shape below, and the shape above one below has it below.
    ghost region_inside: { (c : Self) (level : Level) (fill : List ℕ) (box : Region)
        → unserved_at (Self.unserved c) level fill ≡ None → ends_within box level.shape ≡ true
        → ends_within (region_below c level.shape box) ((meaning c).level_below level).shape
        ≡ true };

    ghost shape_between: { (c : Self) (level : Level) (fill shape : List ℕ)
        → unserved_at (Self.unserved c) level fill ≡ None
        → shape_above c shape ≡ Some level.shape
        → ((meaning c).level_below level).shape ≡ shape };
}
