//! An array moved into another store, under another grid and other codecs.

ghost use Rattle.std.specs.Prelude.{◌≡◌, ◌↔◌, None, map, IsTrue, IfOk, OnOk, IfErr};
ghost use Rattle.std.specs.List.{list_any};
ghost use Rattle.zarrs_codec_traits.specs.Prelude.{count, kind_of, fixed_size, is_too_large};
ghost use Rattle.zarrs_codec_traits.specs.Prelude.{region as region_of, type_of, options_of};
ghost use Rattle.zarr_array.specs.OpenArray.{documented, described_array};
ghost use Rattle.zarr_rechunk.specs.Bands.{bands};
ghost use Rattle.zarr_rechunk.specs.Band.{IsOnlyRead, LeavesBand};
ghost use Rattle.zarr_rechunk.specs.Fails.{MayMove, IsUnbegun};
ghost use Rattle.zarr_rechunk.specs.Whole.{HasMovedArray, HasNotMoved};

use crate::bands::bands_of;
use crate::error::{RechunkError, RechunkErrorKind};
use crate::moving::move_bands;
use std::alloc::Global;
use zarr_array::{CodecOptions, DataType, OpenArray};
use zarr_array_boxes::is_too_large;
use zarrs_array_subset::ArraySubset;
use zarrs_storage::Store;

// Whether two shapes are the same.
fn is_same_shape(shape: &[u64], other: &[u64]) -> bool
    ensures { IsTrue result ↔ (shape.now ≡ other.now) }
{
    shape == other
}

// Whether two data types are.
#[tactic(auto, using(zarrs_data_type::proofs::SameTypeLaws::same_is))]
fn is_same_type(data_type: &DataType, other: &DataType) -> bool
    ensures { IsTrue result ↔ (type_of data_type.now ≡ type_of other.now) }
{
    data_type == other
}

// Whether one of some bands has too many elements, or too many bytes of them.
fn has_large(bands: &[ArraySubset], data_type: &DataType) -> bool
    ensures { result ≡ list_any (λ band.
        is_too_large (fixed_size (kind_of (type_of data_type.now))) (count band))
        (map region_of bands.now) }
{
    for band in bands {
        if is_too_large(band, data_type) {
            return true;
        }
    }
    false
}

// The bands of the target, if the source may be moved into it.
fn bands_to_move(
    alloc: Global,
    source: &OpenArray,
    target: &OpenArray,
) -> Result<Vec<ArraySubset>, RechunkErrorKind>
    ensures may { OnOk result (MayMove (described_array source.now) (described_array target.now)) }
    ensures bands { IfOk result (λ list. map region_of list.items
        ≡ bands (described_array target.now).shape (described_array target.now).grid) }
    ensures fails { IfErr result (IsUnbegun (described_array source.now)
        (described_array target.now)) }
{
    if !is_same_shape(source.shape(), target.shape()) {
        return Err(RechunkErrorKind::ShapeMismatch);
    }
    if !is_same_type(source.data_type(), target.data_type()) {
        return Err(RechunkErrorKind::DataTypeMismatch);
    }
    let Ok(list) = bands_of(alloc, target.grid()) else {
        return Err(RechunkErrorKind::OutOfMemory);
    };
    if has_large(&list, target.data_type()) {
        return Err(RechunkErrorKind::BandTooLarge);
    }
    Ok(list)
}

/// Moves all elements of an array from one store into another, where another array of the same shape and data type has
/// them under its own grid, codecs and fill value.
///
/// A band is what the target's chunks with one first index cover inside the shape. Each band is read once from the
/// source, what stands under its nulls is cleared, and it is written once to the target, so one band is in memory at a
/// time.
///
/// # Errors
/// `ShapeMismatch`, `DataTypeMismatch` or `BandTooLarge`, the first that applies, before any call on a store. Else
/// `SourceChunk` or `TargetChunk` with the key of a chunk that the band meets and whose value does not decode,
/// `SourceStore` or `TargetStore` where a store failed, or `OutOfMemory`. The bands before the error's are moved.
pub fn rechunk<S: Store, T: Store>(
    alloc: Global,
    source: &OpenArray,
    target: &OpenArray,
    from: &mut S,
    to: &mut T,
    options: &CodecOptions,
) -> Result<(), RechunkError>
    // The target means what the source does, so each read of the one has the reply of the other; and each chunk of the
    // source is asked for once for each band that meets it, each of the target asked for and put once.
    ensures moved { OnOk result (HasMovedArray (described_array source.now)
        (described_array target.now) (options_of options.now) (S.shown from.old) (S.shown from.new)
        (T.shown to.old) (T.shown to.new)) }

    // However it ends, the source is as it was and had no writing call, and the other keys of the target are as they
    // were, which is honest where it was.
    ensures source { IsOnlyRead (S.shown from.old) (S.shown from.new) }
    ensures kept { S.kept from.old from.new }
    ensures left { LeavesBand (described_array target.now) (options_of options.now)
        (T.shown to.old) (T.shown to.new) }

    // An error has its cause. Before the first band nothing is touched, and over honest stores that do not fail only
    // memory can be wanting.
    ensures failed { IfErr result (HasNotMoved (documented source.now) (documented target.now)
        (options_of options.now) (S.shown from.old) (S.shown from.new) (T.shown to.old)
        (T.shown to.new)) }
    ensures unbegun { IfErr result (λ error. error.at ≡ None →
        (from.new ≡ from.old) × (to.new ≡ to.old)) }
{
    match bands_to_move(alloc, source, target) {
        Ok(list) => move_bands(alloc, source, target, &list, from, to, options),
        Err(kind) => Err(RechunkError::before_bands(kind)),
    }
}
