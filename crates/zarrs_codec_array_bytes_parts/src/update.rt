//! Elements put into array bytes.

ghost use Rattle.std.specs.Prelude.{◌≡◌, ◌+◌, ◌*◌, ◌<◌, ◌^◌, List, true, false, Some, None, length, map, IfOk, IfErr};
ghost use Rattle.std.specs.List.{AllByRecursion};
ghost use Rattle.zarr_model.specs.Region.{count, count_of, contains, place, whole, tuples};
ghost use Rattle.zarr_model.specs.Element.{Element, Kind, fixed_size};
ghost use Rattle.zarr_model.specs.ArrayBytes.{meaning};
ghost use Rattle.zarr_model.specs.Command.{has_long_element};
ghost use Rattle.zarrs_codec_slices.specs.Picking.{gathered, replaced, size_in};
ghost use Rattle.zarr_model.specs.DataTypeSize.{size_seen};
ghost use Rattle.zarrs_codec_array_bytes.specs.Raw.{raw_of};
ghost use Rattle.zarrs_codec_array_bytes.specs.Selection.{linear};
ghost use Rattle.zarrs_codec_array_bytes.specs.Rows.{outer_box, inner_box, row_element_bytes};
ghost use Rattle.zarrs_codec_array_bytes.specs.Refusals.{Answers, told, first_answer, lengths_refusal, IfUnfit, holds_fixed};
ghost use Rattle.zarrs_codec_array_bytes_parts.specs.Pairs.{update_answer, both_answer, are_alike};
ghost use Rattle.zarrs_codec_array_bytes_parts.specs.Picks.{update_picks};
ghost use Rattle.zarrs_codec_error.specs.declared.error.CodecError.TheVariants as codec;

use crate::gathering::gather_runs;
use crate::owned_array_bytes::OwnedArrayBytes;
use crate::pairs::expect_pair;
use std::alloc::Global;
use zarr_model::DataTypeSize;
use zarrs_array_subset::shape_product;
use zarrs_chunk_grid_indexer::Indexer;
use zarrs_codec_array_bytes::ArrayBytes;
use zarrs_codec_array_bytes::array_bytes::checks::{expect_fit, expect_lengths, is_fixed_inside};
use zarrs_codec_array_bytes::array_bytes::extract::linear_runs;
use zarrs_codec_array_bytes::array_bytes::rows::Rows;
use zarrs_codec_array_bytes::array_bytes::step::size_bytes;
use zarrs_codec_error::CodecError;
use zarrs_codec_slices::pick_runs::replaced_runs;

// Whether both are as long as so many elements are, the old bytes first.
#[tactic(auto, using(crate::proofs::UpdateLaws::then_first))]
fn expect_both(
    bytes: &ArrayBytes<'_>,
    count: u64,
    update_bytes: &ArrayBytes<'_>,
    given: u64,
    size: usize,
) -> Result<(), CodecError>
    ensures answer { told result
        ≡ both_answer size count (raw_of bytes.now) given (raw_of update_bytes.now) }
    ensures old { IfOk result (λ _. lengths_refusal size count (raw_of bytes.now) ≡ None) }
    ensures new { IfOk result (λ _. lengths_refusal size given (raw_of update_bytes.now) ≡ None) }
{
    match expect_lengths(bytes, count, size) {
        Ok(()) => expect_lengths(update_bytes, given, size),
        Err(error) => Err(error),
    }
}

// The elements with those at the indexer's indices replaced, run by run.
#[tactic(auto, using(crate::proofs::UpdateLaws::picks_within))]
fn update_listed<I: Indexer>(
    alloc: Global,
    bytes: &ArrayBytes<'_>,
    shape: &[u64],
    update_indexer: &I,
    update_bytes: &ArrayBytes<'_>,
    size: usize,
) -> Result<ArrayBytes<'static>, CodecError>
    requires count { count_of shape.now < 2 ^ 64 }
    requires alike { are_alike (raw_of bytes.now) (raw_of update_bytes.now) ≡ true }
    ensures answer { Answers (first_answer None (I.fits update_indexer.now shape.now)
        (both_answer size (count_of shape.now) (raw_of bytes.now)
        (length (I.places update_indexer.now)) (raw_of update_bytes.now))) result }
    ensures unfit { IfErr result (IfUnfit (I.refuses update_indexer.now shape.now)) }
    ensures value { IfOk result (λ v. raw_of v ≡ gathered size (count_of shape.now)
        (update_picks (count_of shape.now) (linear shape.now (I.places update_indexer.now)))
        (raw_of bytes.now) (raw_of update_bytes.now)) }
{
    let runs = linear_runs(alloc, update_indexer, shape)?;
    let count = shape_product(shape).unwrap();
    let Some(given) = update_indexer.checked_len() else {
        return Err(CodecError::OutOfMemory);
    };
    expect_both(bytes, count, update_bytes, given, size)?;
    let picks = replaced_runs(alloc, count, &runs)?;
    gather_runs(alloc, &picks, count, bytes, given, update_bytes, size)
}

// The elements of the array with those of a box in it replaced, in the same memory where that is owned.
#[tactic(auto, using(crate::proofs::MeansLaws::fixed_sound))]
fn replace_rows(
    alloc: Global,
    rows: &Rows,
    old: ArrayBytes<'static>,
    new: &ArrayBytes<'_>,
) -> Result<ArrayBytes<'static>, CodecError>
    requires fixed { holds_fixed (raw_of old) ≡ true }
    requires alike { are_alike (raw_of old) (raw_of new.now) ≡ true }
    requires inside { AllByRecursion (λ tuple. contains (outer_box rows.now) tuple ≡ true)
        (tuples (inner_box rows.now)) }
    requires old_long { lengths_refusal (row_element_bytes rows.now) (count (outer_box rows.now))
        (raw_of old) ≡ None }
    requires new_long { lengths_refusal (row_element_bytes rows.now) (count (inner_box rows.now))
        (raw_of new.now) ≡ None }
    ensures value { IfOk result (λ v. raw_of v
        ≡ gathered (row_element_bytes rows.now) (count (outer_box rows.now))
        (update_picks (count (outer_box rows.now))
        (map (place (outer_box rows.now)) (tuples (inner_box rows.now))))
        (raw_of old.entry) (raw_of new.now)) }
    ensures memory { IfErr result (λ e. e ≡ codec.OutOfMemory) }
{
    let mut elements = OwnedArrayBytes::owned_from(alloc, old)?;
    elements.copy_overlap(rows.outer(), new, rows.subset(), rows.element_size());
    let replaced = elements.into_array_bytes(alloc)?;
    Ok(replaced)
}

// The elements with those of the box that the indexer is replaced, run by run.
#[tactic(auto, using(zarrs_codec_array_bytes::proofs::RowLaws::in_outer, zarrs_codec_array_bytes::proofs::RowLaws::outer_lengths))]
fn update_rows<I: Indexer>(
    alloc: Global,
    bytes: ArrayBytes<'static>,
    shape: &[u64],
    update_indexer: &I,
    update_bytes: &ArrayBytes<'_>,
    rows: &Rows,
) -> Result<ArrayBytes<'static>, CodecError>
    requires count { count_of shape.now < 2 ^ 64 }
    requires alike { are_alike (raw_of bytes) (raw_of update_bytes.now) ≡ true }
    requires fixed { holds_fixed (raw_of bytes) ≡ true }
    requires places { I.places update_indexer.now ≡ tuples (inner_box rows.now) }
    requires outer { outer_box rows.now ≡ whole shape.now }
    ensures answer { Answers (first_answer None (I.fits update_indexer.now shape.now)
        (both_answer (row_element_bytes rows.now) (count_of shape.now) (raw_of bytes.entry)
        (length (I.places update_indexer.now)) (raw_of update_bytes.now))) result }
    ensures unfit { IfErr result (IfUnfit (I.refuses update_indexer.now shape.now)) }
    ensures value { IfOk result (λ v. raw_of v
        ≡ gathered (row_element_bytes rows.now) (count_of shape.now)
        (update_picks (count_of shape.now) (linear shape.now (I.places update_indexer.now)))
        (raw_of bytes.entry) (raw_of update_bytes.now)) }
{
    expect_fit(alloc, update_indexer, shape)?;
    let count = shape_product(shape).unwrap();
    let given = count_places(update_indexer, rows);
    expect_both(&bytes, count, update_bytes, given, rows.element_size())?;
    replace_rows(alloc, rows, bytes, update_bytes)
}

// The number of an indexer's places that are those of a box.
#[tactic(auto, using(zarrs_codec_array_bytes::proofs::RowLaws::place_count))]
fn count_places<I: Indexer>(indexer: &I, rows: &Rows) -> u64
    requires { I.places indexer.now ≡ tuples (inner_box rows.now) }
    ensures places { result ≡ length (I.places indexer.now) }
    ensures elements { result ≡ count (inner_box rows.now) }
{
    rows.num_elements()
}

// The updated elements, run by run.
fn update_any<I: Indexer>(
    alloc: Global,
    bytes: ArrayBytes<'static>,
    shape: &[u64],
    update_indexer: &I,
    update_bytes: &ArrayBytes<'_>,
    size: usize,
) -> Result<ArrayBytes<'static>, CodecError>
    requires count { count_of shape.now < 2 ^ 64 }
    requires alike { are_alike (raw_of bytes) (raw_of update_bytes.now) ≡ true }
    ensures answer { Answers (first_answer None (I.fits update_indexer.now shape.now)
        (both_answer size (count_of shape.now) (raw_of bytes.entry)
        (length (I.places update_indexer.now)) (raw_of update_bytes.now))) result }
    ensures unfit { IfErr result (IfUnfit (I.refuses update_indexer.now shape.now)) }
    ensures value { IfOk result (λ v. raw_of v ≡ gathered size (count_of shape.now)
        (update_picks (count_of shape.now) (linear shape.now (I.places update_indexer.now)))
        (raw_of bytes.entry) (raw_of update_bytes.now)) }
{
    if is_fixed_inside(&bytes) {
        if let Some(rows) = Rows::of_indexer(alloc, update_indexer, shape, size)? {
            return update_rows(alloc, bytes, shape, update_indexer, update_bytes, &rows);
        }
    }
    update_listed(alloc, &bytes, shape, update_indexer, update_bytes, size)
}

// The same, once the kinds of both are tested.
#[tactic(auto, using(crate::proofs::UpdateLaws::pair_alike))]
fn update_by<I: Indexer>(
    alloc: Global,
    bytes: ArrayBytes<'static>,
    shape: &[u64],
    update_indexer: &I,
    update_bytes: &ArrayBytes<'_>,
    data_type_size: DataTypeSize,
) -> Result<ArrayBytes<'static>, CodecError>
    requires { count_of shape.now < 2 ^ 64 }
    ensures answer { Answers (update_answer (size_seen data_type_size)
        (I.fits update_indexer.now shape.now) (count_of shape.now) (raw_of bytes.entry)
        (length (I.places update_indexer.now)) (raw_of update_bytes.now)) result }
    ensures unfit { IfErr result (IfUnfit (I.refuses update_indexer.now shape.now)) }
    ensures value { IfOk result (λ v. raw_of v
        ≡ gathered (size_in (size_seen data_type_size)) (count_of shape.now)
        (update_picks (count_of shape.now) (linear shape.now (I.places update_indexer.now)))
        (raw_of bytes.entry) (raw_of update_bytes.now)) }
{
    match expect_pair(data_type_size, &bytes, update_bytes) {
        Ok(()) => {
            let size = size_bytes(data_type_size);
            update_any(alloc, bytes, shape, update_indexer, update_bytes, size)
        }
        Err(error) => Err(error),
    }
}

// The same of borrowed elements, of which a copy is updated where that is done in its memory.
#[tactic(auto, using(crate::proofs::UpdateLaws::pair_alike))]
fn update_copied<I: Indexer>(
    alloc: Global,
    bytes: &ArrayBytes<'_>,
    shape: &[u64],
    update_indexer: &I,
    update_bytes: &ArrayBytes<'_>,
    data_type_size: DataTypeSize,
) -> Result<ArrayBytes<'static>, CodecError>
    requires { count_of shape.now < 2 ^ 64 }
    ensures answer { Answers (update_answer (size_seen data_type_size)
        (I.fits update_indexer.now shape.now) (count_of shape.now) (raw_of bytes.now)
        (length (I.places update_indexer.now)) (raw_of update_bytes.now)) result }
    ensures unfit { IfErr result (IfUnfit (I.refuses update_indexer.now shape.now)) }
    ensures value { IfOk result (λ v. raw_of v
        ≡ gathered (size_in (size_seen data_type_size)) (count_of shape.now)
        (update_picks (count_of shape.now) (linear shape.now (I.places update_indexer.now)))
        (raw_of bytes.now) (raw_of update_bytes.now)) }
{
    if is_fixed_inside(bytes) {
        let copy = bytes.try_clone(alloc)?;
        return update_by(
            alloc,
            copy,
            shape,
            update_indexer,
            update_bytes,
            data_type_size,
        );
    }
    match expect_pair(data_type_size, bytes, update_bytes) {
        Ok(()) => {
            let size = size_bytes(data_type_size);
            update_listed(alloc, bytes, shape, update_indexer, update_bytes, size)
        }
        Err(error) => Err(error),
    }
}

/// The old elements with those at the indexer's indices replaced in order, so that the last one wins.
/// The old ones are left as they are.
///
/// # Errors
/// [`CodecError`] where both are not of one kind with elements of this size, else where the indexer does not fit
/// the shape, else where the old bytes, a mask or the offsets have another length than the shape's elements have,
/// else where those of the update have another length than the indexer's elements have.
pub fn update_array_bytes<I: Indexer>(
    alloc: Global,
    bytes: &ArrayBytes<'_>,
    shape: &[u64],
    update_indexer: &I,
    update_bytes: &ArrayBytes<'_>,
    data_type_size: DataTypeSize,
) -> Result<ArrayBytes<'static>, CodecError>
    requires count { count_of shape.now + 1 < 2 ^ 64 }
    requires bytes { count_of shape.now * size_in (size_seen data_type_size) < 2 ^ 64 }
    ensures answer { Answers (update_answer (size_seen data_type_size)
        (I.fits update_indexer.now shape.now) (count_of shape.now) (raw_of bytes.now)
        (length (I.places update_indexer.now)) (raw_of update_bytes.now)) result }
    ensures unfit { IfErr result (IfUnfit (I.refuses update_indexer.now shape.now)) }
    ensures value { IfOk result (λ v. raw_of v
        ≡ gathered (size_in (size_seen data_type_size)) (count_of shape.now)
        (update_picks (count_of shape.now) (linear shape.now (I.places update_indexer.now)))
        (raw_of bytes.now) (raw_of update_bytes.now)) }
    ensures updated { (kind : Kind) (xs ys : List Element)
        → fixed_size kind ≡ size_seen data_type_size
        → meaning kind (count_of shape.now) (raw_of bytes.now) ≡ Some xs
        → meaning kind (length (I.places update_indexer.now)) (raw_of update_bytes.now) ≡ Some ys
        → IfOk result (λ v. meaning kind (count_of shape.now) (raw_of v)
        ≡ Some (replaced (linear shape.now (I.places update_indexer.now)) ys xs)) }
    ensures short { has_long_element (raw_of bytes.now) ≡ false
        → has_long_element (raw_of update_bytes.now) ≡ false
        → IfOk result (λ v. has_long_element (raw_of v) ≡ false) }
{
    update_copied(
        alloc,
        bytes,
        shape,
        update_indexer,
        update_bytes,
        data_type_size,
    )
}

/// The same of elements that are given away: where the indexer is a box and elements have one size, they are replaced
/// in the memory of the old ones, if that is owned.
///
/// # Errors
/// Those of [`update_array_bytes`]; then the old elements are lost.
pub fn update_owned_array_bytes<I: Indexer>(
    alloc: Global,
    bytes: ArrayBytes<'static>,
    shape: &[u64],
    update_indexer: &I,
    update_bytes: &ArrayBytes<'_>,
    data_type_size: DataTypeSize,
) -> Result<ArrayBytes<'static>, CodecError>
    requires count { count_of shape.now + 1 < 2 ^ 64 }
    requires bytes { count_of shape.now * size_in (size_seen data_type_size) < 2 ^ 64 }
    ensures answer { Answers (update_answer (size_seen data_type_size)
        (I.fits update_indexer.now shape.now) (count_of shape.now) (raw_of bytes.entry)
        (length (I.places update_indexer.now)) (raw_of update_bytes.now)) result }
    ensures updated { (kind : Kind) (xs ys : List Element)
        → fixed_size kind ≡ size_seen data_type_size
        → meaning kind (count_of shape.now) (raw_of bytes.entry) ≡ Some xs
        → meaning kind (length (I.places update_indexer.now)) (raw_of update_bytes.now) ≡ Some ys
        → IfOk result (λ v. meaning kind (count_of shape.now) (raw_of v)
        ≡ Some (replaced (linear shape.now (I.places update_indexer.now)) ys xs)) }
    ensures short { has_long_element (raw_of bytes.entry) ≡ false
        → has_long_element (raw_of update_bytes.now) ≡ false
        → IfOk result (λ v. has_long_element (raw_of v) ≡ false) }
{
    update_by(
        alloc,
        bytes,
        shape,
        update_indexer,
        update_bytes,
        data_type_size,
    )
}
