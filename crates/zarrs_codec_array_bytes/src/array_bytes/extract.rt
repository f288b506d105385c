//! Elements taken out of array bytes.

ghost use Rattle.std.specs.Prelude.{◌≡◌, ◌+◌, ◌*◌, ◌<◌, ◌^◌, List, true, false, Some, None, length, IfOk, IfErr};
ghost use Rattle.zarr_model.specs.Region.{count_of, whole, tuples};
ghost use Rattle.zarr_model.specs.Element.{Element, null};
ghost use Rattle.zarr_model.specs.ArrayBytes.{meaning};
ghost use Rattle.zarr_model.specs.Command.{has_long_element};
ghost use Rattle.zarrs_codec_slices.specs.Picking.{AllBelow, gathered, picked};
ghost use Rattle.zarrs_codec_slices.specs.PickedRuns.{run_numbers, AreRunsBelow};
ghost use Rattle.zarrs_codec_array_bytes.specs.Steps.{kind_seen, bytes_seen};
ghost use Rattle.zarrs_codec_array_bytes.specs.Raw.{raw_of};
ghost use Rattle.zarrs_codec_array_bytes.specs.Selection.{linear};
ghost use Rattle.zarrs_codec_array_bytes.specs.Rows.{outer_box, inner_box, row_element_bytes};
ghost use Rattle.zarrs_codec_array_bytes.specs.Refusals.{Answers, fine, first_answer, extract_answer, lengths_answer, IfUnfit, holds_fixed};

use super::ArrayBytes;
use super::checks::{expect_fit, expect_kind, expect_lengths, is_fixed_inside};
use super::gather::select_runs;
use super::rows::Rows;
use super::step::element_size;
use std::alloc::Global;
use zarrs_array_subset::shape_product;
use zarrs_chunk_grid_indexer::{
    Indexer, append_contiguous_linearised_indices, append_linearised_indices,
};
use zarrs_codec_error::CodecError;
use zarrs_data_type::DataType;

/// The linear indices of an indexer in a shape.
///
/// # Errors
/// [`CodecError`] that holds the indexer's own refusal, or where memory runs out.
pub fn linear_indices<I: Indexer>(
    alloc: Global,
    indexer: &I,
    shape: &[u64],
) -> Result<Vec<u64>, CodecError>
    requires { count_of shape.now < 2 ^ 64 }
    ensures value { IfOk result (λ v. v.items ≡ linear shape.now (I.places indexer.now)) }
    ensures within { IfOk result (λ v. AllBelow (count_of shape.now) v.items) }
    ensures answer { Answers (first_answer None (I.fits indexer.now shape.now) fine) result }
    ensures unfit { IfErr result (IfUnfit (I.refuses indexer.now shape.now)) }
{
    let mut indices = Vec::new(alloc);
    match append_linearised_indices(&mut indices, alloc, indexer, shape) {
        Ok(()) => Ok(indices),
        Err(error) => Err(CodecError::from(error)),
    }
}

/// The runs of linear indices of an indexer in a shape, each as its start and its length.
///
/// # Errors
/// [`CodecError`] that holds the indexer's own refusal, or where memory runs out.
pub fn linear_runs<I: Indexer>(
    alloc: Global,
    indexer: &I,
    shape: &[u64],
) -> Result<Vec<(u64, u64)>, CodecError>
    requires { count_of shape.now < 2 ^ 64 }
    ensures value { IfOk result
        (λ v. run_numbers v.items ≡ linear shape.now (I.places indexer.now)) }
    ensures within { IfOk result (λ v. AreRunsBelow (count_of shape.now) v.items) }
    ensures answer { Answers (first_answer None (I.fits indexer.now shape.now) fine) result }
    ensures unfit { IfErr result (IfUnfit (I.refuses indexer.now shape.now)) }
{
    let mut runs = Vec::new(alloc);
    match append_contiguous_linearised_indices(&mut runs, alloc, indexer, shape) {
        Ok(()) => Ok(runs),
        Err(error) => Err(CodecError::from(error)),
    }
}

// The elements at the indexer's indices, run by run.
fn extract_listed<I: Indexer>(
    alloc: Global,
    bytes: &ArrayBytes<'_>,
    indexer: &I,
    shape: &[u64],
    size: usize,
) -> Result<ArrayBytes<'static>, CodecError>
    requires { count_of shape.now < 2 ^ 64 }
    ensures answer { Answers (first_answer None (I.fits indexer.now shape.now)
        (lengths_answer size (count_of shape.now) (raw_of bytes.now))) result }
    ensures unfit { IfErr result (IfUnfit (I.refuses indexer.now shape.now)) }
    ensures value { IfOk result (λ v. raw_of v ≡ gathered size (count_of shape.now)
        (linear shape.now (I.places indexer.now)) (raw_of bytes.now) (raw_of bytes.now)) }
{
    let runs = linear_runs(alloc, indexer, shape)?;
    let count = shape_product(shape).unwrap();
    expect_lengths(bytes, count, size)?;
    select_runs(alloc, &runs, count, bytes, size)
}

// The elements of the box that the indexer is, run by run.
#[tactic(auto, using(crate::proofs::RowLaws::in_outer, crate::proofs::RowLaws::outer_lengths))]
fn extract_rows<I: Indexer>(
    alloc: Global,
    bytes: &ArrayBytes<'_>,
    indexer: &I,
    shape: &[u64],
    rows: &Rows,
) -> Result<ArrayBytes<'static>, CodecError>
    requires count { count_of shape.now < 2 ^ 64 }
    requires fixed { holds_fixed (raw_of bytes.now) ≡ true }
    requires places { I.places indexer.now ≡ tuples (inner_box rows.now) }
    requires outer { outer_box rows.now ≡ whole shape.now }
    ensures answer { Answers (first_answer None (I.fits indexer.now shape.now)
        (lengths_answer (row_element_bytes rows.now) (count_of shape.now) (raw_of bytes.now))) result }
    ensures unfit { IfErr result (IfUnfit (I.refuses indexer.now shape.now)) }
    ensures value { IfOk result (λ v. raw_of v
        ≡ gathered (row_element_bytes rows.now) (count_of shape.now)
        (linear shape.now (I.places indexer.now)) (raw_of bytes.now) (raw_of bytes.now)) }
{
    expect_fit(alloc, indexer, shape)?;
    let count = shape_product(shape).unwrap();
    expect_lengths(bytes, count, rows.element_size())?;
    rows.select(alloc, bytes)
}

// The elements at the indexer's indices, run by run.
fn extract_any<I: Indexer>(
    alloc: Global,
    bytes: &ArrayBytes<'_>,
    indexer: &I,
    shape: &[u64],
    size: usize,
) -> Result<ArrayBytes<'static>, CodecError>
    requires { count_of shape.now < 2 ^ 64 }
    ensures answer { Answers (first_answer None (I.fits indexer.now shape.now)
        (lengths_answer size (count_of shape.now) (raw_of bytes.now))) result }
    ensures unfit { IfErr result (IfUnfit (I.refuses indexer.now shape.now)) }
    ensures value { IfOk result (λ v. raw_of v ≡ gathered size (count_of shape.now)
        (linear shape.now (I.places indexer.now)) (raw_of bytes.now) (raw_of bytes.now)) }
{
    if is_fixed_inside(bytes) {
        if let Some(rows) = Rows::of_indexer(alloc, indexer, shape, size)? {
            return extract_rows(alloc, bytes, indexer, shape, &rows);
        }
    }
    extract_listed(alloc, bytes, indexer, shape, size)
}

// The same, once the kind of the bytes is tested.
fn extract_by<I: Indexer>(
    alloc: Global,
    bytes: &ArrayBytes<'_>,
    indexer: &I,
    shape: &[u64],
    data_type: &DataType,
) -> Result<ArrayBytes<'static>, CodecError>
    requires { count_of shape.now < 2 ^ 64 }
    ensures answer { Answers (extract_answer (kind_seen data_type.now)
        (I.fits indexer.now shape.now) (count_of shape.now) (raw_of bytes.now)) result }
    ensures unfit { IfErr result (IfUnfit (I.refuses indexer.now shape.now)) }
    ensures value { IfOk result (λ v. raw_of v
        ≡ gathered (bytes_seen data_type.now) (count_of shape.now)
        (linear shape.now (I.places indexer.now)) (raw_of bytes.now) (raw_of bytes.now)) }
{
    match expect_kind(bytes, data_type) {
        Ok(()) => extract_any(alloc, bytes, indexer, shape, element_size(data_type)),
        Err(error) => Err(error),
    }
}

impl<'a> ArrayBytes<'a> {
    /// The elements at the indexer's indices, in their order.
    ///
    /// # Errors
    /// [`CodecError`] where the bytes are of another kind than the data type's elements, else where the indexer
    /// does not fit the shape, else where the bytes, a mask or the offsets have another length than the shape's
    /// elements have.
    pub fn extract_array_subset<I: Indexer>(
        &self,
        alloc: Global,
        indexer: &I,
        array_shape: &[u64],
        data_type: &DataType,
    ) -> Result<ArrayBytes<'static>, CodecError>
        requires count { count_of array_shape.now + 1 < 2 ^ 64 }
        requires bytes { count_of array_shape.now * bytes_seen data_type.now < 2 ^ 64 }
        ensures answer { Answers (extract_answer (kind_seen data_type.now)
            (I.fits indexer.now array_shape.now) (count_of array_shape.now)
            (raw_of self.now)) result }
        ensures unfit { IfErr result (IfUnfit (I.refuses indexer.now array_shape.now)) }
        ensures value { IfOk result (λ v. raw_of v
            ≡ gathered (bytes_seen data_type.now) (count_of array_shape.now)
            (linear array_shape.now (I.places indexer.now))
            (raw_of self.now) (raw_of self.now)) }
        ensures selected { (xs : List Element)
            → meaning (kind_seen data_type.now) (count_of array_shape.now) (raw_of self.now)
            ≡ Some xs → IfOk result (λ v.
            meaning (kind_seen data_type.now) (length (I.places indexer.now)) (raw_of v)
            ≡ Some (picked null (linear array_shape.now (I.places indexer.now)) xs)) }
        ensures short { has_long_element (raw_of self.now) ≡ false
            → IfOk result (λ v. has_long_element (raw_of v) ≡ false) }
    {
        extract_by(alloc, self, indexer, array_shape, data_type)
    }
}
