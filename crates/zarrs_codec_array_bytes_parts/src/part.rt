//! A box of an array, and where its elements lie in the array's bytes.

ghost use Rattle.std.specs.Prelude.{◌≡◌, ◌<◌, ◌*◌, ◌^◌, ◌==◌, true, length, is_ok, IfOk, IfErr};
ghost use Rattle.std.specs.Option.{SomeIff};
ghost use Rattle.zarr_model.specs.Region.{count, count_of, whole, ends_within, sizes};
ghost use Rattle.zarr_model.specs.Prelude.{of_bytes};
ghost use Rattle.zarrs_array_subset.specs.ArraySubset.{region};
ghost use Rattle.zarrs_chunk_grid_iterators.specs.Runs.{run_size};
ghost use Rattle.zarrs_codec_slices.specs.Elements.{fixed_elements};
ghost use Rattle.zarrs_codec_slices.specs.Filled.{Filled};
ghost use Rattle.zarrs_codec_slices.specs.Overlap.{Copied};
ghost use Rattle.zarrs_codec_array_bytes_parts.specs.Answers.{AnswersView, create_answer, view_length_answer, view_part_answer};

use std::alloc::Global;
use zarrs_array_subset::{ArraySubset, shape_product};
use zarrs_chunk_grid_iterators::run_size;
use zarrs_codec_error::{
    ArrayBytesFixedDisjointViewCreateError, InvalidBytesLengthError, SubsetOutOfBoundsError,
};
use zarrs_codec_slices::fill_box::fill_elements;
use zarrs_codec_slices::overlap::copy_elements;

/// A box of an array of elements of one size, with what it needs to be written without memory.
#[derive(Drop)]
pub struct ViewPart {
    pub size: usize,
    pub array: ArraySubset,
    pub subset: ArraySubset,
    pub num_contiguous: usize,
    pub contiguous_len: usize,
    pub array_len: usize,
    pub len: usize,
    ghost some: { 0 < size },
    ghost is_whole: { region array ≡ whole (sizes (region array)) },
    ghost inside: { ends_within (region subset) (sizes (region array)) ≡ true },
    ghost contiguous: { num_contiguous ≡ run_size (sizes (region array)) (region subset) },
    ghost contiguous_long: { contiguous_len ≡ num_contiguous * size },
    ghost array_long: { array_len ≡ count (region array) * size },
    ghost long: { len ≡ count (region subset) * size },
}

// The bytes of a shape, if they fit.
fn byte_count(shape: &[u64], size: usize) -> Option<usize>
    requires some { 0 < size }
    ensures { SomeIff result (count_of shape.now * size < 2 ^ 64) (count_of shape.now * size) }
{
    match shape_product(shape) {
        Some(count) => (count as usize).checked_mul(size),
        None => None,
    }
}

// The bytes of a box in a shape whose bytes fit.
fn part_bytes(subset: &ArraySubset, shape: &[u64], size: usize, array_len: usize) -> usize
    requires some { 0 < size }
    requires inside { ends_within (region subset.now) shape.now ≡ true }
    requires long { array_len ≡ count_of shape.now * size }
    ensures { result ≡ count (region subset.now) * size }
{
    subset.num_elements_usize() * size
}

// How many neighbouring elements of a box lie one after another in its array.
#[tactic(auto, using(zarr_model::proofs::RegionLaws::rank_within, zarr_model::proofs::RegionLaws::count_within))]
fn contiguous_elements(subset: &ArraySubset, shape: &[u64]) -> usize
    requires small { count_of shape.now < 2 ^ 64 }
    requires inside { ends_within (region subset.now) shape.now ≡ true }
    ensures { result ≡ run_size shape.now (region subset.now) }
{
    run_size(subset, shape) as usize
}

// A box in an array of so many bytes.
fn part_in(array_len: usize, size: usize, array: ArraySubset, subset: ArraySubset) -> ViewPart
    requires some { 0 < size }
    requires is_whole { region array ≡ whole (sizes (region array)) }
    requires inside { ends_within (region subset) (sizes (region array)) ≡ true }
    requires long { array_len ≡ count (region array) * size }
    ensures { (result.size ≡ size) × (region result.array ≡ region array)
        × (region result.subset ≡ region subset) × (result.array_len ≡ array_len) }
{
    let shape = array.shape();
    let len = part_bytes(&subset, shape, size, array_len);
    let num_contiguous = contiguous_elements(&subset, shape);
    let contiguous_len = num_contiguous * size;
    ViewPart {
        size,
        array,
        subset,
        num_contiguous,
        contiguous_len,
        array_len,
        len,
    }
}

// The box if it is within the other one.
fn tested(
    alloc: Global,
    subset: ArraySubset,
    within: &ArraySubset,
) -> Result<ArraySubset, ArrayBytesFixedDisjointViewCreateError>
    ensures exact { AnswersView (view_part_answer (region subset) (region within.now)) result }
    ensures same { IfOk result (λ s. region s ≡ region subset) }
{
    if subset.inbounds(within) {
        return Ok(subset);
    }
    let must_be_within = within.try_clone(alloc)?;
    Err(ArrayBytesFixedDisjointViewCreateError::SubsetOutOfBounds(SubsetOutOfBoundsError::new(
        subset,
        must_be_within,
    )))
}

// Tells another length than that of all elements of a shape; a length past `usize` is told as the greatest.
fn test_len(
    len: usize,
    size: usize,
    shape: &[u64],
) -> Result<(), ArrayBytesFixedDisjointViewCreateError>
    requires some { 0 < size }
    ensures { AnswersView (view_length_answer (count_of shape.now) size len) result }
{
    let expected_len = byte_count(shape, size);
    if expected_len == Some(len) {
        return Ok(());
    }
    let expected_len = expected_len.unwrap_or(usize::MAX);
    Err(ArrayBytesFixedDisjointViewCreateError::InvalidBytesLength(InvalidBytesLengthError::new(
        len,
        expected_len,
    )))
}

/// A box of an array of this shape, whose elements have `size` bytes each and all together `array_len`.
///
/// # Errors
/// [`ArrayBytesFixedDisjointViewCreateError`] first where the box does not lie in the shape, then where the elements of
/// the shape have another number of bytes; or memory runs out.
#[tactic(auto, using(zarr_model::proofs::RegionLaws::sizes_whole, crate::proofs::ViewLaws::within_whole))]
pub fn part_of(
    alloc: Global,
    array_len: usize,
    size: usize,
    shape: &[u64],
    subset: ArraySubset,
) -> Result<ViewPart, ArrayBytesFixedDisjointViewCreateError>
    requires some { 0 < size }
    ensures exact { AnswersView (create_answer (region subset) shape.now size array_len) result }
    ensures part { IfOk result (λ p. (p.size ≡ size) × (region p.array ≡ whole shape.now)
        × (region p.subset ≡ region subset) × (p.array_len ≡ array_len)) }
{
    let array = ArraySubset::new_with_shape(alloc, shape.to_vec(alloc)?)?;
    let subset = tested(alloc, subset, &array)?;
    test_len(array_len, size, shape)?;
    Ok(part_in(array_len, size, array, subset))
}

/// A box within the box.
///
/// # Errors
/// [`ArrayBytesFixedDisjointViewCreateError`] where it does not lie there, or memory runs out.
#[tactic(auto, using(crate::proofs::ViewLaws::within_ends))]
pub fn inner_part(
    alloc: Global,
    part: &ViewPart,
    subset: ArraySubset,
) -> Result<ViewPart, ArrayBytesFixedDisjointViewCreateError>
    ensures exact { AnswersView (view_part_answer (region subset) (region part.now.subset)) result }
    ensures part { IfOk result (λ p. (p.size ≡ part.now.size)
        × (region p.array ≡ region part.now.array) × (region p.subset ≡ region subset)
        × (p.array_len ≡ part.now.array_len)) }
{
    let subset = tested(alloc, subset, &part.subset)?;
    let array = part.array.try_clone(alloc)?;
    Ok(part_in(part.array_len, part.size, array, subset))
}

// Tells another length than the expected one.
pub(crate) fn expect_len(len: usize, expected_len: usize) -> Result<(), InvalidBytesLengthError>
    ensures exact { is_ok result ≡ (len == expected_len) }
    ensures told { IfErr result
        (λ e. e ≡ record { len = len; expected_len = expected_len }) }
{
    if len == expected_len {
        Ok(())
    } else {
        Err(InvalidBytesLengthError::new(len, expected_len))
    }
}

/// Writes the elements of the box into the array's bytes.
///
/// # Errors
/// [`InvalidBytesLengthError`] where they are not as many; nothing is written then.
#[tactic(auto, using(crate::proofs::ViewLaws::part_rank))]
pub fn write_into(
    bytes: &mut [u8],
    part: &ViewPart,
    subset_bytes: &[u8],
) -> Result<(), InvalidBytesLengthError>
    ensures exact { length bytes.old ≡ part.now.array_len → is_ok result
        ≡ (length subset_bytes.now == count (region part.now.subset) * part.now.size) }
    ensures told { length bytes.old ≡ part.now.array_len → IfErr result (λ e. e ≡ record {
      len = length subset_bytes.now;
      expected_len = count (region part.now.subset) * part.now.size;
    }) }
    ensures long { length bytes.new ≡ length bytes.old }
    ensures written { IfOk result
        (λ _. Copied (whole (sizes (region part.now.array))) (region part.now.subset)
        (fixed_elements part.now.size subset_bytes.now) (fixed_elements part.now.size bytes.old)
        (fixed_elements part.now.size bytes.new)) }
    ensures kept { IfErr result (λ _. bytes.new ≡ bytes.old) }
{
    expect_len(bytes.len(), part.array_len)?;
    expect_len(subset_bytes.len(), part.len)?;
    copy_elements(bytes, &part.array, subset_bytes, &part.subset, part.size);
    Ok(())
}

/// Fills the box in the array's bytes.
///
/// # Errors
/// [`InvalidBytesLengthError`] where the fill value has not as many bytes as an element; nothing is written then.
#[tactic(auto, using(crate::proofs::ViewLaws::part_within))]
pub fn fill_into(
    bytes: &mut [u8],
    part: &ViewPart,
    fill_value: &[u8],
) -> Result<(), InvalidBytesLengthError>
    ensures exact { length bytes.old ≡ part.now.array_len →
        is_ok result ≡ (length fill_value.now == part.now.size) }
    ensures told { length bytes.old ≡ part.now.array_len → IfErr result (λ e. e ≡ record {
      len = length fill_value.now;
      expected_len = part.now.size;
    }) }
    ensures long { length bytes.new ≡ length bytes.old }
    ensures filled { IfOk result
        (λ _. Filled (whole (sizes (region part.now.array))) (region part.now.subset)
        (of_bytes fill_value.now) (fixed_elements part.now.size bytes.old)
        (fixed_elements part.now.size bytes.new)) }
    ensures kept { IfErr result (λ _. bytes.new ≡ bytes.old) }
{
    expect_len(bytes.len(), part.array_len)?;
    expect_len(fill_value.len(), part.size)?;
    fill_elements(bytes, &part.array, &part.subset, fill_value);
    Ok(())
}

/// How many elements the box has.
#[tactic(auto, using(crate::proofs::ViewLaws::factor_fits))]
pub fn elements_in(part: &ViewPart) -> u64
    ensures { result ≡ count (region part.now.subset) }
{
    let _len = part.len;
    part.subset.num_elements()
}
