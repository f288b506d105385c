//! A view of a box of an array's bytes.

ghost use Rattle.std.specs.Prelude.{◌≡◌, ◌<◌, ◌*◌, ◌==◌, ◌&&◌, if◌then◌else◌, length, is_ok, IfOk, IfErr};
ghost use Rattle.zarr_model.specs.Region.{count, whole, sizes};
ghost use Rattle.zarr_model.specs.Prelude.{of_bytes};
ghost use Rattle.zarrs_array_subset.specs.ArraySubset.{region};
ghost use Rattle.zarrs_chunk_grid_iterators.specs.Runs.{run_size};
ghost use Rattle.zarrs_codec_slices.specs.Elements.{fixed_elements};
ghost use Rattle.zarrs_codec_slices.specs.Filled.{Filled};
ghost use Rattle.zarrs_codec_slices.specs.Overlap.{Copied};
ghost use Rattle.zarrs_codec_array_bytes_parts.specs.Answers.{AnswersView, create_answer, view_part_answer, write_answer};

use crate::part::{ViewPart, elements_in, expect_len, fill_into, inner_part, part_of, write_into};
use std::alloc::Global;
use zarrs_array_subset::ArraySubset;
use zarrs_codec_error::{ArrayBytesFixedDisjointViewCreateError, InvalidBytesLengthError};

/// A box of the bytes of an array whose elements have one size.
///
/// The bytes are those of the whole array, in row-major order. Through a view the elements of its box
/// are written, and no others.
#[derive(Drop)]
pub struct ArrayBytesFixedDisjointView<'a> {
    bytes: &'a mut [u8],
    part: ViewPart,
}

impl<'a> ArrayBytesFixedDisjointView<'a> {
    // The view of a box of bytes; they are as many as the box's array has.
    fn from_parts(bytes: &'a mut [u8], part: ViewPart) -> Self
        ensures same_reference { result.bytes.ghost_name ≡ bytes.entry.ghost_name }
        ensures value { result.bytes.now ≡ bytes.old }
        ensures part { result.part ≡ part }
    {
        ArrayBytesFixedDisjointView { bytes, part }
    }

    /// The view of a subset of an array's bytes.
    ///
    /// The array has this shape, and each element `data_type_size` bytes, at least 1.
    ///
    /// # Errors
    /// [`ArrayBytesFixedDisjointViewCreateError`] where the subset has another rank than the shape or ends
    /// past it; else where there are more or fewer bytes than the array has, which names both numbers, or the
    /// greatest `usize` for one past it; or where there is not enough memory.
    pub fn new(
        alloc: Global,
        bytes: &'a mut [u8],
        data_type_size: usize,
        shape: &'a [u64],
        subset: ArraySubset,
    ) -> Result<Self, ArrayBytesFixedDisjointViewCreateError>
        requires some { 0 < data_type_size }
        ensures exact { AnswersView
            (create_answer (region subset) shape.now data_type_size (length bytes.old)) result }
        ensures bytes { IfOk result (λ v. (v.bytes.ghost_name ≡ bytes.entry.ghost_name)
            × (v.bytes.now ≡ bytes.old) × (length v.bytes.now ≡ v.part.array_len)) }
        ensures view { IfOk result (λ v. (v.part.size ≡ data_type_size)
            × (region v.part.array ≡ whole shape.now) × (region v.part.subset ≡ region subset)) }
    {
        let part = part_of(alloc, bytes.len(), data_type_size, shape, subset)?;
        Ok(Self::from_parts(bytes, part))
    }

    /// A view of a smaller subset of the same bytes.
    ///
    /// What is written through it is written into this view's bytes. To write a smaller box and go on with this
    /// view, call `copy_subset_from_slice` or `fill_subset`.
    ///
    /// # Errors
    /// [`ArrayBytesFixedDisjointViewCreateError`] where the subset is not within the view's own, or where
    /// there is not enough memory.
    pub fn subdivide<'b>(
        &'b mut self,
        alloc: Global,
        subset: ArraySubset,
    ) -> Result<ArrayBytesFixedDisjointView<'b>, ArrayBytesFixedDisjointViewCreateError>
        ensures exact { AnswersView (view_part_answer (region subset) (region self.old.part.subset)) result }
        ensures bytes { IfOk result (λ v. (v.bytes.now ≡ self.old.bytes.now)
            × (v.part.array_len ≡ self.old.part.array_len)) }
        ensures view { IfOk result (λ v. (v.part.size ≡ self.old.part.size)
            × (region v.part.array ≡ region self.old.part.array)
            × (region v.part.subset ≡ region subset)) }
    {
        let part = inner_part(alloc, &self.part, subset)?;
        Ok(ArrayBytesFixedDisjointView::from_parts(&mut *self.bytes, part))
    }

    /// The shape of the whole array.
    pub fn shape(&self) -> &[u64]
        ensures { result.now ≡ sizes (region self.now.part.array) }
    {
        self.part.array.shape()
    }

    /// The box of the array that the view is of.
    pub fn subset(&self) -> &ArraySubset
        ensures { result.now ≡ self.now.part.subset }
    {
        &self.part.subset
    }

    /// How many elements the view's box has.
    pub fn num_elements(&self) -> u64
        ensures { result ≡ count (region self.now.part.subset) }
    {
        elements_in(&self.part)
    }

    /// How many elements of the box lie one after another at a time, and 0 where it has none.
    pub fn num_contiguous_elements(&self) -> usize
        ensures { result
            ≡ run_size (sizes (region self.now.part.array)) (region self.now.part.subset) }
    {
        self.part.num_contiguous
    }

    /// How many bytes these are.
    pub fn contiguous_bytes_len(&self) -> usize
        ensures { result
            ≡ run_size (sizes (region self.now.part.array)) (region self.now.part.subset)
            * self.now.part.size }
    {
        self.part.contiguous_len
    }

    // Tells another length than that of the box's elements.
    pub(crate) fn expect_len(&self, len: usize) -> Result<(), InvalidBytesLengthError>
        ensures exact { is_ok result ≡ (length self.now.bytes.now == self.now.part.array_len
            && len == count (region self.now.part.subset) * self.now.part.size) }
        ensures told { IfErr result
            (λ e. e ≡ (if length self.now.bytes.now == self.now.part.array_len then record {
              len = len;
              expected_len = count (region self.now.part.subset) * self.now.part.size;
            } else record {
              len = length self.now.bytes.now;
              expected_len = self.now.part.array_len;
            })) }
    {
        expect_len(self.bytes.len(), self.part.array_len)?;
        expect_len(len, self.part.len)?;
        Ok(())
    }

    /// Makes each element of the view's box the fill value.
    ///
    /// # Errors
    /// [`InvalidBytesLengthError`] where the fill value has another size than an element; nothing is
    /// written then.
    pub fn fill(&mut self, fill_value: &[u8]) -> Result<(), InvalidBytesLengthError>
        ensures same_reference { self.new.bytes.ghost_name ≡ self.old.bytes.ghost_name }
        ensures part { self.new.part ≡ self.old.part }
        ensures exact { length self.old.bytes.now ≡ self.old.part.array_len →
            is_ok result ≡ (length fill_value.now == self.old.part.size) }
        ensures told { length self.old.bytes.now ≡ self.old.part.array_len →
            IfErr result (λ e. e ≡ record {
              len = length fill_value.now;
              expected_len = self.old.part.size;
            }) }
        ensures long { length self.new.bytes.now ≡ length self.old.bytes.now }
        ensures filled { IfOk result
            (λ _. Filled (whole (sizes (region self.old.part.array))) (region self.old.part.subset)
            (of_bytes fill_value.now) (fixed_elements self.old.part.size self.old.bytes.now)
            (fixed_elements self.old.part.size self.new.bytes.now)) }
        ensures kept { IfErr result (λ _. self.new.bytes.now ≡ self.old.bytes.now) }
    {
        fill_into(self.bytes, &self.part, fill_value)
    }

    /// Writes the elements of the view's box, in row-major order.
    ///
    /// # Errors
    /// [`InvalidBytesLengthError`] where there are more or fewer bytes than the box has; nothing is written
    /// then.
    pub fn copy_from_slice(&mut self, subset_bytes: &[u8]) -> Result<(), InvalidBytesLengthError>
        ensures same_reference { self.new.bytes.ghost_name ≡ self.old.bytes.ghost_name }
        ensures part { self.new.part ≡ self.old.part }
        ensures exact { length self.old.bytes.now ≡ self.old.part.array_len →
            is_ok result ≡ (length subset_bytes.now
            == count (region self.old.part.subset) * self.old.part.size) }
        ensures told { length self.old.bytes.now ≡ self.old.part.array_len →
            IfErr result (λ e. e ≡ record {
              len = length subset_bytes.now;
              expected_len = count (region self.old.part.subset) * self.old.part.size;
            }) }
        ensures long { length self.new.bytes.now ≡ length self.old.bytes.now }
        ensures written { IfOk result
            (λ _. Copied (whole (sizes (region self.old.part.array))) (region self.old.part.subset)
            (fixed_elements self.old.part.size subset_bytes.now)
            (fixed_elements self.old.part.size self.old.bytes.now)
            (fixed_elements self.old.part.size self.new.bytes.now)) }
        ensures kept { IfErr result (λ _. self.new.bytes.now ≡ self.old.bytes.now) }
    {
        write_into(self.bytes, &self.part, subset_bytes)
    }

    /// Makes each element of a subset of the view's box the fill value: a view of that subset, filled.
    ///
    /// # Errors
    /// [`ArrayBytesFixedDisjointViewCreateError`] where the subset is not within the view's own; else where
    /// the fill value has another size than an element; or where there is not enough memory. Nothing is written
    /// then.
    pub fn fill_subset(
        &mut self,
        alloc: Global,
        subset: ArraySubset,
        fill_value: &[u8],
    ) -> Result<(), ArrayBytesFixedDisjointViewCreateError>
        ensures same_reference { self.new.bytes.ghost_name ≡ self.old.bytes.ghost_name }
        ensures part { self.new.part ≡ self.old.part }
        ensures exact { length self.old.bytes.now ≡ self.old.part.array_len → AnswersView
            (write_answer (region subset) (region self.old.part.subset) 1 self.old.part.size
            (length fill_value.now)) result }
        ensures long { length self.new.bytes.now ≡ length self.old.bytes.now }
        ensures filled { IfOk result
            (λ _. Filled (whole (sizes (region self.old.part.array))) (region subset)
            (of_bytes fill_value.now) (fixed_elements self.old.part.size self.old.bytes.now)
            (fixed_elements self.old.part.size self.new.bytes.now)) }
        ensures kept { IfErr result (λ _. self.new.bytes.now ≡ self.old.bytes.now) }
    {
        let part = inner_part(alloc, &self.part, subset)?;
        match fill_through(self.bytes, part, fill_value) {
            Ok(()) => Ok(()),
            Err(error) => Err(ArrayBytesFixedDisjointViewCreateError::InvalidBytesLength(error)),
        }
    }

    /// Writes the elements of a subset of the view's box: a view of that subset, written.
    ///
    /// # Errors
    /// [`ArrayBytesFixedDisjointViewCreateError`] where the subset is not within the view's own; else where
    /// there are more or fewer bytes than the subset has; or where there is not enough memory. Nothing is written
    /// then.
    pub fn copy_subset_from_slice(
        &mut self,
        alloc: Global,
        subset: ArraySubset,
        subset_bytes: &[u8],
    ) -> Result<(), ArrayBytesFixedDisjointViewCreateError>
        ensures same_reference { self.new.bytes.ghost_name ≡ self.old.bytes.ghost_name }
        ensures part { self.new.part ≡ self.old.part }
        ensures exact { length self.old.bytes.now ≡ self.old.part.array_len → AnswersView
            (write_answer (region subset) (region self.old.part.subset) (count (region subset))
            self.old.part.size (length subset_bytes.now)) result }
        ensures long { length self.new.bytes.now ≡ length self.old.bytes.now }
        ensures written { IfOk result
            (λ _. Copied (whole (sizes (region self.old.part.array))) (region subset)
            (fixed_elements self.old.part.size subset_bytes.now)
            (fixed_elements self.old.part.size self.old.bytes.now)
            (fixed_elements self.old.part.size self.new.bytes.now)) }
        ensures kept { IfErr result (λ _. self.new.bytes.now ≡ self.old.bytes.now) }
    {
        let part = inner_part(alloc, &self.part, subset)?;
        match copy_through(self.bytes, part, subset_bytes) {
            Ok(()) => Ok(()),
            Err(error) => Err(ArrayBytesFixedDisjointViewCreateError::InvalidBytesLength(error)),
        }
    }
}

// Fills a box of the bytes through a view of its own.
fn fill_through(
    bytes: &mut [u8],
    part: ViewPart,
    fill_value: &[u8],
) -> Result<(), InvalidBytesLengthError>
    ensures exact { length bytes.old ≡ part.array_len →
        is_ok result ≡ (length fill_value.now == part.size) }
    ensures told { length bytes.old ≡ part.array_len → IfErr result (λ e. e ≡ record {
      len = length fill_value.now;
      expected_len = part.size;
    }) }
    ensures long { length bytes.new ≡ length bytes.old }
    ensures filled { IfOk result (λ _. Filled (whole (sizes (region part.array)))
        (region part.subset) (of_bytes fill_value.now) (fixed_elements part.size bytes.old)
        (fixed_elements part.size bytes.new)) }
    ensures kept { IfErr result (λ _. bytes.new ≡ bytes.old) }
{
    let mut view = ArrayBytesFixedDisjointView::from_parts(bytes, part);
    let result = view.fill(fill_value);
    let ArrayBytesFixedDisjointView {
        bytes: rest,
        part: _,
    } = view;
    let _len = rest.len();
    result
}

// Writes a box of the bytes through a view of its own.
fn copy_through(
    bytes: &mut [u8],
    part: ViewPart,
    subset_bytes: &[u8],
) -> Result<(), InvalidBytesLengthError>
    ensures exact { length bytes.old ≡ part.array_len →
        is_ok result ≡ (length subset_bytes.now == count (region part.subset) * part.size) }
    ensures told { length bytes.old ≡ part.array_len → IfErr result (λ e. e ≡ record {
      len = length subset_bytes.now;
      expected_len = count (region part.subset) * part.size;
    }) }
    ensures long { length bytes.new ≡ length bytes.old }
    ensures written { IfOk result (λ _. Copied (whole (sizes (region part.array)))
        (region part.subset) (fixed_elements part.size subset_bytes.now)
        (fixed_elements part.size bytes.old) (fixed_elements part.size bytes.new)) }
    ensures kept { IfErr result (λ _. bytes.new ≡ bytes.old) }
{
    let mut view = ArrayBytesFixedDisjointView::from_parts(bytes, part);
    let result = view.copy_from_slice(subset_bytes);
    let ArrayBytesFixedDisjointView {
        bytes: rest,
        part: _,
    } = view;
    let _len = rest.len();
    result
}
