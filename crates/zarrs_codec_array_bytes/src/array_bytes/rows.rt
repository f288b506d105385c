//! Elements of boxes in arrays, run by run.

ghost use Rattle.std.specs.Prelude.{◌≡◌, ◌*◌, ◌<◌, ◌^◌, true, None, length, map, IfOk, IfErr, IfSome};
ghost use Rattle.std.specs.List.{AllByRecursion};
ghost use Rattle.zarr_model.specs.Region.{count, whole, contains, place, tuples};
ghost use Rattle.zarrs_array_subset.specs.ArraySubset.{region};
ghost use Rattle.zarrs_codec_slices.specs.Picking.{gathered};
ghost use Rattle.zarrs_codec_array_bytes.specs.Raw.{raw_of};
ghost use Rattle.zarrs_codec_array_bytes.specs.Refusals.{lengths_refusal, holds_fixed};
ghost use Rattle.zarrs_codec_error.specs.declared.error.CodecError.TheVariants as codec;

use super::gather::optional_of;
use super::{ArrayBytes, bytes_in};
use std::alloc::{AllocError, Global};
use std::borrow::CowSlice;
use zarrs_array_subset::ArraySubset;
use zarrs_chunk_grid_indexer::Indexer;
use zarrs_codec_error::CodecError;
use zarrs_codec_slices::rows::extract_rows;

/// A box in an array, whose elements can be copied run by run.
#[derive(Drop)]
pub struct Rows {
    outer: ArraySubset,
    subset: ArraySubset,
    size: usize,
    ghost some: { 0 < size },
    ghost rank: { length (region subset) ≡ length (region outer) },
    ghost few: { count (region subset) < 2 ^ 64 },
    ghost fits: { count (region subset) * size < 2 ^ 64 },
}

impl Rows {
    ghost use Rattle.zarrs_codec_array_bytes.specs.Rows.{outer_box, inner_box, row_element_bytes};

    /// The number of elements of the box.
    pub fn num_elements(&self) -> u64
        ensures { result ≡ count (inner_box self.now) }
    {
        self.subset.num_elements()
    }

    /// The whole array, as the outer box.
    pub fn outer(&self) -> &ArraySubset
        ensures { region result.now ≡ outer_box self.now }
    {
        &self.outer
    }

    /// The box in it.
    pub fn subset(&self) -> &ArraySubset
        ensures value { region result.now ≡ inner_box self.now }
        ensures rank { length (inner_box self.now) ≡ length (outer_box self.now) }
    {
        &self.subset
    }

    /// The size of an element in bytes.
    pub fn element_size(&self) -> usize
        ensures value { result ≡ row_element_bytes self.now }
        ensures some { 0 < row_element_bytes self.now }
    {
        self.size
    }

    // The box in an array of this shape, where its rank is the array's and its bytes have room.
    fn new(
        alloc: Global,
        subset: ArraySubset,
        shape: &[u64],
        size: usize,
    ) -> Result<Option<Self>, AllocError>
        requires { 0 < size }
        ensures subset { IfOk result (λ o. IfSome o (λ rows. inner_box rows ≡ region subset)) }
        ensures outer { IfOk result (λ o. IfSome o (λ rows. outer_box rows ≡ whole shape.now)) }
        ensures size { IfOk result (λ o. IfSome o (λ rows. row_element_bytes rows ≡ size)) }
    {
        let outer = ArraySubset::new_with_shape(alloc, Vec::from_slice(alloc, shape)?)?;
        if subset.dimensionality() != outer.dimensionality() {
            return Ok(None);
        }
        let Some(count) = subset.checked_num_elements() else {
            return Ok(None);
        };
        if count.checked_mul(size as u64).is_none() {
            return Ok(None);
        }
        Ok(Some(Rows {
            outer,
            subset,
            size,
        }))
    }

    /// The box that an indexer is in an array of this shape, where it is one and its elements of `size` bytes can
    /// be copied run by run.
    ///
    /// # Errors
    /// [`AllocError`] where memory runs out.
    pub fn of_indexer<I: Indexer>(
        alloc: Global,
        indexer: &I,
        shape: &[u64],
        size: usize,
    ) -> Result<Option<Self>, AllocError>
        ensures places { IfOk result
            (λ o. IfSome o (λ rows. I.places indexer.now ≡ tuples (inner_box rows))) }
        ensures outer { IfOk result (λ o. IfSome o (λ rows. outer_box rows ≡ whole shape.now)) }
        ensures size { IfOk result (λ o. IfSome o (λ rows. row_element_bytes rows ≡ size)) }
    {
        if size == 0 {
            return Ok(None);
        }
        let Some(subset) = indexer.as_array_subset(alloc)? else {
            return Ok(None);
        };
        let rows = Rows::new(alloc, subset, shape, size)?;
        Ok(rows)
    }

    /// The elements of the box.
    ///
    /// # Errors
    /// [`CodecError::OutOfMemory`] where memory runs out.
    #[tactic(auto, using(crate::proofs::CheckLaws::fixed_long, crate::proofs::CheckLaws::mask_long, crate::proofs::CheckLaws::inner_long, crate::proofs::RowLaws::one_byte))]
    pub fn select(
        &self,
        alloc: Global,
        bytes: &ArrayBytes<'_>,
    ) -> Result<ArrayBytes<'static>, CodecError>
        requires fixed { holds_fixed (raw_of bytes.now) ≡ true }
        requires inside { AllByRecursion (λ tuple. contains (outer_box self.now) tuple ≡ true)
            (tuples (inner_box self.now)) }
        requires long { lengths_refusal (row_element_bytes self.now) (count (outer_box self.now))
            (raw_of bytes.now) ≡ None }
        ensures value { IfOk result (λ v. raw_of v
            ≡ gathered (row_element_bytes self.now) (count (outer_box self.now))
            (map (place (outer_box self.now)) (tuples (inner_box self.now)))
            (raw_of bytes.now) (raw_of bytes.now)) }
        ensures memory { IfErr result (λ e. e ≡ codec.OutOfMemory) }
    {
        match bytes {
            ArrayBytes::Fixed(a) => {
                let out = extract_rows(alloc, bytes_in(a), &self.outer, &self.subset, self.size)?;
                Ok(ArrayBytes::Fixed(CowSlice::Owned(out)))
            }
            ArrayBytes::Variable(_) => unreachable!(),
            ArrayBytes::Optional(a) => {
                let mask = extract_rows(alloc, a.flags(), &self.outer, &self.subset, 1)?;
                let inner = self.select(alloc, a.data())?;
                optional_of(alloc, inner, mask)
            }
        }
    }
}
