//! Elements over a box, into which those of other boxes are put.

ghost use Rattle.std.specs.Prelude.{◌≡◌, ◌+◌, ◌*◌, ◌<◌, ◌^◌, false, Some, IsSome, length, replicate, IfOk, OnOk};
ghost use Rattle.zarr_model.specs.Region.{count};
ghost use Rattle.zarr_model.specs.Element.{Element, fill_element, fixed_size};
ghost use Rattle.zarr_model.specs.ArrayBytes.{meaning};
ghost use Rattle.zarr_model.specs.Command.{has_long_element};
ghost use Rattle.zarrs_array_subset.specs.ArraySubset.{region};
ghost use Rattle.zarrs_data_type_bytes.specs.FillValue.{fill_bytes};
ghost use Rattle.zarrs_codec_slices.specs.Filling.{filled_with};
ghost use Rattle.zarrs_codec_slices.specs.Overlap.{Copied};
ghost use Rattle.zarrs_codec_slices.specs.Picking.{size_in};
ghost use Rattle.zarrs_codec_array_bytes.specs.Raw.{raw_of};
ghost use Rattle.zarrs_codec_array_bytes.specs.Steps.{kind_seen, bytes_seen};
ghost use Rattle.zarr_array_boxes.specs.Elements.{list_in};

use crate::fixed::FixedBox;
use crate::listed::ListedBox;
use std::alloc::{AllocError, Global};
use zarrs_array_subset::ArraySubset;
use zarrs_codec_array_bytes::ArrayBytes;
use zarrs_codec_array_bytes::array_bytes::step::element_size;
use zarrs_data_type::DataType;
use zarrs_data_type_bytes::FillValue;

// The elements, by what their kind is.
#[derive(Drop)]
enum Held<'a> {
    Fixed(FixedBox<'a>),
    Listed(ListedBox<'a>),
}

/// The elements of a box, which takes those that other boxes share with it.
#[derive(Drop)]
pub struct BoxElements<'a> {
    held: Held<'a>,
}

impl<'a> BoxElements<'a> {
    ghost use Rattle.zarr_array_boxes.specs.BoxElements.{kind_held, box_held, list_held, HoldsShort};

    /// A box whose elements are all the fill value.
    ///
    /// # Errors
    /// [`AllocError`] where memory runs out.
    pub fn filled(
        alloc: Global,
        data_type: &'a DataType,
        fill_value: &FillValue,
        subset: &'a ArraySubset,
    ) -> Result<BoxElements<'a>, AllocError>
        requires denotes { IsSome (fill_element (kind_seen data_type.now)
            (fill_bytes fill_value.now)) }
        requires count { count (region subset.now) + 1 < 2 ^ 64 }
        requires bytes { count (region subset.now) * bytes_seen data_type.now < 2 ^ 64 }
        ensures kind { IfOk result (λ v. kind_held v ≡ kind_seen data_type.now) }
        ensures subset { IfOk result (λ v. box_held v ≡ region subset.now) }
        ensures elements { (x : Element)
            → fill_element (kind_seen data_type.now) (fill_bytes fill_value.now) ≡ Some x
            → IfOk result (λ v. list_held v ≡ replicate (count (region subset.now)) x) }
        ensures short { (0 < count (region subset.now) → has_long_element
            (filled_with (kind_seen data_type.now) 1 (fill_bytes fill_value.now)) ≡ false)
            → IfOk result HoldsShort }
    {
        if element_size(data_type) == 0 {
            let elements = ListedBox::filled(alloc, data_type, fill_value, subset)?;
            return Ok(BoxElements {
                held: Held::Listed(elements),
            });
        }
        let elements = FixedBox::filled(alloc, data_type, fill_value, subset)?;
        Ok(BoxElements {
            held: Held::Fixed(elements),
        })
    }

    /// Takes the elements that bytes over another box share with this one. After an error no clause says which
    /// elements there are.
    ///
    /// # Errors
    /// [`AllocError`] where memory runs out.
    pub fn put(
        &mut self,
        alloc: Global,
        bytes: &ArrayBytes<'_>,
        subset: &ArraySubset,
    ) -> Result<(), AllocError>
        requires rank { length (box_held self.old) ≡ length (region subset.now) }
        requires means { IsSome
            (meaning (kind_held self.old) (count (region subset.now)) (raw_of bytes.now)) }
        requires count { count (region subset.now) + 1 < 2 ^ 64 }
        requires bytes { count (region subset.now) * size_in (fixed_size (kind_held self.old))
            < 2 ^ 64 }
        ensures kind { kind_held self.new ≡ kind_held self.old }
        ensures subset { box_held self.new ≡ box_held self.old }
        ensures copied { OnOk result (Copied (box_held self.old) (region subset.now)
            (list_in (kind_held self.old) (region subset.now) (raw_of bytes.now))
            (list_held self.old) (list_held self.new)) }
        ensures short { has_long_element (raw_of bytes.now) ≡ false → HoldsShort self.old
            → HoldsShort self.new }
    {
        match &mut self.held {
            Held::Fixed(elements) => {
                elements.put(bytes, subset);
                Ok(())
            }
            Held::Listed(elements) => elements.put(alloc, bytes, subset),
        }
    }

    /// The elements as array bytes.
    ///
    /// # Errors
    /// [`AllocError`] where memory runs out.
    pub fn into_bytes(self, alloc: Global) -> Result<ArrayBytes<'static>, AllocError>
        ensures means { IfOk result (λ v. meaning (kind_held self.entry)
            (count (box_held self.entry)) (raw_of v) ≡ Some (list_held self.entry)) }
        ensures short { HoldsShort self.entry
            → IfOk result (λ v. has_long_element (raw_of v) ≡ false) }
    {
        match self.held {
            Held::Fixed(elements) => elements.into_bytes(alloc),
            Held::Listed(elements) => elements.into_bytes(alloc),
        }
    }
}
