//! Elements of one size over a box.

ghost use Rattle.std.specs.Prelude.{◌≡◌, ◌+◌, ◌*◌, ◌<◌, ◌^◌, true, false, Some, IsSome, length, replicate, IfOk};
ghost use Rattle.zarr_model.specs.Region.{count};
ghost use Rattle.zarr_model.specs.Element.{Element, fill_element};
ghost use Rattle.zarr_model.specs.ArrayBytes.{meaning};
ghost use Rattle.zarr_model.specs.Command.{has_long_element};
ghost use Rattle.zarrs_array_subset.specs.ArraySubset.{region};
ghost use Rattle.zarrs_data_type_bytes.specs.FillValue.{fill_bytes};
ghost use Rattle.zarrs_codec_slices.specs.Overlap.{Copied};
ghost use Rattle.zarrs_codec_array_bytes.specs.Raw.{raw_of};
ghost use Rattle.zarrs_codec_array_bytes.specs.Refusals.{holds_fixed};
ghost use Rattle.zarrs_codec_array_bytes.specs.Steps.{kind_seen, bytes_seen};
ghost use Rattle.zarrs_codec_array_bytes_parts.specs.OwnedArrayBytes.{owned_raw};
ghost use Rattle.zarr_array_boxes.specs.Elements.{list_in, PutsOverlap};

use std::alloc::{AllocError, Global};
use zarrs_array_subset::ArraySubset;
use zarrs_codec_array_bytes::ArrayBytes;
use zarrs_codec_array_bytes::array_bytes::step::element_size;
use zarrs_codec_array_bytes_parts::OwnedArrayBytes;
use zarrs_data_type::DataType;
use zarrs_data_type_bytes::FillValue;

// So many elements that are all the fill value.
fn filled_elements(
    alloc: Global,
    data_type: &DataType,
    number: u64,
    fill_value: &FillValue,
) -> Result<OwnedArrayBytes, AllocError>
    requires denotes { IsSome (fill_element (kind_seen data_type.now)
        (fill_bytes fill_value.now)) }
    requires count { number + 1 < 2 ^ 64 }
    requires bytes { number * bytes_seen data_type.now < 2 ^ 64 }
    ensures means { IfOk result
        (λ v. IsSome (meaning (kind_seen data_type.now) number (owned_raw v))) }
    ensures elements { (x : Element)
        → fill_element (kind_seen data_type.now) (fill_bytes fill_value.now) ≡ Some x
        → IfOk result (λ v. meaning (kind_seen data_type.now) number (owned_raw v)
        ≡ Some (replicate number x)) }
{
    match ArrayBytes::new_fill_value(alloc, data_type, number, fill_value) {
        Ok(bytes) => OwnedArrayBytes::owned_from(alloc, bytes),
        Err(error) => Err(error.only_memory()),
    }
}

// Copies the elements that bytes over a box share with the box of these elements.
fn put_elements(
    into: &mut OwnedArrayBytes,
    data_type: &DataType,
    into_subset: &ArraySubset,
    bytes: &ArrayBytes<'_>,
    subset: &ArraySubset,
)
    requires some { 0 < bytes_seen data_type.now }
    requires rank { length (region into_subset.now) ≡ length (region subset.now) }
    requires held { IsSome (meaning (kind_seen data_type.now)
        (count (region into_subset.now)) (owned_raw into.old)) }
    requires means { IsSome (meaning (kind_seen data_type.now)
        (count (region subset.now)) (raw_of bytes.now)) }
    ensures puts { PutsOverlap (kind_seen data_type.now) (region into_subset.now)
        (region subset.now) (raw_of bytes.now) (owned_raw into.old) (owned_raw into.new) }
    ensures fixed { holds_fixed (owned_raw into.new) ≡ true }
{
    into.copy_overlap(into_subset, bytes, subset, element_size(data_type));
}

// The elements as array bytes, in the same memory.
#[tactic(auto, using(zarrs_codec_array_bytes_parts::proofs::MeansLaws::fixed_sound, zarrs_codec_array_bytes_parts::proofs::MeansLaws::fixed_short))]
fn array_bytes_of(
    elements: OwnedArrayBytes,
    alloc: Global,
) -> Result<ArrayBytes<'static>, AllocError>
    requires { holds_fixed (owned_raw elements) ≡ true }
    ensures value { IfOk result (λ v. raw_of v ≡ owned_raw elements) }
    ensures short { IfOk result (λ v. has_long_element (raw_of v) ≡ false) }
{
    let bytes = elements.into_array_bytes(alloc)?;
    Ok(bytes)
}

/// A chunk of elements of one size, with those that a box shares with it replaced, in the memory of the chunk.
pub(crate) fn put_fixed(
    alloc: Global,
    data_type: &DataType,
    chunk: ArrayBytes<'static>,
    chunk_subset: &ArraySubset,
    bytes: &ArrayBytes<'_>,
    subset: &ArraySubset,
) -> Result<ArrayBytes<'static>, AllocError>
    requires some { 0 < bytes_seen data_type.now }
    requires rank { length (region chunk_subset.now) ≡ length (region subset.now) }
    requires chunk_means { IsSome (meaning (kind_seen data_type.now)
        (count (region chunk_subset.now)) (raw_of chunk)) }
    requires means { IsSome (meaning (kind_seen data_type.now)
        (count (region subset.now)) (raw_of bytes.now)) }
    ensures puts { IfOk result (λ v. PutsOverlap (kind_seen data_type.now)
        (region chunk_subset.now) (region subset.now) (raw_of bytes.now) (raw_of chunk.entry)
        (raw_of v)) }
    ensures short { IfOk result (λ v. has_long_element (raw_of v) ≡ false) }
{
    let mut elements = OwnedArrayBytes::owned_from(alloc, chunk)?;
    put_elements(&mut elements, data_type, chunk_subset, bytes, subset);
    array_bytes_of(elements, alloc)
}

/// Elements of one size, optional or not, over a box.
#[derive(Drop)]
pub(crate) struct FixedBox<'a> {
    pub(crate) data_type: &'a DataType,
    pub(crate) subset: &'a ArraySubset,
    pub(crate) elements: OwnedArrayBytes,
    ghost some: { 0 < bytes_seen data_type.now },
    ghost means: { IsSome (meaning (kind_seen data_type.now) (count (region subset.now))
        (owned_raw elements)) },
}

impl<'a> FixedBox<'a> {
    ghost use Rattle.zarr_array_boxes.specs.BoxElements.{fixed_kind, fixed_box, fixed_list};

    /// A box whose elements are all the fill value. The memory of all its elements is taken here.
    pub(crate) fn filled(
        alloc: Global,
        data_type: &'a DataType,
        fill_value: &FillValue,
        subset: &'a ArraySubset,
    ) -> Result<FixedBox<'a>, AllocError>
        requires some { 0 < bytes_seen data_type.now }
        requires denotes { IsSome (fill_element (kind_seen data_type.now)
            (fill_bytes fill_value.now)) }
        requires count { count (region subset.now) + 1 < 2 ^ 64 }
        requires bytes { count (region subset.now) * bytes_seen data_type.now < 2 ^ 64 }
        ensures kind { IfOk result (λ v. fixed_kind v ≡ kind_seen data_type.now) }
        ensures subset { IfOk result (λ v. fixed_box v ≡ region subset.now) }
        ensures elements { (x : Element)
            → fill_element (kind_seen data_type.now) (fill_bytes fill_value.now) ≡ Some x
            → IfOk result (λ v. fixed_list v ≡ replicate (count (region subset.now)) x) }
    {
        let elements = filled_elements(alloc, data_type, subset.num_elements(), fill_value)?;
        Ok(FixedBox {
            data_type,
            subset,
            elements,
        })
    }

    /// Takes the elements that bytes over another box share with this one.
    pub(crate) fn put(&mut self, bytes: &ArrayBytes<'_>, subset: &ArraySubset)
        requires rank { length (fixed_box self.old) ≡ length (region subset.now) }
        requires means { IsSome
            (meaning (fixed_kind self.old) (count (region subset.now)) (raw_of bytes.now)) }
        ensures kind { fixed_kind self.new ≡ fixed_kind self.old }
        ensures subset { fixed_box self.new ≡ fixed_box self.old }
        ensures copied { Copied (fixed_box self.old) (region subset.now)
            (list_in (fixed_kind self.old) (region subset.now) (raw_of bytes.now))
            (fixed_list self.old) (fixed_list self.new) }
    {
        put_elements(
            &mut self.elements,
            self.data_type,
            self.subset,
            bytes,
            subset,
        );
    }

    /// The elements as array bytes, in the same memory.
    pub(crate) fn into_bytes(self, alloc: Global) -> Result<ArrayBytes<'static>, AllocError>
        ensures means { IfOk result (λ v. meaning (fixed_kind self.entry)
            (count (fixed_box self.entry)) (raw_of v) ≡ Some (fixed_list self.entry)) }
        ensures short { IfOk result (λ v. has_long_element (raw_of v) ≡ false) }
    {
        let FixedBox {
            data_type: _,
            subset: _,
            elements,
        } = self;
        array_bytes_of(elements, alloc)
    }
}
