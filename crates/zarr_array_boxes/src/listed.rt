//! Elements of any kind over a box.

ghost use Rattle.std.specs.Prelude.{◌≡◌, ◌+◌, ◌*◌, ◌<◌, ◌^◌, true, false, [], ◌∷◌, Some, IsSome, length, replicate, IfOk, OnOk};
ghost use Rattle.zarr_model.specs.Region.{count};
ghost use Rattle.zarr_model.specs.Element.{Element, fill_element, fixed_size};
ghost use Rattle.zarr_model.specs.ArrayBytes.{meaning};
ghost use Rattle.zarr_model.specs.Command.{has_long_element};
ghost use Rattle.zarrs_array_subset.specs.ArraySubset.{region};
ghost use Rattle.zarrs_array_subset.specs.Boxes.{is_within};
ghost use Rattle.zarrs_data_type_bytes.specs.FillValue.{fill_bytes};
ghost use Rattle.zarrs_codec_slices.specs.Filling.{filled_with};
ghost use Rattle.zarrs_codec_slices.specs.Overlap.{Copied};
ghost use Rattle.zarrs_codec_slices.specs.Picking.{replaced, size_in};
ghost use Rattle.zarrs_codec_slices.specs.PickedRuns.{AreRunsBelow};
ghost use Rattle.zarrs_codec_array_bytes.specs.Raw.{raw_of};
ghost use Rattle.zarrs_codec_array_bytes.specs.Steps.{kind_seen, bytes_seen};
ghost use Rattle.zarr_array_boxes.specs.Elements.{list_in, blanks};
ghost use Rattle.zarr_array_boxes.specs.Given.{given_runs, given_indices, given_meaning, given_list, has_long_given};

use crate::given::{Given, with_piece};
use crate::piece::{part_in, piece_in};
use crate::place_runs::picks_over_blank;
use std::alloc::{AllocError, Global};
use zarrs_array_subset::ArraySubset;
use zarrs_codec_array_bytes::ArrayBytes;
use zarrs_codec_array_bytes::array_bytes::gather::{select, select_runs};
use zarrs_codec_array_bytes::array_bytes::step::element_size;
use zarrs_data_type::DataType;
use zarrs_data_type_bytes::FillValue;

/// Elements of any kind over a box: one blank element, which stands at all its places, and those that were given to
/// some of them since, of which the last one at a place counts.
#[derive(Drop)]
pub(crate) struct ListedBox<'a> {
    pub(crate) data_type: &'a DataType,
    pub(crate) subset: &'a ArraySubset,
    pub(crate) blank: ArrayBytes<'static>,
    pub(crate) given: Option<Given>,
    ghost few: { count (region subset.now) + 1 < 2 ^ 64 },
    ghost blank_means: { IsSome (meaning (kind_seen data_type.now) 1 (raw_of blank)) },
    ghost given_means: { IsSome (given_meaning (kind_seen data_type.now) given) },
    ghost below: { AreRunsBelow (count (region subset.now)) (given_runs given) },
}

// One element, the fill value.
fn blank_element(
    alloc: Global,
    data_type: &DataType,
    fill_value: &FillValue,
) -> Result<ArrayBytes<'static>, AllocError>
    requires { IsSome (fill_element (kind_seen data_type.now) (fill_bytes fill_value.now)) }
    ensures means { (x : Element)
        → fill_element (kind_seen data_type.now) (fill_bytes fill_value.now) ≡ Some x
        → IfOk result (λ v. meaning (kind_seen data_type.now) 1 (raw_of v) ≡ Some (x ∷ [])) }
    ensures value { IfOk result
        (λ v. raw_of v ≡ filled_with (kind_seen data_type.now) 1 (fill_bytes fill_value.now)) }
{
    let _size = element_size(data_type);
    match ArrayBytes::new_fill_value(alloc, data_type, 1, fill_value) {
        Ok(blank) => Ok(blank),
        Err(error) => Err(error.only_memory()),
    }
}

// So many elements: the blank one, and those that were given in their places.
fn with_given(
    alloc: Global,
    data_type: &DataType,
    count: u64,
    blank: &ArrayBytes<'_>,
    given: Given,
) -> Result<ArrayBytes<'static>, AllocError>
    requires blank { IsSome (meaning (kind_seen data_type.now) 1 (raw_of blank.now)) }
    requires given { IsSome (given_meaning (kind_seen data_type.now) (Some given)) }
    requires below { AreRunsBelow count (given_runs (Some given)) }
    ensures means { IfOk result (λ v. meaning (kind_seen data_type.now) count (raw_of v)
        ≡ Some (replaced (given_indices (Some given))
        (given_list (kind_seen data_type.now) (Some given))
        (blanks (kind_seen data_type.now) count (raw_of blank.now)))) }
    ensures short { (0 < count → has_long_element (raw_of blank.now) ≡ false)
        → has_long_given (Some given) ≡ false
        → IfOk result (λ v. has_long_element (raw_of v) ≡ false) }
{
    let Given { runs, mut grown } = given;
    grown.append(blank)?;
    let elements = grown.into_array_bytes(alloc)?;
    let picks = picks_over_blank(alloc, count, &runs)?;
    let size = element_size(data_type);
    match select_runs(alloc, &picks.runs, picks.total + 1, &elements, size) {
        Ok(bytes) => Ok(bytes),
        Err(error) => Err(error.only_memory()),
    }
}

// The blank element so many times.
fn repeated(
    alloc: Global,
    data_type: &DataType,
    count: u64,
    blank: &ArrayBytes<'_>,
) -> Result<ArrayBytes<'static>, AllocError>
    requires { IsSome (meaning (kind_seen data_type.now) 1 (raw_of blank.now)) }
    ensures means { IfOk result (λ v. meaning (kind_seen data_type.now) count (raw_of v)
        ≡ Some (blanks (kind_seen data_type.now) count (raw_of blank.now))) }
    ensures short { (0 < count → has_long_element (raw_of blank.now) ≡ false)
        → IfOk result (λ v. has_long_element (raw_of v) ≡ false) }
{
    let places = vec![in alloc; 0; count as usize]?;
    match select(alloc, &places, 1, blank, element_size(data_type)) {
        Ok(bytes) => Ok(bytes),
        Err(error) => Err(error.only_memory()),
    }
}

impl<'a> ListedBox<'a> {
    ghost use Rattle.zarr_array_boxes.specs.BoxElements.{listed_kind, listed_box, listed_list, IsShortList};

    /// A box whose elements are all the fill value.
    pub(crate) fn filled(
        alloc: Global,
        data_type: &'a DataType,
        fill_value: &FillValue,
        subset: &'a ArraySubset,
    ) -> Result<ListedBox<'a>, AllocError>
        requires denotes { IsSome (fill_element (kind_seen data_type.now)
            (fill_bytes fill_value.now)) }
        requires count { count (region subset.now) + 1 < 2 ^ 64 }
        requires bytes { count (region subset.now) * bytes_seen data_type.now < 2 ^ 64 }
        ensures kind { IfOk result (λ v. listed_kind v ≡ kind_seen data_type.now) }
        ensures subset { IfOk result (λ v. listed_box v ≡ region subset.now) }
        ensures elements { (x : Element)
            → fill_element (kind_seen data_type.now) (fill_bytes fill_value.now) ≡ Some x
            → IfOk result (λ v. listed_list v ≡ replicate (count (region subset.now)) x) }
        ensures short { (0 < count (region subset.now) → has_long_element
            (filled_with (kind_seen data_type.now) 1 (fill_bytes fill_value.now)) ≡ false)
            → IfOk result IsShortList }
    {
        let blank = blank_element(alloc, data_type, fill_value)?;
        Ok(ListedBox {
            data_type,
            subset,
            blank,
            given: None,
        })
    }

    // Takes all elements of bytes over a box inside this one. After an error all are blank.
    fn put_whole(
        &mut self,
        alloc: Global,
        bytes: &ArrayBytes<'_>,
        subset: &ArraySubset,
    ) -> Result<(), AllocError>
        requires rank { length (listed_box self.old) ≡ length (region subset.now) }
        requires inside { is_within (region subset.now) (listed_box self.old) ≡ true }
        requires means { IsSome
            (meaning (listed_kind self.old) (count (region subset.now)) (raw_of bytes.now)) }
        ensures kind { listed_kind self.new ≡ listed_kind self.old }
        ensures subset { listed_box self.new ≡ listed_box self.old }
        ensures copied { OnOk result (Copied (listed_box self.old) (region subset.now)
            (list_in (listed_kind self.old) (region subset.now) (raw_of bytes.now))
            (listed_list self.old) (listed_list self.new)) }
        ensures short { has_long_element (raw_of bytes.now) ≡ false → IsShortList self.old
            → IsShortList self.new }
    {
        let at = part_in(alloc, subset, self.subset)?;
        let before = self.given.take();
        let given = with_piece(before, alloc, &at, self.subset.shape(), bytes)?;
        self.given = Some(given);
        Ok(())
    }

    // Takes the elements of the part that another box shares with this one. After an error all are blank.
    fn put_part(
        &mut self,
        alloc: Global,
        bytes: &ArrayBytes<'_>,
        subset: &ArraySubset,
    ) -> Result<(), AllocError>
        requires rank { length (listed_box self.old) ≡ length (region subset.now) }
        requires means { IsSome
            (meaning (listed_kind self.old) (count (region subset.now)) (raw_of bytes.now)) }
        requires count { count (region subset.now) + 1 < 2 ^ 64 }
        requires bytes { count (region subset.now) * size_in (fixed_size (listed_kind self.old))
            < 2 ^ 64 }
        ensures kind { listed_kind self.new ≡ listed_kind self.old }
        ensures subset { listed_box self.new ≡ listed_box self.old }
        ensures copied { OnOk result (Copied (listed_box self.old) (region subset.now)
            (list_in (listed_kind self.old) (region subset.now) (raw_of bytes.now))
            (listed_list self.old) (listed_list self.new)) }
        ensures short { has_long_element (raw_of bytes.now) ≡ false → IsShortList self.old
            → IsShortList self.new }
    {
        let part = self.subset.shared_part(alloc, subset)?;
        if part.is_empty() {
            return Ok(());
        }
        let piece = piece_in(alloc, self.data_type, bytes, subset, &part)?;
        let at = part_in(alloc, &part, self.subset)?;
        let before = self.given.take();
        let given = with_piece(before, alloc, &at, self.subset.shape(), &piece)?;
        self.given = Some(given);
        Ok(())
    }

    /// Takes the elements that bytes over another box share with this one. After an error all are blank.
    pub(crate) fn put(
        &mut self,
        alloc: Global,
        bytes: &ArrayBytes<'_>,
        subset: &ArraySubset,
    ) -> Result<(), AllocError>
        requires rank { length (listed_box self.old) ≡ length (region subset.now) }
        requires means { IsSome
            (meaning (listed_kind self.old) (count (region subset.now)) (raw_of bytes.now)) }
        requires count { count (region subset.now) + 1 < 2 ^ 64 }
        requires bytes { count (region subset.now) * size_in (fixed_size (listed_kind self.old))
            < 2 ^ 64 }
        ensures kind { listed_kind self.new ≡ listed_kind self.old }
        ensures subset { listed_box self.new ≡ listed_box self.old }
        ensures copied { OnOk result (Copied (listed_box self.old) (region subset.now)
            (list_in (listed_kind self.old) (region subset.now) (raw_of bytes.now))
            (listed_list self.old) (listed_list self.new)) }
        ensures short { has_long_element (raw_of bytes.now) ≡ false → IsShortList self.old
            → IsShortList self.new }
    {
        if subset.inbounds(self.subset) {
            self.put_whole(alloc, bytes, subset)
        } else {
            self.put_part(alloc, bytes, subset)
        }
    }

    /// The elements as array bytes.
    pub(crate) fn into_bytes(self, alloc: Global) -> Result<ArrayBytes<'static>, AllocError>
        ensures means { IfOk result (λ v. meaning (listed_kind self.entry)
            (count (listed_box self.entry)) (raw_of v) ≡ Some (listed_list self.entry)) }
        ensures short { IsShortList self.entry
            → IfOk result (λ v. has_long_element (raw_of v) ≡ false) }
    {
        let ListedBox {
            data_type,
            subset,
            blank,
            given,
        } = self;
        match given {
            Some(given) => with_given(alloc, data_type, subset.num_elements(), &blank, given),
            None => repeated(alloc, data_type, subset.num_elements(), &blank),
        }
    }
}
