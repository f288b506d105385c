//! Array bytes whose elements are all a fill value.
//!
//! See <https://zarr-specs.readthedocs.io/en/latest/v3/core/index.html#fill-value>.

ghost use Rattle.std.specs.Prelude.{◌≡◌, ◌∷◌, [], ◌*◌, ◌+◌, ◌-◌, ◌<◌, ◌^◌, ◌==◌, ◌↔◌, ℕ, List, Some, false, take, length, replicate, IfOk, IfErr, IsTrue};
ghost use Rattle.zarr_model.specs.Element.{Element, Kind, fill_element};
ghost use Rattle.zarr_model.specs.ArrayBytes.{ends_from, fixed_bytes, variable_bytes, optional_bytes, meaning};
ghost use Rattle.zarr_model.specs.Command.{has_long_element};
ghost use Rattle.zarrs_data_type_bytes.specs.Pieces.{repeated};
ghost use Rattle.zarrs_data_type_bytes.specs.FillValue.{fill_bytes};
ghost use Rattle.zarrs_codec_slices.specs.Filling.{has_size, filled_with, innermost_fill, AreFill};
ghost use Rattle.zarrs_codec_array_bytes.specs.Steps.{kind_seen, bytes_seen};
ghost use Rattle.zarrs_codec_array_bytes.specs.Raw.{raw_of};
ghost use Rattle.zarrs_codec_array_bytes.specs.Refusals.{Answers, fine, fill_answer};

use super::gather::optional_of;
use super::step::{Step, element_size, step_of};
use super::{ArrayBytes, ArrayBytesVariableLength, bytes_in};
use std::alloc::Global;
use std::borrow::CowSlice;
use zarrs_codec_error::{CodecError, DataTypeFillValueError};
use zarrs_codec_slices::fill::filled;
use zarrs_codec_slices::values::{are_values, repeated_values};
use zarrs_data_type::DataType;
use zarrs_data_type_bytes::{FillValue, ends_in_zero, repeats};

// The fill value inside one that is not null: all bytes but the last, and none where there are none.
fn without_last(fill: &[u8]) -> &[u8]
    ensures { result.now ≡ take (length fill.now - 1) fill.now }
{
    &fill[..fill.len().saturating_sub(1)]
}

// So many elements of one size.
fn fixed_fill(
    alloc: Global,
    size: usize,
    num_elements: usize,
    fill: &[u8],
) -> Result<ArrayBytes<'static>, CodecError>
    requires { num_elements * size < 2 ^ 64 }
    ensures answer { Answers (fill_answer (length fill.now == size)) result }
    ensures value { IfOk result (λ v. raw_of v ≡ fixed_bytes (repeated num_elements fill.now)) }
{
    if fill.len() != size {
        return Err(CodecError::DataTypeFillValueError(DataTypeFillValueError));
    }
    let bytes = filled(alloc, fill, num_elements)?;
    Ok(ArrayBytes::Fixed(CowSlice::Owned(bytes)))
}

// So many elements of any size.
fn variable_fill(
    alloc: Global,
    num_elements: usize,
    fill: &[u8],
) -> Result<ArrayBytes<'static>, CodecError>
    ensures answer { Answers fine result }
    ensures value { IfOk result (λ v. raw_of v ≡ variable_bytes (repeated num_elements fill.now)
        (0 ∷ ends_from 0 (replicate num_elements fill.now))) }
{
    let (bytes, offsets) = repeated_values(alloc, fill, num_elements)?;
    Ok(ArrayBytes::Variable(ArrayBytesVariableLength::from_gathered(bytes, offsets)))
}

// So many optional elements over data, with one mask byte.
fn masked_fill(
    alloc: Global,
    inner: ArrayBytes<'static>,
    num_elements: usize,
    flag: u8,
) -> Result<ArrayBytes<'static>, CodecError>
    ensures answer { Answers fine result }
    ensures value { IfOk result
        (λ v. raw_of v ≡ optional_bytes (raw_of inner.entry) (replicate num_elements flag)) }
{
    let mask = vec![in alloc; flag; num_elements]?;
    optional_of(alloc, inner, mask)
}

// So many elements of a data type that are all the fill value with these bytes.
fn fill_with(
    alloc: Global,
    data_type: &DataType,
    num_elements: usize,
    fill: &[u8],
) -> Result<ArrayBytes<'static>, CodecError>
    requires { num_elements * bytes_seen data_type.now < 2 ^ 64 }
    ensures answer { Answers (fill_answer (has_size (kind_seen data_type.now) fill.now)) result }
    ensures value { IfOk result
        (λ v. raw_of v ≡ filled_with (kind_seen data_type.now) num_elements fill.now) }
{
    match step_of(data_type) {
        Step::Fixed(size) => fixed_fill(alloc, size, num_elements, fill),
        Step::Variable => variable_fill(alloc, num_elements, fill),
        Step::Optional(inner) => {
            if ends_in_zero(fill) {
                let zeros = vec![in alloc; 0; element_size(inner)]?;
                let under = fill_with(alloc, inner, num_elements, &zeros)?;
                return masked_fill(alloc, under, num_elements, 0);
            }
            let under = fill_with(alloc, inner, num_elements, without_last(fill))?;
            masked_fill(alloc, under, num_elements, 1)
        }
    }
}

// Whether there is an element, and each is the fill value with these bytes.
fn are_fill(bytes: &ArrayBytes<'_>, fill: &[u8]) -> bool
    ensures { IsTrue result ↔ AreFill (raw_of bytes.now) fill.now }
{
    match bytes {
        ArrayBytes::Fixed(items) => repeats(fill, bytes_in(items)),
        ArrayBytes::Variable(variable) => are_values(variable.items(), variable.numbers(), fill),
        ArrayBytes::Optional(optional) => {
            if ends_in_zero(fill) {
                return repeats(&[0], optional.flags());
            }
            if !repeats(&[1], optional.flags()) {
                return false;
            }
            are_fill(optional.data(), without_last(fill))
        }
    }
}

impl ArrayBytes<'_> {
    /// So many elements of a data type that are all the fill value.
    ///
    /// A fill value of an optional type is null exactly where its last byte is 0; under it the data are zero bytes
    /// of the type's size, or empty elements where the sizes differ.
    ///
    /// # Errors
    /// [`CodecError`] where the innermost elements have one size and the innermost fill value has another, or
    /// where memory runs out.
    pub fn new_fill_value(
        alloc: Global,
        data_type: &DataType,
        num_elements: u64,
        fill_value: &FillValue,
    ) -> Result<ArrayBytes<'static>, CodecError>
        requires count { num_elements + 1 < 2 ^ 64 }
        requires bytes { num_elements * bytes_seen data_type.now < 2 ^ 64 }
        ensures answer { Answers (fill_answer (has_size (kind_seen data_type.now)
            (fill_bytes fill_value.now))) result }
        ensures value { IfOk result (λ v. raw_of v
            ≡ filled_with (kind_seen data_type.now) num_elements (fill_bytes fill_value.now)) }
        ensures filled { (x : Element)
            → fill_element (kind_seen data_type.now) (fill_bytes fill_value.now) ≡ Some x
            → IfOk result (λ v. meaning (kind_seen data_type.now) num_elements (raw_of v)
            ≡ Some (replicate num_elements x)) }
        ensures short { length (innermost_fill (kind_seen data_type.now)
            (fill_bytes fill_value.now)) < 2 ^ 32
            → IfOk result (λ v. has_long_element (raw_of v) ≡ false) }
    {
        fill_with(
            alloc,
            data_type,
            num_elements as usize,
            fill_value.as_ne_bytes(),
        )
    }

    /// Whether there is an element, and each is the fill value. Optional elements are where each mask byte is 0 and the
    /// fill value is null, or each is 1 over data that are the fill value inside.
    pub fn is_fill_value(&self, fill_value: &FillValue) -> bool
        ensures fill { IsTrue result ↔ AreFill (raw_of self.now) (fill_bytes fill_value.now) }
        ensures elements { (kind : Kind) (number : ℕ) (xs : List Element) (x : Element)
            → meaning kind number (raw_of self.now) ≡ Some xs → 0 < number
            → fill_element kind (fill_bytes fill_value.now) ≡ Some x
            → IsTrue result ↔ (xs ≡ replicate number x) }
    {
        are_fill(self, fill_value.as_ne_bytes())
    }
}
