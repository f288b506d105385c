//! Elements as text: `h` and hexadecimal digits, `-` for null, `+` before what is there.

ghost use Rattle.std.specs.Prelude.{◌≡◌, ◌≤◌, ◌<◌, ◌+◌, ◌-◌, ◌^◌, ◌++◌, ℕ, List, length, take, drop, Some, IsSome, is_some, IfOk, OnOk};
ghost use Rattle.zarr_model.specs.Element.{Element, fixed, variable};
ghost use Rattle.zarr_model.specs.ArrayBytes.{fixed_bytes, variable_bytes, meaning};
ghost use Rattle.zarrs_codec_array_bytes.specs.Raw.{raw_of};
ghost use Rattle.zarrs_codec_array_bytes.specs.Steps.{kind_seen};
ghost use Rattle.zarr_cli_lines.specs.ElementText.{hex_text, elements_text};
ghost use Rattle.zarr_cli_lines.specs.Place.{IsElementPlace, list_of_kind, text_at, count_in, fixed_part};

use crate::digits::push_hex;
use crate::fixed::push_fixed;
use std::alloc::AllocError;
use zarrs_codec_array_bytes::ArrayBytes;
use zarrs_codec_array_bytes::array_bytes::bytes_in;
use zarrs_codec_array_bytes::array_bytes::step::{Step, element_size, step_of};
use zarrs_data_type::DataType;

// Appends the text of the bytes from one place to another.
fn push_range(text: &mut Vec<u8>, value: &[u8], from: usize, to: usize) -> Result<(), AllocError>
    requires rise { from ≤ to }
    requires within { to ≤ length value.now }
    ensures { OnOk result (text.new.items ≡ text.old.items
        ++ hex_text (take (to - from) (drop from value.now))) }
{
    push_hex(text, &value[from..to])
}

// Appends the text of an element of so many bytes.
fn push_fixed_text(
    text: &mut Vec<u8>,
    value: &[u8],
    size: usize,
    index: usize,
    elements: usize,
) -> Result<(), AllocError>
    requires { IsElementPlace (fixed size) elements (fixed_bytes value.now) index }
    ensures { OnOk result (text.new.items ≡ text.old.items
        ++ text_at (fixed size) elements (fixed_bytes value.now) index) }
{
    let from = index * size;
    push_range(text, value, from, from + size)
}

// Appends the text of an element between offsets.
fn push_variable_text(
    text: &mut Vec<u8>,
    value: &[u8],
    offsets: &[usize],
    index: usize,
    elements: usize,
) -> Result<(), AllocError>
    requires { IsElementPlace variable elements (variable_bytes value.now offsets.now) index }
    ensures { OnOk result (text.new.items ≡ text.old.items
        ++ text_at variable elements (variable_bytes value.now offsets.now) index) }
{
    push_range(text, value, offsets[index], offsets[index + 1])
}

// Appends the text of an element of valid array bytes.
fn push_element_text(
    text: &mut Vec<u8>,
    bytes: &ArrayBytes<'_>,
    data_type: &DataType,
    index: usize,
    elements: usize,
) -> Result<(), AllocError>
    requires { IsElementPlace (kind_seen data_type.now) elements (raw_of bytes.now) index }
    ensures { OnOk result (text.new.items ≡ text.old.items
        ++ text_at (kind_seen data_type.now) elements (raw_of bytes.now) index) }
{
    match (step_of(data_type), bytes) {
        (Step::Fixed(size), ArrayBytes::Fixed(value)) => {
            push_fixed_text(text, bytes_in(value), size, index, elements)
        }
        (Step::Variable, ArrayBytes::Variable(values)) => {
            push_variable_text(text, values.items(), values.numbers(), index, elements)
        }
        (Step::Optional(inner), ArrayBytes::Optional(optional)) => {
            if optional.flags()[index] == 0 {
                text.push(b'-')?;
                return Ok(());
            }
            text.push(b'+')?;
            push_element_text(text, optional.data(), inner, index, elements)
        }
        _ => unreachable!(),
    }
}

// Appends a space and the text of each element of valid array bytes.
fn push_each(
    text: &mut Vec<u8>,
    bytes: &ArrayBytes<'_>,
    data_type: &DataType,
    elements: usize,
) -> Result<(), AllocError>
    requires { IsSome (meaning (kind_seen data_type.now) elements (raw_of bytes.now)) }
    ensures { OnOk result (text.new.items ≡ text.old.items
        ++ elements_text (list_of_kind (kind_seen data_type.now) elements (raw_of bytes.now))) }
{
    for index in 0..elements {
        text.push(b' ')?;
        push_element_text(text, bytes, data_type, index, elements)?;
    }
    Ok(())
}

// How many elements there are, if they are not all of one size.
fn num_elements(bytes: &ArrayBytes<'_>) -> usize
    ensures count { result ≡ count_in (raw_of bytes.now) }
    ensures few { result + 1 < 2 ^ 64 }
{
    match bytes {
        ArrayBytes::Fixed(_) => 0,
        ArrayBytes::Variable(values) => values.numbers().len().saturating_sub(1),
        ArrayBytes::Optional(optional) => optional.flags().len(),
    }
}

// Whether array bytes are valid. They are not where there are more elements than the data have bytes for.
#[tactic(auto, using(crate::proofs::CountLaws::too_many))]
fn are_valid(bytes: &ArrayBytes<'_>, data_type: &DataType, elements: usize) -> bool
    requires { elements + 1 < 2 ^ 64 }
    ensures { result ≡ is_some (meaning (kind_seen data_type.now) elements (raw_of bytes.now)) }
{
    let size = element_size(data_type);
    if size > 0 && elements > bytes.size() / size {
        return false;
    }
    bytes.validate(elements as u64, data_type).is_ok()
}

// The bytes of elements of one size; of others none.
fn fixed_bytes_in<'b>(bytes: &'b ArrayBytes<'_>) -> &'b [u8]
    ensures { result.now ≡ fixed_part (raw_of bytes.now) }
{
    match bytes {
        ArrayBytes::Fixed(value) => bytes_in(value),
        ArrayBytes::Variable(_) | ArrayBytes::Optional(_) => &[],
    }
}

// Appends a space and the text of each element that is not of one size.
fn push_others(
    text: &mut Vec<u8>,
    bytes: &ArrayBytes<'_>,
    data_type: &DataType,
) -> Result<(), AllocError>
    requires { (n : ℕ) → kind_seen data_type.now ≡ fixed n → ⊥ }
    ensures { OnOk result ((list : List Element) →
        meaning (kind_seen data_type.now) (length list) (raw_of bytes.now) ≡ Some list →
        text.new.items ≡ text.old.items ++ elements_text list) }
{
    let elements = num_elements(bytes);
    if are_valid(bytes, data_type, elements) {
        push_each(text, bytes, data_type, elements)?;
    }
    Ok(())
}

/// Appends a space and the text of each element of array bytes that mean a list.
///
/// # Errors
/// [`AllocError`] where memory runs out; the text may then have a part of them.
pub fn push_elements(
    text: &mut Vec<u8>,
    bytes: &ArrayBytes<'_>,
    data_type: &DataType,
) -> Result<(), AllocError>
    requires { (n : ℕ) → kind_seen data_type.now ≡ fixed n → 0 < n }
    ensures { OnOk result ((list : List Element) →
        meaning (kind_seen data_type.now) (length list) (raw_of bytes.now) ≡ Some list →
        text.new.items ≡ text.old.items ++ elements_text list) }
{
    match step_of(data_type) {
        Step::Fixed(size) => push_fixed(text, fixed_bytes_in(bytes), size),
        Step::Variable | Step::Optional(_) => push_others(text, bytes, data_type),
    }
}
