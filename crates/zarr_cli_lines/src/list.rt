//! The elements of a write, with one space between two.

ghost use Rattle.std.specs.Prelude.{◌≡◌, map, IfOk, option_map};
ghost use Rattle.zarr_model.specs.ArrayBytes.{array_bytes};
ghost use Rattle.zarrs_codec_array_bytes.specs.Raw.{raw_of};
ghost use Rattle.zarrs_codec_array_bytes.specs.Steps.{kind_seen};
ghost use Rattle.zarrs_codec_array_bytes_parts.specs.OwnedArrayBytes.{owned_raw};
ghost use Rattle.zarr_cli_lines.specs.ElementText.{all_some, element_of, words_left};

use crate::element::push_element;
use crate::element_parts::cut;
use crate::fixed::parse_fixed;
use crate::growing::no_elements;
use std::alloc::{AllocError, Global};
use zarrs_codec_array_bytes::ArrayBytes;
use zarrs_codec_array_bytes::array_bytes::step::{Step, step_of};
use zarrs_codec_array_bytes_parts::OwnedArrayBytes;
use zarrs_data_type::DataType;

// The elements in a text, if each is one of this type.
#[tactic(auto, using(crate::proofs::PutLaws::puts_kept))]
fn grow_elements(
    alloc: Global,
    text: Option<&str>,
    data_type: &DataType,
) -> Result<Option<OwnedArrayBytes>, AllocError>
    ensures { IfOk result (λ value. option_map owned_raw value
        ≡ option_map (array_bytes (kind_seen data_type.now))
        (all_some (map (element_of (kind_seen data_type.now)) (words_left text.entry)))) }
{
    let mut elements = no_elements(alloc, data_type)?;
    let mut left = text;
    'elements: while let Some(text) = left {
        let (word, rest) = cut(text, ' ');
        if !push_element(&mut elements, data_type, word)? {
            return Ok(None);
        }
        left = rest;
    }
    Ok(Some(elements))
}

// The same, as array bytes.
#[tactic(auto, using(crate::proofs::ListLaws::grown_sound))]
fn parse_others(
    alloc: Global,
    text: Option<&str>,
    data_type: &DataType,
) -> Result<Option<ArrayBytes<'static>>, AllocError>
    ensures { IfOk result (λ value. option_map raw_of value
        ≡ option_map (array_bytes (kind_seen data_type.now))
        (all_some (map (element_of (kind_seen data_type.now)) (words_left text.entry)))) }
{
    match grow_elements(alloc, text, data_type)? {
        Some(elements) => Ok(Some(elements.into_array_bytes(alloc)?)),
        None => Ok(None),
    }
}

/// The array bytes of the elements in a text, if each is one of this data type. No text has no elements.
///
/// # Errors
/// [`AllocError`] where memory runs out.
pub fn parse_elements(
    alloc: Global,
    text: Option<&str>,
    data_type: &DataType,
) -> Result<Option<ArrayBytes<'static>>, AllocError>
    ensures { IfOk result (λ value. option_map raw_of value
        ≡ option_map (array_bytes (kind_seen data_type.now))
        (all_some (map (element_of (kind_seen data_type.now)) (words_left text.entry)))) }
{
    match step_of(data_type) {
        Step::Fixed(size) => Ok(parse_fixed(alloc, text, size)?.map(ArrayBytes::from)),
        Step::Variable | Step::Optional(_) => parse_others(alloc, text, data_type),
    }
}
