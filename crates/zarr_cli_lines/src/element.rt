//! One element of a line.

ghost use Rattle.std.specs.Prelude.{◌≡◌, None, IfOk};
ghost use Rattle.zarr_model.specs.Element.{fixed, variable, optional};
ghost use Rattle.zarr_model.specs.ArrayBytes.{fixed_bytes, variable_bytes, optional_bytes};
ghost use Rattle.zarrs_codec_array_bytes.specs.Refusals.{kind_refusal};
ghost use Rattle.zarrs_codec_array_bytes.specs.Steps.{kind_seen};
ghost use Rattle.zarrs_codec_array_bytes_parts.specs.OwnedArrayBytes.{owned_raw};
ghost use Rattle.zarr_cli_lines.specs.ElementText.{element_of};
ghost use Rattle.zarr_cli_lines.specs.Put.{PutsElement};

use crate::digits::push_parsed;
use crate::growing::push_blank;
use std::alloc::AllocError;
use zarrs_codec_array_bytes::array_bytes::step::{Step, step_of};
use zarrs_codec_array_bytes_parts::OwnedArrayBytes;
use zarrs_data_type::DataType;

// Appends the element of a text of a fixed kind, if it is one.
#[tactic(auto, using(crate::proofs::PutLaws::fixed_pushed, crate::proofs::PutLaws::fixed_other))]
fn push_fixed(value: &mut Vec<u8>, size: usize, text: &str) -> Result<bool, AllocError>
    ensures { IfOk result (λ put. PutsElement (fixed size) (element_of (fixed size) text.now) put
        (fixed_bytes value.old.items) (fixed_bytes value.new.items)) }
{
    if text.len() / 2 != size {
        return Ok(false);
    }
    push_parsed(value, text)
}

// Appends the element of a text of a variable kind, if it is one.
#[tactic(auto, using(crate::proofs::PutLaws::variable_put, crate::proofs::PutLaws::variable_none))]
fn push_variable(
    value: &mut Vec<u8>,
    offsets: &mut Vec<usize>,
    text: &str,
) -> Result<bool, AllocError>
    ensures { IfOk result (λ put. PutsElement variable (element_of variable text.now) put
        (variable_bytes value.old.items offsets.old.items)
        (variable_bytes value.new.items offsets.new.items)) }
{
    if !push_parsed(value, text)? {
        return Ok(false);
    }
    offsets.push(value.len())?;
    Ok(true)
}

// Appends the element of a text of an optional kind, if it is one.
#[cycle(push)]
#[tactic(auto, using(crate::proofs::PutLaws::null_put, crate::proofs::PutLaws::optional_none, crate::proofs::PutLaws::some_put, crate::proofs::PutLaws::some_none))]
fn push_optional(
    under: &mut OwnedArrayBytes,
    mask: &mut Vec<u8>,
    inner: &DataType,
    text: &str,
) -> Result<bool, AllocError>
    requires { kind_refusal (kind_seen inner.now) (owned_raw under.old) ≡ None }
    ensures { IfOk result (λ put. PutsElement (optional (kind_seen inner.now))
        (element_of (optional (kind_seen inner.now)) text.now) put
        (optional_bytes (owned_raw under.old) mask.old.items)
        (optional_bytes (owned_raw under.new) mask.new.items)) }
{
    if text == "-" {
        push_blank(under, inner)?;
        mask.push(0)?;
        return Ok(true);
    }
    let Some(held) = text.strip_prefix('+') else {
        return Ok(false);
    };
    if !push_element(under, inner, held)? {
        return Ok(false);
    }
    mask.push(1)?;
    Ok(true)
}

/// Appends the element of a text, if the text is one of the data type. Else the elements may have a part of it.
///
/// An error comes only for want of memory.
#[cycle(push)]
pub(crate) fn push_element(
    into: &mut OwnedArrayBytes,
    data_type: &DataType,
    text: &str,
) -> Result<bool, AllocError>
    requires { kind_refusal (kind_seen data_type.now) (owned_raw into.old) ≡ None }
    ensures { IfOk result (λ put. PutsElement (kind_seen data_type.now)
        (element_of (kind_seen data_type.now) text.now) put (owned_raw into.old)
        (owned_raw into.new)) }
{
    match (step_of(data_type), into) {
        (Step::Fixed(size), OwnedArrayBytes::Fixed(value)) => push_fixed(value, size, text),
        (Step::Variable, OwnedArrayBytes::Variable(value, offsets)) => {
            push_variable(value, offsets, text)
        }
        (Step::Optional(inner), OwnedArrayBytes::Optional(under, mask)) => {
            push_optional(under, mask, inner, text)
        }
        _ => unreachable!(),
    }
}
