//! Elements that are put together one after another.

ghost use Rattle.std.specs.Prelude.{◌≡◌, [], None, IfOk, OnOk};
ghost use Rattle.zarr_model.specs.Element.{blank};
ghost use Rattle.zarr_model.specs.ArrayBytes.{array_bytes};
ghost use Rattle.zarrs_codec_array_bytes.specs.Refusals.{kind_refusal};
ghost use Rattle.zarrs_codec_array_bytes.specs.Steps.{kind_seen};
ghost use Rattle.zarrs_codec_array_bytes_parts.specs.OwnedArrayBytes.{owned_raw};
ghost use Rattle.zarr_cli_lines.specs.Put.{put_element};

use std::alloc::{AllocError, Global};
use zarrs_codec_array_bytes::array_bytes::step::{Step, step_of};
use zarrs_codec_array_bytes_parts::OwnedArrayBytes;
use zarrs_data_type::DataType;

/// No elements of a data type.
pub(crate) fn no_elements(
    alloc: Global,
    data_type: &DataType,
) -> Result<OwnedArrayBytes, AllocError>
    ensures { IfOk result (λ none. owned_raw none ≡ array_bytes (kind_seen data_type.now) []) }
{
    match step_of(data_type) {
        Step::Fixed(_) => Ok(OwnedArrayBytes::Fixed(Vec::new(alloc))),
        Step::Variable => {
            let mut offsets = Vec::new(alloc);
            offsets.push(0)?;
            Ok(OwnedArrayBytes::Variable(Vec::new(alloc), offsets))
        }
        Step::Optional(inner) => {
            let under = no_elements(alloc, inner)?;
            let under = Box::new(alloc, under)?;
            Ok(OwnedArrayBytes::Optional(under, Vec::new(alloc)))
        }
    }
}

/// Appends the element that stands under a null.
pub(crate) fn push_blank(into: &mut OwnedArrayBytes, data_type: &DataType) -> Result<(), AllocError>
    requires { kind_refusal (kind_seen data_type.now) (owned_raw into.old) ≡ None }
    ensures { OnOk result (owned_raw into.new ≡ put_element (kind_seen data_type.now)
        (blank (kind_seen data_type.now)) (owned_raw into.old)) }
{
    match (step_of(data_type), into) {
        (Step::Fixed(size), OwnedArrayBytes::Fixed(value)) => {
            let Some(all) = value.len().checked_add(size) else {
                return Err(AllocError);
            };
            value.resize(all, 0)
        }
        (Step::Variable, OwnedArrayBytes::Variable(value, offsets)) => {
            offsets.push(value.len())?;
            Ok(())
        }
        (Step::Optional(inner), OwnedArrayBytes::Optional(under, mask)) => {
            push_blank(under, inner)?;
            mask.push(0)?;
            Ok(())
        }
        _ => unreachable!(),
    }
}
