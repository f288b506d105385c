//! Whether fill values denote elements.

ghost use Rattle.std.specs.Prelude.{◌≡◌, ◌-◌, ◌<◌, is_some, None, IsSome, IfOk, IfErr, OnErr};
ghost use Rattle.zarrs_codec_traits.specs.Prelude.{fill_element, fill_bytes, kind_seen, told_by};
ghost use Rattle.zarrs_codec_traits.specs.Prelude.{other_fill};

use zarrs_codec_array_bytes::array_bytes::step::{Step, step_of};
use zarrs_codec_error::CodecError;
use zarrs_data_type::DataType;
use zarrs_data_type_bytes::{DataTypeFillValueError, FillValue, ends_in_zero};

// Whether the bytes of a fill value denote an element.
#[tactic(auto, using(crate::proofs::DenotesLaws::no_bytes, crate::proofs::DenotesLaws::null_bytes, crate::proofs::DenotesLaws::some_bytes))]
fn denotes(data_type: &DataType, fill: &[u8]) -> bool
    ensures { result ≡ is_some (fill_element (kind_seen data_type.now) fill.now) }
{
    match step_of(data_type) {
        Step::Fixed(size) => fill.len() == size,
        Step::Variable => true,
        Step::Optional(inner) => {
            if fill.is_empty() {
                return false;
            }
            if ends_in_zero(fill) {
                return true;
            }
            denotes(inner, &fill[..fill.len() - 1])
        }
    }
}

/// Whether a fill value denotes an element of a data type.
pub fn is_denoted(data_type: &DataType, fill_value: &FillValue) -> bool
    ensures { result
        ≡ is_some (fill_element (kind_seen data_type.now) (fill_bytes fill_value.now)) }
{
    denotes(data_type, fill_value.as_ne_bytes())
}

/// Tests that a fill value denotes an element of a data type. One of an optional type may have the size of its type and
/// denote none, as it has no last byte.
///
/// # Errors
/// [`CodecError::DataTypeFillValueError`] exactly where it denotes none.
#[tactic(auto, using(crate::proofs::DenotesLaws::some_denoted, crate::proofs::DenotesLaws::none_denoted))]
pub fn expect_denoted(data_type: &DataType, fill_value: &FillValue) -> Result<(), CodecError>
    ensures denotes { IfOk result (λ _. IsSome
        (fill_element (kind_seen data_type.now) (fill_bytes fill_value.now))) }
    ensures refused { OnErr result
        (fill_element (kind_seen data_type.now) (fill_bytes fill_value.now) ≡ None) }
    ensures told { IfErr result (λ e. told_by e ≡ other_fill) }
{
    if is_denoted(data_type, fill_value) {
        return Ok(());
    }
    Err(CodecError::DataTypeFillValueError(DataTypeFillValueError))
}
