//! Whether a fill value is an element of a data type.

ghost use Rattle.std.specs.Prelude.{◌≡◌, true, IfOk};
ghost use Rattle.zarrs_codec_traits.specs.Prelude.{fill_bytes, type_of, is_type};
ghost use Rattle.zarr_array_open.specs.Parts.{Opens};
ghost use Rattle.zarr_array_open.specs.ShardOpening.{is_element, expect_element};

use crate::OpenError;
use zarrs_codec_partial_elements::fill::is_denoted;
use zarrs_data_type::DataType;
use zarrs_data_type_bytes::FillValue;

// Whether raw bits are at least one byte.
fn is_type(data_type: &DataType) -> bool
    ensures { result ≡ is_type (type_of data_type.now) }
{
    match data_type {
        DataType::RawBits(size) => 1 <= *size,
        DataType::Optional(inner) => is_type(inner),
        _ => true,
    }
}

// Whether a fill value is an element of a data type.
fn is_element(data_type: &DataType, fill: &FillValue) -> bool
    ensures { result ≡ is_element (type_of data_type.now) (fill_bytes fill.now) }
{
    is_type(data_type) && is_denoted(data_type, fill)
}

/// That a fill value is an element of a data type.
///
/// # Errors
/// `DataTypeFillValueMetadataError` exactly where it is none.
pub(crate) fn expect_element(data_type: &DataType, fill: &FillValue) -> Result<(), OpenError>
    ensures expected { Opens (λ _. tt) result
        (expect_element (type_of data_type.now) (fill_bytes fill.now)) }
    ensures element { IfOk result (λ _.
        is_element (type_of data_type.now) (fill_bytes fill.now) ≡ true) }
{
    if is_element(data_type, fill) {
        Ok(())
    } else {
        Err(OpenError::DataTypeFillValueMetadataError)
    }
}
