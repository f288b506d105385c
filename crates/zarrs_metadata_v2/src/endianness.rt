//! The byte order of a version 2 data type.
//!
//! See <https://zarr-specs.readthedocs.io/en/latest/v2/v2.0.html#data-type-encoding>.

ghost use Rattle.std.specs.Prelude.{◌≡◌};
ghost use Rattle.zarrs_metadata_parts.specs.DataTypeV2.{data_type_v2_seen};
ghost use Rattle.zarrs_metadata_v2.specs.EndiannessV2.{if_ok, endianness_v2, order_of_text, order_of_byte};

use zarr_model::Endianness;
use zarrs_metadata_parts::{DataTypeMetadataV2, DataTypeMetadataV2EndiannessError};

/// The byte order of a version 2 data type, and [`None`] where its elements have none: what it begins with, `<` for
/// little, `>` for big, `|` for none.
///
/// # Errors
/// Exactly where the type has fields, or begins with none of the three.
pub fn data_type_metadata_v2_to_endianness(
    data_type: &DataTypeMetadataV2,
) -> Result<Option<Endianness>, DataTypeMetadataV2EndiannessError>
    ensures { if_ok result ≡ endianness_v2 (data_type_v2_seen data_type.now) }
{
    match data_type {
        DataTypeMetadataV2::Simple(text) => order_of_text(text.as_str()),
        DataTypeMetadataV2::Structured(_) => Err(DataTypeMetadataV2EndiannessError),
    }
}

fn order_of_text(text: &str) -> Result<Option<Endianness>, DataTypeMetadataV2EndiannessError>
    ensures { if_ok result ≡ order_of_text text.now }
{
    match text.as_bytes() {
        [] => Err(DataTypeMetadataV2EndiannessError),
        [first, ..] => order_of_byte(*first),
    }
}

fn order_of_byte(byte: u8) -> Result<Option<Endianness>, DataTypeMetadataV2EndiannessError>
    ensures { if_ok result ≡ order_of_byte byte }
{
    match byte {
        b'|' => Ok(None),
        b'<' => Ok(Some(Endianness::Little)),
        b'>' => Ok(Some(Endianness::Big)),
        _ => Err(DataTypeMetadataV2EndiannessError),
    }
}
