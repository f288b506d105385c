//! Optional types, as borrows of the type inside.

ghost use Rattle.std.specs.Prelude.{◌≡◌, ◌-◌, length, take, option_map};
ghost use Rattle.zarrs_data_type_bytes.specs.FillValue.{fill_bytes};
ghost use Rattle.zarrs_data_type_bytes.specs.Pieces.{ends_in_zero};
ghost use Rattle.zarrs_data_type.specs.DataType.{type_of, inner_type_of};
ghost use Rattle.zarrs_data_type.specs.OptionalRef.{inner_ref_type};

use crate::data_type::DataType;
use zarrs_data_type_bytes::FillValue;

/// An optional type, as a borrow of the type inside.
#[derive(Clone, Copy)]
pub struct OptionalRef<'a> {
    inner: &'a DataType,
}

impl<'a> OptionalRef<'a> {
    /// The type inside.
    pub fn data_type(&self) -> &'a DataType
        ensures { type_of result.now ≡ inner_ref_type self.now }
    {
        self.inner
    }

    /// Whether a fill value of this type is null, which is so exactly where its last byte is 0.
    pub fn is_fill_value_null(&self, fill_value: &FillValue) -> bool
        ensures { result ≡ ends_in_zero (fill_bytes fill_value.now) }
    {
        fill_value.is_optional_null()
    }

    /// The bytes of a fill value without the last, and none where there are none.
    pub fn fill_value_inner_bytes<'f>(&self, fill_value: &'f FillValue) -> &'f [u8]
        ensures { result.now
            ≡ take (length (fill_bytes fill_value.now) - 1) (fill_bytes fill_value.now) }
    {
        fill_value.inner_bytes()
    }
}

impl DataType {
    /// The type as an optional one, where it is one.
    pub fn as_optional(&self) -> Option<OptionalRef<'_>>
        ensures { option_map inner_ref_type result ≡ inner_type_of (type_of self.now) }
    {
        match self {
            DataType::Optional(inner) => Some(OptionalRef { inner }),
            _ => None,
        }
    }
}
