//! The size of a data type's elements.

ghost use Rattle.std.specs.Prelude.{◌≡◌};
ghost use Rattle.zarrs_data_type.specs.DataType.{type_of, size_of};
ghost use Rattle.zarr_model.specs.DataTypeSize.{size_seen};

use crate::data_type::DataType;
use zarr_model::DataTypeSize;

/// The size of the elements of a data type.
pub fn type_size(data_type: &DataType) -> DataTypeSize
    ensures { size_seen result ≡ size_of (type_of data_type.now) }
{
    match data_type.fixed_size() {
        Some(size) => DataTypeSize::Fixed(size),
        None => DataTypeSize::Variable,
    }
}
