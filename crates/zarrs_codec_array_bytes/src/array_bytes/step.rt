//! What the elements of a data type are, level by level.

ghost use Rattle.std.specs.Prelude.{◌≡◌, ◌<◌};
ghost use Rattle.zarrs_codec_slices.specs.Picking.{size_in};
ghost use Rattle.zarrs_codec_array_bytes.specs.Steps.{kind_seen, bytes_seen, step_kind, depth, IfInner};
ghost use Rattle.zarr_model.specs.DataTypeSize.{size_seen};

use zarr_model::DataTypeSize;
use zarrs_data_type::DataType;

/// The outermost level of a data type.
pub enum Step<'t> {
    /// Elements of so many bytes.
    Fixed(usize),
    /// Elements of any size.
    Variable,
    /// Optional elements over those of an inner type.
    Optional(&'t DataType),
}

/// The outermost level of a data type.
pub fn step_of(data_type: &DataType) -> Step<'_>
    ensures kind { step_kind result ≡ kind_seen data_type.now }
    ensures less { IfInner result
        (λ inner. depth (kind_seen inner) < depth (kind_seen data_type.now)) }
{
    match data_type {
        DataType::Bool => Step::Fixed(1),
        DataType::Int8 => Step::Fixed(1),
        DataType::Int16 => Step::Fixed(2),
        DataType::Int32 => Step::Fixed(4),
        DataType::Int64 => Step::Fixed(8),
        DataType::UInt8 => Step::Fixed(1),
        DataType::UInt16 => Step::Fixed(2),
        DataType::UInt32 => Step::Fixed(4),
        DataType::UInt64 => Step::Fixed(8),
        DataType::RawBits(size) => Step::Fixed(*size),
        DataType::String => Step::Variable,
        DataType::Bytes => Step::Variable,
        DataType::Optional(inner) => Step::Optional(inner),
    }
}

/// The size of the innermost elements of a data type, 0 where they differ in size.
pub fn element_size(data_type: &DataType) -> usize
    ensures { result ≡ bytes_seen data_type.now }
{
    match data_type.fixed_size() {
        Some(size) => size,
        None => 0,
    }
}

/// The same of a size.
pub fn size_bytes(data_type_size: DataTypeSize) -> usize
    ensures { result ≡ size_in (size_seen data_type_size) }
{
    match data_type_size {
        DataTypeSize::Fixed(size) => size,
        DataTypeSize::Variable => 0,
    }
}
