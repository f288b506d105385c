//! The data types of elements.
//!
//! See <https://zarr-specs.readthedocs.io/en/latest/v3/core/index.html#data-types>.

ghost use Rattle.std.specs.Prelude.{◌≡◌, IfOk, is_some, not, option_map};
ghost use Rattle.zarr_model.specs.Element.{optional_type};
ghost use Rattle.zarrs_data_type.specs.DataType.{type_of, size_of, is_optional_type, inner_type_of, same_type};

mod codecs;
pub mod create;
pub mod kind;
pub mod naming;
pub mod size;

use std::alloc::{AllocError, Global};

/// A data type.
#[derive(Debug, Drop)]
pub enum DataType {
    /// A boolean, one byte.
    Bool,
    /// A signed whole number of one byte.
    Int8,
    /// A signed whole number of 2 bytes.
    Int16,
    /// A signed whole number of 4 bytes.
    Int32,
    /// A signed whole number of 8 bytes.
    Int64,
    /// An unsigned whole number of one byte.
    UInt8,
    /// An unsigned whole number of 2 bytes.
    UInt16,
    /// An unsigned whole number of 4 bytes.
    UInt32,
    /// An unsigned whole number of 8 bytes.
    UInt64,
    /// So many raw bytes, at least one.
    RawBits(usize),
    /// A text of any length.
    String,
    /// Bytes of any length.
    Bytes,
    /// Null, or some of an element of another type.
    Optional(Box<DataType>),
}

impl DataType {
    /// The size of the elements in bytes, if all have the same; of an optional type that of the type inside.
    pub fn fixed_size(&self) -> Option<usize>
        ensures { result ≡ size_of (type_of self.now) }
    {
        match self {
            DataType::Bool => Some(1),
            DataType::Int8 => Some(1),
            DataType::Int16 => Some(2),
            DataType::Int32 => Some(4),
            DataType::Int64 => Some(8),
            DataType::UInt8 => Some(1),
            DataType::UInt16 => Some(2),
            DataType::UInt32 => Some(4),
            DataType::UInt64 => Some(8),
            DataType::RawBits(size) => Some(*size),
            DataType::String => None,
            DataType::Bytes => None,
            DataType::Optional(inner) => inner.fixed_size(),
        }
    }

    /// Whether all elements have one size.
    pub fn is_fixed(&self) -> bool
        ensures { result ≡ is_some (size_of (type_of self.now)) }
    {
        self.fixed_size().is_some()
    }

    /// Whether the elements differ in size.
    pub fn is_variable(&self) -> bool
        ensures { result ≡ not (is_some (size_of (type_of self.now))) }
    {
        self.fixed_size().is_none()
    }

    /// Whether elements may be null.
    pub fn is_optional(&self) -> bool
        ensures { result ≡ is_optional_type (type_of self.now) }
    {
        match self {
            DataType::Optional(_) => true,
            _ => false,
        }
    }

    /// The type inside an optional one.
    pub fn optional_inner(&self) -> Option<&DataType>
        ensures { option_map (λ inner. type_of inner.now) result ≡ inner_type_of (type_of self.now) }
    {
        match self {
            DataType::Optional(inner) => Some(inner),
            _ => None,
        }
    }

    /// The optional type over a copy of this one.
    ///
    /// # Errors
    /// [`AllocError`] where memory runs out.
    pub fn to_optional(&self, alloc: Global) -> Result<DataType, AllocError>
        ensures { IfOk result (λ t. type_of t ≡ optional_type (type_of self.now)) }
    {
        let inner = self.try_clone(alloc)?;
        Ok(DataType::Optional(Box::new(alloc, inner)?))
    }

    /// A copy.
    ///
    /// # Errors
    /// [`AllocError`] where memory runs out.
    pub fn try_clone(&self, alloc: Global) -> Result<DataType, AllocError>
        ensures { IfOk result (λ copy. type_of copy ≡ type_of self.now) }
    {
        match self {
            DataType::Bool => Ok(DataType::Bool),
            DataType::Int8 => Ok(DataType::Int8),
            DataType::Int16 => Ok(DataType::Int16),
            DataType::Int32 => Ok(DataType::Int32),
            DataType::Int64 => Ok(DataType::Int64),
            DataType::UInt8 => Ok(DataType::UInt8),
            DataType::UInt16 => Ok(DataType::UInt16),
            DataType::UInt32 => Ok(DataType::UInt32),
            DataType::UInt64 => Ok(DataType::UInt64),
            DataType::RawBits(size) => Ok(DataType::RawBits(*size)),
            DataType::String => Ok(DataType::String),
            DataType::Bytes => Ok(DataType::Bytes),
            DataType::Optional(inner) => {
                let inner = inner.try_clone(alloc)?;
                Ok(DataType::Optional(Box::new(alloc, inner)?))
            }
        }
    }
}

// Whether two types are the same.
fn is_same(data_type: &DataType, other: &DataType) -> bool
    ensures { result ≡ same_type (type_of data_type.now) (type_of other.now) }
{
    match (data_type, other) {
        (DataType::Bool, DataType::Bool) => true,
        (DataType::Int8, DataType::Int8) => true,
        (DataType::Int16, DataType::Int16) => true,
        (DataType::Int32, DataType::Int32) => true,
        (DataType::Int64, DataType::Int64) => true,
        (DataType::UInt8, DataType::UInt8) => true,
        (DataType::UInt16, DataType::UInt16) => true,
        (DataType::UInt32, DataType::UInt32) => true,
        (DataType::UInt64, DataType::UInt64) => true,
        (DataType::RawBits(size), DataType::RawBits(other_size)) => *size == *other_size,
        (DataType::String, DataType::String) => true,
        (DataType::Bytes, DataType::Bytes) => true,
        (DataType::Optional(inner), DataType::Optional(other_inner)) => is_same(inner, other_inner),
        _ => false,
    }
}

// Types are equal where they are one variant with equal contents, wherever an inner type lies in memory.
impl PartialEq for DataType {
    ghost use Rattle.std.specs.Cmp.{on_per};
    ghost use Rattle.std.specs.Ordering.{on};
    ghost use Rattle.zarrs_data_type.specs.SameType.{same_type_per};

    ghost eq = { on type_of same_type };

    ghost laws = { on_per type_of same_type_per };

    fn eq(&self, other: &Self) -> bool {
        is_same(self, other)
    }
}
