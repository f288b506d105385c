//! The data types of version 2 arrays that are translated.

ghost use Rattle.std.specs.Prelude.{◌≡◌};
ghost use Rattle.zarrs_metadata_parts.specs.DataTypeV2.{data_type_v2_seen};
ghost use Rattle.zarrs_data_type.specs.DataType.{type_of};
ghost use Rattle.zarr_v2.specs.ElementType.{element_type, type_text, lettered, numbered, marked, ordered_type, element_of_text, stored_type_of};

use zarrs_data_type::DataType;
use zarrs_metadata_parts::{DataTypeMetadataV2, Endianness};

/// A type of elements that both versions have.
#[derive(Clone, Copy, Debug, PartialEq, Eq)]
pub enum ElementType {
    /// A boolean.
    Bool,
    /// A whole number of one byte.
    Int8,
    /// A whole number of two bytes.
    Int16,
    /// A whole number of four bytes.
    Int32,
    /// A whole number of eight bytes.
    Int64,
    /// A whole number of one byte that is not negative.
    UInt8,
    /// A whole number of two bytes that is not negative.
    UInt16,
    /// A whole number of four bytes that is not negative.
    UInt32,
    /// A whole number of eight bytes that is not negative.
    UInt64,
}

/// A type of elements, with the order of their bytes where they have several.
#[derive(Clone, Copy, Debug, PartialEq, Eq)]
pub struct StoredType {
    pub(crate) element: ElementType,
    pub(crate) order: Option<Endianness>,
}

impl ElementType {
    /// The data type.
    pub(crate) fn data_type(self) -> DataType
        ensures { type_of result ≡ element_type self }
    {
        match self {
            ElementType::Bool => DataType::Bool,
            ElementType::Int8 => DataType::Int8,
            ElementType::Int16 => DataType::Int16,
            ElementType::Int32 => DataType::Int32,
            ElementType::Int64 => DataType::Int64,
            ElementType::UInt8 => DataType::UInt8,
            ElementType::UInt16 => DataType::UInt16,
            ElementType::UInt32 => DataType::UInt32,
            ElementType::UInt64 => DataType::UInt64,
        }
    }

    /// Its name in documents of version 3.
    pub(crate) fn name(self) -> &'static str
        ensures { result.now ≡ type_text self }
    {
        match self {
            ElementType::Bool => "bool",
            ElementType::Int8 => "int8",
            ElementType::Int16 => "int16",
            ElementType::Int32 => "int32",
            ElementType::Int64 => "int64",
            ElementType::UInt8 => "uint8",
            ElementType::UInt16 => "uint16",
            ElementType::UInt32 => "uint32",
            ElementType::UInt64 => "uint64",
        }
    }
}

// The signed or other type of so many bytes, where the digit says them.
fn numbered(signed: bool, digit: u8) -> Option<ElementType>
    ensures { result ≡ numbered signed digit }
{
    match (signed, digit) {
        (true, b'1') => Some(ElementType::Int8),
        (true, b'2') => Some(ElementType::Int16),
        (true, b'4') => Some(ElementType::Int32),
        (true, b'8') => Some(ElementType::Int64),
        (false, b'1') => Some(ElementType::UInt8),
        (false, b'2') => Some(ElementType::UInt16),
        (false, b'4') => Some(ElementType::UInt32),
        (false, b'8') => Some(ElementType::UInt64),
        _ => None,
    }
}

// The type of a letter and a digit.
fn lettered(letter: u8, digit: u8) -> Option<ElementType>
    ensures { result ≡ lettered letter digit }
{
    match letter {
        b'b' => {
            if digit == b'1' {
                Some(ElementType::Bool)
            } else {
                None
            }
        }
        b'i' => numbered(true, digit),
        b'u' => numbered(false, digit),
        _ => None,
    }
}

// A type with the order that a mark says: that of a type of one byte is none, and one of several bytes has one.
fn ordered(element: ElementType, mark: Option<Endianness>) -> Option<StoredType>
    ensures { result ≡ ordered_type element mark }
{
    match element {
        ElementType::Bool | ElementType::Int8 | ElementType::UInt8 => Some(StoredType {
            element,
            order: None,
        }),
        _ => match mark {
            Some(order) => Some(StoredType {
                element,
                order: Some(order),
            }),
            None => None,
        },
    }
}

// A type with the mark before it, if it is one of the three.
fn marked(mark: u8, element: ElementType) -> Option<StoredType>
    ensures { result ≡ marked mark element }
{
    match mark {
        b'|' => ordered(element, None),
        b'<' => ordered(element, Some(Endianness::Little)),
        b'>' => ordered(element, Some(Endianness::Big)),
        _ => None,
    }
}

// The type that a text says.
fn element_of_text(text: &str) -> Option<StoredType>
    ensures { result ≡ element_of_text text.now }
{
    match text.as_bytes() {
        [mark, letter, digit] => match lettered(*letter, *digit) {
            Some(element) => marked(*mark, element),
            None => None,
        },
        _ => None,
    }
}

/// The type of elements that a data type says, if it can be translated.
pub(crate) fn element_of(data_type: &DataTypeMetadataV2) -> Option<StoredType>
    ensures { result ≡ stored_type_of (data_type_v2_seen data_type.now) }
{
    match data_type {
        DataTypeMetadataV2::Simple(text) => element_of_text(text.as_str()),
        DataTypeMetadataV2::Structured(_) => None,
    }
}
