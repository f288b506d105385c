//! How a data type supports the codec `bitround`.

ghost use Rattle.std.specs.Prelude.{◌≡◌, ◌<◌, ℕ, List, Option, None};
ghost use Rattle.zarrs_data_type_bytes.specs.Rounding.{elements_rounded};
ghost use Rattle.zarrs_data_type_bytes.specs.CodecSupport.{bitround_size, rounds_as};

use crate::rounding::{round_bytes_int8, round_bytes_int16, round_bytes_int32, round_bytes_int64};

/// The whole numbers of one size, signed or not: both are rounded by their bits alone.
#[derive(Clone, Copy, Debug, PartialEq, Eq)]
pub enum BitroundElementType {
    /// Numbers of one byte.
    Int8,
    /// Numbers of 2 bytes.
    Int16,
    /// Numbers of 4 bytes.
    Int32,
    /// Numbers of 8 bytes.
    Int64,
}

impl BitroundElementType {
    /// The size in bytes.
    pub fn size(&self) -> usize
        ensures { result ≡ bitround_size self.now }
    {
        match self {
            BitroundElementType::Int8 => 1,
            BitroundElementType::Int16 => 2,
            BitroundElementType::Int32 => 4,
            BitroundElementType::Int64 => 8,
        }
    }
}

/// What the codec `bitround` asks of a data type.
pub trait BitroundDataTypeTraits {
    // How many bits a float has behind its exponent; none where elements are whole numbers.
    ghost mantissa: { Self → Option ℕ };
    // The bytes of elements rounded to so many leading digits.
    ghost rounded: { Self → ℕ → List ℕ → List ℕ };

    /// How many bits a float has behind its exponent, and None for whole numbers.
    fn mantissa_bits(&self) -> Option<u32>
        ensures { result ≡ mantissa self.now };

    /// Rounds each whole element to its `keepbits` leading digits; what stands past the last one stays.
    fn round(&self, bytes: &mut [u8], keepbits: u32)
        requires { 0 < keepbits }
        ensures { bytes.new ≡ rounded self.now keepbits bytes.old };
}

/// How a data type of whole numbers supports the codec `bitround`.
#[derive(Clone, Copy, Debug, PartialEq, Eq)]
pub struct BitroundSupport {
    element_type: BitroundElementType,
}

impl BitroundSupport {
    /// The support of a type of such numbers.
    pub fn new(element_type: BitroundElementType) -> Self
        ensures { rounds_as result ≡ element_type }
    {
        BitroundSupport { element_type }
    }

    /// The numbers that are rounded.
    pub fn element_type(&self) -> BitroundElementType
        ensures { result ≡ rounds_as self.now }
    {
        self.element_type
    }
}

impl BitroundDataTypeTraits for BitroundSupport {
    ghost mantissa = { λ _. None };

    ghost rounded = { λ support keep bytes.
        elements_rounded keep (bitround_size (rounds_as support)) bytes };

    fn mantissa_bits(&self) -> Option<u32> {
        None
    }

    fn round(&self, bytes: &mut [u8], keepbits: u32) {
        match self.element_type {
            BitroundElementType::Int8 => round_bytes_int8(bytes, keepbits),
            BitroundElementType::Int16 => round_bytes_int16(bytes, keepbits),
            BitroundElementType::Int32 => round_bytes_int32(bytes, keepbits),
            BitroundElementType::Int64 => round_bytes_int64(bytes, keepbits),
        }
    }
}
