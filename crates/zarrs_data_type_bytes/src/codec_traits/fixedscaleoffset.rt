//! How a data type supports the codec `fixedscaleoffset`.

ghost use Rattle.std.specs.Prelude.{◌≡◌};
ghost use Rattle.zarrs_data_type_bytes.specs.CodecSupport.{scaled_size, scaled_float, scales_as};

/// The elements that are scaled.
#[derive(Clone, Copy, Debug, PartialEq, Eq)]
pub enum FixedScaleOffsetElementType {
    /// Signed numbers of 8 bits.
    I8,
    /// Signed numbers of 16 bits.
    I16,
    /// Signed numbers of 32 bits.
    I32,
    /// Signed numbers of 64 bits.
    I64,
    /// Unsigned numbers of 8 bits.
    U8,
    /// Unsigned numbers of 16 bits.
    U16,
    /// Unsigned numbers of 32 bits.
    U32,
    /// Unsigned numbers of 64 bits.
    U64,
    /// Floats of 32 bits.
    F32,
    /// Floats of 64 bits.
    F64,
}

/// The float in which elements are scaled.
#[derive(Clone, Copy, Debug, PartialEq, Eq)]
pub enum FixedScaleOffsetFloatType {
    /// A float of 32 bits.
    F32,
    /// A float of 64 bits.
    F64,
}

impl FixedScaleOffsetElementType {
    /// The size of an element in bytes.
    pub fn size(&self) -> usize
        ensures { result ≡ scaled_size self.now }
    {
        match self {
            FixedScaleOffsetElementType::I8 => 1,
            FixedScaleOffsetElementType::U8 => 1,
            FixedScaleOffsetElementType::I16 => 2,
            FixedScaleOffsetElementType::U16 => 2,
            FixedScaleOffsetElementType::I32 => 4,
            FixedScaleOffsetElementType::U32 => 4,
            FixedScaleOffsetElementType::F32 => 4,
            FixedScaleOffsetElementType::I64 => 8,
            FixedScaleOffsetElementType::U64 => 8,
            FixedScaleOffsetElementType::F64 => 8,
        }
    }

    /// The float in which such elements are scaled: that of 32 bits for elements that it holds exactly.
    pub fn intermediate_float(&self) -> FixedScaleOffsetFloatType
        ensures { result ≡ scaled_float self.now }
    {
        match self {
            FixedScaleOffsetElementType::I8 => FixedScaleOffsetFloatType::F32,
            FixedScaleOffsetElementType::U8 => FixedScaleOffsetFloatType::F32,
            FixedScaleOffsetElementType::I16 => FixedScaleOffsetFloatType::F32,
            FixedScaleOffsetElementType::U16 => FixedScaleOffsetFloatType::F32,
            FixedScaleOffsetElementType::F32 => FixedScaleOffsetFloatType::F32,
            _ => FixedScaleOffsetFloatType::F64,
        }
    }
}

/// What the codec `fixedscaleoffset` asks of a data type.
pub trait FixedScaleOffsetDataTypeTraits {
    ghost use Rattle.zarrs_data_type_bytes.specs.declared.codec_traits.fixedscaleoffset.FixedScaleOffsetElementType.{FixedScaleOffsetElementType};

    // The elements that are scaled.
    ghost scales: { Self → FixedScaleOffsetElementType };

    /// The elements that are scaled.
    fn fixedscaleoffset_element_type(&self) -> FixedScaleOffsetElementType
        ensures { result ≡ scales self.now };
}

/// How a data type supports the codec `fixedscaleoffset`.
#[derive(Clone, Copy, Debug, PartialEq, Eq)]
pub struct FixedScaleOffsetSupport {
    element_type: FixedScaleOffsetElementType,
}

impl FixedScaleOffsetSupport {
    /// The support of a type of such elements.
    pub fn new(element_type: FixedScaleOffsetElementType) -> Self
        ensures { scales_as result ≡ element_type }
    {
        FixedScaleOffsetSupport { element_type }
    }
}

impl FixedScaleOffsetDataTypeTraits for FixedScaleOffsetSupport {
    ghost scales = { scales_as };

    fn fixedscaleoffset_element_type(&self) -> FixedScaleOffsetElementType {
        self.element_type
    }
}
