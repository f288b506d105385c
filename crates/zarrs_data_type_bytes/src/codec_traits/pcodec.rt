//! How a data type supports the codec `pcodec`.

ghost use Rattle.std.specs.Prelude.{◌≡◌};
ghost use Rattle.zarrs_data_type_bytes.specs.CodecSupport.{Compressing, pcodec_size, compresses_as};

/// The elements that are compressed.
#[derive(Clone, Copy, Debug, PartialEq, Eq)]
pub enum PcodecElementType {
    /// Unsigned numbers of 16 bits.
    U16,
    /// Unsigned numbers of 32 bits.
    U32,
    /// Unsigned numbers of 64 bits.
    U64,
    /// Signed numbers of 16 bits.
    I16,
    /// Signed numbers of 32 bits.
    I32,
    /// Signed numbers of 64 bits.
    I64,
    /// Floats of 16 bits.
    F16,
    /// Floats of 32 bits.
    F32,
    /// Floats of 64 bits.
    F64,
}

impl PcodecElementType {
    /// The size of an element in bytes.
    pub fn size(&self) -> usize
        ensures { result ≡ pcodec_size self.now }
    {
        match self {
            PcodecElementType::U16 => 2,
            PcodecElementType::I16 => 2,
            PcodecElementType::F16 => 2,
            PcodecElementType::U32 => 4,
            PcodecElementType::I32 => 4,
            PcodecElementType::F32 => 4,
            PcodecElementType::U64 => 8,
            PcodecElementType::I64 => 8,
            PcodecElementType::F64 => 8,
        }
    }
}

/// What the codec `pcodec` asks of a data type.
pub trait PcodecDataTypeTraits {
    // The elements that are compressed, and how many each element of the data type is.
    ghost compresses: { Self → Compressing };

    /// The elements that are compressed.
    fn pcodec_element_type(&self) -> PcodecElementType
        ensures { result ≡ (compresses self.now).element_type };

    /// How many of them each element of the data type is.
    fn pcodec_elements_per_element(&self) -> usize
        ensures { result ≡ (compresses self.now).per_element };
}

/// How a data type supports the codec `pcodec`.
#[derive(Clone, Copy, Debug, PartialEq, Eq)]
pub struct PcodecSupport {
    element_type: PcodecElementType,
    elements_per_element: usize,
}

impl PcodecSupport {
    /// The support of a type each of whose elements is so many of those that are compressed.
    pub fn new(element_type: PcodecElementType, elements_per_element: usize) -> Self
        ensures element { (compresses_as result).element_type ≡ element_type }
        ensures per_element { (compresses_as result).per_element ≡ elements_per_element }
    {
        PcodecSupport {
            element_type,
            elements_per_element,
        }
    }
}

impl PcodecDataTypeTraits for PcodecSupport {
    ghost compresses = { compresses_as };

    fn pcodec_element_type(&self) -> PcodecElementType {
        self.element_type
    }

    fn pcodec_elements_per_element(&self) -> usize {
        self.elements_per_element
    }
}
