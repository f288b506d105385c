//! How a data type supports the codec `zfp`.

ghost use Rattle.std.specs.Prelude.{◌≡◌};
ghost use Rattle.zarrs_data_type_bytes.specs.CodecSupport.{zfp_native, encodes_as};

/// The numbers that zfp itself compresses.
#[derive(Clone, Copy, Debug, PartialEq, Eq)]
pub enum ZfpNativeType {
    /// Signed numbers of 32 bits.
    Int32,
    /// Signed numbers of 64 bits.
    Int64,
    /// Floats of 32 bits.
    Float,
    /// Floats of 64 bits.
    Double,
}

/// The elements of a data type, which are brought into a native type.
#[derive(Clone, Copy, Debug, PartialEq, Eq)]
pub enum ZfpEncoding {
    /// Signed numbers of 8 bits.
    Int8,
    /// Signed numbers of 16 bits.
    Int16,
    /// Signed numbers of 32 bits.
    Int32,
    /// Signed numbers of 64 bits.
    Int64,
    /// Unsigned numbers of 8 bits.
    UInt8,
    /// Unsigned numbers of 16 bits.
    UInt16,
    /// Unsigned numbers of 32 bits.
    UInt32,
    /// Unsigned numbers of 64 bits.
    UInt64,
    /// Floats of 32 bits.
    Float32,
    /// Floats of 64 bits.
    Float64,
}

impl ZfpEncoding {
    /// The native type that such elements are brought into.
    pub fn native_type(self) -> ZfpNativeType
        ensures { result ≡ zfp_native self }
    {
        match self {
            ZfpEncoding::Int64 => ZfpNativeType::Int64,
            ZfpEncoding::UInt64 => ZfpNativeType::Int64,
            ZfpEncoding::Float32 => ZfpNativeType::Float,
            ZfpEncoding::Float64 => ZfpNativeType::Double,
            _ => ZfpNativeType::Int32,
        }
    }
}

/// What the codec `zfp` asks of a data type.
pub trait ZfpDataTypeTraits {
    ghost use Rattle.zarrs_data_type_bytes.specs.declared.codec_traits.zfp.ZfpEncoding.{ZfpEncoding};

    // The elements that are compressed.
    ghost encodes: { Self → ZfpEncoding };

    /// The elements that are compressed.
    fn zfp_encoding(&self) -> ZfpEncoding
        ensures { result ≡ encodes self.now };
}

/// How a data type supports the codec `zfp`.
#[derive(Clone, Copy, Debug, PartialEq, Eq)]
pub struct ZfpSupport {
    encoding: ZfpEncoding,
}

impl ZfpSupport {
    /// The support of a type of such elements.
    pub fn new(encoding: ZfpEncoding) -> Self
        ensures { encodes_as result ≡ encoding }
    {
        ZfpSupport { encoding }
    }
}

impl ZfpDataTypeTraits for ZfpSupport {
    ghost encodes = { encodes_as };

    fn zfp_encoding(&self) -> ZfpEncoding {
        self.encoding
    }
}
