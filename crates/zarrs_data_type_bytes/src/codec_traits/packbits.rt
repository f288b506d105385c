//! How a data type supports the codec `packbits`.

ghost use Rattle.std.specs.Prelude.{◌≡◌};
ghost use Rattle.zarrs_data_type_bytes.specs.CodecSupport.{Packing, packs_as};

/// What the codec `packbits` asks of a data type.
pub trait PackBitsDataTypeTraits {
    // The components of an element.
    ghost packs: { Self → Packing };

    /// The size of a component in bits.
    fn component_size_bits(&self) -> u64
        ensures { result ≡ (packs self.now).component_bits };

    /// How many components an element has.
    fn num_components(&self) -> u64
        ensures { result ≡ (packs self.now).components };

    /// Whether components are signed, so that their highest bit is repeated when they are unpacked.
    fn sign_extension(&self) -> bool
        ensures { result ≡ (packs self.now).is_signed };
}

/// How a data type supports the codec `packbits`.
#[derive(Clone, Copy, Debug, PartialEq, Eq)]
pub struct PackBitsSupport {
    component_size_bits: u64,
    num_components: u64,
    sign_extension: bool,
}

impl PackBitsSupport {
    /// The support of a type whose elements have so many components of so many bits, signed or not.
    pub fn new(component_size_bits: u64, num_components: u64, sign_extension: bool) -> Self
        ensures bits { (packs_as result).component_bits ≡ component_size_bits }
        ensures components { (packs_as result).components ≡ num_components }
        ensures signed { (packs_as result).is_signed ≡ sign_extension }
    {
        PackBitsSupport {
            component_size_bits,
            num_components,
            sign_extension,
        }
    }
}

impl PackBitsDataTypeTraits for PackBitsSupport {
    ghost packs = { packs_as };

    fn component_size_bits(&self) -> u64 {
        self.component_size_bits
    }

    fn num_components(&self) -> u64 {
        self.num_components
    }

    fn sign_extension(&self) -> bool {
        self.sign_extension
    }
}
