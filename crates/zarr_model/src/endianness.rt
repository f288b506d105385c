//! The order of the bytes of a number.

ghost use Rattle.std.specs.Prelude.{◌≡◌, Some};
ghost use Rattle.zarr_model.specs.Endianness.{is_little, endianness_text};

use std::fmt;

/// Which byte of a number comes first.
#[derive(Clone, Copy, Debug, PartialEq, Eq)]
pub enum Endianness {
    /// The lowest.
    Little,
    /// The highest.
    Big,
}

impl Endianness {
    /// The order in which this library holds numbers in memory.
    pub fn native() -> Endianness
        ensures { result ≡ Endianness.Little }
    {
        Endianness::Little
    }

    /// Whether it is the native order.
    pub fn is_native(self) -> bool
        ensures { result ≡ is_little self }
    {
        match self {
            Endianness::Little => true,
            Endianness::Big => false,
        }
    }
}

impl fmt::Display for Endianness {
    ghost output = { λ endianness. Some (endianness_text endianness) };

    fn fmt<W: fmt::Write>(&self, f: &mut fmt::Formatter<W>) -> fmt::Result {
        match self {
            Endianness::Little => f.write_str("Little"),
            Endianness::Big => f.write_str("Big"),
        }
    }
}
