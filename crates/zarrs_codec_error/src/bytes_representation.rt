//! How many bytes a value has, as far as it is known before.

ghost use Rattle.std.specs.Prelude.{◌≡◌, Some};
ghost use Rattle.zarrs_codec_error.specs.BytesRepresentation.{size_bound_of, text_of};

use std::fmt;

/// How many bytes a value has, as far as it is known before.
#[derive(Clone, Copy, Debug)]
pub enum BytesRepresentation {
    /// Exactly so many.
    FixedSize(u64),
    /// At most so many.
    BoundedSize(u64),
    /// Any number.
    UnboundedSize,
}

impl BytesRepresentation {
    /// How many bytes there are at most, or None where there is no such number.
    pub fn size(&self) -> Option<u64>
        ensures { result ≡ size_bound_of self.now }
    {
        match self {
            BytesRepresentation::FixedSize(size) => Some(*size),
            BytesRepresentation::BoundedSize(size) => Some(*size),
            BytesRepresentation::UnboundedSize => None,
        }
    }
}

// The kind, and the size behind it, as `fixed size: 10`.
impl fmt::Display for BytesRepresentation {
    ghost output = { λ r. Some (text_of r) };

    fn fmt<W: fmt::Write>(&self, f: &mut fmt::Formatter<W>) -> fmt::Result {
        match self {
            BytesRepresentation::FixedSize(size) => write!(f, "fixed size: {size}"),
            BytesRepresentation::BoundedSize(size) => write!(f, "bounded size: {size}"),
            BytesRepresentation::UnboundedSize => write!(f, "unbounded size"),
        }
    }
}
