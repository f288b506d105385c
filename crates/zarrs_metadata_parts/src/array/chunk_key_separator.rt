//! The character between the indices of a chunk's key.

ghost use Rattle.std.specs.Prelude.{◌≡◌, Some};
ghost use Rattle.zarrs_metadata_parts.specs.Names.{separator_code, separator_of, separator_text};

use std::fmt;

/// What stands between the indices of a chunk's key.
#[derive(Clone, Copy, Debug, PartialEq, Eq)]
pub enum ChunkKeySeparator {
    /// A slash, `/`.
    Slash,
    /// A dot, `.`.
    Dot,
}

impl ChunkKeySeparator {
    /// The separator as text.
    pub fn as_str(self) -> &'static str
        ensures { result.now ≡ separator_text self }
    {
        match self {
            ChunkKeySeparator::Slash => "/",
            ChunkKeySeparator::Dot => ".",
        }
    }
}

impl From<ChunkKeySeparator> for char {
    ghost from_gives = { λ separator c. c ≡ separator_code separator };

    fn from(separator: ChunkKeySeparator) -> char {
        match separator {
            ChunkKeySeparator::Slash => '/',
            ChunkKeySeparator::Dot => '.',
        }
    }
}

impl TryFrom<char> for ChunkKeySeparator {
    type Error = char;

    ghost try_from_gives = { λ c result. result ≡ separator_of c };

    fn try_from(separator: char) -> Result<ChunkKeySeparator, char> {
        match separator {
            '/' => Ok(ChunkKeySeparator::Slash),
            '.' => Ok(ChunkKeySeparator::Dot),
            other => Err(other),
        }
    }
}

impl fmt::Display for ChunkKeySeparator {
    ghost output = { λ separator. Some (separator_text separator) };

    fn fmt<W: fmt::Write>(&self, f: &mut fmt::Formatter<W>) -> fmt::Result {
        f.write_str(self.as_str())
    }
}
