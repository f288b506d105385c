//! The text of an array subset.

use super::ArraySubset;
use std::fmt;

// The ranges, as `[1..5, 2..6]`.
impl fmt::Display for ArraySubset {
    fn fmt<W: fmt::Write>(&self, f: &mut fmt::Formatter<W>) -> fmt::Result {
        f.write_str("[")?;
        let mut is_first = true;
        for (start, length) in self.start.iter().zip(&self.shape) {
            if !is_first {
                f.write_str(", ")?;
            }
            is_first = false;
            write!(f, "{start}..{}", start.saturating_add(*length))?;
        }
        f.write_str("]")
    }
}
