//! The size of the elements of a data type.

/// The size of an element of a data type.
#[derive(Clone, Copy, Debug, PartialEq, Eq)]
pub enum DataTypeSize {
    /// So many bytes.
    Fixed(usize),
    /// Not the same for each element.
    Variable,
}
