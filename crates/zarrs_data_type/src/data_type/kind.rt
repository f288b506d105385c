//! The kinds of data types, which the names of documents find.

/// A kind of data types.
#[derive(Clone, Copy, Debug, PartialEq, Eq)]
pub enum DataTypeKind {
    /// Booleans.
    Bool,
    /// Signed whole numbers of one byte.
    Int8,
    /// Signed whole numbers of 2 bytes.
    Int16,
    /// Signed whole numbers of 4 bytes.
    Int32,
    /// Signed whole numbers of 8 bytes.
    Int64,
    /// Unsigned whole numbers of one byte.
    UInt8,
    /// Unsigned whole numbers of 2 bytes.
    UInt16,
    /// Unsigned whole numbers of 4 bytes.
    UInt32,
    /// Unsigned whole numbers of 8 bytes.
    UInt64,
    /// Raw bytes, as many as the name says.
    RawBits,
    /// Texts of any length.
    String,
    /// Bytes of any length.
    Bytes,
    /// Null, or some of another type, which the configuration says.
    Optional,
}
