//! The versions of Zarr.

/// A version of Zarr.
#[derive(Clone, Copy, Debug, PartialEq, Eq)]
pub enum ZarrVersion {
    /// Zarr version 2.
    V2,
    /// Zarr version 3.
    V3,
}
