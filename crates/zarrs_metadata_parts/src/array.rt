//! Dimension names and separators, which both versions have.

ghost use Rattle.std.specs.Prelude.{◌≡◌, ℕ, List, Option, Some, IfOk, option_map, string_bytes};

use std::alloc::{AllocError, Global};

pub mod chunk_key_separator;

/// The name of a dimension, if it has one.
pub type DimensionName = Option<String>;

/// What can be taken as the name of a dimension.
pub trait IntoDimensionName {
    // The name that it stands for, if it stands for one.
    ghost named: { Self → Option (List ℕ) };

    /// The dimension name.
    ///
    /// # Errors
    /// [`AllocError`] where memory runs out.
    fn into_dimension_name(self, alloc: Global) -> Result<DimensionName, AllocError>
        ensures { IfOk result (λ name. option_map string_bytes name ≡ named self) };
}

impl IntoDimensionName for &str {
    ghost named = { λ s. Some s.now };

    fn into_dimension_name(self, alloc: Global) -> Result<DimensionName, AllocError> {
        Ok(Some(String::from_str(alloc, self)?))
    }
}

impl IntoDimensionName for Option<&str> {
    ghost named = { option_map (λ s. s.now) };

    fn into_dimension_name(self, alloc: Global) -> Result<DimensionName, AllocError> {
        match self {
            Some(name) => Ok(Some(String::from_str(alloc, name)?)),
            None => Ok(None),
        }
    }
}

impl IntoDimensionName for String {
    ghost named = { λ s. Some (string_bytes s) };

    fn into_dimension_name(self, _alloc: Global) -> Result<DimensionName, AllocError> {
        Ok(Some(self))
    }
}

impl IntoDimensionName for Option<String> {
    ghost named = { option_map string_bytes };

    fn into_dimension_name(self, _alloc: Global) -> Result<DimensionName, AllocError> {
        Ok(self)
    }
}
