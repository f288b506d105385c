//! The documents of arrays of either version.

ghost use Rattle.std.specs.Prelude.{◌≡◌, IfOk};
ghost use Rattle.serde_json.specs.Read.{read};
ghost use Rattle.serde_json.specs.View.{view};
ghost use Rattle.zarrs_metadata_values.specs.Writing.{IsTextOf};
ghost use Rattle.zarrs_metadata_values.specs.Reading.{GivesRead, from_data, from_json};
ghost use Rattle.zarrs_metadata.specs.AnyArray.{any_array_seen, any_array_of, any_array_data};

use crate::v3::array::ArrayMetadataV3;
use serde_json::Value;
use std::alloc::{AllocError, Global};
use zarrs_metadata_v2::ArrayMetadataV2;
use zarrs_metadata_v2::reading::read_array_v2;
use zarrs_metadata_values::MetadataError;
use zarrs_metadata_values::reading::read_value;

/// The document of an array.
#[derive(Debug, PartialEq, Drop)]
pub enum ArrayMetadata {
    /// Of version 3.
    V3(ArrayMetadataV3),
    /// Of version 2.
    V2(ArrayMetadataV2),
}

impl ArrayMetadata {
    /// The document that a value is: of version 3, else of version 2.
    ///
    /// # Errors
    /// `FloatNumber` exactly where the value holds a float, attributes included, else `InvalidMetadata` exactly where
    /// it is an array document of neither version.
    pub fn from_value(alloc: Global, value: &Value) -> Result<Self, MetadataError>
        ensures { GivesRead any_array_seen result (from_data any_array_of (view value.now)) }
    {
        match ArrayMetadataV3::from_value(alloc, value) {
            Ok(array) => Ok(ArrayMetadata::V3(array)),
            Err(MetadataError::InvalidMetadata) => {
                Ok(ArrayMetadata::V2(read_array_v2(alloc, value)?))
            }
            Err(e) => Err(e),
        }
    }

    /// The value that is the document.
    ///
    /// # Errors
    /// [`AllocError`] where memory runs out.
    pub fn to_value(&self, alloc: Global) -> Result<Value, AllocError>
        ensures { IfOk result (λ v. view v ≡ any_array_data (any_array_seen self.now)) }
    {
        match self {
            ArrayMetadata::V3(array) => array.to_value(alloc),
            ArrayMetadata::V2(array) => array.to_value(alloc),
        }
    }

    /// The document that a text is, as [`ArrayMetadata::from_value`].
    ///
    /// # Errors
    /// `InvalidJson` exactly where the text is not JSON, else as for the value.
    pub fn try_from_text(alloc: Global, text: &str) -> Result<Self, MetadataError>
        ensures { GivesRead any_array_seen result (from_json any_array_of (read text.now)) }
    {
        let value = read_value(alloc, text)?;
        ArrayMetadata::from_value(alloc, &value)
    }

    /// The document as text, a line for each member.
    ///
    /// # Errors
    /// [`AllocError`] where memory runs out.
    pub fn to_string_pretty(&self, alloc: Global) -> Result<String, AllocError>
        ensures { IfOk result (IsTextOf (any_array_data (any_array_seen self.now))) }
    {
        match self {
            ArrayMetadata::V3(array) => array.to_string_pretty(alloc),
            ArrayMetadata::V2(array) => array.to_string_pretty(alloc),
        }
    }

    /// A copy.
    ///
    /// # Errors
    /// [`AllocError`] where memory runs out.
    pub fn try_clone(&self, alloc: Global) -> Result<Self, AllocError>
        ensures { IfOk result (λ copy. any_array_seen copy ≡ any_array_seen self.now) }
    {
        match self {
            ArrayMetadata::V3(array) => Ok(ArrayMetadata::V3(array.try_clone(alloc)?)),
            ArrayMetadata::V2(array) => Ok(ArrayMetadata::V2(array.try_clone(alloc)?)),
        }
    }
}
