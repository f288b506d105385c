//! The documents of groups of either version.

ghost use Rattle.std.specs.Prelude.{◌≡◌, IfOk};
ghost use Rattle.serde_json.specs.Read.{read};
ghost use Rattle.serde_json.specs.View.{view};
ghost use Rattle.zarrs_metadata_values.specs.Writing.{IsTextOf};
ghost use Rattle.zarrs_metadata_values.specs.Reading.{GivesRead, from_data, from_json};
ghost use Rattle.zarrs_metadata.specs.AnyGroup.{any_group_seen, any_group_of, any_group_data};

use crate::v3::group::GroupMetadataV3;
use serde_json::Value;
use std::alloc::{AllocError, Global};
use zarrs_metadata_v2::GroupMetadataV2;
use zarrs_metadata_v2::reading::read_group_v2;
use zarrs_metadata_values::MetadataError;
use zarrs_metadata_values::reading::read_value;

/// The document of a group.
#[derive(Debug, PartialEq, Drop)]
pub enum GroupMetadata {
    /// Of version 3.
    V3(GroupMetadataV3),
    /// Of version 2.
    V2(GroupMetadataV2),
}

impl GroupMetadata {
    /// The document that a value is: of version 3, else of version 2.
    ///
    /// # Errors
    /// `FloatNumber` exactly where the value holds a float, attributes included, else `InvalidMetadata` exactly where
    /// it is a group document of neither version.
    pub fn from_value(alloc: Global, value: &Value) -> Result<Self, MetadataError>
        ensures { GivesRead any_group_seen result (from_data any_group_of (view value.now)) }
    {
        match GroupMetadataV3::from_value(alloc, value) {
            Ok(group) => Ok(GroupMetadata::V3(group)),
            Err(MetadataError::InvalidMetadata) => {
                Ok(GroupMetadata::V2(read_group_v2(alloc, value)?))
            }
            Err(e) => Err(e),
        }
    }

    /// The value that is the document.
    ///
    /// # Errors
    /// [`AllocError`] where memory runs out.
    pub fn to_value(&self, alloc: Global) -> Result<Value, AllocError>
        ensures { IfOk result (λ v. view v ≡ any_group_data (any_group_seen self.now)) }
    {
        match self {
            GroupMetadata::V3(group) => group.to_value(alloc),
            GroupMetadata::V2(group) => group.to_value(alloc),
        }
    }

    /// The document that a text is, as [`GroupMetadata::from_value`].
    ///
    /// # Errors
    /// `InvalidJson` exactly where the text is not JSON, else as for the value.
    pub fn try_from_text(alloc: Global, text: &str) -> Result<Self, MetadataError>
        ensures { GivesRead any_group_seen result (from_json any_group_of (read text.now)) }
    {
        let value = read_value(alloc, text)?;
        GroupMetadata::from_value(alloc, &value)
    }

    /// The document as text, a line for each member.
    ///
    /// # Errors
    /// [`AllocError`] where memory runs out.
    pub fn to_string_pretty(&self, alloc: Global) -> Result<String, AllocError>
        ensures { IfOk result (IsTextOf (any_group_data (any_group_seen self.now))) }
    {
        match self {
            GroupMetadata::V3(group) => group.to_string_pretty(alloc),
            GroupMetadata::V2(group) => group.to_string_pretty(alloc),
        }
    }

    /// A copy.
    ///
    /// # Errors
    /// [`AllocError`] where memory runs out.
    pub fn try_clone(&self, alloc: Global) -> Result<Self, AllocError>
        ensures { IfOk result (λ copy. any_group_seen copy ≡ any_group_seen self.now) }
    {
        match self {
            GroupMetadata::V3(group) => Ok(GroupMetadata::V3(group.try_clone(alloc)?)),
            GroupMetadata::V2(group) => Ok(GroupMetadata::V2(group.try_clone(alloc)?)),
        }
    }
}
