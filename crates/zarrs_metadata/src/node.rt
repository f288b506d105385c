//! The documents of arrays and groups of either version.

ghost use Rattle.std.specs.Prelude.{◌≡◌, IfOk};
ghost use Rattle.serde_json.specs.Read.{read};
ghost use Rattle.serde_json.specs.View.{view};
ghost use Rattle.zarrs_metadata_values.specs.Writing.{IsTextOf};
ghost use Rattle.zarrs_metadata_values.specs.Reading.{GivesRead, from_data, from_json};
ghost use Rattle.zarrs_metadata.specs.AnyNode.{any_node_seen, any_node_of, any_node_data};

use crate::array::ArrayMetadata;
use crate::group::GroupMetadata;
use serde_json::Value;
use std::alloc::{AllocError, Global};
use zarrs_metadata_values::MetadataError;
use zarrs_metadata_values::reading::read_value;

/// The document of an array or a group.
#[derive(Debug, PartialEq, Drop)]
pub enum NodeMetadata {
    /// An array.
    Array(ArrayMetadata),
    /// A group.
    Group(GroupMetadata),
}

impl NodeMetadata {
    /// The document that a value is: an array's of version 3, else of version 2, else a group's of version 3, else of
    /// version 2. So a version 2 array that lacks a field is read as a version 2 group with its other members as
    /// attributes.
    ///
    /// # Errors
    /// `FloatNumber` exactly where the value holds a float, attributes included, else `InvalidMetadata` exactly where
    /// it is none of the four.
    pub fn from_value(alloc: Global, value: &Value) -> Result<Self, MetadataError>
        ensures { GivesRead any_node_seen result (from_data any_node_of (view value.now)) }
    {
        match ArrayMetadata::from_value(alloc, value) {
            Ok(array) => Ok(NodeMetadata::Array(array)),
            Err(MetadataError::InvalidMetadata) => {
                Ok(NodeMetadata::Group(GroupMetadata::from_value(alloc, value)?))
            }
            Err(e) => Err(e),
        }
    }

    /// The value that is the document.
    ///
    /// # Errors
    /// [`AllocError`] where memory runs out.
    pub fn to_value(&self, alloc: Global) -> Result<Value, AllocError>
        ensures { IfOk result (λ v. view v ≡ any_node_data (any_node_seen self.now)) }
    {
        match self {
            NodeMetadata::Array(array) => array.to_value(alloc),
            NodeMetadata::Group(group) => group.to_value(alloc),
        }
    }

    /// The document that a text is, as [`NodeMetadata::from_value`].
    ///
    /// # Errors
    /// `InvalidJson` exactly where the text is not JSON, else as for the value.
    pub fn try_from_text(alloc: Global, text: &str) -> Result<Self, MetadataError>
        ensures { GivesRead any_node_seen result (from_json any_node_of (read text.now)) }
    {
        let value = read_value(alloc, text)?;
        NodeMetadata::from_value(alloc, &value)
    }

    /// The document as text, a line for each member.
    ///
    /// # Errors
    /// [`AllocError`] where memory runs out.
    pub fn to_string_pretty(&self, alloc: Global) -> Result<String, AllocError>
        ensures { IfOk result (IsTextOf (any_node_data (any_node_seen self.now))) }
    {
        match self {
            NodeMetadata::Array(array) => array.to_string_pretty(alloc),
            NodeMetadata::Group(group) => group.to_string_pretty(alloc),
        }
    }

    /// A copy.
    ///
    /// # Errors
    /// [`AllocError`] where memory runs out.
    pub fn try_clone(&self, alloc: Global) -> Result<Self, AllocError>
        ensures { IfOk result (λ copy. any_node_seen copy ≡ any_node_seen self.now) }
    {
        match self {
            NodeMetadata::Array(array) => Ok(NodeMetadata::Array(array.try_clone(alloc)?)),
            NodeMetadata::Group(group) => Ok(NodeMetadata::Group(group.try_clone(alloc)?)),
        }
    }
}
