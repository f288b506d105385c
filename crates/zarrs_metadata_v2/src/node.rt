//! The version 2 documents of arrays and groups.

ghost use Rattle.std.specs.Prelude.{◌≡◌, IfOk};
ghost use Rattle.serde_json.specs.Read.{read};
ghost use Rattle.serde_json.specs.View.{view};
ghost use Rattle.zarrs_metadata_values.specs.Writing.{IsTextOf};
ghost use Rattle.zarrs_metadata_values.specs.Reading.{Reads, GivesRead, from_data, from_json};
ghost use Rattle.zarrs_metadata_v2.specs.NodeV2.{node_v2_seen, node_v2_of, node_v2_data};

use crate::array::ArrayMetadataV2;
use crate::group::GroupMetadataV2;
use crate::reading::{read_array_v2, read_group_v2};
use serde_json::Value;
use std::alloc::{AllocError, Global};
use zarrs_metadata_values::MetadataError;
use zarrs_metadata_values::reading::{read_value, refuse_floats};

/// The version 2 document of an array or a group.
#[derive(Debug, PartialEq, Drop)]
pub enum NodeMetadataV2 {
    /// An array.
    Array(ArrayMetadataV2),
    /// A group.
    Group(GroupMetadataV2),
}

impl NodeMetadataV2 {
    /// The document that a value is: an array's, else a group's. So an array that lacks a field is read as a group with
    /// its other members as attributes.
    ///
    /// # Errors
    /// `FloatNumber` exactly where the value holds a float, attributes included, else `InvalidMetadata` exactly where
    /// it is neither.
    pub fn from_value(alloc: Global, value: &Value) -> Result<Self, MetadataError>
        ensures { GivesRead node_v2_seen result (from_data node_v2_of (view value.now)) }
    {
        refuse_floats(value)?;
        read_node(alloc, value)
    }

    /// The value that is the document.
    ///
    /// # Errors
    /// [`AllocError`] where memory runs out.
    pub fn to_value(&self, alloc: Global) -> Result<Value, AllocError>
        ensures { IfOk result (λ v. view v ≡ node_v2_data (node_v2_seen self.now)) }
    {
        match self {
            NodeMetadataV2::Array(array) => array.to_value(alloc),
            NodeMetadataV2::Group(group) => group.to_value(alloc),
        }
    }

    /// The document that a text is, as [`NodeMetadataV2::from_value`].
    ///
    /// # Errors
    /// `InvalidJson` exactly where the text is not JSON, else as for the value.
    pub fn try_from_text(alloc: Global, text: &str) -> Result<Self, MetadataError>
        ensures { GivesRead node_v2_seen result (from_json node_v2_of (read text.now)) }
    {
        let value = read_value(alloc, text)?;
        read_node(alloc, &value)
    }

    /// The document as text, a line for each member.
    ///
    /// # Errors
    /// [`AllocError`] where memory runs out.
    pub fn to_string_pretty(&self, alloc: Global) -> Result<String, AllocError>
        ensures { IfOk result (IsTextOf (node_v2_data (node_v2_seen self.now))) }
    {
        match self {
            NodeMetadataV2::Array(array) => array.to_string_pretty(alloc),
            NodeMetadataV2::Group(group) => group.to_string_pretty(alloc),
        }
    }

    /// A copy.
    ///
    /// # Errors
    /// [`AllocError`] where memory runs out.
    pub fn try_clone(&self, alloc: Global) -> Result<Self, AllocError>
        ensures { IfOk result (λ copy. node_v2_seen copy ≡ node_v2_seen self.now) }
    {
        match self {
            NodeMetadataV2::Array(array) => Ok(NodeMetadataV2::Array(array.try_clone(alloc)?)),
            NodeMetadataV2::Group(group) => Ok(NodeMetadataV2::Group(group.try_clone(alloc)?)),
        }
    }
}

// The document that a value is: an array's, else a group's.
fn read_node(alloc: Global, value: &Value) -> Result<NodeMetadataV2, MetadataError>
    ensures { Reads node_v2_seen result (node_v2_of (view value.now)) }
{
    match read_array_v2(alloc, value) {
        Ok(array) => Ok(NodeMetadataV2::Array(array)),
        Err(MetadataError::InvalidMetadata) => {
            Ok(NodeMetadataV2::Group(read_group_v2(alloc, value)?))
        }
        Err(e) => Err(e),
    }
}
