//! The documents of arrays and groups.

ghost use Rattle.std.specs.Prelude.{◌≡◌, IfOk};
ghost use Rattle.serde_json.specs.Read.{read};
ghost use Rattle.serde_json.specs.View.{view};
ghost use Rattle.zarrs_metadata_values.specs.Writing.{IsTextOf};
ghost use Rattle.zarrs_metadata_values.specs.Reading.{Reads, GivesRead, from_data, from_json};
ghost use Rattle.zarrs_metadata.specs.Node.{node_seen, node_of, node_data, KeepsNodeFields};

use crate::v3::array::ArrayMetadataV3;
use crate::v3::group::{GroupMetadataV3, read_group};
use crate::v3::reading::read_array;
use serde_json::Value;
use std::alloc::{AllocError, Global};
use zarrs_metadata_parts::MetadataError;
use zarrs_metadata_parts::reading::{read_value, refuse_floats};

/// The version 3 document of an array or a group.
#[derive(Debug, PartialEq, Drop)]
pub enum NodeMetadataV3 {
    /// An array.
    Array(ArrayMetadataV3),
    /// A group.
    Group(GroupMetadataV3),
}

impl NodeMetadataV3 {
    /// The document that a value is: an array's, else a group's. Its additional fields stay as they are when it is
    /// written and read again.
    ///
    /// # Errors
    /// `FloatNumber` exactly where the value holds a float, attributes included, else `InvalidMetadata` exactly where
    /// it is neither.
    #[tactic(auto, using(crate::proofs::ReadFields::read_node_kept))]
    pub fn from_value(alloc: Global, value: &Value) -> Result<Self, MetadataError>
        ensures gives { GivesRead node_seen result (from_data node_of (view value.now)) }
        ensures kept { IfOk result (λ n. KeepsNodeFields (node_seen n)) }
    {
        refuse_floats(value)?;
        read_node(alloc, value)
    }

    /// The value that is the document.
    ///
    /// # Errors
    /// [`AllocError`] where memory runs out.
    pub fn to_value(&self, alloc: Global) -> Result<Value, AllocError>
        ensures { IfOk result (λ v. view v ≡ node_data (node_seen self.now)) }
    {
        match self {
            NodeMetadataV3::Array(array) => array.to_value(alloc),
            NodeMetadataV3::Group(group) => group.to_value(alloc),
        }
    }

    /// The document that a text is, as [`NodeMetadataV3::from_value`].
    ///
    /// # Errors
    /// `InvalidJson` exactly where the text is not JSON, else as for the value.
    #[tactic(auto, using(crate::proofs::ReadFields::read_node_kept))]
    pub fn try_from_text(alloc: Global, text: &str) -> Result<Self, MetadataError>
        ensures gives { GivesRead node_seen result (from_json node_of (read text.now)) }
        ensures kept { IfOk result (λ n. KeepsNodeFields (node_seen n)) }
    {
        let value = read_value(alloc, text)?;
        read_node(alloc, &value)
    }

    /// The document as text, a line for each member.
    ///
    /// # Errors
    /// [`AllocError`] where memory runs out.
    pub fn to_string_pretty(&self, alloc: Global) -> Result<String, AllocError>
        ensures { IfOk result (IsTextOf (node_data (node_seen self.now))) }
    {
        match self {
            NodeMetadataV3::Array(array) => array.to_string_pretty(alloc),
            NodeMetadataV3::Group(group) => group.to_string_pretty(alloc),
        }
    }

    /// A copy.
    ///
    /// # Errors
    /// [`AllocError`] where memory runs out.
    pub fn try_clone(&self, alloc: Global) -> Result<Self, AllocError>
        ensures { IfOk result (λ copy. node_seen copy ≡ node_seen self.now) }
    {
        match self {
            NodeMetadataV3::Array(array) => Ok(NodeMetadataV3::Array(array.try_clone(alloc)?)),
            NodeMetadataV3::Group(group) => Ok(NodeMetadataV3::Group(group.try_clone(alloc)?)),
        }
    }
}

// The document that a value is: an array's, else a group's.
fn read_node(alloc: Global, value: &Value) -> Result<NodeMetadataV3, MetadataError>
    ensures { Reads node_seen result (node_of (view value.now)) }
{
    match read_array(alloc, value) {
        Ok(array) => Ok(NodeMetadataV3::Array(array)),
        Err(MetadataError::InvalidMetadata) => {
            Ok(NodeMetadataV3::Group(read_group(alloc, value)?))
        }
        Err(e) => Err(e),
    }
}
