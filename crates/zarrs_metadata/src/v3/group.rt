//! Version 3 group documents.
//!
//! See <https://zarr-specs.readthedocs.io/en/latest/v3/core/index.html#group-metadata>.

ghost use Rattle.std.specs.Prelude.{◌≡◌, [], IfOk, OnOk};
ghost use Rattle.serde_json.specs.Data.{no_members};
ghost use Rattle.serde_json.specs.Read.{read};
ghost use Rattle.serde_json.specs.View.{view, members_view};
ghost use Rattle.zarrs_metadata_values.specs.Writing.{IsTextOf};
ghost use Rattle.zarrs_metadata_values.specs.Reading.{Reads, GivesRead, from_data, from_json};
ghost use Rattle.zarrs_metadata_parts.specs.AdditionalFields.{additional_fields_seen};
ghost use Rattle.zarrs_metadata.specs.GroupMetadata.{group_seen, group_of, group_members, group_data, group_data_members, normal_group};

use serde_json::{Map, Value};
use std::alloc::{AllocError, Global};
use std::collections::BTreeMap;
use zarrs_metadata_parts::additional_fields::{
    NodeKind, copy_additional_fields, put_fields, read_additional_fields,
};
use zarrs_metadata_parts::fields::{expect_node_kind, put_node_kind};
use zarrs_metadata_parts::json::{copy_members, member, read_object, read_object_or_empty};
use zarrs_metadata_parts::reading::{read_value, refuse_floats};
use zarrs_metadata_parts::writing::put_object;
use zarrs_metadata_parts::{AdditionalFieldsV3, MetadataError};

/// A version 3 group document.
#[derive(Debug, PartialEq, Drop)]
pub struct GroupMetadataV3 {
    /// What users say about the group.
    pub attributes: Map<String, Value>,
    /// All other fields of the document.
    pub additional_fields: AdditionalFieldsV3,
}

impl GroupMetadataV3 {
    /// The document without attributes and additional fields.
    pub fn new(alloc: Global) -> Self
        ensures { group_seen result ≡ record { attributes = no_members; additional_fields = [] } }
    {
        GroupMetadataV3 {
            attributes: Map::new(alloc),
            additional_fields: BTreeMap::new(alloc),
        }
    }

    /// The same document with these attributes.
    pub fn with_attributes(self, attributes: Map<String, Value>) -> Self
        ensures { group_seen result ≡ record (group_seen self) {
          attributes = members_view attributes.entries;
        } }
    {
        GroupMetadataV3 { attributes, ..self }
    }

    /// The same document with these additional fields. One under a key that the document names is not written.
    pub fn with_additional_fields(self, additional_fields: AdditionalFieldsV3) -> Self
        ensures { group_seen result ≡ record (group_seen self) {
          additional_fields = additional_fields_seen additional_fields.entries;
        } }
    {
        GroupMetadataV3 {
            additional_fields,
            ..self
        }
    }

    /// The document that a value is. A null under `consolidated_metadata` stands for nothing. It is the same when it is
    /// written and read again.
    ///
    /// # Errors
    /// `FloatNumber` exactly where the value holds a float, attributes included, else `InvalidMetadata` exactly where
    /// it is no version 3 group document.
    #[tactic(auto, using(crate::proofs::GroupFields::read_group_stays))]
    pub fn from_value(alloc: Global, value: &Value) -> Result<Self, MetadataError>
        ensures gives { GivesRead group_seen result (from_data group_of (view value.now)) }
        ensures stays { IfOk result (λ g. normal_group (group_seen g) ≡ group_seen g) }
    {
        refuse_floats(value)?;
        read_group(alloc, value)
    }

    /// The value that is the document: with `attributes` only where they are not empty, and with each additional field
    /// under its key.
    ///
    /// # Errors
    /// [`AllocError`] where memory runs out.
    pub fn to_value(&self, alloc: Global) -> Result<Value, AllocError>
        ensures { IfOk result (λ v. view v ≡ group_data (group_seen self.now)) }
    {
        group_to_value(alloc, self)
    }

    /// The document that a text is, as [`GroupMetadataV3::from_value`].
    ///
    /// # Errors
    /// `InvalidJson` exactly where the text is not JSON, else as for the value.
    #[tactic(auto, using(crate::proofs::GroupFields::read_group_stays))]
    pub fn try_from_text(alloc: Global, text: &str) -> Result<Self, MetadataError>
        ensures gives { GivesRead group_seen result (from_json group_of (read text.now)) }
        ensures stays { IfOk result (λ g. normal_group (group_seen g) ≡ group_seen g) }
    {
        let value = read_value(alloc, text)?;
        read_group(alloc, &value)
    }

    /// The document as text, a line for each member.
    ///
    /// # Errors
    /// [`AllocError`] where memory runs out.
    pub fn to_string_pretty(&self, alloc: Global) -> Result<String, AllocError>
        ensures { IfOk result (IsTextOf (group_data (group_seen self.now))) }
    {
        let value = self.to_value(alloc)?;
        let text = value.to_string_pretty(alloc)?;
        Ok(text)
    }

    /// A copy.
    ///
    /// # Errors
    /// [`AllocError`] where memory runs out.
    pub fn try_clone(&self, alloc: Global) -> Result<Self, AllocError>
        ensures { IfOk result (λ copy. group_seen copy ≡ group_seen self.now) }
    {
        Ok(GroupMetadataV3 {
            attributes: copy_members(&self.attributes)?,
            additional_fields: copy_additional_fields(alloc, &self.additional_fields)?,
        })
    }
}

#[tactic(auto, unfolding(crate::specs::GroupMetadata::group_members))]
fn read_group_members(
    alloc: Global,
    members: &Map<String, Value>,
) -> Result<GroupMetadataV3, MetadataError>
    ensures { Reads group_seen result (group_members (members_view members.now.entries)) }
{
    expect_node_kind(members, 3, "group")?;
    let attributes = read_object_or_empty(alloc, member(members, "attributes"))?;
    let additional_fields = read_additional_fields(alloc, NodeKind::Group, members)?;
    Ok(GroupMetadataV3 {
        attributes,
        additional_fields,
    })
}

// The group document that a value is. Floats were looked for before.
pub(crate) fn read_group(alloc: Global, value: &Value) -> Result<GroupMetadataV3, MetadataError>
    ensures { Reads group_seen result (group_of (view value.now)) }
{
    read_group_members(alloc, read_object(value)?)
}

#[tactic(auto, unfolding(crate::specs::GroupMetadata::group_data_members))]
fn put_group(
    alloc: Global,
    members: &mut Map<String, Value>,
    metadata: &GroupMetadataV3,
) -> Result<(), AllocError>
    ensures { OnOk result (members_view members.new.entries
        ≡ group_data_members (group_seen metadata.now) (members_view members.old.entries)) }
{
    put_object(alloc, members, "attributes", &metadata.attributes)?;
    put_node_kind(alloc, members, 3, "group")
}

// The value that is a group's document.
fn group_to_value(alloc: Global, metadata: &GroupMetadataV3) -> Result<Value, AllocError>
    ensures { IfOk result (λ v. view v ≡ group_data (group_seen metadata.now)) }
{
    let mut members = Map::new(alloc);
    put_fields(
        alloc,
        NodeKind::Group,
        &mut members,
        &metadata.additional_fields,
    )?;
    put_group(alloc, &mut members, metadata)?;
    Ok(Value::Object(members))
}
