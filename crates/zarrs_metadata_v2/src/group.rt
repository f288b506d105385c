//! Version 2 group documents.
//!
//! See <https://zarr-specs.readthedocs.io/en/latest/v2/v2.0.html#groups>.

ghost use Rattle.std.specs.Prelude.{◌≡◌, IfOk};
ghost use Rattle.serde_json.specs.Data.{no_members};
ghost use Rattle.serde_json.specs.Read.{read};
ghost use Rattle.serde_json.specs.View.{view, members_view};
ghost use Rattle.zarrs_metadata_values.specs.Writing.{IsTextOf};
ghost use Rattle.zarrs_metadata_values.specs.Reading.{Reads, GivesRead, from_data, from_json};
ghost use Rattle.zarrs_metadata_v2.specs.GroupMetadataV2.{group_v2_seen, group_v2_of, group_v2_members, group_v2_data, normal_group_v2};

use serde_json::{Map, Value};
use std::alloc::{AllocError, Global};
use zarrs_metadata_values::MetadataError;
use zarrs_metadata_values::json::{
    copy_members, expect_number, read_object, required, take_member,
};
use zarrs_metadata_values::reading::{read_value, refuse_floats};

/// A version 2 group document.
#[derive(Debug, PartialEq, Drop)]
pub struct GroupMetadataV2 {
    /// What users say about the group: all members of the document but `zarr_format`.
    pub attributes: Map<String, Value>,
}

impl GroupMetadataV2 {
    /// The document without attributes.
    pub fn new(alloc: Global) -> Self
        ensures { group_v2_seen result ≡ no_members }
    {
        GroupMetadataV2 {
            attributes: Map::new(alloc),
        }
    }

    /// The document with these attributes. One of the name `zarr_format` is not written.
    pub fn with_attributes(self, attributes: Map<String, Value>) -> Self
        ensures { group_v2_seen result ≡ members_view attributes.entries }
    {
        GroupMetadataV2 { attributes }
    }

    /// The document that a value is. It is the same when it is written and read again.
    ///
    /// # Errors
    /// `FloatNumber` exactly where the value holds a float, else `InvalidMetadata` exactly where it is no object with
    /// `zarr_format` 2.
    #[tactic(auto, using(crate::proofs::Stays::read_group_stays))]
    pub fn from_value(alloc: Global, value: &Value) -> Result<Self, MetadataError>
        ensures gives { GivesRead group_v2_seen result (from_data group_v2_of (view value.now)) }
        ensures stays { IfOk result
            (λ g. normal_group_v2 (group_v2_seen g) ≡ group_v2_seen g) }
    {
        refuse_floats(value)?;
        read_group_v2(alloc, value)
    }

    /// The value that is the document: `zarr_format`, and beside it the attributes of other names.
    ///
    /// # Errors
    /// [`AllocError`] where memory runs out.
    pub fn to_value(&self, alloc: Global) -> Result<Value, AllocError>
        ensures { IfOk result (λ v. view v ≡ group_v2_data (group_v2_seen self.now)) }
    {
        let mut members = copy_members(&self.attributes)?;
        serde_json::put(&mut members, alloc, "zarr_format", Value::from(2u64))?;
        Ok(Value::Object(members))
    }

    /// The document that a text is, as [`GroupMetadataV2::from_value`].
    ///
    /// # Errors
    /// `InvalidJson` exactly where the text is not JSON, else as for the value.
    #[tactic(auto, using(crate::proofs::Stays::read_group_stays))]
    pub fn try_from_text(alloc: Global, text: &str) -> Result<Self, MetadataError>
        ensures gives { GivesRead group_v2_seen result (from_json group_v2_of (read text.now)) }
        ensures stays { IfOk result
            (λ g. normal_group_v2 (group_v2_seen g) ≡ group_v2_seen g) }
    {
        let value = read_value(alloc, text)?;
        read_group_v2(alloc, &value)
    }

    /// The document as text, a line for each member.
    ///
    /// # Errors
    /// [`AllocError`] where memory runs out.
    pub fn to_string_pretty(&self, alloc: Global) -> Result<String, AllocError>
        ensures { IfOk result (IsTextOf (group_v2_data (group_v2_seen self.now))) }
    {
        let value = self.to_value(alloc)?;
        let text = value.to_string_pretty(alloc)?;
        Ok(text)
    }

    /// A copy.
    ///
    /// # Errors
    /// [`AllocError`] where memory runs out.
    pub fn try_clone(&self, _alloc: Global) -> Result<Self, AllocError>
        ensures { IfOk result (λ copy. group_v2_seen copy ≡ group_v2_seen self.now) }
    {
        Ok(GroupMetadataV2 {
            attributes: copy_members(&self.attributes)?,
        })
    }
}

#[tactic(auto, unfolding(crate::specs::GroupMetadataV2::group_v2_members))]
fn read_group_members(members: &Map<String, Value>) -> Result<GroupMetadataV2, MetadataError>
    ensures { Reads group_v2_seen result (group_v2_members (members_view members.now.entries)) }
{
    expect_number(required(members, "zarr_format")?, 2)?;
    let mut attributes = copy_members(members)?;
    drop(take_member(&mut attributes, "zarr_format"));
    Ok(GroupMetadataV2 { attributes })
}

/// The version 2 group document that a value is.
///
/// # Errors
/// `InvalidMetadata` exactly where it is none. Floats were looked for before.
pub fn read_group_v2(_alloc: Global, value: &Value) -> Result<GroupMetadataV2, MetadataError>
    ensures { Reads group_v2_seen result (group_v2_of (view value.now)) }
{
    read_group_members(read_object(value)?)
}
