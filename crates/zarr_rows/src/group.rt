//! Rows of groups: what a text is as the document of a group.

use std::alloc::{AllocError, Global};
use zarrs_metadata::laws::read_group_again;
use zarrs_metadata::{GroupMetadataV3, MetadataError};

fn written(alloc: Global, group: &GroupMetadataV3) -> Result<String, AllocError> {
    let value = group.to_value(alloc)?;
    value.to_string(alloc)
}

fn of_pretty_text(
    alloc: Global,
    group: &GroupMetadataV3,
) -> Result<GroupMetadataV3, MetadataError> {
    let text = group.to_string_pretty(alloc)?;
    GroupMetadataV3::try_from_text(alloc, text.as_str())
}

fn of_copy(alloc: Global, group: &GroupMetadataV3) -> Result<GroupMetadataV3, MetadataError> {
    let copy = group.try_clone(alloc)?;
    read_group_again(alloc, &copy)
}

// The group that a text is, written as pretty text and read, copied, and made a value and read.
fn read_twice(alloc: Global, text: &str) -> Result<GroupMetadataV3, MetadataError> {
    let group = GroupMetadataV3::try_from_text(alloc, text)?;
    let again = of_pretty_text(alloc, &group)?;
    of_copy(alloc, &again)
}

fn told(alloc: Global, group: &GroupMetadataV3) -> Result<String, AllocError> {
    let text = written(alloc, group)?;
    format!(in alloc; "{} fields; {text}", group.additional_fields.len())
}

/// How many additional fields the group has that a text is, and how it is written once it was read again; or the name
/// of the refusal.
pub fn line_of(alloc: Global, text: &str) -> Result<String, AllocError> {
    match read_twice(alloc, text) {
        Ok(group) => told(alloc, &group),
        Err(error) => format!(in alloc; "{error:?}"),
    }
}
