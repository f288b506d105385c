//! Rows of documents of either version: what a text is read as, and how that is written.

use std::alloc::{AllocError, Global};
use zarrs_metadata::{ArrayMetadata, GroupMetadata, MetadataError, NodeMetadata};

fn of_pretty_text(alloc: Global, node: &NodeMetadata) -> Result<NodeMetadata, MetadataError> {
    let text = node.to_string_pretty(alloc)?;
    NodeMetadata::try_from_text(alloc, text.as_str())
}

fn of_value_and_copy(alloc: Global, node: &NodeMetadata) -> Result<NodeMetadata, MetadataError> {
    let value = node.to_value(alloc)?;
    let again = NodeMetadata::from_value(alloc, &value)?;
    Ok(again.try_clone(alloc)?)
}

// The document that a text is, written as pretty text and read, made a value and read, and copied.
fn read_again(alloc: Global, text: &str) -> Result<NodeMetadata, MetadataError> {
    let node = NodeMetadata::try_from_text(alloc, text)?;
    let again = of_pretty_text(alloc, &node)?;
    of_value_and_copy(alloc, &again)
}

fn kind_of(node: &NodeMetadata) -> &'static str {
    match node {
        NodeMetadata::Array(ArrayMetadata::V3(_)) => "array 3",
        NodeMetadata::Array(ArrayMetadata::V2(_)) => "array 2",
        NodeMetadata::Group(GroupMetadata::V3(_)) => "group 3",
        NodeMetadata::Group(GroupMetadata::V2(_)) => "group 2",
    }
}

fn written(alloc: Global, node: &NodeMetadata) -> Result<String, AllocError> {
    let value = node.to_value(alloc)?;
    value.to_string(alloc)
}

fn of_node(alloc: Global, node: &NodeMetadata) -> Result<String, AllocError> {
    let text = written(alloc, node)?;
    format!(in alloc; "{} {}", kind_of(node), text.as_str())
}

/// The kind and the version of the document that a text is and its text as it is written, or the name of the refusal.
pub fn line_of(alloc: Global, text: &str) -> Result<String, AllocError> {
    match read_again(alloc, text) {
        Ok(node) => of_node(alloc, &node),
        Err(error) => format!(in alloc; "{error:?}"),
    }
}

/// The pretty text of the document that a text is, or the name of the refusal.
pub fn pretty_text(alloc: Global, text: &str) -> Result<String, AllocError> {
    match NodeMetadata::try_from_text(alloc, text) {
        Ok(node) => node.to_string_pretty(alloc),
        Err(error) => format!(in alloc; "{error:?}"),
    }
}
