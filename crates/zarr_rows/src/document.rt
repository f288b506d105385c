//! Rows of documents: what a text is read as, and how that is written.

use std::alloc::{AllocError, Global};
use zarrs_metadata::{MetadataError, NodeMetadataV3};

fn of_pretty_text(alloc: Global, node: &NodeMetadataV3) -> Result<NodeMetadataV3, MetadataError> {
    let text = node.to_string_pretty(alloc)?;
    NodeMetadataV3::try_from_text(alloc, text.as_str())
}

fn of_value(alloc: Global, node: &NodeMetadataV3) -> Result<NodeMetadataV3, MetadataError> {
    let value = node.to_value(alloc)?;
    NodeMetadataV3::from_value(alloc, &value)
}

fn of_value_and_copy(
    alloc: Global,
    node: &NodeMetadataV3,
) -> Result<NodeMetadataV3, MetadataError> {
    let again = of_value(alloc, node)?;
    Ok(again.try_clone(alloc)?)
}

// The document that a text is, written as pretty text and read, made a value and read, and copied.
fn read_again(alloc: Global, text: &str) -> Result<NodeMetadataV3, MetadataError> {
    let node = NodeMetadataV3::try_from_text(alloc, text)?;
    let again = of_pretty_text(alloc, &node)?;
    of_value_and_copy(alloc, &again)
}

fn kind_of(node: &NodeMetadataV3) -> &'static str {
    match node {
        NodeMetadataV3::Array(_) => "array",
        NodeMetadataV3::Group(_) => "group",
    }
}

fn written(alloc: Global, node: &NodeMetadataV3) -> Result<String, AllocError> {
    let value = node.to_value(alloc)?;
    value.to_string(alloc)
}

fn of_node(alloc: Global, node: &NodeMetadataV3) -> Result<String, AllocError> {
    let text = written(alloc, node)?;
    format!(in alloc; "{} {}", kind_of(node), text.as_str())
}

/// The kind of document that a text is and its text as it is written, or the name of the refusal.
pub fn line_of(alloc: Global, text: &str) -> Result<String, AllocError> {
    match read_again(alloc, text) {
        Ok(node) => of_node(alloc, &node),
        Err(error) => format!(in alloc; "{error:?}"),
    }
}
