//! Readers of documents of version 2 and of either version, and what is read again.

use crate::texts::is_text;
use std::alloc::Global;
use std::process::Abort;
use zarrs_metadata::laws::read_array_again;
use zarrs_metadata::{
    ArrayMetadata, ArrayMetadataV3, GroupMetadata, GroupMetadataV2, NodeMetadataV2,
};

const ARRAY: &str =
    r#"{"zarr_format":2,"shape":[2],"chunks":[1],"dtype":"|u1","fill_value":0,"order":"F"}"#;

const GROUP: &str = r#"{"zarr_format":2,"title":"height"}"#;

#[test]
fn documents_are_read(rt: HostRuntime) {
    let alloc = rt.alloc();
    assert!(rt;
        matches!(
            ArrayMetadata::try_from_text(alloc, ARRAY),
            Ok(ArrayMetadata::V2(_))
        )
    );
    assert!(rt;
        matches!(
            GroupMetadata::try_from_text(alloc, GROUP),
            Ok(GroupMetadata::V2(_))
        )
    );
    assert!(rt; GroupMetadataV2::try_from_text(alloc, GROUP).is_ok());
}

const PRETTY: &str = r#"{
  "title": "height",
  "zarr_format": 2
}"#;

#[test]
fn nodes_are_written(rt: HostRuntime) {
    let alloc = rt.alloc();
    match NodeMetadataV2::try_from_text(alloc, GROUP) {
        Ok(node) => is_text(&rt, node.to_string_pretty(alloc), PRETTY),
        Err(_) => assert!(rt; false, "a node"),
    }
}

const MADE: &str =
    r#"{"zarr_format":3,"node_type":"array","shape":[1000,700],"data_type":"int32","chunk_grid":"g","chunk_key_encoding":"v2","fill_value":0,"codecs":["bytes"],"late":{"must_understand":false}}"#;

// Whether the array is as it was once it is written and read again.
fn stays(rt: &impl Abort, alloc: Global, text: &str) -> bool {
    let array = ArrayMetadataV3::try_from_text(alloc, text).expect(rt, "an array");
    let again = read_array_again(alloc, &array).expect(rt, "an array");
    again == array
}

#[test]
fn arrays_stay(rt: HostRuntime) {
    assert!(rt; stays(&rt, rt.alloc(), MADE));
}
