//! Names of dimensions.

use crate::texts::{owned, says};
use std::alloc::Global;
use std::process::Abort;
use zarrs_metadata_parts::IntoDimensionName;

// That a value names a dimension `x`.
fn is_x<N: IntoDimensionName>(rt: &impl Abort, alloc: Global, what: &str, name: N) {
    let name = name.into_dimension_name(alloc).expect(rt, what);
    says(rt, alloc, &name, "Some(\"x\")");
}

#[test]
fn dimensions_have_names(rt: HostRuntime) {
    let alloc = rt.alloc();
    is_x(&rt, alloc, "a slice", "x");
    is_x(&rt, alloc, "some slice", Some("x"));
    is_x(&rt, alloc, "a text", owned(&rt, alloc, "x"));
    is_x(&rt, alloc, "some text", Some(owned(&rt, alloc, "x")));
}
