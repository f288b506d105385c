//! Fill values that are made of numbers.

use crate::texts::is_text;
use std::alloc::{AllocError, Global};
use std::process::Abort;
use zarrs_data_type_bytes::FillValue;

type Made = Result<FillValue, AllocError>;

// Fill values, and their bytes.
fn made(alloc: Global) -> [(Made, &'static str); 10] {
    [
        (FillValue::from_u8(alloc, 255), "[255]"),
        (FillValue::from_u16(alloc, 513), "[1, 2]"),
        (FillValue::from_u32(alloc, 305_419_896), "[120, 86, 52, 18]"),
        (
            FillValue::from_u64(alloc, 1 << 40),
            "[0, 0, 0, 0, 0, 1, 0, 0]",
        ),
        (FillValue::from_i8(alloc, -128), "[128]"),
        (FillValue::from_i16(alloc, -2), "[254, 255]"),
        (FillValue::from_i32(alloc, -70_000), "[144, 238, 254, 255]"),
        (
            FillValue::from_i64(alloc, -1_234_567_890_123),
            "[53, 251, 4, 142, 224, 254, 255, 255]",
        ),
        (FillValue::from_array(alloc, [1, 2]), "[1, 2]"),
        (FillValue::from_option(alloc, None), "[0]"),
    ]
}

fn is_fill(rt: &impl Abort, alloc: Global, made: Made, want: &str) {
    match made {
        Ok(fill) => is_text(rt, format!(in alloc; "{fill}"), want),
        Err(_) => assert!(rt; false, "no memory: {want}"),
    }
}

#[test]
fn fills_are_made(rt: HostRuntime) {
    for (made, want) in made(rt.alloc()) {
        is_fill(&rt, rt.alloc(), made, want);
    }
}
