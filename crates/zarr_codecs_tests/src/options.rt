//! Options of single codecs.

use serde_json::{Map, Value};
use std::alloc::Global;
use std::process::Abort;
use zarrs_codec_error::CodecSpecificOptions;
use zarrs_metadata_values::Configuration;

// Options with a level for a codec.
fn with_level(
    rt: &impl Abort,
    alloc: Global,
    options: CodecSpecificOptions,
    name: &str,
    level: u64,
) -> CodecSpecificOptions {
    let mut members = Map::new(alloc);
    serde_json::put(&mut members, alloc, "level", Value::from(level)).expect(rt, "memory");
    let option = Configuration::new(members);
    options
        .with_option(alloc, name, option)
        .expect(rt, "memory")
}

// The level that a codec was given.
fn level_of(options: &CodecSpecificOptions, name: &str) -> Option<u64> {
    let option = options.get_option(name)?;
    option.as_map().get("level")?.as_u64()
}

#[test]
fn later_options_replace_earlier_ones(rt: HostRuntime) {
    let alloc = rt.alloc();
    let options = with_level(&rt, alloc, CodecSpecificOptions::new(alloc), "gzip", 1);
    let options = with_level(&rt, alloc, options, "gzip", 3);
    let copy = options.try_clone(alloc).expect(&rt, "memory");
    assert_eq!(rt; level_of(&copy, "gzip"), Some(3));
    assert_eq!(rt; level_of(&copy, "blosc"), None);
}
