//! Codecs made of metadata of either version, and the metadata that they have.

use crate::texts::{cut, is_text};
use std::alloc::{AllocError, Global};
use std::process::Abort;
use zarr_basics::{Registries, builtin_registries};
use zarr_codecs::BasicCodec;
use zarrs_codec_error::CodecMetadataOptions;
use zarrs_codec_traits::CodecMetadata;
use zarrs_metadata_parts::{MetadataV2, MetadataV3};
use zarrs_plugin::ZarrVersion;

const VERSION_3: &str = r#"
"bytes" -> bytes {}
{"name":"bytes","configuration":{"endian":"big"}} -> bytes {"endian":"big"}
{"name":"bytes","configuration":{"endian":"little"}} -> bytes {"endian":"little"}
{"name":"bytes","configuration":{"endian":null}} -> bytes {}
{"name":"bytes","configuration":{"endian":"middle"}} -> Config
{"name":"bytes","configuration":{"endian":"big","order":1}} -> Config
"zarr_basics.sha256" -> zarr_basics.sha256 {}
{"name":"zarr_basics.sha256"} -> zarr_basics.sha256 {}
{"name":"zarr_basics.sha256","configuration":{}} -> zarr_basics.sha256 {}
{"name":"zarr_basics.sha256","configuration":{"rounds":1}} -> Config
{"name":"zarr_basics.offset","configuration":{"offset":250}} -> zarr_basics.offset {"offset":250}
{"name":"zarr_basics.offset","configuration":{"offset":-9223372036854775808}} -> zarr_basics.offset {"offset":-9223372036854775808}
{"name":"zarr_basics.offset","configuration":{"offset":18446744073709551615}} -> zarr_basics.offset {"offset":18446744073709551615}
{"name":"zarr_basics.offset","configuration":{"offset":"1"}} -> Config
{"name":"zarr_basics.offset","configuration":{}} -> Config
"zarr_basics.offset" -> Config
{"name":"transpose","configuration":{"order":[1,0]}} -> transpose {"order":[1,0]}
{"name":"transpose","configuration":{"order":[2,0,1]}} -> transpose {"order":[2,0,1]}
{"name":"transpose","configuration":{"order":[0]}} -> transpose {"order":[0]}
{"name":"transpose","configuration":{"order":[]}} -> transpose {"order":[]}
{"name":"transpose","configuration":{"order":[0,0]}} -> Config
{"name":"transpose","configuration":{"order":[1]}} -> Config
{"name":"transpose","configuration":{"order":[0,2]}} -> Config
{"name":"transpose","configuration":{"order":[-1,0]}} -> Config
{"name":"transpose","configuration":{"order":[18446744073709551615]}} -> Config
{"name":"transpose","configuration":{"order":["0"]}} -> Config
{"name":"transpose","configuration":{"order":"C"}} -> Config
{"name":"transpose","configuration":{"order":[0],"more":1}} -> Config
{"name":"transpose","configuration":{"axes":[0]}} -> Config
{"name":"transpose","configuration":{}} -> Config
"transpose" -> Config
"vlen-bytes" -> vlen-bytes {}
"zstd" -> Unsupported(PluginUnsupportedError { name: "zstd", kind: Codec })
"vlen-utf8" -> vlen-utf8 {}
{"name":"vlen-bytes","configuration":{}} -> vlen-bytes {}
{"name":"vlen-utf8","configuration":{"a":1}} -> Config
{"name":"zarr_basics.optional","configuration":{"inner":"bytes"}} -> zarr_basics.optional {"inner":{"name":"bytes"}}
{"name":"zarr_basics.optional","configuration":{"inner":"vlen-utf8"}} -> zarr_basics.optional {"inner":{"name":"vlen-utf8"}}
{"name":"zarr_basics.optional","configuration":{"inner":{"name":"zarr_basics.optional","configuration":{"inner":{"name":"bytes","configuration":{"endian":"big"}}}}}} -> zarr_basics.optional {"inner":{"configuration":{"inner":{"configuration":{"endian":"big"},"name":"bytes"}},"name":"zarr_basics.optional"}}
{"name":"zarr_basics.optional","configuration":{"inner":"zstd"}} -> Unsupported(PluginUnsupportedError { name: "zstd", kind: Codec })
{"name":"zarr_basics.optional","configuration":{"inner":"zarr_basics.sha256"}} -> Config
{"name":"zarr_basics.optional","configuration":{"inner":{"name":"zarr_basics.offset","configuration":{"offset":1}}}} -> Config
{"name":"zarr_basics.optional","configuration":{"inner":{"name":"transpose","configuration":{"order":[0]}}}} -> Config
{"name":"zarr_basics.optional","configuration":{"inner":{"name":"bytes","configuration":{"a":1}}}} -> Config
{"name":"zarr_basics.optional","configuration":{"inner":"bytes","more":1}} -> Config
{"name":"zarr_basics.optional","configuration":{"inner":7}} -> Config
"zarr_basics.optional" -> Config
"#;

const VERSION_2: &str = r#"
{"id":"zarr_basics.offset","offset":-3} -> zarr_basics.offset {"offset":-3}
{"id":"transpose","order":[1,0]} -> transpose {"order":[1,0]}
{"id":"transpose","order":[1,1]} -> Config
{"id":"bytes","endian":"little"} -> bytes {"endian":"little"}
{"id":"zarr_basics.sha256"} -> zarr_basics.sha256 {}
{"id":"zarr_basics.offset","offset":1,"more":2} -> Config
{"id":"vlen-utf8"} -> vlen-utf8 {}
{"id":"vlen-bytes","a":1} -> Config
{"id":"zarr_basics.optional","inner":"vlen-bytes"} -> zarr_basics.optional {"inner":{"name":"vlen-bytes"}}
{"id":"zarr_basics.optional"} -> Config
{"id":"blosc"} -> Unsupported(PluginUnsupportedError { name: "blosc", kind: Codec })
"#;

// The metadata that a codec has in a version.
fn written(
    rt: &impl Abort,
    alloc: Global,
    codec: &BasicCodec,
    version: ZarrVersion,
) -> Result<String, AllocError> {
    let options = CodecMetadataOptions::default();
    let name = codec.name(alloc, version).expect(rt, "memory");
    let configuration = codec.configuration(alloc, version, &options);
    match (name, configuration.expect(rt, "memory")) {
        (Some(name), Some(configuration)) => {
            MetadataV3::new_with_configuration(name, configuration).to_display(alloc)
        }
        _ => String::from_str(alloc, "no name"),
    }
}

// The metadata that the codec which metadata denotes has in both versions, or why there is none.
fn is_made(
    rt: &impl Abort,
    alloc: Global,
    registries: &Registries,
    metadata: CodecMetadata<'_>,
    want: &str,
) {
    match BasicCodec::from_metadata(alloc, metadata, &registries.codecs) {
        Ok(codec) => {
            is_text(rt, written(rt, alloc, &codec, ZarrVersion::V3), want);
            is_text(rt, written(rt, alloc, &codec, ZarrVersion::V2), want);
        }
        Err(error) => is_text(rt, format!(in alloc; "{error:?}"), want),
    }
}

#[test]
fn codecs_are_made_of_version_3(rt: HostRuntime) {
    let (alloc, registries) = (rt.alloc(), builtin_registries(rt.alloc()));
    let registries = registries.expect(&rt, "memory");
    for row in VERSION_3.trim().lines() {
        let (text, want) = cut(row);
        let metadata = MetadataV3::try_from_text(alloc, text).expect(&rt, text);
        let metadata = CodecMetadata::V3(&metadata);
        is_made(&rt, alloc, &registries, metadata, want);
    }
}

#[test]
fn codecs_are_made_of_version_2(rt: HostRuntime) {
    let (alloc, registries) = (rt.alloc(), builtin_registries(rt.alloc()));
    let registries = registries.expect(&rt, "memory");
    for row in VERSION_2.trim().lines() {
        let (text, want) = cut(row);
        let metadata = MetadataV2::try_from_text(alloc, text).expect(&rt, text);
        let metadata = CodecMetadata::V2(&metadata);
        is_made(&rt, alloc, &registries, metadata, want);
    }
}
