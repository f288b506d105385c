//! The codec of sharded chunks, on its way to success: the value that other programs write, and what it tells of
//! itself.

ghost use Rattle.std.specs.Prelude.{◌≡◌, true};
ghost use Rattle.zarrs_codec_traits.specs.Prelude.{ends_within, uint_type, region as box_of};
ghost use Rattle.zarrs_codec_traits.specs.Prelude.{lengths, type_of, IsFit};

use crate::made::are_elements;
use std::alloc::Global;
use std::borrow::CowSlice;
use std::num::NonZeroU64;
use std::process::Abort;
use zarr_array_open::builtin_registries;
use zarr_shard_codec::ShardCodec;
use zarrs_array_subset::ArraySubset;
use zarrs_codec_array_bytes::ArrayBytes;
use zarrs_codec_error::{CodecMetadataOptions, CodecOptions};
use zarrs_codec_traits::{ArrayCodecTraits, ArrayToBytesCodecTraits, CodecTraits};
use zarrs_data_type::DataType;
use zarrs_data_type_bytes::FillValue;
use zarrs_metadata_parts::MetadataV3;
use zarrs_plugin::{ExtensionName, ZarrVersion};

// The codec of chunks whose inner chunks have a length of 2.
const HALVES: &str =
    r#"{"name":"sharding_indexed","configuration":{"chunk_shape":[2],"codecs":["bytes"],"index_codecs":[{"name":"bytes","configuration":{"endian":"little"}}]}}"#;

// The value of a chunk of 0, 0, 10 and 11: the second half, the pair of a first one that is not there, and that of the
// second.
const VALUE: [u8; 34] =
    *b"\x0a\x0b\xff\xff\xff\xff\xff\xff\xff\xff\xff\xff\xff\xff\xff\xff\xff\xff\0\0\0\0\0\0\0\0\x02\0\0\0\0\0\0\0";

fn metadata(rt: &impl Abort, alloc: Global) -> MetadataV3 {
    MetadataV3::try_from_text(alloc, HALVES).expect(rt, "metadata")
}

fn fill_value(rt: &impl Abort, alloc: Global) -> FillValue {
    FillValue::new(vec![in alloc; 0].expect(rt, "memory"))
}

// It for chunks of bytes.
fn halves(rt: &impl Abort, alloc: Global, shape: &[NonZeroU64]) -> ShardCodec {
    let registries = builtin_registries(alloc).expect(rt, "memory");
    let (metadata, fill) = (metadata(rt, alloc), fill_value(rt, alloc));
    match ShardCodec::for_chunk(
        alloc,
        &metadata,
        shape,
        &DataType::UInt8,
        &fill,
        &registries,
    ) {
        Ok(codec) => codec,
        Err(_) => panic!(rt; "no codec"),
    }
}

// The value of bytes, which decodes to them.
fn value_of<C: ArrayToBytesCodecTraits>(
    rt: &impl Abort,
    alloc: Global,
    codec: &C,
    bytes: &'static [u8],
    shape: &[NonZeroU64],
    data_type: &DataType,
    fill: &FillValue,
) -> Vec<u8>
    requires { IsFit (lengths shape.now) (type_of data_type.now) }
{
    let options = CodecOptions::default();
    let elements = ArrayBytes::new_flen(CowSlice::Borrowed(bytes));
    let value = codec
        .encode(alloc, elements, shape, data_type, fill, &options)
        .expect(rt, "a value");
    let copy = value.as_slice().to_vec(alloc).expect(rt, "memory");
    let back = codec
        .decode(alloc, copy, shape, data_type, fill, &options)
        .expect(rt, "elements");
    assert!(rt; are_elements(&back, bytes));
    value
}

// The first half is left out, since all of it is the fill value.
#[test]
fn half_a_chunk_is_stored(rt: HostRuntime) {
    let alloc = rt.alloc();
    let shape = [NonZeroU64::new(4).expect(&rt, "a length")];
    let (codec, fill) = (halves(&rt, alloc, &shape), fill_value(&rt, alloc));
    let bytes = [0, 0, 10, 11].as_slice();
    let value = value_of(&rt, alloc, &codec, bytes, &shape, &DataType::UInt8, &fill);
    assert_eq!(rt; value.as_slice(), VALUE.as_slice());
}

// It has the name and the configuration of its metadata, and decodes an inner chunk at once.
#[test]
fn a_codec_tells_of_itself(rt: HostRuntime) {
    let alloc = rt.alloc();
    let shape = [NonZeroU64::new(4).expect(&rt, "a length")];
    let (codec, metadata) = (halves(&rt, alloc, &shape), metadata(&rt, alloc));
    let name = codec.name(alloc, ZarrVersion::V3).expect(&rt, "memory");
    assert!(rt; name.expect(&rt, "a name").as_str() == "sharding_indexed");
    let options = CodecMetadataOptions::default();
    let configuration = codec.configuration(alloc, ZarrVersion::V3, &options);
    assert!(rt; configuration.expect(&rt, "memory").as_ref() == metadata.configuration());
    let granularity = codec.partial_decode_granularity(alloc, &shape);
    let inner = [NonZeroU64::new(2).expect(&rt, "a length")];
    assert!(rt; granularity.expect(&rt, "memory").as_slice() == inner.as_slice());
}

// A region of the chunk asks for all of the value.
fn reads(
    rt: &impl Abort,
    alloc: Global,
    codec: &ShardCodec,
    region: &ArraySubset,
    shape: &[NonZeroU64],
    elements: &[u8],
)
    requires fits { IsFit (lengths shape.now) (uint_type 1) }
    requires inside { ends_within (box_of region.now) (lengths shape.now) ≡ true }
{
    let (data_type, fill) = (DataType::UInt8, fill_value(rt, alloc));
    let request = codec.byte_request(alloc, region, shape, &data_type);
    assert!(rt; request.expect(rt, "memory").is_none());
    let value = VALUE.as_slice().to_vec(alloc).expect(rt, "memory");
    let parts = vec![in alloc; value].expect(rt, "memory");
    let options = CodecOptions::default();
    let made = codec.decode_parts(alloc, parts, region, shape, &data_type, &fill, &options);
    assert!(rt; are_elements(&made.expect(rt, "elements"), elements));
}

#[test]
fn an_element_is_decoded_alone(rt: HostRuntime) {
    let alloc = rt.alloc();
    let shape = [NonZeroU64::new(4).expect(&rt, "a length")];
    let codec = halves(&rt, alloc, &shape);
    let region = ArraySubset::new_with_ranges(alloc, &[3..4]).expect(&rt, "memory");
    reads(&rt, alloc, &codec, &region, &shape, &[11]);
}
