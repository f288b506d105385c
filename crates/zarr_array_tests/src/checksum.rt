//! The CRC-32C of bytes as other programs write it.

use std::alloc::Global;
use std::process::Abort;
use zarr_codecs_to_bytes::Crc32cCodec;
use zarrs_codec_error::{BytesRepresentation, CodecOptions};
use zarrs_codec_traits::BytesToBytesCodecTraits;

#[test]
fn checksum_of_nine_digits(rt: HostRuntime) {
    let alloc = rt.alloc();
    let codec = Crc32cCodec::new();
    let options = CodecOptions::default();
    let digits = b"123456789".as_slice().to_vec(alloc).expect(&rt, "memory");
    let value = codec.encode(alloc, digits, &options).expect(&rt, "memory");
    assert_eq!(rt; value.as_slice(), b"123456789\x83\x92\x06\xe3".as_slice());
    let size = BytesRepresentation::UnboundedSize;
    let back = codec
        .decode(alloc, value, &size, &options)
        .expect(&rt, "the value");
    assert_eq!(rt; back.as_slice(), b"123456789".as_slice());
}

// Values of RFC 3720: 32 bytes of 0, and of 255.
#[test]
fn checksums_of_thirty_two_bytes(rt: HostRuntime) {
    let alloc = rt.alloc();
    assert_eq!(rt; ends(&rt, alloc, &[0; 32]), [170, 54, 145, 138]);
    assert_eq!(rt; ends(&rt, alloc, &[255; 32]), [67, 171, 168, 98]);
}

// What stands behind bytes once they are encoded.
fn ends(rt: &impl Abort, alloc: Global, bytes: &[u8]) -> [u8; 4] {
    let bytes = bytes.to_vec(alloc).expect(rt, "memory");
    let options = CodecOptions::default();
    let value = Crc32cCodec::new()
        .encode(alloc, bytes, &options)
        .expect(rt, "memory");
    match value.as_slice().last_chunk::<4>() {
        Some(last) => *last,
        None => panic!(rt; "no checksum"),
    }
}
