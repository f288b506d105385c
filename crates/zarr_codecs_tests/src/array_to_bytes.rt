//! Codecs that turn elements into bytes: what each call answers where all is well.

ghost use Rattle.std.specs.Prelude.{◌≡◌, [], ◌∷◌, true, None};
ghost use Rattle.zarrs_codec_traits.specs.Prelude.{ends_within, region as box_of};
ghost use Rattle.zarrs_codec_traits.specs.Prelude.{type_of, lengths, IsFit};

use crate::makers::{columns, fill, line, optional, optional_numbers, owned, second, table, texts};
use crate::texts::{elements_text, is_text, told};
use std::alloc::{AllocError, Global};
use std::borrow::CowSlice;
use std::num::NonZeroU64;
use std::process::Abort;
use zarr_codecs::BasicArrayToBytes;
use zarr_codecs_to_bytes::{BytesCodec, VlenCodec};
use zarr_model::Endianness;
use zarrs_array_subset::ArraySubset;
use zarrs_codec_array_bytes::ArrayBytes;
use zarrs_codec_error::CodecOptions;
use zarrs_codec_traits::{ArrayCodecTraits, ArrayToBytesCodecTraits};
use zarrs_data_type::DataType;
use zarrs_storage::extract_byte_ranges;

// The value of elements.
fn stored<C: ArrayToBytesCodecTraits>(
    rt: &impl Abort,
    alloc: Global,
    codec: &C,
    elements: ArrayBytes<'static>,
    shape: &[NonZeroU64],
    data_type: &DataType,
) -> Vec<u8>
    requires { IsFit (lengths shape.now) (type_of data_type.now) }
{
    let (fill, options) = (fill(rt, alloc, &[]), CodecOptions::default());
    let value = codec.encode(alloc, elements, shape, data_type, &fill, &options);
    value.expect(rt, "a value")
}

// The elements of a value.
fn taken<C: ArrayToBytesCodecTraits>(
    rt: &impl Abort,
    alloc: Global,
    codec: &C,
    value: &[u8],
    shape: &[NonZeroU64],
    data_type: &DataType,
) -> Result<String, AllocError>
    requires { IsFit (lengths shape.now) (type_of data_type.now) }
{
    let (fill, options) = (fill(rt, alloc, &[]), CodecOptions::default());
    let value = owned(rt, alloc, value);
    let elements = codec.decode(alloc, value, shape, data_type, &fill, &options);
    elements_text(alloc, &elements.expect(rt, "elements"))
}

// The shape that is decoded at once, whether parts of a value are asked for a region, and what is stored in place of
// the value.
fn asked<C: ArrayToBytesCodecTraits>(
    rt: &impl Abort,
    alloc: Global,
    codec: &C,
    value: &[u8],
    region: &ArraySubset,
    shape: &[NonZeroU64],
    data_type: &DataType,
) -> Result<String, AllocError>
    requires fits { IsFit (lengths shape.now) (type_of data_type.now) }
    requires inside { ends_within (box_of region.now) (lengths shape.now) ≡ true }
{
    let (fill, options) = (fill(rt, alloc, &[]), CodecOptions::default());
    let at_once = codec.partial_decode_granularity(alloc, shape);
    let request = codec.byte_request(alloc, region, shape, data_type);
    let value = owned(rt, alloc, value);
    let other = codec.compact(alloc, value, shape, data_type, &fill, &options);
    format!(in alloc; "{at_once:?} {request:?} {other:?}")
}

// The elements of a region, out of the whole value.
fn part<C: ArrayToBytesCodecTraits>(
    rt: &impl Abort,
    alloc: Global,
    codec: &C,
    value: &[u8],
    region: &ArraySubset,
    shape: &[NonZeroU64],
    data_type: &DataType,
) -> Result<String, AllocError>
    requires fits { IsFit (lengths shape.now) (type_of data_type.now) }
    requires inside { ends_within (box_of region.now) (lengths shape.now) ≡ true }
    requires whole { C.request codec.now (lengths shape.now) (type_of data_type.now)
        (box_of region.now) ≡ None }
{
    let (fill, options) = (fill(rt, alloc, &[]), CodecOptions::default());
    let parts = vec![in alloc; owned(rt, alloc, value)].expect(rt, "memory");
    let elements = codec.decode_parts(alloc, parts, region, shape, data_type, &fill, &options);
    elements_text(alloc, &elements.expect(rt, "elements"))
}

// Two elements are stored as a value. They come back out of it, and the second one of them alone.
fn is_coded<C: ArrayToBytesCodecTraits>(
    rt: &impl Abort,
    alloc: Global,
    codec: &C,
    data_type: &DataType,
    elements: ArrayBytes<'static>,
    value: &[u8],
    wants: (&str, &str),
)
    requires fits { IsFit (2 ∷ []) (type_of data_type.now) }
    requires whole { C.request codec.now (2 ∷ []) (type_of data_type.now)
        (record { start = 1; size = 1 } ∷ []) ≡ None }
{
    let (all, last) = wants;
    let (shape, region) = (line(rt, alloc, 2), second(rt, alloc));
    let made = stored(rt, alloc, codec, elements, &shape, data_type);
    assert_eq!(rt; made.as_slice(), value);
    is_text(rt, taken(rt, alloc, codec, value, &shape, data_type), all);
    let told = asked(rt, alloc, codec, value, &region, &shape, data_type);
    is_text(rt, told, "Ok([2]) Ok(None) Ok(None)");
    let told = part(rt, alloc, codec, value, &region, &shape, data_type);
    is_text(rt, told, last);
}

#[test]
fn texts_are_coded(rt: HostRuntime) {
    let elements = texts(&rt, b"abc", &[0, 1, 3]);
    let value = [2, 0, 0, 0, 1, 0, 0, 0, 97, 2, 0, 0, 0, 98, 99];
    let wants = ("[97, 98, 99] [0, 1, 3]", "[98, 99] [0, 2]");
    let codec = BasicArrayToBytes::Vlen(VlenCodec::new(true));
    is_coded(
        &rt,
        rt.alloc(),
        &codec,
        &DataType::String,
        elements,
        &value,
        wants,
    );
}

// The first of two numbers is null.
#[test]
fn optional_numbers_are_coded(rt: HostRuntime) {
    let alloc = rt.alloc();
    let numbers = ArrayBytes::from(&[7, 8]);
    let elements = numbers.with_optional_mask(alloc, CowSlice::Borrowed(&[0, 1]));
    let elements = elements.expect(&rt, "memory");
    let data_type = optional_numbers(&rt, alloc);
    let codec = BasicArrayToBytes::Optional(optional(&rt, alloc));
    let (value, wants) = ([0, 1, 7, 8], ("[0, 1] [7, 8]", "[1] [8]"));
    is_coded(&rt, alloc, &codec, &data_type, elements, &value, wants);
}

// The ranges that are asked for the last two columns of two rows of three numbers of two bytes, and these out of them.
fn columns_of(rt: &impl Abort, alloc: Global, value: &[u8]) -> Result<String, AllocError> {
    let codec = BytesCodec::new(Some(Endianness::Big));
    let (shape, region) = (table(rt, alloc), columns(rt, alloc));
    let asked = codec.byte_request(alloc, &region, &shape, &DataType::UInt16);
    let Some(ranges) = asked.expect(rt, "ranges") else {
        return String::from_str(alloc, "all");
    };
    let parts = extract_byte_ranges(alloc, value, &ranges).expect(rt, "parts");
    let (fill, options) = (fill(rt, alloc, &[]), CodecOptions::default());
    let data_type = DataType::UInt16;
    let made = codec.decode_parts(alloc, parts, &region, &shape, &data_type, &fill, &options);
    let numbers = told(alloc, made)?;
    format!(in alloc; "{ranges:?} {numbers}")
}

#[test]
fn regions_are_read_by_their_runs(rt: HostRuntime) {
    let value = [1, 2, 3, 4, 5, 6, 7, 8, 9, 10, 11, 12];
    is_text(
        &rt,
        columns_of(&rt, rt.alloc(), &value),
        "[FromStart(2, Some(4)), FromStart(8, Some(4))] [4, 3, 6, 5, 10, 9, 12, 11]",
    );
}
