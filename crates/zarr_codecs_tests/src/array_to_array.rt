//! Codecs that turn elements into elements: what they tell of the level below, and elements that go down and come up.

ghost use Rattle.std.specs.Prelude.{◌≡◌, true};
ghost use Rattle.zarrs_codec_traits.specs.Prelude.{uint_type, ends_within, region as box_of};
ghost use Rattle.zarrs_codec_traits.specs.Prelude.{lengths, IsFit};

use crate::makers::{columns, fill, line, numbers, second, table};
use crate::texts::{is_text, told};
use std::alloc::{AllocError, Global};
use std::num::NonZeroU64;
use std::process::Abort;
use zarr_codecs::{BasicArrayToArray, TransposeCodec};
use zarr_codecs_array_to_array::OffsetCodec;
use zarrs_array_subset::ArraySubset;
use zarrs_codec_error::CodecOptions;
use zarrs_codec_traits::{ArrayCodecTraits, ArrayToArrayCodecTraits};
use zarrs_data_type::DataType;

// The type and the fill value below numbers of a byte, also behind the shape.
fn level_below<A: ArrayToArrayCodecTraits>(
    rt: &impl Abort,
    alloc: Global,
    codec: &A,
    shape: &[NonZeroU64],
) -> Result<String, AllocError>
    requires { IsFit (lengths shape.now) (uint_type 1) }
{
    let (of, fill) = (DataType::UInt8, fill(rt, alloc, &[10]));
    let data_type = codec.encoded_data_type(alloc, &of);
    let below = codec.encoded_fill_value(alloc, &of, &fill);
    let below = below.expect(rt, "a fill value");
    let level = codec.encoded_representation(alloc, shape, &of, &fill);
    let (shape, of_level, fill) = level.expect(rt, "a level");
    format!(in alloc; "{data_type:?} {below} {shape:?} {of_level:?} {fill}")
}

// The shapes below and above a shape, that of what is decoded at once, and the box below a region.
fn shapes<A: ArrayToArrayCodecTraits>(
    alloc: Global,
    codec: &A,
    shape: &[NonZeroU64],
    region: &ArraySubset,
) -> Result<String, AllocError>
    requires { ends_within (box_of region.now) (lengths shape.now) ≡ true }
{
    let below = codec.encoded_shape(alloc, shape);
    let above = codec.decoded_shape(alloc, shape);
    let at_once = codec.partial_decode_granularity(alloc, shape);
    let inner = codec.inner_subset(alloc, region, shape);
    format!(in alloc; "{below:?} {above:?} {at_once:?} {inner:?}")
}

// Numbers of a byte of a region, out of those of the box below.
fn come_up<A: ArrayToArrayCodecTraits>(
    rt: &impl Abort,
    alloc: Global,
    codec: &A,
    shape: &[NonZeroU64],
    region: &ArraySubset,
    below: &'static [u8],
) -> Result<String, AllocError>
    requires fits { IsFit (lengths shape.now) (uint_type 1) }
    requires inside { ends_within (box_of region.now) (lengths shape.now) ≡ true }
{
    let (fill, options) = (fill(rt, alloc, &[10]), CodecOptions::default());
    let (below, of) = (numbers(below), DataType::UInt8);
    told(
        alloc,
        codec.decode_region(alloc, below, region, shape, &of, &fill, &options),
    )
}

// All numbers of a shape, out of those below.
fn decoded<A: ArrayToArrayCodecTraits>(
    rt: &impl Abort,
    alloc: Global,
    codec: &A,
    shape: &[NonZeroU64],
    below: &'static [u8],
) -> Result<String, AllocError>
    requires { IsFit (lengths shape.now) (uint_type 1) }
{
    let (fill, options) = (fill(rt, alloc, &[10]), CodecOptions::default());
    let (below, of) = (numbers(below), DataType::UInt8);
    told(
        alloc,
        codec.decode(alloc, below, shape, &of, &fill, &options),
    )
}

// The numbers below those of a shape.
fn encoded<A: ArrayToArrayCodecTraits>(
    rt: &impl Abort,
    alloc: Global,
    codec: &A,
    shape: &[NonZeroU64],
    above: &'static [u8],
) -> Result<String, AllocError>
    requires { IsFit (lengths shape.now) (uint_type 1) }
{
    let (fill, options) = (fill(rt, alloc, &[10]), CodecOptions::default());
    let (above, of) = (numbers(above), DataType::UInt8);
    told(
        alloc,
        codec.encode(alloc, above, shape, &of, &fill, &options),
    )
}

// Two numbers, and the second of them.
#[test]
fn an_offset_is_put_on_below(rt: HostRuntime) {
    let (alloc, codec) = (rt.alloc(), BasicArrayToArray::Offset(OffsetCodec::new(250)));
    let (shape, region) = (line(&rt, alloc, 2), second(&rt, alloc));
    let level = level_below(&rt, alloc, &codec, &shape);
    is_text(&rt, level, "Ok(UInt8) [4] [2] UInt8 [4]");
    is_text(
        &rt,
        shapes(alloc, &codec, &shape, &region),
        "Ok([2]) Ok(Some([2])) Ok([2]) Ok(ArraySubset { start: [1], shape: [1] })",
    );
    let up = come_up(&rt, alloc, &codec, &shape, &region, &[5]);
    is_text(&rt, up, "[11]");
    let down = encoded(&rt, alloc, &codec, &shape, &[11, 5]);
    is_text(&rt, down, "[5, 255]");
    let up = decoded(&rt, alloc, &codec, &shape, &[5, 255]);
    is_text(&rt, up, "[11, 5]");
}

// Two rows and three columns, whose columns are rows below, and the last two of them.
#[test]
fn dimensions_are_ordered_anew_below(rt: HostRuntime) {
    let alloc = rt.alloc();
    let order = vec![in alloc; 1, 0].expect(&rt, "memory");
    let codec = BasicArrayToArray::Transpose(TransposeCodec::new(order));
    let (shape, region) = (table(&rt, alloc), columns(&rt, alloc));
    let level = level_below(&rt, alloc, &codec, &shape);
    is_text(&rt, level, "Ok(UInt8) [10] [3, 2] UInt8 [10]");
    is_text(
        &rt,
        shapes(alloc, &codec, &shape, &region),
        "Ok([3, 2]) Ok(Some([3, 2])) Ok([2, 3]) Ok(ArraySubset { start: [1, 0], shape: [2, 2] })",
    );
    let up = come_up(&rt, alloc, &codec, &shape, &region, &[2, 5, 3, 6]);
    is_text(&rt, up, "[2, 3, 5, 6]");
    let down = encoded(&rt, alloc, &codec, &shape, &[1, 2, 3, 4, 5, 6]);
    is_text(&rt, down, "[1, 4, 2, 5, 3, 6]");
    let up = decoded(&rt, alloc, &codec, &shape, &[1, 4, 2, 5, 3, 6]);
    is_text(&rt, up, "[1, 2, 3, 4, 5, 6]");
}
