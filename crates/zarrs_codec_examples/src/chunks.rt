//! Handles on the elements of a chunk, over a handle on bytes.

ghost use Rattle.std.specs.Prelude.{◌≡◌, IsSome, IfOk};
ghost use Rattle.zarrs_codec_traits.specs.Prelude.{kind_of, fill_element, fill_bytes, type_of};
ghost use Rattle.zarrs_codec_traits.specs.Prelude.{lengths, level_of, IsFit};
ghost use Rattle.zarrs_codec_partial_elements.specs.Level.{level_of_bottom, bottom_fill};

use std::alloc::Global;
use zarrs_array_subset::ChunkShape;
use zarrs_codec::BytesPartialDecoderTraits;
use zarrs_codec_error::CodecError;
use zarrs_codec_partial::ArrayToArrayCodecPartialDefault;
use zarrs_codec_partial_elements::ArrayToBytesCodecPartialDefault;
use zarrs_codec_traits::{ArrayToArrayCodecTraits, ArrayToBytesCodecTraits};
use zarrs_data_type::DataType;
use zarrs_data_type_bytes::FillValue;

/// A chunk through an array-to-array codec and an array-to-bytes codec.
pub type Chunk<H, A, B> = ArrayToArrayCodecPartialDefault<ArrayToBytesCodecPartialDefault<H, B>, A>;

/// The elements that a handle's value decodes to, by an array-to-array codec over any array-to-bytes codec.
///
/// # Errors
/// [`CodecError`] where the first codec does not serve the shape, the data type and the fill value, or memory runs out.
pub fn chunk_of<
    H: BytesPartialDecoderTraits + Drop,
    A: ArrayToArrayCodecTraits + Drop,
    B: ArrayToBytesCodecTraits + Drop,
>(
    alloc: Global,
    handle: H,
    shape: ChunkShape,
    data_type: DataType,
    fill_value: FillValue,
    array_codec: A,
    bytes_codec: B,
) -> Result<Chunk<H, A, B>, CodecError>
    requires fits { IsFit (lengths shape.items) (type_of data_type) }
    requires denotes { IsSome (fill_element (kind_of (type_of data_type)) (fill_bytes fill_value)) }
    ensures level { IfOk result (λ c. c.level ≡ record {
      codec = array_codec;
      shape = shape;
      data_type = data_type;
      fill_value = fill_value;
    }) }
    ensures below { IfOk result (λ c. level_of_bottom c.handle.level
        ≡ (A.meaning array_codec).level_below (level_of shape.items data_type fill_value)) }
    ensures fill { IfOk result (λ c. bottom_fill c.handle.level
        ≡ A.fill_below array_codec (type_of data_type) (fill_bytes fill_value)) }
    ensures codec { IfOk result (λ c. c.handle.level.codec ≡ bytes_codec) }
    ensures handle { IfOk result (λ c. c.handle.handle ≡ handle) }
{
    match array_codec.encoded_representation(alloc, &shape, &data_type, &fill_value) {
        Ok((shape_below, type_below, fill_below)) => {
            let elements = ArrayToBytesCodecPartialDefault::new(
                handle,
                shape_below,
                type_below,
                fill_below,
                bytes_codec,
            );
            Ok(ArrayToArrayCodecPartialDefault::new(
                elements,
                shape,
                data_type,
                fill_value,
                array_codec,
            ))
        }
        Err(error) => Err(error),
    }
}
