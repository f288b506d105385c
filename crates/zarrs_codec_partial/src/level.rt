//! An array-to-array codec with its level.

use zarrs_array_subset::ChunkShape;
use zarrs_data_type::DataType;
use zarrs_data_type_bytes::FillValue;

/// An array-to-array codec, with the shape, the data type and the fill value of what it encodes.
#[derive(Drop)]
pub struct ArrayLevel<A> {
    /// The codec.
    pub codec: A,
    /// The shape.
    pub shape: ChunkShape,
    /// The data type.
    pub data_type: DataType,
    /// The fill value.
    pub fill_value: FillValue,
}
