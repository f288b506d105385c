//! The levels of a chunk.

ghost use Rattle.std.specs.Prelude.{◌≡◌};
ghost use Rattle.zarrs_codec_traits.specs.Prelude.{fill_bytes, type_of, lengths};

use crate::representation::ChunkRepresentation;
use std::num::NonZeroU64;
use zarrs_data_type::DataType;
use zarrs_data_type_bytes::FillValue;

/// What the elements of a chunk are above each codec of a chain.
#[derive(Drop)]
pub struct ChunkLevels {
    /// Above each array-to-array codec, in the order of encoding.
    pub above: Vec<ChunkRepresentation>,
    /// Above the array-to-bytes codec.
    pub bottom: ChunkRepresentation,
}

impl ChunkLevels {
    ghost use Rattle.zarr_codec_chain.specs.Chain.{first_level, first_fill};

    /// The shape of a chunk.
    pub fn shape(&self) -> &[NonZeroU64]
        ensures { lengths result.now ≡ (first_level self.now).shape }
    {
        match self.above.first() {
            None => &self.bottom.shape,
            Some(first) => &first.shape,
        }
    }

    /// The data type of its elements.
    pub fn data_type(&self) -> &DataType
        ensures { type_of result.now ≡ (first_level self.now).data_type }
    {
        match self.above.first() {
            None => &self.bottom.data_type,
            Some(first) => &first.data_type,
        }
    }

    /// Its fill value.
    pub fn fill_value(&self) -> &FillValue
        ensures { fill_bytes result.now ≡ first_fill self.now }
    {
        match self.above.first() {
            None => &self.bottom.fill_value,
            Some(first) => &first.fill_value,
        }
    }
}
