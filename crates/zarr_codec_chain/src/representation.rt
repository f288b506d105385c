//! What the elements of one level are.

ghost use Rattle.std.specs.Prelude.{◌≡◌, ◌<◌, IfOk};
ghost use Rattle.std.specs.List.{AllByRecursion};
ghost use Rattle.zarrs_codec_traits.specs.Prelude.{fill_bytes, level_of};

use std::alloc::{AllocError, Global};
use std::num::NonZeroU64;
use zarrs_array_subset::ChunkShape;
use zarrs_codec_traits::same_shape;
use zarrs_data_type::DataType;
use zarrs_data_type_bytes::{FillValue, are_bytes};

/// The shape, the data type and the fill value of a chunk at one level.
#[derive(Drop)]
pub struct ChunkRepresentation {
    /// The shape.
    pub shape: ChunkShape,
    /// The data type.
    pub data_type: DataType,
    /// The fill value.
    pub fill_value: FillValue,
}

impl ChunkRepresentation {
    ghost use Rattle.zarr_codec_chain.specs.Levels.{level_at, fill_at};

    /// Copies of these.
    ///
    /// # Errors
    /// [`AllocError`] where memory runs out.
    pub fn copied(
        alloc: Global,
        shape: &[NonZeroU64],
        data_type: &DataType,
        fill_value: &FillValue,
    ) -> Result<ChunkRepresentation, AllocError>
        ensures level { IfOk result
            (λ at. level_at at ≡ level_of shape.now data_type.now fill_value.now) }
        ensures fill { IfOk result (λ at. fill_at at ≡ fill_bytes fill_value.now) }
        ensures proper { AllByRecursion (λ b. b < 256) (fill_bytes fill_value.now) }
    {
        are_bytes(fill_value.as_ne_bytes());
        let shape = same_shape(alloc, shape)?;
        let data_type = data_type.try_clone(alloc)?;
        let fill_value = fill_value.try_clone(alloc)?;
        Ok(ChunkRepresentation {
            shape,
            data_type,
            fill_value,
        })
    }
}
