//! Copies of arrays.

ghost use Rattle.std.specs.Prelude.{◌≡◌, IfOk};
ghost use Rattle.zarrs_metadata_v2.specs.ArrayMetadataV2.{array_v2_seen, required_part_v2};

use crate::array::ArrayMetadataV2;
use crate::array::optional_parts::{copy_optional_parts, with_optional_parts};
use serde_json::Map;
use std::alloc::{AllocError, Global};
use zarrs_metadata_parts::{ChunkKeySeparator, Part};

// A copy of the array.
pub(crate) fn copy_array(
    alloc: Global,
    metadata: &ArrayMetadataV2,
) -> Result<ArrayMetadataV2, AllocError>
    ensures { IfOk result (λ copy. array_v2_seen copy ≡ array_v2_seen metadata.now) }
{
    let copy = copy_required_fields(alloc, metadata)?;
    let optional = copy_optional_parts(alloc, metadata)?;
    Ok(with_optional_parts(copy, optional))
}

// A copy of the fields that must be there, with the others as a new array has them.
fn copy_required_fields(
    alloc: Global,
    metadata: &ArrayMetadataV2,
) -> Result<ArrayMetadataV2, AllocError>
    ensures { IfOk result (λ copy. array_v2_seen copy
        ≡ required_part_v2 (array_v2_seen metadata.now)) }
{
    let shape = metadata.shape.as_slice().to_vec(alloc)?;
    let chunks = metadata.chunks.copy(alloc)?;
    let dtype = metadata.dtype.try_clone(alloc)?;
    let fill_value = metadata.fill_value.try_clone(alloc)?;
    Ok(ArrayMetadataV2 {
        shape,
        chunks,
        dtype,
        compressor: None,
        fill_value,
        order: metadata.order,
        filters: None,
        dimension_separator: ChunkKeySeparator::Dot,
        attributes: Map::new(alloc),
    })
}
