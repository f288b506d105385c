//! Copies of arrays and of their parts.

ghost use Rattle.std.specs.Prelude.{◌≡◌, IfOk};
ghost use Rattle.zarrs_metadata.specs.ArrayMetadata.{array_seen, required_part};

use crate::v3::array::ArrayMetadataV3;
use crate::v3::named_parts::copy_named_parts;
use crate::v3::optional_parts::{copy_optional_parts, with_optional_parts};
use serde_json::Map;
use std::alloc::{AllocError, Global};
use std::collections::BTreeMap;
use zarrs_metadata_parts::Part;

// A copy of the array.
pub(crate) fn copy_array(
    alloc: Global,
    metadata: &ArrayMetadataV3,
) -> Result<ArrayMetadataV3, AllocError>
    ensures { IfOk result (λ copy. array_seen copy ≡ array_seen metadata.now) }
{
    let copy = copy_required_fields(alloc, metadata)?;
    let optional = copy_optional_parts(alloc, metadata)?;
    Ok(with_optional_parts(copy, optional))
}

// A copy of the fields that must be there, with the others empty.
fn copy_required_fields(
    alloc: Global,
    metadata: &ArrayMetadataV3,
) -> Result<ArrayMetadataV3, AllocError>
    ensures { IfOk result (λ copy. array_seen copy ≡ required_part (array_seen metadata.now)) }
{
    let shape = metadata.shape.as_slice().to_vec(alloc)?;
    let named = copy_named_parts(alloc, metadata)?;
    let fill_value = metadata.fill_value.try_clone(alloc)?;
    let codecs = metadata.codecs.copy(alloc)?;
    Ok(ArrayMetadataV3 {
        shape,
        data_type: named.data_type,
        chunk_grid: named.chunk_grid,
        chunk_key_encoding: named.chunk_key_encoding,
        fill_value,
        codecs,
        attributes: Map::new(alloc),
        storage_transformers: Vec::new(alloc),
        dimension_names: None,
        additional_fields: BTreeMap::new(alloc),
    })
}
