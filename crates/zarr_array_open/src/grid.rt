//! The grid of a sharded array, which is `regular`.

ghost use Rattle.std.specs.Prelude.{◌≡◌, IfOk};
ghost use Rattle.zarrs_codec_traits.specs.Prelude.{registry_of, extension_seen};
ghost use Rattle.zarr_basics.specs.BasicGrid.{basic_shape, basic_form};
ghost use Rattle.zarr_basics.specs.GridConfigurations.{chunk_shape_in};
ghost use Rattle.zarr_basics.specs.GridForms.{regular};
ghost use Rattle.zarr_array_open.specs.Opening.{plugin_create, or_refused};
ghost use Rattle.zarr_array_open.specs.Parts.{Opens};
ghost use Rattle.zarr_array_open.specs.ShardDocument.{grid_lengths_of};
ghost use Rattle.zarr_array_open.specs.ShardOpening.{chunk_shape_by};

use crate::OpenError;
use std::alloc::{AllocError, Global};
use zarr_basics::{BasicGrid, GridKind};
use zarrs_array_subset::shape_numbers;
use zarrs_chunk_grid::GridMaker;
use zarrs_metadata_parts::MetadataV3;
use zarrs_plugin::Registry;

// The grid `regular` over an array of this shape.
#[tactic(auto, using(crate::proofs::GridLaws::of_regular))]
fn make_regular(
    alloc: Global,
    array_shape: &[u64],
    metadata: &MetadataV3,
) -> Result<BasicGrid, OpenError>
    ensures made { Opens (λ grid. grid_lengths_of (basic_form grid)) result
        (or_refused plugin_create
        (chunk_shape_in array_shape.now (extension_seen metadata.now).configuration)) }
    ensures form { IfOk result (λ grid. basic_form grid
        ≡ regular (grid_lengths_of (basic_form grid))) }
    ensures shape { IfOk result (λ grid. basic_shape grid ≡ array_shape.now) }
{
    match GridKind::Regular.make(alloc, metadata, array_shape) {
        Ok(grid) => Ok(grid),
        Err(error) => Err(OpenError::from(error)),
    }
}

/// The grid of an array of this shape, which must be `regular`.
///
/// # Errors
/// `PluginUnsupportedError` where its name is not of this kind, else `PluginCreateError` where its configuration is
/// not; or `OutOfMemory`.
pub(crate) fn regular_by(
    alloc: Global,
    array_shape: &[u64],
    metadata: &MetadataV3,
    registry: &Registry<GridKind>,
) -> Result<BasicGrid, OpenError>
    ensures made { Opens (λ grid. grid_lengths_of (basic_form grid)) result (chunk_shape_by
        (registry_of registry.now) array_shape.now (extension_seen metadata.now)) }
    ensures form { IfOk result (λ grid. basic_form grid
        ≡ regular (grid_lengths_of (basic_form grid))) }
    ensures shape { IfOk result (λ grid. basic_shape grid ≡ array_shape.now) }
{
    match registry.find(metadata.name()) {
        Some(kind) => match kind {
            GridKind::Regular => make_regular(alloc, array_shape, metadata),
            GridKind::Boundary => Err(OpenError::PluginUnsupportedError),
        },
        None => Err(OpenError::PluginUnsupportedError),
    }
}

/// The lengths of the chunks of a grid `regular`.
///
/// # Errors
/// [`AllocError`] where memory runs out.
pub(crate) fn chunk_lengths(alloc: Global, grid: &BasicGrid) -> Result<Vec<u64>, AllocError>
    ensures { IfOk result (λ v. v.items ≡ grid_lengths_of (basic_form grid.now)) }
{
    match grid {
        BasicGrid::Regular(grid) => shape_numbers(alloc, &grid.chunk_shape),
        BasicGrid::Boundary(_) => Ok(Vec::new(alloc)),
    }
}
