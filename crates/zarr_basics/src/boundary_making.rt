//! Grids of boundaries by their metadata.

ghost use Rattle.std.specs.Prelude.{◌≡◌, IfOk};
ghost use Rattle.serde_json.specs.View.{view};
ghost use Rattle.zarrs_chunk_grid.specs.Making.{MakesGrid};
ghost use Rattle.zarrs_metadata_values.specs.Configuration.{configuration_seen};
ghost use Rattle.zarrs_metadata_parts.specs.MetadataV3.{extension_seen};
ghost use Rattle.zarrs_metadata_parts.specs.Making.{or_config};
ghost use Rattle.zarr_basics.specs.Axes.{lengths_of};
ghost use Rattle.zarr_basics.specs.BoundaryGrid.{form_of_boundary, shape_of_boundary};
ghost use Rattle.zarr_basics.specs.BoundaryConfigurations.{lengths_members, number_lists_data};
ghost use Rattle.zarr_basics.specs.BoundaryMaking.{boundary_form};

use crate::axis::BoundaryAxis;
use crate::boundary_configuration::read_axes;
use crate::boundary_grid::BoundaryGrid;
use serde_json::{Map, Value};
use std::alloc::{AllocError, Global};
use zarrs_array_subset::shape_numbers;
use zarrs_metadata_parts::making::unmade;
use zarrs_metadata_parts::writing::numbers_value;
use zarrs_metadata_parts::{Configuration, MetadataV3};
use zarrs_plugin::PluginCreateError;

// The lengths of each dimension.
fn axes_value(alloc: Global, axes: &[BoundaryAxis]) -> Result<Value, AllocError>
    ensures { IfOk result (λ v. view v ≡ number_lists_data (lengths_of axes.now)) }
{
    let mut items = Vec::with_capacity(alloc, axes.len())?;
    for axis in axes {
        let numbers = shape_numbers(alloc, &axis.lengths)?;
        items.push(numbers_value(alloc, &numbers)?)?;
    }
    Ok(Value::Array(items))
}

// The configuration of a grid with these chunks.
pub(crate) fn lengths_configuration(
    alloc: Global,
    axes: &[BoundaryAxis],
) -> Result<Configuration, AllocError>
    ensures { IfOk result (λ c. configuration_seen c ≡ lengths_members (lengths_of axes.now)) }
{
    let value = axes_value(alloc, axes)?;
    let mut members = Map::new(alloc);
    serde_json::put(&mut members, alloc, "lengths", value)?;
    Ok(Configuration::new(members))
}

/// The grid over an array's shape that a configuration says.
///
/// # Errors
/// `Config` exactly where the configuration is not of the form, whatever the name is.
#[tactic(auto, using(zarrs_metadata_parts::proofs::MakingLaws::of_configurations))]
pub fn boundaries_by(
    alloc: Global,
    metadata: &MetadataV3,
    array_shape: &[u64],
) -> Result<BoundaryGrid, PluginCreateError>
    ensures made { MakesGrid form_of_boundary result
        (or_config (boundary_form array_shape.now (extension_seen metadata.now).configuration)) }
    ensures over { IfOk result (λ grid. shape_of_boundary grid ≡ array_shape.now) }
{
    let axes = match read_axes(alloc, array_shape, metadata) {
        Ok(axes) => axes,
        Err(error) => return Err(unmade(error)),
    };
    let array_shape = array_shape.to_vec(alloc)?;
    let grid = BoundaryGrid::new(alloc, array_shape, axes)?;
    Ok(grid)
}
