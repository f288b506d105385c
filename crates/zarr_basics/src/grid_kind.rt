//! Grids by their metadata.

ghost use Rattle.std.specs.Prelude.{◌≡◌, IfOk};
ghost use Rattle.zarrs_chunk_grid.specs.Making.{MakesGrid};
ghost use Rattle.zarrs_metadata_values.specs.Configuration.{configuration_seen};
ghost use Rattle.zarrs_metadata_parts.specs.Making.{or_config};
ghost use Rattle.zarrs_metadata_parts.specs.MetadataV3.{extension_seen};
ghost use Rattle.zarr_basics.specs.Lengths.{nonzeros};
ghost use Rattle.zarr_basics.specs.BasicGrid.{basic_form, basic_shape};
ghost use Rattle.zarr_basics.specs.GridConfigurations.{chunk_shape_members};
ghost use Rattle.zarr_basics.specs.GridOf.{form_of_regular, shape_of_regular};
ghost use Rattle.zarr_basics.specs.GridMaking.{grid_form, regular_form};
ghost use Rattle.zarr_basics.specs.declared.grid_kind.GridKind.TheVariants.{Regular, Boundary};

use crate::basic_grid::BasicGrid;
use crate::boundaries_by;
use crate::grid_configuration::read_chunk_shape;
use crate::regular_grid::RegularGrid;
use serde_json::Map;
use std::alloc::{AllocError, Global};
use std::num::NonZeroU64;
use zarrs_array_subset::shape_numbers;
use zarrs_chunk_grid::GridMaker;
use zarrs_metadata_parts::making::unmade;
use zarrs_metadata_parts::writing::numbers_value;
use zarrs_metadata_parts::{Configuration, MetadataV3};
use zarrs_plugin::PluginCreateError;

/// The kinds of chunk grids.
#[derive(Clone, Copy, Debug, PartialEq, Eq)]
pub enum GridKind {
    /// Chunks of one shape.
    Regular,
    /// Chunks of lengths of their own, one after another in each dimension.
    Boundary,
}

// The configuration of a grid with chunks of this shape.
pub(crate) fn chunk_shape_configuration(
    alloc: Global,
    chunk_shape: &[NonZeroU64],
) -> Result<Configuration, AllocError>
    ensures { IfOk result (λ c. configuration_seen c
        ≡ chunk_shape_members (nonzeros chunk_shape.now)) }
{
    let numbers = shape_numbers(alloc, chunk_shape)?;
    let value = numbers_value(alloc, &numbers)?;
    let mut members = Map::new(alloc);
    serde_json::put(&mut members, alloc, "chunk_shape", value)?;
    Ok(Configuration::new(members))
}

// The regular grid over an array's shape that a configuration says.
#[tactic(auto, using(zarrs_metadata_parts::proofs::MakingLaws::of_configurations))]
pub(crate) fn regular_by(
    alloc: Global,
    metadata: &MetadataV3,
    array_shape: &[u64],
) -> Result<RegularGrid, PluginCreateError>
    ensures made { MakesGrid form_of_regular result
        (or_config (regular_form array_shape.now (extension_seen metadata.now).configuration)) }
    ensures over { IfOk result (λ grid. shape_of_regular grid ≡ array_shape.now) }
{
    let chunk_shape = match read_chunk_shape(alloc, array_shape, metadata) {
        Ok(chunk_shape) => chunk_shape,
        Err(error) => return Err(unmade(error)),
    };
    let array_shape = array_shape.to_vec(alloc)?;
    let grid = RegularGrid::new(alloc, array_shape, chunk_shape)?;
    Ok(grid)
}

// The same as a grid of this library.
fn basic_regular(
    alloc: Global,
    metadata: &MetadataV3,
    array_shape: &[u64],
) -> Result<BasicGrid, PluginCreateError>
    ensures made { MakesGrid basic_form result
        (or_config (grid_form array_shape.now Regular
        (extension_seen metadata.now).configuration)) }
    ensures over { IfOk result (λ grid. basic_shape grid ≡ array_shape.now) }
{
    match regular_by(alloc, metadata, array_shape) {
        Ok(grid) => Ok(BasicGrid::Regular(grid)),
        Err(error) => Err(error),
    }
}

// The grid of boundaries over an array's shape that a configuration says.
fn basic_boundaries(
    alloc: Global,
    metadata: &MetadataV3,
    array_shape: &[u64],
) -> Result<BasicGrid, PluginCreateError>
    ensures made { MakesGrid basic_form result
        (or_config (grid_form array_shape.now Boundary
        (extension_seen metadata.now).configuration)) }
    ensures over { IfOk result (λ grid. basic_shape grid ≡ array_shape.now) }
{
    match boundaries_by(alloc, metadata, array_shape) {
        Ok(grid) => Ok(BasicGrid::Boundary(grid)),
        Err(error) => Err(error),
    }
}

impl GridMaker for GridKind {
    type Grid = BasicGrid;

    ghost gives = { λ kind e shape made.
        MakesGrid basic_form made (or_config (grid_form shape kind e.configuration))
        × IfOk made (λ grid. basic_shape grid ≡ shape) };

    fn make(
        &self,
        alloc: Global,
        metadata: &MetadataV3,
        array_shape: &[u64],
    ) -> Result<BasicGrid, PluginCreateError> {
        match self {
            GridKind::Regular => basic_regular(alloc, metadata, array_shape),
            GridKind::Boundary => basic_boundaries(alloc, metadata, array_shape),
        }
    }
}
