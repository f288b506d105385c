//! Chunk grids by the names in metadata.

ghost use Rattle.std.specs.Prelude.{◌≡◌, ℕ, List, Result, Some, IsSome, IfOk, string_bytes};
ghost use Rattle.std.specs.Option.{option_map};
ghost use Rattle.zarrs_metadata_parts.specs.Configuration.{configuration_seen};
ghost use Rattle.zarrs_metadata_parts.specs.MetadataV3.{Extension, extension_seen};
ghost use Rattle.zarrs_plugin.specs.Registry.{find, registry_of};
ghost use Rattle.zarrs_plugin.specs.declared.error.PluginCreateError.{PluginCreateError};
ghost use Rattle.zarrs_plugin.specs.declared.zarr_version.ZarrVersion.TheVariants.{V3};
ghost use Rattle.zarrs_chunk_grid.specs.Making.{MakesGridByKind, named_extension};

use crate::chunk_grid_traits::ChunkGridTraits;
use std::alloc::{AllocError, Global};
use zarrs_metadata_parts::{Configuration, MetadataV3};
use zarrs_plugin::{PluginCreateError, PluginKind, PluginUnsupportedError, Registry, ZarrVersion};

/// What makes chunk grids of a kind.
pub trait GridMaker {
    /// The chunk grids that are made.
    type Grid;

    // what may come of metadata over an array's shape
    ghost gives: { Self → Extension → List ℕ → Result Self.Grid PluginCreateError → Type 0 };

    /// The chunk grid that the metadata denotes over an array of this shape.
    ///
    /// # Errors
    /// [`PluginCreateError`] as the maker says.
    fn make(
        &self,
        alloc: Global,
        metadata: &MetadataV3,
        array_shape: &[u64],
    ) -> Result<Self::Grid, PluginCreateError>
        ensures { gives self.now (extension_seen metadata.now) array_shape.now result };
}

/// A chunk grid, by the name that it has in metadata.
#[derive(Drop)]
pub struct ChunkGrid<G> {
    grid: G,
}

impl<G: ChunkGridTraits> ChunkGrid<G> {
    ghost use Rattle.zarrs_chunk_grid.specs.GridMade.{grid_made};

    /// The chunk grid that is this grid.
    pub fn new(grid: G) -> Self
        ensures { result.grid ≡ grid }
    {
        ChunkGrid { grid }
    }

    /// The grid.
    pub fn grid(&self) -> &G
        ensures { result.now ≡ self.now.grid }
    {
        &self.grid
    }

    /// The metadata of the grid: its version 3 name, which it must have, and its configuration where that is not empty.
    ///
    /// # Errors
    /// [`AllocError`] where memory runs out.
    pub fn metadata(&self, alloc: Global) -> Result<MetadataV3, AllocError>
        requires { IsSome (G.name_in self.now.grid V3) }
        ensures { IfOk result (λ m. Some (extension_seen m)
            ≡ option_map (λ name. named_extension name (G.configured self.now.grid))
            (G.name_in self.now.grid V3)) }
    {
        let Some(name) = self.grid.name(alloc, ZarrVersion::V3)? else {
            unreachable!();
        };
        let configuration = self.grid.configuration(alloc)?;
        Ok(named(name, configuration))
    }

    /// The chunk grid that the metadata denotes over an array of this shape, by the first kind of the registry that
    /// goes by its name.
    ///
    /// # Errors
    /// `Unsupported` where no kind goes by the name, else what the kind's maker refuses.
    pub fn from_metadata<K: GridMaker<Grid = G> + Drop>(
        alloc: Global,
        metadata: &MetadataV3,
        array_shape: &[u64],
        registry: &Registry<K>,
    ) -> Result<Self, PluginCreateError>
        ensures { MakesGridByKind
            (λ kind made. K.gives kind (extension_seen metadata.now) array_shape.now made)
            (extension_seen metadata.now).name
            (find (extension_seen metadata.now).name (registry_of registry.now))
            (grid_made result) }
    {
        match registry.find(metadata.name()) {
            Some(kind) => match kind.make(alloc, metadata, array_shape) {
                Ok(grid) => Ok(ChunkGrid::new(grid)),
                Err(error) => Err(error),
            },
            None => {
                let name = String::from_str(alloc, metadata.name())?;
                Err(PluginCreateError::Unsupported(PluginUnsupportedError::new(
                    name,
                    PluginKind::ChunkGrid,
                )))
            }
        }
    }
}

// The metadata of a name and a configuration.
fn named(name: String, configuration: Configuration) -> MetadataV3
    ensures { extension_seen result
        ≡ named_extension (string_bytes name) (configuration_seen configuration) }
{
    if configuration.as_map().iter().next().is_none() {
        MetadataV3::new(name)
    } else {
        MetadataV3::new_with_configuration(name, configuration)
    }
}
