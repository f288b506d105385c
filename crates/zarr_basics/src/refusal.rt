//! What chunk grids refuse.

ghost use Rattle.std.specs.Prelude.{Err};
ghost use Rattle.zarr_model.specs.Prelude.{Grid};
ghost use Rattle.zarrs_plugin.specs.Making.{IsUnmade, unsupported};
ghost use Rattle.zarrs_plugin.specs.declared.error.PluginKind.TheVariants as kinds;

use std::alloc::Global;
use zarrs_plugin::{PluginCreateError, PluginKind, PluginUnsupportedError};

/// The error of a grid whose name is not known.
pub fn unsupported_grid(alloc: Global, name: &str) -> PluginCreateError
    ensures { IsUnmade {Y = Grid} kinds.ChunkGrid result (Err (unsupported name.now)) }
{
    match String::from_str(alloc, name) {
        Ok(name) => PluginCreateError::Unsupported(PluginUnsupportedError::new(
            name,
            PluginKind::ChunkGrid,
        )),
        Err(_) => PluginCreateError::OutOfMemory,
    }
}
