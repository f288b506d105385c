//! Names of extensions, the numbers in them, and registries that find what goes by a name.
//!
//! A document names its data type, chunk grid, chunk key encoding and codecs; see
//! <https://zarr-specs.readthedocs.io/en/latest/v3/core/index.html#extension-points>. A [`Registry`] finds the kind
//! that goes by such a name.
#![tactic(auto)]

mod error;
mod extension;
mod name_pattern;
mod number;
mod registry;
mod zarr_version;

pub use error::{PluginCreateError, PluginKind, PluginUnsupportedError};
pub use extension::{ExtensionAliases, ExtensionName};
pub use name_pattern::NamePattern;
pub use number::parse_number;
pub use registry::{Registry, RegistryHandle};
pub use zarr_version::ZarrVersion;
