//! What goes by a name, and by other names besides.

ghost use Rattle.std.specs.Prelude.{◌≡◌, ℕ, Bool, List, Option, IfOk, option_map, string_bytes};
ghost use Rattle.zarrs_plugin.specs.declared.zarr_version.ZarrVersion.{ZarrVersion};

use crate::zarr_version::ZarrVersion;
use std::alloc::{AllocError, Global};

/// An extension that has a name in the metadata of some version of Zarr.
pub trait ExtensionName {
    // The name in that version's metadata, if there is one.
    ghost name_in: { Self → ZarrVersion → Option (List ℕ) };

    /// The name of the extension in the metadata of `version`, and [`None`] where it has none there.
    ///
    /// # Errors
    /// [`AllocError`] where memory runs out.
    fn name(&self, alloc: Global, version: ZarrVersion) -> Result<Option<String>, AllocError>
        ensures { IfOk result (λ name. option_map string_bytes name ≡ name_in self.now version) };
}

impl<E: ExtensionName> ExtensionName for &E {
    ghost name_in = { λ s. E.name_in s.now };

    fn name(&self, alloc: Global, version: ZarrVersion) -> Result<Option<String>, AllocError> {
        (**self).name(alloc, version)
    }
}

/// An extension that goes by several names.
pub trait ExtensionAliases {
    // Whether a name is one of them in that version's metadata.
    ghost goes_by: { Self → List ℕ → ZarrVersion → Bool };

    /// Whether the extension goes by `name` in the metadata of `version`.
    fn matches_name(&self, name: &str, version: ZarrVersion) -> bool
        ensures { result ≡ goes_by self.now name.now version };
}
