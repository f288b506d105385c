//! Why an extension could not be made.

ghost use Rattle.std.specs.Prelude.{◌≡◌, string_bytes};
ghost use Rattle.zarrs_plugin.specs.Error.{unsupported_seen};
ghost use Rattle.zarrs_plugin.specs.declared.error.PluginCreateError.TheVariants.{OutOfMemory};

use std::alloc::{AllocError, AllocFailed};
use thiserror::Error;

/// The kind of an extension.
#[derive(Clone, Copy, Debug, PartialEq, Eq)]
pub enum PluginKind {
    /// A data type.
    DataType,
    /// A chunk grid.
    ChunkGrid,
    /// A chunk key encoding.
    ChunkKeyEncoding,
    /// A codec.
    Codec,
    /// A kind of a user's own.
    Other,
}

/// No entry goes by this name among the extensions of this kind.
#[derive(Debug, Drop, Error)]
#[error("{name} is no supported extension of the kind {kind:?}")]
pub struct PluginUnsupportedError {
    name: String,
    kind: PluginKind,
}

impl PluginUnsupportedError {
    /// The error for an extension of that name and kind.
    pub fn new(name: String, kind: PluginKind) -> Self
        ensures { unsupported_seen result ≡ record { name = string_bytes name; kind = kind } }
    {
        PluginUnsupportedError { name, kind }
    }

    /// The name that is not supported.
    pub fn name(&self) -> &str
        ensures { result.now ≡ (unsupported_seen self.now).name }
    {
        self.name.as_str()
    }

    /// The kind of the extension that has the name.
    pub fn kind(&self) -> PluginKind
        ensures { result ≡ (unsupported_seen self.now).kind }
    {
        self.kind
    }
}

/// Why an extension could not be made from its metadata.
#[derive(Debug, Drop, Error)]
pub enum PluginCreateError {
    /// The name is not supported.
    #[error(transparent)]
    Unsupported(PluginUnsupportedError),
    /// The configuration is not one that the extension has.
    #[error("the configuration is not supported")]
    Config,
    /// The metadata asks for what its kind does not have.
    #[error("the metadata is not supported")]
    Other,
    /// Memory ran out.
    #[error("out of memory")]
    OutOfMemory,
}

impl From<AllocError> for PluginCreateError {
    ghost from_gives = { λ _ e. e ≡ OutOfMemory };

    fn from(_error: AllocError) -> PluginCreateError {
        PluginCreateError::OutOfMemory
    }
}

impl<T: Drop> From<AllocFailed<T>> for PluginCreateError {
    ghost from_gives = { λ _ e. e ≡ OutOfMemory };

    fn from(_error: AllocFailed<T>) -> PluginCreateError {
        PluginCreateError::OutOfMemory
    }
}
