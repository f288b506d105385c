//! References: which key holds which slice of the value under another key.

ghost use Rattle.std.specs.Prelude.{◌≡◌};

use std::alloc::{AllocError, AllocFailed};
use thiserror::Error;
use zarrs_storage::{StorageError, StoreKey};

/// A key that holds a part of the value under another key.
#[derive(Debug, Drop)]
pub struct Reference {
    /// The key that holds the part.
    pub key: StoreKey,
    /// The key whose value it is a part of.
    pub base: StoreKey,
    /// How many bytes of that value stand before the part.
    pub offset: u64,
    /// How many bytes the part has.
    pub length: u64,
}

/// Why references make no store.
#[derive(Debug, Drop, Error)]
pub enum RefError {
    /// A reference has the key of an earlier one, the first such one.
    #[error("the key {} has a reference already", key.as_str())]
    RepeatedKey {
        /// The key of the reference.
        key: StoreKey,
    },
    /// A reference's base is absent, the first one that does not lie in its base.
    #[error("the value that the key {} refers to is absent", key.as_str())]
    MissingBase {
        /// The key of the reference.
        key: StoreKey,
    },
    /// A reference ends past its base's value, the first one that does not lie in its base.
    #[error("the key {} refers to bytes past a value's end", key.as_str())]
    SliceOutOfBounds {
        /// The key of the reference.
        key: StoreKey,
    },
    /// The base failed, and its count of faults rose or stands at its last value.
    #[error("the store failed")]
    Store,
    /// Memory ran out.
    #[error("out of memory")]
    OutOfMemory,
}

impl From<AllocError> for RefError {
    ghost use Rattle.zarr_refs.specs.declared.reference.RefError.TheVariants.{OutOfMemory};

    ghost from_gives = { λ _ e. e ≡ OutOfMemory };

    fn from(_: AllocError) -> Self {
        RefError::OutOfMemory
    }
}

impl<T: Drop> From<AllocFailed<T>> for RefError {
    ghost use Rattle.zarr_refs.specs.declared.reference.RefError.TheVariants.{OutOfMemory};

    ghost from_gives = { λ _ e. e ≡ OutOfMemory };

    fn from(_: AllocFailed<T>) -> Self {
        RefError::OutOfMemory
    }
}
