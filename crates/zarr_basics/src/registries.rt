//! The names that array documents may have for data types, chunk grids, chunk key encodings and codecs.

ghost use Rattle.std.specs.Prelude.{◌≡◌, IfOk, map};
ghost use Rattle.zarrs_plugin.specs.NamePattern.{exact};
ghost use Rattle.zarrs_plugin.specs.Registry.{builtin_of};
ghost use Rattle.zarr_basics.specs.BuiltinTypes.{builtin_data_types};
ghost use Rattle.zarr_basics.specs.Registries.{names_of, builtin_names};

use crate::GridKind;
use std::alloc::{AllocError, Global};
use zarr_codecs::CodecKind;
use zarrs_data_type::DataTypeKind;
use zarrs_plugin::{NamePattern, Registry};

/// The kinds of chunk key encodings.
#[derive(Clone, Copy, Debug, PartialEq, Eq)]
pub enum ChunkKeyKind {
    /// `c`, and each index behind a separator.
    Default,
    /// The indices with a separator between them.
    V2,
}

/// A registry for each kind of extension that an array document names.
#[derive(Drop)]
pub struct Registries {
    /// The names of data types.
    pub data_types: Registry<DataTypeKind>,
    /// The names of chunk grids.
    pub grids: Registry<GridKind>,
    /// The names of chunk key encodings.
    pub key_encodings: Registry<ChunkKeyKind>,
    /// The names of codecs.
    pub codecs: Registry<CodecKind>,
}

// Entries that go by these names.
fn named<K: Copy>(alloc: Global, names: &[(&str, K)]) -> Result<Vec<(NamePattern, K)>, AllocError>
    ensures { IfOk result (λ v. builtin_of v.items ≡ map (λ e. (exact e.0.now, e.1)) names.now) }
{
    let mut entries = Vec::with_capacity(alloc, names.len())?;
    for entry in names {
        let name = String::from_str(alloc, entry.0)?;
        entries.push((NamePattern::Exact(name), entry.1))?;
    }
    Ok(entries)
}

// The entries of data types.
fn data_types(alloc: Global) -> Result<Vec<(NamePattern, DataTypeKind)>, AllocError>
    ensures { IfOk result (λ v. builtin_of v.items ≡ builtin_data_types) }
{
    let mut entries = named(
        alloc,
        &[
            ("bool", DataTypeKind::Bool),
            ("int8", DataTypeKind::Int8),
            ("int16", DataTypeKind::Int16),
            ("int32", DataTypeKind::Int32),
            ("int64", DataTypeKind::Int64),
            ("uint8", DataTypeKind::UInt8),
            ("uint16", DataTypeKind::UInt16),
            ("uint32", DataTypeKind::UInt32),
            ("uint64", DataTypeKind::UInt64),
            ("string", DataTypeKind::String),
            ("bytes", DataTypeKind::Bytes),
            ("variable_length_bytes", DataTypeKind::Bytes),
            ("zarrs.optional", DataTypeKind::Optional),
        ],
    )?;
    entries.push((NamePattern::LetterDigits(b'r'), DataTypeKind::RawBits))?;
    Ok(entries)
}

/// The registries with the built-in names alone: the data types `bool`, `int8` to `int64`, `uint8` to `uint64`,
/// `string`, `bytes`, also `variable_length_bytes`, `zarrs.optional` and `r` before digits, the grids `regular` and
/// `zarr_basics.boundaries`, the key encodings `default` and `v2`, and the codecs `bytes`, `vlen-utf8`, `vlen-bytes`,
/// `zarr_basics.optional`, `zarr_basics.offset`, `transpose` and `zarr_basics.sha256`.
///
/// # Errors
/// [`AllocError`] where memory runs out.
pub fn builtin_registries(alloc: Global) -> Result<Registries, AllocError>
    ensures { IfOk result (λ r. names_of r ≡ builtin_names) }
{
    let data_types = data_types(alloc)?;
    let grids = named(
        alloc,
        &[
            ("regular", GridKind::Regular),
            ("zarr_basics.boundaries", GridKind::Boundary),
        ],
    )?;
    let keys = named(
        alloc,
        &[("default", ChunkKeyKind::Default), ("v2", ChunkKeyKind::V2)],
    )?;
    let codecs = named(
        alloc,
        &[
            ("bytes", CodecKind::Bytes),
            ("vlen-utf8", CodecKind::VlenUtf8),
            ("vlen-bytes", CodecKind::VlenBytes),
            ("zarr_basics.optional", CodecKind::Optional),
            ("zarr_basics.offset", CodecKind::Offset),
            ("transpose", CodecKind::Transpose),
            ("zarr_basics.sha256", CodecKind::Sha256),
        ],
    )?;
    Ok(Registries {
        data_types: Registry::with_builtin(alloc, data_types),
        grids: Registry::with_builtin(alloc, grids),
        key_encodings: Registry::with_builtin(alloc, keys),
        codecs: Registry::with_builtin(alloc, codecs),
    })
}
