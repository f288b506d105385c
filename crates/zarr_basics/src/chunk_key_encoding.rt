//! The keys of chunks.
//!
//! See <https://zarr-specs.readthedocs.io/en/latest/v3/core/index.html#chunk-key-encoding>.

ghost use Rattle.std.specs.Prelude.{◌≡◌, ◌++◌, ◌∷◌, IfOk, decimal, flat_map, string_bytes};
ghost use Rattle.zarr_model.specs.Prelude.{default_keys, v2_keys, v2_key, chunk_key};
ghost use Rattle.zarrs_metadata_parts.specs.Names.{separator_code};

use std::alloc::{AllocError, Global};
use std::fmt::Write;
use zarrs_metadata_parts::ChunkKeySeparator;
use zarrs_storage::StoreKey;

/// How the indices of a chunk become the key that it is stored under.
#[derive(Clone, Copy, Debug, PartialEq, Eq)]
pub enum ChunkKeyEncoding {
    /// `c`, and each index behind the separator.
    Default(ChunkKeySeparator),
    /// The indices with the separator between them, and `0` where there are none.
    V2(ChunkKeySeparator),
}

impl ChunkKeyEncoding {
    ghost use Rattle.zarr_basics.specs.Keys.{keys_of};

    /// The key of the chunk with these indices.
    ///
    /// # Errors
    /// [`AllocError`] where memory runs out.
    pub fn key(&self, alloc: Global, indices: &[u64]) -> Result<StoreKey, AllocError>
        ensures { IfOk result (λ key. key ≡ chunk_key (keys_of self.now) indices.now) }
    {
        match self {
            ChunkKeyEncoding::Default(separator) => default_chunk_key(alloc, *separator, indices),
            ChunkKeyEncoding::V2(separator) => v2_chunk_key(alloc, *separator, indices),
        }
    }
}

// Room for the text of indices, each behind a separator, and one more byte.
fn text_room(indices: &[u64]) -> usize {
    indices.len().saturating_mul(21).saturating_add(1)
}

// The key of a chunk under the encoding `default`.
fn default_chunk_key(
    alloc: Global,
    separator: ChunkKeySeparator,
    chunk_indices: &[u64],
) -> Result<StoreKey, AllocError>
    ensures { IfOk result (λ key. key ≡ chunk_key (default_keys (separator_code separator))
        chunk_indices.now) }
{
    let mut text = String::with_capacity(alloc, text_room(chunk_indices))?;
    text.push('c')?;
    for index in chunk_indices {
        text.push_str(separator.as_str())?;
        write!(text, "{index}")?;
    }
    match StoreKey::new(text) {
        Ok(key) => Ok(key),
        Err(_) => unreachable!(),
    }
}

// An index, and each other one behind the separator.
fn joined(
    alloc: Global,
    separator: ChunkKeySeparator,
    first: u64,
    rest: &[u64],
) -> Result<String, AllocError>
    ensures { IfOk result (λ text. string_bytes text ≡ decimal first
        ++ flat_map (λ index. separator_code separator ∷ decimal index) rest.now) }
{
    let mut text = String::with_capacity(alloc, text_room(rest).saturating_add(20))?;
    write!(text, "{first}")?;
    for next in rest {
        text.push_str(separator.as_str())?;
        write!(text, "{next}")?;
    }
    Ok(text)
}

// The text of a key under the encoding `v2`.
fn v2_text(
    alloc: Global,
    separator: ChunkKeySeparator,
    chunk_indices: &[u64],
) -> Result<String, AllocError>
    ensures { IfOk result (λ text. string_bytes text
        ≡ v2_key (separator_code separator) chunk_indices.now) }
{
    match chunk_indices {
        [] => {
            let text = String::from_str(alloc, "0")?;
            Ok(text)
        }
        [first, rest @ ..] => {
            let text = joined(alloc, separator, *first, rest)?;
            Ok(text)
        }
    }
}

// The key of a chunk under the encoding `v2`.
fn v2_chunk_key(
    alloc: Global,
    separator: ChunkKeySeparator,
    chunk_indices: &[u64],
) -> Result<StoreKey, AllocError>
    ensures { IfOk result (λ key. key ≡ chunk_key (v2_keys (separator_code separator))
        chunk_indices.now) }
{
    let text = v2_text(alloc, separator, chunk_indices)?;
    match StoreKey::new(text) {
        Ok(key) => Ok(key),
        Err(_) => unreachable!(),
    }
}
