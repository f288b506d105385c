//! Laws of the definitions. Each function's contract is a law, and its body is empty.

ghost use Rattle.std.specs.Prelude.{◌≡◌, ℕ, List};
ghost use Rattle.zarr_model.specs.Prelude.{Grid, IsChunk, chunk_key};
ghost use Rattle.zarr_basics.specs.Keys.{keys_of, IsCountable};
ghost use Rattle.zarr_basics.specs.declared.chunk_key_encoding.ChunkKeyEncoding.{ChunkKeyEncoding};

/// Different chunks of a grid have different keys.
pub fn keys_differ()
    ensures { (keys : ChunkKeyEncoding) (grid : Grid) (chunk other : List ℕ)
        → IsCountable grid.grid_shape → IsChunk grid chunk → IsChunk grid other
        → chunk_key (keys_of keys) chunk ≡ chunk_key (keys_of keys) other → chunk ≡ other }
{}
