//! What can be said of every chunk grid.

ghost use Rattle.std.specs.Prelude.{◌≡◌, ℕ, ◌<◌, ◌^◌, Bool, List, Result, Some, true, length, map, IfOk, IfErr, IfSome, IsTrue, is_some};
ghost use Rattle.std.specs.Int.NonZero.{non_zero_u64_get};
ghost use Rattle.serde_json.specs.Data.{Members};
ghost use Rattle.zarr_model.specs.Region.{count_of, whole, contains, ends_within, starts, sizes};
ghost use Rattle.zarr_model.specs.Grid.{Grid, CoversShape, IsChunk, chunks};
ghost use Rattle.zarrs_array_subset.specs.ArraySubset.{region};
ghost use Rattle.zarrs_chunk_grid_iterators.specs.Iterators.{tuples_left};
ghost use Rattle.zarrs_metadata_parts.specs.Configuration.{configuration_seen};
ghost use Rattle.zarrs_metadata_parts.specs.MetadataV3.{Extension, extension_seen};
ghost use Rattle.zarrs_plugin.specs.Making.{Unmade};
ghost use Rattle.zarrs_plugin.specs.declared.zarr_version.ZarrVersion.TheVariants.{V3};
ghost use Rattle.zarrs_chunk_grid.specs.ChunkGrid.{AreMet, BoxFits, HasElement, IsPlaceInChunk, LastFits, are_inbounds, in_chunk, region_of_chunks};
ghost use Rattle.zarrs_chunk_grid.specs.ChunkGridErrors.{AnswersGrid, IsRankRefusal, MeetsChunks};
ghost use Rattle.zarrs_chunk_grid.specs.Making.{ConfiguredGrid, MakesGrid, RefusesNames};

mod bounds;
mod chunks;

use crate::chunk_grid_error::ChunkGridError;
pub use bounds::are_below;
use bounds::{are_inbounds, indices_within};
use chunks::{box_of, chunks_in_array_subset_of, chunks_subset_of, element_indices_of, subset_of};
use std::alloc::{AllocError, Global};
use zarrs_array_subset::{ArrayIndices, ArrayShape, ArraySubset, ChunkShape, shape_numbers};
use zarrs_chunk_grid_iterators::IndicesIntoIterator;
use zarrs_metadata_parts::{Configuration, MetadataV3};
use zarrs_plugin::{ExtensionName, PluginCreateError};

/// A grid of chunks over an array.
///
/// A call on indices or a region of another number of dimensions than the grid's is refused. A call on the indices of a
/// chunk answers none exactly where they are not below the grid shape, and one on the indices of an element exactly
/// where they are not below the array shape.
pub trait ChunkGridTraits: ExtensionName + Sized {
    // the shape of the array, and the grid over it
    ghost shape: { Self → List ℕ };

    ghost grid: { Self → Grid };

    // the members of the configuration
    ghost configured: { Self → Members };

    // whether metadata of a name may denote a grid of this type
    ghost is_known: { List ℕ → Bool };

    // the grid that metadata denotes over an array's shape, with its configuration, or why it denotes none
    ghost created: { Extension → List ℕ → Result ConfiguredGrid Unmade };

    /// The grid that the metadata denotes over an array of this shape. Its own name and configuration are those of the
    /// metadata, with all defaults set.
    ///
    /// # Errors
    /// `Unsupported` exactly where the name is none that this type knows; else `Config` where the configuration is not
    /// of the form, and `Other` where it asks for what the grid does not have; or `OutOfMemory`.
    fn create(
        alloc: Global,
        metadata: &MetadataV3,
        array_shape: &[u64],
    ) -> Result<Self, PluginCreateError>
        ensures made { MakesGrid
            (λ (g : Self). record { members = configured g; grid = grid g }) result
            (created (extension_seen metadata.now) array_shape.now) }
        ensures named { IfOk result (λ g. Self.name_in g V3
            ≡ Some (extension_seen metadata.now).name) }
        ensures over { IfOk result (λ g. shape g ≡ array_shape.now) };

    /// The configuration in metadata.
    ///
    /// # Errors
    /// [`AllocError`] where memory runs out.
    fn configuration(&self, alloc: Global) -> Result<Configuration, AllocError>
        ensures { IfOk result (λ c. configuration_seen c ≡ configured self.now) };

    /// The shape of the array.
    fn array_shape(&self) -> &[u64]
        ensures { result.now ≡ shape self.now };

    /// How many chunks there are in each dimension.
    fn grid_shape(&self) -> &[u64]
        ensures { result.now ≡ (grid self.now).grid_shape };

    /// The shape of a chunk.
    ///
    /// # Errors
    /// [`ChunkGridError`] where the indices have another number of dimensions, or memory runs out.
    fn chunk_shape(
        &self,
        alloc: Global,
        chunk_indices: &[u64],
    ) -> Result<Option<ChunkShape>, ChunkGridError>
        ensures { AnswersGrid (λ v. map non_zero_u64_get v.items) result
            (length chunk_indices.now) (length (shape self.now))
            (in_chunk sizes (grid self.now) chunk_indices.now) };

    /// Where a chunk begins.
    ///
    /// # Errors
    /// [`ChunkGridError`] where the indices have another number of dimensions, or memory runs out.
    fn chunk_origin(
        &self,
        alloc: Global,
        chunk_indices: &[u64],
    ) -> Result<Option<ArrayIndices>, ChunkGridError>
        ensures { AnswersGrid (λ v. v.items) result
            (length chunk_indices.now) (length (shape self.now))
            (in_chunk starts (grid self.now) chunk_indices.now) };

    /// The chunk that has the element at these indices.
    ///
    /// # Errors
    /// [`ChunkGridError`] where the indices have another number of dimensions, or memory runs out.
    fn chunk_indices(
        &self,
        alloc: Global,
        array_indices: &[u64],
    ) -> Result<Option<ArrayIndices>, ChunkGridError>
        ensures refused { IfErr result
            (IsRankRefusal (length array_indices.now) (length (shape self.now))) }
        ensures rank { IfOk result (λ _. length array_indices.now ≡ length (shape self.now)) }
        ensures chunk { IfOk result (λ o.
            IfSome o (λ v. HasElement (grid self.now) array_indices.now v.items)) }
        ensures inside { IfOk result (λ o.
            is_some o ≡ contains (whole (shape self.now)) array_indices.now) };

    /// The chunks that share an element with a region inside the array, which are a box of chunks.
    ///
    /// # Errors
    /// [`AllocError`] where memory runs out.
    fn chunks_meeting(
        &self,
        alloc: Global,
        array_subset: &ArraySubset,
    ) -> Result<ArraySubset, AllocError>
        requires inside { ends_within (region array_subset.now) (shape self.now) ≡ true }
        ensures { IfOk result (λ s. AreMet (grid self.now) (region array_subset.now) (region s)) };

    /// The number of dimensions.
    final fn dimensionality(&self) -> usize
        ensures { result ≡ length (shape self.now) }
    {
        self.array_shape().len()
    }

    /// Whether these are the indices of a chunk: one below the grid shape in each dimension.
    final fn has_chunk(&self, chunk_indices: &[u64]) -> bool
        ensures { result ≡ contains (whole (grid self.now).grid_shape) chunk_indices.now }
    {
        are_below(self.grid_shape(), chunk_indices)
    }

    /// Whether these are the indices of an element: one below the array shape in each dimension.
    final fn has_element(&self, array_indices: &[u64]) -> bool
        ensures { result ≡ contains (whole (shape self.now)) array_indices.now }
    {
        are_below(self.array_shape(), array_indices)
    }

    /// Whether there is an index for each dimension, below the array's length there or where that is 0.
    final fn array_indices_inbounds(&self, array_indices: &[u64]) -> bool
        ensures { result ≡ are_inbounds (shape self.now) array_indices.now }
    {
        are_inbounds(self.array_shape(), array_indices)
    }

    /// Whether there is an index for each dimension, below the number of chunks there or where that is 0.
    final fn chunk_indices_inbounds(&self, chunk_indices: &[u64]) -> bool
        ensures { result ≡ are_inbounds (grid self.now).grid_shape chunk_indices.now }
    {
        are_inbounds(self.grid_shape(), chunk_indices)
    }

    /// The shape of a chunk as numbers, by `chunk_shape` where a grid does not make it itself.
    ///
    /// # Errors
    /// [`ChunkGridError`] where the indices have another number of dimensions, or memory runs out.
    fn chunk_shape_u64(
        &self,
        alloc: Global,
        chunk_indices: &[u64],
    ) -> Result<Option<ArrayShape>, ChunkGridError>
        ensures { AnswersGrid (λ v. v.items) result
            (length chunk_indices.now) (length (shape self.now))
            (in_chunk sizes (grid self.now) chunk_indices.now) }
    {
        match self.chunk_shape(alloc, chunk_indices) {
            Ok(Some(lengths)) => {
                let lengths = shape_numbers(alloc, &lengths)?;
                Ok(Some(lengths))
            }
            Ok(None) => Ok(None),
            Err(error) => Err(error),
        }
    }

    /// The box of a chunk, which is whole also at the edge of the array.
    ///
    /// # Errors
    /// [`ChunkGridError`] where the indices have another number of dimensions, or memory runs out.
    final fn subset(
        &self,
        alloc: Global,
        chunk_indices: &[u64],
    ) -> Result<Option<ArraySubset>, ChunkGridError>
        requires { BoxFits (grid self.now) chunk_indices.now }
        ensures { AnswersGrid region result
            (length chunk_indices.now) (length (shape self.now))
            (in_chunk (λ box. box) (grid self.now) chunk_indices.now) }
    {
        subset_of(self, alloc, chunk_indices)
    }

    /// The box of a chunk of the grid.
    final fn chunk_box(
        &self,
        alloc: Global,
        chunk_indices: &[u64],
    ) -> Result<ArraySubset, AllocError>
        requires chunk { IsChunk (grid self.now) chunk_indices.now }
        requires fits { BoxFits (grid self.now) chunk_indices.now }
        ensures { IfOk result (λ s. region s ≡ (grid self.now).chunk_box chunk_indices.now) }
    {
        box_of(self, alloc, chunk_indices)
    }

    /// Where an element is in its chunk, counted from the chunk's origin.
    ///
    /// # Errors
    /// [`ChunkGridError`] where the indices have another number of dimensions, or memory runs out.
    final fn chunk_element_indices(
        &self,
        alloc: Global,
        array_indices: &[u64],
    ) -> Result<Option<ArrayIndices>, ChunkGridError>
        ensures refused { IfErr result
            (IsRankRefusal (length array_indices.now) (length (shape self.now))) }
        ensures rank { IfOk result (λ _. length array_indices.now ≡ length (shape self.now)) }
        ensures place { IfOk result (λ o.
            IfSome o (λ v. IsPlaceInChunk (grid self.now) array_indices.now v.items)) }
        ensures inside { IfOk result (λ o.
            is_some o ≡ contains (whole (shape self.now)) array_indices.now) }
    {
        element_indices_of(self, alloc, array_indices)
    }

    /// The region from the start of the first of some chunks to the end of the last one; the empty one where there are
    /// no chunks.
    ///
    /// # Errors
    /// [`ChunkGridError`] where the chunks have another number of dimensions, or memory runs out.
    final fn chunks_subset(
        &self,
        alloc: Global,
        chunks: &ArraySubset,
    ) -> Result<Option<ArraySubset>, ChunkGridError>
        requires { LastFits (grid self.now) (region chunks.now) }
        ensures { AnswersGrid region result
            (length (region chunks.now)) (length (shape self.now))
            (region_of_chunks (grid self.now) (region chunks.now)) }
    {
        chunks_subset_of(self, alloc, chunks)
    }

    /// The chunks that share an element with a region, which are a box of chunks; the empty one where the region is
    /// empty, whatever its number of dimensions. None exactly where a region with elements is not inside the array.
    ///
    /// # Errors
    /// [`ChunkGridError`] where a region with elements has another number of dimensions, or memory runs out.
    final fn chunks_in_array_subset(
        &self,
        alloc: Global,
        array_subset: &ArraySubset,
    ) -> Result<Option<ArraySubset>, ChunkGridError>
        ensures { MeetsChunks (grid self.now) (shape self.now) (region array_subset.now) result }
    {
        chunks_in_array_subset_of(self, alloc, array_subset)
    }

    /// The indices of the chunks, in row-major order.
    final fn iter_chunk_indices(&self, alloc: Global) -> Result<IndicesIntoIterator, AllocError>
        requires { count_of (grid self.now).grid_shape < 2 ^ 64 }
        ensures { IfOk result (λ it. tuples_left it ≡ chunks (grid self.now)) }
    {
        indices_within(alloc, self.grid_shape())
    }

    // the boxes of the chunks cut the array into parts
    ghost covers: { (x : Self) → CoversShape (shape x) (grid x) };

    // the version 3 name of each grid is known
    ghost knows_own: { (x : Self) → IfSome (Self.name_in x V3) (λ name. IsTrue (is_known name)) };

    // metadata is refused for its name exactly where that is not known
    ghost refuses: { RefusesNames is_known created };
}
