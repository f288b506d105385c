//! Grids of documents, and the calls of one: an array of shape [5, 4] in chunks of shape [2, 4].

ghost use Rattle.std.specs.Prelude.{◌<◌, ◌^◌};
ghost use Rattle.zarrs_chunk_grid.specs.ChunkGrid.{AllFit};
ghost use Rattle.zarr_model.specs.Region.{count_of};

use crate::callers::box_of_element;
use crate::texts::{cut, gives, is_text};
use std::alloc::{AllocError, Global};
use std::process::Abort;
use zarr_basics::{BasicGrid, builtin_registries};
use zarrs_chunk_grid::{
    ArraySubset, ChunkGrid, ChunkGridTraits, ChunkGridTraitsIterators, shape_product,
};
use zarrs_metadata_parts::MetadataV3;

// Metadata, and that of the grid which it denotes over the array, or why there is none.
const GRIDS: &str = r#"
{"name":"regular","configuration":{"chunk_shape":[2,4]}} -> regular {"chunk_shape":[2,4]}
{"name":"zarr_basics.boundaries","configuration":{"lengths":[[2,4],[1,3]]}} -> zarr_basics.boundaries {"lengths":[[2,4],[1,3]]}
{"name":"regular","configuration":{"chunk_shape":[2,0]}} -> the configuration is not supported
{"name":"zarr_basics.boundaries","configuration":{"lengths":[[2,4],[1,3]],"x":1}} -> the configuration is not supported
"odd" -> odd is no supported extension of the kind ChunkGrid
"#;

fn told(rt: &impl Abort, alloc: Global, text: &str) -> Result<String, AllocError> {
    let registries = builtin_registries(alloc).expect(rt, "memory");
    let metadata = MetadataV3::try_from_text(alloc, text).expect(rt, text);
    let made = ChunkGrid::<BasicGrid>::from_metadata(alloc, &metadata, &[5, 4], &registries.grids);
    match made {
        Ok(grid) => grid.metadata(alloc).expect(rt, "memory").to_display(alloc),
        Err(error) => format!(in alloc; "{error}"),
    }
}

#[test]
fn grids_are_made(rt: HostRuntime) {
    for row in GRIDS.trim().lines() {
        let (text, want) = cut(row);
        is_text(&rt, told(&rt, rt.alloc(), text), want);
    }
}

// What is said of chunks and elements by their indices.
fn has_chunks<G: ChunkGridTraits>(rt: &impl Abort, alloc: Global, grid: &G) {
    let shape = grid.chunk_shape(alloc, &[2, 0]);
    gives(rt, alloc, shape, "Some([2, 4])");
    let shape = grid.chunk_shape_u64(alloc, &[2, 0]);
    gives(rt, alloc, shape, "Some([2, 4])");
    let origin = grid.chunk_origin(alloc, &[2, 0]);
    gives(rt, alloc, origin, "Some([4, 0])");
    let chunk = grid.chunk_indices(alloc, &[4, 3]);
    gives(rt, alloc, chunk, "Some([2, 0])");
    let place = grid.chunk_element_indices(alloc, &[3, 3]);
    gives(rt, alloc, place, "Some([1, 3])");
}

// The boxes of chunks, and the chunks of boxes.
fn has_boxes<G: ChunkGridTraits>(rt: &impl Abort, alloc: Global, grid: &G, region: &ArraySubset)
    requires { AllFit (G.grid grid.now) }
{
    let last = "Some(ArraySubset { start: [4, 0], shape: [2, 4] })";
    gives(rt, alloc, grid.subset(alloc, &[2, 0]), last);
    gives(rt, alloc, box_of_element(grid, alloc, &[4, 3]), last);
    let met = grid.chunks_in_array_subset(alloc, region);
    let chunks = "Some(ArraySubset { start: [1, 0], shape: [2, 1] })";
    gives(rt, alloc, met, chunks);
}

// The region of the chunks that a region meets.
fn has_meeting<G: ChunkGridTraits>(rt: &impl Abort, alloc: Global, grid: &G, region: &ArraySubset)
    requires { AllFit (G.grid grid.now) }
{
    if !region.inbounds_shape(grid.array_shape()) {
        return assert!(rt; false, "outside");
    }
    match grid.chunks_meeting(alloc, region) {
        Ok(chunks) => {
            let all = "Some(ArraySubset { start: [2, 0], shape: [4, 4] })";
            gives(rt, alloc, grid.chunks_subset(alloc, &chunks), all);
        }
        Err(_) => assert!(rt; false, "no memory"),
    }
}

// The boxes of all chunks, the first and the last chunk, and the first with its box.
fn lists_chunks<G: ChunkGridTraits>(rt: &impl Abort, alloc: Global, grid: &G)
    requires fit { AllFit (G.grid grid.now) }
    requires few { count_of (G.grid grid.now).grid_shape < 2 ^ 64 }
{
    let (Ok(mut chunks), Ok(mut boxes), Ok(mut pairs)) = (
        grid.iter_chunk_indices(alloc),
        grid.iter_chunk_subsets(alloc),
        grid.iter_chunk_indices_and_subsets(alloc),
    ) else {
        return assert!(rt; false, "no memory");
    };
    let ends = Ok::<_, ()>((chunks.len(), chunks.next(), chunks.next_back()));
    gives(rt, alloc, ends, "(3, Some(Ok([0, 0])), Some(Ok([2, 0])))");
    let first = "Some(Ok(ArraySubset { start: [0, 0], shape: [2, 4] }))";
    gives(rt, alloc, Ok::<_, ()>(boxes.next()), first);
    let first = "Some(Ok(([0, 0], ArraySubset { start: [0, 0], shape: [2, 4] })))";
    gives(rt, alloc, Ok::<_, ()>(pairs.next()), first);
}

// All that needs boxes that fit, and chunks that can be counted.
#[tactic(auto, using(zarr_basics::proofs::LimitLaws::all_fit))]
fn has_small_chunks(rt: &impl Abort, alloc: Global, grid: &BasicGrid, region: &ArraySubset) {
    if grid.has_large_chunk(Some(8)) {
        return assert!(rt; false, "too large");
    }
    has_boxes(rt, alloc, grid, region);
    has_meeting(rt, alloc, grid, region);
    if shape_product(grid.grid_shape()).is_some() {
        lists_chunks(rt, alloc, grid);
    }
}

#[test]
fn chunks_are_found(rt: HostRuntime) {
    let (alloc, text) = (
        rt.alloc(),
        r#"{"name":"regular","configuration":{"chunk_shape":[2,4]}}"#,
    );
    let metadata = MetadataV3::try_from_text(alloc, text).expect(&rt, text);
    let grid = BasicGrid::create(alloc, &metadata, &[5, 4]).expect(&rt, "a grid");
    has_chunks(&rt, alloc, &grid);
    let region = ArraySubset::new_with_ranges(alloc, &[3..5, 1..2]).expect(&rt, "memory");
    has_small_chunks(&rt, alloc, &grid, &region);
}
