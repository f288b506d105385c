//! The bands of an array.

ghost use Rattle.std.specs.Prelude.{◌≡◌, ◌==◌, ◌-◌, ◌∷◌, [], min, false, length, map, replicate, IfOk};
ghost use Rattle.std.specs.List.{list_any, range_with_len};
ghost use Rattle.zarrs_codec_traits.specs.Prelude.{whole, starts, sizes, IsChunk, region};
ghost use Rattle.zarr_rechunk.specs.Bands.{span_inside, first_length, band, bands};
ghost use Rattle.zarr_rechunk.specs.Spans.{range_span};

use std::alloc::{AllocError, Global};
use std::ops::Range;
use zarrs_array_subset::ArraySubset;
use zarrs_chunk_grid::{ChunkGridError, ChunkGridTraits};

// The first of some numbers, or 0 where there is none.
fn first_of(numbers: &[u64]) -> u64
    ensures { result ≡ first_length numbers.now }
{
    match numbers {
        [] => 0,
        [first, ..] => *first,
    }
}

// Whether one of some lengths is 0.
fn has_zero(shape: &[u64]) -> bool
    ensures { result ≡ list_any (λ length. length == 0) shape.now }
{
    for length in shape {
        if *length == 0 {
            return true;
        }
    }
    false
}

// The indices of the first chunk with a first index, in so many dimensions more.
fn chunk_with(alloc: Global, first: u64, others: usize) -> Result<Vec<u64>, AllocError>
    ensures { IfOk result (λ chunk. chunk.items ≡ first ∷ replicate others 0) }
{
    let mut chunk = Vec::new(alloc);
    chunk.resize(others, 0)?;
    chunk.insert(0, first)?;
    Ok(chunk)
}

// Where a chunk begins in the first dimension.
fn start_of<G: ChunkGridTraits>(alloc: Global, grid: &G, chunk: &[u64]) -> Result<u64, AllocError>
    requires { IsChunk (G.grid grid.now) chunk.now }
    ensures { IfOk result (λ start.
        start ≡ first_length (starts ((G.grid grid.now).chunk_box chunk.now))) }
{
    match grid.chunk_origin(alloc, chunk) {
        Ok(Some(origin)) => Ok(first_of(&origin)),
        Ok(None) => unreachable!(),
        Err(ChunkGridError::OutOfMemory) => Err(AllocError),
        Err(ChunkGridError::IncompatibleDimensionality(_)) => unreachable!(),
    }
}

// How long it is there.
fn length_of<G: ChunkGridTraits>(alloc: Global, grid: &G, chunk: &[u64]) -> Result<u64, AllocError>
    requires { IsChunk (G.grid grid.now) chunk.now }
    ensures { IfOk result (λ length.
        length ≡ first_length (sizes ((G.grid grid.now).chunk_box chunk.now))) }
{
    match grid.chunk_shape_u64(alloc, chunk) {
        Ok(Some(lengths)) => Ok(first_of(&lengths)),
        Ok(None) => unreachable!(),
        Err(ChunkGridError::OutOfMemory) => Err(AllocError),
        Err(ChunkGridError::IncompatibleDimensionality(_)) => unreachable!(),
    }
}

// The part of a span below a length.
fn range_inside(start: u64, size: u64, length: u64) -> Range<u64>
    ensures { range_span result ≡ span_inside length (record { start = start; size = size }) }
{
    let from = start.min(length);
    from..from + size.min(length - from)
}

// A span, and all of some more dimensions.
fn box_over(alloc: Global, first: Range<u64>, shape: &[u64]) -> Result<ArraySubset, AllocError>
    ensures { IfOk result (λ subset. region subset ≡ range_span first ∷ whole shape.now) }
{
    let mut ranges = Vec::new(alloc);
    ranges.push(first)?;
    for length in shape {
        ranges.push(0..*length)?;
    }
    ArraySubset::new_with_ranges(alloc, &ranges)
}

// The band of the chunks with a first index.
#[tactic(auto, using(crate::proofs::SpanLaws::band_is))]
fn band_of<G: ChunkGridTraits>(
    alloc: Global,
    grid: &G,
    first: u64,
    extent: u64,
    shape: &[u64],
) -> Result<ArraySubset, AllocError>
    requires { IsChunk (G.grid grid.now) (first ∷ replicate (length shape.now) 0) }
    ensures { IfOk result (λ subset.
        region subset ≡ band (G.grid grid.now) extent shape.now first) }
{
    let chunk = chunk_with(alloc, first, shape.len())?;
    let start = start_of(alloc, grid, &chunk)?;
    let size = length_of(alloc, grid, &chunk)?;
    box_over(alloc, range_inside(start, size, extent), shape)
}

// The bands of an array with dimensions, none of whose lengths is 0.
#[tactic(auto, using(crate::proofs::SpanLaws::more_bands, crate::proofs::SpanLaws::all_bands))]
fn bands_along<G: ChunkGridTraits>(
    alloc: Global,
    grid: &G,
    extent: u64,
    shape: &[u64],
) -> Result<Vec<ArraySubset>, AllocError>
    requires over { G.shape grid.now ≡ extent ∷ shape.now }
    requires some { list_any (λ length. length == 0) (extent ∷ shape.now) ≡ false }
    ensures { IfOk result (λ list. map region list.items
        ≡ map (band (G.grid grid.now) extent shape.now)
        (range_with_len 0 (first_length (G.grid grid.now).grid_shape))) }
{
    let mut list = Vec::new(alloc);
    for first in 0..first_of(grid.grid_shape()) {
        let band = band_of(alloc, grid, first, extent, shape)?;
        list.push(band)?;
    }
    Ok(list)
}

// The band of an array without dimensions.
fn only_band(alloc: Global) -> Result<Vec<ArraySubset>, AllocError>
    ensures { IfOk result (λ list. map region list.items ≡ [] ∷ []) }
{
    let only = ArraySubset::new_with_shape(alloc, Vec::new(alloc))?;
    let mut list = Vec::new(alloc);
    list.push(only)?;
    Ok(list)
}

// The bands of an array, in order.
#[tactic(auto, using(crate::proofs::SpanLaws::parts_of, crate::proofs::SpanLaws::no_bands, crate::proofs::SpanLaws::some_bands, crate::proofs::SpanLaws::one_band))]
pub(crate) fn bands_of<G: ChunkGridTraits>(
    alloc: Global,
    grid: &G,
) -> Result<Vec<ArraySubset>, AllocError>
    ensures { IfOk result (λ list.
        map region list.items ≡ bands (G.shape grid.now) (G.grid grid.now)) }
{
    let shape = grid.array_shape();
    if shape.is_empty() {
        return only_band(alloc);
    }
    if has_zero(shape) {
        return Ok(Vec::new(alloc));
    }
    bands_along(alloc, grid, shape[0], &shape[1..])
}
