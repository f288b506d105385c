//! Chunks that are too large.

ghost use Rattle.std.specs.Prelude.{◌≡◌, ◌-◌, true, false, None, [], if◌then◌else◌, length, take};
ghost use Rattle.zarrs_codec_traits.specs.Prelude.{fixed_size, fill_bytes, type_of, innermost_fill};
ghost use Rattle.zarrs_codec_traits.specs.Prelude.{kind_seen};
ghost use Rattle.zarrs_data_type_bytes.specs.Pieces.{ends_in_zero};
ghost use Rattle.zarr_basics.specs.BasicGrid.{basic_grid};
ghost use Rattle.zarr_basics.specs.Limits.{has_large_chunk};
ghost use Rattle.zarr_codecs.specs.Plain.{unserved_by};
ghost use Rattle.zarr_codecs.specs.Views.{plain_of};
ghost use Rattle.zarr_array_open.specs.Opening.{is_large};
ghost use Rattle.zarr_array_open.specs.Sizes.{have_chunks, has_long_chunk};

use zarr_basics::{BasicArrayToBytes, BasicGrid};
use zarrs_chunk_grid::ChunkGridTraits;
use zarrs_codec_array_bytes::array_bytes::step::{Step, step_of};
use zarrs_codec_traits::num_elements;
use zarrs_data_type::{DataType, FillValue};
use zarrs_data_type_bytes::ends_in_zero;

// What stands in 4 bytes is less.
const LONG: u64 = 1 << 32;

/// Whether a grid has a chunk.
pub(crate) fn has_chunks(grid: &BasicGrid) -> bool
    ensures { result ≡ have_chunks (basic_grid grid.now).grid_shape }
{
    grid.grid_shape().iter().all(|n| 0 < *n)
}

// The fill value inside that of an optional type, of elements of no fixed size: none under a null.
fn inner_fill(fill: &[u8]) -> &[u8]
    ensures { result.now
        ≡ (if ends_in_zero fill.now then [] else take (length fill.now - 1) fill.now) }
{
    if ends_in_zero(fill) {
        return &[];
    }
    &fill[..fill.len().saturating_sub(1)]
}

// The fill value of the innermost elements, which have no fixed size.
fn innermost_fill<'f>(data_type: &DataType, fill: &'f [u8]) -> &'f [u8]
    requires { fixed_size (kind_seen data_type.now) ≡ None }
    ensures { result.now ≡ innermost_fill (kind_seen data_type.now) fill.now }
{
    match step_of(data_type) {
        Step::Optional(inner) => innermost_fill(inner, inner_fill(fill)),
        Step::Variable => fill,
        Step::Fixed(_) => fill,
    }
}

// Whether the number of the elements of some chunk, or the length of these bytes, does not fit 4 bytes.
fn has_long_chunk(grid: &BasicGrid, fill: &[u8]) -> bool
    requires { has_large_chunk (basic_grid grid.now) None ≡ false }
    ensures { result ≡ has_long_chunk (basic_grid grid.now) fill.now }
{
    if !has_chunks(grid) {
        return false;
    }
    LONG <= num_elements(grid.largest_lengths()) || LONG <= fill.len() as u64
}

/// Whether some chunk can't be held or addressed, or its lengths can't be stored where they have to be.
pub(crate) fn is_large(
    codec: &BasicArrayToBytes,
    data_type: &DataType,
    fill: &FillValue,
    grid: &BasicGrid,
) -> bool
    requires served { unserved_by (plain_of codec.now) (type_of data_type.now) ≡ None }
    ensures { result ≡ is_large (plain_of codec.now) (type_of data_type.now)
        (fill_bytes fill.now) (basic_grid grid.now) }
{
    if grid.has_large_chunk(data_type.fixed_size()) {
        return true;
    }
    if !codec.stores_lengths() {
        return false;
    }
    has_long_chunk(grid, innermost_fill(data_type, fill.as_ne_bytes()))
}
