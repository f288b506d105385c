//! The runs of a subset in an array's shape.

ghost use Rattle.std.specs.Prelude.{◌≡◌, ◌<◌, ◌^◌, map, IfOk};
ghost use Rattle.zarrs_codec_traits.specs.Prelude.{count_of, region};
ghost use Rattle.zarrs_chunk_grid.specs.Runs.{runs, span_of};

use std::alloc::Global;
use zarrs_chunk_grid::{ArraySubset, IndexerError, append_contiguous_linearised_indices};

/// The runs of a subset, as `append_contiguous_linearised_indices`: as few as cover it.
///
/// # Errors
/// As of `append_contiguous_linearised_indices`.
pub fn runs_of(
    alloc: Global,
    subset: &ArraySubset,
    array_shape: &[u64],
) -> Result<Vec<(u64, u64)>, IndexerError>
    requires { count_of array_shape.now < 2 ^ 64 }
    ensures { IfOk result (λ v. map span_of v.items ≡ runs array_shape.now (region subset.now)) }
{
    let mut out = Vec::new(alloc);
    append_contiguous_linearised_indices(&mut out, alloc, subset, array_shape)?;
    Ok(out)
}
