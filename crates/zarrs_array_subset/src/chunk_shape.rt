//! The lengths of a chunk.

ghost use Rattle.std.specs.Prelude.{◌≡◌, map, IfOk};
ghost use Rattle.std.specs.Int.NonZero.{non_zero_u64_get};

use std::alloc::{AllocError, Global};
use std::num::NonZeroU64;

/// The lengths of a chunk, as numbers.
///
/// # Errors
/// [`AllocError`] where memory runs out.
pub fn shape_numbers(alloc: Global, shape: &[NonZeroU64]) -> Result<Vec<u64>, AllocError>
    ensures { IfOk result (λ v. v.items ≡ map non_zero_u64_get shape.now) }
{
    shape.iter().map(|length| length.get()).collect(alloc)
}
