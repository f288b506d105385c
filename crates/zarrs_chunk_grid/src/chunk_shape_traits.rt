//! Shapes of chunks, whose lengths are not 0.

ghost use Rattle.std.specs.Prelude.{◌≡◌, ℕ, ◌<◌, ◌^◌, List, IfOk, map};
ghost use Rattle.std.specs.Int.NonZero.{non_zero_u64_get, non_zero_usize_get};
ghost use Rattle.std.specs.Option.{SomeIff, option_map};
ghost use Rattle.zarr_model.specs.Region.{count_of};

use std::alloc::{AllocError, Global};
use std::num::{NonZeroU64, NonZeroUsize};
use zarrs_array_subset::{ArrayShape, shape_numbers};

/// The shape of a chunk.
pub trait ChunkShapeTraits {
    // its lengths
    ghost lengths: { Self → List ℕ };

    /// The lengths as the shape of an array.
    ///
    /// # Errors
    /// [`AllocError`] where memory runs out.
    fn to_array_shape(&self, alloc: Global) -> Result<ArrayShape, AllocError>
        ensures { IfOk result (λ v. v.items ≡ lengths self.now) };

    /// The number of elements.
    fn num_elements(&self) -> NonZeroU64
        requires { count_of (lengths self.now) < 2 ^ 64 }
        ensures { non_zero_u64_get result ≡ count_of (lengths self.now) };

    /// The number of elements.
    fn num_elements_nonzero_usize(&self) -> NonZeroUsize
        requires { count_of (lengths self.now) < 2 ^ 64 }
        ensures { non_zero_usize_get result ≡ count_of (lengths self.now) };

    /// The number of elements.
    final fn num_elements_u64(&self) -> u64
        requires { count_of (lengths self.now) < 2 ^ 64 }
        ensures { result ≡ count_of (lengths self.now) }
    {
        self.num_elements().get()
    }

    /// The number of elements.
    final fn num_elements_usize(&self) -> usize
        requires { count_of (lengths self.now) < 2 ^ 64 }
        ensures { result ≡ count_of (lengths self.now) }
    {
        self.num_elements().get() as usize
    }
}

// The product of lengths that are not 0; none exactly where it passes `u64`.
#[tactic(auto, using(zarrs_array_subset::proofs::BoxLaws::of_products))]
fn count_of_lengths(shape: &[NonZeroU64]) -> Option<NonZeroU64>
    ensures { SomeIff (option_map non_zero_u64_get result)
        (count_of (map non_zero_u64_get shape.now) < 2 ^ 64)
        (count_of (map non_zero_u64_get shape.now)) }
{
    match shape {
        [] => NonZeroU64::new(1),
        [first, rest @ ..] => first.checked_mul(count_of_lengths(rest)?),
    }
}

impl ChunkShapeTraits for Vec<NonZeroU64> {
    ghost lengths = { λ s. map non_zero_u64_get s.items };

    fn to_array_shape(&self, alloc: Global) -> Result<ArrayShape, AllocError> {
        shape_numbers(alloc, self)
    }

    fn num_elements(&self) -> NonZeroU64 {
        match count_of_lengths(self) {
            Some(count) => count,
            None => unreachable!(),
        }
    }

    fn num_elements_nonzero_usize(&self) -> NonZeroUsize {
        match NonZeroUsize::new(self.num_elements().get() as usize) {
            Some(count) => count,
            None => unreachable!(),
        }
    }
}
