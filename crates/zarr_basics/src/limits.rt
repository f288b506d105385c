//! Whether chunks can be held and addressed.

ghost use Rattle.std.specs.Prelude.{◌≡◌, ◌*◌};
ghost use Rattle.zarr_model.specs.Prelude.{count_of, is_too_large};
ghost use Rattle.zarr_basics.specs.Lengths.{nonzeros};
ghost use Rattle.zarr_basics.specs.LimitTests.{in_64_bits, are_some};

use std::num::NonZeroU64;

/// A product, if it has 64 bits.
pub fn product(a: u64, b: u64) -> Option<u64>
    ensures { result ≡ in_64_bits (a * b) }
{
    a.checked_mul(b)
}

/// Whether there is a chunk in each dimension.
pub fn are_some(counts: &[u64]) -> bool
    ensures { result ≡ are_some counts.now }
{
    counts.iter().all(|count| 0 < *count)
}

// The product of lengths, which are positive.
#[tactic(auto, using(crate::proofs::SizeLaws::of_products))]
fn num_elements(lengths: &[NonZeroU64]) -> Option<u64>
    ensures { result ≡ in_64_bits (count_of (nonzeros lengths.now)) }
{
    match lengths {
        [] => Some(1),
        [length, lengths @ ..] => match num_elements(lengths) {
            Some(rest) => product(length.get(), rest),
            None => None,
        },
    }
}

/// Whether there are too many elements of a size: as many as the greatest number, or more bytes than it.
#[tactic(auto, using(crate::proofs::SizeLaws::of_sizes))]
pub fn is_too_large(lengths: &[NonZeroU64], size: Option<usize>) -> bool
    ensures { result ≡ is_too_large size (count_of (nonzeros lengths.now)) }
{
    match num_elements(lengths) {
        None => true,
        Some(u64::MAX) => true,
        Some(number) => match size {
            None => false,
            Some(size) => product(number, size as u64).is_none(),
        },
    }
}
