//! Counts of the bytes that a store hands out.

ghost use Rattle.std.specs.Prelude.{◌≡◌, ◌+◌};
ghost use Rattle.zarrs_storage.specs.Calls.{capped_count};
ghost use Rattle.zarrs_storage.specs.Store.{total_of};

/// A count with the lengths of parts, which stops at the last value.
pub fn with_lengths(count: u64, parts: &[Vec<u8>]) -> u64
    ensures { result ≡ capped_count (count + total_of parts.now) }
{
    let mut sum = count;
    for part in parts {
        sum = sum.saturating_add(part.len() as u64);
    }
    sum
}
