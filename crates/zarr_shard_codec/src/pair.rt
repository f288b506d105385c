//! A pair of an index: where an inner chunk lies.

ghost use Rattle.std.specs.Prelude.{◌≡◌, ◌*◌, ◌+◌, ◌≤◌, ◌<◌, take, drop, length, MatchOption};
ghost use Rattle.zarr_model.specs.Codec.{number_of_bytes};
ghost use Rattle.zarr_shard_codec.specs.Index.{pair_at as pair_in};
ghost use Rattle.zarr_shard_codec.specs.Index.{is_absent, lies_within, pair_of};
ghost use Rattle.zarr_shard_codec.specs.Pair.{pair_seen};

/// Where an inner chunk lies in a value. Both numbers are the greatest where it is not there.
#[derive(Clone, Copy, Debug, PartialEq, Eq)]
pub(crate) struct Pair {
    /// Where its bytes begin.
    pub(crate) offset: u64,
    /// How many they are.
    pub(crate) size: u64,
}

// The number in the first 8 bytes, and the bytes after it, if there are so many.
fn split_number(bytes: &[u8]) -> Option<(u64, &[u8])>
    ensures { MatchOption result (length bytes.now < 8)
        (λ r. (r.0 ≡ number_of_bytes (take 8 bytes.now)) × (r.1.now ≡ drop 8 bytes.now)
        × (length r.1.now + 8 ≡ length bytes.now)) }
{
    match bytes {
        [a, b, c, d, e, f, g, h, rest @ ..] => Some((
            u64::from_le_bytes([*a, *b, *c, *d, *e, *f, *g, *h]),
            rest,
        )),
        _ => None,
    }
}

// The pair that sixteen bytes hold.
fn pair_of(bytes: &[u8]) -> Pair
    requires { 16 ≤ length bytes.now }
    ensures { pair_seen result ≡ pair_of bytes.now }
{
    let Some((offset, rest)) = split_number(bytes) else {
        unreachable!();
    };
    let Some((size, _)) = split_number(rest) else {
        unreachable!();
    };
    Pair { offset, size }
}

/// The pair of a number in an index.
pub(crate) fn pair_at(index: &[u8], number: usize) -> Pair
    requires { 16 * number + 16 ≤ length index.now }
    ensures { pair_seen result ≡ pair_in index.now number }
{
    let at = 16 * number;
    pair_of(&index[at..at + 16])
}

impl Pair {
    ghost use Rattle.zarr_shard_codec.specs.Index.{absent_pair};
    ghost use Rattle.zarr_shard_codec.specs.Pair.{pair_seen as seen};

    /// The pair of an inner chunk that is not there.
    pub(crate) fn absent() -> Pair
        ensures { seen result ≡ absent_pair }
    {
        Pair {
            offset: u64::MAX,
            size: u64::MAX,
        }
    }

    /// Whether it says that the inner chunk is not there.
    pub(crate) fn is_absent(&self) -> bool
        ensures { result ≡ is_absent (seen self.now) }
    {
        self.offset == u64::MAX && self.size == u64::MAX
    }

    /// Whether it lies within a value of so many bytes.
    pub(crate) fn lies_within(&self, len: u64) -> bool
        ensures { result ≡ lies_within len (seen self.now) }
    {
        match self.offset.checked_add(self.size) {
            Some(end) => end <= len,
            None => false,
        }
    }
}
