//! Elements that are too long for their lengths to be stored.

ghost use Rattle.std.specs.Prelude.{◌≡◌, ◌∷◌, not};
ghost use Rattle.zarr_model.specs.Command.{has_long_step, has_long_element};
ghost use Rattle.zarrs_codec_array_bytes.specs.Raw.{raw_of};

use super::ArrayBytes;

/// Whether the length of each element between these offsets fits 4 bytes: no two neighbouring ones differ by 2^32 or
/// more. An offset that is below the one before it makes no long element.
pub fn vlen_fits(offsets: &[usize]) -> bool
    ensures { result ≡ not (has_long_step offsets.now) }
{
    match offsets {
        [] => true,
        [first, rest @ ..] => steps_fit(*first, rest),
    }
}

// Whether no offset is 2^32 or more above the one before it.
fn steps_fit(first: usize, rest: &[usize]) -> bool
    ensures { result ≡ not (has_long_step (first ∷ rest.now)) }
{
    let mut from = first;
    for to in rest {
        if to.saturating_sub(from) >= 1 << 32 {
            return false;
        }
        from = *to;
    }
    true
}

/// Whether an element has 2^32 bytes or more, under a null or not.
pub fn has_long_element(bytes: &ArrayBytes<'_>) -> bool
    ensures { result ≡ has_long_element (raw_of bytes.now) }
{
    match bytes {
        ArrayBytes::Fixed(_) => false,
        ArrayBytes::Variable(variable) => !vlen_fits(variable.numbers()),
        ArrayBytes::Optional(optional) => has_long_element(optional.data()),
    }
}
