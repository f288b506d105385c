//! The order of the bytes of components.

ghost use Rattle.std.specs.Prelude.{◌≡◌, ◌<◌};
ghost use Rattle.zarrs_data_type_bytes.specs.Pieces.{components_reversed};

/// Reverses each whole component of `size` bytes; the bytes past the last whole component stay.
pub fn reverse_components(bytes: &mut [u8], size: usize)
    requires { 0 < size }
    ensures { bytes.new ≡ components_reversed size bytes.old }
{
    for k in 0..bytes.len() / size {
        bytes[k * size..k * size + size].reverse();
    }
}
