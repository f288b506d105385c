//! Whole numbers in decimal.

ghost use Rattle.std.specs.Prelude.{◌≡◌};
ghost use Rattle.zarrs_plugin.specs.Number.{number_of};

/// The number below 2^64 that a text is in decimal, without sign or leading zero.
pub fn parse_number(text: &str) -> Option<u64>
    ensures { result ≡ number_of text.now }
{
    if text.starts_with('+') {
        return None;
    }
    if text.starts_with('0') {
        return if text.len() == 1 { Some(0) } else { None };
    }
    text.parse().ok()
}
