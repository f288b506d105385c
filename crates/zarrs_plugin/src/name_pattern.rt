//! Patterns of names.

ghost use Rattle.std.specs.Prelude.{◌≡◌};
ghost use Rattle.zarrs_plugin.specs.NamePattern.{letter_digits, are_digits, matches, matches_any, pattern_of, patterns_of};

/// The names that an entry of a registry goes by.
#[derive(Debug, Drop)]
pub enum NamePattern {
    /// This name alone.
    Exact(String),
    /// This ASCII letter, followed by one or more ASCII digits.
    LetterDigits(u8),
}

impl NamePattern {
    /// Whether `name` is of the pattern.
    pub fn matches(&self, name: &str) -> bool
        ensures { result ≡ matches (pattern_of self.now) name.now }
    {
        match self {
            NamePattern::Exact(text) => text.as_str() == name,
            NamePattern::LetterDigits(letter) => is_letter_digits(*letter, name.as_bytes()),
        }
    }
}

fn is_letter_digits(letter: u8, name: &[u8]) -> bool
    ensures { result ≡ matches (letter_digits letter) name.now }
{
    match name {
        [] => false,
        [_] => false,
        [first, digits @ ..] => *first == letter && are_digits(digits),
    }
}

fn are_digits(bytes: &[u8]) -> bool
    ensures { result ≡ are_digits bytes.now }
{
    for byte in bytes {
        if !byte.is_ascii_digit() {
            return false;
        }
    }
    true
}

// Whether one of the patterns matches.
pub(crate) fn any_matches(patterns: &[NamePattern], name: &str) -> bool
    ensures { result ≡ matches_any (patterns_of patterns.now) name.now }
{
    for pattern in patterns {
        if pattern.matches(name) {
            return true;
        }
    }
    false
}
