//! The parts of a text between separators.

ghost use Rattle.std.specs.Prelude.{◌≡◌, ◌<◌, option_map};
ghost use Rattle.zarr_cli_lines.specs.Text.{split_at};
ghost use Rattle.zarr_cli_lines.specs.Parts.{three_of, two_of};

use crate::element_parts::cut;

/// The two parts of a text, if it has exactly one `separator`.
#[tactic(auto, using(crate::proofs::SplitLemmas::more_than_two))]
pub(crate) fn two_parts(text: &str, separator: char) -> Option<(&str, &str)>
    requires { separator < 128 }
    ensures { option_map (λ p. (p.0.now, p.1.now)) result ≡ two_of (split_at separator text.now) }
{
    let (first, rest) = cut(text, separator);
    let (second, None) = cut(rest?, separator) else {
        return None;
    };
    Some((first, second))
}

/// The three parts of a text, if it has exactly two of `separator`.
pub(crate) fn three_parts(text: &str, separator: char) -> Option<(&str, &str, &str)>
    requires { separator < 128 }
    ensures { option_map (λ p. (p.0.now, p.1.now, p.2.now)) result
        ≡ three_of (split_at separator text.now) }
{
    let (first, rest) = cut(text, separator);
    let (second, third) = two_parts(rest?, separator)?;
    Some((first, second, third))
}
