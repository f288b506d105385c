//! The parts of a text between separators.

ghost use Rattle.std.specs.Prelude.{◌≡◌, ◌<◌, [], ◌∷◌, length, IfSome};
ghost use Rattle.std.specs.Option.{option_map_or};
ghost use Rattle.zarr_cli_lines.specs.ElementText.{split_at};

/// What stands before the first `separator`, and what stands after it, if it is there.
pub fn cut(text: &str, separator: char) -> (&str, Option<&str>)
    requires { separator < 128 }
    ensures parts { split_at separator text.now
        ≡ result.0.now ∷ option_map_or (λ rest. split_at separator rest.now) result.1 [] }
    ensures shorter { IfSome result.1 (λ rest. length rest.now < length text.now) }
{
    match text.split_once(separator) {
        Some((before, after)) => (before, Some(after)),
        None => (text, None),
    }
}
