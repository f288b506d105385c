//! Registries of one's own.

ghost use Rattle.std.specs.Prelude.{◌≡◌, [], ◌∷◌, IfOk, string_bytes};
ghost use Rattle.zarrs_plugin.specs.NamePattern.{exact};
ghost use Rattle.zarrs_plugin.specs.Registry.{with_entry};
ghost use Rattle.zarr_basics.specs.Registries.{names_of, builtin_names};

use crate::made::SQUARE;
use std::alloc::{AllocError, Global};
use std::process::Abort;
use zarr_array::{CodecKind, GridKind, NamePattern, OpenArray, Registries, builtin_registries};

// A text of the square's document, what stands in its place, and whether it is opened.
const TABLE: &str = r#"["bytes"] ["b8"] opened
"regular" "even" opened
["bytes"] ["b"] PluginUnsupportedError
"bytes" "bytes" opened"#;

// The built-in registries, with another name for the grid `regular`.
fn with_grid_name(alloc: Global, name: String) -> Result<Registries, AllocError>
    ensures { IfOk result (λ r. (names_of r).grids
        ≡ with_entry (exact (string_bytes name) ∷ []) GridKind.Regular builtin_names.grids) }
{
    let mut registries = builtin_registries(alloc)?;
    let names = vec![in alloc; NamePattern::Exact(name)]?;
    registries.grids.register(names, GridKind::Regular)?;
    Ok(registries)
}

// The same, with names of the letter `b` and digits for the codec `bytes`.
fn with_other_names(rt: &impl Abort, alloc: Global) -> Registries {
    let even = String::from_str(alloc, "even").expect(rt, "memory");
    let mut registries = with_grid_name(alloc, even).expect(rt, "memory");
    let names = vec![in alloc; NamePattern::LetterDigits(b'b')].expect(rt, "memory");
    let _handle = registries
        .codecs
        .register(names, CodecKind::Bytes)
        .expect(rt, "memory");
    registries
}

// The name of the refusal of the square's document with one text in place of another.
fn answer(
    rt: &impl Abort,
    alloc: Global,
    old: &str,
    new: &str,
    registries: &Registries,
) -> &'static str {
    let text = SQUARE.replace(alloc, old, new).expect(rt, "memory");
    match OpenArray::open(alloc, text.as_str(), registries) {
        Ok(_) => "opened",
        Err(error) => error.name(),
    }
}

// What a row has before and behind its first space.
fn cut(row: &str) -> (&str, &str) {
    row.split_once(' ').unwrap_or((row, ""))
}

#[test]
fn registered_names_are_known(rt: HostRuntime) {
    let registries = with_other_names(&rt, rt.alloc());
    for row in TABLE.lines() {
        let (old, rest) = cut(row);
        let (new, want) = cut(rest);
        assert!(rt;
            answer(&rt, rt.alloc(), old, new, &registries) == want,
            "{row}"
        );
    }
}
