//! Patterns, registries, and extensions that go by names.

ghost use Rattle.std.specs.Prelude.{Some, codes, ◌||◌};
ghost use Rattle.std.specs.Str.{bytes_eq};

use crate::texts::{is_text, owned};
use std::alloc::{AllocError, Global};
use std::process::Abort;
use zarrs_plugin::{
    ExtensionAliases, ExtensionName, NamePattern, Registry, RegistryHandle, ZarrVersion,
};

struct Regular;

impl ExtensionName for Regular {
    ghost name_in = { λ _ _. Some (codes "regular") };

    fn name(&self, alloc: Global, _version: ZarrVersion) -> Result<Option<String>, AllocError> {
        Ok(Some(String::from_str(alloc, "regular")?))
    }
}

impl ExtensionAliases for Regular {
    ghost goes_by = { λ _ name _. bytes_eq name (codes "regular") || bytes_eq name (codes "even") };

    fn matches_name(&self, name: &str, _version: ZarrVersion) -> bool {
        name == "regular" || name == "even"
    }
}

fn name_of<E: ExtensionName>(alloc: Global, extension: &E) -> Result<Option<String>, AllocError> {
    extension.name(alloc, ZarrVersion::V3)
}

fn goes_by<E: ExtensionAliases>(extension: &E, name: &str) -> bool {
    extension.matches_name(name, ZarrVersion::V2)
}

#[test]
fn an_extension_has_its_names(rt: HostRuntime) {
    assert!(rt; name_of(rt.alloc(), &Regular).is_ok());
    assert!(rt; goes_by(&Regular, "regular"));
    assert!(rt; goes_by(&Regular, "even"));
    assert!(rt; !goes_by(&Regular, "odd"));
}

fn exact(rt: &impl Abort, alloc: Global, name: &str) -> NamePattern {
    NamePattern::Exact(owned(rt, alloc, name))
}

fn builtin(rt: &impl Abort, alloc: Global) -> Registry<u8> {
    let bytes = (exact(rt, alloc, "bytes"), 1);
    let raw = (NamePattern::LetterDigits(b'r'), 2);
    Registry::with_builtin(alloc, vec![in alloc; bytes, raw].expect(rt, "memory"))
}

fn register(
    rt: &impl Abort,
    alloc: Global,
    registry: &mut Registry<u8>,
    name: &str,
    kind: u8,
) -> RegistryHandle {
    let names = vec![in alloc; exact(rt, alloc, name)].expect(rt, "memory");
    registry.register(names, kind).expect(rt, "memory")
}

// The kinds of some names before anything was registered, after `bytes` and `zstd` were, and after `bytes` was removed.
fn found(rt: &impl Abort, alloc: Global) -> Result<String, AllocError> {
    let mut registry = builtin(rt, alloc);
    let before = kinds(&registry);
    let bytes = register(rt, alloc, &mut registry, "bytes", 3);
    let _zstd = register(rt, alloc, &mut registry, "zstd", 4);
    let between = kinds(&registry);
    registry.unregister(&bytes);
    format!(in alloc; "{before:?} {between:?} {:?}", kinds(&registry))
}

fn kinds(registry: &Registry<u8>) -> [u8; 6] {
    ["bytes", "zstd", "r8", "r", "r8x", "x8"].map(|name| registry.find(name).copied().unwrap_or(0))
}

#[test]
fn the_first_match_is_found(rt: HostRuntime) {
    let want = "[1, 0, 2, 0, 0, 0] [3, 4, 2, 0, 0, 0] [1, 4, 2, 0, 0, 0]";
    is_text(&rt, found(&rt, rt.alloc()), want);
}
