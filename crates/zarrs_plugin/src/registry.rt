//! Registries of what goes by a name.

ghost use Rattle.std.specs.Prelude.{◌≡◌, [], IfOk, OnOk, OnErr, option_map, length};
ghost use Rattle.zarrs_plugin.specs.NamePattern.{patterns_of};
ghost use Rattle.zarrs_plugin.specs.Registry.{entry_of, builtin_of, registered_of, named, find_builtin, find_registered};

use crate::name_pattern::{NamePattern, any_matches};
use std::alloc::{AllocError, Global};

/// The place of a registered entry. A place is not used again, so a handle never comes to mean another entry.
#[derive(Clone, Copy, Debug)]
pub struct RegistryHandle(usize);

// An entry that a user registered.
#[derive(Drop)]
struct Entry<K> {
    names: Vec<NamePattern>,
    kind: K,
}

/// Kinds by the names that they go by: first those that were registered, in order of registration, and then the
/// built-in ones.
#[derive(Drop)]
pub struct Registry<K> {
    registered: Vec<Option<Entry<K>>>,
    builtin: Vec<(NamePattern, K)>,
}

impl<K: Drop> Registry<K> {
    ghost use Rattle.zarrs_plugin.specs.Registry.{registry_of, find, with_entry, is_there, without_entry};

    /// A registry in which nothing is found.
    pub fn new(alloc: Global) -> Self
        ensures { registry_of result ≡ record { registered = []; builtin = [] } }
    {
        Registry {
            registered: Vec::new(alloc),
            builtin: Vec::new(alloc),
        }
    }

    /// A registry with `entries` as its built-in ones, in this order.
    pub fn with_builtin(alloc: Global, entries: Vec<(NamePattern, K)>) -> Self
        ensures { registry_of result ≡ record {
          registered = [];
          builtin = builtin_of entries.items;
        } }
    {
        Registry {
            registered: Vec::new(alloc),
            builtin: entries,
        }
    }

    /// Adds an entry behind those that were registered before, and answers its handle.
    ///
    /// # Errors
    /// [`AllocError`] where memory runs out.
    pub fn register(
        &mut self,
        names: Vec<NamePattern>,
        kind: K,
    ) -> Result<RegistryHandle, AllocError>
        ensures ok { OnOk result (registry_of self.new
            ≡ with_entry (patterns_of names.items) kind (registry_of self.old)) }
        ensures handle { IfOk result (λ h. h.0 ≡ length (registry_of self.old).registered) }
        ensures err { OnErr result (registry_of self.new ≡ registry_of self.old) }
    {
        let place = self.registered.len();
        self.registered
            .push(Some(Entry { names, kind }))
            .map_err(AllocError::from)?;
        Ok(RegistryHandle(place))
    }

    /// Removes the entry of `handle`, and answers whether it was there.
    pub fn unregister(&mut self, handle: &RegistryHandle) -> bool
        ensures there { result ≡ is_there handle.now.0 (registry_of self.old) }
        ensures rest { registry_of self.new ≡ without_entry handle.now.0 (registry_of self.old) }
    {
        let place = handle.0;
        if place >= self.registered.len() {
            return false;
        }
        let was_there = self.registered[place].is_some();
        self.registered[place] = None;
        was_there
    }

    /// The kind of the first registered entry one of whose names matches, else of the first built-in one that
    /// matches, and [`None`] where none does.
    pub fn find(&self, name: &str) -> Option<&K>
        ensures { option_map (λ k. k.now) result ≡ find name.now (registry_of self.now) }
    {
        match find_registered(&self.registered, name) {
            Some(kind) => Some(kind),
            None => find_builtin(&self.builtin, name),
        }
    }
}

fn find_builtin<'a, K>(entries: &'a [(NamePattern, K)], name: &str) -> Option<&'a K>
    ensures { option_map (λ k. k.now) result ≡ find_builtin name.now (builtin_of entries.now) }
{
    for entry in entries {
        if entry.0.matches(name) {
            return Some(&entry.1);
        }
    }
    None
}

fn find_registered<'a, K>(entries: &'a [Option<Entry<K>>], name: &str) -> Option<&'a K>
    ensures { option_map (λ k. k.now) result
        ≡ find_registered name.now (registered_of entries.now) }
{
    for entry in entries {
        if let Some(kind) = kind_named(entry, name) {
            return Some(kind);
        }
    }
    None
}

fn kind_named<'a, K>(entry: &'a Option<Entry<K>>, name: &str) -> Option<&'a K>
    ensures { option_map (λ k. k.now) result ≡ named name.now (option_map entry_of entry.now) }
{
    match entry {
        Some(entry) => {
            if any_matches(&entry.names, name) {
                Some(&entry.kind)
            } else {
                None
            }
        }
        None => None,
    }
}
