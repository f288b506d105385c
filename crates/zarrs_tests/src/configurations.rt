//! Configurations, and types that stand for them.

ghost use Rattle.std.specs.Prelude.{◌≡◌, true};
ghost use Rattle.zarrs_metadata_values.specs.Configuration.{configuration_seen};

use crate::texts::{is_text, owned};
use serde_json::{Map, Value};
use std::alloc::{AllocError, Global};
use std::process::Abort;
use zarrs_metadata_parts::{
    Configuration, EmptyConfiguration, FromConfiguration, FromConfigurationError, MetadataV3,
    ToConfiguration,
};

// Stands for every configuration.
#[derive(Drop)]
struct Any(Configuration);

impl FromConfiguration for Any {
    ghost accepts = { λ _. true };

    ghost Denotes = { λ members any. configuration_seen any.0 ≡ members };

    fn from_configuration(
        alloc: Global,
        configuration: &Configuration,
    ) -> Result<Self, FromConfigurationError> {
        Ok(Any(configuration.try_clone(alloc)?))
    }
}

impl ToConfiguration for Any {
    ghost configured = { λ any. configuration_seen any.0 };

    fn to_configuration(&self, alloc: Global) -> Result<Configuration, AllocError> {
        self.0.try_clone(alloc)
    }
}

fn level(rt: &impl Abort, alloc: Global) -> Configuration {
    let mut members = Map::new(alloc);
    serde_json::put(&mut members, alloc, "level", Value::from(5u64)).expect(rt, "memory");
    Configuration::new(members)
}

// What is shown of the extension `any` whose configuration was taken as the type, and made of it.
fn shown(rt: &impl Abort, alloc: Global) -> Result<String, AllocError> {
    let any: Any = level(rt, alloc).to_typed(alloc).expect(rt, "a type");
    let name = owned(rt, alloc, "any");
    let extension = MetadataV3::new_with_serializable_configuration(alloc, name, &any);
    extension.expect(rt, "memory").to_display(alloc)
}

#[test]
fn types_stand_for_configurations(rt: HostRuntime) {
    let alloc = rt.alloc();
    is_text(&rt, shown(&rt, alloc), "any {\"level\":5}");
    assert!(rt; EmptyConfiguration.to_configuration(alloc).is_ok());
}
