//! The names and the configurations that codecs are written with.

ghost use Rattle.std.specs.Prelude.{◌≡◌, IfOk, codes, Some, true};
ghost use Rattle.serde_json.specs.Data.{member, no_members};
ghost use Rattle.serde_json.specs.View.{view};
ghost use Rattle.zarrs_metadata_values.specs.Configuration.{configuration_seen};
ghost use Rattle.zarrs_metadata_parts.specs.MetadataV3.{configured};
ghost use Rattle.zarr_codecs.specs.Plain.{plain_optional, name_by, members_by};
ghost use Rattle.zarr_codecs.specs.Views.{plain_of};

use crate::codecs::BasicArrayToBytes;
use serde_json::{Map, Value};
use std::alloc::{AllocError, Global};
use zarr_codecs_to_bytes::configuration::order_configuration;
use zarrs_metadata_parts::{Configuration, MetadataV3};

/// The name of a codec.
pub fn name_by(codec: &BasicArrayToBytes) -> &'static str
    ensures { result.now ≡ name_by (plain_of codec.now) }
{
    match codec {
        BasicArrayToBytes::Bytes(_) => "bytes",
        BasicArrayToBytes::Vlen(codec) => {
            if codec.is_text() {
                "vlen-utf8"
            } else {
                "vlen-bytes"
            }
        }
        BasicArrayToBytes::Optional(_) => "zarr_basics.optional",
    }
}

// A codec as its name with a configuration.
fn named(alloc: Global, name: &str, configuration: Configuration) -> Result<Value, AllocError>
    ensures { IfOk result (λ v. view v
        ≡ configured name.now (Some (configuration_seen configuration)) true) }
{
    let name = String::from_str(alloc, name)?;
    let metadata = MetadataV3::new_with_configuration(name, configuration);
    metadata.to_value(alloc)
}

// The configuration with the only member `inner`.
fn with_inner(alloc: Global, value: Value) -> Result<Configuration, AllocError>
    ensures { IfOk result (λ c. configuration_seen c
        ≡ member (codes "inner") (view value) no_members) }
{
    let mut members = Map::new(alloc);
    serde_json::put(&mut members, alloc, "inner", value)?;
    Ok(Configuration::new(members))
}

/// The configuration of a codec, from which it is read again.
///
/// # Errors
/// [`AllocError`] where memory runs out.
#[cycle(configuring)]
pub fn configuration_by(
    alloc: Global,
    codec: &BasicArrayToBytes,
) -> Result<Configuration, AllocError>
    ensures { IfOk result (λ c. configuration_seen c ≡ members_by (plain_of codec.now)) }
{
    match codec {
        BasicArrayToBytes::Bytes(codec) => order_configuration(alloc, codec.endianness()),
        BasicArrayToBytes::Vlen(_) => Ok(Configuration::new(Map::new(alloc))),
        BasicArrayToBytes::Optional(codec) => optional_configuration(alloc, &codec.inner),
    }
}

/// The same of the codec of optional elements over an inner codec: the inner one by its name and configuration.
///
/// # Errors
/// [`AllocError`] where memory runs out.
#[cycle(configuring)]
pub fn optional_configuration(
    alloc: Global,
    inner: &BasicArrayToBytes,
) -> Result<Configuration, AllocError>
    ensures { IfOk result (λ c. configuration_seen c
        ≡ members_by (plain_optional (plain_of inner.now))) }
{
    let configuration = configuration_by(alloc, inner)?;
    let inner = named(alloc, name_by(inner), configuration)?;
    with_inner(alloc, inner)
}
