//! The configurations of codecs, read and written.

ghost use Rattle.std.specs.Prelude.{◌≡◌, IfOk, IfErr, option_map};
ghost use Rattle.serde_json.specs.View.{view};
ghost use Rattle.zarrs_metadata_values.specs.Configuration.{configuration_seen};
ghost use Rattle.zarrs_metadata_values.specs.Reading.{Reads};
ghost use Rattle.zarrs_metadata_values.specs.declared.error.MetadataError.TheVariants as fault;
ghost use Rattle.zarr_codecs_to_bytes.specs.BytesCodec.{order_named, order_or_null, given_order, byte_order_in, byte_order_text, byte_order_members};

use serde_json::{Map, Value};
use std::alloc::{AllocError, Global};
use zarr_model::Endianness;
use zarrs_metadata_parts::{Configuration, MetadataError};
use zarrs_metadata_values::configuration::{is_empty, only_member};

fn order_text(order: Endianness) -> &'static str
    ensures { result.now ≡ byte_order_text order }
{
    match order {
        Endianness::Little => "little",
        Endianness::Big => "big",
    }
}

/// The configuration that names a byte order, if there is one.
///
/// # Errors
/// [`AllocError`] where memory runs out.
pub fn order_configuration(
    alloc: Global,
    endianness: Option<Endianness>,
) -> Result<Configuration, AllocError>
    ensures { IfOk result (λ c. configuration_seen c ≡ byte_order_members endianness) }
{
    let mut members = Map::new(alloc);
    if let Some(order) = endianness {
        let value = Value::try_from_str(alloc, order_text(order))?;
        serde_json::put(&mut members, alloc, "endian", value)?;
    }
    Ok(Configuration::new(members))
}

fn order_named(text: &str) -> Result<Option<Endianness>, MetadataError>
    ensures value { Reads (λ order. order) result (order_named text.now) }
    ensures form { IfErr result (λ e. e ≡ fault.InvalidMetadata) }
{
    match text {
        "little" => Ok(Some(Endianness::Little)),
        "big" => Ok(Some(Endianness::Big)),
        _ => Err(MetadataError::InvalidMetadata),
    }
}

fn order_or_null(value: &Value) -> Result<Option<Endianness>, MetadataError>
    ensures value { Reads (λ order. order) result (order_or_null (view value.now)) }
    ensures form { IfErr result (λ e. e ≡ fault.InvalidMetadata) }
{
    match value {
        Value::Null => Ok(None),
        Value::String(text) => order_named(text.as_str()),
        _ => Err(MetadataError::InvalidMetadata),
    }
}

#[tactic(auto, unfolding(crate::specs::BytesCodec::given_order))]
fn given_order(configuration: &Configuration) -> Result<Option<Endianness>, MetadataError>
    ensures value { Reads (λ order. order) result
        (given_order (configuration_seen configuration.now)) }
    ensures form { IfErr result (λ e. e ≡ fault.InvalidMetadata) }
{
    order_or_null(only_member(configuration, "endian")?)
}

/// The byte order that the configuration names, if it names one.
///
/// # Errors
/// `InvalidMetadata` exactly where there is a configuration, and it is neither empty nor exactly an `endian` that is
/// `little`, `big` or null.
pub fn read_order(
    configuration: Option<&Configuration>,
) -> Result<Option<Endianness>, MetadataError>
    ensures value { Reads (λ order. order) result
        (byte_order_in (option_map (λ c. configuration_seen c.now) configuration.entry)) }
    ensures form { IfErr result (λ e. e ≡ fault.InvalidMetadata) }
{
    let Some(configuration) = configuration else {
        return Ok(None);
    };
    if is_empty(configuration.as_map()) {
        Ok(None)
    } else {
        given_order(configuration)
    }
}
