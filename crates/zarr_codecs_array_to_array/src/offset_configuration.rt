//! The configuration of the codec `zarr_basics.offset`, read and written.

ghost use Rattle.std.specs.Prelude.{◌≡◌, IfOk, IfErr, option_map};
ghost use Rattle.serde_json.specs.View.{view};
ghost use Rattle.zarrs_metadata_values.specs.Configuration.{configuration_seen};
ghost use Rattle.zarrs_metadata_values.specs.Reading.{Reads};
ghost use Rattle.zarrs_metadata_values.specs.declared.error.MetadataError.TheVariants as fault;
ghost use Rattle.zarr_codecs_array_to_array.specs.Offset.{integer_in, whole_offset, offset_in, offset_members};

use serde_json::{Map, Value};
use std::alloc::{AllocError, Global};
use zarrs_metadata_parts::{Configuration, MetadataError};
use zarrs_metadata_values::configuration::only_member;

/// A whole number that JSON has.
#[derive(Clone, Copy, Debug)]
pub enum Integer {
    /// One from 0 on.
    Unsigned(u64),
    /// One below 2^63.
    Signed(i64),
}

/// The configuration that names an offset.
///
/// # Errors
/// [`AllocError`] where memory runs out.
pub fn offset_configuration(alloc: Global, offset: Integer) -> Result<Configuration, AllocError>
    ensures { IfOk result (λ c. configuration_seen c ≡ offset_members (integer_in offset)) }
{
    let mut members = Map::new(alloc);
    let value = match offset {
        Integer::Unsigned(number) => Value::from(number),
        Integer::Signed(number) => Value::from(number),
    };
    serde_json::put(&mut members, alloc, "offset", value)?;
    Ok(Configuration::new(members))
}

fn read_whole(value: &Value) -> Result<Integer, MetadataError>
    ensures value { Reads integer_in result (whole_offset (view value.now)) }
    ensures form { IfErr result (λ e. e ≡ fault.InvalidMetadata) }
{
    if let Some(number) = value.as_u64() {
        return Ok(Integer::Unsigned(number));
    }
    match value.as_i64() {
        Some(number) => Ok(Integer::Signed(number)),
        None => Err(MetadataError::InvalidMetadata),
    }
}

/// The offset that the configuration names.
///
/// # Errors
/// `InvalidMetadata` exactly where the configuration is not exactly an `offset` that is a whole number of JSON.
#[tactic(auto, unfolding(crate::specs::Offset::offset_in))]
pub fn read_offset(configuration: Option<&Configuration>) -> Result<Integer, MetadataError>
    ensures value { Reads integer_in result
        (offset_in (option_map (λ c. configuration_seen c.now) configuration.entry)) }
    ensures form { IfErr result (λ e. e ≡ fault.InvalidMetadata) }
{
    match configuration {
        Some(configuration) => read_whole(only_member(configuration, "offset")?),
        None => Err(MetadataError::InvalidMetadata),
    }
}
