//! Texts and values without floats.

ghost use Rattle.std.specs.Prelude.{Some, IfOk};
ghost use Rattle.serde_json.specs.Read.{read};
ghost use Rattle.serde_json.specs.View.{view};
ghost use Rattle.zarrs_metadata_values.specs.Reading.{GivesRead, from_data, from_json};
ghost use Rattle.zarrs_metadata_values.specs.Rising.{Rises};

use crate::error::MetadataError;
use crate::floats::holds_float;
use serde_json::Value;
use std::alloc::Global;

/// Refuses a value that holds a float. In one that it lets pass the keys of each object rise, as those of each
/// [`Value`].
///
/// # Errors
/// `FloatNumber` exactly where the value holds a float.
pub fn refuse_floats(value: &Value) -> Result<(), MetadataError>
    ensures gives { GivesRead (λ _. view value.now) result (from_data Some (view value.now)) }
    ensures rises { IfOk result (λ _. Rises (view value.now)) }
{
    if holds_float(value) {
        return Err(MetadataError::FloatNumber);
    }
    Ok(())
}

/// The value of a text that is JSON without floats. The keys of each object in it rise.
///
/// # Errors
/// `InvalidJson` exactly where the text is not JSON, else `FloatNumber` exactly where its value holds a float.
pub fn read_value(alloc: Global, text: &str) -> Result<Value, MetadataError>
    ensures gives { GivesRead view result (from_json Some (read text.now)) }
    ensures rises { IfOk result (λ v. Rises (view v)) }
{
    match Value::from_str(alloc, text) {
        Ok(value) => {
            refuse_floats(&value)?;
            Ok(value)
        }
        Err(e) => {
            if e.is_memory() {
                return Err(MetadataError::OutOfMemory);
            }
            Err(MetadataError::InvalidJson)
        }
    }
}
