//! The data types of version 2 arrays.
//!
//! See <https://zarr-specs.readthedocs.io/en/latest/v2/v2.0.html#data-type-encoding>.

ghost use Rattle.std.specs.Prelude.{◌≡◌, IfOk, option_map};
ghost use Rattle.serde_json.specs.Read.{read};
ghost use Rattle.serde_json.specs.View.{view, items_view};
ghost use Rattle.zarrs_metadata_parts.specs.DataTypeV2.{DataTypeV2, FieldV2, data_type_v2_seen, data_type_v2_of, data_type_v2_data, field_v2_seen, field_v2_of, field_v2_data, field_items, named_field, last_shape, optional_numbers};
ghost use Rattle.zarrs_metadata_values.specs.Reading.{Reads, GivesRead, from_data, from_json};

use crate::part::{Part, read_each};
use serde_json::Value;
use std::alloc::{AllocError, Global};
use thiserror::Error;
use zarrs_metadata_values::MetadataError;
use zarrs_metadata_values::json::{read_each_whole_number, read_list, read_text};
use zarrs_metadata_values::reading::{read_value, refuse_floats};
use zarrs_metadata_values::writing::numbers_value;

/// A field of a structured data type.
#[derive(Debug, PartialEq, Drop)]
pub struct DataTypeMetadataV2Structured {
    /// The name of the field.
    pub fieldname: String,
    /// The data type of its elements.
    pub datatype: String,
    /// The shape of an array within the field, if it is one.
    pub shape: Option<Vec<u64>>,
}

/// The data type of a version 2 array.
#[derive(Debug, PartialEq, Drop)]
pub enum DataTypeMetadataV2 {
    /// A type that is written as a text, as `<f8`.
    Simple(String),
    /// A type with fields.
    Structured(Vec<DataTypeMetadataV2Structured>),
}

/// A data type whose byte order cannot be told.
#[derive(Clone, Copy, Debug, PartialEq, Eq, Error)]
#[error("the data type does not begin with `|`, `<` or `>`")]
pub struct DataTypeMetadataV2EndiannessError;

impl DataTypeMetadataV2 {
    /// The data type that a value says: a text, or a list of fields. A field is a list of two texts, and optionally
    /// null or a list of whole numbers.
    ///
    /// # Errors
    /// `FloatNumber` exactly where the value holds a float, else `InvalidMetadata` exactly where it is neither.
    pub fn from_value(alloc: Global, value: &Value) -> Result<Self, MetadataError>
        ensures { GivesRead data_type_v2_seen result (from_data data_type_v2_of (view value.now)) }
    {
        refuse_floats(value)?;
        read_data_type_v2(alloc, value)
    }

    /// The text, or the list of the fields; a field has its shape where it is an array.
    ///
    /// # Errors
    /// [`AllocError`] where memory runs out.
    pub fn to_value(&self, alloc: Global) -> Result<Value, AllocError>
        ensures { IfOk result (λ v. view v ≡ data_type_v2_data (data_type_v2_seen self.now)) }
    {
        match self {
            DataTypeMetadataV2::Simple(text) => Value::try_from_str(alloc, text.as_str()),
            DataTypeMetadataV2::Structured(fields) => fields.write(alloc),
        }
    }

    /// The data type that a text says, as [`DataTypeMetadataV2::from_value`].
    ///
    /// # Errors
    /// `InvalidJson` exactly where the text is not JSON, else as for the value.
    pub fn try_from_text(alloc: Global, text: &str) -> Result<Self, MetadataError>
        ensures { GivesRead data_type_v2_seen result (from_json data_type_v2_of (read text.now)) }
    {
        let value = read_value(alloc, text)?;
        read_data_type_v2(alloc, &value)
    }

    /// A copy.
    ///
    /// # Errors
    /// [`AllocError`] where memory runs out.
    pub fn try_clone(&self, alloc: Global) -> Result<Self, AllocError>
        ensures { IfOk result (λ copy. data_type_v2_seen copy ≡ data_type_v2_seen self.now) }
    {
        match self {
            DataTypeMetadataV2::Simple(text) => Ok(DataTypeMetadataV2::Simple(String::from_str(
                alloc,
                text.as_str(),
            )?)),
            DataTypeMetadataV2::Structured(fields) => {
                Ok(DataTypeMetadataV2::Structured(fields.copy(alloc)?))
            }
        }
    }
}

// The data type that a value says. Floats were looked for before.
#[tactic(auto, unfolding(crate::specs::DataTypeV2::data_type_v2_of))]
fn read_data_type_v2(alloc: Global, value: &Value) -> Result<DataTypeMetadataV2, MetadataError>
    ensures { Reads data_type_v2_seen result (data_type_v2_of (view value.now)) }
{
    match value {
        Value::String(text) => Ok(DataTypeMetadataV2::Simple(text.clone()?)),
        Value::Array(items) => Ok(DataTypeMetadataV2::Structured(read_each(
            alloc,
            items.as_slice(),
        )?)),
        _ => Err(MetadataError::InvalidMetadata),
    }
}

fn read_field_items(
    alloc: Global,
    items: &[Value],
) -> Result<DataTypeMetadataV2Structured, MetadataError>
    ensures { Reads field_v2_seen result (field_items (items_view items.now)) }
{
    match items {
        [] => Err(MetadataError::InvalidMetadata),
        [_only] => Err(MetadataError::InvalidMetadata),
        [first, second, rest @ ..] => read_named_field(alloc, first, second, rest),
    }
}

#[tactic(auto, unfolding(crate::specs::DataTypeV2::named_field))]
fn read_named_field(
    alloc: Global,
    first: &Value,
    second: &Value,
    rest: &[Value],
) -> Result<DataTypeMetadataV2Structured, MetadataError>
    ensures { Reads field_v2_seen result
        (named_field (view first.now) (view second.now) (items_view rest.now)) }
{
    let fieldname = read_text(first)?;
    let datatype = read_text(second)?;
    let shape = read_last_shape(alloc, rest)?;
    let fieldname = String::from_str(alloc, fieldname)?;
    let datatype = String::from_str(alloc, datatype)?;
    Ok(DataTypeMetadataV2Structured {
        fieldname,
        datatype,
        shape,
    })
}

fn read_last_shape(alloc: Global, rest: &[Value]) -> Result<Option<Vec<u64>>, MetadataError>
    ensures { Reads (option_map (λ v. v.items)) result (last_shape (items_view rest.now)) }
{
    match rest {
        [] => Ok(None),
        [shape] => read_optional_numbers(alloc, shape),
        [_shape, _second, _more @ ..] => Err(MetadataError::InvalidMetadata),
    }
}

fn read_optional_numbers(alloc: Global, value: &Value) -> Result<Option<Vec<u64>>, MetadataError>
    ensures { Reads (option_map (λ v. v.items)) result (optional_numbers (view value.now)) }
{
    match value {
        Value::Null => Ok(None),
        Value::Array(items) => Ok(Some(read_each_whole_number(alloc, items.as_slice())?)),
        _ => Err(MetadataError::InvalidMetadata),
    }
}

fn copy_shape(alloc: Global, shape: &Option<Vec<u64>>) -> Result<Option<Vec<u64>>, AllocError>
    ensures { IfOk result (λ copy. option_map (λ v. v.items) copy
        ≡ option_map (λ v. v.items) shape.now) }
{
    match shape {
        Some(shape) => Ok(Some(shape.as_slice().to_vec(alloc)?)),
        None => Ok(None),
    }
}

impl Part for DataTypeMetadataV2 {
    ghost Said = { DataTypeV2 };

    ghost seen = { data_type_v2_seen };

    ghost form = { data_type_v2_of };

    ghost written = { data_type_v2_data };

    fn read(alloc: Global, value: &Value) -> Result<Self, MetadataError> {
        read_data_type_v2(alloc, value)
    }

    fn write(&self, alloc: Global) -> Result<Value, AllocError> {
        self.to_value(alloc)
    }

    fn copy(&self, alloc: Global) -> Result<Self, AllocError> {
        self.try_clone(alloc)
    }
}

impl Part for DataTypeMetadataV2Structured {
    ghost Said = { FieldV2 };

    ghost seen = { field_v2_seen };

    ghost form = { field_v2_of };

    ghost written = { field_v2_data };

    #[tactic(auto, unfolding(crate::specs::DataTypeV2::field_v2_of))]
    fn read(alloc: Global, value: &Value) -> Result<Self, MetadataError> {
        read_field_items(alloc, read_list(value)?)
    }

    fn write(&self, alloc: Global) -> Result<Value, AllocError> {
        let mut items = Vec::with_capacity(alloc, 3)?;
        items.push(self.fieldname.write(alloc)?)?;
        items.push(self.datatype.write(alloc)?)?;
        if let Some(shape) = &self.shape {
            items.push(numbers_value(alloc, shape.as_slice())?)?;
        }
        Ok(Value::Array(items))
    }

    fn copy(&self, alloc: Global) -> Result<Self, AllocError> {
        Ok(DataTypeMetadataV2Structured {
            fieldname: self.fieldname.copy(alloc)?,
            datatype: self.datatype.copy(alloc)?,
            shape: copy_shape(alloc, &self.shape)?,
        })
    }
}
