//! Fill values as documents write them. What one means depends on the data type.
//!
//! See <https://zarr-specs.readthedocs.io/en/latest/v3/core/index.html#fill-value>.

ghost use Rattle.std.specs.Prelude.{◌≡◌, Some, IfOk, is_some, option_map, option_and_then};
ghost use Rattle.serde_json.specs.Data.{string};
ghost use Rattle.serde_json.specs.Find.{as_null, as_bool, as_number, as_str, as_array, as_object, as_u64, as_i64};
ghost use Rattle.serde_json.specs.Read.{read};
ghost use Rattle.serde_json.specs.View.{view};
ghost use Rattle.zarrs_metadata_values.specs.Configuration.{TypedIf};
ghost use Rattle.zarrs_metadata_values.specs.FillValueMetadata.{fill_view, fills_view, fields_view, byte, bytes_in_items};
ghost use Rattle.zarrs_metadata_values.specs.Reading.{GivesRead, from_data, from_json, each};
ghost use Rattle.zarrs_metadata_values.specs.Writing.{numbers_data};

use crate::configuration::{Configuration, FromConfiguration};
use crate::error::{FromConfigurationError, MetadataError};
use crate::fill_value::tree::{copy_fill, fill_from_value, fill_to_value, members_from_fields};
use crate::reading::{read_value, refuse_floats};
use serde_json::{Number, Value};
use std::alloc::{AllocError, Global};
use std::collections::BTreeMap;

mod from;
pub mod tree;

/// A fill value as a document writes it: any JSON value.
#[derive(Debug, PartialEq, Drop)]
pub enum FillValueMetadataV3 {
    /// `null`.
    Null,
    /// A boolean.
    Bool(bool),
    /// A number.
    Number(Number),
    /// A text.
    String(String),
    /// A list.
    Array(Vec<FillValueMetadataV3>),
    /// An object.
    Object(BTreeMap<String, FillValueMetadataV3>),
}

impl FillValueMetadataV3 {
    /// Whether it is `null`.
    pub fn is_null(&self) -> bool
        ensures { result ≡ is_some (as_null (fill_view self.now)) }
    {
        matches!(self, FillValueMetadataV3::Null)
    }

    /// Whether it is `null`, as an option.
    pub fn as_null(&self) -> Option<()>
        ensures { result ≡ as_null (fill_view self.now) }
    {
        match self {
            FillValueMetadataV3::Null => Some(()),
            _ => None,
        }
    }

    /// The boolean that it is.
    pub fn as_bool(&self) -> Option<bool>
        ensures { result ≡ as_bool (fill_view self.now) }
    {
        match self {
            FillValueMetadataV3::Bool(b) => Some(*b),
            _ => None,
        }
    }

    /// The text that it is.
    pub fn as_str(&self) -> Option<&str>
        ensures { option_map (λ s. s.now) result ≡ as_str (fill_view self.now) }
    {
        match self {
            FillValueMetadataV3::String(text) => Some(text.as_str()),
            _ => None,
        }
    }

    /// The whole number from 0 to 2^64 - 1 that it is.
    pub fn as_u64(&self) -> Option<u64>
        ensures { result ≡ option_and_then as_u64 (as_number (fill_view self.now)) }
    {
        match self {
            FillValueMetadataV3::Number(number) => number.as_u64(),
            _ => None,
        }
    }

    /// The whole number from -2^63 to 2^63 - 1 that it is.
    pub fn as_i64(&self) -> Option<i64>
        ensures { result ≡ option_and_then as_i64 (as_number (fill_view self.now)) }
    {
        match self {
            FillValueMetadataV3::Number(number) => number.as_i64(),
            _ => None,
        }
    }

    /// The items of the list that it is.
    pub fn as_array(&self) -> Option<&[FillValueMetadataV3]>
        ensures { option_map (λ fills. fills_view fills.now) result
            ≡ as_array (fill_view self.now) }
    {
        match self {
            FillValueMetadataV3::Array(fills) => Some(fills.as_slice()),
            _ => None,
        }
    }

    /// The members of the object that it is.
    pub fn as_object(&self) -> Option<&BTreeMap<String, FillValueMetadataV3>>
        ensures { option_map (λ fields. fields_view fields.now.entries) result
            ≡ as_object (fill_view self.now) }
    {
        match self {
            FillValueMetadataV3::Object(fields) => Some(fields),
            _ => None,
        }
    }

    /// The bytes that it lists: [`Some`] exactly for a list of whole numbers from 0 to 255.
    ///
    /// # Errors
    /// [`AllocError`] where memory runs out.
    pub fn as_bytes(&self, alloc: Global) -> Result<Option<Vec<u8>>, AllocError>
        ensures { IfOk result (λ bytes. option_map (λ v. v.items) bytes
            ≡ bytes_in_items (as_array (fill_view self.now))) }
    {
        match self.as_array() {
            Some(fills) => bytes_of(alloc, fills),
            None => Ok(None),
        }
    }

    /// The value of a type that stands for some configurations: [`Some`] exactly for an object that the type accepts.
    ///
    /// # Errors
    /// [`AllocError`] where memory runs out.
    pub fn as_custom<T: FromConfiguration>(&self, alloc: Global) -> Result<Option<T>, AllocError>
        ensures { TypedIf result (as_object (fill_view self.now)) T.accepts T.Denotes }
    {
        match self.as_object() {
            Some(fields) => custom_of(alloc, fields),
            None => Ok(None),
        }
    }

    /// The fill value that is this text.
    ///
    /// # Errors
    /// [`AllocError`] where memory runs out.
    pub fn from_text(alloc: Global, text: &str) -> Result<Self, AllocError>
        ensures { IfOk result (λ fill. fill_view fill ≡ string text.now) }
    {
        Ok(FillValueMetadataV3::String(String::from_str(alloc, text)?))
    }

    /// The fill value that lists these bytes.
    ///
    /// # Errors
    /// [`AllocError`] where memory runs out.
    pub fn from_bytes(alloc: Global, bytes: &[u8]) -> Result<Self, AllocError>
        ensures { IfOk result (λ fill. fill_view fill ≡ numbers_data bytes.now) }
    {
        let mut fills = Vec::with_capacity(alloc, bytes.len())?;
        for byte in bytes {
            fills.push(FillValueMetadataV3::from(*byte))?;
        }
        Ok(FillValueMetadataV3::Array(fills))
    }

    /// The fill value that a value is.
    ///
    /// # Errors
    /// `FloatNumber` exactly where the value holds a float.
    pub fn from_value(alloc: Global, value: &Value) -> Result<Self, MetadataError>
        ensures { GivesRead fill_view result (from_data Some (view value.now)) }
    {
        refuse_floats(value)?;
        Ok(fill_from_value(alloc, value)?)
    }

    /// The value that it is.
    ///
    /// # Errors
    /// [`AllocError`] where memory runs out.
    pub fn to_value(&self, alloc: Global) -> Result<Value, AllocError>
        ensures { IfOk result (λ v. view v ≡ fill_view self.now) }
    {
        fill_to_value(alloc, self)
    }

    /// The fill value that a text is.
    ///
    /// # Errors
    /// `InvalidJson` exactly where the text is not JSON, else `FloatNumber` exactly where its value holds a float.
    pub fn try_from_text(alloc: Global, text: &str) -> Result<Self, MetadataError>
        ensures { GivesRead fill_view result (from_json Some (read text.now)) }
    {
        let value = read_value(alloc, text)?;
        Ok(fill_from_value(alloc, &value)?)
    }

    /// A copy.
    ///
    /// # Errors
    /// [`AllocError`] where memory runs out.
    pub fn try_clone(&self, alloc: Global) -> Result<Self, AllocError>
        ensures { IfOk result (λ copy. fill_view copy ≡ fill_view self.now) }
    {
        copy_fill(alloc, self)
    }
}

// The bytes that these list, where each is a whole number from 0 to 255.
#[tactic(auto, using(crate::proofs::FillBytes::byte_push, crate::proofs::FillBytes::byte_fails))]
fn bytes_of(alloc: Global, fills: &[FillValueMetadataV3]) -> Result<Option<Vec<u8>>, AllocError>
    ensures { IfOk result (λ bytes. option_map (λ v. v.items) bytes
        ≡ each byte (fills_view fills.now)) }
{
    let mut bytes = Vec::with_capacity(alloc, fills.len())?;
    for fill in fills {
        match byte_of(fill) {
            Some(byte) => bytes.push(byte)?,
            None => return Ok(None),
        }
    }
    Ok(Some(bytes))
}

// The whole number from 0 to 255 that it is.
fn byte_of(fill: &FillValueMetadataV3) -> Option<u8>
    ensures { result ≡ byte (fill_view fill.now) }
{
    match fill.as_u64() {
        Some(number) => if number < 256 {
            Some(number as u8)
        } else {
            None
        },
        None => None,
    }
}

// The value that the type has for a configuration with these members.
fn custom_of<T: FromConfiguration>(
    alloc: Global,
    fields: &BTreeMap<String, FillValueMetadataV3>,
) -> Result<Option<T>, AllocError>
    ensures { TypedIf result (Some (fields_view fields.now.entries)) T.accepts T.Denotes }
{
    let configuration = Configuration::new(members_from_fields(alloc, fields)?);
    match T::from_configuration(alloc, &configuration) {
        Ok(custom) => Ok(Some(custom)),
        Err(FromConfigurationError::Mismatch) => Ok(None),
        Err(FromConfigurationError::OutOfMemory) => Err(AllocError),
    }
}
