//! Version 3 array documents.
//!
//! See <https://zarr-specs.readthedocs.io/en/latest/v3/core/index.html#array-metadata>.

ghost use Rattle.std.specs.Prelude.{◌≡◌, None, [], IfOk, option_map};
ghost use Rattle.serde_json.specs.Data.{no_members};
ghost use Rattle.serde_json.specs.Read.{read};
ghost use Rattle.serde_json.specs.View.{view, members_view};
ghost use Rattle.zarrs_metadata_values.specs.Writing.{IsTextOf};
ghost use Rattle.zarrs_metadata_values.specs.Reading.{GivesRead, from_data, from_json};
ghost use Rattle.zarrs_metadata_parts.specs.MetadataV3.{extension_seen, extensions_seen};
ghost use Rattle.zarrs_metadata_parts.specs.DimensionNames.{dimension_names_seen};
ghost use Rattle.zarrs_metadata_values.specs.FillValueMetadata.{fill_view};
ghost use Rattle.zarrs_metadata_parts.specs.AdditionalFields.{additional_fields_seen};
ghost use Rattle.zarrs_metadata.specs.ArrayMetadata.{array_seen, array_fields_of, array_data, default_keys, KeepsFields};

use crate::v3::copying::copy_array;
use crate::v3::reading::read_array;
use crate::v3::writing::array_to_value;
use serde_json::{Map, Value};
use std::alloc::{AllocError, Global};
use std::collections::BTreeMap;
use zarrs_metadata_parts::reading::{read_value, refuse_floats};
use zarrs_metadata_parts::{
    AdditionalFieldsV3, ArrayShape, Configuration, DimensionName, FillValueMetadataV3,
    MetadataError, MetadataV3,
};

/// A version 3 array document.
#[derive(Debug, PartialEq, Drop)]
pub struct ArrayMetadataV3 {
    /// The length of each dimension.
    pub shape: ArrayShape,
    /// The data type of the elements.
    pub data_type: MetadataV3,
    /// How the array is parted into chunks.
    pub chunk_grid: MetadataV3,
    /// Under which key a chunk is stored.
    pub chunk_key_encoding: MetadataV3,
    /// The value of each element that is not stored.
    pub fill_value: FillValueMetadataV3,
    /// How a chunk is encoded.
    pub codecs: Vec<MetadataV3>,
    /// What users say about the array.
    pub attributes: Map<String, Value>,
    /// What stands between the array and its store.
    pub storage_transformers: Vec<MetadataV3>,
    /// The names of the dimensions, as many as the document lists.
    pub dimension_names: Option<Vec<DimensionName>>,
    /// All other fields of the document.
    pub additional_fields: AdditionalFieldsV3,
}

impl ArrayMetadataV3 {
    /// The document with these parts, and `default` chunk keys with the separator `/`. It has no attributes, no storage
    /// transformers, no dimension names and no additional fields.
    ///
    /// # Errors
    /// [`AllocError`] where memory runs out.
    pub fn new(
        alloc: Global,
        shape: ArrayShape,
        chunk_grid: MetadataV3,
        data_type: MetadataV3,
        fill_value: FillValueMetadataV3,
        codecs: Vec<MetadataV3>,
    ) -> Result<Self, AllocError>
        ensures { IfOk result (λ a. array_seen a ≡ record {
          shape = shape.items;
          data_type = extension_seen data_type;
          chunk_grid = extension_seen chunk_grid;
          chunk_key_encoding = default_keys;
          fill_value = fill_view fill_value;
          codecs = extensions_seen codecs.items;
          attributes = no_members;
          storage_transformers = [];
          dimension_names = None;
          additional_fields = [];
        }) }
    {
        let chunk_key_encoding = default_keys(alloc)?;
        Ok(ArrayMetadataV3 {
            shape,
            data_type,
            chunk_grid,
            chunk_key_encoding,
            fill_value,
            codecs,
            attributes: Map::new(alloc),
            storage_transformers: Vec::new(alloc),
            dimension_names: None,
            additional_fields: BTreeMap::new(alloc),
        })
    }

    /// The same document with these attributes.
    pub fn with_attributes(self, attributes: Map<String, Value>) -> Self
        ensures { array_seen result ≡ record (array_seen self) {
          attributes = members_view attributes.entries;
        } }
    {
        ArrayMetadataV3 { attributes, ..self }
    }

    /// The same document with these additional fields. One under a key that the document names is not written.
    pub fn with_additional_fields(self, additional_fields: AdditionalFieldsV3) -> Self
        ensures { array_seen result ≡ record (array_seen self) {
          additional_fields = additional_fields_seen additional_fields.entries;
        } }
    {
        ArrayMetadataV3 {
            additional_fields,
            ..self
        }
    }

    /// The same document with this chunk key encoding.
    pub fn with_chunk_key_encoding(self, chunk_key_encoding: MetadataV3) -> Self
        ensures { array_seen result ≡ record (array_seen self) {
          chunk_key_encoding = extension_seen chunk_key_encoding;
        } }
    {
        ArrayMetadataV3 {
            chunk_key_encoding,
            ..self
        }
    }

    /// The same document with these dimension names.
    pub fn with_dimension_names(self, dimension_names: Option<Vec<DimensionName>>) -> Self
        ensures { array_seen result ≡ record (array_seen self) {
          dimension_names = option_map (λ v. dimension_names_seen v.items) dimension_names;
        } }
    {
        ArrayMetadataV3 {
            dimension_names,
            ..self
        }
    }

    /// The same document with these storage transformers.
    pub fn with_storage_transformers(self, storage_transformers: Vec<MetadataV3>) -> Self
        ensures { array_seen result ≡ record (array_seen self) {
          storage_transformers = extensions_seen storage_transformers.items;
        } }
    {
        ArrayMetadataV3 {
            storage_transformers,
            ..self
        }
    }

    /// The document that a value is. Its additional fields stay as they are when it is written and read again.
    ///
    /// # Errors
    /// `FloatNumber` exactly where the value holds a float, attributes included, else `InvalidMetadata` exactly where
    /// it is no version 3 array document.
    #[tactic(auto, using(crate::proofs::ReadFields::read_array_kept))]
    pub fn from_value(alloc: Global, value: &Value) -> Result<Self, MetadataError>
        ensures gives { GivesRead array_seen result (from_data array_fields_of (view value.now)) }
        ensures kept { IfOk result (λ a. KeepsFields (array_seen a)) }
    {
        refuse_floats(value)?;
        read_array(alloc, value)
    }

    /// The value that is the document: with `attributes` and `storage_transformers` only where they are not empty, with
    /// `dimension_names` only where there are some, and with each additional field under its key.
    ///
    /// # Errors
    /// [`AllocError`] where memory runs out.
    pub fn to_value(&self, alloc: Global) -> Result<Value, AllocError>
        ensures { IfOk result (λ v. view v ≡ array_data (array_seen self.now)) }
    {
        array_to_value(alloc, self)
    }

    /// The document that a text is, as [`ArrayMetadataV3::from_value`].
    ///
    /// # Errors
    /// `InvalidJson` exactly where the text is not JSON, else as for the value.
    #[tactic(auto, using(crate::proofs::ReadFields::read_array_kept))]
    pub fn try_from_text(alloc: Global, text: &str) -> Result<Self, MetadataError>
        ensures gives { GivesRead array_seen result (from_json array_fields_of (read text.now)) }
        ensures kept { IfOk result (λ a. KeepsFields (array_seen a)) }
    {
        let value = read_value(alloc, text)?;
        read_array(alloc, &value)
    }

    /// The document as text, a line for each member.
    ///
    /// # Errors
    /// [`AllocError`] where memory runs out.
    pub fn to_string_pretty(&self, alloc: Global) -> Result<String, AllocError>
        ensures { IfOk result (IsTextOf (array_data (array_seen self.now))) }
    {
        let value = self.to_value(alloc)?;
        let text = value.to_string_pretty(alloc)?;
        Ok(text)
    }

    /// A copy.
    ///
    /// # Errors
    /// [`AllocError`] where memory runs out.
    pub fn try_clone(&self, alloc: Global) -> Result<Self, AllocError>
        ensures { IfOk result (λ copy. array_seen copy ≡ array_seen self.now) }
    {
        copy_array(alloc, self)
    }
}

// `default` chunk keys with the separator `/`.
fn default_keys(alloc: Global) -> Result<MetadataV3, AllocError>
    ensures { IfOk result (λ m. extension_seen m ≡ default_keys) }
{
    let name = String::from_str(alloc, "default")?;
    let mut members = Map::new(alloc);
    let separator = Value::try_from_str(alloc, "/")?;
    serde_json::put(&mut members, alloc, "separator", separator)?;
    Ok(MetadataV3::new_with_configuration(name, Configuration::new(members)))
}
