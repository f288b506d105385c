//! Version 2 array documents.
//!
//! See <https://zarr-specs.readthedocs.io/en/latest/v2/v2.0.html#arrays>.

ghost use Rattle.std.specs.Prelude.{◌≡◌, IfOk, map, option_map};
ghost use Rattle.std.specs.Int.NonZero.{non_zero_u64_get};
ghost use Rattle.serde_json.specs.Data.{no_members};
ghost use Rattle.serde_json.specs.Read.{read};
ghost use Rattle.serde_json.specs.View.{view, members_view};
ghost use Rattle.zarrs_metadata_values.specs.Writing.{IsTextOf};
ghost use Rattle.zarrs_metadata_values.specs.Reading.{GivesRead, from_data, from_json};
ghost use Rattle.zarrs_metadata_values.specs.FillValueMetadata.{fill_view};
ghost use Rattle.zarrs_metadata_parts.specs.MetadataV2.{codec_v2_seen};
ghost use Rattle.zarrs_metadata_parts.specs.DataTypeV2.{data_type_v2_seen};
ghost use Rattle.zarrs_metadata_parts.specs.declared.array.chunk_key_separator.ChunkKeySeparator.TheVariants.{Dot};
ghost use Rattle.zarrs_metadata_v2.specs.CodecsV2.{codecs_v2_seen, present_filters};
ghost use Rattle.zarrs_metadata_v2.specs.ArrayMetadataV2.{array_v2_seen, array_v2_of, array_v2_data, normal_array_v2};
ghost use Rattle.zarrs_metadata_v2.specs.declared.array.order.ArrayMetadataV2Order.TheVariants.{C};

use crate::array::copying::copy_array;
use crate::array::order::ArrayMetadataV2Order;
use crate::array::reading::read_array_v2;
use crate::array::writing::array_to_value;
use crate::codecs::present_filters;
use serde_json::{Map, Value};
use std::alloc::{AllocError, Global};
use zarrs_metadata_parts::{
    ArrayShape, ChunkKeySeparator, ChunkShape, DataTypeMetadataV2, FillValueMetadataV2, MetadataV2,
};
use zarrs_metadata_values::MetadataError;
use zarrs_metadata_values::reading::{read_value, refuse_floats};

mod copying;
mod optional_parts;
pub mod order;
pub mod reading;
mod writing;

/// A version 2 array document.
#[derive(Debug, PartialEq, Drop)]
pub struct ArrayMetadataV2 {
    /// The length of each dimension.
    pub shape: ArrayShape,
    /// The length of each dimension of a chunk.
    pub chunks: ChunkShape,
    /// The data type of the elements.
    pub dtype: DataTypeMetadataV2,
    /// The codec that compresses a chunk, if there is one.
    pub compressor: Option<MetadataV2>,
    /// The value of each element that is not stored.
    pub fill_value: FillValueMetadataV2,
    /// How the elements of a chunk lie in it.
    pub order: ArrayMetadataV2Order,
    /// The codecs that a chunk passes through before it is compressed.
    pub filters: Option<Vec<MetadataV2>>,
    /// What stands between the indices of a chunk's key.
    pub dimension_separator: ChunkKeySeparator,
    /// What users say about the array.
    pub attributes: Map<String, Value>,
}

impl ArrayMetadataV2 {
    /// The document with these parts, in row-major order, with a dot as separator and without attributes. An empty list
    /// of filters is none.
    pub fn new(
        alloc: Global,
        shape: ArrayShape,
        chunks: ChunkShape,
        dtype: DataTypeMetadataV2,
        fill_value: FillValueMetadataV2,
        compressor: Option<MetadataV2>,
        filters: Option<Vec<MetadataV2>>,
    ) -> Self
        ensures { array_v2_seen result ≡ record {
          shape = shape.items;
          chunks = map non_zero_u64_get chunks.items;
          dtype = data_type_v2_seen dtype;
          compressor = option_map codec_v2_seen compressor;
          fill_value = fill_view fill_value;
          order = C;
          filters = present_filters (option_map (λ v. codecs_v2_seen v.items) filters);
          dimension_separator = Dot;
          attributes = no_members;
        } }
    {
        let filters = present_filters(filters);
        ArrayMetadataV2 {
            shape,
            chunks,
            dtype,
            compressor,
            fill_value,
            order: ArrayMetadataV2Order::C,
            filters,
            dimension_separator: ChunkKeySeparator::Dot,
            attributes: Map::new(alloc),
        }
    }

    /// The same document with this separator.
    pub fn with_dimension_separator(self, dimension_separator: ChunkKeySeparator) -> Self
        ensures { array_v2_seen result ≡ record (array_v2_seen self) {
          dimension_separator = dimension_separator;
        } }
    {
        ArrayMetadataV2 {
            dimension_separator,
            ..self
        }
    }

    /// The same document with this order.
    pub fn with_order(self, order: ArrayMetadataV2Order) -> Self
        ensures { array_v2_seen result ≡ record (array_v2_seen self) { order = order } }
    {
        ArrayMetadataV2 { order, ..self }
    }

    /// The same document with these attributes.
    pub fn with_attributes(self, attributes: Map<String, Value>) -> Self
        ensures { array_v2_seen result ≡ record (array_v2_seen self) {
          attributes = members_view attributes.entries;
        } }
    {
        ArrayMetadataV2 { attributes, ..self }
    }

    /// The document that a value is. It is the same when it is written and read again.
    ///
    /// # Errors
    /// `FloatNumber` exactly where the value holds a float, attributes included, else `InvalidMetadata` exactly where
    /// it is no version 2 array document.
    #[tactic(auto, using(crate::proofs::Stays::read_array_stays))]
    pub fn from_value(alloc: Global, value: &Value) -> Result<Self, MetadataError>
        ensures gives { GivesRead array_v2_seen result (from_data array_v2_of (view value.now)) }
        ensures stays { IfOk result
            (λ a. normal_array_v2 (array_v2_seen a) ≡ array_v2_seen a) }
    {
        refuse_floats(value)?;
        read_array_v2(alloc, value)
    }

    /// The value that is the document: with `attributes` only where they are not empty, and with null for no compressor
    /// and for no filters.
    ///
    /// # Errors
    /// [`AllocError`] where memory runs out.
    pub fn to_value(&self, alloc: Global) -> Result<Value, AllocError>
        ensures { IfOk result (λ v. view v ≡ array_v2_data (array_v2_seen self.now)) }
    {
        array_to_value(alloc, self)
    }

    /// The document that a text is, as [`ArrayMetadataV2::from_value`].
    ///
    /// # Errors
    /// `InvalidJson` exactly where the text is not JSON, else as for the value.
    #[tactic(auto, using(crate::proofs::Stays::read_array_stays))]
    pub fn try_from_text(alloc: Global, text: &str) -> Result<Self, MetadataError>
        ensures gives { GivesRead array_v2_seen result (from_json array_v2_of (read text.now)) }
        ensures stays { IfOk result
            (λ a. normal_array_v2 (array_v2_seen a) ≡ array_v2_seen a) }
    {
        let value = read_value(alloc, text)?;
        read_array_v2(alloc, &value)
    }

    /// The document as text, a line for each member.
    ///
    /// # Errors
    /// [`AllocError`] where memory runs out.
    pub fn to_string_pretty(&self, alloc: Global) -> Result<String, AllocError>
        ensures { IfOk result (IsTextOf (array_v2_data (array_v2_seen self.now))) }
    {
        let value = self.to_value(alloc)?;
        let text = value.to_string_pretty(alloc)?;
        Ok(text)
    }

    /// A copy.
    ///
    /// # Errors
    /// [`AllocError`] where memory runs out.
    pub fn try_clone(&self, alloc: Global) -> Result<Self, AllocError>
        ensures { IfOk result (λ copy. array_v2_seen copy ≡ array_v2_seen self.now) }
    {
        copy_array(alloc, self)
    }
}
