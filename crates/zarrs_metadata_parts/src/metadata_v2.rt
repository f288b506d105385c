//! The metadata of version 2 codecs.
//!
//! See <https://zarr-specs.readthedocs.io/en/latest/v2/v2.0.html#metadata>.

ghost use Rattle.std.specs.Prelude.{◌≡◌, None, IfOk, codes, string_bytes};
ghost use Rattle.serde_json.specs.Find.{get_member};
ghost use Rattle.serde_json.specs.Read.{read};
ghost use Rattle.serde_json.specs.View.{view, members_view};
ghost use Rattle.zarrs_metadata_values.specs.Configuration.{configuration_seen, Typed};
ghost use Rattle.zarrs_metadata_parts.specs.MetadataV2.{CodecV2, codec_v2_seen, codec_v2_of, codec_v2_members, codec_v2_data};
ghost use Rattle.zarrs_metadata_values.specs.Reading.{Reads, GivesRead, from_data, from_json};

use crate::part::Part;
use serde_json::{Map, Value};
use std::alloc::{AllocError, Global};
use zarrs_metadata_values::json::{copy_members, read_object, read_text, required, take_member};
use zarrs_metadata_values::reading::{read_value, refuse_floats};
use zarrs_metadata_values::{
    Configuration, FromConfiguration, FromConfigurationError, MetadataError,
};

/// A codec of a version 2 array: an id, and a configuration whose members stand beside the id.
#[derive(Debug, PartialEq, Drop)]
pub struct MetadataV2 {
    id: String,
    configuration: Configuration,
}

impl MetadataV2 {
    /// The codec of that id and configuration.
    pub fn new(id: String, configuration: Configuration) -> Self
        ensures { codec_v2_seen result ≡ record {
          id = string_bytes id;
          configuration = configuration_seen configuration;
        } }
    {
        MetadataV2 { id, configuration }
    }

    /// The id.
    pub fn id(&self) -> &str
        ensures { result.now ≡ (codec_v2_seen self.now).id }
    {
        self.id.as_str()
    }

    /// Gives it another id.
    pub fn set_id(&mut self, id: String) -> &mut Self
        ensures same { result.ghost_name ≡ self.entry.ghost_name }
        ensures value { result.now ≡ record self.old { id = id } }
    {
        self.id = id;
        self
    }

    /// The configuration: all members but the id.
    pub fn configuration(&self) -> &Configuration
        ensures { configuration_seen result.now ≡ (codec_v2_seen self.now).configuration }
    {
        &self.configuration
    }

    /// The configuration as a type that stands for some configurations.
    ///
    /// # Errors
    /// `Mismatch` exactly where the type accepts no such configuration.
    pub fn to_typed_configuration<T: FromConfiguration>(
        &self,
        alloc: Global,
    ) -> Result<T, FromConfigurationError>
        ensures { Typed result (T.accepts (codec_v2_seen self.now).configuration)
            (T.Denotes (codec_v2_seen self.now).configuration) }
    {
        T::from_configuration(alloc, &self.configuration)
    }

    /// The codec that a value says: an object with `id` a text, whose other members are the configuration.
    ///
    /// # Errors
    /// `FloatNumber` exactly where the value holds a float, else `InvalidMetadata` exactly where it is no such object.
    #[tactic(auto, using(crate::proofs::RisingLemmasV2::read_without_id))]
    pub fn from_value(alloc: Global, value: &Value) -> Result<Self, MetadataError>
        ensures gives { GivesRead codec_v2_seen result (from_data codec_v2_of (view value.now)) }
        ensures without_id { IfOk result
            (λ c. get_member (codes "id") (codec_v2_seen c).configuration ≡ None) }
    {
        refuse_floats(value)?;
        read_codec_v2(alloc, value)
    }

    /// The object with the id and the configuration's other members.
    ///
    /// # Errors
    /// [`AllocError`] where memory runs out.
    pub fn to_value(&self, alloc: Global) -> Result<Value, AllocError>
        ensures { IfOk result (λ v. view v ≡ codec_v2_data (codec_v2_seen self.now)) }
    {
        let mut members = copy_members(self.configuration.as_map())?;
        let id = Value::try_from_str(alloc, self.id.as_str())?;
        serde_json::put(&mut members, alloc, "id", id)?;
        Ok(Value::Object(members))
    }

    /// The codec that a text says, as [`MetadataV2::from_value`].
    ///
    /// # Errors
    /// `InvalidJson` exactly where the text is not JSON, else as for the value.
    #[tactic(auto, using(crate::proofs::RisingLemmasV2::read_without_id))]
    pub fn try_from_text(alloc: Global, text: &str) -> Result<Self, MetadataError>
        ensures gives { GivesRead codec_v2_seen result (from_json codec_v2_of (read text.now)) }
        ensures without_id { IfOk result
            (λ c. get_member (codes "id") (codec_v2_seen c).configuration ≡ None) }
    {
        let value = read_value(alloc, text)?;
        read_codec_v2(alloc, &value)
    }

    /// A copy.
    ///
    /// # Errors
    /// [`AllocError`] where memory runs out.
    pub fn try_clone(&self, alloc: Global) -> Result<Self, AllocError>
        ensures { IfOk result (λ copy. codec_v2_seen copy ≡ codec_v2_seen self.now) }
    {
        Ok(MetadataV2 {
            id: String::from_str(alloc, self.id.as_str())?,
            configuration: self.configuration.try_clone(alloc)?,
        })
    }
}

// The codec that a value says. Floats were looked for before.
fn read_codec_v2(alloc: Global, value: &Value) -> Result<MetadataV2, MetadataError>
    ensures { Reads codec_v2_seen result (codec_v2_of (view value.now)) }
{
    read_codec_v2_members(alloc, read_object(value)?)
}

#[tactic(auto, unfolding(crate::specs::MetadataV2::codec_v2_members))]
fn read_codec_v2_members(
    alloc: Global,
    members: &Map<String, Value>,
) -> Result<MetadataV2, MetadataError>
    ensures { Reads codec_v2_seen result (codec_v2_members (members_view members.now.entries)) }
{
    let id = read_text(required(members, "id")?)?;
    let id = String::from_str(alloc, id)?;
    let mut members = copy_members(members)?;
    drop(take_member(&mut members, "id"));
    Ok(MetadataV2::new(id, Configuration::new(members)))
}

impl Part for MetadataV2 {
    ghost Said = { CodecV2 };

    ghost seen = { codec_v2_seen };

    ghost form = { codec_v2_of };

    ghost written = { codec_v2_data };

    fn read(alloc: Global, value: &Value) -> Result<Self, MetadataError> {
        read_codec_v2(alloc, value)
    }

    fn write(&self, alloc: Global) -> Result<Value, AllocError> {
        self.to_value(alloc)
    }

    fn copy(&self, alloc: Global) -> Result<Self, AllocError> {
        self.try_clone(alloc)
    }
}
