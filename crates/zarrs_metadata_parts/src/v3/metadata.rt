//! Named extensions: a name, optionally a configuration, and whether it must be understood.
//!
//! See <https://zarr-specs.readthedocs.io/en/latest/v3/core/index.html#extension-definition>.

ghost use Rattle.std.specs.Prelude.{◌≡◌, Some, None, false, true, IfOk, option_map, string_bytes};
ghost use Rattle.serde_json.specs.Read.{read};
ghost use Rattle.serde_json.specs.View.{view, members_view};
ghost use Rattle.serde_json.specs.Data.{object};
ghost use Rattle.serde_json.specs.Written.{members_have_float, compact_text};
ghost use Rattle.zarrs_metadata_values.specs.Reading.{Reads, GivesRead, from_data, from_json};
ghost use Rattle.zarrs_metadata_values.specs.Configuration.{configuration_seen, members_or_none, is_none_or_empty, Typed, TypedOf};
ghost use Rattle.zarrs_metadata_parts.specs.MetadataV3.{Extension, extension_seen, extension_of, object_extension, is_extension_key, has_only_extension_keys, extension_data, configured, display_text};

use crate::part::Part;
use serde_json::{Map, Value, json};
use std::alloc::{AllocError, Global};
use zarrs_metadata_values::configuration::{copy_optional, is_empty};
use zarrs_metadata_values::json::{
    copy_members, member, read_boolean, read_optional_object, read_text, required,
};
use zarrs_metadata_values::reading::{read_value, refuse_floats};
use zarrs_metadata_values::{
    Configuration, ConfigurationError, FromConfiguration, FromConfigurationError, MetadataError,
    ToConfiguration, ToConfigurationFault,
};

/// A named extension of a version 3 document.
///
/// In a document it is its name alone, or an object with `name`, and optionally `configuration` and
/// `must_understand`, which is true where it is left out.
#[derive(Debug, PartialEq, Drop)]
pub struct MetadataV3 {
    name: String,
    configuration: Option<Configuration>,
    must_understand: bool,
}

impl MetadataV3 {
    /// The extension of that name, without a configuration, which must be understood.
    pub fn new(name: String) -> Self
        ensures { extension_seen result ≡ record {
          name = string_bytes name;
          configuration = None;
          must_understand = true;
        } }
    {
        MetadataV3 {
            name,
            configuration: None,
            must_understand: true,
        }
    }

    /// The extension of that name and configuration, which must be understood.
    pub fn new_with_configuration(name: String, configuration: Configuration) -> Self
        ensures { extension_seen result ≡ record {
          name = string_bytes name;
          configuration = Some (configuration_seen configuration);
          must_understand = true;
        } }
    {
        MetadataV3 {
            name,
            configuration: Some(configuration),
            must_understand: true,
        }
    }

    /// The extension of that name with the configuration of a value, which must be understood.
    ///
    /// # Errors
    /// [`AllocError`] where memory runs out.
    pub fn new_with_serializable_configuration<T: ToConfiguration>(
        alloc: Global,
        name: String,
        configuration: &T,
    ) -> Result<Self, AllocError>
        ensures { IfOk result (λ m. extension_seen m
            ≡ record {
              name = string_bytes name;
              configuration = Some (T.configured configuration.now);
              must_understand = true;
            }) }
    {
        let configuration = configuration.to_configuration(alloc)?;
        Ok(MetadataV3::new_with_configuration(name, configuration))
    }

    /// The same extension, with that `must_understand`.
    pub fn with_must_understand(self, must_understand: bool) -> Self
        ensures { extension_seen result ≡ record (extension_seen self) {
          must_understand = must_understand;
        } }
    {
        MetadataV3 {
            must_understand,
            ..self
        }
    }

    /// The name.
    pub fn name(&self) -> &str
        ensures { result.now ≡ (extension_seen self.now).name }
    {
        self.name.as_str()
    }

    /// Gives it another name.
    pub fn set_name(&mut self, name: String) -> &mut Self
        ensures same { result.ghost_name ≡ self.entry.ghost_name }
        ensures value { result.now ≡ record self.old { name = name } }
    {
        self.name = name;
        self
    }

    /// The configuration, if there is one.
    pub fn configuration(&self) -> Option<&Configuration>
        ensures { option_map (λ c. configuration_seen c.now) result
            ≡ (extension_seen self.now).configuration }
    {
        self.configuration.as_ref()
    }

    /// The configuration, taken out, if there is one.
    pub fn into_configuration(self) -> Option<Configuration>
        ensures { option_map configuration_seen result ≡ (extension_seen self).configuration }
    {
        self.configuration
    }

    /// Whether the extension must be understood.
    pub fn must_understand(&self) -> bool
        ensures { result ≡ (extension_seen self.now).must_understand }
    {
        self.must_understand
    }

    /// Whether there is no configuration, or one without members.
    pub fn configuration_is_none_or_empty(&self) -> bool
        ensures { result ≡ is_none_or_empty (extension_seen self.now).configuration }
    {
        match &self.configuration {
            Some(configuration) => is_empty(configuration.as_map()),
            None => true,
        }
    }

    /// The configuration as a type that stands for some configurations; the empty one where there is none.
    ///
    /// # Errors
    /// `Mismatch` exactly where the type accepts no such configuration.
    pub fn to_typed_configuration<T: FromConfiguration>(
        &self,
        alloc: Global,
    ) -> Result<T, FromConfigurationError>
        ensures { Typed result (T.accepts (members_or_none (extension_seen self.now).configuration))
            (T.Denotes (members_or_none (extension_seen self.now).configuration)) }
    {
        match &self.configuration {
            Some(configuration) => T::from_configuration(alloc, configuration),
            None => T::from_configuration(alloc, &Configuration::new(Map::new(alloc))),
        }
    }

    /// The same as [`MetadataV3::to_typed_configuration`], where a refusal holds the name and the configuration.
    ///
    /// # Errors
    /// `Mismatch` exactly where the type accepts no such configuration.
    pub fn to_configuration<T: FromConfiguration>(
        &self,
        alloc: Global,
    ) -> Result<T, ToConfigurationFault>
        ensures { TypedOf
            (record {
              name = (extension_seen self.now).name;
              configuration = (extension_seen self.now).configuration;
            }) result
            (T.accepts (members_or_none (extension_seen self.now).configuration))
            (T.Denotes (members_or_none (extension_seen self.now).configuration)) }
    {
        match self.to_typed_configuration(alloc) {
            Ok(typed) => Ok(typed),
            Err(FromConfigurationError::OutOfMemory) => Err(ToConfigurationFault::OutOfMemory),
            Err(FromConfigurationError::Mismatch) => {
                let name = String::from_str(alloc, self.name.as_str())?;
                let configuration = copy_optional(alloc, self.configuration.as_ref())?;
                Err(ToConfigurationFault::Mismatch(ConfigurationError::new(name, configuration)))
            }
        }
    }

    /// The name, and behind a space the configuration as JSON where there is one.
    ///
    /// # Errors
    /// [`AllocError`] where memory runs out.
    pub fn to_display(&self, alloc: Global) -> Result<String, AllocError>
        ensures { IfOk result (λ text. members_have_float
            (members_or_none (extension_seen self.now).configuration) ≡ false
            → string_bytes text ≡ display_text (extension_seen self.now).name
            (extension_seen self.now).configuration) }
    {
        match &self.configuration {
            None => String::from_str(alloc, self.name.as_str()),
            Some(configuration) => configured_text(
                alloc,
                self.name.as_str(),
                configuration.as_map(),
            ),
        }
    }

    /// The extension that a value says.
    ///
    /// # Errors
    /// `FloatNumber` exactly where the value holds a float, else `InvalidMetadata` exactly where it is no extension.
    pub fn from_value(alloc: Global, value: &Value) -> Result<Self, MetadataError>
        ensures { GivesRead extension_seen result (from_data extension_of (view value.now)) }
    {
        refuse_floats(value)?;
        read_extension(alloc, value)
    }

    /// The value that says the extension: its bare name where it has no configuration, an object with the name alone
    /// where the configuration is empty, else with the configuration, and then with `must_understand` where it is
    /// false.
    ///
    /// # Errors
    /// [`AllocError`] where memory runs out.
    pub fn to_value(&self, alloc: Global) -> Result<Value, AllocError>
        ensures { IfOk result (λ v. view v ≡ extension_data (extension_seen self.now)) }
    {
        match &self.configuration {
            None => Value::try_from_str(alloc, self.name.as_str()),
            Some(configuration) => object_value(
                alloc,
                self.name.as_str(),
                configuration.as_map(),
                self.must_understand,
            ),
        }
    }

    /// The extension that a text says, as [`MetadataV3::from_value`].
    ///
    /// # Errors
    /// `InvalidJson` exactly where the text is not JSON, else as for the value.
    pub fn try_from_text(alloc: Global, text: &str) -> Result<Self, MetadataError>
        ensures { GivesRead extension_seen result (from_json extension_of (read text.now)) }
    {
        let value = read_value(alloc, text)?;
        read_extension(alloc, &value)
    }

    /// A copy.
    ///
    /// # Errors
    /// [`AllocError`] where memory runs out.
    pub fn try_clone(&self, alloc: Global) -> Result<Self, AllocError>
        ensures { IfOk result (λ copy. extension_seen copy ≡ extension_seen self.now) }
    {
        Ok(MetadataV3 {
            name: String::from_str(alloc, self.name.as_str())?,
            configuration: copy_optional(alloc, self.configuration.as_ref())?,
            must_understand: self.must_understand,
        })
    }
}

fn configured_text(
    alloc: Global,
    name: &str,
    configuration: &Map<String, Value>,
) -> Result<String, AllocError>
    ensures { IfOk result (λ text. members_have_float (members_view configuration.now.entries)
        ≡ false
        → string_bytes text ≡ display_text name.now
        (Some (members_view configuration.now.entries))) }
{
    let configuration = members_text(alloc, configuration)?;
    let mut text = String::from_str(alloc, name)?;
    text.push_str(" ")?;
    text.push_str(configuration.as_str())?;
    Ok(text)
}

// The object with these members as text.
fn members_text(alloc: Global, members: &Map<String, Value>) -> Result<String, AllocError>
    ensures { IfOk result (λ text. members_have_float (members_view members.now.entries) ≡ false
        → string_bytes text ≡ compact_text (object (members_view members.now.entries))) }
{
    let object = Value::Object(copy_members(members)?);
    let text = object.to_string(alloc)?;
    Ok(text)
}

fn object_value(
    alloc: Global,
    name: &str,
    configuration: &Map<String, Value>,
    must_understand: bool,
) -> Result<Value, AllocError>
    ensures { IfOk result (λ v. view v ≡ configured name.now
        (Some (members_view configuration.now.entries)) must_understand) }
{
    if is_empty(configuration) {
        return json!(in alloc; {"name": name});
    }
    let configuration = Value::Object(copy_members(configuration)?);
    if must_understand {
        json!(in alloc; {"configuration": configuration, "name": name})
    } else {
        json!(in alloc; {"configuration": configuration, "must_understand": false, "name": name})
    }
}

fn is_extension_key(key: &str) -> bool
    ensures { result ≡ is_extension_key key.now }
{
    match key {
        "name" | "configuration" | "must_understand" => true,
        _ => false,
    }
}

fn has_only_extension_keys(members: &Map<String, Value>) -> bool
    ensures { result ≡ has_only_extension_keys (members_view members.now.entries) }
{
    for (key, _value) in members.iter() {
        if !is_extension_key(key.as_str()) {
            return false;
        }
    }
    true
}

/// The extension that a value says.
///
/// # Errors
/// `InvalidMetadata` exactly where it says none. Floats were looked for before.
#[tactic(auto, unfolding(crate::specs::MetadataV3::extension_of))]
pub fn read_extension(alloc: Global, value: &Value) -> Result<MetadataV3, MetadataError>
    ensures { Reads extension_seen result (extension_of (view value.now)) }
{
    match value {
        Value::String(name) => Ok(MetadataV3 {
            name: name.clone()?,
            configuration: None,
            must_understand: true,
        }),
        Value::Object(members) => read_object_extension(alloc, members),
        _ => Err(MetadataError::InvalidMetadata),
    }
}

#[tactic(auto, unfolding(crate::specs::MetadataV3::object_extension))]
fn read_object_extension(
    alloc: Global,
    members: &Map<String, Value>,
) -> Result<MetadataV3, MetadataError>
    ensures { Reads extension_seen result (object_extension (members_view members.now.entries)) }
{
    let name = read_text(required(members, "name")?)?;
    let configuration = read_optional_object(member(members, "configuration"))?;
    let must_understand = read_boolean(member(members, "must_understand"), true)?;
    if !has_only_extension_keys(members) {
        return Err(MetadataError::InvalidMetadata);
    }
    let name = String::from_str(alloc, name)?;
    let configuration = configuration.map(Configuration::new);
    Ok(MetadataV3 {
        name,
        configuration,
        must_understand,
    })
}

impl Part for MetadataV3 {
    ghost Said = { Extension };

    ghost seen = { extension_seen };

    ghost form = { extension_of };

    ghost written = { extension_data };

    fn read(alloc: Global, value: &Value) -> Result<Self, MetadataError> {
        read_extension(alloc, value)
    }

    fn write(&self, alloc: Global) -> Result<Value, AllocError> {
        self.to_value(alloc)
    }

    fn copy(&self, alloc: Global) -> Result<Self, AllocError> {
        self.try_clone(alloc)
    }
}
