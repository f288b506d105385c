//! Configurations of extensions, and the types that stand for them.
//!
//! See <https://zarr-specs.readthedocs.io/en/latest/v3/core/index.html#extension-definition>.

ghost use Rattle.std.specs.Prelude.{◌≡◌, Bool, Some, None, IfOk, IfErr, option_map, string_bytes};
ghost use Rattle.serde_json.specs.Data.{Members, no_members};
ghost use Rattle.serde_json.specs.View.{members_view, view};
ghost use Rattle.zarrs_metadata_values.specs.Configuration.{configuration_seen, configuration_error_seen, is_empty, only_member, Typed};
ghost use Rattle.zarrs_metadata_values.specs.Reading.{Reads};
ghost use Rattle.zarrs_metadata_values.specs.declared.configuration.ToConfigurationFault.TheVariants.{OutOfMemory};
ghost use Rattle.zarrs_metadata_values.specs.declared.error.MetadataError.TheVariants as fault;

use crate::error::{FromConfigurationError, MetadataError};
use crate::json::copy_members;
use serde_json::{Map, Value};
use std::alloc::{AllocError, Global};
use thiserror::Error;

/// A configuration of an extension: the members of a JSON object.
#[derive(Debug, PartialEq, Drop)]
pub struct Configuration {
    map: Map<String, Value>,
}

impl Configuration {
    /// The configuration with these members.
    pub fn new(map: Map<String, Value>) -> Self
        ensures { configuration_seen result ≡ members_view map.entries }
    {
        Configuration { map }
    }

    /// The members.
    pub fn as_map(&self) -> &Map<String, Value>
        ensures { members_view result.now.entries ≡ configuration_seen self.now }
    {
        &self.map
    }

    /// The members, taken out.
    pub fn into_map(self) -> Map<String, Value>
        ensures { members_view result.entries ≡ configuration_seen self }
    {
        self.map
    }

    /// The configuration as a type that stands for some configurations.
    ///
    /// # Errors
    /// `Mismatch` exactly where the type accepts no such configuration.
    pub fn to_typed<T: FromConfiguration>(&self, alloc: Global) -> Result<T, FromConfigurationError>
        ensures { Typed result (T.accepts (configuration_seen self.now))
            (T.Denotes (configuration_seen self.now)) }
    {
        T::from_configuration(alloc, self)
    }

    /// A copy.
    ///
    /// # Errors
    /// [`AllocError`] where memory runs out.
    pub fn try_clone(&self, _alloc: Global) -> Result<Self, AllocError>
        ensures { IfOk result (λ copy. configuration_seen copy ≡ configuration_seen self.now) }
    {
        Ok(Configuration {
            map: copy_members(&self.map)?,
        })
    }
}

/// A type that stands for the configurations that it accepts.
pub trait FromConfiguration: Sized {
    ghost use Rattle.zarrs_metadata_values.specs.Configuration.{configuration_seen, Typed};

    // Whether there is a value for the configuration.
    ghost accepts: { Members → Bool };

    // What the value says, for a configuration that is accepted.
    ghost Denotes: { Members → Self → Type 0 };

    /// The value for a configuration.
    ///
    /// # Errors
    /// `Mismatch` exactly where the type accepts no such configuration.
    fn from_configuration(
        alloc: Global,
        configuration: &Configuration,
    ) -> Result<Self, FromConfigurationError>
        ensures { Typed result (accepts (configuration_seen configuration.now))
            (Denotes (configuration_seen configuration.now)) };
}

/// A type whose values have a configuration.
pub trait ToConfiguration {
    ghost use Rattle.zarrs_metadata_values.specs.Configuration.{configuration_seen};

    // The members of a value's configuration.
    ghost configured: { Self → Members };

    /// The configuration of the value.
    ///
    /// # Errors
    /// [`AllocError`] where memory runs out.
    fn to_configuration(&self, alloc: Global) -> Result<Configuration, AllocError>
        ensures { IfOk result (λ c. configuration_seen c ≡ configured self.now) };
}

/// A configuration without members.
#[derive(Clone, Copy, Debug, PartialEq, Eq)]
pub struct EmptyConfiguration;

impl FromConfiguration for EmptyConfiguration {
    ghost accepts = { is_empty };

    ghost Denotes = { λ _ _. Unit {0} };

    fn from_configuration(
        _alloc: Global,
        configuration: &Configuration,
    ) -> Result<Self, FromConfigurationError> {
        if is_empty(configuration.as_map()) {
            Ok(EmptyConfiguration)
        } else {
            Err(FromConfigurationError::Mismatch)
        }
    }
}

impl ToConfiguration for EmptyConfiguration {
    ghost configured = { λ _. no_members };

    fn to_configuration(&self, alloc: Global) -> Result<Configuration, AllocError> {
        Ok(Configuration::new(Map::new(alloc)))
    }
}

/// Whether there is no member.
pub fn is_empty(members: &Map<String, Value>) -> bool
    ensures { result ≡ is_empty (members_view members.now.entries) }
{
    members.iter().next().is_none()
}

/// The value of the only member, which must have this name.
///
/// # Errors
/// `InvalidMetadata` exactly where there are other members, or none.
pub fn only_member<'a>(
    configuration: &'a Configuration,
    name: &str,
) -> Result<&'a Value, MetadataError>
    ensures value { Reads (λ v. view v.now) result
        (only_member name.now (configuration_seen configuration.now)) }
    ensures form { IfErr result (λ e. e ≡ fault.InvalidMetadata) }
{
    let mut members = configuration.as_map().iter();
    let Some((key, value)) = members.next() else {
        return Err(MetadataError::InvalidMetadata);
    };
    if members.next().is_some() {
        return Err(MetadataError::InvalidMetadata);
    }
    if key.as_str() == name {
        Ok(value)
    } else {
        Err(MetadataError::InvalidMetadata)
    }
}

/// A configuration that goes with no type, and the name of the extension that has it.
#[derive(Debug, PartialEq, Drop, Error)]
#[error("the configuration of {name} is not supported")]
pub struct ConfigurationError {
    name: String,
    configuration: Option<Configuration>,
}

impl ConfigurationError {
    /// The error for an extension of that name and configuration.
    pub fn new(name: String, configuration: Option<Configuration>) -> Self
        ensures { configuration_error_seen result
            ≡ record {
              name = string_bytes name;
              configuration = option_map configuration_seen configuration;
            } }
    {
        ConfigurationError {
            name,
            configuration,
        }
    }

    /// The name of the extension.
    pub fn name(&self) -> &str
        ensures { result.now ≡ (configuration_error_seen self.now).name }
    {
        self.name.as_str()
    }

    /// The configuration, if there is one.
    pub fn configuration(&self) -> Option<&Configuration>
        ensures { option_map (λ c. configuration_seen c.now) result
            ≡ (configuration_error_seen self.now).configuration }
    {
        self.configuration.as_ref()
    }

    /// A copy.
    ///
    /// # Errors
    /// [`AllocError`] where memory runs out.
    pub fn try_clone(&self, alloc: Global) -> Result<Self, AllocError>
        ensures { IfOk result (λ copy. configuration_error_seen copy
            ≡ configuration_error_seen self.now) }
    {
        Ok(ConfigurationError {
            name: String::from_str(alloc, self.name.as_str())?,
            configuration: copy_optional(alloc, self.configuration.as_ref())?,
        })
    }
}

/// A copy of a configuration that may be there.
///
/// # Errors
/// [`AllocError`] where memory runs out.
pub fn copy_optional(
    alloc: Global,
    configuration: Option<&Configuration>,
) -> Result<Option<Configuration>, AllocError>
    ensures { IfOk result (λ copy. option_map configuration_seen copy
        ≡ option_map (λ c. configuration_seen c.now) configuration.entry) }
{
    match configuration {
        Some(configuration) => Ok(Some(configuration.try_clone(alloc)?)),
        None => Ok(None),
    }
}

/// Why an extension's configuration could not be read as a type.
#[derive(Debug, Drop, Error)]
pub enum ToConfigurationFault {
    /// The type accepts no such configuration.
    #[error(transparent)]
    Mismatch(ConfigurationError),
    /// Memory ran out.
    #[error("out of memory")]
    OutOfMemory,
}

impl From<AllocError> for ToConfigurationFault {
    ghost from_gives = { λ _ e. e ≡ OutOfMemory };

    fn from(_error: AllocError) -> ToConfigurationFault {
        ToConfigurationFault::OutOfMemory
    }
}
