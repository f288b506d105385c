//! What codecs are made of: no configuration, and names that none goes by.

ghost use Rattle.std.specs.Prelude.{◌≡◌, IfErr, option_map};
ghost use Rattle.serde_json.specs.Data.{no_members};
ghost use Rattle.zarrs_metadata_values.specs.Configuration.{configuration_seen};
ghost use Rattle.zarrs_plugin.specs.Making.{Makes, unsupported};
ghost use Rattle.zarrs_plugin.specs.declared.error.PluginCreateError.TheVariants as plugin;
ghost use Rattle.zarrs_plugin.specs.declared.error.PluginKind.TheVariants as kinds;
ghost use Rattle.zarrs_codec_traits.specs.Making.{Refuses, none_form};

use std::alloc::Global;
use zarrs_metadata_parts::Configuration;
use zarrs_metadata_values::configuration::is_empty;
use zarrs_plugin::{PluginCreateError, PluginKind, PluginUnsupportedError};

/// Tests that there is no configuration, or an empty one.
///
/// # Errors
/// `Config` exactly where it has a member.
pub fn expect_none(configuration: Option<&Configuration>) -> Result<(), PluginCreateError>
    ensures made { Makes kinds.Codec (λ _. no_members) result
        (none_form (option_map (λ c. configuration_seen c.now) configuration.entry)) }
    ensures config { IfErr result (λ e. e ≡ plugin.Config) }
{
    let Some(configuration) = configuration else {
        return Ok(());
    };
    if is_empty(configuration.as_map()) {
        Ok(())
    } else {
        Err(PluginCreateError::Config)
    }
}

/// The refusal of a name that no codec goes by, or that memory ran out.
pub fn unsupported_codec(alloc: Global, name: &str) -> PluginCreateError
    ensures { Refuses (unsupported name.now) result }
{
    match String::from_str(alloc, name) {
        Ok(name) => PluginCreateError::Unsupported(PluginUnsupportedError::new(
            name,
            PluginKind::Codec,
        )),
        Err(error) => PluginCreateError::from(error),
    }
}
