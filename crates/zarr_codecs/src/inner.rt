//! The metadata of the codec inside that of optional elements.

ghost use Rattle.std.specs.Prelude.{option_map};
ghost use Rattle.zarrs_metadata_values.specs.Configuration.{configuration_seen};
ghost use Rattle.zarrs_codec_traits.specs.Prelude.{Reads, extension_seen, Makes, or_config};
ghost use Rattle.zarrs_plugin.specs.declared.error.PluginKind.TheVariants as kinds;
ghost use Rattle.zarr_codecs.specs.Inner.{inner_in, InnerReadsBack};

use std::alloc::Global;
use zarrs_metadata_parts::making::unmade;
use zarrs_metadata_parts::reading::read_extension;
use zarrs_metadata_parts::{Configuration, MetadataError, MetadataV3};
use zarrs_metadata_values::configuration::only_member;
use zarrs_plugin::PluginCreateError;

#[tactic(auto, unfolding(crate::specs::Inner::inner_in))]
fn read_inner(
    alloc: Global,
    configuration: Option<&Configuration>,
) -> Result<MetadataV3, MetadataError>
    ensures { Reads extension_seen result
        (inner_in (option_map (λ c. configuration_seen c.now) configuration.entry)) }
{
    let Some(configuration) = configuration else {
        return Err(MetadataError::InvalidMetadata);
    };
    read_extension(alloc, only_member(configuration, "inner")?)
}

/// The metadata of the codec inside, in the configuration of the codec of optional elements: exactly `inner`, a named
/// extension.
///
/// # Errors
/// `Config` exactly where the configuration is another; or `OutOfMemory`.
#[tactic(auto, using(zarrs_metadata_parts::proofs::MakingLaws::of_configurations))]
pub fn inner_metadata(
    alloc: Global,
    configuration: Option<&Configuration>,
) -> Result<MetadataV3, PluginCreateError>
    ensures { Makes kinds.Codec extension_seen result (or_config
        (inner_in (option_map (λ c. configuration_seen c.now) configuration.entry))) }
{
    match read_inner(alloc, configuration) {
        Ok(metadata) => Ok(metadata),
        Err(error) => Err(unmade(error)),
    }
}

/// The codec inside is read of a written configuration by its name, and with its configuration where that is not empty.
#[tactic(auto, using(crate::proofs::InnerLaws::inner_reads_back))]
pub fn inner_reads_back()
    ensures { InnerReadsBack }
{}
