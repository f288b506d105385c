//! The metadata of a codec, of either version.

ghost use Rattle.std.specs.Prelude.{◌≡◌, option_map};
ghost use Rattle.zarrs_metadata_values.specs.Configuration.{configuration_seen};

use zarrs_metadata_parts::{Configuration, MetadataV2, MetadataV3};

/// The metadata of a codec.
#[derive(Clone, Copy)]
pub enum CodecMetadata<'a> {
    /// An entry of the codecs of a version 3 array.
    V3(&'a MetadataV3),
    /// A filter or compressor of a version 2 array.
    V2(&'a MetadataV2),
}

impl<'a> CodecMetadata<'a> {
    ghost use Rattle.zarrs_codec_traits.specs.CodecMetadata.{name_seen, configuration_in};

    /// The name, which is the id in version 2.
    pub fn name(&self) -> &'a str
        ensures { result.now ≡ name_seen self.now }
    {
        match self {
            CodecMetadata::V3(metadata) => metadata.name(),
            CodecMetadata::V2(metadata) => metadata.id(),
        }
    }

    /// The configuration; in version 3 there may be none.
    pub fn configuration(&self) -> Option<&'a Configuration>
        ensures { option_map (λ c. configuration_seen c.now) result ≡ configuration_in self.now }
    {
        match self {
            CodecMetadata::V3(metadata) => metadata.configuration(),
            CodecMetadata::V2(metadata) => Some(metadata.configuration()),
        }
    }
}
