//! A codec of any of the three kinds, and what makes it of metadata.

ghost use Rattle.std.specs.Prelude.{◌≡◌, Result, IfOk, option_map, string_bytes};
ghost use Rattle.zarrs_metadata_values.specs.Configuration.{configuration_seen};
ghost use Rattle.zarrs_plugin.specs.Registry.{Names, find, registry_of};
ghost use Rattle.zarrs_plugin.specs.declared.error.PluginCreateError.{PluginCreateError};
ghost use Rattle.zarrs_plugin.specs.declared.zarr_version.ZarrVersion.TheVariants.{V2, V3};
ghost use Rattle.zarrs_codec_traits.specs.Making.{MakesByKind};
ghost use Rattle.zarrs_codec_traits.specs.CodecMetadata.{MetadataSeen, metadata_seen, name_seen};

use crate::array_to_array::ArrayToArrayCodecTraits;
use crate::array_to_bytes::ArrayToBytesCodecTraits;
use crate::bytes_to_bytes::BytesToBytesCodecTraits;
use crate::codec_metadata::CodecMetadata;
use crate::making::unsupported_codec;
use std::alloc::{AllocError, Global};
use zarrs_codec_error::CodecMetadataOptions;
use zarrs_metadata_parts::Configuration;
use zarrs_plugin::{PluginCreateError, Registry, ZarrVersion};

/// A codec of one of three types.
#[derive(Drop)]
pub enum Codec<A, B, C> {
    /// One that turns elements into elements.
    ArrayToArray(A),
    /// One that turns elements into bytes.
    ArrayToBytes(B),
    /// One that turns bytes into bytes.
    BytesToBytes(C),
}

/// What makes codecs of a kind.
pub trait CodecMaker: Sized {
    /// The array-to-array codecs that are made.
    type A;
    /// The array-to-bytes codecs that are made.
    type B;
    /// The bytes-to-bytes codecs that are made.
    type C;

    ghost use Rattle.zarrs_codec_traits.specs.declared.codec.Codec as code;

    // What may come of metadata, where names inside it are those of a registry.
    ghost gives: { Self → Names Self → MetadataSeen
        → Result (code.Codec Self.A Self.B Self.C) PluginCreateError → Type 0 };

    /// The codec that the metadata denotes. Names inside it are looked up in the registry.
    ///
    /// # Errors
    /// [`PluginCreateError`] as the maker says.
    fn make(
        &self,
        alloc: Global,
        metadata: CodecMetadata<'_>,
        registry: &Registry<Self>,
    ) -> Result<Codec<Self::A, Self::B, Self::C>, PluginCreateError>
        ensures { gives self.now (registry_of registry.now) (metadata_seen metadata.entry) result };
}

impl<A: ArrayToArrayCodecTraits, B: ArrayToBytesCodecTraits, C: BytesToBytesCodecTraits> Codec<
    A,
    B,
    C,
> {
    ghost use Rattle.zarrs_codec_traits.specs.CodecOf.{of_codec};

    /// The codec that the metadata denotes, by the first kind of the registry that goes by its name.
    ///
    /// # Errors
    /// `Unsupported` where no kind goes by the name, else what the kind's maker refuses.
    pub fn from_metadata<K: CodecMaker<A = A, B = B, C = C> + Drop>(
        alloc: Global,
        metadata: CodecMetadata<'_>,
        registry: &Registry<K>,
    ) -> Result<Self, PluginCreateError>
        ensures { MakesByKind
            (λ kind made. K.gives kind (registry_of registry.now) (metadata_seen metadata.entry)
            made)
            (name_seen metadata.entry)
            (find (name_seen metadata.entry) (registry_of registry.now)) result }
    {
        match registry.find(metadata.name()) {
            Some(kind) => kind.make(alloc, metadata, registry),
            None => Err(unsupported_codec(alloc, metadata.name())),
        }
    }

    /// The configuration of the codec inside in the metadata of `version`, and [`None`] where it is not named there.
    ///
    /// # Errors
    /// [`AllocError`] where memory runs out.
    pub fn configuration(
        &self,
        alloc: Global,
        version: ZarrVersion,
        options: &CodecMetadataOptions,
    ) -> Result<Option<Configuration>, AllocError>
        ensures { IfOk result (λ c. option_map configuration_seen c
            ≡ of_codec A.written B.written C.written self.now version options.now) }
    {
        match self {
            Codec::ArrayToArray(codec) => codec.configuration(alloc, version, options),
            Codec::ArrayToBytes(codec) => codec.configuration(alloc, version, options),
            Codec::BytesToBytes(codec) => codec.configuration(alloc, version, options),
        }
    }

    /// The configuration in version 3 metadata.
    ///
    /// # Errors
    /// [`AllocError`] where memory runs out.
    pub fn configuration_v3(
        &self,
        alloc: Global,
        options: &CodecMetadataOptions,
    ) -> Result<Option<Configuration>, AllocError>
        ensures { IfOk result (λ c. option_map configuration_seen c
            ≡ of_codec A.written B.written C.written self.now V3 options.now) }
    {
        self.configuration(alloc, ZarrVersion::V3, options)
    }

    /// The configuration in version 2 metadata.
    ///
    /// # Errors
    /// [`AllocError`] where memory runs out.
    pub fn configuration_v2(
        &self,
        alloc: Global,
        options: &CodecMetadataOptions,
    ) -> Result<Option<Configuration>, AllocError>
        ensures { IfOk result (λ c. option_map configuration_seen c
            ≡ of_codec A.written B.written C.written self.now V2 options.now) }
    {
        self.configuration(alloc, ZarrVersion::V2, options)
    }

    /// The name of the codec inside in a version, and [`None`] where it has none there.
    ///
    /// # Errors
    /// [`AllocError`] where memory runs out.
    pub fn name(&self, alloc: Global, version: ZarrVersion) -> Result<Option<String>, AllocError>
        ensures { IfOk result (λ name. option_map string_bytes name
            ≡ of_codec A.name_in B.name_in C.name_in self.now version) }
    {
        match self {
            Codec::ArrayToArray(codec) => codec.name(alloc, version),
            Codec::ArrayToBytes(codec) => codec.name(alloc, version),
            Codec::BytesToBytes(codec) => codec.name(alloc, version),
        }
    }
}
