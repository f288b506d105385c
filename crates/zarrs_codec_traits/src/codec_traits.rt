//! What every codec tells of itself, and how one is made from metadata.

ghost use Rattle.std.specs.Prelude.{◌≡◌, ℕ, Bool, List, Option, Some, None, Result, IfOk, option_map};
ghost use Rattle.serde_json.specs.Data.{Members};
ghost use Rattle.zarr_model.specs.Codec.{Level};
ghost use Rattle.zarr_model.specs.Element as Model;
ghost use Rattle.zarrs_metadata_values.specs.Configuration.{configuration_seen};
ghost use Rattle.zarrs_metadata_parts.specs.MetadataV2.{CodecV2, codec_v2_seen};
ghost use Rattle.zarrs_metadata_parts.specs.MetadataV3.{Extension, extension_seen};
ghost use Rattle.zarrs_plugin.specs.Making.{Unmade, Makes};
ghost use Rattle.zarrs_plugin.specs.declared.error.PluginKind.TheVariants as kinds;
ghost use Rattle.zarrs_plugin.specs.declared.zarr_version.ZarrVersion.{ZarrVersion};
ghost use Rattle.zarrs_plugin.specs.declared.zarr_version.ZarrVersion.TheVariants as version;
ghost use Rattle.zarrs_data_type.specs.DataType.{type_of};
ghost use Rattle.zarrs_codec_error.specs.Options.{default_metadata_options};
ghost use Rattle.zarrs_codec_error.specs.declared.options.CodecMetadataOptions.{CodecMetadataOptions};
ghost use Rattle.zarrs_codec_error.specs.declared.capability.PartialDecoderCapability.{PartialDecoderCapability};
ghost use Rattle.zarrs_codec_error.specs.declared.capability.PartialEncoderCapability.{PartialEncoderCapability};
ghost use Rattle.zarrs_codec_error.specs.declared.recommended_concurrency.RecommendedConcurrency.{RecommendedConcurrency};
ghost use Rattle.zarrs_codec_traits.specs.Errors.{Unserved, unserved_at, Serves};
ghost use Rattle.zarrs_codec_traits.specs.Views.{lengths};
ghost use Rattle.zarrs_codec_traits.specs.Words.{IsFit, taken};

use std::alloc::{AllocError, Global};
use std::num::NonZeroU64;
use zarrs_array_subset::ChunkShape;
use zarrs_codec_error::{
    CodecError, CodecMetadataOptions, PartialDecoderCapability, PartialEncoderCapability,
    RecommendedConcurrency,
};
use zarrs_data_type::DataType;
use zarrs_metadata_parts::{Configuration, MetadataV2, MetadataV3};
use zarrs_plugin::{ExtensionName, PluginCreateError, ZarrVersion};

/// What a codec tells of itself.
pub trait CodecTraits: ExtensionName {
    // The members of the configuration in that version's metadata, if it has one there.
    ghost written: { Self → ZarrVersion → CodecMetadataOptions → Option Members };

    // Which parts of a value it decodes or encodes alone.
    ghost decodes_parts: { Self → PartialDecoderCapability };

    ghost encodes_parts: { Self → PartialEncoderCapability };

    /// The configuration in the metadata of `version`, and [`None`] where the codec is not named there.
    ///
    /// # Errors
    /// [`AllocError`] where memory runs out.
    fn configuration(
        &self,
        alloc: Global,
        version: ZarrVersion,
        options: &CodecMetadataOptions,
    ) -> Result<Option<Configuration>, AllocError>
        ensures { IfOk result (λ c. option_map configuration_seen c
            ≡ written self.now version options.now) };

    /// The configuration in version 3 metadata.
    ///
    /// # Errors
    /// [`AllocError`] where memory runs out.
    final fn configuration_v3(
        &self,
        alloc: Global,
        options: &CodecMetadataOptions,
    ) -> Result<Option<Configuration>, AllocError>
        ensures { IfOk result (λ c. option_map configuration_seen c
            ≡ written self.now version.V3 options.now) }
    {
        self.configuration(alloc, ZarrVersion::V3, options)
    }

    /// The configuration in version 2 metadata.
    ///
    /// # Errors
    /// [`AllocError`] where memory runs out.
    final fn configuration_v2(
        &self,
        alloc: Global,
        options: &CodecMetadataOptions,
    ) -> Result<Option<Configuration>, AllocError>
        ensures { IfOk result (λ c. option_map configuration_seen c
            ≡ written self.now version.V2 options.now) }
    {
        self.configuration(alloc, ZarrVersion::V2, options)
    }

    /// What the codec can decode of a value without the rest of it.
    fn partial_decoder_capability(&self) -> PartialDecoderCapability
        ensures { result ≡ decodes_parts self.now };

    /// What the codec can encode of a value without the rest of it.
    fn partial_encoder_capability(&self) -> PartialEncoderCapability
        ensures { result ≡ encodes_parts self.now };
}

/// A codec that is made from version 3 metadata.
pub trait CodecTraitsV3: CodecTraits + Sized {
    // The configuration of the codec that metadata denotes, or why it denotes none.
    ghost created: { Extension → Result (Option Members) Unmade };

    /// The codec that the metadata denotes. Its own name and configuration are those of the metadata, with all defaults
    /// set.
    ///
    /// # Errors
    /// `Unsupported` exactly where the name is none that this type knows; else `Config` where the configuration is not
    /// of the form, and `Other` where it asks for what the codec does not have; or `OutOfMemory`.
    fn create(alloc: Global, metadata: &MetadataV3) -> Result<Self, PluginCreateError>
        ensures made { Makes kinds.Codec
            (λ (c : Self). Self.written c version.V3 default_metadata_options) result
            (created (extension_seen metadata.now)) }
        ensures named { IfOk result (λ c. Self.name_in c version.V3
            ≡ Some (extension_seen metadata.now).name) };
}

/// A codec that is made from version 2 metadata.
pub trait CodecTraitsV2: CodecTraits + Sized {
    // The configuration of the codec that metadata denotes, or why it denotes none.
    ghost created_v2: { CodecV2 → Result (Option Members) Unmade };

    /// The codec that the metadata denotes. Its own name and configuration are those of the metadata, with all defaults
    /// set.
    ///
    /// # Errors
    /// `Unsupported` exactly where the id is none that this type knows; else `Config` where the configuration is not
    /// of the form, and `Other` where it asks for what the codec does not have; or `OutOfMemory`.
    fn create(alloc: Global, metadata: &MetadataV2) -> Result<Self, PluginCreateError>
        ensures made { Makes kinds.Codec
            (λ (c : Self). Self.written c version.V2 default_metadata_options) result
            (created_v2 (codec_v2_seen metadata.now)) }
        ensures named { IfOk result (λ c. Self.name_in c version.V2
            ≡ Some (codec_v2_seen metadata.now).id) };
}

/// A codec of arrays: it is given a shape, a data type and a fill value.
///
/// A call with a data type needs that the shape's number of elements plus one, and that number times the size of the
/// type's innermost elements where these have one, fit `usize`.
pub trait ArrayCodecTraits: CodecTraits {
    // Why the codec refuses those of a shape, a data type and a fill value's bytes that a call takes, if it does.
    ghost unserved: { Self → Option (List ℕ) → Option Model.DataType → Option (List ℕ)
        → Option Unserved };

    // How many threads it can use well.
    ghost concurrency: { Self → List ℕ → Model.DataType → RecommendedConcurrency };

    // The shape of the parts of a shape that are decoded at once.
    ghost granularity: { Self → List ℕ → List ℕ };

    /// How many threads the codec can use well.
    ///
    /// # Errors
    /// [`CodecError`] exactly where the codec does not serve the shape and the data type.
    fn recommended_concurrency(
        &self,
        shape: &[NonZeroU64],
        data_type: &DataType,
    ) -> Result<RecommendedConcurrency, CodecError>
        requires fits { IsFit (lengths shape.now) (type_of data_type.now) }
        ensures { Serves (unserved self.now (Some (lengths shape.now))
            (Some (type_of data_type.now)) None)
            (λ r. r ≡ concurrency self.now (lengths shape.now) (type_of data_type.now)) result };

    /// The shape of the parts that are decoded at once: a smaller part costs as much as one of them.
    ///
    /// # Errors
    /// [`AllocError`] where memory runs out.
    fn partial_decode_granularity(
        &self,
        alloc: Global,
        shape: &[NonZeroU64],
    ) -> Result<ChunkShape, AllocError>
        ensures { IfOk result
            (λ v. lengths v.items ≡ granularity self.now (lengths shape.now)) };

    // A level that is served is not refused by a call that takes only some of it.
    ghost serves_parts: { (c : Self) (level : Level) (fill : List ℕ)
        → unserved_at (unserved c) level fill ≡ None
        → (with_shape with_type with_fill : Bool)
        → unserved c (taken with_shape level.shape) (taken with_type level.data_type)
        (taken with_fill fill) ≡ None };
}
