//! Codecs by their metadata.

ghost use Rattle.std.specs.Prelude.{Result, option_map};
ghost use Rattle.zarrs_codec_traits.specs.Prelude.{extension_seen, registry_of, Unmade};
ghost use Rattle.zarrs_metadata_values.specs.Configuration.{configuration_seen};
ghost use Rattle.zarr_codecs.specs.Plain.{plain_vlen};
ghost use Rattle.zarr_codecs.specs.BytesToBytes.{checksum};
ghost use Rattle.zarr_codecs.specs.CodecForm.{CodecForm, to_bytes, byte_codec, bytes_form, offset_form, transpose_form, if_none, optional_over, MakesForm, codec_form, codec_named};
ghost use Rattle.zarr_codecs.specs.declared.codec_kind.CodecKind.TheVariants as named;
ghost use Rattle.zarrs_codec_traits.specs.CodecMetadata.{configuration_of};

use crate::bytes_to_bytes::BasicBytesToBytes;
use crate::{BasicArrayToBytes, OptionalCodec, VlenCodec, inner_metadata};
use std::alloc::Global;
use zarr_codecs_array_to_array::{BasicArrayToArray, OffsetCodec, TransposeCodec};
use zarr_codecs_to_bytes::{BytesCodec, Sha256Codec};
use zarrs_codec_traits::{Codec, CodecMaker, CodecMetadata, unsupported_codec};
use zarrs_metadata_parts::{Configuration, MetadataV3};
use zarrs_plugin::{PluginCreateError, Registry};

/// The kinds of codecs.
#[derive(Clone, Copy, Debug, PartialEq, Eq)]
pub enum CodecKind {
    /// The elements one after another.
    Bytes,
    /// Texts, each behind its length.
    VlenUtf8,
    /// Byte strings, each behind its length.
    VlenBytes,
    /// A mask of what is null, and the elements of the inner type.
    Optional,
    /// Numbers with an offset added.
    Offset,
    /// The dimensions in another order.
    Transpose,
    /// A value with its digest behind it.
    Sha256,
}

/// A codec of this project.
pub type BasicCodec = Codec<BasicArrayToArray, BasicArrayToBytes, BasicBytesToBytes>;

#[tactic(auto, using(crate::proofs::KindLaws::of_kinds))]
fn bytes_by(configuration: Option<&Configuration>) -> Result<BasicCodec, PluginCreateError>
    ensures { MakesForm result (bytes_form
        (option_map (λ c. configuration_seen c.now) configuration.entry)) }
{
    match BytesCodec::from_configuration(configuration) {
        Ok(codec) => Ok(Codec::ArrayToBytes(BasicArrayToBytes::Bytes(codec))),
        Err(error) => Err(error),
    }
}

#[tactic(auto, using(crate::proofs::KindLaws::of_kinds))]
fn vlen_by(
    text: bool,
    configuration: Option<&Configuration>,
) -> Result<BasicCodec, PluginCreateError>
    ensures { MakesForm result (if_none (to_bytes (plain_vlen text))
        (option_map (λ c. configuration_seen c.now) configuration.entry)) }
{
    match VlenCodec::from_configuration(text, configuration) {
        Ok(codec) => Ok(Codec::ArrayToBytes(BasicArrayToBytes::Vlen(codec))),
        Err(error) => Err(error),
    }
}

#[tactic(auto, using(crate::proofs::KindLaws::of_kinds))]
fn offset_by(configuration: Option<&Configuration>) -> Result<BasicCodec, PluginCreateError>
    ensures { MakesForm result (offset_form
        (option_map (λ c. configuration_seen c.now) configuration.entry)) }
{
    match OffsetCodec::from_configuration(configuration) {
        Ok(codec) => Ok(Codec::ArrayToArray(BasicArrayToArray::Offset(codec))),
        Err(error) => Err(error),
    }
}

#[tactic(auto, using(crate::proofs::KindLaws::of_kinds))]
fn transpose_by(
    alloc: Global,
    configuration: Option<&Configuration>,
) -> Result<BasicCodec, PluginCreateError>
    ensures { MakesForm result (transpose_form
        (option_map (λ c. configuration_seen c.now) configuration.entry)) }
{
    match TransposeCodec::from_configuration(alloc, configuration) {
        Ok(codec) => Ok(Codec::ArrayToArray(BasicArrayToArray::Transpose(codec))),
        Err(error) => Err(error),
    }
}

#[tactic(auto, using(crate::proofs::KindLaws::of_kinds))]
fn sha256_by(configuration: Option<&Configuration>) -> Result<BasicCodec, PluginCreateError>
    ensures { MakesForm result (if_none (byte_codec checksum)
        (option_map (λ c. configuration_seen c.now) configuration.entry)) }
{
    match Sha256Codec::from_configuration(configuration) {
        Ok(codec) => Ok(Codec::BytesToBytes(BasicBytesToBytes::Sha256(codec))),
        Err(error) => Err(error),
    }
}

// The codec of optional elements over the codec inside, if that is an array-to-bytes one.
fn optional_over(
    alloc: Global,
    inner: Result<BasicCodec, PluginCreateError>,
) -> Result<BasicCodec, PluginCreateError>
    ensures { (form : Result CodecForm Unmade) → MakesForm inner form
        → MakesForm result (optional_over form) }
{
    match inner {
        Ok(Codec::ArrayToBytes(inner)) => {
            let inner = Box::new(alloc, inner)?;
            Ok(Codec::ArrayToBytes(BasicArrayToBytes::Optional(OptionalCodec::new(inner))))
        }
        Ok(_) => Err(PluginCreateError::Config),
        Err(error) => Err(error),
    }
}

// The codec of optional elements, whose inner codec is made by its name.
#[cycle(codec)]
fn optional_by(
    alloc: Global,
    configuration: Option<&Configuration>,
    registry: &Registry<CodecKind>,
) -> Result<BasicCodec, PluginCreateError>
    ensures { MakesForm result (codec_form (registry_of registry.now) named.Optional
        (option_map (λ c. configuration_seen c.now) configuration.entry)) }
{
    let inner = inner_metadata(alloc, configuration)?;
    let made = codec_by_name(alloc, &inner, registry);
    optional_over(alloc, made)
}

// The codec of an extension, by the first kind that goes by its name.
#[cycle(codec)]
fn codec_by_name(
    alloc: Global,
    metadata: &MetadataV3,
    registry: &Registry<CodecKind>,
) -> Result<BasicCodec, PluginCreateError>
    ensures { MakesForm result (codec_named (registry_of registry.now)
        (extension_seen metadata.now)) }
{
    match registry.find(metadata.name()) {
        Some(kind) => codec_by(alloc, *kind, metadata.configuration(), registry),
        None => Err(unsupported_codec(alloc, metadata.name())),
    }
}

// The codec of a kind with a configuration.
#[cycle(codec)]
fn codec_by(
    alloc: Global,
    kind: CodecKind,
    configuration: Option<&Configuration>,
    registry: &Registry<CodecKind>,
) -> Result<BasicCodec, PluginCreateError>
    ensures { MakesForm result (codec_form (registry_of registry.now) kind
        (option_map (λ c. configuration_seen c.now) configuration.entry)) }
{
    match kind {
        CodecKind::Bytes => bytes_by(configuration),
        CodecKind::VlenUtf8 => vlen_by(true, configuration),
        CodecKind::VlenBytes => vlen_by(false, configuration),
        CodecKind::Optional => optional_by(alloc, configuration, registry),
        CodecKind::Offset => offset_by(configuration),
        CodecKind::Transpose => transpose_by(alloc, configuration),
        CodecKind::Sha256 => sha256_by(configuration),
    }
}

impl CodecMaker for CodecKind {
    type A = BasicArrayToArray;

    type B = BasicArrayToBytes;

    type C = BasicBytesToBytes;

    ghost gives = { λ kind names metadata made.
        MakesForm made (codec_form names kind (configuration_of metadata)) };

    fn make(
        &self,
        alloc: Global,
        metadata: CodecMetadata<'_>,
        registry: &Registry<CodecKind>,
    ) -> Result<Codec<BasicArrayToArray, BasicArrayToBytes, BasicBytesToBytes>, PluginCreateError> {
        codec_by(alloc, *self, metadata.configuration(), registry)
    }
}
