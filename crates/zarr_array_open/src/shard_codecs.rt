//! The codecs of a document, of which that of shards has codecs inside.

ghost use Rattle.std.specs.Prelude.{◌≡◌, true, IfOk, [], ◌∷◌, map};
ghost use Rattle.zarrs_codec_traits.specs.Prelude.{registry_of, extension_seen, extensions_seen};
ghost use Rattle.zarr_array_open.specs.Opening.{plugin_create, chain_order, or_refused};
ghost use Rattle.zarr_array_open.specs.Parts.{Opens};
ghost use Rattle.zarr_array_open.specs.Configuration.{sharding_seen};
ghost use Rattle.zarr_array_open.specs.Sharding.{are_inner_lengths};
ghost use Rattle.zarr_array_open.specs.Sharding.{sharding_in as sharding_said};
ghost use Rattle.zarr_array_open.specs.ShardOpening.{sharding_by, document_codec, document_codecs, only_sharding};
ghost use Rattle.zarr_array_open.specs.Views.{unconfigured_as, codecs_seen, made_codec_seen};

use crate::configuration::{ShardingConfiguration, read_sharding};
use crate::inner_codecs::{InnerCodecs, MadeCodec};
use crate::steps::{codec_at, codecs_by};
use crate::{CodecKind, OpenError};
use std::alloc::Global;
use zarrs_metadata_parts::{MetadataError, MetadataV3};
use zarrs_plugin::Registry;

// The error of a configuration that is not read.
fn not_configured(error: MetadataError) -> OpenError
    ensures { result ≡ unconfigured_as error }
{
    match error {
        MetadataError::OutOfMemory => OpenError::OutOfMemory,
        _ => OpenError::PluginCreateError,
    }
}

// What the configuration of the codec of shards says for chunks of a shape.
#[tactic(auto, using(crate::proofs::CodecLaws::of_configurations))]
fn configuration_of(
    alloc: Global,
    chunk_shape: &[u64],
    metadata: &MetadataV3,
) -> Result<ShardingConfiguration, OpenError>
    ensures read { Opens sharding_seen result (or_refused plugin_create
        (sharding_said chunk_shape.now (extension_seen metadata.now).configuration)) }
    ensures cut { IfOk result (λ read.
        are_inner_lengths chunk_shape.now (sharding_seen read).inner_shape ≡ true) }
{
    match read_sharding(alloc, chunk_shape, metadata) {
        Ok(read) => Ok(read),
        Err(error) => Err(not_configured(error)),
    }
}

// The codec of shards for chunks of a shape, with the codecs inside by their names.
#[tactic(auto, using(crate::proofs::OpeningLaws::fails_after))]
fn sharding_by(
    alloc: Global,
    chunk_shape: &[u64],
    metadata: &MetadataV3,
    registry: &Registry<CodecKind>,
) -> Result<InnerCodecs, OpenError>
    ensures { Opens codecs_seen result (sharding_by chunk_shape.now (registry_of registry.now)
        (extension_seen metadata.now)) }
{
    let read = configuration_of(alloc, chunk_shape, metadata)?;
    let codecs = codecs_by(alloc, chunk_shape, &read.codecs, registry)?;
    let chunk_shape = chunk_shape.to_vec(alloc)?;
    Ok(InnerCodecs {
        chunk_shape,
        inner_shape: read.inner_shape,
        codecs,
        checked: read.checked,
    })
}

/// A codec of a document by its name, for chunks of a shape.
///
/// # Errors
/// `PluginUnsupportedError` or `PluginCreateError`, of it or of a codec inside; or `OutOfMemory`.
#[tactic(auto, using(crate::proofs::OpeningLaws::fails_after))]
pub(crate) fn document_codec(
    alloc: Global,
    chunk_shape: &[u64],
    metadata: &MetadataV3,
    registry: &Registry<CodecKind>,
) -> Result<MadeCodec, OpenError>
    ensures { Opens made_codec_seen result (document_codec chunk_shape.now
        (registry_of registry.now)
        (extension_seen metadata.now)) }
{
    if metadata.name() == "sharding_indexed" {
        let shard = sharding_by(alloc, chunk_shape, metadata, registry)?;
        return Ok(MadeCodec::Sharding(shard));
    }
    let codec = codec_at(alloc, chunk_shape, metadata, registry)?;
    Ok(MadeCodec::Other(codec))
}

/// The codecs of a document in its order, for chunks of a shape.
///
/// # Errors
/// `PluginUnsupportedError` or `PluginCreateError` of the first that is refused, or `OutOfMemory`.
pub(crate) fn document_codecs(
    alloc: Global,
    chunk_shape: &[u64],
    extensions: &[MetadataV3],
    registry: &Registry<CodecKind>,
) -> Result<Vec<MadeCodec>, OpenError>
    ensures { Opens (λ v. map made_codec_seen v.items) result (document_codecs chunk_shape.now
        (registry_of registry.now) (extensions_seen extensions.now)) }
{
    let mut codecs = Vec::with_capacity(alloc, extensions.len())?;
    for extension in extensions {
        match document_codec(alloc, chunk_shape, extension, registry) {
            Ok(codec) => codecs.push(codec)?,
            Err(error) => return Err(error),
        }
    }
    Ok(codecs)
}

/// What the codec of shards has inside, if a codec is that one.
///
/// # Errors
/// `ChainOrder`.
pub(crate) fn sharding_in(codec: &MadeCodec) -> Result<&InnerCodecs, OpenError>
    ensures { Opens (λ shard. codecs_seen shard.now) result
        (or_refused chain_order (only_sharding (made_codec_seen codec.now ∷ []))) }
{
    match codec {
        MadeCodec::Sharding(shard) => Ok(shard),
        MadeCodec::Other(_) => Err(OpenError::ChainOrder),
    }
}

/// What the codec of shards has inside, if it is there once and nothing else is.
///
/// # Errors
/// `ChainOrder`.
pub(crate) fn only_sharding(codecs: &[MadeCodec]) -> Result<&InnerCodecs, OpenError>
    ensures { Opens (λ shard. codecs_seen shard.now) result
        (or_refused chain_order (only_sharding (map made_codec_seen codecs.now))) }
{
    match codecs {
        [codec] => sharding_in(codec),
        _ => Err(OpenError::ChainOrder),
    }
}
