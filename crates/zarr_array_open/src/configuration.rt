//! The configuration of the codec `sharding_indexed`, read.
//!
//! See <https://zarr-specs.readthedocs.io/en/latest/v3/codecs/sharding-indexed/index.html>.

ghost use Rattle.std.specs.Prelude.{◌≡◌, true, IfOk, option_map};
ghost use Rattle.serde_json.specs.View.{view, members_view};
ghost use Rattle.zarrs_codec_traits.specs.Prelude.{Reads, extension_seen, extensions_seen};
ghost use Rattle.zarr_basics.specs.Lengths.{nonzeros};
ghost use Rattle.zarr_array_open.specs.Sharding.{is_sharding_key, has_only_sharding_keys, expect, at_end, are_inner_lengths, inner_shape_in, inner_codecs_in, index_codecs_in, sharding_members, sharding_in};
ghost use Rattle.zarr_array_open.specs.Configuration.{sharding_seen};

use crate::index_codecs::read_checked;
use crate::inner_shape::inner_lengths;
use serde_json::{Map, Value};
use std::alloc::Global;
use zarrs_array_subset::ChunkShape;
use zarrs_metadata_parts::fields::required_part;
use zarrs_metadata_parts::json::{expect_text, member, read_whole_numbers, required};
use zarrs_metadata_parts::making::configured;
use zarrs_metadata_parts::{MetadataError, MetadataV3, Part};

/// How a chunk keeps inner chunks, by a configuration.
#[derive(Drop)]
pub(crate) struct ShardingConfiguration {
    /// The lengths of an inner chunk.
    pub(crate) inner_shape: ChunkShape,
    /// The codecs of an inner chunk.
    pub(crate) codecs: Vec<MetadataV3>,
    /// Whether the index has a CRC-32C behind it.
    pub(crate) checked: bool,
}

// Whether a configuration may have this key.
fn is_sharding_key(key: &str) -> bool
    ensures { result ≡ is_sharding_key key.now }
{
    match key {
        "chunk_shape" | "codecs" | "index_codecs" | "index_location" => true,
        _ => false,
    }
}

// Whether all keys are those of a configuration.
fn has_only_sharding_keys(members: &Map<String, Value>) -> bool
    ensures { result ≡ has_only_sharding_keys (members_view members.now.entries) }
{
    for (key, _value) in members.iter() {
        if !is_sharding_key(key.as_str()) {
            return false;
        }
    }
    true
}

// That all keys are those of a configuration.
fn expect_keys(members: &Map<String, Value>) -> Result<(), MetadataError>
    ensures { Reads (λ _. tt) result
        (expect (has_only_sharding_keys (members_view members.now.entries))) }
{
    if has_only_sharding_keys(members) {
        Ok(())
    } else {
        Err(MetadataError::InvalidMetadata)
    }
}

// That the index stands at the end, where anything is said of its place.
fn expect_end(location: Option<&Value>) -> Result<(), MetadataError>
    ensures { Reads (λ _. tt) result (at_end (option_map (λ v. view v.now) location.entry)) }
{
    match location {
        Some(location) => expect_text(location, "end"),
        None => Ok(()),
    }
}

// The shape of inner chunks.
#[tactic(auto, unfolding(crate::specs::Sharding::inner_shape_in))]
fn read_inner_shape(
    alloc: Global,
    chunk_shape: &[u64],
    members: &Map<String, Value>,
) -> Result<ChunkShape, MetadataError>
    ensures reads { Reads (λ v. nonzeros v.items) result
        (inner_shape_in chunk_shape.now (members_view members.now.entries)) }
    ensures cut { IfOk result (λ v. are_inner_lengths chunk_shape.now (nonzeros v.items) ≡ true) }
{
    let lengths = read_whole_numbers(alloc, required(members, "chunk_shape")?)?;
    inner_lengths(alloc, chunk_shape, &lengths)
}

// The codecs of an inner chunk.
#[tactic(auto, unfolding(crate::specs::Sharding::inner_codecs_in))]
fn read_inner_codecs(
    alloc: Global,
    members: &Map<String, Value>,
) -> Result<Vec<MetadataV3>, MetadataError>
    ensures { Reads (λ v. extensions_seen v.items) result
        (inner_codecs_in (members_view members.now.entries)) }
{
    required_part(alloc, members, "codecs")
}

// Whether the index has a CRC-32C behind it.
#[tactic(auto, unfolding(crate::specs::Sharding::index_codecs_in))]
fn read_index_codecs(alloc: Global, members: &Map<String, Value>) -> Result<bool, MetadataError>
    ensures { Reads (λ checked. checked) result
        (index_codecs_in (members_view members.now.entries)) }
{
    let codecs: Vec<MetadataV3> = Part::read(alloc, required(members, "index_codecs")?)?;
    read_checked(&codecs)
}

// What the members of a configuration say for chunks of a shape.
#[tactic(auto, unfolding(crate::specs::Sharding::sharding_members))]
fn read_members(
    alloc: Global,
    chunk_shape: &[u64],
    members: &Map<String, Value>,
) -> Result<ShardingConfiguration, MetadataError>
    ensures reads { Reads sharding_seen result
        (sharding_members chunk_shape.now (members_view members.now.entries)) }
    ensures cut { IfOk result (λ read.
        are_inner_lengths chunk_shape.now (sharding_seen read).inner_shape ≡ true) }
{
    let inner_shape = read_inner_shape(alloc, chunk_shape, members)?;
    let codecs = read_inner_codecs(alloc, members)?;
    let checked = read_index_codecs(alloc, members)?;
    Ok(ShardingConfiguration {
        inner_shape,
        codecs,
        checked,
    })
}

/// What the configuration of an extension says for chunks of a shape.
///
/// # Errors
/// `InvalidMetadata` exactly where it is none of `sharding_indexed` for these chunks; or where memory runs out.
#[tactic(auto, unfolding(crate::specs::Sharding::sharding_in))]
pub(crate) fn read_sharding(
    alloc: Global,
    chunk_shape: &[u64],
    metadata: &MetadataV3,
) -> Result<ShardingConfiguration, MetadataError>
    ensures reads { Reads sharding_seen result
        (sharding_in chunk_shape.now (extension_seen metadata.now).configuration) }
    ensures cut { IfOk result (λ read.
        are_inner_lengths chunk_shape.now (sharding_seen read).inner_shape ≡ true) }
{
    let members = configured(metadata)?.as_map();
    expect_keys(members)?;
    expect_end(member(members, "index_location"))?;
    read_members(alloc, chunk_shape, members)
}
