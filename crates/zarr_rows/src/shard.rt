//! Rows of sharded chunks: what the metadata of their codec says, and regions that are read of their values.

use hex::{decode, encode};
use std::alloc::{AllocError, Global};
use std::num::NonZeroU64;
use zarr_array::Command;
use zarr_array_open::{OpenError, Shard, builtin_registries};
use zarr_cli::command_line;
use zarr_shard_codec::ShardCodec;
use zarrs_array_subset::ArraySubset;
use zarrs_chunk_grid::ChunkGridTraits;
use zarrs_codec_array_bytes::ArrayBytes;
use zarrs_codec_array_bytes::array_bytes::bytes_in;
use zarrs_codec_error::CodecOptions;
use zarrs_data_type::{DataType, FillValue};
use zarrs_metadata::MetadataV3;
use zarrs_storage::{MemoryStore, Store, StoreKey};

// What a text has before and behind its first space.
fn cut(text: &str) -> (&str, &str) {
    text.split_once(' ').unwrap_or((text, ""))
}

// The box that a text says, or none.
fn box_in(alloc: Global, text: &str) -> Result<Option<ArraySubset>, AllocError> {
    let line = format!(in alloc; "read {text}")?;
    match command_line(alloc, line.as_str(), &DataType::UInt8)? {
        Some(Command::Read(region)) => Ok(Some(region)),
        _ => Ok(None),
    }
}

// The lengths of the chunk that a text says as a box from 0, or none where it says no box or a length is 0.
fn lengths_in(alloc: Global, text: &str) -> Result<Option<Vec<NonZeroU64>>, AllocError> {
    let Some(region) = box_in(alloc, text)? else {
        return Ok(None);
    };
    let mut lengths = Vec::new(alloc);
    for length in region.shape() {
        let Some(length) = NonZeroU64::new(*length) else {
            return Ok(None);
        };
        lengths.push(length)?;
    }
    Ok(Some(lengths))
}

// The bytes that stand behind the first letter of a text, or none where it says no bytes.
fn bytes_of(alloc: Global, text: &str) -> Option<Vec<u8>> {
    decode(alloc, text.strip_prefix('h')?).ok()
}

fn metadata_of(alloc: Global, text: &str) -> Result<MetadataV3, OpenError> {
    match MetadataV3::try_from_text(alloc, text) {
        Ok(metadata) => Ok(metadata),
        Err(_) => Err(OpenError::InvalidJson),
    }
}

fn shard_of(
    alloc: Global,
    shape: &[NonZeroU64],
    fill: Vec<u8>,
    metadata: &str,
) -> Result<Shard, OpenError> {
    let registries = builtin_registries(alloc)?;
    let metadata = metadata_of(alloc, metadata)?;
    let fill = FillValue::new(fill);
    Shard::for_chunk(
        alloc,
        &metadata,
        shape,
        &DataType::UInt16,
        &fill,
        &registries,
    )
}

/// How chunks of numbers of two bytes keep inner chunks, by a line of their box, their fill value and the metadata of
/// their codec: how many in each dimension, and whether their index has a number behind it. Or the name of the refusal.
pub fn chunk_line(alloc: Global, line: &str) -> Result<String, AllocError> {
    let (shape, rest) = cut(line);
    let (fill, metadata) = cut(rest);
    let (Some(shape), Some(fill)) = (lengths_in(alloc, shape)?, bytes_of(alloc, fill)) else {
        return "no chunk".to_string(alloc);
    };
    match shard_of(alloc, &shape, fill, metadata) {
        Ok(shard) => {
            let counts = shard.inner.grid().grid_shape();
            format!(in alloc; "{counts:?} {}", shard.checked)
        }
        Err(error) => format!(in alloc; "{error:?}"),
    }
}

// The codec of chunks of numbers of one byte, whose fill value is 0.
fn codec_of(alloc: Global, shape: &[NonZeroU64], metadata: &str) -> Result<ShardCodec, OpenError> {
    let registries = builtin_registries(alloc)?;
    let metadata = metadata_of(alloc, metadata)?;
    let fill = FillValue::new(vec![in alloc; 0]?);
    ShardCodec::for_chunk(
        alloc,
        &metadata,
        shape,
        &DataType::UInt8,
        &fill,
        &registries,
    )
}

// A store with the value that a text says under a key, or with none for `-`; or nothing where it says neither.
fn store_of(alloc: Global, key: &StoreKey, value: &str) -> Result<Option<MemoryStore>, AllocError> {
    let mut store = MemoryStore::new(alloc);
    if value == "-" {
        return Ok(Some(store));
    }
    let Some(value) = bytes_of(alloc, value) else {
        return Ok(None);
    };
    match store.set(alloc, key, &value) {
        Ok(()) => Ok(Some(store)),
        Err(_) => Err(AllocError),
    }
}

// The numbers of a region, or why they are not read.
fn read_line(
    alloc: Global,
    codec: &ShardCodec,
    store: &mut MemoryStore,
    key: &StoreKey,
    region: &ArraySubset,
    options: &CodecOptions,
) -> Result<String, AllocError> {
    if !region.inbounds_shape(codec.shape()) {
        return "outside".to_string(alloc);
    }
    match codec.read_region(alloc, store, key, region, options) {
        Ok(ArrayBytes::Fixed(bytes)) => {
            let digits = encode(alloc, bytes_in(&bytes))?;
            format!(in alloc; "h{}", digits.as_str())
        }
        Ok(_) => "elements of another kind".to_string(alloc),
        Err(error) => format!(in alloc; "{error}"),
    }
}

// The same of a region that a text says, or none, and how many calls and bytes that took.
fn region_line(
    alloc: Global,
    codec: &ShardCodec,
    value: &str,
    region: Option<ArraySubset>,
    validate: bool,
) -> Result<String, AllocError> {
    let (Ok(key), Some(region)) = (StoreKey::new("c/0".to_string(alloc)?), region) else {
        return "no box".to_string(alloc);
    };
    let Some(mut store) = store_of(alloc, &key, value)? else {
        return "no value".to_string(alloc);
    };
    let options = CodecOptions::default().with_validate_checksums(validate);
    let told = read_line(alloc, codec, &mut store, &key, &region, &options)?;
    format!(in alloc; "{told} asks {} taken {}", store.asks(), store.taken())
}

// What is read by a line of a value, a region, and `unchecked` where the number of the index is not tested.
fn told(alloc: Global, codec: &ShardCodec, line: &str) -> Result<String, AllocError> {
    let (value, rest) = cut(line);
    let (region, check) = cut(rest);
    let region = box_in(alloc, region)?;
    region_line(alloc, codec, value, region, check != "unchecked")
}

/// What is read of regions of chunks of numbers of one byte whose fill value is 0, by a first line of the chunks' box
/// and the metadata of their codec, and a line of each region: a value, or `-` for none, the region, and `unchecked`
/// where the number of the index is not tested.
pub fn region_lines(alloc: Global, text: &str) -> Result<String, AllocError> {
    let (first, lines) = text.split_once('\n').unwrap_or((text, ""));
    let (shape, metadata) = cut(first);
    let Some(shape) = lengths_in(alloc, shape)? else {
        return "no chunk".to_string(alloc);
    };
    let codec = match codec_of(alloc, &shape, metadata) {
        Ok(codec) => codec,
        Err(error) => return format!(in alloc; "{error:?}"),
    };
    let mut out = String::new(alloc);
    for line in lines.split_terminator('\n') {
        let end = if out.is_empty() { "" } else { "\n" };
        let told = told(alloc, &codec, line)?;
        let text = format!(in alloc; "{end}> {line}\n{told}")?;
        out.push_str(text.as_str())?;
    }
    Ok(out)
}
