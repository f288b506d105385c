//! A region of a chunk, by all of its value.

ghost use Rattle.std.specs.Prelude.{◌≡◌, ◌==◌, ◌&&◌, is_some, true, false, List, length, Option, Some, None, IsSome, IfOk};
ghost use Rattle.zarrs_codec.specs.Prelude.{has_long_element, Element, ends_within};
ghost use Rattle.zarrs_codec.specs.Prelude.{region as box_of, value_bytes, raw_of, options_of};
ghost use Rattle.zarr_codec_chain.specs.Chain.{IsServedChain, first_level, decoded, HasFill};
ghost use Rattle.zarr_chunks.specs.Fetch.{chain_content, FailsByContent};
ghost use Rattle.zarr_chunks.specs.Regions.{GivesRegion, gives_chunk, fetched_bytes, is_whole_chunk};
ghost use Rattle.zarr_chunks.specs.Seen.{chain_seen, CanRead, FetchesBy};
ghost use Rattle.zarr_codec_chain.specs.Answers.{GivesPart, AreBelow, FailsToDecode};

use crate::fetched::Fetched;
use crate::region::{blank_region, bottom_part};
use std::alloc::Global;
use zarr_codec_chain::{ChunkLevels, CodecChain};
use zarrs_array_subset::ArraySubset;
use zarrs_codec_array_bytes::ArrayBytes;
use zarrs_codec_error::{CodecError, CodecOptions};
use zarrs_codec_traits::{
    ArrayToArrayCodecTraits, ArrayToBytesCodecTraits, BytesToBytesCodecTraits,
};
use zarrs_storage::{Store, StoreKey};

// The elements of a region of a chunk, by its value, with the boxes that the region is taken down to: out of all that
// the value decodes to at the bottom those of the last box, which come up the levels.
fn region_of_value<
    A: ArrayToArrayCodecTraits,
    B: ArrayToBytesCodecTraits,
    C: BytesToBytesCodecTraits,
>(
    chain: &CodecChain<A, B, C>,
    levels: &ChunkLevels,
    alloc: Global,
    value: Vec<u8>,
    boxes: &[ArraySubset],
    region: &ArraySubset,
    options: &CodecOptions,
) -> Result<ArrayBytes<'static>, CodecError>
    requires served { IsServedChain A.meaning A.unserved B.unserved chain.now levels.now }
    requires inside { ends_within (box_of region.now) (first_level levels.now).shape ≡ true }
    requires boxes { AreBelow A.region_below chain.now levels.now region.now boxes.now }
    ensures elements { (list : List Element) → decoded A.meaning B.meaning C.meaning chain.now
        levels.now (options_of options.now) value.items ≡ Some list
        → IfOk result (GivesPart (first_level levels.now) (box_of region.now) list) }
    ensures decodes { IfOk result (λ _. IsSome (decoded A.meaning B.meaning C.meaning chain.now
        levels.now (options_of options.now) value.items)) }
    ensures failed { FailsToDecode A.meaning B.meaning B.says C.meaning C.says chain.now levels.now
        (options_of options.now) value.items result }
    ensures short { IfOk result (λ v. has_long_element (raw_of v) ≡ false) }
{
    let below = chain.decode_bottom(alloc, levels, value, options)?;
    let part = bottom_part(chain, levels, alloc, &below, boxes, region)?;
    chain.decode_boxes_up(alloc, levels, part, boxes, region, options)
}

// Elements of a chunk for a region of it, by its value: all of them where the chain has no array-to-array codec, and
// else those of the region.
fn fetched_of_value<
    A: ArrayToArrayCodecTraits,
    B: ArrayToBytesCodecTraits,
    C: BytesToBytesCodecTraits,
>(
    chain: &CodecChain<A, B, C>,
    levels: &ChunkLevels,
    alloc: Global,
    value: Vec<u8>,
    boxes: &[ArraySubset],
    region: &ArraySubset,
    options: &CodecOptions,
) -> Result<Fetched, CodecError>
    requires served { IsServedChain A.meaning A.unserved B.unserved chain.now levels.now }
    requires inside { ends_within (box_of region.now) (first_level levels.now).shape ≡ true }
    requires boxes { AreBelow A.region_below chain.now levels.now region.now boxes.now }
    ensures elements { (list : List Element) → decoded A.meaning B.meaning C.meaning chain.now
        levels.now (options_of options.now) value.items ≡ Some list
        → IfOk result (GivesRegion (first_level levels.now) (box_of region.now) list) }
    ensures decodes { IfOk result (λ _. IsSome (decoded A.meaning B.meaning C.meaning chain.now
        levels.now (options_of options.now) value.items)) }
    ensures failed { FailsToDecode A.meaning B.meaning B.says C.meaning C.says chain.now levels.now
        (options_of options.now) value.items result }
    ensures short { IfOk result (λ v. has_long_element (fetched_bytes v) ≡ false) }
    ensures which { IfOk result
        (λ v. gives_chunk v ≡ (length chain.now.array_codecs.items == 0)) }
{
    if chain.array_codecs.is_empty() {
        let chunk = chain.decode(alloc, levels, value, options)?;
        Ok(Fetched::Chunk(chunk))
    } else {
        let part = region_of_value(chain, levels, alloc, value, boxes, region, options)?;
        Ok(Fetched::Region(part))
    }
}

// The same by what stands under its key; where nothing does, the region's elements are the fill value.
fn fetched_of<A: ArrayToArrayCodecTraits, B: ArrayToBytesCodecTraits, C: BytesToBytesCodecTraits>(
    chain: &CodecChain<A, B, C>,
    levels: &ChunkLevels,
    alloc: Global,
    value: Option<Vec<u8>>,
    boxes: &[ArraySubset],
    region: &ArraySubset,
    options: &CodecOptions,
) -> Result<Fetched, CodecError>
    requires served { IsServedChain A.meaning A.unserved B.unserved chain.now levels.now }
    requires fill { HasFill levels.now }
    requires inside { ends_within (box_of region.now) (first_level levels.now).shape ≡ true }
    requires boxes { AreBelow A.region_below chain.now levels.now region.now boxes.now }
    ensures elements { (list : List Element) → chain_content A.meaning B.meaning C.meaning chain.now
        levels.now (options_of options.now) (value_bytes value) ≡ Some list
        → IfOk result (GivesRegion (first_level levels.now) (box_of region.now) list) }
    ensures decodes { IfOk result (λ _. IsSome (chain_content A.meaning B.meaning C.meaning
        chain.now levels.now (options_of options.now) (value_bytes value))) }
    ensures failed { FailsByContent A.meaning B.meaning B.says C.meaning C.says chain.now levels.now
        (options_of options.now) (value_bytes value) result }
    ensures short { IfOk result (λ v. has_long_element (fetched_bytes v) ≡ false) }
    ensures which { IfOk result (λ v. gives_chunk v
        ≡ ((length chain.now.array_codecs.items == 0) && is_some (value_bytes value))) }
{
    match value {
        Some(value) => fetched_of_value(chain, levels, alloc, value, boxes, region, options),
        None => {
            let part = blank_region(levels, alloc, region)?;
            Ok(Fetched::Region(part))
        }
    }
}

/// Elements of a chunk for a region of it, with the boxes that the region is taken down to, by one reading call for all
/// of its value.
pub(crate) fn fetch_by_value<
    S: Store,
    A: ArrayToArrayCodecTraits,
    B: ArrayToBytesCodecTraits,
    C: BytesToBytesCodecTraits,
>(
    chain: &CodecChain<A, B, C>,
    levels: &ChunkLevels,
    alloc: Global,
    key: &StoreKey,
    boxes: &[ArraySubset],
    region: &ArraySubset,
    store: &mut S,
    options: &CodecOptions,
) -> Result<Fetched, CodecError>
    requires can { CanRead (chain_seen A.ArrayCodecTraits.own A.ArrayToArrayCodecTraits.own
        B.ArrayCodecTraits.own B.ArrayToBytesCodecTraits.own C.BytesToBytesCodecTraits.own
        chain.now levels.now) (box_of region.now) }
    requires boxes { AreBelow A.region_below chain.now levels.now region.now boxes.now }
    requires part { is_whole_chunk (first_level levels.now) (box_of region.now) ≡ false }
    ensures fetches { FetchesBy (chain_seen A.ArrayCodecTraits.own A.ArrayToArrayCodecTraits.own
        B.ArrayCodecTraits.own B.ArrayToBytesCodecTraits.own C.BytesToBytesCodecTraits.own
        chain.now levels.now) (options_of options.now) (box_of region.now) None key.now
        (S.shown store.old) (S.shown store.new) result }
    ensures kept { S.kept store.old store.new }
{
    let value = store.get(alloc, key)?;
    fetched_of(chain, levels, alloc, value, boxes, region, options)
}
