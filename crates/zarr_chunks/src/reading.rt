//! A region of a chunk in a store.

ghost use Rattle.std.specs.Prelude.{◌≡◌, ◌==◌, ◌<◌, ◌+◌, ◌^◌, true, false};
ghost use Rattle.zarr_codec_chain.specs.Prelude.{count, count_of, ends_within, region as box_of};
ghost use Rattle.zarr_codec_chain.specs.Prelude.{lengths, options_of, first_level};
ghost use Rattle.zarr_chunks.specs.Regions.{is_whole_chunk, bottom_request};
ghost use Rattle.zarr_chunks.specs.Seen.{chain_seen, CanRead, FetchesBy, FetchesPart, ReadsPart};

use crate::fetched::Fetched;
use crate::fetching::fetch;
use crate::parts::{byte_request, fetch_by_parts};
use crate::region::part_of;
use crate::value::fetch_by_value;
use std::alloc::Global;
use std::num::NonZeroU64;
use zarr_codec_chain::{ChunkLevels, CodecChain};
use zarrs_array_subset::ArraySubset;
use zarrs_codec_array_bytes::ArrayBytes;
use zarrs_codec_error::{CodecError, CodecOptions};
use zarrs_codec_traits::{
    ArrayToArrayCodecTraits, ArrayToBytesCodecTraits, BytesToBytesCodecTraits, num_elements,
};
use zarrs_storage::{Store, StoreKey};

// Whether a region inside a shape is all of it.
fn is_whole(region: &ArraySubset, shape: &[NonZeroU64]) -> bool
    requires few { count_of (lengths shape.now) + 1 < 2 ^ 64 }
    requires inside { ends_within (box_of region.now) (lengths shape.now) ≡ true }
    ensures { result ≡ (count (box_of region.now) == count_of (lengths shape.now)) }
{
    region.num_elements() == num_elements(shape)
}

// Elements of a chunk for a region that is not all of it.
fn fetch_part<
    S: Store,
    A: ArrayToArrayCodecTraits,
    B: ArrayToBytesCodecTraits,
    C: BytesToBytesCodecTraits,
>(
    chain: &CodecChain<A, B, C>,
    levels: &ChunkLevels,
    alloc: Global,
    key: &StoreKey,
    region: &ArraySubset,
    store: &mut S,
    options: &CodecOptions,
) -> Result<Fetched, CodecError>
    requires can { CanRead (chain_seen A.ArrayCodecTraits.own A.ArrayToArrayCodecTraits.own
        B.ArrayCodecTraits.own B.ArrayToBytesCodecTraits.own C.BytesToBytesCodecTraits.own
        chain.now levels.now) (box_of region.now) }
    requires part { is_whole_chunk (first_level levels.now) (box_of region.now) ≡ false }
    ensures fetches { FetchesBy (chain_seen A.ArrayCodecTraits.own A.ArrayToArrayCodecTraits.own
        B.ArrayCodecTraits.own B.ArrayToBytesCodecTraits.own C.BytesToBytesCodecTraits.own
        chain.now levels.now) (options_of options.now) (box_of region.now)
        (bottom_request B.request A.region_below chain.now levels.now (box_of region.now)) key.now
        (S.shown store.old) (S.shown store.new) result }
    ensures kept { S.kept store.old store.new }
{
    let boxes = chain.boxes_down(alloc, levels, region)?;
    match byte_request(chain, levels, alloc, &boxes, region)? {
        Some(ranges) => {
            let part = fetch_by_parts(
                chain, levels, alloc, key, &ranges, &boxes, region, store, options,
            )?;
            Ok(Fetched::Region(part))
        }
        None => fetch_by_value(chain, levels, alloc, key, &boxes, region, store, options),
    }
}

/// Elements of a chunk for a region of it, and the fill value where its key is absent: those of the region, which is
/// taken down the levels of the chain and comes up again; or all elements, where the region is all of the chunk, or
/// where a value is there, the array-to-bytes codec names no ranges, and no array-to-array codec stands in the chain.
/// The region lies inside the chunk.
///
/// One reading call, or none where memory runs out before it. Where the region is not all of the chunk, the
/// array-to-bytes codec is asked which ranges of its bytes hold the region. Where it names some, these are read alone;
/// where bytes-to-bytes codecs stand in the chain, they are taken out of what these give of the whole value. On Ok they
/// lie within that, and what lies outside of them is not noticed.
///
/// # Errors
/// As those of `fetch`; or [`CodecError::InvalidByteRangeError`] of the first such range that does not lie within the
/// bytes.
pub fn fetch_region<
    S: Store,
    A: ArrayToArrayCodecTraits,
    B: ArrayToBytesCodecTraits,
    C: BytesToBytesCodecTraits,
>(
    chain: &CodecChain<A, B, C>,
    levels: &ChunkLevels,
    alloc: Global,
    key: &StoreKey,
    region: &ArraySubset,
    store: &mut S,
    options: &CodecOptions,
) -> Result<Fetched, CodecError>
    requires { CanRead (chain_seen A.ArrayCodecTraits.own A.ArrayToArrayCodecTraits.own
        B.ArrayCodecTraits.own B.ArrayToBytesCodecTraits.own C.BytesToBytesCodecTraits.own
        chain.now levels.now) (box_of region.now) }
    ensures fetches { FetchesPart (chain_seen A.ArrayCodecTraits.own A.ArrayToArrayCodecTraits.own
        B.ArrayCodecTraits.own B.ArrayToBytesCodecTraits.own C.BytesToBytesCodecTraits.own
        chain.now levels.now) (options_of options.now) (box_of region.now) key.now
        (S.shown store.old) (S.shown store.new) result }
    ensures kept { S.kept store.old store.new }
{
    if is_whole(region, levels.shape()) {
        let chunk = fetch(chain, levels, alloc, key, store, options)?;
        return Ok(Fetched::Chunk(chunk));
    }
    fetch_part(chain, levels, alloc, key, region, store, options)
}

/// The elements of a region of a chunk, and the fill value where its key is absent. The region lies inside the chunk.
/// What is read is as of `fetch_region`.
///
/// # Errors
/// As those of `fetch_region`.
pub fn read<
    S: Store,
    A: ArrayToArrayCodecTraits,
    B: ArrayToBytesCodecTraits,
    C: BytesToBytesCodecTraits,
>(
    chain: &CodecChain<A, B, C>,
    levels: &ChunkLevels,
    alloc: Global,
    key: &StoreKey,
    region: &ArraySubset,
    store: &mut S,
    options: &CodecOptions,
) -> Result<ArrayBytes<'static>, CodecError>
    requires { CanRead (chain_seen A.ArrayCodecTraits.own A.ArrayToArrayCodecTraits.own
        B.ArrayCodecTraits.own B.ArrayToBytesCodecTraits.own C.BytesToBytesCodecTraits.own
        chain.now levels.now) (box_of region.now) }
    ensures reads { ReadsPart (chain_seen A.ArrayCodecTraits.own A.ArrayToArrayCodecTraits.own
        B.ArrayCodecTraits.own B.ArrayToBytesCodecTraits.own C.BytesToBytesCodecTraits.own
        chain.now levels.now) (options_of options.now) (box_of region.now) key.now
        (S.shown store.old) (S.shown store.new) result }
    ensures kept { S.kept store.old store.new }
{
    match fetch_region(chain, levels, alloc, key, region, store, options) {
        Ok(Fetched::Chunk(whole)) => part_of(levels, alloc, &whole, region),
        Ok(Fetched::Region(part)) => Ok(part),
        Err(error) => Err(error),
    }
}
