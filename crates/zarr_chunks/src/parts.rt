//! A region of a chunk, by the ranges that the array-to-bytes codec asks for.

ghost use Rattle.std.specs.Prelude.{◌≡◌, ◌≤◌, ◌⊎◌, ℕ, true, false, List, Option, Some, IsSome, IfOk, IfErr, OnOk, MatchResult};
ghost use Rattle.zarr_codec_chain.specs.Prelude.{decode_bytes, has_long_element, counted, Element};
ghost use Rattle.zarr_codec_chain.specs.Prelude.{ends_within, region as box_of, raw_of, list_at};
ghost use Rattle.zarr_codec_chain.specs.Prelude.{at_box, IsHandleError, bottom_level, steps};
ghost use Rattle.zarr_codec_chain.specs.Prelude.{IsServedChain, first_level, decoded, bottom_box};
ghost use Rattle.zarr_codec_chain.specs.Prelude.{byte_codecs, bytes_says};
ghost use Rattle.zarrs_codec.specs.Prelude.{parts_of, SameContent, part_bytes, taken_of};
ghost use Rattle.zarrs_codec_error.specs.declared.error.CodecError.TheVariants as codec;
ghost use Rattle.zarrs_codec_traits.specs.Parts.{ArePartsOf, IsAnswer};
ghost use Rattle.zarrs_codec_traits.specs.Views.{options_of, asked_ranges};
ghost use Rattle.zarr_chunks.specs.Fetch.{chunk_says};
ghost use Rattle.zarr_chunks.specs.Seen.{chain_seen, CanRead, ReadsChunkBy};
ghost use Rattle.zarr_chunks.specs.Regions.{bottom_request, stored_request, given_bytes, AreGivenParts, held_parts_say, given_through, WhereParts, GivesByParts, FailsByParts};
ghost use Rattle.zarr_codec_chain.specs.Answers.{GivesPart, AreBelow, FailsToDecode};

use crate::region::blank_region;
use std::alloc::Global;
use zarr_codec_chain::{ChunkLevels, CodecChain, decode_through, last_or};
use zarrs_array_subset::ArraySubset;
use zarrs_codec_array_bytes::ArrayBytes;
use zarrs_codec_error::{CodecError, CodecOptions};
use zarrs_codec_traits::{
    ArrayToArrayCodecTraits, ArrayToBytesCodecTraits, BytesToBytesCodecTraits, parts_in_memory,
};
use zarrs_storage::{ByteRange, Store, StoreKey};

/// The ranges that the array-to-bytes codec asks for to read a region of a chunk, with the boxes that the region is
/// taken down to, and [`None`] where it needs all of its bytes.
///
/// # Errors
/// [`CodecError::OutOfMemory`].
pub(crate) fn byte_request<
    A: ArrayToArrayCodecTraits,
    B: ArrayToBytesCodecTraits,
    C: BytesToBytesCodecTraits,
>(
    chain: &CodecChain<A, B, C>,
    levels: &ChunkLevels,
    alloc: Global,
    boxes: &[ArraySubset],
    region: &ArraySubset,
) -> Result<Option<Vec<ByteRange>>, CodecError>
    requires served { IsServedChain A.meaning A.unserved B.unserved chain.now levels.now }
    requires inside { ends_within (box_of region.now) (first_level levels.now).shape ≡ true }
    requires boxes { AreBelow A.region_below chain.now levels.now region.now boxes.now }
    ensures { MatchResult result (λ r. asked_ranges r
        ≡ bottom_request B.request A.region_below chain.now levels.now (box_of region.now))
        (λ e. e ≡ codec.OutOfMemory) }
{
    let bottom = &levels.bottom;
    chain.to_bytes.byte_request(
        alloc,
        last_or(boxes, region),
        &bottom.shape,
        &bottom.data_type,
    )
}

// The ranges of what bytes-to-bytes codecs give of a value.
fn parts_through<C: BytesToBytesCodecTraits>(
    codecs: &[C],
    alloc: Global,
    value: Vec<u8>,
    ranges: &[ByteRange],
    options: &CodecOptions,
) -> Result<Vec<Vec<u8>>, CodecError>
    ensures value { IfOk result (λ parts. AreGivenParts ranges.now
        (given_through C.meaning (options_of options.now) codecs.now value.items)
        (Some (parts_of parts))) }
    ensures failed { IfErr result (λ e. (e ≡ codec.OutOfMemory) ⊎ held_parts_say ranges.now
        (given_through C.meaning (options_of options.now) codecs.now value.items)
        (bytes_says C.meaning C.says (options_of options.now) codecs.now value.items) e) }
{
    let bytes = decode_through(alloc, codecs, value, options)?;
    parts_in_memory(alloc, &bytes, ranges)
}

// The ranges of what the bytes-to-bytes codecs give of the value under a key, and none where it is absent: by one
// reading call for these ranges where there is no such codec, and else for all of the value.
fn fetch_parts<
    S: Store,
    A: ArrayToArrayCodecTraits,
    B: ArrayToBytesCodecTraits,
    C: BytesToBytesCodecTraits,
>(
    chain: &CodecChain<A, B, C>,
    levels: &ChunkLevels,
    alloc: Global,
    key: &StoreKey,
    ranges: &[ByteRange],
    store: &mut S,
    options: &CodecOptions,
) -> Result<Option<Vec<Vec<u8>>>, CodecError>
    ensures value { IfOk result (λ parts. AreGivenParts ranges.now (given_bytes C.meaning chain.now
        (options_of options.now) ((S.shown store.old).content key.now)) (part_bytes parts)) }
    ensures failed { let content = (S.shown store.old).content key.now in
        let under = options_of options.now in
        IfErr result (λ e. IsHandleError (S.shown store.old).faults (S.shown store.new).faults e
        ⊎ held_parts_say ranges.now (given_bytes C.meaning chain.now under content)
        (chunk_says B.says C.meaning C.says chain.now levels.now under content) e) }
    ensures same { SameContent (S.shown store.old) (S.shown store.new) }
    ensures asks { (S.shown store.new).asks ≡ counted (S.shown store.old).asks 1 }
    ensures taken { OnOk result ((S.shown store.new).taken ≡ counted (S.shown store.old).taken
        (taken_of (stored_request chain.now (Some ranges.now))
        ((S.shown store.old).content key.now))) }
    ensures later { (S.shown store.old).faults ≤ (S.shown store.new).faults }
    ensures kept { S.kept store.old store.new }
{
    if chain.byte_codecs.is_empty() {
        let parts = store.get_partial_many(alloc, key, ranges)?;
        return Ok(parts);
    }
    match store.get(alloc, key)? {
        Some(value) => {
            let parts = parts_through(&chain.byte_codecs, alloc, value, ranges, options)?;
            Ok(Some(parts))
        }
        None => Ok(None),
    }
}

// The elements of the box at the bottom that a region of a chunk needs, by the parts that were asked for.
fn bottom_of_parts<
    A: ArrayToArrayCodecTraits,
    B: ArrayToBytesCodecTraits,
    C: BytesToBytesCodecTraits,
>(
    chain: &CodecChain<A, B, C>,
    levels: &ChunkLevels,
    alloc: Global,
    parts: Vec<Vec<u8>>,
    boxes: &[ArraySubset],
    region: &ArraySubset,
    options: &CodecOptions,
) -> Result<ArrayBytes<'static>, CodecError>
    requires served { IsServedChain A.meaning A.unserved B.unserved chain.now levels.now }
    requires inside { ends_within (box_of region.now) (first_level levels.now).shape ≡ true }
    requires boxes { AreBelow A.region_below chain.now levels.now region.now boxes.now }
    requires answered { IsAnswer (bottom_request B.request A.region_below chain.now levels.now
        (box_of region.now)) (parts_of parts) }
    ensures value { GivesByParts (bottom_level levels.now)
        (bottom_box A.region_below (steps chain.now levels.now) (box_of region.now))
        (bottom_request B.request A.region_below chain.now levels.now (box_of region.now))
        (parts_of parts) (B.meaning chain.now.to_bytes (options_of options.now)) result }
    ensures failed { FailsByParts (bottom_level levels.now)
        (bottom_request B.request A.region_below chain.now levels.now (box_of region.now))
        (parts_of parts) (B.meaning chain.now.to_bytes (options_of options.now))
        (B.says chain.now.to_bytes (options_of options.now)) result }
    ensures valid { IfOk result (λ v. IsSome (list_at (at_box
        (bottom_box A.region_below (steps chain.now levels.now) (box_of region.now))
        (bottom_level levels.now)) (raw_of v))) }
    ensures short { IfOk result (λ v. has_long_element (raw_of v) ≡ false) }
{
    let bottom = &levels.bottom;
    chain.to_bytes.decode_parts(
        alloc,
        parts,
        last_or(boxes, region),
        &bottom.shape,
        &bottom.data_type,
        &bottom.fill_value,
        options,
    )
}

// The elements of a region of a chunk, by the parts that were asked for.
fn region_of_parts<
    A: ArrayToArrayCodecTraits,
    B: ArrayToBytesCodecTraits,
    C: BytesToBytesCodecTraits,
>(
    chain: &CodecChain<A, B, C>,
    levels: &ChunkLevels,
    alloc: Global,
    parts: Vec<Vec<u8>>,
    boxes: &[ArraySubset],
    region: &ArraySubset,
    options: &CodecOptions,
) -> Result<ArrayBytes<'static>, CodecError>
    requires served { IsServedChain A.meaning A.unserved B.unserved chain.now levels.now }
    requires inside { ends_within (box_of region.now) (first_level levels.now).shape ≡ true }
    requires boxes { AreBelow A.region_below chain.now levels.now region.now boxes.now }
    requires answered { IsAnswer (bottom_request B.request A.region_below chain.now levels.now
        (box_of region.now)) (parts_of parts) }
    ensures elements { let under = options_of options.now in
        (value bytes : List ℕ) (list : List Element)
        → decode_bytes (byte_codecs C.meaning under chain.now.byte_codecs.items) value ≡ Some bytes
        → ArePartsOf (bottom_request B.request A.region_below chain.now levels.now
        (box_of region.now)) bytes (parts_of parts)
        → decoded A.meaning B.meaning C.meaning chain.now levels.now under value ≡ Some list
        → IfOk result (GivesPart (first_level levels.now) (box_of region.now) list) }
    ensures failed { let under = options_of options.now in (value bytes : List ℕ)
        → decode_bytes (byte_codecs C.meaning under chain.now.byte_codecs.items) value ≡ Some bytes
        → WhereParts (bottom_request B.request A.region_below chain.now levels.now
        (box_of region.now)) bytes (parts_of parts) (FailsToDecode A.meaning B.meaning B.says
        C.meaning C.says chain.now levels.now under value result) }
    ensures valid { IfOk result (λ v. IsSome (list_at (at_box (box_of region.now)
        (first_level levels.now)) (raw_of v))) }
    ensures short { IfOk result (λ v. has_long_element (raw_of v) ≡ false) }
{
    let part = bottom_of_parts(chain, levels, alloc, parts, boxes, region, options)?;
    chain.decode_boxes_up(alloc, levels, part, boxes, region, options)
}

/// The elements of a region of a chunk, with the boxes that the region is taken down to, by the ranges that the
/// array-to-bytes codec asks for.
pub(crate) fn fetch_by_parts<
    S: Store,
    A: ArrayToArrayCodecTraits,
    B: ArrayToBytesCodecTraits,
    C: BytesToBytesCodecTraits,
>(
    chain: &CodecChain<A, B, C>,
    levels: &ChunkLevels,
    alloc: Global,
    key: &StoreKey,
    ranges: &[ByteRange],
    boxes: &[ArraySubset],
    region: &ArraySubset,
    store: &mut S,
    options: &CodecOptions,
) -> Result<ArrayBytes<'static>, CodecError>
    requires can { CanRead (chain_seen A.ArrayCodecTraits.own A.ArrayToArrayCodecTraits.own
        B.ArrayCodecTraits.own B.ArrayToBytesCodecTraits.own C.BytesToBytesCodecTraits.own
        chain.now levels.now) (box_of region.now) }
    requires boxes { AreBelow A.region_below chain.now levels.now region.now boxes.now }
    requires asked { bottom_request B.request A.region_below chain.now levels.now
        (box_of region.now) ≡ Some ranges.now }
    ensures reads { ReadsChunkBy (chain_seen A.ArrayCodecTraits.own A.ArrayToArrayCodecTraits.own
        B.ArrayCodecTraits.own B.ArrayToBytesCodecTraits.own C.BytesToBytesCodecTraits.own
        chain.now levels.now) (options_of options.now) (box_of region.now) (Some ranges.now)
        key.now (S.shown store.old) (S.shown store.new) result }
    ensures kept { S.kept store.old store.new }
{
    match fetch_parts(chain, levels, alloc, key, ranges, store, options)? {
        Some(parts) => region_of_parts(chain, levels, alloc, parts, boxes, region, options),
        None => blank_region(levels, alloc, region),
    }
}
