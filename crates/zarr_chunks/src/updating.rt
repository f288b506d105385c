//! A region of a chunk in a store, replaced.

ghost use Rattle.std.specs.Prelude.{◌≡◌, true, false, List, Some, MatchResult};
ghost use Rattle.zarr_codec_chain.specs.Prelude.{has_long_element, meaning, Element, kind_of};
ghost use Rattle.zarr_codec_chain.specs.Prelude.{count, count_of, ends_within, region as box_of};
ghost use Rattle.zarr_codec_chain.specs.Prelude.{type_of, raw_of, lengths, options_of, list_at};
ghost use Rattle.zarr_codec_chain.specs.Prelude.{at_box, IsFit, first_level, levels_list};
ghost use Rattle.zarr_codec_chain.specs.Prelude.{StaysShort};
ghost use Rattle.zarrs_codec_error.specs.declared.error.CodecError.TheVariants as codec;
ghost use Rattle.zarr_chunks.specs.Seen.{chain_seen, CanWrite, WritesRegion};
ghost use Rattle.zarr_chunks.specs.Update.{with_box};

use crate::fetching::fetch;
use crate::putting::put;
use std::alloc::Global;
use std::num::NonZeroU64;
use zarr_codec_chain::{ChunkLevels, CodecChain};
use zarrs_array_subset::{ArraySubset, shape_numbers};
use zarrs_codec_array_bytes::ArrayBytes;
use zarrs_codec_array_bytes_parts::update_owned_array_bytes;
use zarrs_codec_error::{CodecError, CodecOptions};
use zarrs_codec_traits::{
    ArrayToArrayCodecTraits, ArrayToBytesCodecTraits, BytesToBytesCodecTraits,
};
use zarrs_data_type::{DataType, type_size};
use zarrs_storage::{Store, StoreKey};

// The elements of a shape with those of a box inside it replaced.
fn with_region(
    alloc: Global,
    whole: ArrayBytes<'static>,
    shape: &[NonZeroU64],
    data_type: &DataType,
    region: &ArraySubset,
    bytes: &ArrayBytes<'_>,
) -> Result<ArrayBytes<'static>, CodecError>
    requires fits { IsFit (lengths shape.now) (type_of data_type.now) }
    requires inside { ends_within (box_of region.now) (lengths shape.now) ≡ true }
    ensures value { let kind = kind_of (type_of data_type.now) in (old new : List Element)
        → meaning kind (count_of (lengths shape.now)) (raw_of whole.entry) ≡ Some old
        → meaning kind (count (box_of region.now)) (raw_of bytes.now) ≡ Some new
        → MatchResult result (λ v. meaning kind (count_of (lengths shape.now)) (raw_of v) ≡ Some
        (with_box (lengths shape.now) (box_of region.now) new old)) (λ e. e ≡ codec.OutOfMemory) }
    ensures short { has_long_element (raw_of whole.entry) ≡ false → StaysShort bytes.now result }
{
    let numbers = shape_numbers(alloc, shape)?;
    update_owned_array_bytes(alloc, whole, &numbers, region, bytes, type_size(data_type))
}

// A chunk with the elements of a region replaced.
fn updated(
    levels: &ChunkLevels,
    alloc: Global,
    whole: ArrayBytes<'static>,
    region: &ArraySubset,
    bytes: &ArrayBytes<'_>,
) -> Result<ArrayBytes<'static>, CodecError>
    requires fits { IsFit (first_level levels.now).shape (first_level levels.now).data_type }
    requires inside { ends_within (box_of region.now) (first_level levels.now).shape ≡ true }
    ensures value { let level = first_level levels.now in (old new : List Element)
        → levels_list levels.now whole.entry ≡ Some old
        → list_at (at_box (box_of region.now) level) (raw_of bytes.now) ≡ Some new
        → MatchResult result (λ v. levels_list levels.now v
        ≡ Some (with_box level.shape (box_of region.now) new old)) (λ e. e ≡ codec.OutOfMemory) }
    ensures short { has_long_element (raw_of whole.entry) ≡ false → StaysShort bytes.now result }
{
    with_region(
        alloc,
        whole,
        levels.shape(),
        levels.data_type(),
        region,
        bytes,
    )
}

/// Replaces the elements of a region of a chunk, of which an old value that does not decode is an error. One reading
/// call, and then one that puts or erases. The region lies inside the chunk, its bytes are valid, no element of them or
/// of the fill value is too long to be stored, and the array-to-bytes codec takes such chunks.
///
/// # Errors
/// As those of `fetch` and `put`; where it is not a fault of the store, the store is as it was.
pub fn write<
    S: Store,
    A: ArrayToArrayCodecTraits,
    B: ArrayToBytesCodecTraits,
    C: BytesToBytesCodecTraits,
>(
    chain: &CodecChain<A, B, C>,
    levels: &ChunkLevels,
    alloc: Global,
    key: &StoreKey,
    region: &ArraySubset,
    bytes: &ArrayBytes<'_>,
    store: &mut S,
    options: &CodecOptions,
) -> Result<(), CodecError>
    requires { CanWrite (chain_seen A.ArrayCodecTraits.own A.ArrayToArrayCodecTraits.own
        B.ArrayCodecTraits.own B.ArrayToBytesCodecTraits.own C.BytesToBytesCodecTraits.own
        chain.now levels.now) (box_of region.now) (raw_of bytes.now) }
    ensures { WritesRegion (chain_seen A.ArrayCodecTraits.own A.ArrayToArrayCodecTraits.own
        B.ArrayCodecTraits.own B.ArrayToBytesCodecTraits.own C.BytesToBytesCodecTraits.own
        chain.now levels.now) (options_of options.now) (box_of region.now)
        (raw_of bytes.now) key.now (S.shown store.old) (S.shown store.new) result }
{
    let whole = fetch(chain, levels, alloc, key, store, options)?;
    let chunk = updated(levels, alloc, whole, region, bytes)?;
    put(chain, levels, alloc, key, chunk, store, options)?;
    Ok(())
}
