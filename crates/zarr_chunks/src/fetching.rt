//! The elements of a chunk in a store.

ghost use Rattle.std.specs.Prelude.{◌≡◌, false, Some, IsSome, IfOk, MatchResult};
ghost use Rattle.zarrs_codec_traits.specs.Prelude.{has_long_element, fill_element, kind_of};
ghost use Rattle.zarrs_codec_traits.specs.Prelude.{value_bytes, fill_bytes, type_of, raw_of};
ghost use Rattle.zarrs_codec_traits.specs.Prelude.{lengths, level_of, options_of, Gives, IsBlank, IsFit};
ghost use Rattle.zarrs_codec_error.specs.declared.error.CodecError.TheVariants as codec;
ghost use Rattle.zarr_codec_chain.specs.Chain.{IsServedChain, first_level, blank_chunk, HasFill};
ghost use Rattle.zarr_chunks.specs.Seen.{chain_seen, FetchesChunk};
ghost use Rattle.zarr_chunks.specs.Fetch.{chain_content, FailsByContent};
ghost use Rattle.zarr_codec_chain.specs.Answers.{levels_list};

use std::alloc::Global;
use std::num::NonZeroU64;
use zarr_codec_chain::{ChunkLevels, CodecChain};
use zarrs_codec_array_bytes::ArrayBytes;
use zarrs_codec_error::{CodecError, CodecOptions};
use zarrs_codec_traits::{
    ArrayToArrayCodecTraits, ArrayToBytesCodecTraits, BytesToBytesCodecTraits, num_elements,
};
use zarrs_data_type::DataType;
use zarrs_data_type_bytes::FillValue;
use zarrs_storage::{Store, StoreKey};

// A chunk that has the fill value everywhere.
fn filled_chunk(
    alloc: Global,
    shape: &[NonZeroU64],
    data_type: &DataType,
    fill_value: &FillValue,
) -> Result<ArrayBytes<'static>, CodecError>
    requires fits { IsFit (lengths shape.now) (type_of data_type.now) }
    requires denotes { IsSome (fill_element (kind_of (type_of data_type.now))
        (fill_bytes fill_value.now)) }
    ensures value { MatchResult result
        (IsBlank (level_of shape.now data_type.now fill_value.now)) (λ e. e ≡ codec.OutOfMemory) }
    ensures bytes { IfOk result (λ v. raw_of v ≡ blank_chunk
        (level_of shape.now data_type.now fill_value.now) (fill_bytes fill_value.now)) }
{
    ArrayBytes::new_fill_value(alloc, data_type, num_elements(shape), fill_value)
}

// A chunk under a chain whose elements are all the fill value.
pub(crate) fn blank(levels: &ChunkLevels, alloc: Global) -> Result<ArrayBytes<'static>, CodecError>
    requires fits { IsFit (first_level levels.now).shape (first_level levels.now).data_type }
    requires fill { HasFill levels.now }
    ensures value { MatchResult result (IsBlank (first_level levels.now))
        (λ e. e ≡ codec.OutOfMemory) }
    ensures short { IfOk result (λ v. has_long_element (raw_of v) ≡ false) }
{
    filled_chunk(
        alloc,
        levels.shape(),
        levels.data_type(),
        levels.fill_value(),
    )
}

// The elements of a chunk, by its value.
fn elements_of<A: ArrayToArrayCodecTraits, B: ArrayToBytesCodecTraits, C: BytesToBytesCodecTraits>(
    chain: &CodecChain<A, B, C>,
    levels: &ChunkLevels,
    alloc: Global,
    value: Option<Vec<u8>>,
    options: &CodecOptions,
) -> Result<ArrayBytes<'static>, CodecError>
    requires served { IsServedChain A.meaning A.unserved B.unserved chain.now levels.now }
    requires fill { HasFill levels.now }
    ensures value { IfOk result (λ v. Gives (levels_list levels.now v) (chain_content A.meaning
        B.meaning C.meaning chain.now levels.now (options_of options.now) (value_bytes value))) }
    ensures failed { FailsByContent A.meaning B.meaning B.says C.meaning C.says chain.now levels.now
        (options_of options.now) (value_bytes value) result }
    ensures short { IfOk result (λ v. has_long_element (raw_of v) ≡ false) }
{
    match value {
        Some(value) => chain.decode(alloc, levels, value, options),
        None => blank(levels, alloc),
    }
}

/// The elements of a chunk: those of its value, or the fill value where its key is absent. One reading call.
///
/// # Errors
/// The error of the store; that of the first codec, in the order of decoding, that gives nothing; or
/// [`CodecError::OutOfMemory`].
pub fn fetch<
    S: Store,
    A: ArrayToArrayCodecTraits,
    B: ArrayToBytesCodecTraits,
    C: BytesToBytesCodecTraits,
>(
    chain: &CodecChain<A, B, C>,
    levels: &ChunkLevels,
    alloc: Global,
    key: &StoreKey,
    store: &mut S,
    options: &CodecOptions,
) -> Result<ArrayBytes<'static>, CodecError>
    requires { (chain_seen A.ArrayCodecTraits.own A.ArrayToArrayCodecTraits.own
        B.ArrayCodecTraits.own B.ArrayToBytesCodecTraits.own C.BytesToBytesCodecTraits.own
        chain.now levels.now).serves }
    ensures fetches { FetchesChunk (chain_seen A.ArrayCodecTraits.own A.ArrayToArrayCodecTraits.own
        B.ArrayCodecTraits.own B.ArrayToBytesCodecTraits.own C.BytesToBytesCodecTraits.own
        chain.now levels.now) (options_of options.now) key.now (S.shown store.old)
        (S.shown store.new) result }
    ensures kept { S.kept store.old store.new }
{
    let value = store.get(alloc, key)?;
    elements_of(chain, levels, alloc, value, options)
}
