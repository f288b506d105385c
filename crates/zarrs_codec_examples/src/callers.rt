//! Callers that lend a store and know it afterwards, one that reads an absent value, and one that reads a list that is
//! turned round.

ghost use Rattle.std.specs.Prelude.{◌≡◌, ℕ, false, List, length, reverse, Some, None, IsSome, IfOk, OnOk};
ghost use Rattle.zarrs_codec.specs.Prelude.{Element, kind_of, fill_element, meaning, counted};
ghost use Rattle.zarrs_codec.specs.Prelude.{value_bytes, type_of, raw_of, unserved_at, lengths};
ghost use Rattle.zarrs_codec.specs.Prelude.{level_of, options_of, IsFit, through, AreFew, fills};
ghost use Rattle.zarrs_codec.specs.Prelude.{chosen};
ghost use Rattle.zarrs_data_type_bytes.specs.FillValue.{fill_bytes};

use crate::chunks::chunk_of;
use crate::reversed_elements::ReversedElementsCodec;
use std::alloc::Global;
use zarrs_array_subset::ChunkShape;
use zarrs_chunk_grid_indexer::Indexer;
use zarrs_codec::{
    ArrayPartialDecoderTraits, BytesPartialDecoderTraits, BytesToBytesCodecPartialDefault,
    MemoryHandle, StoragePartialDecoder,
};
use zarrs_codec_array_bytes::ArrayBytes;
use zarrs_codec_error::{BytesRepresentation, CodecError, CodecOptions};
use zarrs_codec_traits::{ArrayToBytesCodecTraits, BytesToBytesCodecTraits};
use zarrs_data_type::DataType;
use zarrs_data_type_bytes::FillValue;
use zarrs_storage::{Store, StoreKey};

/// The value under a key, by one reading call.
///
/// # Errors
/// [`CodecError`] where the store fails, or memory runs out.
pub fn value_at<S: Store>(
    alloc: Global,
    store: &mut S,
    key: StoreKey,
    options: &CodecOptions,
) -> Result<Option<Vec<u8>>, CodecError>
    ensures value { IfOk result (λ v. value_bytes v ≡ (S.shown store.old).content key) }
    ensures same { (other : List ℕ)
        → (S.shown store.new).content other ≡ (S.shown store.old).content other }
    ensures asks { OnOk result
        ((S.shown store.new).asks ≡ counted (S.shown store.old).asks 1) }
{
    let mut handle = StoragePartialDecoder::new(store, key);
    let value = handle.decode(alloc, options);
    let _store = handle.into_storage();
    value
}

/// What the value under a key decodes to, by any bytes-to-bytes codec and one reading call.
///
/// # Errors
/// [`CodecError`] where the store fails, where the value does not decode, or where memory runs out.
pub fn decoded_at<S: Store, C: BytesToBytesCodecTraits + Drop>(
    alloc: Global,
    store: &mut S,
    key: StoreKey,
    codec: C,
    options: &CodecOptions,
) -> Result<Option<Vec<u8>>, CodecError>
    ensures value { IfOk result
        (λ v. through (C.meaning codec (options_of options.now))
        (Some ((S.shown store.old).content key)) ≡ Some (value_bytes v)) }
    ensures same { (other : List ℕ)
        → (S.shown store.new).content other ≡ (S.shown store.old).content other }
    ensures asks { OnOk result
        ((S.shown store.new).asks ≡ counted (S.shown store.old).asks 1) }
{
    let stored = StoragePartialDecoder::new(store, key);
    let size = BytesRepresentation::UnboundedSize;
    let mut handle = BytesToBytesCodecPartialDefault::new_bytes(stored, size, codec);
    let value = handle.decode(alloc, options);
    let _store = handle.into_handle().into_storage();
    value
}

/// The elements at the indexer's indices: where the value is absent, those of the fill.
///
/// # Errors
/// [`CodecError`] as of the handle's own call.
pub fn part_of_absent<H: ArrayPartialDecoderTraits, I: Indexer>(
    handle: &mut H,
    alloc: Global,
    indexer: &I,
    options: &CodecOptions,
) -> Result<ArrayBytes<'static>, CodecError>
    requires few { AreFew (kind_of (H.seen handle.old).level.data_type)
        (length (I.places indexer.now)) }
    ensures { let seen = H.seen handle.old in (xs : List Element) → seen.unserved ≡ None
        → seen.there ≡ false → fills seen.level seen.fill ≡ Some xs → IfOk result
        (λ v. meaning (kind_of seen.level.data_type) (length (I.places indexer.now)) (raw_of v)
        ≡ Some (chosen seen.level (I.places indexer.now) xs)) }
{
    handle.partial_decode(alloc, indexer, options)
}

/// The elements at the indexer's indices of what a value in memory decodes to by any array-to-bytes codec, with its
/// list turned round.
///
/// # Errors
/// [`CodecError`] as of the handle's own call.
pub fn part_from_the_end<B: ArrayToBytesCodecTraits + Drop, I: Indexer>(
    alloc: Global,
    value: Vec<u8>,
    shape: ChunkShape,
    data_type: DataType,
    fill_value: FillValue,
    codec: B,
    indexer: &I,
    options: &CodecOptions,
) -> Result<ArrayBytes<'static>, CodecError>
    requires fits { IsFit (lengths shape.items) (type_of data_type) }
    requires denotes { IsSome (fill_element (kind_of (type_of data_type)) (fill_bytes fill_value)) }
    requires few { AreFew (kind_of (type_of data_type)) (length (I.places indexer.now)) }
    ensures { let level = level_of shape.items data_type fill_value in (xs : List Element)
        → unserved_at (B.unserved codec) level (fill_bytes fill_value) ≡ None
        → B.meaning codec (options_of options.now) level value.items ≡ Some xs → IfOk result
        (λ v. meaning (kind_of level.data_type) (length (I.places indexer.now)) (raw_of v)
        ≡ Some (chosen level (I.places indexer.now) (reverse xs))) }
{
    let reversed = ReversedElementsCodec;
    let handle = MemoryHandle::new(Some(value));
    let mut chunk = chunk_of(alloc, handle, shape, data_type, fill_value, reversed, codec)?;
    chunk.partial_decode(alloc, indexer, options)
}
