//! Elements put into what a handle of bytes holds, by a codec with its level.

ghost use Rattle.std.specs.Prelude.{◌≡◌, ℕ, ◌<◌, not, List, length, Some};
ghost use Rattle.zarrs_codec.specs.Prelude.{Element, kind_of, fill_element, meaning, raw_of, type_of};
ghost use Rattle.zarrs_codec.specs.Prelude.{lengths, options_of, IsFit, AreFew, Stores, is_kept};
ghost use Rattle.zarrs_data_type_bytes.specs.FillValue.{fill_bytes};
ghost use Rattle.zarrs_codec_partial_elements.specs.Reading.{ReadsOld};
ghost use Rattle.zarrs_codec_partial_elements.specs.Writing.{IsBeyond, IsTaken, TestsGiven};

use crate::fill::{expect_denoted, is_denoted};
use crate::level::BottomLevel;
use crate::read::fitting_numbers;
use std::alloc::Global;
use std::num::NonZeroU64;
use zarrs_chunk_grid_indexer::Indexer;
use zarrs_codec::{BytesPartialDecoderTraits, BytesPartialEncoderTraits};
use zarrs_codec_array_bytes::ArrayBytes;
use zarrs_codec_error::{CodecError, CodecOptions};
use zarrs_codec_traits::ArrayToBytesCodecTraits;
use zarrs_data_type::DataType;
use zarrs_data_type_bytes::FillValue;

// Tests elements that are given, and then the indexer that they are for; the lengths of the shape. An error exactly
// where the bytes are not valid elements, so many as the indexer has, else exactly where the indexer does not fit the
// shape; or where memory runs out.
pub(crate) fn expect_given<I: Indexer>(
    alloc: Global,
    indexer: &I,
    bytes: &ArrayBytes<'_>,
    shape: &[NonZeroU64],
    data_type: &DataType,
) -> Result<Vec<u64>, CodecError>
    requires fits { IsFit (lengths shape.now) (type_of data_type.now) }
    requires few { AreFew (kind_of (type_of data_type.now)) (length (I.places indexer.now)) }
    ensures { TestsGiven I.fits I.refuses I.places (lengths shape.now) (type_of data_type.now)
        indexer.now (raw_of bytes.now) result }
{
    match bytes.validate(indexer.len(), data_type) {
        Ok(()) => fitting_numbers(alloc, indexer, shape),
        Err(error) => Err(error),
    }
}

/// Whether elements are not stored: they are the fill value's, and such values are not. Where the fill value denotes no
/// element all are stored.
pub fn is_dropped(
    bytes: &ArrayBytes<'_>,
    data_type: &DataType,
    fill_value: &FillValue,
    options: &CodecOptions,
) -> bool
    ensures { let kind = kind_of (type_of data_type.now) in
        (number : ℕ) (list : List Element) → 0 < number
        → meaning kind number (raw_of bytes.now) ≡ Some list
        → not result ≡ is_kept (options_of options.now)
        (fill_element kind (fill_bytes fill_value.now)) list }
{
    if options.store_empty_chunks() || !is_denoted(data_type, fill_value) {
        return false;
    }
    bytes.is_fill_value(fill_value)
}

impl<C: ArrayToBytesCodecTraits> BottomLevel<C> {
    ghost use Rattle.zarrs_codec_partial_elements.specs.Level.{IsFitBottom, level_of_bottom, seen_by};

    // The old elements. Of an absent value there are some only where the fill value denotes an element, so this is
    // tested then, and of a value that is there it is not.
    pub(crate) fn old_elements<H: BytesPartialDecoderTraits>(
        &self,
        alloc: Global,
        handle: &mut H,
        options: &CodecOptions,
    ) -> Result<ArrayBytes<'static>, CodecError>
        requires fits { IsFitBottom self.now }
        ensures { ReadsOld C.unserved C.meaning C.says H.seen H.tells H.same C.request self.now
            (options_of options.now) handle.old handle.new result }
    {
        match handle.decode(alloc, options) {
            Ok(Some(value)) => self.codec.decode(
                alloc,
                value,
                &self.shape,
                &self.data_type,
                &self.fill_value,
                options,
            ),
            Ok(None) => match expect_denoted(&self.data_type, &self.fill_value) {
                Ok(()) => self.fill_whole(alloc),
                Err(error) => Err(error),
            },
            Err(error) => Err(error),
        }
    }

    // Makes the handle's value one that decodes to these elements, or leaves it absent where they are not stored:
    // encoded they are in either case, before anything is changed.
    pub(crate) fn store_elements<H: BytesPartialEncoderTraits>(
        &self,
        alloc: Global,
        handle: &mut H,
        bytes: ArrayBytes<'static>,
        options: &CodecOptions,
    ) -> Result<(), CodecError>
        requires fits { IsFitBottom self.now }
        ensures stores { let level = level_of_bottom self.now in
            let see = seen_by C.unserved C.meaning C.request self.now in
            Stores (options_of options.now) (raw_of bytes.entry)
            (IsBeyond (C.beyond self.now.codec level) level)
            (IsTaken (C.beyond self.now.codec level) level) (C.takes self.now.codec level)
            (see (H.seen handle.old)) (see (H.seen handle.new)) result }
        ensures same { H.same handle.old handle.new }
    {
        let dropped = is_dropped(&bytes, &self.data_type, &self.fill_value, options);
        match self.codec.encode(
            alloc,
            bytes,
            &self.shape,
            &self.data_type,
            &self.fill_value,
            options,
        ) {
            Ok(value) => {
                if dropped {
                    return handle.erase();
                }
                handle.replace(alloc, &value, options)
            }
            Err(error) => Err(error),
        }
    }
}
