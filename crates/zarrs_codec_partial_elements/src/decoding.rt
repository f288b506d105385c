//! Elements at an indexer's indices, by the steps of a level.

ghost use Rattle.std.specs.Prelude.{◌≡◌, true, length, None, IsSome, IfOk};
ghost use Rattle.zarrs_codec.specs.Prelude.{kind_of, meaning, raw_of, options_of, indexed, placed};
ghost use Rattle.zarrs_codec.specs.Prelude.{IsUnread, KeepsSettings};
ghost use Rattle.zarrs_codec.specs.Selects.{Selects, ReadsIndexed};
ghost use Rattle.zarrs_codec_partial_elements.specs.Steps.{ReadsStep};

use crate::boxes::smaller_box;
use crate::calls::LevelReads;
use crate::read::fitting_numbers;
use std::alloc::Global;
use zarrs_chunk_grid_indexer::Indexer;
use zarrs_codec_array_bytes::ArrayBytes;
use zarrs_codec_error::{CodecError, CodecOptions};

// The elements at an indexer's indices, out of all elements.
fn decode_listed<L: LevelReads, I: Indexer>(
    level: &mut L,
    alloc: Global,
    indexer: &I,
    numbers: &[u64],
    options: &CodecOptions,
) -> Result<ArrayBytes<'static>, CodecError>
    requires served { L.served level.old }
    requires shape { numbers.now ≡ (L.seen level.old).level.shape }
    requires fit { I.fits indexer.now numbers.now ≡ true }
    ensures reads { ReadsStep (options_of options.now) None (placed (I.places indexer.now))
        (L.tells level.old) (L.seen level.old) (L.seen level.new) result }
    ensures kept { KeepsSettings L.same L.tells level.old level.new }
{
    match level.decode_whole(alloc, options) {
        Ok(whole) => whole.extract_array_subset(alloc, indexer, numbers, level.element_type()),
        Err(error) => Err(error),
    }
}

// The elements at the indices of an indexer that fits.
fn decode_fit<L: LevelReads, I: Indexer>(
    level: &mut L,
    alloc: Global,
    indexer: &I,
    numbers: &[u64],
    options: &CodecOptions,
) -> Result<ArrayBytes<'static>, CodecError>
    requires served { L.served level.old }
    requires shape { numbers.now ≡ (L.seen level.old).level.shape }
    requires fit { I.fits indexer.now numbers.now ≡ true }
    ensures selects { Selects (options_of options.now) (I.as_region indexer.now)
        (placed (I.places indexer.now) (L.seen level.old).level) true
        (L.tells level.old (options_of options.now) (I.as_region indexer.now))
        (L.seen level.old) (L.seen level.new) result }
    ensures valid { (L.seen level.old).unserved ≡ None → IfOk result (λ v.
        IsSome (meaning (kind_of (L.seen level.old).level.data_type)
        (length (I.places indexer.now)) (raw_of v))) }
    ensures kept { KeepsSettings L.same L.tells level.old level.new }
{
    match smaller_box(alloc, indexer, numbers) {
        Ok(Some(region)) => level.decode_box(alloc, &region, options),
        Ok(None) => decode_listed(level, alloc, indexer, numbers, options),
        Err(error) => Err(CodecError::from(error)),
    }
}

/// The elements at the indexer's indices, in their order: of a box that is smaller than the shape by the steps of the
/// codec, else out of all elements.
///
/// # Errors
/// [`CodecError`] exactly where the indexer does not fit the shape, else where the level is not served by its codec or,
/// of a codec over elements, by its fill value, all before anything is read; else where what is below is not served,
/// fails or does not decode, or where memory runs out.
pub fn decode_elements<L: LevelReads, I: Indexer>(
    level: &mut L,
    alloc: Global,
    indexer: &I,
    options: &CodecOptions,
) -> Result<ArrayBytes<'static>, CodecError>
    ensures reads { ReadsIndexed (options_of options.now)
        (indexed I.fits I.refuses I.as_region I.places (L.seen level.old).level.shape indexer.now)
        (L.tells level.old) (L.seen level.old) (L.seen level.new) result }
    ensures unserved { ¬ (L.served level.old)
        → IsUnread (L.seen level.old).shown (L.seen level.new).shown }
    ensures valid { (L.seen level.old).unserved ≡ None → IfOk result (λ v.
        IsSome (meaning (kind_of (L.seen level.old).level.data_type)
        (length (I.places indexer.now)) (raw_of v))) }
    ensures kept { KeepsSettings L.same L.tells level.old level.new }
{
    match fitting_numbers(alloc, indexer, level.shape()) {
        Ok(numbers) => match level.expect_served(alloc) {
            Ok(()) => decode_fit(level, alloc, indexer, &numbers, options),
            Err(error) => Err(error),
        },
        Err(error) => Err(error),
    }
}
