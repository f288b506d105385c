//! Elements put at an indexer's indices, by the steps of a level.

ghost use Rattle.std.specs.Prelude.{◌≡◌, true, false, length, None, IsSome, IfErr};
ghost use Rattle.zarrs_codec.specs.Prelude.{kind_of, raw_of, fine, validity, IfUnfit, RefusesAs, RefusesFor};
ghost use Rattle.zarrs_codec.specs.Prelude.{options_of, given_answer, change_of, AreFew, IsUnread};
ghost use Rattle.zarrs_codec.specs.ListWrites.{IsUntouchedList};
ghost use Rattle.zarrs_codec.specs.Updates.{given_by, Updates};
ghost use Rattle.zarrs_codec_partial_elements.specs.Steps.{MakesElements};

use crate::boxes::covers;
use crate::calls::LevelWrites;
use crate::write::expect_given;
use std::alloc::Global;
use zarrs_chunk_grid_indexer::Indexer;
use zarrs_codec_array_bytes::ArrayBytes;
use zarrs_codec_array_bytes_parts::update_owned_array_bytes;
use zarrs_codec_error::{CodecError, CodecOptions};
use zarrs_data_type::type_size;

// The old elements with those that are given put in.
fn updated_elements<L: LevelWrites, I: Indexer>(
    level: &mut L,
    alloc: Global,
    indexer: &I,
    numbers: &[u64],
    bytes: &ArrayBytes<'_>,
    options: &CodecOptions,
) -> Result<ArrayBytes<'static>, CodecError>
    requires served { L.served level.old }
    requires shape { numbers.now ≡ (L.seen level.old).level.shape }
    requires fit { I.fits indexer.now numbers.now ≡ true }
    ensures makes { MakesElements (options_of options.now)
        (record (change_of (L.seen level.old).level
        (I.fits indexer.now (L.seen level.old).level.shape) (I.as_region indexer.now)
        (I.places indexer.now) (raw_of bytes.now)) { all = false })
        (L.tells level.old (options_of options.now) None)
        (L.seen level.old) (L.seen level.new) result }
    ensures same { L.same level.old level.new }
{
    match level.old_elements(alloc, options) {
        Ok(whole) => {
            let size = type_size(level.element_type());
            update_owned_array_bytes(alloc, whole, numbers, indexer, bytes, size)
        }
        Err(error) => Err(error),
    }
}

// The new elements: where the indexer is the box of all elements those that are given, else the old ones with those
// put in.
fn new_elements<L: LevelWrites, I: Indexer>(
    level: &mut L,
    alloc: Global,
    indexer: &I,
    numbers: &[u64],
    bytes: &ArrayBytes<'_>,
    options: &CodecOptions,
) -> Result<ArrayBytes<'static>, CodecError>
    requires served { L.served level.old }
    requires shape { numbers.now ≡ (L.seen level.old).level.shape }
    requires fit { I.fits indexer.now numbers.now ≡ true }
    ensures makes { MakesElements (options_of options.now) (change_of (L.seen level.old).level
        (I.fits indexer.now (L.seen level.old).level.shape) (I.as_region indexer.now)
        (I.places indexer.now) (raw_of bytes.now))
        (L.tells level.old (options_of options.now) None)
        (L.seen level.old) (L.seen level.new) result }
    ensures same { L.same level.old level.new }
{
    match covers(alloc, indexer, numbers) {
        Ok(true) => match bytes.try_clone(alloc) {
            Ok(copy) => Ok(copy),
            Err(error) => Err(CodecError::from(error)),
        },
        Ok(false) => updated_elements(level, alloc, indexer, numbers, bytes, options),
        Err(error) => Err(CodecError::from(error)),
    }
}

// Puts valid elements at the indices of an indexer that fits.
fn encode_fit<L: LevelWrites, I: Indexer>(
    level: &mut L,
    alloc: Global,
    indexer: &I,
    numbers: &[u64],
    bytes: &ArrayBytes<'_>,
    options: &CodecOptions,
) -> Result<(), CodecError>
    requires served { L.served level.old }
    requires shape { numbers.now ≡ (L.seen level.old).level.shape }
    requires fit { I.fits indexer.now numbers.now ≡ true }
    ensures updates { Updates (options_of options.now) (change_of (L.seen level.old).level
        (I.fits indexer.now (L.seen level.old).level.shape) (I.as_region indexer.now)
        (I.places indexer.now) (raw_of bytes.now))
        (L.tells level.old (options_of options.now) None) (L.unencoded level.old)
        (L.encodes level.old) (L.encodes_short level.old)
        (L.seen level.old) (L.seen level.new) result }
    ensures named { IsSome (given_by (L.seen level.old).level (change_of (L.seen level.old).level
        (I.fits indexer.now (L.seen level.old).level.shape) (I.as_region indexer.now)
        (I.places indexer.now) (raw_of bytes.now)))
        → RefusesFor (L.seen level.old).unserved result }
    ensures same { L.same level.old level.new }
{
    match new_elements(level, alloc, indexer, numbers, bytes, options) {
        Ok(elements) => level.store_elements(alloc, elements, options),
        Err(error) => Err(error),
    }
}

/// Puts the elements at the indexer's indices, in order, into those of the value, or into the fill value's where it is
/// absent, and stores them all: it reads the old ones unless the indexer is the box of all elements, and encodes before
/// it changes anything.
///
/// # Errors
/// [`CodecError`] exactly where the bytes are not valid elements, so many as the indexer has, else exactly where the
/// indexer does not fit the shape, else where the level is not served by its codec or, of a codec over elements, by its
/// fill value, all before anything is read; else where what is below is not served, fails or does not decode, where the
/// value is absent, some elements are given and the fill value denotes none, where the new elements are not encoded, or
/// where memory runs out.
pub fn encode_elements<L: LevelWrites, I: Indexer>(
    level: &mut L,
    alloc: Global,
    indexer: &I,
    bytes: &ArrayBytes<'_>,
    options: &CodecOptions,
) -> Result<(), CodecError>
    requires few { AreFew (kind_of (L.seen level.old).level.data_type)
        (length (I.places indexer.now)) }
    ensures given { RefusesAs (given_answer (kind_of (L.seen level.old).level.data_type)
        (I.fits indexer.now (L.seen level.old).level.shape) (length (I.places indexer.now))
        (raw_of bytes.now)) result }
    ensures refusal { validity (kind_of (L.seen level.old).level.data_type)
        (length (I.places indexer.now)) (raw_of bytes.now) ≡ fine
        → I.fits indexer.now (L.seen level.old).level.shape ≡ false
        → IfErr result (IfUnfit (I.refuses indexer.now (L.seen level.old).level.shape)) }
    ensures untouched { IsUntouchedList (given_answer
        (kind_of (L.seen level.old).level.data_type)
        (I.fits indexer.now (L.seen level.old).level.shape) (length (I.places indexer.now))
        (raw_of bytes.now)) (L.seen level.old) (L.seen level.new) }
    ensures unserved { ¬ (L.served level.old)
        → IsUnread (L.seen level.old).shown (L.seen level.new).shown }
    ensures updates { Updates (options_of options.now) (change_of (L.seen level.old).level
        (I.fits indexer.now (L.seen level.old).level.shape) (I.as_region indexer.now)
        (I.places indexer.now) (raw_of bytes.now))
        (L.tells level.old (options_of options.now) None) (L.unencoded level.old)
        (L.encodes level.old) (L.encodes_short level.old)
        (L.seen level.old) (L.seen level.new) result }
    ensures named { given_answer (kind_of (L.seen level.old).level.data_type)
        (I.fits indexer.now (L.seen level.old).level.shape) (length (I.places indexer.now))
        (raw_of bytes.now) ≡ fine → RefusesFor (L.seen level.old).unserved result }
    ensures same { L.same level.old level.new }
{
    match expect_given(alloc, indexer, bytes, level.shape(), level.element_type()) {
        Ok(numbers) => match level.expect_served(alloc) {
            Ok(()) => encode_fit(level, alloc, indexer, &numbers, bytes, options),
            Err(error) => Err(error),
        },
        Err(error) => Err(error),
    }
}
