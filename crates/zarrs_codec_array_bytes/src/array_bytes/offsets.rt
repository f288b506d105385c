//! Offsets of elements of any size.

ghost use Rattle.std.specs.Prelude.{◌≡◌, ◌<◌, ◌∷◌, true, length, IfOk, IsTrue, option_map};
ghost use Rattle.std.specs.Cow.{cow_slice_items};
ghost use Rattle.zarrs_codec_array_bytes.specs.Offsets.{rises_from, never_falls, offsets_error, last_of};

use std::alloc::{AllocError, Global};
use std::borrow::CowSlice;
use zarrs_codec_error::ArrayBytesRawOffsetsCreateError;

/// Where each element begins in the bytes, and behind these where the last one ends. There is one offset at least, and
/// none is less than the one before it.
#[derive(Drop)]
pub struct ArrayBytesOffsets<'a> {
    numbers: CowSlice<'a, usize>,
    ghost some: { 0 < length (cow_slice_items numbers) },
    ghost rising: { IsTrue (never_falls (cow_slice_items numbers)) },
}

// The numbers that are borrowed or owned.
fn numbers_in<'b>(numbers: &'b CowSlice<'_, usize>) -> &'b [usize]
    ensures { result.now ≡ cow_slice_items numbers.now }
{
    match numbers {
        CowSlice::Borrowed(items) => items,
        CowSlice::Owned(items) => items.as_slice(),
    }
}

// Whether no number is less than the one before it.
fn rise_from(first: usize, rest: &[usize]) -> bool
    ensures { result ≡ rises_from first rest.now }
{
    let mut last = first;
    for next in rest {
        if *next < last {
            return false;
        }
        last = *next;
    }
    true
}

// Why numbers are no offsets, if they are none.
fn create_error(numbers: &[usize]) -> Option<ArrayBytesRawOffsetsCreateError>
    ensures { result ≡ offsets_error numbers.now }
{
    match numbers {
        [] => Some(ArrayBytesRawOffsetsCreateError::ZeroLength),
        [first, rest @ ..] => {
            if rise_from(*first, rest) {
                None
            } else {
                Some(ArrayBytesRawOffsetsCreateError::NotMonotonicallyIncreasing)
            }
        }
    }
}

impl<'a> ArrayBytesOffsets<'a> {
    ghost use Rattle.zarrs_codec_array_bytes.specs.Raw.{numbers_of};
    ghost use Rattle.zarrs_codec_array_bytes.specs.Created.{GivesOffsets};
    ghost use Rattle.zarrs_codec_array_bytes.specs.Owned.{owns_offsets};

    /// These numbers as offsets.
    ///
    /// # Errors
    /// [`ArrayBytesRawOffsetsCreateError`] where there is none, or one is less than the one before it.
    #[tactic(auto, using(crate::proofs::OffsetLaws::some_offset, crate::proofs::OffsetLaws::rising_offsets))]
    pub fn new(offsets: CowSlice<'a, usize>) -> Result<Self, ArrayBytesRawOffsetsCreateError>
        ensures { GivesOffsets (cow_slice_items offsets.entry) result }
    {
        match create_error(numbers_in(&offsets)) {
            Some(error) => Err(error),
            None => Ok(Self { numbers: offsets }),
        }
    }

    /// These numbers as offsets, of which there is one at least and none is less than the one before it.
    pub fn new_unchecked(offsets: CowSlice<'a, usize>) -> Self
        requires some { 0 < length (cow_slice_items offsets) }
        requires rising { never_falls (cow_slice_items offsets) ≡ true }
        ensures { numbers_of result ≡ cow_slice_items offsets.entry }
    {
        Self { numbers: offsets }
    }

    /// The same offsets, owned.
    ///
    /// # Errors
    /// [`AllocError`] where memory runs out.
    pub fn into_owned(self, alloc: Global) -> Result<ArrayBytesOffsets<'static>, AllocError>
        ensures value { IfOk result (λ o. numbers_of o ≡ numbers_of self.entry) }
        ensures owned { IfOk result (λ o. owns_offsets o ≡ true) }
    {
        let numbers = self.numbers.into_owned(alloc)?;
        Ok(ArrayBytesOffsets {
            numbers: CowSlice::Owned(numbers),
        })
    }

    /// The offsets as the numbers that they were made of.
    pub fn into_numbers(self) -> CowSlice<'a, usize>
        ensures { cow_slice_items result ≡ numbers_of self.entry }
    {
        self.numbers
    }

    /// A copy, which is owned.
    ///
    /// # Errors
    /// [`AllocError`] where memory runs out.
    pub fn try_clone(&self, alloc: Global) -> Result<ArrayBytesOffsets<'static>, AllocError>
        ensures value { IfOk result (λ c. numbers_of c ≡ numbers_of self.now) }
        ensures owned { IfOk result (λ c. owns_offsets c ≡ true) }
    {
        let numbers = self.as_slice().to_vec(alloc)?;
        Ok(ArrayBytesOffsets {
            numbers: CowSlice::Owned(numbers),
        })
    }

    /// The last offset.
    pub fn last(&self) -> usize
        ensures { result ≡ last_of (numbers_of self.now) }
    {
        let numbers = numbers_in(&self.numbers);
        numbers[numbers.len() - 1]
    }

    /// The offsets as a slice.
    pub fn as_slice(&self) -> &[usize]
        ensures value { result.now ≡ numbers_of self.now }
        ensures some { 0 < length (numbers_of self.now) }
        ensures rising { IsTrue (never_falls (numbers_of self.now)) }
    {
        numbers_in(&self.numbers)
    }
}
