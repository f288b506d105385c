//! Ranges of bytes in a value.

ghost use Rattle.std.specs.Prelude.{◌≡◌, ◌+◌, ◌-◌, ◌≤◌, ◌<◌, ◌^◌, true, length, map, None, IfOk, IfErr};
ghost use Rattle.std.specs.List.{concat};
ghost use Rattle.zarrs_storage.specs.ByteRange.{is_valid, start_in, end_in, slice_of, slices_of, first_invalid, parts_of, IsFirstInvalid, IsInvalidRange, room_of, shifted};

use std::alloc::{AllocError, AllocFailed, Global};
use thiserror::Error;

/// A range of the bytes of a value.
#[derive(Clone, Copy, Debug, PartialEq, Eq)]
pub enum ByteRange {
    /// From an offset on, so many bytes, or up to the end.
    FromStart(u64, Option<u64>),
    /// So many bytes at the end.
    Suffix(u64),
}

/// A range that is not valid for a value of a size.
#[derive(Clone, Copy, Debug, PartialEq, Eq, Error)]
#[error("the byte range {range:?} leads out of {size} bytes")]
pub struct InvalidByteRangeError {
    range: ByteRange,
    size: u64,
}

/// Some bytes of a value, and where they stand in it.
#[derive(Debug, Drop)]
pub struct OffsetBytes {
    /// How many bytes of the value stand before them.
    pub offset: u64,
    /// The bytes.
    pub bytes: Vec<u8>,
}

impl InvalidByteRangeError {
    /// The error of this range in a value of this size.
    pub fn new(range: ByteRange, size: u64) -> Self
        ensures { result ≡ record { range = range; size = size } }
    {
        InvalidByteRangeError { range, size }
    }
}

/// Why ranges gave no bytes.
#[derive(Clone, Copy, Debug, Error)]
pub enum ByteRangeFault {
    /// A range is not valid, the first such one.
    #[error(transparent)]
    Invalid(InvalidByteRangeError),
    /// Memory ran out.
    #[error("out of memory")]
    OutOfMemory,
}

impl From<AllocError> for ByteRangeFault {
    ghost use Rattle.zarrs_storage.specs.declared.byte_range.ByteRangeFault.TheVariants.{OutOfMemory};

    ghost from_gives = { λ _ e. e ≡ OutOfMemory };

    fn from(_: AllocError) -> Self {
        ByteRangeFault::OutOfMemory
    }
}

impl<T: Drop> From<AllocFailed<T>> for ByteRangeFault {
    ghost use Rattle.zarrs_storage.specs.declared.byte_range.ByteRangeFault.TheVariants.{OutOfMemory};

    ghost from_gives = { λ _ e. e ≡ OutOfMemory };

    fn from(_: AllocFailed<T>) -> Self {
        ByteRangeFault::OutOfMemory
    }
}

impl ByteRange {
    /// Whether the range lies within a value of this size.
    pub fn is_valid(&self, size: u64) -> bool
        ensures { result ≡ is_valid self.now size }
    {
        match self {
            ByteRange::FromStart(offset, None) => *offset <= size,
            ByteRange::FromStart(offset, Some(length)) => match offset.checked_add(*length) {
                Some(end) => end <= size,
                None => false,
            },
            ByteRange::Suffix(length) => *length <= size,
        }
    }

    /// Where the range begins in a value of this size.
    pub fn start(&self, size: u64) -> u64
        requires { is_valid self.now size ≡ true }
        ensures { result ≡ start_in self.now size }
    {
        match self {
            ByteRange::FromStart(offset, _) => *offset,
            ByteRange::Suffix(length) => size - *length,
        }
    }

    /// Where the range ends in a value of this size.
    pub fn end(&self, size: u64) -> u64
        requires { is_valid self.now size ≡ true }
        ensures value { result ≡ end_in self.now size }
        ensures within { result ≤ size }
        ensures after { start_in self.now size ≤ result }
    {
        match self {
            ByteRange::FromStart(_, None) => size,
            ByteRange::FromStart(offset, Some(length)) => *offset + *length,
            ByteRange::Suffix(_) => size,
        }
    }

    /// How many bytes the range has in a value of this size.
    pub fn length(&self, size: u64) -> u64
        requires { is_valid self.now size ≡ true }
        ensures { result ≡ end_in self.now size - start_in self.now size }
    {
        self.end(size) - self.start(size)
    }

    /// Where the range of a value of this size lies in one that has that value from `offset` on.
    #[tactic(auto, using(crate::proofs::RangeLemmas::shift_fits))]
    pub fn shift(&self, offset: u64, size: u64) -> ByteRange
        requires fits { offset + size < 2 ^ 64 }
        requires valid { is_valid self.now size ≡ true }
        ensures { result ≡ shifted offset size self.now }
    {
        ByteRange::FromStart(offset + self.start(size), Some(self.length(size)))
    }
}

// The bytes of one range.
fn part_of(bytes: &[u8], range: ByteRange) -> Result<&[u8], ByteRangeFault>
    ensures valid { IfOk result (λ part. is_valid range (length bytes.now) ≡ true) }
    ensures value { IfOk result (λ part. part.now ≡ slice_of range bytes.now) }
    ensures refused { IfErr result (IsInvalidRange range (length bytes.now)) }
{
    let size = bytes.len() as u64;
    if range.is_valid(size) {
        Ok(&bytes[range.start(size) as usize..range.end(size) as usize])
    } else {
        Err(ByteRangeFault::Invalid(InvalidByteRangeError::new(range, size)))
    }
}

/// The bytes of each range of a value, in the order of the ranges.
///
/// # Errors
/// [`ByteRangeFault::Invalid`] exactly where a range is not valid; it names the first such one.
pub fn extract_byte_ranges(
    alloc: Global,
    bytes: &[u8],
    ranges: &[ByteRange],
) -> Result<Vec<Vec<u8>>, ByteRangeFault>
    ensures valid { IfOk result (λ parts. first_invalid (length bytes.now) ranges.now ≡ None) }
    ensures value { IfOk result (λ parts. parts_of parts ≡ slices_of ranges.now bytes.now) }
    ensures refused { IfErr result
        (IsFirstInvalid (first_invalid (length bytes.now) ranges.now) (length bytes.now)) }
{
    let mut parts = Vec::with_capacity(alloc, ranges.len())?;
    for range in ranges {
        let part = Vec::from_slice(alloc, part_of(bytes, *range)?)?;
        parts.push(part)?;
    }
    Ok(parts)
}

// How many bytes the ranges have together, or `usize::MAX` where they are more.
fn joined_length(bytes: &[u8], ranges: &[ByteRange]) -> Result<usize, ByteRangeFault>
    ensures value { IfOk result (λ room. room ≡ room_of ranges.now bytes.now) }
    ensures refused { IfErr result
        (IsFirstInvalid (first_invalid (length bytes.now) ranges.now) (length bytes.now)) }
{
    let mut room = 0_usize;
    for range in ranges {
        let part = part_of(bytes, *range)?;
        room = room.saturating_add(part.len());
    }
    Ok(room)
}

/// The bytes of all ranges of a value, one after another in the order of the ranges.
///
/// # Errors
/// [`ByteRangeFault::Invalid`] exactly where a range is not valid; it names the first such one.
pub fn extract_byte_ranges_concat(
    alloc: Global,
    bytes: &[u8],
    ranges: &[ByteRange],
) -> Result<Vec<u8>, ByteRangeFault>
    ensures valid { IfOk result (λ joined. first_invalid (length bytes.now) ranges.now ≡ None) }
    ensures value { IfOk result (λ joined. joined.items ≡ concat (slices_of ranges.now bytes.now)) }
    ensures refused { IfErr result
        (IsFirstInvalid (first_invalid (length bytes.now) ranges.now) (length bytes.now)) }
{
    let room = joined_length(bytes, ranges)?;
    let mut joined = Vec::with_capacity(alloc, room)?;
    for range in ranges {
        let part = part_of(bytes, *range)?;
        joined.extend_from_slice(part)?;
    }
    Ok(joined)
}

/// Where each range of a value of this size lies in one that has that value from `offset` on.
///
/// # Errors
/// [`ByteRangeFault::Invalid`] exactly where a range is not valid; it names the first such one.
pub fn shift_byte_ranges(
    alloc: Global,
    ranges: &[ByteRange],
    offset: u64,
    size: u64,
) -> Result<Vec<ByteRange>, ByteRangeFault>
    requires { offset + size < 2 ^ 64 }
    ensures valid { IfOk result (λ moved. first_invalid size ranges.now ≡ None) }
    ensures value { IfOk result (λ moved. moved.items ≡ map (shifted offset size) ranges.now) }
    ensures refused { IfErr result (IsFirstInvalid (first_invalid size ranges.now) size) }
{
    let mut moved = Vec::with_capacity(alloc, ranges.len())?;
    for range in ranges {
        if !range.is_valid(size) {
            return Err(ByteRangeFault::Invalid(InvalidByteRangeError::new(*range, size)));
        }
        moved.push(range.shift(offset, size))?;
    }
    Ok(moved)
}
