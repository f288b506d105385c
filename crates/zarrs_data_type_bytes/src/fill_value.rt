//! Fill values.
//!
//! See <https://zarr-specs.readthedocs.io/en/latest/v3/core/index.html#fill-value>.

ghost use Rattle.std.specs.Prelude.{◌≡◌, ◌<◌, ◌-◌, ◌%◌, ◌/◌, ◌++◌, ◌∷◌, [], ◌↔◌, IsTrue, IfOk, length, take};
ghost use Rattle.std.specs.List.{AllByRecursion};
ghost use Rattle.zarrs_data_type_bytes.specs.Pieces.{repeated, Repeats, ends_in_zero};

mod from;
mod lanes;
mod repeat;

use lanes::by_lanes;
use std::alloc::{AllocError, Global};
use std::fmt;
use thiserror::Error;

/// The element of an array where nothing is stored, as its bytes.
///
/// A fill value of an optional type ends in one byte more: 0 for null, and 1 behind the bytes of a value of the inner
/// type.
#[derive(Debug, Drop, PartialEq, Eq)]
pub struct FillValue {
    bytes: Vec<u8>,
}

/// The bytes of a fill value denote no element of the data type.
#[derive(Clone, Copy, Debug, PartialEq, Eq, Error)]
#[error("the fill value denotes no element of the data type")]
pub struct DataTypeFillValueError;

fn are_same(bytes: &[u8], other: &[u8]) -> bool
    ensures { IsTrue result ↔ (bytes.now ≡ other.now) }
{
    bytes == other
}

// Whether each piece of the fill's length is the fill.
fn all_pieces(fill: &[u8], bytes: &[u8]) -> bool
    requires some { 0 < length fill.now }
    requires whole { length bytes.now % length fill.now ≡ 0 }
    ensures { IsTrue result ↔ (bytes.now ≡ repeated (length bytes.now / length fill.now) fill.now) }
{
    for k in 0..bytes.len() / fill.len() {
        if !are_same(&bytes[k * fill.len()..k * fill.len() + fill.len()], fill) {
            return false;
        }
    }
    true
}

/// The numbers in a slice are bytes, as these are held.
pub fn are_bytes(_bytes: &[u8])
    ensures { AllByRecursion (λ b. b < 256) _bytes.now }
{}

// The same by lanes where the fill goes into them, which is so of 1, 2, 4, 8 and 16 bytes.
fn all_fill(fill: &[u8], bytes: &[u8]) -> bool
    requires some { 0 < length fill.now }
    requires whole { length bytes.now % length fill.now ≡ 0 }
    ensures { IsTrue result ↔ (bytes.now ≡ repeated (length bytes.now / length fill.now) fill.now) }
{
    if 16 % fill.len() == 0 {
        by_lanes(fill, bytes)
    } else {
        all_pieces(fill, bytes)
    }
}

/// Whether bytes are those of a fill value repeated at least once; empty ones equal only empty bytes.
pub fn repeats(fill: &[u8], bytes: &[u8]) -> bool
    ensures { IsTrue result ↔ Repeats fill.now bytes.now }
{
    if fill.is_empty() {
        return bytes.is_empty();
    }
    if bytes.is_empty() {
        return false;
    }
    if bytes.len() % fill.len() != 0 {
        return false;
    }
    all_fill(fill, bytes)
}

/// Whether the last byte is 0, which makes a fill value of an optional type null.
pub fn ends_in_zero(bytes: &[u8]) -> bool
    ensures { result ≡ ends_in_zero bytes.now }
{
    match bytes {
        [] => false,
        [_, rest @ ..] => bytes[rest.len()] == 0,
    }
}

impl FillValue {
    ghost use Rattle.zarrs_data_type_bytes.specs.FillValue.{fill_bytes};

    /// The fill value with these bytes.
    pub fn new(bytes: Vec<u8>) -> Self
        ensures { fill_bytes result ≡ bytes.items }
    {
        FillValue { bytes }
    }

    /// The null of an optional type, which is one byte 0.
    ///
    /// # Errors
    /// [`AllocError`] where memory runs out.
    pub fn new_optional_null(alloc: Global) -> Result<Self, AllocError>
        ensures { IfOk result (λ fill. fill_bytes fill ≡ 0 ∷ []) }
    {
        let bytes = vec![in alloc; 0]?;
        Ok(FillValue { bytes })
    }

    /// The size in bytes.
    pub fn size(&self) -> usize
        ensures { result ≡ length (fill_bytes self.now) }
    {
        self.bytes.len()
    }

    /// The bytes, in the order of this machine.
    pub fn as_ne_bytes(&self) -> &[u8]
        ensures { result.now ≡ fill_bytes self.now }
    {
        self.bytes.as_slice()
    }

    /// The same value as one of the optional type: its bytes, and one byte 1 behind them.
    ///
    /// # Errors
    /// [`AllocError`] where memory runs out.
    pub fn into_optional(self) -> Result<Self, AllocError>
        ensures { IfOk result (λ fill. fill_bytes fill ≡ fill_bytes self ++ 1 ∷ []) }
    {
        let mut bytes = self.bytes;
        bytes.push(1)?;
        Ok(FillValue { bytes })
    }

    /// Whether bytes are the fill value repeated at least once; an empty one equals only empty bytes.
    pub fn equals_all(&self, bytes: &[u8]) -> bool
        ensures { IsTrue result ↔ Repeats (fill_bytes self.now) bytes.now }
    {
        repeats(self.bytes.as_slice(), bytes)
    }

    /// Whether it is the null of an optional type, which is so where its last byte is 0.
    pub fn is_optional_null(&self) -> bool
        ensures { result ≡ ends_in_zero (fill_bytes self.now) }
    {
        ends_in_zero(self.bytes.as_slice())
    }

    /// The bytes of the inner value of an optional type: all but the last, and none where there are none.
    pub fn inner_bytes(&self) -> &[u8]
        ensures { result.now ≡ take (length (fill_bytes self.now) - 1) (fill_bytes self.now) }
    {
        &self.bytes[..self.bytes.len().saturating_sub(1)]
    }

    /// A copy.
    ///
    /// # Errors
    /// [`AllocError`] where memory runs out.
    pub fn try_clone(&self, alloc: Global) -> Result<Self, AllocError>
        ensures { IfOk result (λ fill. fill_bytes fill ≡ fill_bytes self.now) }
    {
        FillValue::from_slice(alloc, self.bytes.as_slice())
    }
}

// The bytes as a list, as `[0, 1]`.
impl fmt::Display for FillValue {
    ghost use Rattle.zarrs_data_type_bytes.specs.FillValue.{fill_text};

    ghost output = { fill_text };

    fn fmt<W: fmt::Write>(&self, f: &mut fmt::Formatter<W>) -> fmt::Result {
        write!(f, "{:?}", self.bytes)
    }
}
