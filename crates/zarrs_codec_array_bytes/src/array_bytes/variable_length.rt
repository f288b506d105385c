//! Elements of any size.

ghost use Rattle.std.specs.Prelude.{◌≡◌, ◌<◌, ◌≤◌, true, length, is_ok, nat_le, IfOk, IfErr, IsTrue};
ghost use Rattle.std.specs.Cow.{cow_slice_items};
ghost use Rattle.zarrs_codec_slices.specs.Picking.{are_within};
ghost use Rattle.zarrs_codec_array_bytes.specs.Offsets.{last_of};

use super::{ArrayBytesOffsets, ArrayBytesRaw, bytes_in};
use std::alloc::{AllocError, Global};
use std::borrow::CowSlice;
use zarrs_codec_error::ArrayBytesRawOffsetsOutOfBoundsError;

/// Elements of any size: their bytes one after another, and the offsets between them, the last of which is within the
/// bytes.
#[derive(Drop)]
pub struct ArrayBytesVariableLength<'a> {
    bytes: ArrayBytesRaw<'a>,
    offsets: ArrayBytesOffsets<'a>,
    ghost within: { last_of (cow_slice_items offsets.numbers) ≤ length (cow_slice_items bytes) },
}

impl<'a> ArrayBytesVariableLength<'a> {
    ghost use Rattle.zarrs_codec_array_bytes.specs.Raw.{numbers_of, values_of, offsets_of, variable_of};
    ghost use Rattle.zarrs_codec_array_bytes.specs.Owned.{owns_variable};

    /// Elements between offsets.
    ///
    /// # Errors
    /// [`ArrayBytesRawOffsetsOutOfBoundsError`] where the last offset is past the bytes.
    pub fn new(
        bytes: ArrayBytesRaw<'a>,
        offsets: ArrayBytesOffsets<'a>,
    ) -> Result<Self, ArrayBytesRawOffsetsOutOfBoundsError>
        ensures exact { is_ok result
            ≡ nat_le (last_of (numbers_of offsets.entry)) (length (cow_slice_items bytes.entry)) }
        ensures values { IfOk result (λ v. values_of v ≡ cow_slice_items bytes.entry) }
        ensures offsets { IfOk result (λ v. offsets_of v ≡ numbers_of offsets.entry) }
        ensures offset { IfErr result (λ e. e.offset ≡ last_of (numbers_of offsets.entry)) }
        ensures len { IfErr result (λ e. e.len ≡ length (cow_slice_items bytes.entry)) }
    {
        let offset = offsets.last();
        let len = bytes_in(&bytes).len();
        if offset <= len {
            Ok(Self::new_unchecked(bytes, offsets))
        } else {
            Err(ArrayBytesRawOffsetsOutOfBoundsError::new(offset, len))
        }
    }

    /// Elements between offsets whose last one is within the bytes.
    pub fn new_unchecked(bytes: ArrayBytesRaw<'a>, offsets: ArrayBytesOffsets<'a>) -> Self
        requires { last_of (numbers_of offsets) ≤ length (cow_slice_items bytes) }
        ensures values { values_of result ≡ cow_slice_items bytes.entry }
        ensures offsets { offsets_of result ≡ numbers_of offsets.entry }
    {
        Self { bytes, offsets }
    }

    /// The bytes of all elements.
    pub fn bytes(&self) -> &ArrayBytesRaw<'a>
        ensures { cow_slice_items result.now ≡ values_of self.now }
    {
        &self.bytes
    }

    /// The offsets.
    pub fn offsets(&self) -> &ArrayBytesOffsets<'a>
        ensures value { numbers_of result.now ≡ offsets_of self.now }
        ensures within { last_of (offsets_of self.now) ≤ length (values_of self.now) }
    {
        &self.offsets
    }

    /// The bytes and the offsets.
    pub fn into_parts(self) -> (ArrayBytesRaw<'a>, ArrayBytesOffsets<'a>)
        ensures bytes { cow_slice_items result.0 ≡ values_of self.entry }
        ensures offsets { numbers_of result.1 ≡ offsets_of self.entry }
        ensures within { last_of (numbers_of result.1) ≤ length (cow_slice_items result.0) }
    {
        let ArrayBytesVariableLength { bytes, offsets } = self;
        (bytes, offsets)
    }

    /// The same elements, owned.
    ///
    /// # Errors
    /// [`AllocError`] where memory runs out.
    pub(super) fn into_owned(
        self,
        alloc: Global,
    ) -> Result<ArrayBytesVariableLength<'static>, AllocError>
        ensures values { IfOk result (λ v. values_of v ≡ values_of self.entry) }
        ensures offsets { IfOk result (λ v. offsets_of v ≡ offsets_of self.entry) }
        ensures owned { IfOk result (λ v. owns_variable v ≡ true) }
    {
        let (bytes, offsets) = self.into_parts();
        let bytes = bytes.into_owned(alloc)?;
        let offsets = offsets.into_owned(alloc)?;
        Ok(ArrayBytesVariableLength {
            bytes: CowSlice::Owned(bytes),
            offsets,
        })
    }

    /// A copy, which is owned.
    ///
    /// # Errors
    /// [`AllocError`] where memory runs out.
    pub fn try_clone(&self, alloc: Global) -> Result<ArrayBytesVariableLength<'static>, AllocError>
        ensures value { IfOk result (λ c. variable_of c ≡ variable_of self.now) }
        ensures owned { IfOk result (λ c. owns_variable c ≡ true) }
    {
        let bytes = self.items().to_vec(alloc)?;
        let offsets = self.offsets().try_clone(alloc)?;
        Ok(ArrayBytesVariableLength {
            bytes: CowSlice::Owned(bytes),
            offsets,
        })
    }

    /// The bytes of all elements, as a slice.
    pub fn items(&self) -> &[u8]
        ensures { result.now ≡ values_of self.now }
    {
        bytes_in(&self.bytes)
    }

    /// The offsets as a slice.
    #[tactic(auto, using(crate::proofs::OffsetLaws::offsets_stay))]
    pub fn numbers(&self) -> &[usize]
        ensures value { result.now ≡ offsets_of self.now }
        ensures within { IsTrue (are_within (values_of self.now) (offsets_of self.now)) }
    {
        self.offsets.as_slice()
    }

    /// Elements that are owned: their bytes, and offsets of which none is less than the one before it and the
    /// last one is within the bytes.
    #[tactic(auto, using(crate::proofs::OffsetLaws::offsets_rise, crate::proofs::OffsetLaws::offsets_end))]
    pub fn from_gathered(bytes: Vec<u8>, offsets: Vec<usize>) -> ArrayBytesVariableLength<'static>
        requires some { 0 < length offsets.items }
        requires within { are_within bytes.items offsets.items ≡ true }
        ensures values { values_of result ≡ bytes.items }
        ensures offsets { offsets_of result ≡ offsets.items }
    {
        ArrayBytesVariableLength {
            bytes: CowSlice::Owned(bytes),
            offsets: ArrayBytesOffsets::new_unchecked(CowSlice::Owned(offsets)),
        }
    }
}
