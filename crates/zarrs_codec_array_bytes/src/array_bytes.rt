//! The elements of an array in memory.

ghost use Rattle.std.specs.Prelude.{◌≡◌, length, is_ok, ◌≤◌, option_map, IfOk, IfErr, nat_le};
ghost use Rattle.std.specs.Cow.{cow_slice_items};

pub mod checks;
mod conversions;
mod equality;
pub mod extract;
mod fill;
pub mod gather;
pub mod long;
mod offsets;
mod optional;
mod owned;
pub mod rows;
pub mod step;
mod validate;
mod variable_length;

pub use offsets::ArrayBytesOffsets;
use std::alloc::{AllocError, Global};
use std::borrow::CowSlice;
pub use variable_length::ArrayBytesVariableLength;
use zarrs_codec_error::{
    ArrayBytesRawOffsetsOutOfBoundsError, ExpectedFixedLengthBytesError,
    ExpectedOptionalBytesError, ExpectedVariableLengthBytesError,
};

/// Bytes that are borrowed or owned.
pub type ArrayBytesRaw<'a> = CowSlice<'a, u8>;

/// The elements of an array in memory, in row-major order.
#[cycle(parts)]
#[derive(Drop)]
pub enum ArrayBytes<'a> {
    /// Elements of one size, one after another.
    Fixed(ArrayBytesRaw<'a>),
    /// Elements of any size, between offsets.
    Variable(ArrayBytesVariableLength<'a>),
    /// Optional elements, under a mask.
    Optional(ArrayBytesOptional<'a>),
}

/// Optional elements: data with an element in each place, and a mask with a byte for each, 0 where the element is null.
#[cycle(parts)]
#[derive(Drop)]
pub struct ArrayBytesOptional<'a> {
    inner: Box<ArrayBytes<'a>>,
    mask: ArrayBytesRaw<'a>,
}

/// The bytes that are borrowed or owned.
pub fn bytes_in<'b>(bytes: &'b ArrayBytesRaw<'_>) -> &'b [u8]
    ensures { result.now ≡ cow_slice_items bytes.now }
{
    match bytes {
        CowSlice::Borrowed(items) => items,
        CowSlice::Owned(items) => items.as_slice(),
    }
}

impl<'a> ArrayBytes<'a> {
    ghost use Rattle.zarr_model.specs.ArrayBytes.{fixed_bytes, variable_bytes, optional_bytes};
    ghost use Rattle.zarrs_codec_array_bytes.specs.Offsets.{last_of};
    ghost use Rattle.zarrs_codec_array_bytes.specs.Raw.{raw_of, numbers_of, values_of, offsets_of, optional_of};
    ghost use Rattle.zarrs_codec_array_bytes.specs.Levels.{is_fixed, is_variable, is_optional, inner_length, innermost_offsets};

    /// Elements of one size, one after another.
    pub fn new_flen(bytes: ArrayBytesRaw<'a>) -> Self
        ensures { raw_of result ≡ fixed_bytes (cow_slice_items bytes.entry) }
    {
        ArrayBytes::Fixed(bytes)
    }

    /// Elements of any size, between offsets.
    ///
    /// # Errors
    /// [`ArrayBytesRawOffsetsOutOfBoundsError`] where the last offset is past the bytes.
    pub fn new_vlen(
        bytes: ArrayBytesRaw<'a>,
        offsets: ArrayBytesOffsets<'a>,
    ) -> Result<Self, ArrayBytesRawOffsetsOutOfBoundsError>
        ensures exact { is_ok result
            ≡ nat_le (last_of (numbers_of offsets.entry)) (length (cow_slice_items bytes.entry)) }
        ensures value { IfOk result (λ v. raw_of v
            ≡ variable_bytes (cow_slice_items bytes.entry) (numbers_of offsets.entry)) }
        ensures offset { IfErr result (λ e. e.offset ≡ last_of (numbers_of offsets.entry)) }
        ensures len { IfErr result (λ e. e.len ≡ length (cow_slice_items bytes.entry)) }
    {
        let variable = ArrayBytesVariableLength::new(bytes, offsets)?;
        Ok(ArrayBytes::Variable(variable))
    }

    /// Elements of any size, between offsets whose last one is within the bytes.
    pub fn new_vlen_unchecked(bytes: ArrayBytesRaw<'a>, offsets: ArrayBytesOffsets<'a>) -> Self
        requires { last_of (numbers_of offsets) ≤ length (cow_slice_items bytes) }
        ensures { raw_of result
            ≡ variable_bytes (cow_slice_items bytes.entry) (numbers_of offsets.entry) }
    {
        ArrayBytes::Variable(ArrayBytesVariableLength::new_unchecked(bytes, offsets))
    }

    /// The same elements as optional ones, under a mask.
    ///
    /// # Errors
    /// [`AllocError`] where memory runs out.
    pub fn with_optional_mask(
        self,
        alloc: Global,
        mask: ArrayBytesRaw<'a>,
    ) -> Result<Self, AllocError>
        ensures { IfOk result (λ v. raw_of v
            ≡ optional_bytes (raw_of self.entry) (cow_slice_items mask.entry)) }
    {
        let inner = Box::new(alloc, self)?;
        Ok(ArrayBytes::Optional(ArrayBytesOptional::new(inner, mask)))
    }

    /// The bytes of elements of one size.
    ///
    /// # Errors
    /// [`ExpectedFixedLengthBytesError`] where they are of another kind.
    pub fn into_fixed(self) -> Result<ArrayBytesRaw<'a>, ExpectedFixedLengthBytesError>
        ensures exact { is_ok result ≡ is_fixed (raw_of self.entry) }
        ensures value { IfOk result (λ v. fixed_bytes (cow_slice_items v) ≡ raw_of self.entry) }
    {
        match self {
            ArrayBytes::Fixed(bytes) => Ok(bytes),
            ArrayBytes::Variable(_) => Err(ExpectedFixedLengthBytesError),
            ArrayBytes::Optional(_) => Err(ExpectedFixedLengthBytesError),
        }
    }

    /// The bytes and offsets of elements of any size.
    ///
    /// # Errors
    /// [`ExpectedVariableLengthBytesError`] where they are of another kind.
    pub fn into_variable(
        self,
    ) -> Result<ArrayBytesVariableLength<'a>, ExpectedVariableLengthBytesError>
        ensures exact { is_ok result ≡ is_variable (raw_of self.entry) }
        ensures value { IfOk result
            (λ v. variable_bytes (values_of v) (offsets_of v) ≡ raw_of self.entry) }
    {
        match self {
            ArrayBytes::Variable(variable) => Ok(variable),
            ArrayBytes::Fixed(_) => Err(ExpectedVariableLengthBytesError),
            ArrayBytes::Optional(_) => Err(ExpectedVariableLengthBytesError),
        }
    }

    /// The data and mask of optional elements.
    ///
    /// # Errors
    /// [`ExpectedOptionalBytesError`] where they are of another kind.
    pub fn into_optional(self) -> Result<ArrayBytesOptional<'a>, ExpectedOptionalBytesError>
        ensures exact { is_ok result ≡ is_optional (raw_of self.entry) }
        ensures value { IfOk result (λ v. optional_of v ≡ raw_of self.entry) }
    {
        match self {
            ArrayBytes::Optional(optional) => Ok(optional),
            ArrayBytes::Fixed(_) => Err(ExpectedOptionalBytesError),
            ArrayBytes::Variable(_) => Err(ExpectedOptionalBytesError),
        }
    }

    /// The size of the innermost data in bytes, without offsets and masks.
    pub fn size(&self) -> usize
        ensures { result ≡ inner_length (raw_of self.now) }
    {
        match self {
            ArrayBytes::Fixed(bytes) => bytes_in(bytes).len(),
            ArrayBytes::Variable(variable) => variable.items().len(),
            ArrayBytes::Optional(optional) => optional.data().size(),
        }
    }

    /// The offsets of the innermost data, if these have any.
    pub fn offsets(&self) -> Option<&ArrayBytesOffsets<'a>>
        ensures { option_map (λ o. numbers_of o.now) result ≡ innermost_offsets (raw_of self.now) }
    {
        match self {
            ArrayBytes::Fixed(_) => None,
            ArrayBytes::Variable(variable) => Some(variable.offsets()),
            ArrayBytes::Optional(optional) => optional.data().offsets(),
        }
    }
}
