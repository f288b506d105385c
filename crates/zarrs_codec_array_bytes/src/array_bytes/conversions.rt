//! What is made into array bytes and offsets.

ghost use Rattle.std.specs.Prelude.{◌≡◌};
ghost use Rattle.std.specs.Cow.{cow_slice_items};
ghost use Rattle.zarr_model.specs.ArrayBytes.{fixed_bytes, variable_bytes};
ghost use Rattle.zarrs_codec_array_bytes.specs.Raw.{raw_of, values_of, offsets_of, optional_of};

use super::{
    ArrayBytes, ArrayBytesOffsets, ArrayBytesOptional, ArrayBytesRaw, ArrayBytesVariableLength,
};
use std::borrow::CowSlice;
use zarrs_codec_error::ArrayBytesRawOffsetsCreateError;

impl<'a> From<&'a [u8]> for ArrayBytes<'a> {
    ghost from_gives = { λ bytes v. raw_of v ≡ fixed_bytes bytes.now };

    fn from(bytes: &'a [u8]) -> Self {
        ArrayBytes::Fixed(CowSlice::Borrowed(bytes))
    }
}

impl<'a, const N: usize> From<&'a [u8; N]> for ArrayBytes<'a> {
    ghost from_gives = { λ bytes v. raw_of v ≡ fixed_bytes bytes.now };

    fn from(bytes: &'a [u8; N]) -> Self {
        ArrayBytes::Fixed(CowSlice::Borrowed(bytes))
    }
}

impl From<Vec<u8>> for ArrayBytes<'static> {
    ghost from_gives = { λ bytes v. raw_of v ≡ fixed_bytes bytes.items };

    fn from(bytes: Vec<u8>) -> Self {
        ArrayBytes::Fixed(CowSlice::Owned(bytes))
    }
}

impl<'a> From<ArrayBytesRaw<'a>> for ArrayBytes<'a> {
    ghost from_gives = { λ bytes v. raw_of v ≡ fixed_bytes (cow_slice_items bytes) };

    fn from(bytes: ArrayBytesRaw<'a>) -> Self {
        ArrayBytes::Fixed(bytes)
    }
}

impl<'a> From<ArrayBytesVariableLength<'a>> for ArrayBytes<'a> {
    ghost from_gives = { λ variable v.
        raw_of v ≡ variable_bytes (values_of variable) (offsets_of variable) };

    fn from(variable: ArrayBytesVariableLength<'a>) -> Self {
        ArrayBytes::Variable(variable)
    }
}

impl<'a> From<ArrayBytesOptional<'a>> for ArrayBytes<'a> {
    ghost from_gives = { λ optional v. raw_of v ≡ optional_of optional };

    fn from(optional: ArrayBytesOptional<'a>) -> Self {
        ArrayBytes::Optional(optional)
    }
}

impl<'a> TryFrom<CowSlice<'a, usize>> for ArrayBytesOffsets<'a> {
    ghost use Rattle.zarrs_codec_array_bytes.specs.Created.{GivesOffsets};

    type Error = ArrayBytesRawOffsetsCreateError;

    ghost try_from_gives = { λ offsets result. GivesOffsets (cow_slice_items offsets) result };

    fn try_from(offsets: CowSlice<'a, usize>) -> Result<Self, ArrayBytesRawOffsetsCreateError> {
        ArrayBytesOffsets::new(offsets)
    }
}

impl TryFrom<Vec<usize>> for ArrayBytesOffsets<'static> {
    ghost use Rattle.zarrs_codec_array_bytes.specs.Created.{GivesOffsets};

    type Error = ArrayBytesRawOffsetsCreateError;

    ghost try_from_gives = { λ offsets result. GivesOffsets offsets.items result };

    fn try_from(offsets: Vec<usize>) -> Result<Self, ArrayBytesRawOffsetsCreateError> {
        ArrayBytesOffsets::new(CowSlice::Owned(offsets))
    }
}

impl<'a> TryFrom<&'a [usize]> for ArrayBytesOffsets<'a> {
    ghost use Rattle.zarrs_codec_array_bytes.specs.Created.{GivesOffsets};

    type Error = ArrayBytesRawOffsetsCreateError;

    ghost try_from_gives = { λ offsets result. GivesOffsets offsets.now result };

    fn try_from(offsets: &'a [usize]) -> Result<Self, ArrayBytesRawOffsetsCreateError> {
        ArrayBytesOffsets::new(CowSlice::Borrowed(offsets))
    }
}

impl<'a, const N: usize> TryFrom<&'a [usize; N]> for ArrayBytesOffsets<'a> {
    ghost use Rattle.zarrs_codec_array_bytes.specs.Created.{GivesOffsets};

    type Error = ArrayBytesRawOffsetsCreateError;

    ghost try_from_gives = { λ offsets result. GivesOffsets offsets.now result };

    fn try_from(offsets: &'a [usize; N]) -> Result<Self, ArrayBytesRawOffsetsCreateError> {
        ArrayBytesOffsets::new(CowSlice::Borrowed(offsets))
    }
}
