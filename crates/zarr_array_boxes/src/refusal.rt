//! Why a command is refused.

ghost use Rattle.std.specs.Prelude.{◌≡◌};
ghost use Rattle.zarr_model.specs.Prelude.{count, fixed_size, kind_of, is_too_large};
ghost use Rattle.zarr_model.specs.Command.{refusal_name};
ghost use Rattle.zarrs_data_type.specs.DataType.{type_of};
ghost use Rattle.zarrs_array_subset.specs.ArraySubset.{region};
ghost use Rattle.zarr_array_boxes.specs.Command.{refusal_of};

use zarrs_array_subset::ArraySubset;
use zarrs_data_type::DataType;

/// Why a command is refused, in the order in which it is tested. A refused command changes nothing and asks the store
/// for nothing.
#[derive(Clone, Copy, Debug, PartialEq, Eq)]
pub enum Refusal {
    /// The region, or the index of the chunk, has another rank than the array.
    IncompatibleDimensionality,
    /// The region ends past the array's shape in some dimension, or no chunk has this index.
    SubsetOutOfBounds,
    /// The region has as many elements as the greatest number, or more, or their bytes are more than it.
    RegionTooLarge,
    /// Elements of one size are to be written, and the bytes are of another kind.
    ExpectedFixedLengthBytes,
    /// Texts or byte strings are to be written, and the bytes are of another kind.
    ExpectedVariableLengthBytes,
    /// Optional elements are to be written, and the bytes are of another kind.
    ExpectedOptionalBytes,
    /// A mask has not a byte for each element of the region, or one that is neither 0 nor 1.
    InvalidMask,
    /// The bytes of elements of one size are not those of as many elements as the region has.
    UnexpectedChunkDecodedSize,
    /// The offsets are not those of as many elements as the region has: they do not begin at 0, fall, or do not end
    /// where the bytes end.
    InvalidVariableSizedArrayOffsets,
    /// An element, under a null or not, has so many bytes that their number can't be stored: 2^32 or more.
    ElementTooLong,
}

impl Refusal {
    /// The name of the refusal.
    pub fn name(&self) -> &'static str
        ensures { result.now ≡ refusal_name (refusal_of self.now) }
    {
        match self {
            Refusal::IncompatibleDimensionality => "IncompatibleDimensionality",
            Refusal::SubsetOutOfBounds => "SubsetOutOfBounds",
            Refusal::RegionTooLarge => "RegionTooLarge",
            Refusal::ExpectedFixedLengthBytes => "ExpectedFixedLengthBytes",
            Refusal::ExpectedVariableLengthBytes => "ExpectedVariableLengthBytes",
            Refusal::ExpectedOptionalBytes => "ExpectedOptionalBytes",
            Refusal::InvalidMask => "InvalidMask",
            Refusal::UnexpectedChunkDecodedSize => "UnexpectedChunkDecodedSize",
            Refusal::InvalidVariableSizedArrayOffsets => "InvalidVariableSizedArrayOffsets",
            Refusal::ElementTooLong => "ElementTooLong",
        }
    }
}

/// Whether a region has too many elements of a data type, or too many bytes of them, as
/// [`Refusal::RegionTooLarge`] says.
pub fn is_too_large(subset: &ArraySubset, data_type: &DataType) -> bool
    ensures { result
        ≡ is_too_large (fixed_size (kind_of (type_of data_type.now))) (count (region subset.now)) }
{
    match subset.checked_num_elements() {
        None | Some(u64::MAX) => true,
        Some(number) => match data_type.fixed_size() {
            Some(size) => number.checked_mul(size as u64).is_none(),
            None => false,
        },
    }
}
