//! Parts of values.

ghost use Rattle.std.specs.Prelude.{◌≡◌, ◌∷◌, [], List, true, false, Some, length, IfOk, IfErr, MatchResult};
ghost use Rattle.zarr_model.specs.Region.{count, count_of, ends_within};
ghost use Rattle.zarr_model.specs.Element.{Element, kind_of};
ghost use Rattle.zarr_model.specs.ArrayBytes.{meaning};
ghost use Rattle.zarr_model.specs.Command.{has_long_element};
ghost use Rattle.zarrs_array_subset.specs.ArraySubset.{region as box_of};
ghost use Rattle.zarrs_storage.specs.ByteRange.{parts_of};
ghost use Rattle.zarrs_data_type.specs.DataType.{type_of};
ghost use Rattle.zarrs_codec_array_bytes.specs.Raw.{raw_of};
ghost use Rattle.zarrs_codec_error.specs.declared.error.CodecError.TheVariants as codec;
ghost use Rattle.zarrs_codec_traits.specs.Errors.{IsNoFault};
ghost use Rattle.zarrs_codec_traits.specs.Views.{lengths};
ghost use Rattle.zarrs_codec_traits.specs.Words.{IsFit, select};

use std::alloc::Global;
use std::num::NonZeroU64;
use zarrs_array_subset::{ArraySubset, shape_numbers};
use zarrs_codec_array_bytes::ArrayBytes;
use zarrs_codec_error::CodecError;
use zarrs_data_type::DataType;

/// The one part that there is.
pub fn only_part(parts: Vec<Vec<u8>>) -> Vec<u8>
    requires { length (parts_of parts) ≡ 1 }
    ensures { parts_of parts ≡ result.items ∷ [] }
{
    let mut parts = parts;
    parts.pop().unwrap()
}

/// The elements of a region, out of those of the whole chunk.
///
/// # Errors
/// [`CodecError`] where memory runs out, if the bytes are valid.
#[tactic(auto, using(crate::proofs::FaultLaws::memory_no_fault))]
pub fn extracted(
    alloc: Global,
    bytes: &ArrayBytes<'_>,
    region: &ArraySubset,
    shape: &[NonZeroU64],
    data_type: &DataType,
) -> Result<ArrayBytes<'static>, CodecError>
    requires fits { IsFit (lengths shape.now) (type_of data_type.now) }
    requires inside { ends_within (box_of region.now) (lengths shape.now) ≡ true }
    ensures value { let kind = kind_of (type_of data_type.now) in (list : List Element)
        → meaning kind (count_of (lengths shape.now)) (raw_of bytes.now) ≡ Some list
        → MatchResult result (λ v. meaning kind (count (box_of region.now)) (raw_of v)
        ≡ Some (select (lengths shape.now) (box_of region.now) list))
        (λ e. e ≡ codec.OutOfMemory) }
    ensures short { has_long_element (raw_of bytes.now) ≡ false
        → IfOk result (λ v. has_long_element (raw_of v) ≡ false) }
    ensures no_fault { IfErr result IsNoFault }
{
    let numbers = shape_numbers(alloc, shape)?;
    bytes.extract_array_subset(alloc, region, &numbers, data_type)
}
