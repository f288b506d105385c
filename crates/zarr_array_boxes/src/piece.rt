//! Parts of a box, and their elements.

ghost use Rattle.std.specs.Prelude.{◌≡◌, ◌+◌, ◌*◌, ◌<◌, ◌^◌, List, true, false, Some, IsSome, length, IfOk};
ghost use Rattle.zarr_model.specs.Region.{count, starts};
ghost use Rattle.zarr_model.specs.Element.{Element, null};
ghost use Rattle.zarr_model.specs.ArrayBytes.{meaning};
ghost use Rattle.zarr_model.specs.Command.{has_long_element};
ghost use Rattle.zarrs_array_subset.specs.ArraySubset.{region};
ghost use Rattle.zarrs_array_subset.specs.Boxes.{is_within, moved_back};
ghost use Rattle.zarrs_codec_slices.specs.Picking.{picked};
ghost use Rattle.zarrs_codec_array_bytes.specs.Raw.{raw_of};
ghost use Rattle.zarrs_codec_array_bytes.specs.Steps.{kind_seen, bytes_seen};
ghost use Rattle.zarr_array_boxes.specs.Shared.{shared_in};

use std::alloc::{AllocError, Global};
use zarrs_array_subset::ArraySubset;
use zarrs_codec_array_bytes::ArrayBytes;
use zarrs_data_type::DataType;

/// A part of a box, by its place in it.
#[tactic(auto, using(crate::proofs::MemoryLaws::moved_memory))]
pub(crate) fn part_in(
    alloc: Global,
    part: &ArraySubset,
    subset: &ArraySubset,
) -> Result<ArraySubset, AllocError>
    requires { is_within (region part.now) (region subset.now) ≡ true }
    ensures { IfOk result
        (λ v. region v ≡ moved_back (region part.now) (starts (region subset.now))) }
{
    match part.relative_to(alloc, subset.start()) {
        Ok(at) => Ok(at),
        Err(error) => Err(error.only_memory()),
    }
}

/// The elements that bytes over a box have in a part of it.
pub(crate) fn piece_in(
    alloc: Global,
    data_type: &DataType,
    bytes: &ArrayBytes<'_>,
    subset: &ArraySubset,
    part: &ArraySubset,
) -> Result<ArrayBytes<'static>, AllocError>
    requires count { count (region subset.now) + 1 < 2 ^ 64 }
    requires bytes { count (region subset.now) * bytes_seen data_type.now < 2 ^ 64 }
    requires means { IsSome (meaning (kind_seen data_type.now)
        (count (region subset.now)) (raw_of bytes.now)) }
    requires inside { is_within (region part.now) (region subset.now) ≡ true }
    ensures selected { let kind = kind_seen data_type.now in
        let places = shared_in (region subset.now) (region part.now) in (xs : List Element)
        → meaning kind (count (region subset.now)) (raw_of bytes.now) ≡ Some xs
        → IfOk result (λ v. meaning kind (length places) (raw_of v)
        ≡ Some (picked null places xs)) }
    ensures short { has_long_element (raw_of bytes.now) ≡ false
        → IfOk result (λ v. has_long_element (raw_of v) ≡ false) }
{
    let at = part_in(alloc, part, subset)?;
    match bytes.extract_array_subset(alloc, &at, subset.shape(), data_type) {
        Ok(piece) => Ok(piece),
        Err(error) => Err(error.only_memory()),
    }
}
