//! Array bytes whose memory is owned, which grow piece by piece and take elements in their places.

ghost use Rattle.std.specs.Prelude.{◌≡◌, ◌+◌, ◌++◌, ◌*◌, ◌<◌, true, None, length, map, drop, IfOk, OnOk};
ghost use Rattle.zarr_model.specs.Region.{count};
ghost use Rattle.zarr_model.specs.ArrayBytes.{variable_bytes};
ghost use Rattle.zarrs_array_subset.specs.ArraySubset.{region};
ghost use Rattle.zarrs_codec_array_bytes.specs.Raw.{raw_of, variable_of};
ghost use Rattle.zarrs_codec_array_bytes.specs.Refusals.{lengths_refusal, holds_fixed};
ghost use Rattle.zarrs_codec_array_bytes_parts.specs.Pairs.{are_alike};
ghost use Rattle.zarrs_codec_array_bytes_parts.specs.Joined.{bytes_joined};
ghost use Rattle.zarrs_codec_array_bytes_parts.specs.Overlaps.{CopiesOverlap};
ghost use Rattle.zarrs_codec_array_bytes_parts.specs.OwnedArrayBytes.{owned_raw, are_sound};

use std::alloc::{AllocError, Global};
use std::borrow::CowSlice;
use zarrs_array_subset::ArraySubset;
use zarrs_codec_array_bytes::array_bytes::bytes_in;
use zarrs_codec_array_bytes::{ArrayBytes, ArrayBytesOptional, ArrayBytesVariableLength};
use zarrs_codec_slices::rows::copy_into;

/// The elements of an array in memory that is owned.
#[derive(Drop)]
pub enum OwnedArrayBytes {
    /// Elements of one size, one after another.
    Fixed(Vec<u8>),
    /// Elements of any size, with offsets between them.
    Variable(Vec<u8>, Vec<usize>),
    /// What stands in each place, and a byte for each, 0 where the element is null.
    Optional(Box<OwnedArrayBytes>, Vec<u8>),
}

// All numbers but the first.
fn behind_first(numbers: &[usize]) -> &[usize]
    ensures { result.now ≡ drop 1 numbers.now }
{
    match numbers {
        [] => numbers,
        [_, rest @ ..] => rest,
    }
}

// Appends offsets, each of them so much further on.
fn append_offsets(offsets: &mut Vec<usize>, place: usize, more: &[usize]) -> Result<(), AllocError>
    ensures { OnOk result (offsets.new.items
        ≡ offsets.old.items ++ map (λ offset. place + offset) more.now) }
{
    offsets.reserve(more.len())?;
    for offset in more {
        let Some(next) = place.checked_add(*offset) else {
            return Err(AllocError);
        };
        offsets.push(next)?;
    }
    Ok(())
}

// Appends elements of any size.
fn append_values(
    value: &mut Vec<u8>,
    offsets: &mut Vec<usize>,
    more: &ArrayBytesVariableLength<'_>,
) -> Result<(), AllocError>
    ensures { OnOk result (variable_bytes value.new.items offsets.new.items
        ≡ bytes_joined (variable_bytes value.old.items offsets.old.items) (variable_of more.now)) }
{
    append_offsets(offsets, value.len(), behind_first(more.numbers()))?;
    value.extend_from_slice(more.items())
}

impl OwnedArrayBytes {
    /// The elements of array bytes, in the same memory where that is owned.
    ///
    /// # Errors
    /// [`AllocError`] where memory runs out.
    pub fn owned_from(alloc: Global, bytes: ArrayBytes<'static>) -> Result<Self, AllocError>
        ensures { IfOk result (λ v. owned_raw v ≡ raw_of bytes.entry) }
    {
        match bytes {
            ArrayBytes::Fixed(value) => {
                let value = value.into_owned(alloc)?;
                Ok(OwnedArrayBytes::Fixed(value))
            }
            ArrayBytes::Variable(variable) => {
                let (value, offsets) = variable.into_parts();
                let value = value.into_owned(alloc)?;
                let offsets = offsets.into_numbers().into_owned(alloc)?;
                Ok(OwnedArrayBytes::Variable(value, offsets))
            }
            ArrayBytes::Optional(optional) => {
                let (under, mask) = optional.into_parts();
                let under = Self::owned_from(alloc, Box::into_inner(under))?;
                let under = Box::new(alloc, under)?;
                let mask = mask.into_owned(alloc)?;
                Ok(OwnedArrayBytes::Optional(under, mask))
            }
        }
    }

    /// A copy of the elements of array bytes.
    ///
    /// # Errors
    /// [`AllocError`] where memory runs out.
    pub fn copied_from(alloc: Global, bytes: &ArrayBytes<'_>) -> Result<Self, AllocError>
        ensures { IfOk result (λ v. owned_raw v ≡ raw_of bytes.now) }
    {
        match bytes {
            ArrayBytes::Fixed(bytes) => {
                let value = bytes_in(bytes).to_vec(alloc)?;
                Ok(OwnedArrayBytes::Fixed(value))
            }
            ArrayBytes::Variable(variable) => {
                let value = variable.items().to_vec(alloc)?;
                let offsets = variable.numbers().to_vec(alloc)?;
                Ok(OwnedArrayBytes::Variable(value, offsets))
            }
            ArrayBytes::Optional(optional) => {
                let under = Self::copied_from(alloc, optional.data())?;
                let under = Box::new(alloc, under)?;
                let mask = optional.flags().to_vec(alloc)?;
                Ok(OwnedArrayBytes::Optional(under, mask))
            }
        }
    }

    /// The elements as array bytes, in the same memory.
    ///
    /// # Errors
    /// [`AllocError`] where memory runs out.
    pub fn into_array_bytes(self, alloc: Global) -> Result<ArrayBytes<'static>, AllocError>
        requires { are_sound (owned_raw self) ≡ true }
        ensures { IfOk result (λ v. raw_of v ≡ owned_raw self) }
    {
        match self {
            OwnedArrayBytes::Fixed(value) => Ok(ArrayBytes::Fixed(CowSlice::Owned(value))),
            OwnedArrayBytes::Variable(value, offsets) => {
                Ok(ArrayBytes::Variable(ArrayBytesVariableLength::from_gathered(value, offsets)))
            }
            OwnedArrayBytes::Optional(under, mask) => {
                let under = Box::into_inner(under).into_array_bytes(alloc)?;
                let under = Box::new(alloc, under)?;
                Ok(ArrayBytes::Optional(ArrayBytesOptional::new(under, CowSlice::Owned(mask))))
            }
        }
    }

    /// Appends the elements of a piece of the same kind. After an error there may be a part of them.
    ///
    /// # Errors
    /// [`AllocError`] where memory runs out.
    pub fn append(&mut self, piece: &ArrayBytes<'_>) -> Result<(), AllocError>
        requires { are_alike (owned_raw self.old) (raw_of piece.now) ≡ true }
        ensures { OnOk result
            (owned_raw self.new ≡ bytes_joined (owned_raw self.old) (raw_of piece.now)) }
    {
        match self {
            OwnedArrayBytes::Fixed(value) => match piece {
                ArrayBytes::Fixed(more) => value.extend_from_slice(bytes_in(more)),
                ArrayBytes::Variable(_) => unreachable!(),
                ArrayBytes::Optional(_) => unreachable!(),
            },
            OwnedArrayBytes::Variable(value, offsets) => match piece {
                ArrayBytes::Variable(more) => append_values(value, offsets, more),
                ArrayBytes::Fixed(_) => unreachable!(),
                ArrayBytes::Optional(_) => unreachable!(),
            },
            OwnedArrayBytes::Optional(under, mask) => match piece {
                ArrayBytes::Optional(more) => {
                    under.append(more.data())?;
                    mask.extend_from_slice(more.flags())
                }
                ArrayBytes::Fixed(_) => unreachable!(),
                ArrayBytes::Variable(_) => unreachable!(),
            },
        }
    }

    /// Copies the elements of one size that bytes over another box share with the box of these, level by level.
    #[tactic(auto, using(zarrs_codec_array_bytes::proofs::CheckLaws::fixed_long, zarrs_codec_array_bytes::proofs::CheckLaws::mask_long, zarrs_codec_array_bytes::proofs::CheckLaws::inner_long, zarrs_codec_array_bytes::proofs::RowLaws::one_byte))]
    pub fn copy_overlap(
        &mut self,
        subset: &ArraySubset,
        bytes: &ArrayBytes<'_>,
        bytes_subset: &ArraySubset,
        size: usize,
    )
        requires some { 0 < size }
        requires rank { length (region subset.now) ≡ length (region bytes_subset.now) }
        requires fixed { holds_fixed (owned_raw self.old) ≡ true }
        requires alike { are_alike (owned_raw self.old) (raw_of bytes.now) ≡ true }
        requires long { lengths_refusal size (count (region subset.now)) (owned_raw self.old)
            ≡ None }
        requires bytes_long { lengths_refusal size (count (region bytes_subset.now))
            (raw_of bytes.now) ≡ None }
        ensures copies { CopiesOverlap size (region subset.now) (region bytes_subset.now)
            (raw_of bytes.now) (owned_raw self.old) (owned_raw self.new) }
        ensures fixed { holds_fixed (owned_raw self.new) ≡ true }
    {
        match self {
            OwnedArrayBytes::Fixed(value) => match bytes {
                ArrayBytes::Fixed(more) => {
                    copy_into(value, subset, bytes_in(more), bytes_subset, size);
                }
                ArrayBytes::Variable(_) => unreachable!(),
                ArrayBytes::Optional(_) => unreachable!(),
            },
            OwnedArrayBytes::Variable(_, _) => unreachable!(),
            OwnedArrayBytes::Optional(under, mask) => match bytes {
                ArrayBytes::Optional(more) => {
                    under.copy_overlap(subset, more.data(), bytes_subset, size);
                    copy_into(mask, subset, more.flags(), bytes_subset, 1);
                }
                ArrayBytes::Fixed(_) => unreachable!(),
                ArrayBytes::Variable(_) => unreachable!(),
            },
        }
    }
}
