//! Elements under masks, cleared where they are null.

ghost use Rattle.std.specs.Prelude.{◌≡◌, ◌<◌, ◌+◌, ◌*◌, ◌^◌, ◌++◌, ◌∷◌, [], true, Some, None, List, length, flat_map, IfOk, OnOk};
ghost use Rattle.zarrs_codec_traits.specs.Prelude.{Element, ends_from, meaning, array_bytes};
ghost use Rattle.zarrs_codec_traits.specs.Prelude.{raw_of, kind_seen, lengths_refusal};
ghost use Rattle.zarrs_codec_slices.specs.Picking.{are_within};
ghost use Rattle.zarr_rechunk.specs.Cleared.{kept_piece, kept_value, kept_flag, pieces_under, values_under, mask_under, under_mask, cleared, fit_masks, AreElements};

use std::alloc::{AllocError, Global};
use std::borrow::CowSlice;
use zarrs_codec_array_bytes::array_bytes::bytes_in;
use zarrs_codec_array_bytes::array_bytes::step::element_size;
use zarrs_codec_array_bytes::{ArrayBytes, ArrayBytesVariableLength};
use zarrs_codec_slices::values::value_at;
use zarrs_data_type::DataType;

// Appends an element of one size, or as many zero bytes where it is null.
fn push_piece(cleared: &mut Vec<u8>, flag: u8, piece: &[u8]) -> Result<(), AllocError>
    requires { length cleared.old.items + length piece.now < 2 ^ 64 }
    ensures { OnOk result (cleared.new.items ≡ cleared.old.items ++ kept_piece flag piece.now) }
{
    if flag == 0 {
        cleared.resize(cleared.len() + piece.len(), 0)
    } else {
        cleared.extend_from_slice(piece)?;
        Ok(())
    }
}

// Elements of one size under a mask.
#[tactic(auto, using(crate::proofs::MaskLaws::piece_more, crate::proofs::MaskLaws::piece_fits))]
fn clear_pieces(
    alloc: Global,
    value: &[u8],
    mask: &[u8],
    size: usize,
) -> Result<Vec<u8>, AllocError>
    requires { length value.now ≡ length mask.now * size }
    ensures { IfOk result (λ v. v.items ≡ pieces_under size mask.now value.now) }
{
    let mut cleared = Vec::with_capacity(alloc, value.len())?;
    let mut left = value;
    for flag in mask {
        let (piece, rest) = left.split_at(size);
        push_piece(&mut cleared, *flag, piece)?;
        left = rest;
    }
    Ok(cleared)
}

// Appends an element of any size and its end, or none of its bytes where it is null.
fn push_value(
    bytes: &mut Vec<u8>,
    ends: &mut Vec<usize>,
    flag: u8,
    value: &[u8],
) -> Result<(), AllocError>
    ensures bytes { OnOk result (bytes.new.items ≡ bytes.old.items ++ kept_value flag value.now) }
    ensures ends { OnOk result (ends.new.items ≡ ends.old.items ++ length bytes.new.items ∷ []) }
{
    if flag != 0 {
        bytes.extend_from_slice(value)?;
    }
    ends.push(bytes.len())?;
    Ok(())
}

// Elements of any size under a mask: their bytes and their offsets.
#[tactic(auto, using(crate::proofs::MaskLaws::none_grown, crate::proofs::MaskLaws::one_grown, crate::proofs::MaskLaws::all_grown))]
fn clear_values(
    alloc: Global,
    value: &[u8],
    offsets: &[usize],
    mask: &[u8],
) -> Result<(Vec<u8>, Vec<usize>), AllocError>
    requires within { are_within value.now offsets.now ≡ true }
    requires long { length offsets.now ≡ length mask.now + 1 }
    ensures values { IfOk result (λ v. v.0.items
        ≡ flat_map (λ piece. piece) (values_under mask.now offsets.now value.now)) }
    ensures offsets { IfOk result (λ v. v.1.items
        ≡ 0 ∷ ends_from 0 (values_under mask.now offsets.now value.now)) }
    ensures within { IfOk result (λ v. are_within v.0.items v.1.items ≡ true) }
{
    let mut bytes = Vec::new(alloc);
    let mut ends = Vec::with_capacity(alloc, offsets.len())?;
    ends.push(0)?;
    for place in 0..mask.len() {
        push_value(
            &mut bytes,
            &mut ends,
            mask[place],
            value_at(value, offsets, place as u64),
        )?;
    }
    Ok((bytes, ends))
}

// The mask byte of an element, or 0 where it is null above.
fn flag_under(above: u8, flag: u8) -> u8
    ensures { result ≡ kept_flag above flag }
{
    if above == 0 { 0 } else { flag }
}

// A mask under a mask.
fn clear_mask(alloc: Global, above: &[u8], mask: &[u8]) -> Result<Vec<u8>, AllocError>
    requires { length mask.now ≡ length above.now }
    ensures { IfOk result (λ v. v.items ≡ mask_under above.now mask.now) }
{
    let mut cleared = Vec::with_capacity(alloc, mask.len())?;
    for place in 0..above.len() {
        cleared.push(flag_under(above[place], mask[place]))?;
    }
    Ok(cleared)
}

// Elements of any kind under a mask.
#[tactic(auto, using(zarrs_codec_array_bytes::proofs::CheckLaws::fixed_long, zarrs_codec_array_bytes::proofs::CheckLaws::variable_long, crate::proofs::MaskLaws::mask_fits, crate::proofs::MaskLaws::inner_fits))]
fn clear_under(
    alloc: Global,
    bytes: &ArrayBytes<'_>,
    mask: &[u8],
    size: usize,
) -> Result<ArrayBytes<'static>, AllocError>
    requires { lengths_refusal size (length mask.now) (raw_of bytes.now) ≡ None }
    ensures { IfOk result (λ v. raw_of v ≡ under_mask size mask.now (raw_of bytes.now)) }
{
    match bytes {
        ArrayBytes::Fixed(value) => {
            let value = clear_pieces(alloc, bytes_in(value), mask, size)?;
            Ok(ArrayBytes::Fixed(CowSlice::Owned(value)))
        }
        ArrayBytes::Variable(variable) => {
            let (value, ends) = clear_values(alloc, variable.items(), variable.numbers(), mask)?;
            Ok(ArrayBytes::Variable(ArrayBytesVariableLength::from_gathered(value, ends)))
        }
        ArrayBytes::Optional(optional) => {
            let under = clear_mask(alloc, mask, optional.flags())?;
            let inner = clear_under(alloc, optional.data(), &under, size)?;
            inner.with_optional_mask(alloc, CowSlice::Owned(under))
        }
    }
}

// Elements of any kind, cleared under their outermost mask.
fn clear_levels(
    alloc: Global,
    bytes: &ArrayBytes<'_>,
    size: usize,
) -> Result<ArrayBytes<'static>, AllocError>
    requires { fit_masks size (raw_of bytes.now) ≡ None }
    ensures { IfOk result (λ v. raw_of v ≡ cleared size (raw_of bytes.now)) }
{
    match bytes {
        ArrayBytes::Fixed(_) => bytes.try_clone(alloc),
        ArrayBytes::Variable(_) => bytes.try_clone(alloc),
        ArrayBytes::Optional(optional) => {
            let mask = optional.flags().to_vec(alloc)?;
            let inner = clear_under(alloc, optional.data(), &mask, size)?;
            inner.with_optional_mask(alloc, CowSlice::Owned(mask))
        }
    }
}

/// The same elements, owned, with zero bytes, no bytes or mask 0 under each null.
///
/// # Errors
/// [`AllocError`] where memory runs out.
pub fn clear_nulls(
    alloc: Global,
    bytes: &ArrayBytes<'_>,
    data_type: &DataType,
) -> Result<ArrayBytes<'static>, AllocError>
    requires { AreElements (kind_seen data_type.now) (raw_of bytes.now) }
    ensures { (list : List Element) →
        meaning (kind_seen data_type.now) (length list) (raw_of bytes.now) ≡ Some list →
        IfOk result (λ v. raw_of v ≡ array_bytes (kind_seen data_type.now) list) }
{
    clear_levels(alloc, bytes, element_size(data_type))
}
