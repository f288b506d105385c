//! Where decoded elements are put.

ghost use Rattle.std.specs.Prelude.{◌≡◌, ◌==◌, ℕ, length, ◌<◌, ◌≤◌, drop, [], slice_index_or, IfErr, IfOk};
ghost use Rattle.zarr_model.specs.Region.{count};
ghost use Rattle.zarrs_array_subset.specs.ArraySubset.{region};
ghost use Rattle.zarrs_codec_array_bytes.specs.Raw.{raw_of};
ghost use Rattle.zarrs_codec_array_bytes_parts.specs.declared.array_bytes_fixed_disjoint_view.ArrayBytesFixedDisjointView.{ArrayBytesFixedDisjointView};
ghost use Rattle.zarrs_codec_array_bytes_parts.specs.TargetViews.{inner_view, mask_views};
ghost use Rattle.zarrs_codec_array_bytes.specs.Refusals.{told, fine};
ghost use Rattle.zarrs_codec_array_bytes_parts.specs.Targets.{LeftBehind, kinds_answer, view_answer, sizes_answer, target_answer, IsViewWritten, ArePut};

use crate::array_bytes_fixed_disjoint_view::ArrayBytesFixedDisjointView;
use zarrs_codec_array_bytes::ArrayBytes;
use zarrs_codec_array_bytes::array_bytes::bytes_in;
use zarrs_codec_error::{
    CodecError, ExpectedFixedLengthBytesError, ExpectedOptionalBytesError, InvalidBytesLengthError,
};

/// Where decoded elements of one size are put, or optional ones over such.
#[derive(Drop)]
pub enum ArrayBytesDecodeIntoTarget<'v, 'a> {
    /// Elements of one size: their view.
    Fixed(&'v mut ArrayBytesFixedDisjointView<'a>),
    /// Optional elements: the view of their innermost data, and that of each level's mask, the outermost
    /// first. The masks' elements have one byte.
    Optional(&'v mut ArrayBytesFixedDisjointView<'a>, &'v mut [ArrayBytesFixedDisjointView<'a>]),
}

// Tests the kinds of all levels, the outermost first.
fn expect_kinds(bytes: &ArrayBytes<'_>, num_masks: usize) -> Result<(), CodecError>
    ensures { told result ≡ kinds_answer num_masks (raw_of bytes.now) }
{
    match bytes {
        ArrayBytes::Fixed(_) => {
            if num_masks == 0 {
                return Ok(());
            }
            Err(CodecError::ExpectedOptionalBytes(ExpectedOptionalBytesError))
        }
        ArrayBytes::Variable(_) => Err(CodecError::ExpectedFixedLengthBytes(
            ExpectedFixedLengthBytesError,
        )),
        ArrayBytes::Optional(optional) => {
            if num_masks == 0 {
                return Err(CodecError::ExpectedFixedLengthBytes(ExpectedFixedLengthBytesError));
            }
            expect_kinds(optional.data(), num_masks - 1)
        }
    }
}

// Tests that so many bytes are the elements of a view's box.
fn expect_size(len: usize, view: &ArrayBytesFixedDisjointView<'_>) -> Result<(), CodecError>
    ensures { told result ≡ view_answer len view.now }
{
    match view.expect_len(len) {
        Ok(()) => Ok(()),
        Err(error) => Err(CodecError::UnexpectedChunkDecodedSize(error)),
    }
}

// Tests the lengths of all masks, the outermost first, and then that of the data.
fn expect_sizes(
    bytes: &ArrayBytes<'_>,
    masks: &[ArrayBytesFixedDisjointView<'_>],
    data: &ArrayBytesFixedDisjointView<'_>,
) -> Result<(), CodecError>
    ensures { told result ≡ sizes_answer (raw_of bytes.now) masks.now «data».now }
{
    match bytes {
        ArrayBytes::Fixed(value) => expect_size(bytes_in(value).len(), data),
        ArrayBytes::Variable(_) => Ok(()),
        ArrayBytes::Optional(optional) => match masks {
            [] => Ok(()),
            [mask, rest @ ..] => {
                expect_size(bytes_in(optional.mask()).len(), mask)?;
                expect_sizes(optional.data(), rest, data)
            }
        },
    }
}

// Writes bytes that are the elements of a view's box.
fn write(view: &mut ArrayBytesFixedDisjointView<'_>, bytes: &[u8])
    requires { view_answer (length bytes.now) view.old ≡ fine }
    ensures { IsViewWritten bytes.now view.old view.new }
{
    match view.copy_from_slice(bytes) {
        Ok(()) => (),
        Err(_) => unreachable!(),
    }
}

// Writes the mask of a level.
fn write_at(masks: &mut [ArrayBytesFixedDisjointView<'_>], level: usize, bytes: &[u8])
    requires within { level < length masks.old }
    requires fits { (d : ArrayBytesFixedDisjointView) →
        view_answer (length bytes.now) (slice_index_or masks.old level d) ≡ fine }
    ensures long { length masks.new ≡ length masks.old }
    ensures before { (k : ℕ) (d : ArrayBytesFixedDisjointView) → k < level →
        slice_index_or masks.new k d ≡ slice_index_or masks.old k d }
    ensures after { (k : ℕ) (d : ArrayBytesFixedDisjointView) → level < k →
        slice_index_or masks.new k d ≡ slice_index_or masks.old k d }
    ensures written { (d : ArrayBytesFixedDisjointView) → IsViewWritten bytes.now
        (slice_index_or masks.old level d) (slice_index_or masks.new level d) }
{
    write(&mut masks[level], bytes);
}

// Writes the masks from a level on, and the data, which have been tested.
fn write_levels(
    bytes: &ArrayBytes<'_>,
    masks: &mut [ArrayBytesFixedDisjointView<'_>],
    level: usize,
    data: &mut ArrayBytesFixedDisjointView<'_>,
)
    requires within { level ≤ length masks.old }
    requires fits { target_answer (raw_of bytes.now) (drop level masks.old) «data».old ≡ fine }
    ensures long { length masks.new ≡ length masks.old }
    ensures before { (k : ℕ) (d : ArrayBytesFixedDisjointView) → k < level →
        slice_index_or masks.new k d ≡ slice_index_or masks.old k d }
    ensures put { ArePut (raw_of bytes.now) (drop level masks.old) (drop level masks.new)
        «data».old «data».new }
{
    match bytes {
        ArrayBytes::Fixed(value) => write(data, bytes_in(value)),
        ArrayBytes::Variable(_) => unreachable!(),
        ArrayBytes::Optional(optional) => {
            write_at(masks, level, bytes_in(optional.mask()));
            write_levels(optional.data(), masks, level + 1, data);
        }
    }
}

// Tests all kinds and then all lengths.
fn expect_levels(
    bytes: &ArrayBytes<'_>,
    masks: &[ArrayBytesFixedDisjointView<'_>],
    data: &ArrayBytesFixedDisjointView<'_>,
) -> Result<(), CodecError>
    ensures { told result ≡ target_answer (raw_of bytes.now) masks.now «data».now }
{
    expect_kinds(bytes, masks.len())?;
    expect_sizes(bytes, masks, data)
}

// Puts elements of one size.
pub(crate) fn decode_into_fixed(
    bytes: &ArrayBytes<'_>,
    data: &mut ArrayBytesFixedDisjointView<'_>,
) -> Result<(), CodecError>
    ensures exact { told result ≡ target_answer (raw_of bytes.now) [] «data».old }
    ensures put { IfOk result (λ _. ArePut (raw_of bytes.now) [] [] «data».old «data».new) }
    ensures kept { IfErr result (λ _. «data».new ≡ «data».old) }
{
    expect_levels(bytes, &[], data)?;
    match bytes {
        ArrayBytes::Fixed(value) => write(data, bytes_in(value)),
        ArrayBytes::Variable(_) => unreachable!(),
        ArrayBytes::Optional(_) => unreachable!(),
    }
    Ok(())
}

// Puts optional elements.
pub(crate) fn decode_into_optional(
    bytes: &ArrayBytes<'_>,
    data: &mut ArrayBytesFixedDisjointView<'_>,
    masks: &mut [ArrayBytesFixedDisjointView<'_>],
) -> Result<(), CodecError>
    ensures exact { told result ≡ target_answer (raw_of bytes.now) masks.old «data».old }
    ensures put { IfOk result
        (λ _. ArePut (raw_of bytes.now) masks.old masks.new «data».old «data».new) }
    ensures kept { IfErr result (λ _. («data».new ≡ «data».old) × (masks.new ≡ masks.old)) }
{
    expect_levels(bytes, masks, data)?;
    write_levels(bytes, masks, 0, data);
    Ok(())
}

impl ArrayBytesDecodeIntoTarget<'_, '_> {
    /// The number of elements of the innermost data's view.
    pub fn num_elements(&self) -> u64
        ensures { result ≡ count (region (inner_view self.now).part.subset) }
    {
        match self {
            ArrayBytesDecodeIntoTarget::Fixed(data) => data.num_elements(),
            ArrayBytesDecodeIntoTarget::Optional(data, _) => data.num_elements(),
        }
    }
}

/// Puts elements where they belong: the innermost data into its view, and each mask into its own.
///
/// # Errors
/// [`CodecError`], by the first of these that applies; nothing is written then.
/// - By kind, from the outermost level on: `ExpectedFixedLengthBytes` for elements of variable length, and for
///   optional ones where the target has no mask left; `ExpectedOptionalBytes` for elements of one size where
///   it has one.
/// - `UnexpectedChunkDecodedSize` where a mask, from the outermost on, or else the data has another length than
///   its view's box.
pub fn decode_into_array_bytes_target(
    bytes: &ArrayBytes<'_>,
    target: ArrayBytesDecodeIntoTarget<'_, '_>,
) -> Result<(), CodecError>
    ensures exact { told result ≡ target_answer (raw_of bytes.now) (mask_views target.entry)
        (inner_view target.entry) }
    ensures put { IfOk result (λ _. LeftBehind
        (λ left. ArePut (raw_of bytes.now) [] [] (inner_view target.entry) left.0.now)
        (λ left. ArePut (raw_of bytes.now) (mask_views target.entry) left.1.0.now
        (inner_view target.entry) left.0.now) target.exit) }
    ensures kept { IfErr result (λ _. LeftBehind (λ left. left.0.now ≡ inner_view target.entry)
        (λ left. (left.0.now ≡ inner_view target.entry)
        × (left.1.0.now ≡ mask_views target.entry)) target.exit) }
{
    match target {
        ArrayBytesDecodeIntoTarget::Fixed(data) => decode_into_fixed(bytes, data),
        ArrayBytesDecodeIntoTarget::Optional(data, masks) => {
            decode_into_optional(bytes, data, masks)
        }
    }
}
