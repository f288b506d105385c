//! Equality of array bytes: of optional ones by the elements that are there.

ghost use Rattle.std.specs.Prelude.{◌≡◌, ◌<◌, ◌+◌, ◌^◌, ◌/◌, length, bytes_eq};
ghost use Rattle.std.specs.List.{list_all, range_with_len};
ghost use Rattle.zarrs_codec_slices.specs.Picking.{piece_of};
ghost use Rattle.zarrs_codec_slices.specs.Same.{same_shape, same_at, same_under, same_optional, same_array_bytes};
ghost use Rattle.zarrs_codec_array_bytes.specs.Raw.{raw_of, data_of, mask_of, variable_of, numbers_of};

use super::{
    ArrayBytes, ArrayBytesOffsets, ArrayBytesOptional, ArrayBytesVariableLength, bytes_in,
};
use zarrs_codec_slices::values::value_at;

fn same_bytes(a: &[u8], b: &[u8]) -> bool
    ensures { result ≡ bytes_eq a.now b.now }
{
    a == b
}

fn same_numbers(a: &[usize], b: &[usize]) -> bool
    ensures { result ≡ bytes_eq a.now b.now }
{
    a == b
}

// Whether the data are of the same kind, level by level, and fixed ones of equal length.
fn have_same_shape(a: &ArrayBytes<'_>, b: &ArrayBytes<'_>) -> bool
    ensures { result ≡ same_shape (raw_of a.now) (raw_of b.now) }
{
    match a {
        ArrayBytes::Fixed(x) => match b {
            ArrayBytes::Fixed(y) => bytes_in(x).len() == bytes_in(y).len(),
            ArrayBytes::Variable(_) => false,
            ArrayBytes::Optional(_) => false,
        },
        ArrayBytes::Variable(_) => match b {
            ArrayBytes::Variable(_) => true,
            ArrayBytes::Fixed(_) => false,
            ArrayBytes::Optional(_) => false,
        },
        ArrayBytes::Optional(x) => match b {
            ArrayBytes::Optional(y) => have_same_shape(x.data(), y.data()),
            ArrayBytes::Fixed(_) => false,
            ArrayBytes::Variable(_) => false,
        },
    }
}

// The bytes of an element of fixed size.
#[tactic(auto, using(zarrs_codec_slices::proofs::SameLaws::row_within))]
fn piece(bytes: &[u8], count: usize, place: usize) -> &[u8]
    requires { place < count }
    ensures { result.now ≡ piece_of (length bytes.now / count) bytes.now place }
{
    let size = bytes.len() / count;
    let from = place * size;
    &bytes[from..from + size]
}

// Whether the elements at a place are equal; two places without an element are.
fn are_same_at(a: &ArrayBytes<'_>, b: &ArrayBytes<'_>, count: usize, place: usize) -> bool
    requires { place < count }
    ensures { result ≡ same_at count place (raw_of a.now) (raw_of b.now) }
{
    match a {
        ArrayBytes::Fixed(x) => match b {
            ArrayBytes::Fixed(y) => same_bytes(
                piece(bytes_in(x), count, place),
                piece(bytes_in(y), count, place),
            ),
            ArrayBytes::Variable(_) => false,
            ArrayBytes::Optional(_) => false,
        },
        ArrayBytes::Variable(x) => match b {
            ArrayBytes::Variable(y) => are_same_values(x, y, place),
            ArrayBytes::Fixed(_) => false,
            ArrayBytes::Optional(_) => false,
        },
        ArrayBytes::Optional(x) => match b {
            ArrayBytes::Optional(y) => {
                if place < x.flags().len() {
                    if place < y.flags().len() {
                        if x.flags()[place] != y.flags()[place] {
                            return false;
                        }
                        if x.flags()[place] == 0 {
                            return true;
                        }
                        are_same_at(x.data(), y.data(), count, place)
                    } else {
                        false
                    }
                } else {
                    !(place < y.flags().len())
                }
            }
            ArrayBytes::Fixed(_) => false,
            ArrayBytes::Variable(_) => false,
        },
    }
}

// The same of elements of any size.
fn are_same_values(
    x: &ArrayBytesVariableLength<'_>,
    y: &ArrayBytesVariableLength<'_>,
    place: usize,
) -> bool
    requires { place + 1 < 2 ^ 64 }
    ensures { result ≡ same_at 0 place (variable_of x.now) (variable_of y.now) }
{
    if place + 1 < x.numbers().len() {
        if place + 1 < y.numbers().len() {
            same_bytes(
                value_at(x.items(), x.numbers(), place as u64),
                value_at(y.items(), y.numbers(), place as u64),
            )
        } else {
            false
        }
    } else {
        !(place + 1 < y.numbers().len())
    }
}

// Whether the elements at a place are equal, or the mask has none there.
fn is_same_under(mask: &[u8], a: &ArrayBytes<'_>, b: &ArrayBytes<'_>, place: usize) -> bool
    requires { place < length mask.now }
    ensures { result ≡ same_under mask.now (raw_of a.now) (raw_of b.now) place }
{
    if mask[place] == 0 {
        return true;
    }
    are_same_at(a, b, mask.len(), place)
}

// The same at every place.
fn are_same_under(mask: &[u8], a: &ArrayBytes<'_>, b: &ArrayBytes<'_>) -> bool
    ensures { result ≡ list_all (same_under mask.now (raw_of a.now) (raw_of b.now))
        (range_with_len 0 (length mask.now)) }
{
    for place in 0..mask.len() {
        let same = is_same_under(mask, a, b, place);
        if !same {
            return false;
        }
    }
    true
}

// Whether the masks are equal, the data are of one kind, and the elements that are there are equal.
fn are_same_optional(a: &ArrayBytesOptional<'_>, b: &ArrayBytesOptional<'_>) -> bool
    ensures { result
        ≡ same_optional (mask_of a.now) (data_of a.now) (mask_of b.now) (data_of b.now) }
{
    same_bytes(a.flags(), b.flags())
        && (have_same_shape(a.data(), b.data()) && are_same_under(a.flags(), a.data(), b.data()))
}

// Whether the bytes and the offsets are equal.
fn are_same_variable(a: &ArrayBytesVariableLength<'_>, b: &ArrayBytesVariableLength<'_>) -> bool
    ensures { result ≡ same_array_bytes (variable_of a.now) (variable_of b.now) }
{
    same_bytes(a.items(), b.items()) && same_numbers(a.numbers(), b.numbers())
}

// Whether both are of one kind, with equal bytes, equal bytes and offsets, or equal optional elements.
fn are_same(a: &ArrayBytes<'_>, b: &ArrayBytes<'_>) -> bool
    ensures { result ≡ same_array_bytes (raw_of a.now) (raw_of b.now) }
{
    match a {
        ArrayBytes::Fixed(x) => match b {
            ArrayBytes::Fixed(y) => same_bytes(bytes_in(x), bytes_in(y)),
            ArrayBytes::Variable(_) => false,
            ArrayBytes::Optional(_) => false,
        },
        ArrayBytes::Variable(x) => match b {
            ArrayBytes::Variable(y) => are_same_variable(x, y),
            ArrayBytes::Fixed(_) => false,
            ArrayBytes::Optional(_) => false,
        },
        ArrayBytes::Optional(x) => match b {
            ArrayBytes::Optional(y) => are_same_optional(x, y),
            ArrayBytes::Fixed(_) => false,
            ArrayBytes::Variable(_) => false,
        },
    }
}

// Offsets are equal where all numbers are.
impl PartialEq for ArrayBytesOffsets<'_> {
    ghost use Rattle.std.specs.Cmp.{on_per};
    ghost use Rattle.std.specs.Ordering.{on};
    ghost use Rattle.zarrs_codec_slices.proofs.EqualityLaws.{bytes_per};

    ghost eq = { on numbers_of bytes_eq };

    ghost laws = { on_per numbers_of bytes_per };

    fn eq(&self, other: &Self) -> bool {
        same_numbers(self.as_slice(), other.as_slice())
    }
}

// Elements of any size are equal where the bytes and the offsets are.
impl PartialEq for ArrayBytesVariableLength<'_> {
    ghost use Rattle.std.specs.Cmp.{on_per};
    ghost use Rattle.std.specs.Ordering.{on};
    ghost use Rattle.zarrs_codec_slices.proofs.EqualityLaws.{same_per};

    ghost eq = { on variable_of same_array_bytes };

    ghost laws = { on_per variable_of same_per };

    fn eq(&self, other: &Self) -> bool {
        are_same_variable(self, other)
    }
}

// Optional elements are equal where the masks are, the data are of one kind, and the elements that are there are equal.
impl PartialEq for ArrayBytesOptional<'_> {
    ghost use Rattle.std.specs.Cmp.{on_per};
    ghost use Rattle.std.specs.Ordering.{on};
    ghost use Rattle.zarrs_codec_slices.proofs.EqualityLaws.{same_per};
    ghost use Rattle.zarrs_codec_array_bytes.specs.Raw.{optional_of};

    ghost eq = { on optional_of same_array_bytes };

    ghost laws = { on_per optional_of same_per };

    fn eq(&self, other: &Self) -> bool {
        are_same_optional(self, other)
    }
}

// Array bytes of one kind are equal where their bytes are, with the offsets, or as optional elements.
impl PartialEq for ArrayBytes<'_> {
    ghost use Rattle.std.specs.Cmp.{on_per};
    ghost use Rattle.std.specs.Ordering.{on};
    ghost use Rattle.zarrs_codec_slices.proofs.EqualityLaws.{same_per};

    ghost eq = { on raw_of same_array_bytes };

    ghost laws = { on_per raw_of same_per };

    fn eq(&self, other: &Self) -> bool {
        are_same(self, other)
    }
}
