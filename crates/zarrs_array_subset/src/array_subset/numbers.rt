//! Steps over lists of numbers, place by place and as far as all lists go.

ghost use Rattle.std.specs.Prelude.{◌&&◌, IfSome, IfNone, ◌-◌, min, ◌≡◌, ◌<◌, ◌^◌, IfOk, map, nat_lt, nat_le, nat_eq, ◌+◌, zip, replicate, length, true};
ghost use Rattle.std.specs.List.{list_all, list_any};
ghost use Rattle.std.specs.Option.{SomeIff};
ghost use Rattle.std.specs.Int.NonZero.{non_zero_u64_get};
ghost use Rattle.zarr_model.specs.Region.{count_of};
ghost use Rattle.zarrs_array_subset.specs.Boxes.{is_box, sums_up, differences, maxes, mins, are_in, box_in, can_move, ends_in_bounds, is_rising, is_rising_inc, lengths_shared, lengths_to};

use std::alloc::{AllocError, Global};
use std::num::NonZeroU64;
use std::ops::Range;

// Whether each end fits `u64`.
fn ends_fit_in(start: &[u64], shape: &[u64]) -> bool
    ensures { result ≡ list_all (λ p. nat_lt (p.0 + p.1) (2 ^ 64)) (zip start.now shape.now) }
{
    start
        .iter()
        .zip(shape)
        .all(|(s, n)| s.checked_add(*n).is_some())
}

// Whether no number of the one list is above that of the other.
pub(crate) fn is_below(low: &[u64], high: &[u64]) -> bool
    ensures { result ≡ list_all (λ p. nat_le p.0 p.1) (zip low.now high.now) }
{
    low.iter().zip(high).all(|(a, b)| *a <= *b)
}

/// The starts of ranges.
///
/// # Errors
/// [`AllocError`] where memory runs out.
pub fn starts_of(alloc: Global, ranges: &[Range<u64>]) -> Result<Vec<u64>, AllocError>
    ensures { IfOk result (λ v. v.items ≡ map (λ r. r.start) ranges.now) }
{
    ranges.iter().map(|range| range.start).collect(alloc)
}

// The ends of ranges.
pub(crate) fn ends_of(alloc: Global, ranges: &[Range<u64>]) -> Result<Vec<u64>, AllocError>
    ensures { IfOk result (λ v. v.items ≡ map (λ r. r.end) ranges.now) }
{
    ranges.iter().map(|range| range.end).collect(alloc)
}

// The sums, which stop at the greatest number.
pub(crate) fn sums(alloc: Global, a: &[u64], b: &[u64]) -> Result<Vec<u64>, AllocError>
    ensures { IfOk result (λ v. v.items ≡ sums_up a.now b.now) }
{
    a.iter()
        .zip(b)
        .map(|(x, y)| x.saturating_add(*y))
        .collect(alloc)
}

/// The differences, place by place as far as both lists go, which stop at 0.
///
/// # Errors
/// [`AllocError`] where memory runs out.
pub fn differences(alloc: Global, a: &[u64], b: &[u64]) -> Result<Vec<u64>, AllocError>
    ensures { IfOk result (λ v. v.items ≡ differences a.now b.now) }
{
    a.iter()
        .zip(b)
        .map(|(x, y)| x.saturating_sub(*y))
        .collect(alloc)
}

// The greater of both numbers.
pub(crate) fn greater(alloc: Global, a: &[u64], b: &[u64]) -> Result<Vec<u64>, AllocError>
    ensures { IfOk result (λ v. v.items ≡ maxes a.now b.now) }
{
    a.iter().zip(b).map(|(x, y)| *x.max(y)).collect(alloc)
}

// The lesser of both numbers.
pub(crate) fn lesser(alloc: Global, a: &[u64], b: &[u64]) -> Result<Vec<u64>, AllocError>
    ensures { IfOk result (λ v. v.items ≡ mins a.now b.now) }
{
    a.iter().zip(b).map(|(x, y)| *x.min(y)).collect(alloc)
}

// The length from the greater start to the lesser end in each dimension, or 0 where that is none.
#[tactic(auto, unfolding(crate::specs::Boxes::lengths_shared))]
pub(crate) fn shared_lengths(
    alloc: Global,
    start: &[u64],
    shape: &[u64],
    other_start: &[u64],
    other_shape: &[u64],
) -> Result<Vec<u64>, AllocError>
    ensures { IfOk result (λ v. v.items
        ≡ lengths_shared start.now shape.now other_start.now other_shape.now) }
{
    start
        .iter()
        .zip(shape)
        .zip(other_start)
        .zip(other_shape)
        .map(|(((s, n), o), m)| {
            let end = s.saturating_add(*n).min(o.saturating_add(*m));
            end.saturating_sub(*s.max(o))
        })
        .collect(alloc)
}

// Whether each index is in its span.
#[tactic(auto, unfolding(crate::specs::Boxes::are_in))]
pub(crate) fn are_within(start: &[u64], shape: &[u64], indices: &[u64]) -> bool
    ensures { result ≡ are_in start.now shape.now indices.now }
{
    start
        .iter()
        .zip(shape)
        .zip(indices)
        .all(|((s, n), i)| *s <= *i && *i < s.saturating_add(*n))
}

// Whether each end is within its length.
#[tactic(auto, unfolding(crate::specs::Boxes::ends_in_bounds))]
pub(crate) fn are_ends_within(start: &[u64], shape: &[u64], bounds: &[u64]) -> bool
    ensures { result ≡ ends_in_bounds start.now shape.now bounds.now }
{
    start
        .iter()
        .zip(shape)
        .zip(bounds)
        .all(|((s, n), bound)| s.saturating_add(*n) <= *bound)
}

// Whether each start, with the offset and the length added, fits `u64`.
#[tactic(auto, unfolding(crate::specs::Boxes::can_move))]
pub(crate) fn may_move(start: &[u64], shape: &[u64], offset: &[u64]) -> bool
    ensures { result ≡ can_move start.now shape.now offset.now }
{
    start.iter().zip(shape).zip(offset).all(|((s, n), o)| *s as u128 + *o as u128 + (*n as u128)
        < 1u128 << 64)
}

// Whether each start is at least, and each end at most the other's.
#[tactic(auto, unfolding(crate::specs::Boxes::box_in))]
pub(crate) fn are_boxes_within(
    start: &[u64],
    shape: &[u64],
    other_start: &[u64],
    other_shape: &[u64],
) -> bool
    ensures { result ≡ box_in start.now shape.now other_start.now other_shape.now }
{
    start
        .iter()
        .zip(shape)
        .zip(other_start)
        .zip(other_shape)
        .all(|(((s, n), o), m)| *o <= *s && s.saturating_add(*n) <= o.saturating_add(*m))
}

// Whether no start is above the end there, and no end is the greatest number.
fn rise_before_last(start: &[u64], end: &[u64]) -> bool
    ensures { result ≡ list_all (λ p. nat_le p.0 p.1 && nat_lt p.1 (2 ^ 64 - 1))
        (zip start.now end.now) }
{
    start
        .iter()
        .zip(end)
        .all(|(s, e)| *s <= *e && *e < u64::MAX)
}

// Makes each end the length from the start there, or 0, and this much more.
pub(crate) fn to_lengths(ends: &mut Vec<u64>, starts: &[u64], more: u64)
    requires { length ends.old.items ≡ length starts.now }
    ensures { ends.new.items ≡ lengths_to more ends.old.items starts.now }
{
    turn_to_lengths(ends.as_mut_slice(), starts, more)
}

#[tactic(auto, using(crate::proofs::Lengths::of_steps))]
fn turn_to_lengths(ends: &mut [u64], starts: &[u64], more: u64)
    requires { length ends.old ≡ length starts.now }
    ensures { ends.new ≡ lengths_to more ends.old starts.now }
{
    for (i, start) in starts.iter().enumerate() {
        ends[i] = ends[i].saturating_sub(*start).saturating_add(more);
    }
}

// The numbers before each.
pub(crate) fn numbers_before(alloc: Global, end: &[u64]) -> Result<Vec<u64>, AllocError>
    ensures { IfOk result (λ v. v.items ≡ map (λ e. e - 1) end.now) }
{
    end.iter().map(|e| e.saturating_sub(1)).collect(alloc)
}

/// Each start to the end there, as far as both lists go.
///
/// # Errors
/// [`AllocError`] where memory runs out.
pub fn ranges_between(
    alloc: Global,
    start: &[u64],
    end: &[u64],
) -> Result<Vec<Range<u64>>, AllocError>
    ensures { IfOk result (λ v. v.items
        ≡ map (λ p. record { start = p.0; end = p.1 }) (zip start.now end.now)) }
{
    start.iter().zip(end).map(|(s, e)| *s..*e).collect(alloc)
}

// Whether two lists have one length, and no start is above the end there.
#[tactic(auto, using(crate::proofs::BoxLaws::of_rising))]
pub(crate) fn rises(start: &[u64], end: &[u64]) -> bool
    ensures { result ≡ is_rising start.now end.now }
{
    start.len() == end.len() && is_below(start, end)
}

// The same, where each end is included.
#[tactic(auto, using(crate::proofs::BoxLaws::of_rising))]
pub(crate) fn rises_inc(start: &[u64], end: &[u64]) -> bool
    ensures { result ≡ is_rising_inc start.now end.now }
{
    start.len() == end.len() && rise_before_last(start, end)
}

// Whether two lists have one length, and each end fits `u64`.
#[tactic(auto, using(crate::proofs::BoxLaws::of_boxes))]
pub(crate) fn fits(start: &[u64], shape: &[u64]) -> bool
    ensures { result ≡ is_box start.now shape.now }
{
    start.len() == shape.len() && ends_fit_in(start, shape)
}

// A start of 0 for each length.
pub(crate) fn zeros(alloc: Global, shape: &[u64]) -> Result<Vec<u64>, AllocError>
    ensures { IfOk result (λ v. (v.items ≡ replicate (length shape.now) 0)
        × (is_box v.items shape.now ≡ true)) }
{
    let start = vec![in alloc; 0; shape.len()]?;
    Ok(start)
}

// As many lengths of 0.
pub(crate) fn no_lengths(alloc: Global, dimensionality: usize) -> Result<Vec<u64>, AllocError>
    ensures { IfOk result (λ v. v.items ≡ replicate dimensionality 0) }
{
    let lengths = vec![in alloc; 0; dimensionality]?;
    Ok(lengths)
}

// The numbers as `usize`.
pub(crate) fn to_usizes(alloc: Global, numbers: &[u64]) -> Result<Vec<usize>, AllocError>
    ensures { IfOk result (λ v. v.items ≡ numbers.now) }
{
    numbers.iter().map(|n| *n as usize).collect(alloc)
}

// The numbers, where none is 0.
pub(crate) fn non_zeros(
    alloc: Global,
    numbers: &[u64],
) -> Result<Option<Vec<NonZeroU64>>, AllocError>
    ensures some { IfOk result (λ o. IfSome o (λ v. map non_zero_u64_get v.items ≡ numbers.now)) }
    ensures none { IfOk result (λ o. IfNone o (count_of numbers.now ≡ 0)) }
{
    let mut out = Vec::with_capacity(alloc, numbers.len())?;
    for n in numbers {
        let Some(n) = NonZeroU64::new(*n) else {
            return Ok(None);
        };
        out.push(n)?;
    }
    Ok(Some(out))
}

// Whether a length is 0.
pub(crate) fn has_zero(shape: &[u64]) -> bool
    ensures { result ≡ nat_eq (count_of shape.now) 0 }
{
    some_is_zero(shape)
}

fn some_is_zero(shape: &[u64]) -> bool
    ensures { result ≡ list_any (λ n. nat_eq n 0) shape.now }
{
    shape.iter().any(|n| *n == 0)
}

/// The product of the lengths; none exactly where it passes `u64`. A length of 0 makes it 0,
/// however great the others are.
#[tactic(auto, using(crate::proofs::BoxLaws::of_products))]
pub fn shape_product(shape: &[u64]) -> Option<u64>
    ensures { SomeIff result (count_of shape.now < 2 ^ 64) (count_of shape.now) }
{
    match shape {
        [] => Some(1),
        [first, rest @ ..] => {
            if *first == 0 {
                return Some(0);
            }
            let count = shape_product(rest)?;
            first.checked_mul(count)
        }
    }
}
