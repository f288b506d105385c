//! Whether bytes are a fill value again and again, sixteen bytes at a time.

ghost use Rattle.std.specs.Prelude.{◌≡◌, ◌<◌, ◌≤◌, ◌+◌, ◌*◌, ◌%◌, ◌/◌, ◌↔◌, IsTrue, length};
ghost use Rattle.std.specs.Simd.Lanes.{chunk};
ghost use Rattle.zarrs_data_type_bytes.specs.Pieces.{repeated};

use crate::fill_value::all_pieces;
use std::simd::prelude::*;

// Whether two vectors are the same.
fn are_equal(a: u8x16, b: u8x16) -> bool
    ensures { IsTrue result ↔ (a ≡ b) }
{
    a.simd_ne(b).to_bitmask() == 0
}

// Whether the sixteen bytes at a place are these.
fn is_at(bytes: &[u8], place: usize, lanes: u8x16) -> bool
    requires { place + 16 ≤ length bytes.now }
    ensures { IsTrue result ↔ (chunk place 16 bytes.now ≡ lanes) }
{
    are_equal(u8x16::from_slice(&bytes[place..]), lanes)
}

// Whether bytes are these sixteen again and again.
fn are_lanes(bytes: &[u8], lanes: u8x16) -> bool
    requires { length bytes.now % 16 ≡ 0 }
    ensures { IsTrue result ↔ (bytes.now ≡ repeated (length bytes.now / 16) lanes) }
{
    for k in 0..bytes.len() / 16 {
        if !is_at(bytes, k * 16, lanes) {
            return false;
        }
    }
    true
}

// Whether bytes, which are whole vectors, are the fill again and again: the first vector by a plain loop, and then each
// other one as it is.
fn all_vectors(fill: &[u8], bytes: &[u8]) -> bool
    requires some { 0 < length fill.now }
    requires lanes { 16 % length fill.now ≡ 0 }
    requires whole { length bytes.now % 16 ≡ 0 }
    ensures { IsTrue result ↔ (bytes.now ≡ repeated (length bytes.now / length fill.now) fill.now) }
{
    if bytes.len() < 16 {
        return true;
    }
    if !all_pieces(fill, &bytes[..16]) {
        return false;
    }
    are_lanes(bytes, u8x16::from_slice(bytes))
}

// Whether each piece of the fill's length is the fill, by vectors as far as they go, and then by a plain loop.
pub(crate) fn by_lanes(fill: &[u8], bytes: &[u8]) -> bool
    requires some { 0 < length fill.now }
    requires lanes { 16 % length fill.now ≡ 0 }
    requires whole { length bytes.now % length fill.now ≡ 0 }
    ensures { IsTrue result ↔ (bytes.now ≡ repeated (length bytes.now / length fill.now) fill.now) }
{
    let (front, rest) = bytes.split_at(bytes.len() / 16 * 16);
    if !all_pieces(fill, rest) {
        return false;
    }
    all_vectors(fill, front)
}
