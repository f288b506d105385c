//! How much an offset adds.

ghost use Rattle.std.specs.Prelude.{◌<◌, ◌≤◌, ◌^◌};
ghost use Rattle.zarr_codecs_elements.specs.Numbers.{integer_of, taken_off, TakesOff};

/// How much is added to a number where an offset is taken off (`decoding`) or put on, modulo a number.
///
/// The offset is `distance`, or `-1 - distance` where it is below 0.
#[tactic(auto, using(crate::proofs::AmountLaws::takes_below, crate::proofs::AmountLaws::takes_above, crate::proofs::AmountLaws::puts_above, crate::proofs::AmountLaws::puts_below))]
pub fn amount_of(is_below: bool, distance: u64, modulus: u128, decoding: bool) -> u64
    requires fits { modulus ≤ 2 ^ 64 }
    requires positive { 0 < modulus }
    ensures { TakesOff modulus (taken_off decoding (integer_of is_below distance)) result }
{
    if is_below {
        let up = (distance as u128 + 1) % modulus;
        if decoding {
            up as u64
        } else {
            ((modulus - up) % modulus) as u64
        }
    } else {
        let up = distance as u128 % modulus;
        if decoding {
            ((modulus - up) % modulus) as u64
        } else {
            up as u64
        }
    }
}
