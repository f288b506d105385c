//! Rounding of whole numbers to some leading binary digits.

ghost use Rattle.std.specs.Prelude.{◌≡◌, ◌≤◌, ◌<◌, ◌-◌, ◌^◌, length};
ghost use Rattle.zarr_model.specs.Codec.{number_of_bytes, low_bytes};
ghost use Rattle.zarrs_data_type_bytes.specs.Rounding.{without_low, rounded, rounded_bytes, elements_rounded};

// A number without its low digits, rounded and no greater than the greatest of its size.
#[tactic(auto, using(std::proofs::lemmas::Nat::one_shl, std::proofs::lemmas::Nat::pow_pos))]
fn without_low(number: u64, low: u32, greatest: u64) -> u64
    requires some { 0 < low }
    requires few { low < 64 }
    ensures { result ≡ without_low low greatest number }
{
    let quantum = 1u64 << low;
    let half = 1u64 << (low - 1);
    let up = half - 1 + number / quantum % 2;
    number.saturating_add(up).min(greatest) / quantum * quantum
}

// A number with all but its leading digits dropped.
fn round_number(number: u64, size: usize, greatest: u64, keepbits: u32) -> u64
    requires keeps { 0 < keepbits }
    requires greatest { greatest ≡ 256 ^ size - 1 }
    ensures { result ≡ rounded keepbits size number }
{
    let digits = 64 - number.leading_zeros();
    if keepbits < digits {
        without_low(number, digits - keepbits, greatest)
    } else {
        number
    }
}

/// The number that bytes are, the lowest first.
pub fn read_number(bytes: &[u8]) -> u64
    requires { length bytes.now ≤ 8 }
    ensures value { result ≡ number_of_bytes bytes.now }
    ensures below { result < 256 ^ length bytes.now }
{
    match bytes {
        [] => 0,
        [low, rest @ ..] => *low as u64 + 256 * read_number(rest),
    }
}

// Writes the lowest bytes of a number, the lowest first.
fn write_number(bytes: &mut [u8], number: u64)
    ensures { bytes.new ≡ low_bytes (length bytes.old) number }
{
    let mut rest = number;
    for byte in bytes {
        *byte = (rest % 256) as u8;
        rest /= 256;
    }
}

fn round_piece(bytes: &mut [u8], greatest: u64, keepbits: u32)
    requires keeps { 0 < keepbits }
    requires small { length bytes.old ≤ 8 }
    requires greatest { greatest ≡ 256 ^ length bytes.old - 1 }
    ensures { bytes.new ≡ rounded_bytes keepbits (length bytes.old) bytes.old }
{
    let number = round_number(read_number(bytes), bytes.len(), greatest, keepbits);
    write_number(bytes, number);
}

fn round_pieces(bytes: &mut [u8], size: usize, greatest: u64, keepbits: u32)
    requires keeps { 0 < keepbits }
    requires some { 0 < size }
    requires small { size ≤ 8 }
    requires greatest { greatest ≡ 256 ^ size - 1 }
    ensures { bytes.new ≡ elements_rounded keepbits size bytes.old }
{
    for k in 0..bytes.len() / size {
        round_piece(&mut bytes[k * size..k * size + size], greatest, keepbits);
    }
}

/// Rounds whole numbers of one byte to their `keepbits` leading binary digits.
///
/// A number counts as unsigned, and is not rounded up past the greatest of its size.
pub fn round_bytes_int8(bytes: &mut [u8], keepbits: u32)
    requires { 0 < keepbits }
    ensures { bytes.new ≡ elements_rounded keepbits 1 bytes.old }
{
    round_pieces(bytes, 1, 0xff, keepbits);
}

/// Rounds whole numbers of 2 bytes to their `keepbits` leading binary digits.
///
/// A number counts as unsigned, and is not rounded up past the greatest of its size.
pub fn round_bytes_int16(bytes: &mut [u8], keepbits: u32)
    requires { 0 < keepbits }
    ensures { bytes.new ≡ elements_rounded keepbits 2 bytes.old }
{
    round_pieces(bytes, 2, 0xffff, keepbits);
}

/// Rounds whole numbers of 4 bytes to their `keepbits` leading binary digits.
///
/// A number counts as unsigned, and is not rounded up past the greatest of its size.
pub fn round_bytes_int32(bytes: &mut [u8], keepbits: u32)
    requires { 0 < keepbits }
    ensures { bytes.new ≡ elements_rounded keepbits 4 bytes.old }
{
    round_pieces(bytes, 4, 0xffff_ffff, keepbits);
}

/// Rounds whole numbers of 8 bytes to their `keepbits` leading binary digits.
///
/// A number counts as unsigned, and is not rounded up past the greatest of its size.
pub fn round_bytes_int64(bytes: &mut [u8], keepbits: u32)
    requires { 0 < keepbits }
    ensures { bytes.new ≡ elements_rounded keepbits 8 bytes.old }
{
    round_pieces(bytes, 8, u64::MAX, keepbits);
}
