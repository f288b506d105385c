//! The number CRC-32C of bytes.
//!
//! See <https://www.rfc-editor.org/rfc/rfc3720#section-12.1>.

ghost use Rattle.std.specs.Prelude.{◌≡◌, ◌*◌, ◌%◌, ℕ};
ghost use Rattle.zarr_codecs_to_bytes.specs.Crc32c.{crc32c, byte_step, bit_steps, register_after};
ghost use Rattle.zarr_codecs_to_bytes.specs.Crc32cTable.{IsTableOf};

use crate::crc32c_tables::tables;

// What a table has for the lowest byte of a number.
fn lowest_in(table: &[u32; 256], number: u64) -> u32
    ensures { (steps : ℕ) → IsTableOf steps table.now →
        result ≡ bit_steps steps (number % 256) }
{
    table[(number % 256) as usize]
}

// The register after one byte.
fn byte_step(register: u32, byte: u8) -> u32
    ensures { result ≡ byte_step register byte }
{
    let joined = register ^ u32::from(byte);
    (joined / 256) ^ lowest_in(&tables()[0], u64::from(joined))
}

// The register after eight bytes: each of them, and of the register, is led through all steps that are left to it.
fn word_step(register: u32, word: [u8; 8]) -> u32
    ensures { result ≡ register_after register word }
{
    let tables = tables();
    let joined = u64::from_le_bytes(word) ^ u64::from(register);
    lowest_in(&tables[0], joined >> 56)
        ^ lowest_in(&tables[1], joined >> 48)
        ^ lowest_in(&tables[2], joined >> 40)
        ^ lowest_in(&tables[3], joined >> 32)
        ^ lowest_in(&tables[4], joined >> 24)
        ^ lowest_in(&tables[5], joined >> 16)
        ^ lowest_in(&tables[6], joined >> 8)
        ^ lowest_in(&tables[7], joined)
}

// The register after bytes, one by one.
fn bytes_after(register: u32, bytes: &[u8]) -> u32
    ensures { result ≡ register_after register bytes.now }
{
    let mut after = register;
    for byte in bytes {
        after = byte_step(after, *byte);
    }
    after
}

/// The number CRC-32C of the bytes.
pub(crate) fn crc32c(bytes: &[u8]) -> u32
    ensures { result ≡ crc32c bytes.now }
{
    let mut register = u32::MAX;
    let mut left = bytes;
    'words: while let Some((word, rest)) = left.split_first_chunk::<8>() {
        register = word_step(register, *word);
        left = rest;
    }
    !bytes_after(register, left)
}
