//! The index of a value.

ghost use Rattle.std.specs.Prelude.{◌≡◌, ◌≤◌, ◌<◌, ◌*◌, ◌+◌, ◌^◌, length, IfSome, SomeIff, Some, None, MatchResult, IfOk, option_map};
ghost use Rattle.zarrs_codec_array_bytes.specs.Refusals.{told_by, wrong_length};
ghost use Rattle.zarr_array_open.specs.ShardDocument.{index_size};
ghost use Rattle.zarr_codecs_to_bytes.specs.Crc32c.{crc32c_codec};
ghost use Rattle.zarr_shard_codec.specs.Index.{index_part};
ghost use Rattle.zarr_shard_codec.specs.Finding.{index_found, index_says};

use zarr_codecs_to_bytes::crc32c_codec::is_intact;
use zarrs_codec_error::{CodecError, InvalidBytesLengthError};

/// How many bytes the index of so many inner chunks has, if these can be addressed.
pub(crate) fn index_len(number: usize, checked: bool) -> Option<usize>
    ensures { SomeIff result (index_size checked number < 2 ^ 64) (index_size checked number) }
{
    let pairs = number.checked_mul(16)?;
    if checked {
        pairs.checked_add(4)
    } else {
        Some(pairs)
    }
}

// The last bytes of a value, as many as its index has.
fn index_part(value: &[u8], number: usize, checked: bool, len: usize) -> Result<&[u8], CodecError>
    requires { len ≡ index_size checked number }
    ensures long { IfOk result (λ part. length part.now ≡ index_size checked number) }
    ensures found { MatchResult result (λ part. index_part checked number value.now ≡ Some part.now)
        (λ e. (index_part checked number value.now ≡ None)
        × (told_by e ≡ wrong_length (length value.now) (index_size checked number))) }
{
    if value.len() < len {
        return Err(CodecError::UnexpectedChunkDecodedSize(InvalidBytesLengthError {
            len: value.len(),
            expected_len: len,
        }));
    }
    Ok(&value[value.len() - len..])
}

// The bytes before a number that is right or not tested.
fn before_number(part: &[u8], validate: bool) -> Option<&[u8]>
    requires { 4 ≤ length part.now }
    ensures long { IfSome result (λ bytes. length bytes.now + 4 ≡ length part.now) }
    ensures value { option_map (λ bytes. bytes.now) result ≡ crc32c_codec validate part.now }
{
    if is_intact(validate, part) {
        Some(&part[..part.len() - 4])
    } else {
        None
    }
}

/// The bytes of the pairs of a value with so many inner chunks. The index can be addressed.
///
/// # Errors
/// `UnexpectedChunkDecodedSize` exactly where the value is shorter than the index, and else `InvalidChecksum` exactly
/// where its number is wrong and checksums are validated.
pub(crate) fn find_index(
    value: &[u8],
    number: usize,
    checked: bool,
    validate: bool,
) -> Result<&[u8], CodecError>
    requires fits { index_size checked number < 2 ^ 64 }
    ensures found { MatchResult result
        (λ index. index_found checked validate number value.now ≡ Some index.now)
        (λ e. (index_found checked validate number value.now ≡ None)
        × index_says checked number value.now e) }
    ensures long { IfOk result (λ index. length index.now ≡ 16 * number) }
{
    let Some(len) = index_len(number, checked) else {
        unreachable!();
    };
    let part = index_part(value, number, checked, len)?;
    if !checked {
        return Ok(part);
    }
    match before_number(part, validate) {
        Some(index) => Ok(index),
        None => Err(CodecError::InvalidChecksum),
    }
}
