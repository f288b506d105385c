//! An index, written.

ghost use Rattle.std.specs.Prelude.{◌≡◌, ◌++◌, OnOk, IfOk};
ghost use Rattle.zarr_model.specs.Codec.{low_bytes};
ghost use Rattle.zarr_shard_codec.specs.Index.{pair_bytes, index_ended};
ghost use Rattle.zarr_shard_codec.specs.Pair.{pair_seen};

use crate::pair::Pair;
use std::alloc::AllocError;
use zarr_codecs_to_bytes::crc32c_codec::append_number;

// Appends a number in 8 bytes, the lowest first.
fn push_number(out: &mut Vec<u8>, number: u64) -> Result<(), AllocError>
    ensures { OnOk result (out.new.items ≡ out.old.items ++ low_bytes 8 number) }
{
    out.extend_from_slice(&number.to_le_bytes())
}

/// Appends a pair to an index.
///
/// # Errors
/// [`AllocError`] where memory runs out.
pub(crate) fn push_pair(out: &mut Vec<u8>, pair: Pair) -> Result<(), AllocError>
    ensures { OnOk result (out.new.items ≡ out.old.items ++ pair_bytes (pair_seen pair)) }
{
    push_number(out, pair.offset)?;
    push_number(out, pair.size)
}

/// Appends its number to an index that has one.
///
/// # Errors
/// [`AllocError`] where memory runs out.
pub(crate) fn finish_index(index: &mut Vec<u8>, checked: bool) -> Result<(), AllocError>
    ensures { IfOk result (λ _. index.new.items ≡ index_ended checked index.old.items) }
{
    if checked {
        append_number(index)?;
    }
    Ok(())
}
