//! Parts of the value under a key.

ghost use Rattle.std.specs.Prelude.{◌≡◌, ◌∷◌, [], Some, MatchResult};
ghost use Rattle.zarrs_codec.specs.Prelude.{value_bytes, value_part, TellsRangeOf, taken_of};
ghost use Rattle.zarr_shard_codec.specs.ReadRegion.{HasCost, NotRead};

use std::alloc::Global;
use zarrs_codec_error::CodecError;
use zarrs_codec_traits::only_part;
use zarrs_storage::{ByteRange, Store, StoreKey};

/// The bytes of a range of the value under a key, and [`None`] where the key is absent. One reading call.
///
/// # Errors
/// `InvalidByteRangeError` where the value ends before the range does; a fault of the store, or want of memory.
pub(crate) fn fetch_range<S: Store>(
    alloc: Global,
    key: &StoreKey,
    range: ByteRange,
    store: &mut S,
) -> Result<Option<Vec<u8>>, CodecError>
    ensures read { let value = (S.shown store.old).content key.now in MatchResult result
        (λ v. (value_part value range ≡ Some (value_bytes v))
        × HasCost 1 (taken_of (Some (range ∷ [])) value) (S.shown store.old) (S.shown store.new))
        (NotRead (value_part value range) (TellsRangeOf (Some (range ∷ [])) value)
        (S.shown store.old) (S.shown store.new)) }
    ensures kept { S.kept store.old store.new }
{
    let ranges = [range];
    match store.get_partial_many(alloc, key, &ranges) {
        Ok(Some(parts)) => Ok(Some(only_part(parts))),
        Ok(None) => Ok(None),
        Err(error) => Err(CodecError::from(error)),
    }
}
