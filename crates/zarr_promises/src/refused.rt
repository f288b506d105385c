//! A write on an open array that is refused.

ghost use Rattle.std.specs.Prelude.{[], ◌∷◌};
ghost use Rattle.zarrs_codec_traits.specs.Prelude.{raw_of, write, AreRefused, IsUntouched};
ghost use Rattle.zarrs_codec_traits.specs.Prelude.{region as region_of_subset};
ghost use Rattle.zarr_array.specs.OpenArray.{described_array};

use std::alloc::Global;
use zarr_array::{CodecOptions, OpenArray, Reply, SessionError};
use zarrs_array_subset::ArraySubset;
use zarrs_codec_array_bytes::ArrayBytes;
use zarrs_storage::Store;

/// A write, as `OpenArray::write`: what one that is refused leaves.
///
/// # Errors
/// As of `OpenArray::write`.
pub fn write_to<S: Store>(
    array: &OpenArray,
    alloc: Global,
    region: &ArraySubset,
    elements: &ArrayBytes<'_>,
    store: &mut S,
    options: &CodecOptions,
) -> Result<Reply, SessionError>
    ensures refused { AreRefused (described_array array.now)
        (write (region_of_subset region.now) (raw_of elements.now) ∷ []) →
        IsUntouched (S.shown store.old) (S.shown store.new) }
{
    array.write(alloc, region, elements, store, options)
}
