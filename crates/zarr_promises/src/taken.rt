//! What a read on an open array takes of its store.

ghost use Rattle.std.specs.Prelude.{[], ◌∷◌};
ghost use Rattle.zarr_model.specs.Prelude.{read};
ghost use Rattle.zarrs_codec_traits.specs.Prelude.{region as region_of_subset, options_of};
ghost use Rattle.zarr_array.specs.OpenArray.{documented};
ghost use Rattle.zarr_array.specs.Ended.{ended_one};
ghost use Rattle.zarr_array.specs.Taken.{TakesAlone};

use std::alloc::Global;
use zarr_array::{CodecOptions, OpenArray, Reply, SessionError};
use zarrs_array_subset::ArraySubset;
use zarrs_storage::Store;

/// A read, as `OpenArray::read`, by the bytes that it takes.
///
/// # Errors
/// As of `OpenArray::read`.
pub fn read_from<S: Store>(
    array: &OpenArray,
    alloc: Global,
    region: &ArraySubset,
    store: &mut S,
    options: &CodecOptions,
) -> Result<Reply, SessionError>
    ensures { TakesAlone (documented array.now) (options_of options.now)
        (read (region_of_subset region.now) ∷ []) (S.shown store.old) (S.shown store.new)
        (ended_one result) }
{
    array.read(alloc, region, store, options)
}
