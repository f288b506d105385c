//! A read and a write on an open array.

ghost use Rattle.std.specs.Prelude.{[], ◌∷◌, IfOk, OnOk};
ghost use Rattle.zarrs_codec_traits.specs.Prelude.{raw_of, region as region_of_subset, options_of};
ghost use Rattle.zarr_model.specs.Prelude.{layout, read, write, IsHonest, SeesNoDamage, ServesArray, RefusesRight};
ghost use Rattle.zarr_array.specs.OpenArray.{described_array};
ghost use Rattle.zarr_array.specs.Ended.{ended_one};

use std::alloc::Global;
use zarr_array::{CodecOptions, OpenArray, Reply, SessionError};
use zarrs_array_subset::ArraySubset;
use zarrs_codec_array_bytes::ArrayBytes;
use zarrs_storage::Store;

/// A write, as `OpenArray::write`.
///
/// # Errors
/// As of `OpenArray::write`.
pub fn write_to<S: Store>(
    array: &OpenArray,
    alloc: Global,
    region: &ArraySubset,
    elements: &ArrayBytes<'_>,
    store: &mut S,
    options: &CodecOptions,
) -> Result<Reply, SessionError>
    ensures serves { IfOk (ended_one result) (λ answers.
        IsHonest (layout (described_array array.now) (options_of options.now))
        (S.shown store.old).content →
        ServesArray (described_array array.now) (options_of options.now)
        (write (region_of_subset region.now) (raw_of elements.now) ∷ [])
        (S.shown store.old).content (S.shown store.new).content answers) }
{
    array.write(alloc, region, elements, store, options)
}

/// A read, as `OpenArray::read`.
///
/// # Errors
/// As of `OpenArray::read`.
pub fn read_from<S: Store>(
    array: &OpenArray,
    alloc: Global,
    region: &ArraySubset,
    store: &mut S,
    options: &CodecOptions,
) -> Result<Reply, SessionError>
    ensures refusals { IfOk (ended_one result) (λ answers. RefusesRight (described_array array.now)
        (read (region_of_subset region.now) ∷ []) answers) }
    ensures undamaged { OnOk (ended_one result) (SeesNoDamage (described_array array.now)
        (options_of options.now) (read (region_of_subset region.now) ∷ [])
        (S.shown store.old).content) }
{
    array.read(alloc, region, store, options)
}
