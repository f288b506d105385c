//! Bands of an array, moved one after another.

ghost use Rattle.std.specs.Prelude.{length, map, OnOk, IfErr};
ghost use Rattle.zarrs_codec_traits.specs.Prelude.{region as region_of, options_of};
ghost use Rattle.zarr_array.specs.OpenArray.{documented, described_array};
ghost use Rattle.zarr_rechunk.specs.Moved.{AreMoved};
ghost use Rattle.zarr_rechunk.specs.Band.{AreMovable, IsOnlyRead, LeavesBand};
ghost use Rattle.zarr_rechunk.specs.Fails.{FailsAtBand};

use crate::band::move_band;
use crate::error::RechunkError;
use std::alloc::Global;
use zarr_array::{CodecOptions, OpenArray};
use zarrs_array_subset::ArraySubset;
use zarrs_storage::Store;

/// Moves the elements of some regions, in order.
pub(crate) fn move_bands<S: Store, T: Store>(
    alloc: Global,
    source: &OpenArray,
    target: &OpenArray,
    bands: &[ArraySubset],
    from: &mut S,
    to: &mut T,
    options: &CodecOptions,
) -> Result<(), RechunkError>
    requires { AreMovable (described_array source.now) (described_array target.now)
        (map region_of bands.now) }
    ensures moved { OnOk result (AreMoved (described_array source.now) (described_array target.now)
        (options_of options.now) (map region_of bands.now) (length bands.now)
        (S.shown from.old) (S.shown from.new) (T.shown to.old) (T.shown to.new)) }
    ensures source { IsOnlyRead (S.shown from.old) (S.shown from.new) }
    ensures kept { S.kept from.old from.new }
    ensures left { LeavesBand (described_array target.now) (options_of options.now)
        (T.shown to.old) (T.shown to.new) }
    ensures fails { IfErr result (λ error. FailsAtBand (documented source.now)
        (documented target.now) (options_of options.now) (map region_of bands.now)
        (S.shown from.old) (S.shown from.new) (T.shown to.old) (T.shown to.new) error.at
        error.kind) }
{
    for number in 0..bands.len() {
        match move_band(alloc, source, target, &bands[number], from, to, options) {
            Ok(()) => {}
            Err(kind) => {
                return Err(RechunkError {
                    at: Some(number as u64),
                    kind,
                });
            }
        }
    }
    Ok(())
}
