//! One band of an array, moved.

ghost use Rattle.std.specs.Prelude.{◌≡◌, None, IfOk, IfErr, OnOk};
ghost use Rattle.zarrs_codec_traits.specs.Prelude.{region_refusal, refusal, write};
ghost use Rattle.zarrs_codec_traits.specs.Prelude.{region as region_of, raw_of};
ghost use Rattle.zarrs_codec_traits.specs.Prelude.{kind_seen, options_of};
ghost use Rattle.zarr_array.specs.OpenArray.{documented, described_array};
ghost use Rattle.zarr_rechunk.specs.Cleared.{AreElements};
ghost use Rattle.zarr_rechunk.specs.Band.{HasReadBand, HasWrittenBand, AreCleared, IsMovable, HasMovedBand};
ghost use Rattle.zarr_rechunk.specs.Band.{IsOnlyRead, LeavesBand, StaysOutside};
ghost use Rattle.zarr_rechunk.specs.Fails.{ReadFails, WriteFails, BandFails};

use crate::clear::clear_nulls;
use crate::error::{RechunkErrorKind, source_kind, target_kind};
use std::alloc::{AllocError, Global};
use zarr_array::{CodecOptions, DataType, OpenArray, Reply};
use zarrs_array_subset::ArraySubset;
use zarrs_codec_array_bytes::ArrayBytes;
use zarrs_storage::Store;

// The elements of a band of the source.
fn read_band<S: Store>(
    alloc: Global,
    source: &OpenArray,
    band: &ArraySubset,
    from: &mut S,
    options: &CodecOptions,
) -> Result<ArrayBytes<'static>, RechunkErrorKind>
    requires { region_refusal (described_array source.now) (region_of band.now) ≡ None }
    ensures read { IfOk result (λ bytes. HasReadBand (described_array source.now)
        (options_of options.now)
        (region_of band.now) (raw_of bytes) (S.shown from.old) (S.shown from.new)) }
    ensures source { IsOnlyRead (S.shown from.old) (S.shown from.new) }
    ensures kept { S.kept from.old from.new }
    ensures fails { IfErr result (ReadFails (documented source.now) (options_of options.now)
        (region_of band.now) (S.shown from.old) (S.shown from.new)) }
{
    match source.read(alloc, band, from, options) {
        Ok(Reply::Elements(bytes)) => Ok(bytes),
        Ok(Reply::Done | Reply::Refused(_)) => unreachable!(),
        Err(error) => Err(source_kind(error.kind)),
    }
}

// The same elements with nothing under their nulls, in place of those that were read.
fn clear_band(
    alloc: Global,
    bytes: ArrayBytes<'_>,
    data_type: &DataType,
) -> Result<ArrayBytes<'static>, RechunkErrorKind>
    requires { AreElements (kind_seen data_type.now) (raw_of bytes) }
    ensures cleared { IfOk result (λ cleared. AreCleared (kind_seen data_type.now)
        (raw_of bytes.entry) (raw_of cleared)) }
    ensures memory { IfErr result (λ kind. kind ≡ RechunkErrorKind.OutOfMemory) }
{
    match clear_nulls(alloc, &bytes, data_type) {
        Ok(cleared) => Ok(cleared),
        Err(AllocError) => Err(RechunkErrorKind::OutOfMemory),
    }
}

// Writes the elements of a band of the target.
fn write_band<T: Store>(
    alloc: Global,
    target: &OpenArray,
    band: &ArraySubset,
    bytes: &ArrayBytes<'_>,
    to: &mut T,
    options: &CodecOptions,
) -> Result<(), RechunkErrorKind>
    requires { refusal (described_array target.now) (write (region_of band.now) (raw_of bytes.now))
        ≡ None }
    ensures written { OnOk result (HasWrittenBand (described_array target.now)
        (options_of options.now)
        (region_of band.now) (raw_of bytes.now) (T.shown to.old) (T.shown to.new)) }
    ensures left { LeavesBand (described_array target.now) (options_of options.now)
        (T.shown to.old) (T.shown to.new) }
    ensures rest { StaysOutside (described_array target.now) (region_of band.now)
        (T.shown to.old).content (T.shown to.new).content }
    ensures fails { IfErr result (WriteFails (documented target.now) (options_of options.now)
        (region_of band.now) (T.shown to.old) (T.shown to.new)) }
{
    match target.write(alloc, band, bytes, to, options) {
        Ok(Reply::Done) => Ok(()),
        Ok(Reply::Elements(_)) => unreachable!(),
        Ok(Reply::Refused(_)) => unreachable!(),
        Err(error) => Err(target_kind(error.kind)),
    }
}

/// Reads a band of the source, clears what stands under its nulls and writes it to the target.
pub(crate) fn move_band<S: Store, T: Store>(
    alloc: Global,
    source: &OpenArray,
    target: &OpenArray,
    band: &ArraySubset,
    from: &mut S,
    to: &mut T,
    options: &CodecOptions,
) -> Result<(), RechunkErrorKind>
    requires { IsMovable (described_array source.now) (described_array target.now)
        (region_of band.now) }
    ensures moved { OnOk result (HasMovedBand (described_array source.now)
        (described_array target.now)
        (options_of options.now) (region_of band.now) (S.shown from.old) (S.shown from.new)
        (T.shown to.old) (T.shown to.new)) }
    ensures source { IsOnlyRead (S.shown from.old) (S.shown from.new) }
    ensures kept { S.kept from.old from.new }
    ensures left { LeavesBand (described_array target.now) (options_of options.now)
        (T.shown to.old) (T.shown to.new) }
    ensures rest { StaysOutside (described_array target.now) (region_of band.now)
        (T.shown to.old).content (T.shown to.new).content }
    ensures fails { IfErr result (BandFails (documented source.now) (documented target.now)
        (options_of options.now) (region_of band.now) (S.shown from.old) (S.shown from.new)
        (T.shown to.old) (T.shown to.new)) }
{
    let bytes = match read_band(alloc, source, band, from, options) {
        Ok(bytes) => bytes,
        Err(kind) => return Err(kind),
    };
    match clear_band(alloc, bytes, source.data_type()) {
        Ok(cleared) => write_band(alloc, target, band, &cleared, to, options),
        Err(kind) => Err(kind),
    }
}
