//! Elements that are read into the views of a target.

ghost use Rattle.std.specs.Prelude.{◌==◌, ◌&&◌, [], length};
ghost use Rattle.zarrs_codec_traits.specs.Prelude.{kind_of, options_of};
ghost use Rattle.zarrs_codec.specs.Lists.{AreFew};
ghost use Rattle.zarrs_codec.specs.Selects.{indexed, placed, Selects, CountsIndexed, ReadsInto, PutsInto};
ghost use Rattle.zarrs_codec.specs.Settings.{KeepsSettings};

use crate::array_partial_decoder::ArrayPartialDecoderTraits;
use std::alloc::Global;
use zarrs_chunk_grid_indexer::Indexer;
use zarrs_codec_array_bytes::ArrayBytes;
use zarrs_codec_array_bytes_parts::ArrayBytesFixedDisjointView;
use zarrs_codec_error::{CodecError, CodecOptions};
use zarrs_codec_traits::{expect_number, put_fixed, put_optional};

// The elements at the indexer's indices, for a target of so many.
fn elements_for<H: ArrayPartialDecoderTraits, I: Indexer>(
    handle: &mut H,
    alloc: Global,
    indexer: &I,
    num: u64,
    options: &CodecOptions,
) -> Result<ArrayBytes<'static>, CodecError>
    requires few { AreFew (kind_of (H.seen handle.old).level.data_type)
        (length (I.places indexer.now)) }
    ensures counts { CountsIndexed num (indexed I.fits I.refuses I.as_region I.places
        (H.seen handle.old).level.shape indexer.now) (H.seen handle.old) (H.seen handle.new)
        result }
    ensures selects { Selects (options_of options.now) (I.as_region indexer.now)
        (placed (I.places indexer.now) (H.seen handle.old).level)
        ((num == length (I.places indexer.now))
        && I.fits indexer.now (H.seen handle.old).level.shape)
        (H.tells handle.old (options_of options.now) (I.as_region indexer.now))
        (H.seen handle.old) (H.seen handle.new) result }
    ensures kept { KeepsSettings H.same H.tells handle.old handle.new }
{
    match expect_number(num, indexer.len()) {
        Ok(()) => handle.partial_decode(alloc, indexer, options),
        Err(error) => Err(error),
    }
}

// Reads into the view of elements of one size.
pub(crate) fn read_into_fixed<H: ArrayPartialDecoderTraits, I: Indexer>(
    handle: &mut H,
    alloc: Global,
    indexer: &I,
    view: &mut ArrayBytesFixedDisjointView<'_>,
    options: &CodecOptions,
) -> Result<(), CodecError>
    requires few { AreFew (kind_of (H.seen handle.old).level.data_type)
        (length (I.places indexer.now)) }
    ensures reads { ReadsInto (options_of options.now) (indexed I.fits I.refuses I.as_region
        I.places (H.seen handle.old).level.shape indexer.now) (H.tells handle.old)
        [] view.old (H.seen handle.old) (H.seen handle.new) result }
    ensures puts { PutsInto (options_of options.now) (I.places indexer.now) (H.seen handle.old)
        [] [] view.old view.new result }
    ensures kept { KeepsSettings H.same H.tells handle.old handle.new }
{
    let num = view.num_elements();
    match elements_for(handle, alloc, indexer, num, options) {
        Ok(elements) => put_fixed(&elements, view),
        Err(error) => Err(error),
    }
}

// Reads into the views of optional elements.
pub(crate) fn read_into_optional<'a, H: ArrayPartialDecoderTraits, I: Indexer>(
    handle: &mut H,
    alloc: Global,
    indexer: &I,
    view: &mut ArrayBytesFixedDisjointView<'a>,
    masks: &mut [ArrayBytesFixedDisjointView<'a>],
    options: &CodecOptions,
) -> Result<(), CodecError>
    requires few { AreFew (kind_of (H.seen handle.old).level.data_type)
        (length (I.places indexer.now)) }
    ensures reads { ReadsInto (options_of options.now) (indexed I.fits I.refuses I.as_region
        I.places (H.seen handle.old).level.shape indexer.now) (H.tells handle.old)
        masks.old view.old (H.seen handle.old) (H.seen handle.new) result }
    ensures puts { PutsInto (options_of options.now) (I.places indexer.now) (H.seen handle.old)
        masks.old masks.new view.old view.new result }
    ensures kept { KeepsSettings H.same H.tells handle.old handle.new }
{
    let num = view.num_elements();
    match elements_for(handle, alloc, indexer, num, options) {
        Ok(elements) => put_optional(&elements, view, masks),
        Err(error) => Err(error),
    }
}
