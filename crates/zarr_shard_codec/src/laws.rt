//! What holds of every shard, and of an index that was written.

ghost use Rattle.zarr_shard_codec.specs.Agree.{ElementIsInner, IsCountedShard, SelectsInner};
ghost use Rattle.zarr_shard_codec.specs.Written.{WrittenIsFound, HoldsPairs};

/// An element of a shard is that of the inner chunk that its tuple lies in.
pub fn element_is_inner()
    ensures { ElementIsInner }
{}

/// What a shard decodes to has an element for each tuple of its level.
pub fn counted()
    ensures { IsCountedShard }
{}

/// The elements of a region are those of the array that the inner chunks hold, as a store's chunks hold one.
pub fn selects_inner()
    ensures { SelectsInner }
{}

/// An index that stands behind some bytes is found.
pub(crate) fn written_is_found()
    ensures { WrittenIsFound }
{}

/// It holds the pairs that it was made of.
pub(crate) fn holds_pairs()
    ensures { HoldsPairs }
{}
