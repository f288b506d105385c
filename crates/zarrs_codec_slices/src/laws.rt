//! Laws of elements that are picked and replaced, and of equality.

ghost use Rattle.zarrs_codec_slices.specs.Laws.{ExtractsLast, IsTest, IsEquivalence, IsListEquality};

/// What is extracted after an update is the last element that was given to an index, else the one from before.
pub fn extract_after_update()
    ensures { ExtractsLast }
{}

/// The test of optional array bytes is equality.
pub fn test_is_equality()
    ensures { IsTest }
{}

/// Equality of optional array bytes is an equivalence.
pub fn equality_is_equivalence()
    ensures { IsEquivalence }
{}

/// On valid bytes of one kind and count it holds exactly where they mean the same list.
pub fn equality_of_valid()
    ensures { IsListEquality }
{}
