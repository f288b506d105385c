//! What a store of a version 2 array means, and that the document it is translated to means the same.
//! Each function's contract is a law, and its body is empty. Nothing here is called, so nothing is public.

ghost use Rattle.zarr_v2.specs.Alike.{RowsAgree, ColumnsAgree, StoresAgree};
ghost use Rattle.zarr_v2.specs.Documents.{IsDescribed, OnlyChunksRefuse, TranslationLiesAlike, TranslationMeansTheSame, TranslationOpensAsText};

// In row-major order a chunk of version 2 has the elements that the codec of bytes decodes.
fn rows_agree()
    ensures { RowsAgree }
{}

// In column-major order it has those that a transposition with the reversed order decodes from them.
fn columns_agree()
    ensures { ColumnsAgree }
{}

// Two layouts whose chunks decode alike mean the same arrays.
fn stores_agree()
    ensures { StoresAgree }
{}

// A translated document is described by its parts, up to what its chunks need.
fn translation_is_described()
    ensures { IsDescribed }
{}

// Nothing but chunks that are too large keeps it from being opened.
fn only_chunks_refuse()
    ensures { OnlyChunksRefuse }
{}

// Where it is opened, its chunks lie in a store as those of the document of version 2: the same grid and keys, and
// values that decode alike.
fn translation_lies_alike()
    ensures { TranslationLiesAlike }
{}

// So a store means the same arrays by it as by the document of version 2.
fn translation_means_the_same()
    ensures { TranslationMeansTheSame }
{}

// The document that one read of a text is translated to can be written, and each text of it is opened as its fields
// are.
fn translation_opens_as_text()
    ensures { TranslationOpensAsText }
{}
