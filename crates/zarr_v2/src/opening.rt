//! Opening a version 2 array document.
//!
//! See <https://zarr-specs.readthedocs.io/en/latest/v2/v2.0.html#arrays>.

ghost use Rattle.std.specs.Prelude.{◌≡◌, IfOk, IfErr};
ghost use Rattle.zarr_array.specs.OpenArray.{documented};
ghost use Rattle.zarr_basics.specs.Registries.{names_of, builtin_names};
ghost use Rattle.zarr_array_open.specs.Opening.{document_of};
ghost use Rattle.zarrs_metadata.specs.ArrayMetadata.{array_seen};
ghost use Rattle.zarrs_metadata_v2.specs.ArrayMetadataV2.{array_v2_seen};
ghost use Rattle.zarr_v2.specs.Translate.{translated};
ghost use Rattle.zarr_v2.specs.Opening.{translated_text, answer_v2_of, open_document_v2, unread_by, untranslated_by, unopened_by, TranslatesText, OpensV2, OpensAsItsText, IsOnlyLarge, MeansAsV2};

use crate::error::V2OpenError;
use crate::{V2Error, translate};
use std::alloc::Global;
use zarr_array::{OpenArray, OpenError, Registries};
use zarrs_metadata::{ArrayMetadataV2, ArrayMetadataV3, MetadataError};

// The error of a text that is no version 2 array document.
fn unread_by(error: MetadataError) -> V2OpenError
    ensures { result ≡ unread_by error }
{
    match error {
        MetadataError::InvalidJson => V2OpenError::Refused(V2Error::InvalidJson),
        MetadataError::FloatNumber => V2OpenError::Refused(V2Error::FloatNumber),
        MetadataError::InvalidMetadata => V2OpenError::Refused(V2Error::InvalidMetadata),
        MetadataError::OutOfMemory => V2OpenError::OutOfMemory,
    }
}

// The error of one that is not translated.
fn untranslated_by(error: V2Error) -> V2OpenError
    ensures { result ≡ untranslated_by error }
{
    match error {
        V2Error::OutOfMemory => V2OpenError::OutOfMemory,
        error => V2OpenError::Refused(error),
    }
}

// The error of a translated one that is not opened.
fn unopened_by(error: OpenError) -> V2OpenError
    ensures { result ≡ unopened_by error }
{
    match error {
        OpenError::OutOfMemory => V2OpenError::OutOfMemory,
        error => V2OpenError::Open(error),
    }
}

// The document that this one is translated to.
fn translated(alloc: Global, metadata: &ArrayMetadataV2) -> Result<ArrayMetadataV3, V2OpenError>
    ensures { TranslatesText result (translated (array_v2_seen metadata.now)) }
{
    match translate(alloc, metadata) {
        Ok(document) => Ok(document),
        Err(error) => Err(untranslated_by(error)),
    }
}

// The document that a text's is translated to.
fn read_translated(alloc: Global, text: &str) -> Result<ArrayMetadataV3, V2OpenError>
    ensures { TranslatesText result (translated_text text.now) }
{
    let metadata = match ArrayMetadataV2::try_from_text(alloc, text) {
        Ok(metadata) => metadata,
        Err(error) => return Err(unread_by(error)),
    };
    translated(alloc, &metadata)
}

// The array of a translated document.
fn open_fields(
    alloc: Global,
    document: &ArrayMetadataV3,
    registries: &Registries,
) -> Result<OpenArray, V2OpenError>
    ensures { OpensV2 result
        (answer_v2_of (document_of (names_of registries.now) (array_seen document.now))) }
{
    match OpenArray::from_metadata(alloc, document, registries) {
        Ok(array) => Ok(array),
        Err(error) => Err(unopened_by(error)),
    }
}

// The array of the document that a text's is translated to.
fn open_translated(
    alloc: Global,
    text: &str,
    registries: &Registries,
) -> Result<OpenArray, V2OpenError>
    ensures { OpensV2 result (open_document_v2 (names_of registries.now) text.now) }
{
    let document = read_translated(alloc, text)?;
    open_fields(alloc, &document, registries)
}

/// Opens the array that a version 2 document describes, by the names of some registries: the document is translated to
/// one of version 3, which is opened. By the builtin names the array means what a store of version 2 means.
///
/// # Errors
/// [`V2OpenError::Refused`] exactly where the text is not JSON, holds a float, is no version 2 array document, or is
/// not translated, by the first of these reasons; [`V2OpenError::Open`] exactly where the translated document is not
/// opened, by that reason, which by the builtin names is `ChunkTooLarge` alone; or [`V2OpenError::OutOfMemory`].
pub fn open_v2(alloc: Global, text: &str, registries: &Registries) -> Result<OpenArray, V2OpenError>
    ensures opens { OpensV2 result (open_document_v2 (names_of registries.now) text.now) }
    ensures as_text { OpensAsItsText (names_of registries.now) text.now result }
    ensures only_large { names_of registries.now ≡ builtin_names → IfErr result IsOnlyLarge }
    ensures means { names_of registries.now ≡ builtin_names →
        IfOk result (λ array. MeansAsV2 text.now (documented array)) }
{
    open_translated(alloc, text, registries)
}
