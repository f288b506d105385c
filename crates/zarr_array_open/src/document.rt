//! Reading an array document, of which version 3 is served.

ghost use Rattle.serde_json.specs.Read.{read as read_json};
ghost use Rattle.zarrs_metadata.specs.ArrayMetadata.{array_seen};
ghost use Rattle.zarr_array_open.specs.Opening.{fields_read};
ghost use Rattle.zarr_array_open.specs.Parts.{Opens};

use crate::open_error::OpenError;
use std::alloc::Global;
use zarrs_metadata::{ArrayMetadata, ArrayMetadataV3};

/// The version 3 document that a text is.
///
/// # Errors
/// The first that applies of `InvalidJson`, `FloatNumber`, `InvalidMetadata` and `UnsupportedVersion`, or
/// `OutOfMemory`.
#[tactic(auto, using(crate::proofs::FieldLaws::read_3, crate::proofs::FieldLaws::read_2, crate::proofs::FieldLaws::not_read))]
pub fn read_document(alloc: Global, text: &str) -> Result<ArrayMetadataV3, OpenError>
    ensures { Opens array_seen result (fields_read (read_json text.now)) }
{
    match ArrayMetadata::try_from_text(alloc, text)? {
        ArrayMetadata::V3(metadata) => Ok(metadata),
        ArrayMetadata::V2(_) => Err(OpenError::UnsupportedVersion),
    }
}
