//! Texts and values as documents, and the readers of what documents are made of. A reader here does not look for
//! floats: the call that reads a whole document has done so.

pub use crate::v3::metadata::read_extension;
pub use zarrs_metadata_values::reading::{read_value, refuse_floats};
