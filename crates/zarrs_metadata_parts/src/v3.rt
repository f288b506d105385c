//! Version 3 metadata.

pub mod additional_field;
pub mod additional_fields;
pub mod metadata;
