//! Version 3 documents.

pub mod array;
pub mod copying;
pub mod group;
pub mod laws;
pub mod named_parts;
pub mod node;
pub mod optional_parts;
pub mod reading;
pub mod writing;
