//! Values that documents are written with.

pub use zarrs_metadata_values::writing::{numbers_value, put_object};
