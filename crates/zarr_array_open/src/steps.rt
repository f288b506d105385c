//! The steps of opening a document, for crates that open others.

pub use crate::codecs::chain_of;
pub use crate::document::read_document;
pub use crate::extensions::{
    codec_at, codecs_by, data_type_by, expect_known_fields, fill_value_of, keys_by,
};
