//! Rows of text, and the texts of what is made.

use std::alloc::{AllocError, Global};
use std::fmt::Debug;
use std::process::Abort;
use zarrs_codec_array_bytes::ArrayBytes;
use zarrs_codec_array_bytes::array_bytes::bytes_in;

/// A row's first part, and what is behind its arrow.
pub fn cut(row: &str) -> (&str, &str) {
    match row.split_once(" -> ") {
        Some((first, rest)) => (first.trim(), rest.trim()),
        None => (row, ""),
    }
}

/// The text was made, and is this.
pub fn is_text<E: Drop>(rt: &impl Abort, text: Result<String, E>, want: &str) {
    match text {
        Ok(text) => assert_eq!(rt; text.as_str(), want),
        Err(_) => assert!(rt; false, "no memory: {want}"),
    }
}

/// The value was made, or refused, and is written so.
pub fn gives<T: Debug + Drop, E: Debug + Drop>(
    rt: &impl Abort,
    alloc: Global,
    made: Result<T, E>,
    want: &str,
) {
    match made {
        Ok(value) => is_text(rt, format!(in alloc; "{value:?}"), want),
        Err(error) => is_text(rt, format!(in alloc; "{error:?}"), want),
    }
}

/// The bytes of elements with what stands before them: of texts their offsets behind them, of optional ones their mask
/// before them.
pub fn elements_text(alloc: Global, elements: &ArrayBytes<'_>) -> Result<String, AllocError> {
    match elements {
        ArrayBytes::Fixed(bytes) => {
            let bytes = bytes_in(bytes);
            format!(in alloc; "{bytes:?}")
        }
        ArrayBytes::Variable(variable) => {
            let (bytes, offsets) = (variable.items(), variable.numbers());
            format!(in alloc; "{bytes:?} {offsets:?}")
        }
        ArrayBytes::Optional(optional) => {
            let mask = optional.flags();
            let under = elements_text(alloc, optional.data())?;
            format!(in alloc; "{mask:?} {under}")
        }
    }
}

/// The same of elements that were made, or the error.
pub fn told<E: Debug + Drop>(
    alloc: Global,
    made: Result<ArrayBytes<'static>, E>,
) -> Result<String, AllocError> {
    match made {
        Ok(elements) => elements_text(alloc, &elements),
        Err(error) => format!(in alloc; "{error:?}"),
    }
}
