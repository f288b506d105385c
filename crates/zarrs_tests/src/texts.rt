//! Texts, and the texts of values.

use std::alloc::{AllocError, Global};
use std::fmt::Debug;
use std::process::Abort;

/// A text of one's own.
pub fn owned(rt: &impl Abort, alloc: Global, text: &str) -> String {
    String::from_str(alloc, text).expect(rt, "memory")
}

/// The text was made, and is this.
pub fn is_text(rt: &impl Abort, text: Result<String, AllocError>, want: &str) {
    let text = match &text {
        Ok(text) => text.as_str(),
        Err(_) => "no memory",
    };
    assert_eq!(rt; text, want);
}

/// The value is written so.
pub fn says<T: Debug>(rt: &impl Abort, alloc: Global, value: &T, want: &str) {
    is_text(rt, format!(in alloc; "{value:?}"), want);
}

/// The value was made, and is written so.
pub fn gives<T: Debug + Drop, E: Drop>(
    rt: &impl Abort,
    alloc: Global,
    made: Result<T, E>,
    want: &str,
) {
    match made {
        Ok(value) => says(rt, alloc, &value, want),
        Err(_) => assert!(rt; false, "refused: {want}"),
    }
}
