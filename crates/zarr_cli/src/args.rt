//! The words that a program is called with.

use std::alloc::{AllocError, Global};
use std::env::FillError;
use std::rt::Env;

// A word as text, or the empty word.
fn word_of(alloc: Global, bytes: &[u8]) -> Result<String, AllocError> {
    match str::from_utf8(bytes) {
        Ok(text) => String::from_str(alloc, text),
        Err(_) => Ok(String::new(alloc)),
    }
}

/// The words after the program's name. One that is not text, or longer than any known word, stands as the empty word.
///
/// # Errors
/// Want of memory alone.
pub fn words<R: Env + AllocGlobal>(rt: &R) -> Result<Vec<String>, AllocError> {
    let alloc = rt.alloc();
    let mut all = Vec::new(alloc);
    for i in 1..usize::MAX {
        let mut buffer = [0u8; 64];
        let length = match rt.arg(i, &mut buffer) {
            Ok(length) => length,
            Err(FillError::TooLong) => 0,
            Err(FillError::NotPresent) => break,
        };
        all.push(word_of(alloc, &buffer[..length])?)?;
    }
    Ok(all)
}
