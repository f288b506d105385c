//! Codecs of a user's own, and callers of handles, with what they are proved to do.
#![tactic(auto)]

pub mod callers;
pub mod chunks;
mod joining;
mod reversed;
mod reversed_elements;
mod single_bytes;
mod turning;

pub use reversed::ReversedCodec;
pub use reversed_elements::ReversedElementsCodec;
pub use single_bytes::SingleBytesCodec;
