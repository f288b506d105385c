//! Commands on an array, and their replies.

use crate::refusal::Refusal;
use zarrs_array_subset::{ArrayIndices, ArraySubset};
use zarrs_codec_array_bytes::ArrayBytes;

/// A command on an array.
#[derive(Drop)]
pub enum Command {
    /// Reads the elements of a region.
    Read(ArraySubset),
    /// Writes elements to a region, in its row-major order. Where the store fails, memory is wanting or a chunk's value
    /// does not decode, the chunks before it stay written.
    Write(ArraySubset, ArrayBytes<'static>),
    /// Erases the chunk of these indices: all its elements are the fill value then.
    Erase(ArrayIndices),
}

/// The reply to a command.
#[derive(Drop)]
pub enum Reply {
    /// The elements that were read, in the region's row-major order.
    Elements(ArrayBytes<'static>),
    /// The write or the erase is done.
    Done,
    /// The command is refused.
    Refused(Refusal),
}
