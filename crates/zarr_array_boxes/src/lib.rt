//! Commands on regions of an array, and their replies; and elements of any data type over boxes: those of a region,
//! into which chunks are put, and those of a chunk, into which a region is put.
#![tactic(auto)]

mod box_elements;
mod command;
mod fixed;
mod given;
mod indices;
mod listed;
mod overlap;
mod piece;
mod place_runs;
mod refusal;

pub use box_elements::BoxElements;
pub use command::{Command, Reply};
pub use indices::indices_at;
pub use overlap::put_overlap;
pub use refusal::{Refusal, is_too_large};
