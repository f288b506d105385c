//! The lines of the program's input, elements in them, and the text of its replies.
#![tactic(auto)]

mod boxes;
pub mod digits;
mod element;
pub mod element_parts;
pub mod entry;
mod fixed;
mod growing;
mod indices;
pub mod laws;
pub mod list;
pub mod parse;
mod parts;
mod reply_text;
pub mod text;

pub use entry::{Entry, parse_key_line, push_entry};
pub use list::parse_elements;
pub use parse::{LineError, ParsedLines, parse_command_line, parse_lines};
pub use reply_text::push_reply;
pub use text::push_elements;
pub use zarr_array_boxes::{Command, Reply};
