//! Commands run over a store: the array of a first line, replies and their text, the lines of the keys, and a run that
//! is made from a number; with the status that each ends with.
#![tactic(auto)]

pub mod commands;
pub mod document;
mod elements;
pub mod generator;
pub mod keys;
pub mod laws;
pub mod made;
pub mod making_commands;
pub mod opening;
pub mod status;
pub mod summary;
mod tally;

pub use document::made_document;
pub use generator::Generator;
pub use making_commands::made_commands;
pub use status::Status;
pub use summary::push_summary;
pub use zarr_array::{CodecOptions, OpenArray, OpenError, SessionErrorKind, builtin_registries};
pub use zarr_cli_lines::{
    Command, Entry, LineError, ParsedLines, Reply, parse_command_line, parse_key_line, parse_lines,
    push_entry, push_reply,
};
