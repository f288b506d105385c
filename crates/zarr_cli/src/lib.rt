//! The program over a source of input, a sink for output and a store, and its parts: words, lines, and what is written.
#![tactic(auto)]

pub mod args;
pub mod array;
pub mod line;
pub mod lines;
pub mod program;
mod read;
pub mod run;
pub mod running;
pub mod words;
pub mod write;

pub use array::CommandArray;
pub use line::{command_line, key_line, reply_line};
pub use lines::{InputFault, read_lines};
pub use program::run_program;
pub use running::run_lines;
pub use words::{Words, read_input_words, read_words};
pub use write::{status_line, write_text};
pub use zarr_cli_runs::Status;
