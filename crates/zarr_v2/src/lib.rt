//! Version 2 arrays: what a store means by a document of version 2, the document of version 3 that it is translated to,
//! which means the same, the array that is opened by it, and the program over one.
#![tactic(auto)]

mod element_type;
mod error;
mod meaning;
mod opening;
mod parts;
pub mod program;
mod status;
mod translation;
mod translation_error;

pub use error::V2OpenError;
pub use opening::open_v2;
pub use program::run_v2_program;
pub use status::V2Status;
pub use translation::translate;
pub use translation_error::V2Error;
