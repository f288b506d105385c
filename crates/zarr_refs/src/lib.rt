//! Slices of the values of a store as a store of their own, sessions of reads over them, and the program.
#![tactic(auto)]

mod error;
pub mod lines;
pub mod program;
mod ref_store;
mod reference;
mod run;
mod session;
mod slices;
pub mod status;

pub use error::RefSessionError;
pub use program::run_refs;
pub use ref_store::RefStore;
pub use reference::{RefError, Reference};
pub use session::run_ref_session;
pub use slices::{Slice, Slices, keep_slices, slices_in, test_references};
pub use status::RefStatus;
