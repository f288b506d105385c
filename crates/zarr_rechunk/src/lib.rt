//! Arrays moved from one store into another, under another grid and other codecs.
#![tactic(auto)]

mod band;
mod bands;
mod clear;
mod error;
mod moving;
pub mod program;
pub mod status;
mod whole;

pub use clear::clear_nulls;
pub use error::{RechunkError, RechunkErrorKind};
pub use program::run_rechunk;
pub use status::{RechunkRefusal, RechunkStatus};
pub use whole::rechunk;
