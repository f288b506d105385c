//! Array bytes with some of their elements replaced, views of a box of an array's bytes, to be written in their place,
//! and targets of decoding.
#![tactic(auto)]

mod array_bytes_fixed_disjoint_view;
mod copy_fill_value;
mod decode_into_target;
mod gathering;
pub mod laws;
mod owned_array_bytes;
mod pairs;
mod part;
mod update;

pub use array_bytes_fixed_disjoint_view::ArrayBytesFixedDisjointView;
pub use copy_fill_value::copy_fill_value_into;
pub use decode_into_target::{ArrayBytesDecodeIntoTarget, decode_into_array_bytes_target};
pub use owned_array_bytes::OwnedArrayBytes;
pub use update::{update_array_bytes, update_owned_array_bytes};
