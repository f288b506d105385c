//! The readers of version 2 documents. A reader here does not look for floats: its caller has done so.

pub use crate::array::reading::read_array_v2;
pub use crate::group::read_group_v2;
