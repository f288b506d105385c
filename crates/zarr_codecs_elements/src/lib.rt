//! What array-to-array codecs do with elements: numbers in bytes, on which an offset is put, and elements whose
//! dimensions are ordered anew, from one level to the next and back; with the laws of both.
#![tactic(auto)]

mod amounts;
mod by_runs;
mod lead;
mod levels;
mod moving;
mod numbers;
mod orders;
mod pieces;
mod places;
mod runs;
mod shapes;

pub use amounts::amount_of;
pub use levels::{decoded, encoded, region_decoded};
pub use numbers::{raise, raise_each};
pub use orders::{inverse_of, is_order, permuted_numbers};
pub use pieces::strided_pieces;
pub use places::{moved_places, moved_steps};
pub use shapes::{expect_rank, permuted_shape, permuted_subset};
