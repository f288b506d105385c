//! What a Zarr array, its store and its commands mean. The definitions are in `specs/`, and each function here is a
//! law of them: its contract is the law, and its body is empty.
#![tactic(auto)]

pub mod boundaries;
pub mod damage;
pub mod needed;

ghost use Rattle.zarr_model.specs.Prelude.{Region, Kind, Description};
ghost use Rattle.zarr_model.specs.Laws.{ListsRegion, ReadsWhatWasWritten, EachStoreMeansOne, RunsCompose, BytesMean, CutShortIsHonest, EachStoreMends};

mod data_type_size;
mod endianness;

pub use data_type_size::DataTypeSize;
pub use endianness::Endianness;
use std::num::NonZeroU64;

/// The length of each dimension of an array, which may be 0.
pub type ArrayShape = Vec<u64>;

/// The length of each dimension of a chunk, which is never 0.
pub type ChunkShape = Vec<NonZeroU64>;

/// The row-major list of a region has exactly its tuples, each once, in rising order.
pub fn row_major_list()
    ensures { (region : Region) → ListsRegion region }
{}

/// A read of a region just written gives what was written.
pub fn read_after_write()
    ensures { ReadsWhatWasWritten }
{}

/// An honest store means one array.
pub fn one_array()
    ensures { EachStoreMeansOne }
{}

/// Lists of commands compose, and arrays that are the same inside their shape are served alike.
pub fn runs_compose()
    ensures { (description : Description) → RunsCompose description }
{}

/// Array bytes are refused exactly where they mean no elements.
pub fn bytes_mean()
    ensures { (kind : Kind) → BytesMean kind }
{}

/// After a failure in the middle of a command the store is honest again.
pub fn honest_after_failure()
    ensures { CutShortIsHonest }
{}

/// A store without its damaged keys is honest, and else the same.
pub fn store_mends()
    ensures { EachStoreMends }
{}
