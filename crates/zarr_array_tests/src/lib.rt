//! Tests of arrays, of sharded arrays and their codec, of slices, and of runs that no row shows.
#![tactic(auto)]

#[cfg(test)]
mod arrays;
#[cfg(test)]
mod calls;
#[cfg(test)]
mod checksum;
#[cfg(test)]
mod example;
#[cfg(test)]
mod handles;
#[cfg(test)]
mod heights;
#[cfg(test)]
mod kinds;
#[cfg(test)]
mod made;
#[cfg(test)]
mod moved;
#[cfg(test)]
mod ref_sessions;
#[cfg(test)]
mod registries;
#[cfg(test)]
mod runs;
#[cfg(test)]
mod sessions;
#[cfg(test)]
mod shard_codec;
#[cfg(test)]
mod slices;
