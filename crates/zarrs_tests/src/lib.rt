//! Calls on documents, registries, data types, subsets, lists and indexers that no row shows, each once, and the
//! callers that the pages of these crates show.
#![tactic(auto)]

#[cfg(test)]
mod callers;
#[cfg(test)]
mod configurations;
#[cfg(test)]
mod fills;
mod grid_callers;
#[cfg(test)]
mod indexers;
#[cfg(test)]
mod lists;
#[cfg(test)]
mod names;
#[cfg(test)]
mod orders;
#[cfg(test)]
mod readers;
#[cfg(test)]
mod regions;
#[cfg(test)]
mod registries;
#[cfg(test)]
mod subsets;
#[cfg(test)]
mod texts;
