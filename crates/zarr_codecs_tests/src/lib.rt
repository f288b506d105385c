//! Tests of array bytes and views of them, of stores and of handles on bytes and on elements, of each call of a codec
//! and of making codecs of metadata, of grids and keys; and the texts of errors.
#![tactic(auto)]

#[cfg(test)]
mod array_bytes;
#[cfg(test)]
mod array_to_array;
#[cfg(test)]
mod array_to_bytes;
pub mod callers;
#[cfg(test)]
mod elements;
#[cfg(test)]
mod errors;
#[cfg(test)]
mod grids;
#[cfg(test)]
mod handles;
#[cfg(test)]
mod keys;
#[cfg(test)]
mod makers;
#[cfg(test)]
mod making;
#[cfg(test)]
mod options;
#[cfg(test)]
mod stores;
#[cfg(test)]
mod texts;
#[cfg(test)]
mod views;
