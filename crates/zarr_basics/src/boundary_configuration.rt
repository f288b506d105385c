//! The configuration of a grid of boundaries.

ghost use Rattle.std.specs.Prelude.{◌≡◌, map, true, false, IfOk, IfSome, IfNone};
ghost use Rattle.serde_json.specs.View.{view, items_view};
ghost use Rattle.zarr_model.specs.Prelude.{are_cut};
ghost use Rattle.zarrs_metadata_parts.specs.MetadataV3.{extension_seen};
ghost use Rattle.zarrs_metadata_values.specs.Reading.{Reads, each, whole_numbers};
ghost use Rattle.zarr_basics.specs.Axes.{lengths_of};
ghost use Rattle.zarr_basics.specs.BoundaryConfigurations.{number_lists, if_cut, lengths_in};

use crate::axis::BoundaryAxis;
use serde_json::Value;
use std::alloc::{AllocError, Global};
use zarrs_metadata_parts::json::{read_list, read_whole_numbers};
use zarrs_metadata_parts::making::configured;
use zarrs_metadata_parts::{MetadataError, MetadataV3};
use zarrs_metadata_values::configuration::only_member;

// The list of whole numbers that each item is.
#[tactic(auto, using(zarrs_metadata_values::proofs::EachLemmas::each_push, zarrs_metadata_values::proofs::EachLemmas::each_fails))]
fn read_each_list(alloc: Global, items: &[Value]) -> Result<Vec<Vec<u64>>, MetadataError>
    ensures { Reads (λ v. map (λ list. list.items) v.items) result
        (each whole_numbers (items_view items.now)) }
{
    let mut lists = Vec::with_capacity(alloc, items.len())?;
    for item in items {
        match read_whole_numbers(alloc, item) {
            Ok(list) => lists.push(list)?,
            Err(e) => return Err(e),
        }
    }
    Ok(lists)
}

// The list of lists of whole numbers that a value is.
#[tactic(auto, unfolding(crate::specs::BoundaryConfigurations::number_lists))]
fn read_lists(alloc: Global, value: &Value) -> Result<Vec<Vec<u64>>, MetadataError>
    ensures { Reads (λ v. map (λ list. list.items) v.items) result
        (number_lists (view value.now)) }
{
    read_each_list(alloc, read_list(value)?)
}

// The chunks of each dimension by their lengths, if these cut it.
#[tactic(auto, using(crate::proofs::MadeAxes::of_making))]
fn axes_of(
    alloc: Global,
    shape: &[u64],
    lists: &[Vec<u64>],
) -> Result<Option<Vec<BoundaryAxis>>, AllocError>
    ensures some { IfOk result (λ o.
        IfSome o (λ v. lengths_of v.items ≡ map (λ list. list.items) lists.now)) }
    ensures cut { IfOk result (λ o.
        IfSome o (λ v. are_cut shape.now (lengths_of v.items) ≡ true)) }
    ensures none { IfOk result (λ o.
        IfNone o (are_cut shape.now (map (λ list. list.items) lists.now) ≡ false)) }
{
    if lists.len() != shape.len() {
        return Ok(None);
    }
    let mut axes = Vec::with_capacity(alloc, lists.len())?;
    for k in 0..lists.len() {
        let Some(axis) = BoundaryAxis::new(alloc, shape[k], &lists[k])? else {
            return Ok(None);
        };
        axes.push(axis)?;
    }
    Ok(Some(axes))
}

// The same as a reader.
fn cut_axes(
    alloc: Global,
    shape: &[u64],
    lists: &[Vec<u64>],
) -> Result<Vec<BoundaryAxis>, MetadataError>
    ensures reads { Reads (λ v. lengths_of v.items) result
        (if_cut shape.now (map (λ list. list.items) lists.now)) }
    ensures cut { IfOk result (λ v. are_cut shape.now (lengths_of v.items) ≡ true) }
{
    match axes_of(alloc, shape, lists)? {
        Some(axes) => Ok(axes),
        None => Err(MetadataError::InvalidMetadata),
    }
}

/// The chunks that the configuration of a grid of boundaries names for an array of this shape.
///
/// # Errors
/// `InvalidMetadata` exactly where the configuration is not exactly `lengths` that cut each dimension of the shape.
#[tactic(auto, unfolding(crate::specs::BoundaryConfigurations::lengths_in))]
pub(crate) fn read_axes(
    alloc: Global,
    array_shape: &[u64],
    metadata: &MetadataV3,
) -> Result<Vec<BoundaryAxis>, MetadataError>
    ensures reads { Reads (λ v. lengths_of v.items) result
        (lengths_in array_shape.now (extension_seen metadata.now).configuration) }
    ensures cut { IfOk result (λ v. are_cut array_shape.now (lengths_of v.items) ≡ true) }
{
    let value = only_member(configured(metadata)?, "lengths")?;
    let lists = read_lists(alloc, value)?;
    cut_axes(alloc, array_shape, &lists)
}
