//! The configuration of the codec `transpose`, read and written.

ghost use Rattle.std.specs.Prelude.{◌≡◌, true, IfOk, option_map};
ghost use Rattle.zarrs_metadata_values.specs.Configuration.{configuration_seen};
ghost use Rattle.zarrs_metadata_values.specs.Reading.{Reads};
ghost use Rattle.zarr_codecs_elements.specs.Order.{is_order as is_order_of};
ghost use Rattle.zarr_codecs_array_to_array.specs.Configuration.{order_members, if_order, order_in};

use serde_json::Map;
use std::alloc::{AllocError, Global};
use zarr_codecs_elements::is_order;
use zarrs_metadata_parts::json::read_whole_numbers;
use zarrs_metadata_parts::writing::numbers_value;
use zarrs_metadata_parts::{Configuration, MetadataError};
use zarrs_metadata_values::configuration::only_member;

// The order as numbers of a document.
fn as_numbers(alloc: Global, order: &[usize]) -> Result<Vec<u64>, AllocError>
    ensures { IfOk result (λ v. v.items ≡ order.now) }
{
    let mut numbers = Vec::with_capacity(alloc, order.len())?;
    for dimension in order {
        numbers.push(*dimension as u64)?;
    }
    Ok(numbers)
}

/// The configuration that names an order.
///
/// # Errors
/// [`AllocError`] where memory runs out.
pub fn order_configuration(alloc: Global, order: &[usize]) -> Result<Configuration, AllocError>
    ensures { IfOk result (λ c. configuration_seen c ≡ order_members order.now) }
{
    let mut members = Map::new(alloc);
    let numbers = as_numbers(alloc, order)?;
    let value = numbers_value(alloc, &numbers)?;
    serde_json::put(&mut members, alloc, "order", value)?;
    Ok(Configuration::new(members))
}

// Numbers of a document as an order.
fn as_order(alloc: Global, numbers: &[u64]) -> Result<Vec<usize>, AllocError>
    ensures { IfOk result (λ v. v.items ≡ numbers.now) }
{
    let mut order = Vec::with_capacity(alloc, numbers.len())?;
    for number in numbers {
        order.push(*number as usize)?;
    }
    Ok(order)
}

// The numbers, where each one below their length is there once.
fn order_from(alloc: Global, numbers: &[u64]) -> Result<Vec<usize>, MetadataError>
    ensures value { Reads (λ v. v.items) result (if_order numbers.now) }
    ensures order { IfOk result (λ v. is_order_of v.items ≡ true) }
{
    let order = as_order(alloc, numbers)?;
    let fits = is_order(alloc, &order)?;
    if fits {
        Ok(order)
    } else {
        Err(MetadataError::InvalidMetadata)
    }
}

/// The order that the configuration names.
///
/// # Errors
/// `InvalidMetadata` exactly where the configuration is not exactly an `order` that has each number below its length
/// once; or where memory runs out.
#[tactic(auto, unfolding(crate::specs::Configuration::order_in))]
pub fn read_order(
    alloc: Global,
    configuration: Option<&Configuration>,
) -> Result<Vec<usize>, MetadataError>
    ensures value { Reads (λ v. v.items) result
        (order_in (option_map (λ c. configuration_seen c.now) configuration.entry)) }
    ensures order { IfOk result (λ v. is_order_of v.items ≡ true) }
{
    match configuration {
        Some(configuration) => {
            let value = only_member(configuration, "order")?;
            let numbers = read_whole_numbers(alloc, value)?;
            order_from(alloc, &numbers)
        }
        None => Err(MetadataError::InvalidMetadata),
    }
}
