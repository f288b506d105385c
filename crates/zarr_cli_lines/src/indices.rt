//! The indices of a chunk: `.` at rank 0, else numbers joined by commas.

ghost use Rattle.std.specs.Prelude.{◌≡◌, map, IfOk, option_map};
ghost use Rattle.zarr_cli_lines.specs.Text.{split_at, all_some, indices_in_line};
ghost use Rattle.zarrs_plugin.specs.Number.{number_of};

use crate::element_parts::cut;
use std::alloc::{AllocError, Global};
use zarrs_array_subset::ArrayIndices;
use zarrs_plugin::parse_number;

// Numbers joined by commas.
fn parse_numbers(alloc: Global, text: &str) -> Result<Option<Vec<u64>>, AllocError>
    ensures { IfOk result (λ numbers. option_map (λ v. v.items) numbers
        ≡ all_some (map number_of (split_at 44 text.now))) }
{
    let mut numbers = Vec::new(alloc);
    let mut left = Some(text);
    'parts: while let Some(text) = left {
        let (number, rest) = cut(text, ',');
        let Some(number) = parse_number(number) else {
            return Ok(None);
        };
        numbers.push(number)?;
        left = rest;
    }
    Ok(Some(numbers))
}

/// The indices of a chunk. An error comes only for want of memory.
pub(crate) fn parse_indices(alloc: Global, text: &str) -> Result<Option<ArrayIndices>, AllocError>
    ensures { IfOk result (λ indices. option_map (λ v. v.items) indices
        ≡ indices_in_line text.now) }
{
    if text == "." {
        return Ok(Some(Vec::new(alloc)));
    }
    parse_numbers(alloc, text)
}
