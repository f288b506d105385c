//! Boxes: `.` at rank 0, else ranges `a..b` joined by commas.

ghost use Rattle.std.specs.Prelude.{◌≡◌, map, IfOk, option_map};
ghost use Rattle.zarrs_array_subset.specs.Boxes.{region_of_ranges};
ghost use Rattle.zarrs_array_subset.specs.ArraySubset.{region};
ghost use Rattle.zarr_cli_lines.specs.Text.{split_at, all_some, span_in_words, box_of};
ghost use Rattle.zarr_cli_lines.specs.Parts.{span_of_range};

use crate::element_parts::cut;
use crate::parts::three_parts;
use smallvec::SmallVec;
use std::alloc::{AllocError, Global};
use std::ops::Range;
use zarrs_array_subset::ArraySubset;
use zarrs_plugin::parse_number;

// A range `a..b`. One whose end is below its start stands for no index.
fn parse_range(text: &str) -> Option<Range<u64>>
    ensures { option_map span_of_range result ≡ span_in_words (split_at 46 text.now) }
{
    let (from, between, to) = three_parts(text, '.')?;
    if !between.is_empty() {
        return None;
    }
    let start = parse_number(from)?;
    let end = parse_number(to)?;
    Some(start..end)
}

// The ranges of a box, of which those of most arrays have room without an allocation.
type Ranges = SmallVec<Range<u64>, 4>;

// Ranges joined by commas.
fn parse_ranges(alloc: Global, text: &str) -> Result<Option<Ranges>, AllocError>
    ensures { IfOk result (λ ranges. option_map (λ v. region_of_ranges v.items) ranges
        ≡ all_some (map (λ range. span_in_words (split_at 46 range)) (split_at 44 text.now))) }
{
    let mut ranges = Ranges::new(alloc);
    let mut left = Some(text);
    'parts: while let Some(text) = left {
        let (range, rest) = cut(text, ',');
        let Some(range) = parse_range(range) else {
            return Ok(None);
        };
        ranges.push(range)?;
        left = rest;
    }
    Ok(Some(ranges))
}

/// The array subset of a box. An error comes only for want of memory.
pub(crate) fn parse_box(alloc: Global, text: &str) -> Result<Option<ArraySubset>, AllocError>
    ensures { IfOk result (λ subset. option_map region subset ≡ box_of text.now) }
{
    if text == "." {
        return Ok(Some(ArraySubset::new_with_ranges(alloc, &[])?));
    }
    let Some(ranges) = parse_ranges(alloc, text)? else {
        return Ok(None);
    };
    Ok(Some(ArraySubset::new_with_ranges(alloc, ranges.as_slice())?))
}
