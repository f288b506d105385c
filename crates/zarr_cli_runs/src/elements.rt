//! The elements that a command writes.

ghost use Rattle.std.specs.Prelude.{◌≡◌, ◌^◌, ◌<◌, ◌≤◌, ◌++◌, IfOk, OnOk};
ghost use Rattle.zarr_cli_lines.specs.Parts.{span_of_range};
ghost use Rattle.zarr_cli_runs.specs.MadeCommands.{element_made_at, row_of, rows_of};

use std::alloc::{AllocError, Global};
use std::ops::Range;

/// The rows and the columns of a region of the array.
#[derive(Clone, Debug, Drop)]
pub(crate) struct Area {
    pub(crate) rows: Range<u64>,
    pub(crate) columns: Range<u64>,
}

// The element that command `k` writes at a row and a column, low byte first.
fn element_at(k: u64, row: u64, column: u64) -> [u8; 2]
    requires k { k < 2 ^ 32 }
    requires row { row < 2 ^ 32 }
    requires column { column < 2 ^ 32 }
    ensures { result ≡ element_made_at k row column }
{
    let number = (4099 * k + 257 * row + column) % 65_536;
    [(number % 256) as u8, (number / 256) as u8]
}

// Appends the elements of a row.
#[tactic(auto, using(crate::proofs::RowLemmas::none_joined, crate::proofs::RowLemmas::one_more_joined))]
fn push_row(bytes: &mut Vec<u8>, k: u64, row: u64, columns: &Range<u64>) -> Result<(), AllocError>
    requires k { k < 2 ^ 32 }
    requires row { row < 2 ^ 32 }
    requires rising { columns.now.start ≤ columns.now.end }
    requires small { columns.now.end < 2 ^ 32 }
    ensures { OnOk result (bytes.new.items
        ≡ bytes.old.items ++ row_of k (span_of_range columns.now) row) }
{
    for column in columns.start..columns.end {
        bytes.extend_from_slice(&element_at(k, row, column))?;
    }
    Ok(())
}

/// The elements that command `k` writes to an area, row by row, low byte first.
#[tactic(auto, using(crate::proofs::RowLemmas::none_joined, crate::proofs::RowLemmas::one_more_joined))]
pub(crate) fn made_elements(alloc: Global, k: u64, area: &Area) -> Result<Vec<u8>, AllocError>
    requires k { k < 2 ^ 32 }
    requires rows { area.now.rows.start ≤ area.now.rows.end }
    requires columns { area.now.columns.start ≤ area.now.columns.end }
    requires high { area.now.rows.end < 257 }
    requires wide { area.now.columns.end < 257 }
    ensures { IfOk result (λ bytes. bytes.items
        ≡ rows_of k (span_of_range area.now.rows) (span_of_range area.now.columns)) }
{
    let height = (area.rows.end - area.rows.start) as usize;
    let width = (area.columns.end - area.columns.start) as usize;
    let mut bytes = Vec::with_capacity(alloc, room_of(height, width))?;
    for row in area.rows.start..area.rows.end {
        push_row(&mut bytes, k, row, &area.columns)?;
    }
    Ok(bytes)
}

// The bytes of so many rows of elements.
fn room_of(height: usize, width: usize) -> usize
    requires high { height < 257 }
    requires wide { width < 257 }
    ensures { result < 2 ^ 32 }
{
    height.saturating_mul(width).saturating_mul(2)
}
