//! The commands that are made from a number.

ghost use Rattle.std.specs.Prelude.{◌≡◌, ◌^◌, ◌<◌, ◌≤◌, map, IfOk, ◌∷◌, []};
ghost use Rattle.zarrs_codec_traits.specs.Prelude.{region, fixed_bytes};
ghost use Rattle.zarr_array.specs.boxes.Command.{command_of};
ghost use Rattle.zarr_cli_lines.specs.Parts.{span_of_range};
ghost use Rattle.zarr_model.specs.Command as Model;
ghost use Rattle.zarr_cli_runs.specs.Generator.{next_state};
ghost use Rattle.zarr_cli_runs.specs.MadeCommands.{draw_below, span_across, span_drawn, after_draws, rows_drawn, columns_drawn, region_drawn, rows_of, command_of_kind, draws_of_kind, command_from, state_behind, commands_from, made_commands};

use crate::elements::{Area, made_elements};
use crate::generator::Generator;
use std::alloc::{AllocError, Global};
use std::ops::Range;
use zarr_cli_lines::Command;
use zarrs_array_subset::ArraySubset;
use zarrs_codec_array_bytes::ArrayBytes;

/// How many commands a run has.
pub const COMMANDS: usize = 300;

// From the smaller of two numbers to the larger.
fn range_between(a: u64, b: u64) -> Range<u64>
    requires a { a < 257 }
    requires b { b < 257 }
    ensures span { span_of_range result ≡ span_across a b }
    ensures rising { result.start ≤ result.end }
    ensures small { result.end < 257 }
{
    if a < b { a..b } else { b..a }
}

fn draw_range(generator: &mut Generator) -> Range<u64>
    ensures span { span_of_range result ≡ span_drawn generator.old.state }
    ensures rising { result.start ≤ result.end }
    ensures small { result.end < 257 }
    ensures state { generator.new.state ≡ after_draws 2 generator.old.state }
{
    let first = generator.draw_below(257);
    let second = generator.draw_below(257);
    range_between(first, second)
}

fn draw_area(generator: &mut Generator) -> Area
    ensures rows { span_of_range result.rows ≡ rows_drawn generator.old.state }
    ensures columns { span_of_range result.columns ≡ columns_drawn generator.old.state }
    ensures rows_rise { result.rows.start ≤ result.rows.end }
    ensures columns_rise { result.columns.start ≤ result.columns.end }
    ensures high { result.rows.end < 257 }
    ensures wide { result.columns.end < 257 }
    ensures state { generator.new.state ≡ after_draws 4 generator.old.state }
{
    let rows = draw_range(generator);
    let columns = draw_range(generator);
    Area { rows, columns }
}

fn subset_of(alloc: Global, area: Area) -> Result<ArraySubset, AllocError>
    ensures { IfOk result (λ subset. region subset
        ≡ span_of_range area.rows ∷ span_of_range area.columns ∷ []) }
{
    let subset = ArraySubset::new_with_ranges(alloc, &[area.rows, area.columns])?;
    Ok(subset)
}

fn make_write(alloc: Global, k: u64, generator: &mut Generator) -> Result<Command, AllocError>
    requires { k < 2 ^ 32 }
    ensures command { IfOk result (λ command. command_of command
        ≡ Model.write (region_drawn generator.old.state)
        (fixed_bytes (rows_of k (rows_drawn generator.old.state)
        (columns_drawn generator.old.state)))) }
    ensures state { generator.new.state ≡ after_draws 4 generator.old.state }
{
    let area = draw_area(generator);
    let bytes = made_elements(alloc, k, &area)?;
    let subset = subset_of(alloc, area)?;
    Ok(Command::Write(subset, ArrayBytes::from(bytes)))
}

fn make_read(alloc: Global, generator: &mut Generator) -> Result<Command, AllocError>
    ensures command { IfOk result (λ command. command_of command
        ≡ Model.read (region_drawn generator.old.state)) }
    ensures state { generator.new.state ≡ after_draws 4 generator.old.state }
{
    let area = draw_area(generator);
    let subset = subset_of(alloc, area)?;
    Ok(Command::Read(subset))
}

fn make_erase(alloc: Global, generator: &mut Generator) -> Result<Command, AllocError>
    ensures command { IfOk result (λ command. command_of command
        ≡ Model.erase (draw_below 7 generator.old.state
        ∷ draw_below 8 (next_state generator.old.state) ∷ [])) }
    ensures state { generator.new.state ≡ after_draws 2 generator.old.state }
{
    let row = generator.draw_below(7);
    let column = generator.draw_below(8);
    let chunk = Vec::from_slice(alloc, &[row, column])?;
    Ok(Command::Erase(chunk))
}

fn make_of_kind(
    alloc: Global,
    kind: u64,
    k: u64,
    generator: &mut Generator,
) -> Result<Command, AllocError>
    requires { k < 2 ^ 32 }
    ensures command { IfOk result (λ command. command_of command
        ≡ command_of_kind kind k generator.old.state) }
    ensures state { generator.new.state ≡ after_draws (draws_of_kind kind) generator.old.state }
{
    if kind < 4 {
        make_write(alloc, k, generator)
    } else if kind < 7 {
        make_read(alloc, generator)
    } else {
        make_erase(alloc, generator)
    }
}

// Command `k`, counted from 1.
#[tactic(auto, unfolding(crate::specs::MadeCommands::command_from, crate::specs::MadeCommands::state_behind))]
fn make_command(alloc: Global, k: u64, generator: &mut Generator) -> Result<Command, AllocError>
    requires { k < 2 ^ 32 }
    ensures command { IfOk result (λ command. command_of command
        ≡ command_from k generator.old.state) }
    ensures state { generator.new.state ≡ state_behind generator.old.state }
{
    let kind = generator.draw_below(8);
    make_of_kind(alloc, kind, k, generator)
}

// So many commands, from the first one on.
fn make_all(
    alloc: Global,
    count: usize,
    generator: &mut Generator,
) -> Result<Vec<Command>, AllocError>
    requires { count < 2 ^ 31 }
    ensures { IfOk result (λ commands. map command_of commands.items
        ≡ commands_from count 1 generator.old.state) }
{
    let mut commands = Vec::with_capacity(alloc, count)?;
    for made in 0..count {
        let command = make_command(alloc, made as u64 + 1, generator)?;
        commands.push(command)?;
    }
    Ok(commands)
}

/// The commands that are made from a number.
///
/// # Errors
/// [`AllocError`] where memory runs out.
#[tactic(auto)]
pub fn made_commands(alloc: Global, number: u64) -> Result<Vec<Command>, AllocError>
    ensures { IfOk result (λ commands. map command_of commands.items ≡ made_commands number) }
{
    let mut generator = Generator::new(number);
    let commands = make_all(alloc, COMMANDS, &mut generator)?;
    Ok(commands)
}
