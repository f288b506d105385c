//! The summary of a run.

ghost use Rattle.std.specs.Prelude.{◌≡◌, ◌<◌, ◌++◌, List, map, OnOk};
ghost use Rattle.std.specs.List.{AllZip};
ghost use Rattle.zarrs_codec_traits.specs.Prelude.{Matches, fixed};
ghost use Rattle.zarr_model.specs.Command as Model;
ghost use Rattle.zarr_array.specs.boxes.Command.{answer_of};
ghost use Rattle.zarr_cli_runs.specs.Summary.{number_line, digest_line, summary_lines, summary_text};
ghost use Rattle.zarr_cli_lines.specs.Parts.{IsTextOfReplies};
ghost use Rattle.zarr_cli_runs.specs.Tally.{summary_held};

use crate::making_commands::COMMANDS;
use crate::tally::{Tally, tally_of};
use sha2::{Digest, Sha256};
use std::alloc::{AllocError, Global};
use zarr_cli_lines::Reply;

// Appends the line of a name and a number.
fn push_number(
    alloc: Global,
    text: &mut Vec<u8>,
    name: &str,
    number: usize,
) -> Result<(), AllocError>
    ensures { OnOk result (text.new.items ≡ text.old.items ++ number_line name.now number) }
{
    let line = format!(in alloc; "{name} {number}\n")?;
    text.extend_from_slice(line.as_bytes())
}

// Appends the line of the digest of lines.
fn push_digest(text: &mut Vec<u8>, lines: &[u8]) -> Result<(), AllocError>
    ensures { OnOk result (text.new.items ≡ text.old.items ++ digest_line lines.now) }
{
    let digest = Sha256::digest(lines);
    let mut digits = [0; 64];
    let Ok(()) = hex::encode_to_slice(digest.as_slice(), &mut digits) else {
        unreachable!();
    };
    text.extend_from_slice(b"sha256 ")?;
    text.extend_from_slice(&digits)?;
    text.push(b'\n')?;
    Ok(())
}

// Appends the seven lines of a tally, a number of keys, and lines.
fn push_lines(
    alloc: Global,
    text: &mut Vec<u8>,
    tally: Tally,
    keys: usize,
    lines: &[u8],
) -> Result<(), AllocError>
    ensures { OnOk result (text.new.items ≡ text.old.items
        ++ summary_lines tally.ok tally.done tally.refused tally.elements keys lines.now) }
{
    push_number(alloc, text, "commands", COMMANDS)?;
    push_number(alloc, text, "ok", tally.ok)?;
    push_number(alloc, text, "done", tally.done)?;
    push_number(alloc, text, "refused", tally.refused)?;
    push_number(alloc, text, "elements", tally.elements)?;
    push_number(alloc, text, "keys", keys)?;
    push_digest(text, lines)?;
    Ok(())
}

/// Appends the summary of a run's replies, whose elements have `size` bytes and whose lines are `lines`, and of how
/// many keys its store has at the end.
///
/// # Errors
/// [`AllocError`] where memory runs out; the text may then have a part of the summary.
pub fn push_summary(
    alloc: Global,
    text: &mut Vec<u8>,
    replies: &[Reply],
    lines: &[u8],
    size: usize,
    keys: usize,
) -> Result<(), AllocError>
    requires some { 0 < size }
    requires lines { IsTextOfReplies (fixed size) replies.now lines.now }
    ensures held { OnOk result (text.new.items ≡ text.old.items
        ++ summary_held size replies.now keys lines.now) }
    ensures replies { OnOk result ((answers : List Model.Reply) →
        AllZip (Matches (fixed size)) (map answer_of replies.now) answers →
        text.new.items ≡ text.old.items ++ summary_text answers keys) }
{
    let tally = tally_of(replies, size)?;
    push_lines(alloc, text, tally, keys, lines)?;
    Ok(())
}
