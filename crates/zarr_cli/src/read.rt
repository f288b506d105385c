//! Reading an input, line by line.

ghost use Rattle.std.specs.Prelude.{◌≡◌, ◌≤◌, ◌↔◌, ◌+◌, ◌++◌, ◌∷◌, List, ℕ, [], false, length, take, map, string_bytes, Some, IsSome, IsUtf8, IfOk, IfErr, IfSome, IfNone, OnOk};
ghost use Rattle.zarr_model.specs.Prelude.{ReadsNext};
ghost use Rattle.zarr_cli_runs.specs.lines.Text.{input_lines};
ghost use Rattle.zarr_cli.specs.Input.{input_limit};
ghost use Rattle.zarr_cli.specs.Steps.{NoNewline, IsPieceFault, IsUnreadInput, AreRead, IsTextFault};

use crate::lines::InputFault;
use std::alloc::{AllocError, Global};
use std::mem;
use zarrs_storage::{IoFailed, Source};

/// The greatest number of bytes that an input may have.
pub const INPUT_LIMIT: usize = 67_108_864;

const PIECE_SIZE: usize = 4096;

/// The lines of the bytes that were read so far.
#[derive(Drop)]
pub(crate) struct LinesSoFar {
    // The lines that ended.
    lines: Vec<String>,
    // The bytes behind them.
    line: Vec<u8>,
    // Whether the line behind them ended, and is no UTF-8. Then what follows is not kept.
    bad: bool,
}

// What stands before the first newline, and what stands behind it, if there is one.
fn cut_line(bytes: &[u8]) -> Option<(&[u8], &[u8])>
    ensures some { IfSome result (λ parts. (bytes.now ≡ parts.0.now ++ 10 ∷ parts.1.now)
        × NoNewline parts.0.now) }
    ensures none { IfNone result (NoNewline bytes.now) }
{
    let end = bytes.iter().position(|b| *b == b'\n')?;
    Some((&bytes[..end], &bytes[end + 1..]))
}

// The same of a text.
fn cut_text(text: &str) -> Option<(&str, &str)>
    ensures some { IfSome result (λ parts. (text.now ≡ parts.0.now ++ 10 ∷ parts.1.now)
        × NoNewline parts.0.now) }
    ensures none { IfNone result (NoNewline text.now) }
{
    text.split_once('\n')
}

impl LinesSoFar {
    // No bytes.
    fn new(alloc: Global) -> LinesSoFar
        ensures { AreRead [] result }
    {
        LinesSoFar {
            lines: Vec::new(alloc),
            line: Vec::new(alloc),
            bad: false,
        }
    }

    // Ends the line with these bytes at a newline.
    fn end_line(&mut self, alloc: Global, bytes: &[u8]) -> Result<(), AllocError>
        requires good { self.now.bad ≡ false }
        requires whole { NoNewline bytes.now }
        ensures { OnOk result ((taken : List ℕ) → AreRead taken self.old →
            AreRead (taken ++ (bytes.now ++ 10 ∷ [])) self.new) }
    {
        let mut line = mem::replace(&mut self.line, Vec::new(alloc));
        line.extend_from_slice(bytes)?;
        match String::from_utf8(line) {
            Ok(line) => self.lines.push(line)?,
            Err(_) => self.bad = true,
        }
        Ok(())
    }

    // Takes a piece that is no text by itself, where a character may be cut.
    fn push_bytes(&mut self, alloc: Global, piece: &[u8]) -> Result<(), AllocError>
        ensures { OnOk result ((taken : List ℕ) → AreRead taken self.old →
            AreRead (taken ++ piece.now) self.new) }
    {
        let mut left = piece;
        'lines: while !self.bad {
            let Some((line, others)) = cut_line(left) else {
                self.line.extend_from_slice(left)?;
                return Ok(());
            };
            self.end_line(alloc, line)?;
            left = others;
        }
        Ok(())
    }

    // Takes a piece that is text, in which many bytes are looked at together.
    fn push_text(&mut self, alloc: Global, piece: &str) -> Result<(), AllocError>
        ensures { OnOk result ((taken : List ℕ) → AreRead taken self.old →
            AreRead (taken ++ piece.now) self.new) }
    {
        let mut left = piece;
        'lines: while !self.bad {
            let Some((line, others)) = cut_text(left) else {
                self.line.extend_from_slice(left.as_bytes())?;
                return Ok(());
            };
            self.end_line(alloc, line.as_bytes())?;
            left = others;
        }
        Ok(())
    }

    // Takes a piece that was read: the lines that end in it, and the front of the next one.
    fn push(&mut self, alloc: Global, piece: &[u8]) -> Result<(), AllocError>
        ensures { OnOk result ((taken : List ℕ) → AreRead taken self.old →
            AreRead (taken ++ piece.now) self.new) }
    {
        match str::from_utf8(piece) {
            Ok(text) => self.push_text(alloc, text),
            Err(_) => self.push_bytes(alloc, piece),
        }
    }

    /// All lines, if they are UTF-8.
    pub(crate) fn into_lines(self) -> Result<Vec<String>, InputFault>
        ensures text { (input : List ℕ) → AreRead input self → IfOk result (λ lines.
            IsUtf8 input × (map string_bytes lines.items ≡ input_lines input)) }
        ensures fault { IfErr result (λ fault. IsTextFault self fault) }
    {
        let LinesSoFar {
            mut lines,
            line,
            bad,
        } = self;
        let number = lines.len() as u64 + 1;
        if bad {
            return Err(InputFault::NotUtf8 { line: number });
        }
        if line.is_empty() && !lines.is_empty() {
            return Ok(lines);
        }
        let Ok(line) = String::from_utf8(line) else {
            return Err(InputFault::NotUtf8 { line: number });
        };
        lines.push(line)?;
        Ok(lines)
    }
}

// Reads once into a buffer, and takes what came. 0 is the end.
fn read_piece<R: Source>(
    alloc: Global,
    source: &mut R,
    buffer: &mut [u8],
    so_far: &mut LinesSoFar,
) -> Result<usize, InputFault>
    ensures room { length buffer.new ≡ length buffer.old }
    ensures within { IfOk result (λ got. got ≤ length buffer.new) }
    ensures appended { IfOk result (λ got. (taken : List ℕ) → AreRead taken so_far.old →
        AreRead (taken ++ take got buffer.new) so_far.new) }
    ensures tells { OnOk result (IsSome (R.shown source.new).left ↔ IsSome
        (R.shown source.old).left) }
    ensures next { IfOk result (λ got. (before now : List ℕ) →
        (R.shown source.old).left ≡ Some before →
        (R.shown source.new).left ≡ Some now → ReadsNext before now got buffer.new) }
    ensures later { (R.shown source.old).faults ≤ (R.shown source.new).faults }
    ensures fault { IfErr result (λ fault.
        IsPieceFault (R.shown source.old) (R.shown source.new) fault) }
{
    match source.read(buffer) {
        Ok(got) => {
            so_far.push(alloc, &buffer[..got])?;
            Ok(got)
        }
        Err(IoFailed) => Err(InputFault::Read),
    }
}

/// Reads a source to its end. No byte is taken beyond the first that makes the input too long.
pub(crate) fn read_input<R: Source>(alloc: Global, source: &mut R) -> Result<LinesSoFar, InputFault>
    ensures whole { (left : List ℕ) → (R.shown source.old).left ≡ Some left →
        IfOk result (λ so_far. AreRead left so_far × (length left ≤ input_limit)
        × ((R.shown source.new).left ≡ Some [])) }
    ensures fault { IfErr result (λ fault.
        IsUnreadInput (R.shown source.old) (R.shown source.new) fault) }
{
    let mut so_far = LinesSoFar::new(alloc);
    let mut buffer = [0; PIECE_SIZE];
    let mut taken = 0;
    'pieces: while taken <= INPUT_LIMIT {
        let room = (INPUT_LIMIT + 1 - taken).min(PIECE_SIZE);
        let got = read_piece(alloc, source, &mut buffer[..room], &mut so_far)?;
        if got == 0 {
            return Ok(so_far);
        }
        taken += got;
    }
    Err(InputFault::TooLong)
}
