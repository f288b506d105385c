//! Runs of elements as ranges of bytes.

ghost use Rattle.std.specs.Prelude.{◌≡◌, IfSome, Some};
ghost use Rattle.std.specs.Iterator.{UpTo, size};
ghost use Rattle.std.specs.Iterator.SizeHint.{IsWithinCount};
ghost use Rattle.zarrs_chunk_grid_indexer.specs.Bytes.{range_of};

use std::ops::Range;

/// The ranges of bytes of runs of elements.
#[derive(Drop)]
pub struct ByteRuns<I> {
    runs: I,
    element_size: u64,
}

impl<I: Iterator<Item = (u64, u64)>> ByteRuns<I> {
    /// The bytes of these runs of elements, of `element_size` bytes each.
    pub fn new(runs: I, element_size: u64) -> Self
        ensures runs { result.runs ≡ runs }
        ensures size { result.element_size ≡ element_size }
    {
        ByteRuns { runs, element_size }
    }
}

// The bytes of a run, each number at most the greatest.
fn bytes_of_run(run: (u64, u64), element_size: u64) -> Range<u64>
    ensures { result ≡ range_of element_size run }
{
    let (start, length) = run;
    let end = start.saturating_add(length);
    start.saturating_mul(element_size)..end.saturating_mul(element_size)
}

impl<I: ExactSizeIterator<Item = (u64, u64)>> Iterator for ByteRuns<I> {
    ghost use Rattle.zarrs_chunk_grid_indexer.specs.Bytes.{byte_steps};

    type Item = Range<u64>;

    ghost can_next = { λ s. I.can_next s.runs };

    ghost next_gives = { byte_steps I.next_gives };

    ghost remaining = { λ s. I.remaining s.runs };

    fn next(&mut self) -> Option<Range<u64>> {
        let run = self.runs.next()?;
        Some(bytes_of_run(run, self.element_size))
    }

    fn size_hint(&self) -> (usize, Option<usize>)
        ensures lower { IsWithinCount result.0 (I.remaining self.now.runs) }
        ensures upper { IfSome result.1 (UpTo (I.remaining self.now.runs)) }
        ensures exact { result.0 ≡ size (I.remaining self.now.runs) }
        ensures told { result.1 ≡ Some (size (I.remaining self.now.runs)) }
    {
        let left = self.runs.len();
        (left, Some(left))
    }
}

impl<I> DoubleEndedIterator for ByteRuns<I>
where
    I: DoubleEndedIterator<Item = (u64, u64)> + ExactSizeIterator,
{
    ghost use Rattle.zarrs_chunk_grid_indexer.specs.Bytes.{byte_steps};

    ghost can_next_back = { λ s. I.can_next_back s.runs };

    ghost next_back_gives = { byte_steps I.next_back_gives };

    fn next_back(&mut self) -> Option<Range<u64>> {
        let run = self.runs.next_back()?;
        Some(bytes_of_run(run, self.element_size))
    }
}

impl<I: ExactSizeIterator<Item = (u64, u64)>> ExactSizeIterator for ByteRuns<I> {
    fn len(&self) -> usize {
        self.runs.len()
    }
}
