//! Iterators over tuples and linear indices that were gathered.

ghost use Rattle.std.specs.Prelude.{◌≡◌, IfSome, Some};
ghost use Rattle.std.specs.Iterator.{UpTo, at_most};
ghost use Rattle.std.specs.Iterator.SizeHint.{IsWithinCount};
ghost use Rattle.std.specs.Vec.Iter.{into_iter_len};

use std::alloc::{AllocError, Global};
use std::vec::IntoIter;
use zarrs_array_subset::ArrayIndicesTinyVec;

/// Index tuples that were gathered.
#[derive(Drop)]
pub struct GatheredTuples {
    pub tuples: IntoIter<ArrayIndicesTinyVec, Global>,
}

impl Iterator for GatheredTuples {
    ghost use Rattle.zarrs_chunk_grid_iterators.specs.ListIterators.{tuple_steps};

    type Item = Result<ArrayIndicesTinyVec, AllocError>;

    ghost next_gives = { tuple_steps };

    ghost remaining = { λ s. at_most (into_iter_len s.tuples) };

    fn next(&mut self) -> Option<Result<ArrayIndicesTinyVec, AllocError>> {
        let tuple = self.tuples.next()?;
        Some(Ok(tuple))
    }

    fn size_hint(&self) -> (usize, Option<usize>)
        ensures lower { IsWithinCount result.0 (at_most (into_iter_len self.now.tuples)) }
        ensures upper { IfSome result.1 (UpTo (at_most (into_iter_len self.now.tuples))) }
        ensures exact { result.0 ≡ into_iter_len self.now.tuples }
        ensures told { result.1 ≡ Some (into_iter_len self.now.tuples) }
    {
        let left = self.tuples.len();
        (left, Some(left))
    }
}

impl DoubleEndedIterator for GatheredTuples {
    ghost use Rattle.zarrs_chunk_grid_iterators.specs.ListIterators.{tuple_steps_back};

    ghost next_back_gives = { tuple_steps_back };

    fn next_back(&mut self) -> Option<Result<ArrayIndicesTinyVec, AllocError>> {
        let tuple = self.tuples.next_back()?;
        Some(Ok(tuple))
    }
}

impl ExactSizeIterator for GatheredTuples {
    fn len(&self) -> usize {
        self.tuples.len()
    }
}

/// Linear indices that were gathered, each as a run of its own.
#[derive(Drop)]
pub struct SingleRuns {
    pub indices: IntoIter<u64, Global>,
}

impl Iterator for SingleRuns {
    ghost use Rattle.zarrs_chunk_grid_iterators.specs.ListIterators.{single_steps};

    type Item = (u64, u64);

    ghost next_gives = { single_steps };

    ghost remaining = { λ s. at_most (into_iter_len s.indices) };

    fn next(&mut self) -> Option<(u64, u64)> {
        let index = self.indices.next()?;
        Some((index, 1))
    }

    fn size_hint(&self) -> (usize, Option<usize>)
        ensures lower { IsWithinCount result.0 (at_most (into_iter_len self.now.indices)) }
        ensures upper { IfSome result.1 (UpTo (at_most (into_iter_len self.now.indices))) }
        ensures exact { result.0 ≡ into_iter_len self.now.indices }
        ensures told { result.1 ≡ Some (into_iter_len self.now.indices) }
    {
        let left = self.indices.len();
        (left, Some(left))
    }
}

impl DoubleEndedIterator for SingleRuns {
    ghost use Rattle.zarrs_chunk_grid_iterators.specs.ListIterators.{single_steps_back};

    ghost next_back_gives = { single_steps_back };

    fn next_back(&mut self) -> Option<(u64, u64)> {
        let index = self.indices.next_back()?;
        Some((index, 1))
    }
}

impl ExactSizeIterator for SingleRuns {
    fn len(&self) -> usize {
        self.indices.len()
    }
}
