//! Laws of the definitions. Each function's contract is a law, and its body is empty.

ghost use Rattle.std.specs.Prelude.{◌≡◌, ℕ, List, true, map};
ghost use Rattle.std.specs.Iterator.{AlwaysYields, YieldsFirst, YieldsFirstBy};
ghost use Rattle.zarr_model.specs.Region.{Region, ends_within};
ghost use Rattle.zarrs_chunk_grid_iterators.specs.Places.{IsRun, IsTuple, YieldsOne};
ghost use Rattle.zarrs_chunk_grid_iterators.specs.Runs.{CoversLeast, runs, run_span_at, span_of, tuple_runs};
ghost use Rattle.zarrs_chunk_grid_iterators.specs.Yields.{AlwaysGives};
ghost use Rattle.zarrs_chunk_grid_iterators.specs.Iterators.{tuples_lent, first_lent, tuples_left, first_left, linear_lent, linear_left, runs_lent, runs_left, tuple_runs_lent, first_run_lent, tuple_runs_left, first_run_left};
ghost use Rattle.zarrs_chunk_grid_iterators.specs.declared.indices_iterator.IndicesIterator.{IndicesIterator};
ghost use Rattle.zarrs_chunk_grid_iterators.specs.declared.indices_iterator.IndicesIntoIterator.{IndicesIntoIterator};
ghost use Rattle.zarrs_chunk_grid_iterators.specs.declared.linearised_indices_iterator.LinearisedIndicesIterator.{LinearisedIndicesIterator};
ghost use Rattle.zarrs_chunk_grid_iterators.specs.declared.linearised_indices_iterator.LinearisedIndicesIntoIterator.{LinearisedIndicesIntoIterator};
ghost use Rattle.zarrs_chunk_grid_iterators.specs.declared.contiguous_indices_iterator.ContiguousIndicesIterator.{ContiguousIndicesIterator};
ghost use Rattle.zarrs_chunk_grid_iterators.specs.declared.contiguous_indices_iterator.ContiguousIndicesIntoIterator.{ContiguousIndicesIntoIterator};
ghost use Rattle.zarrs_chunk_grid_iterators.specs.declared.contiguous_linearised_indices_iterator.ContiguousLinearisedIndicesIterator.{ContiguousLinearisedIndicesIterator};
ghost use Rattle.zarrs_chunk_grid_iterators.specs.declared.contiguous_linearised_indices_iterator.ContiguousLinearisedIndicesIntoIterator.{ContiguousLinearisedIndicesIntoIterator};

/// The runs of a region inside a shape are its linear indices in order, and no cover of these has
/// fewer intervals.
pub fn runs_cover()
    ensures { (shape : List ℕ) (region : Region) → ends_within region shape ≡ true
        → CoversLeast shape region }
{}

/// The tuples of runs are those at which the runs of linear indices begin.
pub fn runs_begin()
    ensures { (shape : List ℕ) (region : Region)
        → map (run_span_at shape) (tuple_runs shape region) ≡ runs shape region }
{}

/// Each iterator gives what it has left, item by item, and then ends.
pub fn iterators_end()
    ensures tuples_lent { (s : IndicesIterator)
        → AlwaysGives (YieldsOne IsTuple tuples_lent first_lent) IsTuple s (tuples_lent s) }
    ensures tuples { (s : IndicesIntoIterator)
        → AlwaysGives (YieldsOne IsTuple tuples_left first_left) IsTuple s (tuples_left s) }
    ensures linear_lent { (s : LinearisedIndicesIterator)
        → AlwaysYields (YieldsFirst linear_lent) (λ x. x) s (linear_lent s) }
    ensures linear { (s : LinearisedIndicesIntoIterator)
        → AlwaysYields (YieldsFirst linear_left) (λ x. x) s (linear_left s) }
    ensures runs_lent { (s : ContiguousLinearisedIndicesIterator)
        → AlwaysYields (YieldsFirstBy span_of runs_lent) span_of s (runs_lent s) }
    ensures runs { (s : ContiguousLinearisedIndicesIntoIterator)
        → AlwaysYields (YieldsFirstBy span_of runs_left) span_of s (runs_left s) }
    ensures tuple_runs_lent { (s : ContiguousIndicesIterator)
        → AlwaysGives (YieldsOne IsRun tuple_runs_lent first_run_lent) IsRun s (tuple_runs_lent s) }
    ensures tuple_runs { (s : ContiguousIndicesIntoIterator)
        → AlwaysGives (YieldsOne IsRun tuple_runs_left first_run_left) IsRun s (tuple_runs_left s) }
{}
