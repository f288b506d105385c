//! Chunks whose lengths are laid one after another.
ghost use Rattle.std.specs.Prelude.{ℕ, ◌≤◌, ◌↔◌, List, IsTrue};
ghost use Rattle.zarr_model.specs.Prelude.{CoversShape, IsChunk, boundary_grid, count, count_of, cuts, are_cut, ReachesEnd, largest_lengths};

/// Lengths that cut each dimension of a shape are a grid over it.
pub fn boundaries_cover()
    ensures { (shape : List ℕ) (lengths : List (List ℕ)) → IsTrue (are_cut shape lengths)
        → CoversShape shape (boundary_grid lengths) }
{}

/// Lengths cut a dimension exactly where they are positive, their sum reaches it, and without the last is below it.
pub fn cuts_by_sums()
    ensures { (n : ℕ) (lengths : List ℕ) → IsTrue (cuts n lengths) ↔ ReachesEnd n lengths }
{}

/// No chunk has more elements than one of the largest lengths of each dimension.
pub fn largest_lengths_bound()
    ensures { (lengths : List (List ℕ)) (chunk : List ℕ) → IsChunk (boundary_grid lengths) chunk
        → count ((boundary_grid lengths).chunk_box chunk) ≤ count_of (largest_lengths lengths) }
{}
