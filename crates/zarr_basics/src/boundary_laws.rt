//! Laws of the definitions. Each function's contract is a law, and its body is empty.

ghost use Rattle.std.specs.Prelude.{◌≡◌, ℕ, Bool, ◌&&◌, List, Option, Some, IsTrue, false};
ghost use Rattle.std.specs.List.{list_any};
ghost use Rattle.serde_json.specs.Data.{Members};
ghost use Rattle.zarr_model.specs.Prelude.{Grid, IsChunk, are_cut, chunks, starts, sizes, count, count_of, is_too_large};
ghost use Rattle.zarrs_array_subset.specs.Boxes.{is_box};
ghost use Rattle.zarr_basics.specs.BoundaryConfigurations.{lengths_in, lengths_members};
ghost use Rattle.zarr_basics.specs.Largest.{AreLargest, Grows};
ghost use Rattle.zarr_basics.specs.Limits.{has_large_chunk};
ghost use Rattle.zarr_basics.specs.LimitTests.{are_some};

/// The configuration that is written for lengths that cut a shape says these lengths.
#[tactic(auto, using(crate::proofs::WrittenLengths::reads_back))]
pub fn boundaries_read_back()
    ensures { (shape : List ℕ) (lengths : List (List ℕ)) → IsTrue (are_cut shape lengths)
        → lengths_in shape (Some (lengths_members lengths)) ≡ Some lengths }
{}

/// A configuration that says lengths is the one that is written for them.
#[tactic(auto, using(crate::proofs::ReadLengths::is_written))]
pub fn boundaries_are_written()
    ensures { (shape : List ℕ) (configuration : Option Members) (lengths : List (List ℕ))
        → lengths_in shape configuration ≡ Some lengths
        → configuration ≡ Some (lengths_members lengths) }
{}

/// Where no chunk is too large, the box of each ends within 64 bits, and does not have too many elements.
pub fn chunks_are_small()
    ensures { (grid : Grid) (size : Option ℕ) (chunk : List ℕ)
        → has_large_chunk grid size ≡ false → IsChunk grid chunk
        → IsTrue (is_box (starts (grid.chunk_box chunk)) (sizes (grid.chunk_box chunk)))
        × (is_too_large size (count (grid.chunk_box chunk)) ≡ false) }
{}

/// A test that more elements pass where fewer do holds of some chunk exactly where there is a chunk, and it holds of
/// the lengths of a largest one.
pub fn largest_lengths_decide()
    ensures { (grid : Grid) (lengths : List ℕ) → AreLargest grid lengths
        → (test : ℕ → Bool) → Grows test
        → list_any (λ chunk. test (count (grid.chunk_box chunk))) (chunks grid)
        ≡ (are_some grid.grid_shape && test (count_of lengths)) }
{}
