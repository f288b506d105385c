//! Laws of the definitions. Each function's contract is a law, and its body is empty.

ghost use Rattle.std.specs.Prelude.{◌≡◌, ℕ, ◌<◌, ◌&&◌, List, Some, true, length};
ghost use Rattle.zarr_model.specs.Region.{Region, contains, count_of, linear_index, sizes, starts, tuple_at, whole};
ghost use Rattle.zarrs_array_subset.specs.Boxes.{contains_front, ends_fit, is_box, moved, moved_back, overlap_of, starts_past};
ghost use Rattle.zarrs_array_subset.specs.Ravel.{raveled};

/// Linear indices and indices are inverse inside a shape.
pub fn ravel_inverse()
    ensures tuples { (shape tuple : List ℕ) → contains (whole shape) tuple ≡ true
        → (raveled shape tuple ≡ Some (linear_index shape tuple))
        × (tuple_at (whole shape) (linear_index shape tuple) ≡ tuple) }
    ensures places { (shape : List ℕ) (k : ℕ) → k < count_of shape
        → raveled shape (tuple_at (whole shape) k) ≡ Some k }
{}

/// The overlap of two regions of one rank contains a tuple exactly where both do: of the tuples of
/// their rank, and of the indices that [`ArraySubset::contains`](crate::ArraySubset::contains)
/// takes.
pub fn overlap_contains()
    ensures tuples { (a b : Region) (tuple : List ℕ) → length a ≡ length b
        → contains (overlap_of a b) tuple ≡ (contains a tuple && contains b tuple) }
    ensures calls { (a b : Region) (indices : List ℕ) → length a ≡ length b
        → contains_front (overlap_of a b) indices
        ≡ (contains_front a indices && contains_front b indices) }
{}

/// Where an offset may be taken off, it may be added again, which gives the same region.
pub fn offset_undoes()
    ensures same { (region : Region) (offset : List ℕ) → starts_past region offset ≡ true
        → moved (moved_back region offset) offset ≡ region }
    ensures fits { (region : Region) (offset : List ℕ) → starts_past region offset ≡ true
        → is_box (starts region) (sizes region) ≡ true
        → ends_fit (moved_back region offset) offset ≡ true }
{}
