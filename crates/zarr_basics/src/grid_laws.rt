//! Laws of the definitions. Each function's contract is a law, and its body is empty.

ghost use Rattle.std.specs.Prelude.{◌≡◌, ℕ, List, Option, Some, IsTrue};
ghost use Rattle.serde_json.specs.Data.{Members};
ghost use Rattle.zarr_basics.specs.GridConfigurations.{are_chunk_lengths, chunk_shape_in, chunk_shape_members};

/// The configuration that is written for a chunk shape says that chunk shape.
#[tactic(auto, using(crate::proofs::ConfigurationLaws::reads_back))]
pub fn lengths_read_back()
    ensures { (shape lengths : List ℕ) → IsTrue (are_chunk_lengths shape lengths)
        → chunk_shape_in shape (Some (chunk_shape_members lengths)) ≡ Some lengths }
{}

/// A configuration that says a chunk shape is the one that is written for it.
#[tactic(auto, using(crate::proofs::ConfigurationLaws::is_written))]
pub fn lengths_are_written()
    ensures { (shape : List ℕ) (configuration : Option Members) (lengths : List ℕ)
        → chunk_shape_in shape configuration ≡ Some lengths
        → configuration ≡ Some (chunk_shape_members lengths) }
{}
