//! Laws of byte order and rounding.

ghost use Rattle.std.specs.Prelude.{◌≡◌, ◌<◌, ◌≤◌, ◌*◌, ℕ, List, length, Option, Some};
ghost use Rattle.std.specs.List.{AllByRecursion};
ghost use Rattle.zarr_model.specs.Codec.{big, from_order};
ghost use Rattle.zarr_model.specs.declared.endianness.Endianness.{Endianness};
ghost use Rattle.zarrs_data_type_bytes.specs.Pieces.{components_reversed};
ghost use Rattle.zarrs_data_type_bytes.specs.ByteOrder.{in_order};
ghost use Rattle.zarrs_data_type_bytes.specs.Rounding.{elements_rounded};

/// Bringing bytes into an order a second time gives them back, for every length.
pub fn order_undone()
    ensures { (n : ℕ) (order : Option Endianness) (bytes there : List ℕ) →
        in_order n order bytes ≡ Some there → in_order n order there ≡ Some bytes }
{}

/// Bytes that are whole components are reversed as the codec `bytes` decodes those of the big order.
pub fn order_decodes()
    ensures { (n k : ℕ) (bytes : List ℕ) → 0 < n → length bytes ≡ k * n →
        components_reversed n bytes ≡ from_order big n bytes }
{}

/// Rounding twice is rounding once.
pub fn rounding_settles()
    ensures { (keep size : ℕ) (bytes : List ℕ) →
        0 < keep → 0 < size → size ≤ 8 → AllByRecursion (λ b. b < 256) bytes →
        elements_rounded keep size (elements_rounded keep size bytes)
        ≡ elements_rounded keep size bytes }
{}
