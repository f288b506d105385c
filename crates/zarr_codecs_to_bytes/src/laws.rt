//! The law of the values.

ghost use Rattle.std.specs.Prelude.{◌≡◌, ◌↔◌, ◌<◌, ◌^◌, ℕ, List, length, Some};
ghost use Rattle.std.specs.List.{AllByRecursion};
ghost use Rattle.zarr_model.specs.Element.{Element};
ghost use Rattle.zarr_model.specs.Codec.{decode_vlen, vlen_value};
ghost use Rattle.zarr_codecs_to_bytes.specs.Values.{IsItem};

/// A value, which is of bytes, decodes to elements exactly where it is their number and then each behind its length.
pub fn values_have_one_form()
    ensures { (value : List ℕ) (elements : List Element) → AllByRecursion (λ b. b < 256) value
        → length elements < 2 ^ 32 → AllByRecursion IsItem elements
        → (decode_vlen (length elements) value ≡ Some elements) ↔ (value ≡ vlen_value elements) }
{}
