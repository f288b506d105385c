//! The law of the texts of elements.

ghost use Rattle.std.specs.Prelude.{◌≡◌, Some};
ghost use Rattle.zarr_model.specs.Element.{Element, Kind, IsOfKind};
ghost use Rattle.zarr_cli_lines.specs.ElementText.{element_of, element_text, HoldsBytes};

/// An element is read back from its text.
pub fn elements_read_back()
    ensures { (kind : Kind) (element : Element) → IsOfKind kind element → HoldsBytes element
        → element_of kind (element_text element) ≡ Some element }
{}
