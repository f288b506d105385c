//! Laws of data types by their names.

ghost use Rattle.std.specs.Prelude.{◌≡◌, ◌↔◌, IsTrue, ℕ, List, true, Ok};
ghost use Rattle.serde_json.specs.Data.{Members};
ghost use Rattle.zarr_model.specs.Element.{DataType};
ghost use Rattle.zarrs_plugin.specs.Registry.{Names};
ghost use Rattle.zarrs_data_type.specs.DataType.{same_type, is_type};
ghost use Rattle.zarrs_data_type.specs.Making.{type_in};
ghost use Rattle.zarrs_data_type.specs.declared.data_type.kind.DataTypeKind.{DataTypeKind};

/// Two data types are the same exactly where they are equal.
pub fn same_types()
    ensures { (a b : DataType) → IsTrue (same_type a b) ↔ (a ≡ b) }
{}

/// A raw type that is named, or stands inside an optional type that is named, has at least one byte.
pub fn named_types()
    ensures { (names : Names DataTypeKind) (name : List ℕ) (configuration : Members)
        (t : DataType) → type_in names name configuration ≡ Ok t → is_type t ≡ true }
{}
