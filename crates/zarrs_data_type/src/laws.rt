//! Laws of data types and their fill values.

ghost use Rattle.std.specs.Prelude.{◌≡◌, ◌<◌, ℕ, List, true, Some, is_some, option_and_then, length};
ghost use Rattle.std.specs.List.{AllByRecursion};
ghost use Rattle.serde_json.specs.Data.{Data};
ghost use Rattle.zarr_model.specs.Element as Model;
ghost use Rattle.zarr_model.specs.Element.{fixed, kind_of, fill_element};
ghost use Rattle.zarrs_data_type.specs.DataType.{type_of};
ghost use Rattle.zarrs_data_type.specs.FillMetadata.{fill_of, fill_metadata_of};
ghost use Rattle.zarrs_data_type.specs.declared.data_type.DataType.{DataType};

pub use crate::naming_laws::{named_types, same_types};
pub use zarrs_data_type_bytes::laws::{order_decodes, order_undone, rounding_settles};

/// A fill value that a document gives denotes an element of the data type.
pub fn fill_denotes()
    ensures { (t : Model.DataType) (d : Data) (bytes : List ℕ) → fill_of t d ≡ Some bytes →
        is_some (fill_element (kind_of t) bytes) ≡ true }
{}

/// A fill value that a document gives has as many bytes as each element of the data type, if all have one size and
/// there are no nulls.
pub fn fill_length()
    ensures { (t : Model.DataType) (d : Data) (bytes : List ℕ) (n : ℕ) →
        fill_of t d ≡ Some bytes → kind_of t ≡ fixed n → length bytes ≡ n }
{}

/// What a document says of the bytes of a fill value gives a fill value that denotes the same element.
pub fn fill_kept()
    ensures { (t : DataType) (bytes : List ℕ) (d : Data) →
        AllByRecursion (λ b. b < 256) bytes → fill_metadata_of (type_of t) bytes ≡ Some d →
        option_and_then (fill_element (kind_of (type_of t))) (fill_of (type_of t) d)
        ≡ fill_element (kind_of (type_of t)) bytes }
{}
