//! What is written, read again. Each function without a body is a law of the forms that documents have.

ghost use Rattle.std.specs.Prelude.{◌≡◌, Some};
ghost use Rattle.serde_json.specs.Data.{Data};
ghost use Rattle.zarrs_metadata_values.specs.Rising.{Rises};
ghost use Rattle.zarrs_metadata.specs.AnyArray.{AnyArray, any_array_of, any_array_data, normal_any_array, HasAnyChunks};
ghost use Rattle.zarrs_metadata.specs.AnyGroup.{AnyGroup, any_group_of, any_group_data, normal_any_group};
ghost use Rattle.zarrs_metadata.specs.AnyNode.{AnyNode, any_node_of, any_node_data, normal_any_node, StaysItsKind};

pub use crate::v3::laws::{
    array_reads_back, group_reads_back, node_reads_back, normal_array_once, normal_group_once,
    orderly_fields_read_back, read_again, read_array_again, read_array_keeps_fields,
    read_group_again, read_group_stays,
};

/// What is written for an array of either version reads back as one of that version, in its normal form.
#[tactic(auto, using(crate::proofs::AnyBack::any_array_reads_back))]
pub fn any_array_reads_back()
    ensures { (a : AnyArray) → HasAnyChunks a
        → any_array_of (any_array_data a) ≡ Some (normal_any_array a) }
{}

/// What is written for a group of either version reads back as one of that version, in its normal form.
#[tactic(auto, using(crate::proofs::AnyBack::any_group_reads_back))]
pub fn any_group_reads_back()
    ensures { (g : AnyGroup) → any_group_of (any_group_data g) ≡ Some (normal_any_group g) }
{}

/// What is written for a node reads back as one of its kind and version, in its normal form, unless the attributes of a
/// version 2 group are the fields of an array.
#[tactic(auto, using(crate::proofs::AnyBack::any_node_reads_back))]
pub fn any_node_reads_back()
    ensures { (n : AnyNode) → StaysItsKind n
        → any_node_of (any_node_data n) ≡ Some (normal_any_node n) }
{}

/// A node that was read of a value with rising keys, as each `Value` has them, is one of its kind and version when it
/// is written and read again.
#[tactic(auto, using(crate::proofs::StaysKind::read_stays_its_kind))]
pub fn read_node_stays_its_kind()
    ensures { (d : Data) (n : AnyNode) → Rises d → any_node_of d ≡ Some n → StaysItsKind n }
{}
