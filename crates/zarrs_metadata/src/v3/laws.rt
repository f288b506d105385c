//! What is written, read again. Each function without a body is a law of the forms that documents have.

ghost use Rattle.std.specs.Prelude.{◌≡◌, Some, IfOk};
ghost use Rattle.serde_json.specs.Data.{Data};
ghost use Rattle.zarrs_metadata_values.specs.Reading.{GivesRead, unless_float};
ghost use Rattle.zarrs_metadata_values.specs.Rising.{Rises};
ghost use Rattle.zarrs_metadata_parts.specs.AdditionalFields.{normal_fields, AreOrderly};
ghost use Rattle.zarrs_metadata.specs.ArrayMetadata.{ArrayFields, array_seen, array_fields_of, array_data, normal_array};
ghost use Rattle.zarrs_metadata.specs.GroupMetadata.{GroupFields, group_seen, group_of, group_data, normal_group};
ghost use Rattle.zarrs_metadata.specs.Node.{NodeFields, node_of, node_data, normal_node};
ghost use Rattle.zarrs_metadata_parts.specs.declared.v3.additional_fields.NodeKind.TheVariants.{Array, Group};

use crate::v3::array::ArrayMetadataV3;
use crate::v3::group::GroupMetadataV3;
use std::alloc::Global;
use zarrs_metadata_parts::MetadataError;
pub use zarrs_metadata_parts::laws::{orderly_fields_read_back, read_again};

/// What is written for a group reads back as it was, but for its additional fields.
#[tactic(auto, using(crate::proofs::GroupBack::group_reads_back))]
pub fn group_reads_back()
    ensures { (g : GroupFields) → group_of (group_data g) ≡ Some (normal_group g) }
{}

/// A group document that was read of a value with rising keys, as each `Value` has them, is the same when it is written
/// and read again.
#[tactic(auto, using(crate::proofs::GroupFields::group_again))]
pub fn read_group_stays()
    ensures { (d : Data) (g : GroupFields) → Rises d → group_of d ≡ Some g → normal_group g ≡ g }
{}

/// Normalising a group twice is normalising it once: where its additional fields are as a document that was
/// read has them, and where the keys of what is written for it rise.
#[tactic(auto, using(crate::proofs::GroupTwice::normal_group_once, crate::proofs::GroupTwice::written_group_once))]
pub fn normal_group_once()
    ensures orderly { (g : GroupFields) → AreOrderly Group g.additional_fields
        → normal_group (normal_group g) ≡ normal_group g }
    ensures rising { (g : GroupFields) → Rises (group_data g)
        → normal_group (normal_group g) ≡ normal_group g }
{}

/// A group document that is written and read again is in its normal form, and stays so when that is done once more.
///
/// # Errors
/// `FloatNumber` exactly where the value that is written holds a float.
pub fn read_group_again(
    alloc: Global,
    metadata: &GroupMetadataV3,
) -> Result<GroupMetadataV3, MetadataError>
    ensures again { GivesRead group_seen result
        (unless_float (group_data (group_seen metadata.now))
        (normal_group (group_seen metadata.now))) }
    ensures stays { IfOk result (λ g. normal_group (group_seen g) ≡ group_seen g) }
{
    let value = metadata.to_value(alloc)?;
    GroupMetadataV3::from_value(alloc, &value)
}

/// What is written for an array reads back with each extension in its normal form, and else as it was; of the
/// additional fields as `orderly_fields_read_back` says.
#[tactic(auto, using(crate::proofs::ArrayBack::array_reads_back))]
pub fn array_reads_back()
    ensures { (f : ArrayFields) → array_fields_of (array_data f) ≡ Some (normal_array f) }
{}

/// What is written for an array reads back as an array, and for a group as a group.
#[tactic(auto, using(crate::proofs::ArrayBack::node_reads_back))]
pub fn node_reads_back()
    ensures { (n : NodeFields) → node_of (node_data n) ≡ Some (normal_node n) }
{}

/// An array document that was read of a value with rising keys, as each `Value` has them, keeps its additional fields
/// when it is written and read again.
#[tactic(auto, using(crate::proofs::ReadFields::array_kept))]
pub fn read_array_keeps_fields()
    ensures { (d : Data) (f : ArrayFields) → Rises d → array_fields_of d ≡ Some f
        → normal_fields Array f.additional_fields ≡ f.additional_fields }
{}

/// Normalising an array twice is normalising it once: where its additional fields are as a document that was read has
/// them, and where the keys of what is written for it rise.
#[tactic(auto, using(crate::proofs::Twice::normal_array_once, crate::proofs::Twice::written_array_once))]
pub fn normal_array_once()
    ensures orderly { (f : ArrayFields) → AreOrderly Array f.additional_fields
        → normal_array (normal_array f) ≡ normal_array f }
    ensures rising { (f : ArrayFields) → Rises (array_data f)
        → normal_array (normal_array f) ≡ normal_array f }
{}

/// An array document that is written and read again is in its normal form, and stays so when that is done once more.
///
/// # Errors
/// `FloatNumber` exactly where the value that is written holds a float.
pub fn read_array_again(
    alloc: Global,
    metadata: &ArrayMetadataV3,
) -> Result<ArrayMetadataV3, MetadataError>
    ensures again { GivesRead array_seen result
        (unless_float (array_data (array_seen metadata.now))
        (normal_array (array_seen metadata.now))) }
    ensures stays { IfOk result (λ a. normal_array (array_seen a) ≡ array_seen a) }
{
    let value = metadata.to_value(alloc)?;
    ArrayMetadataV3::from_value(alloc, &value)
}
