//! What is written, read again. Each function without a body is a law of the forms that documents have.

ghost use Rattle.std.specs.Prelude.{◌≡◌, Some, IfOk};
ghost use Rattle.serde_json.specs.Data.{Data, Members};
ghost use Rattle.zarrs_metadata_values.specs.Reading.{GivesRead, unless_float};
ghost use Rattle.zarrs_metadata_values.specs.Rising.{Rises};
ghost use Rattle.zarrs_metadata_v2.specs.ArrayMetadataV2.{ArrayV2, array_v2_seen, array_v2_of, array_v2_data, normal_array_v2, HasChunks};
ghost use Rattle.zarrs_metadata_v2.specs.GroupMetadataV2.{group_v2_seen, group_v2_of, group_v2_data, normal_group_v2};
ghost use Rattle.zarrs_metadata_v2.specs.NodeV2.{NodeV2, node_v2_of, node_v2_data, normal_node_v2, StaysItsKindV2};

use crate::array::ArrayMetadataV2;
use crate::group::GroupMetadataV2;
use std::alloc::Global;
use zarrs_metadata_values::MetadataError;

/// What is written for an array with chunks reads back in its normal form: as it was, but for an `id` in the
/// configuration of a codec, and for an empty list of filters.
#[tactic(auto, using(crate::proofs::ArrayBack::array_v2_reads_back))]
pub fn array_v2_reads_back()
    ensures { (f : ArrayV2) → HasChunks f
        → array_v2_of (array_v2_data f) ≡ Some (normal_array_v2 f) }
{}

/// What is written for a group reads back as it was, but for an attribute `zarr_format`.
#[tactic(auto, using(crate::proofs::GroupBack::group_v2_reads_back))]
pub fn group_v2_reads_back()
    ensures { (attributes : Members)
        → group_v2_of (group_v2_data attributes) ≡ Some (normal_group_v2 attributes) }
{}

/// What is written for an array reads back as an array, and for a group as a group, unless its attributes are the
/// fields of an array.
#[tactic(auto, using(crate::proofs::GroupBack::node_v2_reads_back))]
pub fn node_v2_reads_back()
    ensures { (n : NodeV2) → StaysItsKindV2 n
        → node_v2_of (node_v2_data n) ≡ Some (normal_node_v2 n) }
{}

/// A document that was read of a value with rising keys, as each `Value` has them, is the same when it is written and
/// read again.
#[tactic(auto, using(crate::proofs::Stays::array_v2_stays, crate::proofs::Stays::group_v2_stays))]
pub fn read_document_v2_stays()
    ensures array { (d : Data) (f : ArrayV2) → Rises d → array_v2_of d ≡ Some f
        → normal_array_v2 f ≡ f }
    ensures group { (d : Data) (attributes : Members) → Rises d → group_v2_of d ≡ Some attributes
        → normal_group_v2 attributes ≡ attributes }
{}

/// Normalising a document twice is normalising it once, where the keys of what is written for it rise.
#[tactic(auto, using(crate::proofs::Twice::written_array_once, crate::proofs::Twice::written_group_once))]
pub fn normal_document_v2_once()
    ensures array { (f : ArrayV2) → HasChunks f → Rises (array_v2_data f)
        → normal_array_v2 (normal_array_v2 f) ≡ normal_array_v2 f }
    ensures group { (attributes : Members) → Rises (group_v2_data attributes)
        → normal_group_v2 (normal_group_v2 attributes) ≡ normal_group_v2 attributes }
{}

/// An array document that is written and read again is in its normal form, and stays so when that is done once more.
///
/// # Errors
/// `FloatNumber` exactly where the value that is written holds a float.
#[tactic(auto, using(zarrs_metadata_values::proofs::FormLemmas::given_again, crate::proofs::ArrayBack::array_v2_reads_back, crate::proofs::ArrayBack::lengths_positive))]
pub fn read_array_v2_again(
    alloc: Global,
    metadata: &ArrayMetadataV2,
) -> Result<ArrayMetadataV2, MetadataError>
    ensures again { GivesRead array_v2_seen result
        (unless_float (array_v2_data (array_v2_seen metadata.now))
        (normal_array_v2 (array_v2_seen metadata.now))) }
    ensures stays { IfOk result (λ a. normal_array_v2 (array_v2_seen a) ≡ array_v2_seen a) }
{
    let value = metadata.to_value(alloc)?;
    ArrayMetadataV2::from_value(alloc, &value)
}

/// A group document that is written and read again is in its normal form, and stays so when that is done once more.
///
/// # Errors
/// `FloatNumber` exactly where the value that is written holds a float.
#[tactic(auto, using(zarrs_metadata_values::proofs::FormLemmas::given_again, crate::proofs::GroupBack::group_v2_reads_back))]
pub fn read_group_v2_again(
    alloc: Global,
    metadata: &GroupMetadataV2,
) -> Result<GroupMetadataV2, MetadataError>
    ensures again { GivesRead group_v2_seen result
        (unless_float (group_v2_data (group_v2_seen metadata.now))
        (normal_group_v2 (group_v2_seen metadata.now))) }
    ensures stays { IfOk result
        (λ g. normal_group_v2 (group_v2_seen g) ≡ group_v2_seen g) }
{
    let value = metadata.to_value(alloc)?;
    GroupMetadataV2::from_value(alloc, &value)
}
