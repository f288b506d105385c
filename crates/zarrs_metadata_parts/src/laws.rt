//! What is written, read again. Each function without a body is a law of the forms that documents have.

ghost use Rattle.std.specs.Prelude.{◌≡◌, ℕ, List, None, Some, codes};
ghost use Rattle.serde_json.specs.Data.{Data};
ghost use Rattle.serde_json.specs.Find.{get};
ghost use Rattle.zarrs_metadata_parts.specs.AdditionalField.{AdditionalField, additional_field_of, additional_field_data, normal_field};
ghost use Rattle.zarrs_metadata_parts.specs.AdditionalFields.{normal_fields, normal_each, AreOrderly};
ghost use Rattle.zarrs_metadata_parts.specs.MetadataV3.{Extension, extension_seen, extension_of, extension_data, normal_form};
ghost use Rattle.zarrs_metadata_values.specs.Reading.{GivesRead, unless_float};
ghost use Rattle.zarrs_metadata_parts.specs.declared.v3.additional_fields.NodeKind.{NodeKind};
ghost use Rattle.zarrs_metadata_values.specs.Rising.{Rises};

use crate::v3::metadata::MetadataV3;
use std::alloc::Global;
use zarrs_metadata_values::MetadataError;

/// What is written for an extension reads back as its normal form: without a configuration where it has none or an
/// empty one, and then it must be understood.
#[tactic(auto, using(crate::proofs::ExtensionLemmas::extension_reads_back))]
pub fn extension_reads_back()
    ensures { (e : Extension) → extension_of (extension_data e) ≡ Some (normal_form e) }
{}

/// Normalising twice is normalising once.
pub fn normal_form_once()
    ensures { (e : Extension) → normal_form (normal_form e) ≡ normal_form e }
{}

/// An extension that is written and read again is in its normal form.
///
/// # Errors
/// `FloatNumber` exactly where the value that is written holds a float.
pub fn read_again(alloc: Global, metadata: &MetadataV3) -> Result<MetadataV3, MetadataError>
    ensures { GivesRead extension_seen result
        (unless_float (extension_data (extension_seen metadata.now))
        (normal_form (extension_seen metadata.now))) }
{
    let value = metadata.to_value(alloc)?;
    MetadataV3::from_value(alloc, &value)
}

/// An additional field whose value holds no `must_understand` of its own reads back as itself where it is an object,
/// and else as one that must be understood.
#[tactic(auto, using(crate::proofs::ReadBack::field_reads_back))]
pub fn additional_field_reads_back()
    ensures { (a : AdditionalField) → get (codes "must_understand") a.value ≡ None
        → additional_field_of (additional_field_data a) ≡ normal_field a }
{}

/// Normalising twice is normalising once.
pub fn normal_field_once()
    ensures { (a : AdditionalField) → normal_field (normal_field a) ≡ normal_field a }
{}

/// An additional field that is read of a value with rising keys holds no `must_understand` of its own.
#[tactic(auto, using(crate::proofs::RisingLemmas::no_mark))]
pub fn read_field_holds_no_mark()
    ensures { (d : Data) → Rises d → get (codes "must_understand") (additional_field_of d).value
        ≡ None }
{}

/// An additional field that was read is in its normal form.
#[tactic(auto, using(crate::proofs::RisingLemmas::read_is_normal))]
pub fn read_field_is_normal()
    ensures { (d : Data) → normal_field (additional_field_of d) ≡ additional_field_of d }
{}

/// Additional fields as a document that was read has them read back each in its normal form.
#[tactic(auto, using(crate::proofs::FieldsBack::orderly_fields_read_back))]
pub fn orderly_fields_read_back()
    ensures { (kind : NodeKind) (fs : List (List ℕ × AdditionalField)) → AreOrderly kind fs
        → normal_fields kind fs ≡ normal_each fs }
{}
