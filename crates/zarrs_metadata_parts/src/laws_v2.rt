//! What is written, read again. Each function without a body is a law of the forms that documents have.

ghost use Rattle.std.specs.Prelude.{◌≡◌, None, Some, codes};
ghost use Rattle.serde_json.specs.Find.{get_member};
ghost use Rattle.zarrs_metadata_parts.specs.DataTypeV2.{DataTypeV2, data_type_v2_of, data_type_v2_data};
ghost use Rattle.zarrs_metadata_parts.specs.MetadataV2.{CodecV2, codec_v2_of, codec_v2_data};

/// A version 2 codec whose configuration holds no `id` reads back as itself.
#[tactic(auto, using(crate::proofs::ReadBackV2::codec_v2_reads_back))]
pub fn codec_v2_reads_back()
    ensures { (c : CodecV2) → get_member (codes "id") c.configuration ≡ None
        → codec_v2_of (codec_v2_data c) ≡ Some c }
{}

/// A version 2 data type reads back as itself.
#[tactic(auto, using(crate::proofs::ReadBackV2::data_type_v2_reads_back))]
pub fn data_type_v2_reads_back()
    ensures { (t : DataTypeV2) → data_type_v2_of (data_type_v2_data t) ≡ Some t }
{}
