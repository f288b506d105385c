//! The callers that the READMEs show.

ghost use Rattle.std.specs.Prelude.{◌≡◌, Some, Ok, IfOk, length, option_and_then};
ghost use Rattle.serde_json.specs.Data.{Data};
ghost use Rattle.serde_json.specs.Find.{as_number, as_u64};
ghost use Rattle.serde_json.specs.Read.{read};
ghost use Rattle.zarrs_metadata.specs.ArrayMetadata.{ArrayFields, array_fields_of};
ghost use Rattle.zarrs_metadata_parts.specs.Reading.{from_json};
ghost use Rattle.zarrs_metadata_parts.specs.MetadataV3.{Extension, extension_of};
ghost use Rattle.zarrs_plugin.specs.Registry.{registry_of, find};

use std::alloc::Global;
use zarrs_metadata::{ArrayMetadataV3, MetadataError};
use zarrs_metadata_parts::MetadataV3;
use zarrs_metadata_values::FillValueMetadataV3;
use zarrs_plugin::Registry;

// The whole number that a text is as a fill value, if it is one.
fn whole_fill(alloc: Global, text: &str) -> Result<Option<u64>, MetadataError>
    ensures { IfOk result (λ n.
        (d : Data) × (from_json Some (read text.now) ≡ Ok d)
        × (n ≡ option_and_then as_u64 (as_number d))) }
{
    let fill = FillValueMetadataV3::try_from_text(alloc, text)?;
    Ok(fill.as_u64())
}

// Whether the extension that a text says must be understood.
fn must_be_understood(alloc: Global, text: &str) -> Result<bool, MetadataError>
    ensures { IfOk result (λ b.
        (e : Extension) × (from_json extension_of (read text.now) ≡ Ok e)
        × (b ≡ e.must_understand)) }
{
    let extension = MetadataV3::try_from_text(alloc, text)?;
    Ok(extension.must_understand())
}

// How many dimensions the array has that a text describes.
fn dimensionality(alloc: Global, text: &str) -> Result<usize, MetadataError>
    ensures { IfOk result (λ n.
        (f : ArrayFields) × (from_json array_fields_of (read text.now) ≡ Ok f)
        × (n ≡ length f.shape)) }
{
    let array = ArrayMetadataV3::try_from_text(alloc, text)?;
    Ok(array.shape.len())
}

// What the name of a codec denotes.
fn codec_named(registry: &Registry<u8>, name: &str) -> Option<u8>
    ensures { result ≡ find name.now (registry_of registry.now) }
{
    registry.find(name).copied()
}

const ARRAY: &str =
    r#"{"zarr_format":3,"node_type":"array","shape":[2,0,7],"data_type":"uint8","chunk_grid":"g","chunk_key_encoding":"k","fill_value":0,"codecs":[]}"#;

#[test]
fn callers_have_their_answers(rt: HostRuntime) {
    let alloc = rt.alloc();
    assert!(rt; matches!(whole_fill(alloc, "42"), Ok(Some(42))));
    assert!(rt; matches!(must_be_understood(alloc, "\"gzip\""), Ok(true)));
    assert!(rt; matches!(dimensionality(alloc, ARRAY), Ok(3)));
    assert!(rt; codec_named(&Registry::new(alloc), "zstd").is_none());
}
