//! Laws of the codecs that documents name. Each function's contract is a law, and its body is empty.

ghost use Rattle.std.specs.Prelude.{◌≡◌, ℕ, ℤ, true, List, codes, Some, Ok};
ghost use Rattle.serde_json.specs.Data.{no_members};
ghost use Rattle.zarrs_plugin.specs.Registry.{Names, find};
ghost use Rattle.zarr_codecs_elements.specs.Order.{is_order};
ghost use Rattle.zarr_codecs_array_to_array.specs.Offset.{offset_members};
ghost use Rattle.zarr_codecs_array_to_array.specs.Configuration.{order_members};
ghost use Rattle.zarr_codecs_array_to_array.specs.ArrayToArray.{offset, transpose};
ghost use Rattle.zarr_codecs.specs.Plain.{Plain};
ghost use Rattle.zarr_codecs.specs.Inner.{extension_by};
ghost use Rattle.zarr_codecs.specs.BytesToBytes.{checksum};
ghost use Rattle.zarr_codecs.specs.CodecForm.{codec_form, codec_named, array_codec, to_bytes, byte_codec};
ghost use Rattle.zarr_codecs.specs.declared.codec_kind.CodecKind.{CodecKind};

/// The name and the configuration that an array-to-bytes codec is written with denote that codec, where the names are
/// those of this project; so do those of the codecs inside, at any depth.
pub fn to_bytes_reads_back()
    ensures { (names : Names CodecKind) → find (codes "bytes") names ≡ Some CodecKind.Bytes
        → find (codes "vlen-utf8") names ≡ Some CodecKind.VlenUtf8
        → find (codes "vlen-bytes") names ≡ Some CodecKind.VlenBytes
        → find (codes "zarr_basics.optional") names ≡ Some CodecKind.Optional
        → (plain : Plain) → codec_named names (extension_by plain) ≡ Ok (to_bytes plain) }
{}

/// The configuration that an offset is written with says that offset.
pub fn offset_reads_back()
    ensures { (names : Names CodecKind) (number : ℤ) → codec_form names CodecKind.Offset
        (Some (offset_members number)) ≡ Ok (array_codec (offset number)) }
{}

/// The configuration that an order of dimensions is written with says that order.
pub fn transpose_reads_back()
    ensures { (names : Names CodecKind) (order : List ℕ) → is_order order ≡ true
        → codec_form names CodecKind.Transpose (Some (order_members order))
        ≡ Ok (array_codec (transpose order)) }
{}

/// The empty configuration, with which `zarr_basics.sha256` is written, says that codec.
pub fn sha256_reads_back()
    ensures { (names : Names CodecKind) → codec_form names CodecKind.Sha256 (Some no_members)
        ≡ Ok (byte_codec checksum) }
{}
