//! The document of the array that the commands are for.

ghost use Rattle.std.specs.Prelude.{◌≡◌};
ghost use Rattle.zarr_array.specs.parts.Opening.{open_builtin, opened};
ghost use Rattle.zarr_cli_runs.specs.Document.{document_text, made_document};

/// The document: numbers of 16 bits, 256 rows and columns in chunks of 48 rows and 40 columns, fill value 7, the high
/// byte first and a digest behind each chunk.
pub fn made_document() -> &'static str
    ensures text { result.now ≡ document_text }
    ensures opens { open_builtin result.now ≡ opened made_document }
{
    "{\"zarr_format\":3,\"node_type\":\"array\",\"shape\":[256,256],\"data_type\":\"uint16\",\"chunk_grid\":{\"name\":\"regular\",\"configuration\":{\"chunk_shape\":[48,40]}},\"chunk_key_encoding\":\"default\",\"fill_value\":7,\"codecs\":[{\"name\":\"bytes\",\"configuration\":{\"endian\":\"big\"}},\"zarr_basics.sha256\"]}"
}
