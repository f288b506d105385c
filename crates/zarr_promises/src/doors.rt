//! Callers that name one front door alone.

ghost use Rattle.std.specs.Prelude.{◌≡◌, None, IfSome, MatchResult};
ghost use Rattle.zarr_model.specs.Outside.{Rose};
ghost use Rattle.zarrs_codec_error.specs.declared.error.CodecError.TheVariants as error;

use std::alloc::Global;
use zarrs_codec::{BytesRepresentation, BytesToBytesCodecTraits, CodecError, CodecOptions};
use zarrs_codec_partial::BytesPartialDecoderTraits;

/// A value, encoded and decoded again by any bytes-to-bytes codec: it is itself.
///
/// # Errors
/// [`CodecError`] where memory runs out.
pub fn there_and_back<C: BytesToBytesCodecTraits>(
    codec: &C,
    alloc: Global,
    value: Vec<u8>,
    representation: &BytesRepresentation,
    options: &CodecOptions,
) -> Result<Vec<u8>, CodecError>
    ensures { MatchResult result (λ v. v.items ≡ value.items) (λ e. e ≡ error.OutOfMemory) }
{
    let encoded = codec.encode(alloc, value, options)?;
    codec.decode(alloc, encoded, representation, options)
}

/// Whether a handle's value is there, or None where its store fails.
pub fn is_there<H: BytesPartialDecoderTraits>(handle: &mut H) -> Option<bool>
    ensures there { IfSome result (λ there. there ≡ (H.seen handle.old).there) }
    ensures failed { result ≡ None
        → Rose (H.seen handle.old).shown.faults (H.seen handle.new).shown.faults }
{
    match handle.exists() {
        Ok(there) => Some(there),
        Err(_) => None,
    }
}
