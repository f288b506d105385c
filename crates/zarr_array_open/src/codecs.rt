//! The codecs of a document in the order of a chain.

ghost use Rattle.std.specs.Prelude.{◌≡◌, ◌≤◌, IfOk, map, drop, length};
ghost use Rattle.zarr_basics.specs.kinds.array_to_array.Views.{array_form};
ghost use Rattle.zarr_codecs.specs.BytesToBytes.{byte_form};
ghost use Rattle.zarr_codecs.specs.CodecForm.{form_of};
ghost use Rattle.zarr_array_open.specs.Chain.{leading, behind, all_byte_codecs, chain_in, chain_form};
ghost use Rattle.zarr_array_open.specs.Opening.{chain_order, or_refused};
ghost use Rattle.zarr_array_open.specs.Parts.{Opens};

use crate::open_error::OpenError;
use std::alloc::{AllocError, Global};
use zarr_basics::{BasicArrayToArray, BasicArrayToBytes, BasicBytesToBytes, BasicCodec};
use zarr_codec_chain::CodecChain;
use zarrs_codec_traits::Codec;

/// A chain of this project's codecs.
pub type BasicChain = CodecChain<BasicArrayToArray, BasicArrayToBytes, BasicBytesToBytes>;

// The array-to-array codecs that a list begins with.
fn leading(alloc: Global, codecs: &[BasicCodec]) -> Result<Vec<BasicArrayToArray>, AllocError>
    ensures first { IfOk result (λ v. map array_form v.items ≡ leading (map form_of codecs.now)) }
    ensures rest { IfOk result (λ v. map form_of (drop (length v.items) codecs.now)
        ≡ behind (map form_of codecs.now)) }
    ensures few { IfOk result (λ v. length v.items ≤ length codecs.now) }
{
    let mut first = Vec::new(alloc);
    for codec in codecs {
        let Codec::ArrayToArray(codec) = codec else {
            return Ok(first);
        };
        let copy = codec.try_clone(alloc)?;
        first.push(copy)?;
    }
    Ok(first)
}

// Bytes-to-bytes codecs, if all are.
fn byte_codecs(alloc: Global, codecs: &[BasicCodec]) -> Result<Vec<BasicBytesToBytes>, OpenError>
    ensures { Opens (λ v. map byte_form v.items) result
        (or_refused chain_order (all_byte_codecs (map form_of codecs.now))) }
{
    let mut others = Vec::with_capacity(alloc, codecs.len())?;
    for codec in codecs {
        let Codec::BytesToBytes(codec) = codec else {
            return Err(OpenError::ChainOrder);
        };
        others.push(*codec)?;
    }
    Ok(others)
}

/// The chain that codecs are.
///
/// # Errors
/// `ChainOrder` where they are none, or `OutOfMemory`.
pub fn chain_of(alloc: Global, codecs: &[BasicCodec]) -> Result<BasicChain, OpenError>
    ensures { Opens chain_form result (or_refused chain_order (chain_in (map form_of codecs.now))) }
{
    let array_codecs = leading(alloc, codecs)?;
    match &codecs[array_codecs.len()..] {
        [Codec::ArrayToBytes(to_bytes), rest @ ..] => {
            let byte_codecs = byte_codecs(alloc, rest)?;
            Ok(CodecChain {
                array_codecs,
                to_bytes: to_bytes.try_clone(alloc)?,
                byte_codecs,
            })
        }
        _ => Err(OpenError::ChainOrder),
    }
}
