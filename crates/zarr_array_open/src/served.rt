//! Which data types the codecs of a chain serve.

ghost use Rattle.std.specs.Prelude.{map};
ghost use Rattle.zarrs_data_type.specs.DataType.{type_of};
ghost use Rattle.zarr_codecs.specs.Views.{plain_of};
ghost use Rattle.zarr_basics.specs.kinds.array_to_array.Views.{array_form};
ghost use Rattle.zarr_array_open.specs.Chain.{chain_form};
ghost use Rattle.zarr_array_open.specs.Opening.{type_below, bottom_type, expect_bytes, expect_chain};
ghost use Rattle.zarr_array_open.specs.Parts.{Opens};

use crate::codecs::BasicChain;
use crate::open_error::OpenError;
use std::alloc::Global;
use zarr_basics::{BasicArrayToArray, BasicArrayToBytes};
use zarrs_codec_array_bytes::array_bytes::step::element_size;
use zarrs_codec_traits::{ArrayCodecTraits, ArrayToArrayCodecTraits};
use zarrs_data_type::DataType;

// The data type below a codec.
fn type_below(
    alloc: Global,
    codec: &BasicArrayToArray,
    data_type: &DataType,
) -> Result<DataType, OpenError>
    ensures { Opens type_of result (type_below (array_form codec.now) (type_of data_type.now)) }
{
    match codec.encoded_data_type(alloc, data_type) {
        Ok(below) => Ok(below),
        Err(error) => Err(OpenError::from(error)),
    }
}

// The data type that comes to the array-to-bytes codec.
fn bottom_type(
    alloc: Global,
    codecs: &[BasicArrayToArray],
    data_type: &DataType,
) -> Result<DataType, OpenError>
    ensures { Opens type_of result (bottom_type (map array_form codecs.now)
        (type_of data_type.now)) }
{
    let mut bottom = data_type.try_clone(alloc)?;
    for codec in codecs {
        match type_below(alloc, codec, &bottom) {
            Ok(below) => bottom = below,
            Err(error) => return Err(error),
        }
    }
    Ok(bottom)
}

// Refuses a data type that an array-to-bytes codec does not serve.
fn expect_bytes(codec: &BasicArrayToBytes, data_type: &DataType) -> Result<(), OpenError>
    ensures { Opens (λ _. tt) result (expect_bytes (plain_of codec.now) (type_of data_type.now)) }
{
    let _size = element_size(data_type);
    match codec.recommended_concurrency(&[], data_type) {
        Ok(_) => Ok(()),
        Err(error) => Err(OpenError::from(error)),
    }
}

// Refuses a data type that a codec of a chain does not serve.
#[tactic(auto, using(crate::proofs::OpeningLaws::fails_after))]
pub(crate) fn expect_chain(
    alloc: Global,
    chain: &BasicChain,
    data_type: &DataType,
) -> Result<(), OpenError>
    ensures { Opens (λ _. tt) result
        (expect_chain (chain_form chain.now) (type_of data_type.now)) }
{
    let bottom = bottom_type(alloc, &chain.array_codecs, data_type)?;
    expect_bytes(&chain.to_bytes, &bottom)
}
