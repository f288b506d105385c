//! Elements as bytes: fill values, byte order, rounding, and what codecs ask of a data type.
//!
//! See <https://zarr-specs.readthedocs.io/en/latest/v3/core/index.html#fill-value>.
#![tactic(auto)]

mod byte_order;
mod codec_support;
mod codec_traits;
mod fill_value;
pub mod laws;
mod rounding;

pub use byte_order::reverse_components;
pub use codec_support::{CodecName, DataTypeCodecError};
pub use codec_traits::bitround::{BitroundDataTypeTraits, BitroundElementType, BitroundSupport};
pub use codec_traits::bytes::{
    BytesCodecEndiannessMissingError, BytesCodecFault, BytesDataTypeTraits, BytesSupport,
};
pub use codec_traits::fixedscaleoffset::{
    FixedScaleOffsetDataTypeTraits, FixedScaleOffsetElementType, FixedScaleOffsetFloatType,
    FixedScaleOffsetSupport,
};
pub use codec_traits::packbits::{PackBitsDataTypeTraits, PackBitsSupport};
pub use codec_traits::pcodec::{PcodecDataTypeTraits, PcodecElementType, PcodecSupport};
pub use codec_traits::zfp::{ZfpDataTypeTraits, ZfpEncoding, ZfpNativeType, ZfpSupport};
pub use fill_value::{DataTypeFillValueError, FillValue, are_bytes, ends_in_zero, repeats};
pub use rounding::{
    read_number, round_bytes_int8, round_bytes_int16, round_bytes_int32, round_bytes_int64,
};
