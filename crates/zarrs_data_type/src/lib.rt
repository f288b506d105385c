//! The data types of arrays: what they are, how documents name them, and the fill values that documents give them.
//!
//! See <https://zarr-specs.readthedocs.io/en/latest/v3/core/index.html#data-types>. Fill values, byte order, rounding
//! and what codecs ask of a data type come from the crate `zarrs_data_type_bytes`; what users name of them is passed on
//! here.
#![tactic(auto)]

mod data_type;
mod data_type_traits;
mod fill_metadata;
pub mod laws;
mod metadata_of_fill;
pub mod naming_laws;
mod optional;
mod optional_ref;

pub use data_type::DataType;
pub use data_type::create::DataTypeMetadata;
pub use data_type::kind::DataTypeKind;
pub use data_type::naming::{optional_members, type_members};
pub use data_type::size::type_size;
pub use data_type_traits::{DataTypeTraits, DataTypeTraitsV2, DataTypeTraitsV3};
pub use fill_metadata::{DataTypeFillValueMetadataError, FillMetadataFault};
pub use metadata_of_fill::FillFault;
pub use optional::OptionalDataType;
pub use optional_ref::OptionalRef;
pub use zarrs_data_type_bytes::{
    BitroundDataTypeTraits, BitroundElementType, BitroundSupport, BytesCodecEndiannessMissingError,
    BytesCodecFault, BytesDataTypeTraits, BytesSupport, CodecName, DataTypeCodecError,
    DataTypeFillValueError, FillValue, FixedScaleOffsetDataTypeTraits, FixedScaleOffsetElementType,
    FixedScaleOffsetFloatType, FixedScaleOffsetSupport, PackBitsDataTypeTraits, PackBitsSupport,
    PcodecDataTypeTraits, PcodecElementType, PcodecSupport, ZfpDataTypeTraits, ZfpEncoding,
    ZfpNativeType, ZfpSupport, round_bytes_int8, round_bytes_int16, round_bytes_int32,
    round_bytes_int64,
};
