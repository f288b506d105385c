//! What codecs ask of a data type.

ghost use Rattle.zarrs_data_type_bytes.specs.CodecSupport.{Supports, bytes_table, bitround_table, rounds_as, fixedscaleoffset_table, scales_as, packbits_table, packs_as, pcodec_table, compresses_as, zfp_table, encodes_as};
ghost use Rattle.zarrs_data_type_bytes.specs.declared.codec_support.CodecName.TheVariants as codec;
ghost use Rattle.zarrs_data_type.specs.DataType.{type_of};

use crate::data_type::DataType;
use zarrs_data_type_bytes::{
    BitroundElementType, BitroundSupport, BytesSupport, CodecName, DataTypeCodecError,
    FixedScaleOffsetElementType, FixedScaleOffsetSupport, PackBitsSupport, PcodecElementType,
    PcodecSupport, ZfpEncoding, ZfpSupport,
};

impl DataType {
    ghost use Rattle.zarrs_data_type_bytes.specs.BytesSupport.{component_of};

    /// What the codec `bytes` asks of the type: the size of its components.
    ///
    /// # Errors
    /// [`DataTypeCodecError::UnsupportedDataType`] with [`CodecName::Bytes`] exactly for texts, bytes of any length
    /// and optional types.
    pub fn codec_bytes(&self) -> Result<BytesSupport, DataTypeCodecError>
        ensures { Supports component_of codec.Bytes result (bytes_table (type_of self.now)) }
    {
        match self {
            DataType::Bool => Ok(BytesSupport::new(1)),
            DataType::Int8 => Ok(BytesSupport::new(1)),
            DataType::Int16 => Ok(BytesSupport::new(2)),
            DataType::Int32 => Ok(BytesSupport::new(4)),
            DataType::Int64 => Ok(BytesSupport::new(8)),
            DataType::UInt8 => Ok(BytesSupport::new(1)),
            DataType::UInt16 => Ok(BytesSupport::new(2)),
            DataType::UInt32 => Ok(BytesSupport::new(4)),
            DataType::UInt64 => Ok(BytesSupport::new(8)),
            DataType::RawBits(_) => Ok(BytesSupport::new(1)),
            _ => Err(DataTypeCodecError::UnsupportedDataType {
                codec_name: CodecName::Bytes,
            }),
        }
    }

    /// What the codec `bitround` asks of the type: the size of its numbers.
    ///
    /// # Errors
    /// [`DataTypeCodecError::UnsupportedDataType`] with [`CodecName::Bitround`] exactly for all but the eight
    /// types of whole numbers.
    pub fn codec_bitround(&self) -> Result<BitroundSupport, DataTypeCodecError>
        ensures { Supports rounds_as codec.Bitround result (bitround_table (type_of self.now)) }
    {
        match self {
            DataType::Int8 => Ok(BitroundSupport::new(BitroundElementType::Int8)),
            DataType::Int16 => Ok(BitroundSupport::new(BitroundElementType::Int16)),
            DataType::Int32 => Ok(BitroundSupport::new(BitroundElementType::Int32)),
            DataType::Int64 => Ok(BitroundSupport::new(BitroundElementType::Int64)),
            DataType::UInt8 => Ok(BitroundSupport::new(BitroundElementType::Int8)),
            DataType::UInt16 => Ok(BitroundSupport::new(BitroundElementType::Int16)),
            DataType::UInt32 => Ok(BitroundSupport::new(BitroundElementType::Int32)),
            DataType::UInt64 => Ok(BitroundSupport::new(BitroundElementType::Int64)),
            _ => Err(DataTypeCodecError::UnsupportedDataType {
                codec_name: CodecName::Bitround,
            }),
        }
    }

    /// What the codec `fixedscaleoffset` asks of the type: the elements that are scaled.
    ///
    /// # Errors
    /// [`DataTypeCodecError::UnsupportedDataType`] with [`CodecName::FixedScaleOffset`] exactly for all but the eight
    /// types of whole numbers.
    pub fn codec_fixedscaleoffset(&self) -> Result<FixedScaleOffsetSupport, DataTypeCodecError>
        ensures { Supports scales_as codec.FixedScaleOffset result
            (fixedscaleoffset_table (type_of self.now)) }
    {
        match self {
            DataType::Int8 => Ok(FixedScaleOffsetSupport::new(FixedScaleOffsetElementType::I8)),
            DataType::Int16 => Ok(FixedScaleOffsetSupport::new(FixedScaleOffsetElementType::I16)),
            DataType::Int32 => Ok(FixedScaleOffsetSupport::new(FixedScaleOffsetElementType::I32)),
            DataType::Int64 => Ok(FixedScaleOffsetSupport::new(FixedScaleOffsetElementType::I64)),
            DataType::UInt8 => Ok(FixedScaleOffsetSupport::new(FixedScaleOffsetElementType::U8)),
            DataType::UInt16 => Ok(FixedScaleOffsetSupport::new(FixedScaleOffsetElementType::U16)),
            DataType::UInt32 => Ok(FixedScaleOffsetSupport::new(FixedScaleOffsetElementType::U32)),
            DataType::UInt64 => Ok(FixedScaleOffsetSupport::new(FixedScaleOffsetElementType::U64)),
            _ => Err(DataTypeCodecError::UnsupportedDataType {
                codec_name: CodecName::FixedScaleOffset,
            }),
        }
    }

    /// What the codec `packbits` asks of the type: how many bits an element has, and whether it is signed.
    ///
    /// # Errors
    /// [`DataTypeCodecError::UnsupportedDataType`] with [`CodecName::PackBits`] exactly for all but booleans and
    /// the eight types of whole numbers.
    pub fn codec_packbits(&self) -> Result<PackBitsSupport, DataTypeCodecError>
        ensures { Supports packs_as codec.PackBits result (packbits_table (type_of self.now)) }
    {
        match self {
            DataType::Bool => Ok(PackBitsSupport::new(1, 1, false)),
            DataType::Int8 => Ok(PackBitsSupport::new(8, 1, true)),
            DataType::Int16 => Ok(PackBitsSupport::new(16, 1, true)),
            DataType::Int32 => Ok(PackBitsSupport::new(32, 1, true)),
            DataType::Int64 => Ok(PackBitsSupport::new(64, 1, true)),
            DataType::UInt8 => Ok(PackBitsSupport::new(8, 1, false)),
            DataType::UInt16 => Ok(PackBitsSupport::new(16, 1, false)),
            DataType::UInt32 => Ok(PackBitsSupport::new(32, 1, false)),
            DataType::UInt64 => Ok(PackBitsSupport::new(64, 1, false)),
            _ => Err(DataTypeCodecError::UnsupportedDataType {
                codec_name: CodecName::PackBits,
            }),
        }
    }

    /// What the codec `pcodec` asks of the type: the elements that are compressed.
    ///
    /// # Errors
    /// [`DataTypeCodecError::UnsupportedDataType`] with [`CodecName::Pcodec`] exactly for all but whole numbers of
    /// 2, 4 and 8 bytes.
    pub fn codec_pcodec(&self) -> Result<PcodecSupport, DataTypeCodecError>
        ensures { Supports compresses_as codec.Pcodec result (pcodec_table (type_of self.now)) }
    {
        match self {
            DataType::Int16 => Ok(PcodecSupport::new(PcodecElementType::I16, 1)),
            DataType::Int32 => Ok(PcodecSupport::new(PcodecElementType::I32, 1)),
            DataType::Int64 => Ok(PcodecSupport::new(PcodecElementType::I64, 1)),
            DataType::UInt16 => Ok(PcodecSupport::new(PcodecElementType::U16, 1)),
            DataType::UInt32 => Ok(PcodecSupport::new(PcodecElementType::U32, 1)),
            DataType::UInt64 => Ok(PcodecSupport::new(PcodecElementType::U64, 1)),
            _ => Err(DataTypeCodecError::UnsupportedDataType {
                codec_name: CodecName::Pcodec,
            }),
        }
    }

    /// What the codec `zfp` asks of the type: the elements that are compressed.
    ///
    /// # Errors
    /// [`DataTypeCodecError::UnsupportedDataType`] with [`CodecName::Zfp`] exactly for all but the eight
    /// types of whole numbers.
    pub fn codec_zfp(&self) -> Result<ZfpSupport, DataTypeCodecError>
        ensures { Supports encodes_as codec.Zfp result (zfp_table (type_of self.now)) }
    {
        match self {
            DataType::Int8 => Ok(ZfpSupport::new(ZfpEncoding::Int8)),
            DataType::Int16 => Ok(ZfpSupport::new(ZfpEncoding::Int16)),
            DataType::Int32 => Ok(ZfpSupport::new(ZfpEncoding::Int32)),
            DataType::Int64 => Ok(ZfpSupport::new(ZfpEncoding::Int64)),
            DataType::UInt8 => Ok(ZfpSupport::new(ZfpEncoding::UInt8)),
            DataType::UInt16 => Ok(ZfpSupport::new(ZfpEncoding::UInt16)),
            DataType::UInt32 => Ok(ZfpSupport::new(ZfpEncoding::UInt32)),
            DataType::UInt64 => Ok(ZfpSupport::new(ZfpEncoding::UInt64)),
            _ => Err(DataTypeCodecError::UnsupportedDataType {
                codec_name: CodecName::Zfp,
            }),
        }
    }
}
