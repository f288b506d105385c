//! The texts of errors.

use crate::texts::is_text;
use std::alloc::Global;
use std::process::Abort;
use zarrs_array_subset::ArraySubset;
use zarrs_codec_error::{
    ArrayBytesFixedDisjointViewCreateError, ArrayBytesRawOffsetsCreateError,
    ArrayBytesRawOffsetsOutOfBoundsError, CodecError, ExpectedFixedLengthBytesError,
    ExpectedOptionalBytesError, ExpectedVariableLengthBytesError, InvalidBytesLengthError,
    SubsetOutOfBoundsError,
};
use zarrs_data_type_bytes::DataTypeFillValueError;
use zarrs_storage::{ByteRange, InvalidByteRangeError, StorageError};

fn says(rt: &impl Abort, alloc: Global, error: CodecError, want: &str) {
    is_text(rt, format!(in alloc; "{error}"), want);
}

fn out_of_bounds(rt: &impl Abort, alloc: Global) -> SubsetOutOfBoundsError {
    let subset = ArraySubset::new_with_ranges(alloc, &[1..5]).expect(rt, "memory");
    let array = ArraySubset::new_with_ranges(alloc, &[0..4]).expect(rt, "memory");
    SubsetOutOfBoundsError::new(subset, array)
}

fn led_out(range: ByteRange) -> CodecError {
    CodecError::InvalidByteRangeError(InvalidByteRangeError::new(range, 6))
}

#[test]
fn refused_bytes_have_texts(rt: HostRuntime) {
    let alloc = rt.alloc();
    let long = CodecError::UnexpectedChunkDecodedSize(InvalidBytesLengthError::new(3, 4));
    let length = "a chunk has another size than it must: 3 bytes, where 4 are expected";
    says(&rt, alloc, long, length);
    let range = ByteRange::FromStart(5, Some(2));
    let leads = "the byte range FromStart(5, Some(2)) leads out of 6 bytes";
    says(&rt, alloc, led_out(range), leads);
    let leads = "the byte range Suffix(7) leads out of 6 bytes";
    says(&rt, alloc, led_out(ByteRange::Suffix(7)), leads);
    let digest = "the checksum is not that of the bytes";
    says(&rt, alloc, CodecError::InvalidChecksum, digest);
    let failed = CodecError::StorageError(StorageError::Failed);
    says(&rt, alloc, failed, "the store failed");
    let outside = "the subset [1..5] does not lie within [0..4]";
    let error = out_of_bounds(&rt, alloc);
    says(&rt, alloc, CodecError::SubsetOutOfBounds(error), outside);
}

#[test]
fn refused_elements_have_texts(rt: HostRuntime) {
    let alloc = rt.alloc();
    let none = CodecError::RawBytesOffsetsCreate(ArrayBytesRawOffsetsCreateError::ZeroLength);
    let text = "there are no offsets, where one is expected at least";
    says(&rt, alloc, none, text);
    let falls = ArrayBytesRawOffsetsCreateError::NotMonotonicallyIncreasing;
    let text = "an offset is less than the one before it";
    says(&rt, alloc, CodecError::RawBytesOffsetsCreate(falls), text);
    let past = ArrayBytesRawOffsetsOutOfBoundsError { offset: 10, len: 5 };
    let text = "the offset 10 leads past 5 bytes";
    says(
        &rt,
        alloc,
        CodecError::RawBytesOffsetsOutOfBounds(past),
        text,
    );
    let text = "the offsets of variable-length elements are not of their form";
    says(
        &rt,
        alloc,
        CodecError::InvalidVariableSizedArrayOffsets,
        text,
    );
    let text = "the mask of optional elements is not of its form";
    says(&rt, alloc, CodecError::InvalidMask, text);
}

#[test]
fn refused_kinds_have_texts(rt: HostRuntime) {
    let alloc = rt.alloc();
    let fixed = CodecError::ExpectedFixedLengthBytes(ExpectedFixedLengthBytesError);
    says(&rt, alloc, fixed, "elements of one length are expected");
    let variable = CodecError::ExpectedVariableLengthBytes(ExpectedVariableLengthBytesError);
    says(
        &rt,
        alloc,
        variable,
        "elements of variable length are expected",
    );
    let optional = CodecError::ExpectedOptionalBytes(ExpectedOptionalBytesError);
    says(&rt, alloc, optional, "optional elements are expected");
    let fill = CodecError::DataTypeFillValueError(DataTypeFillValueError);
    let text = "the fill value denotes no element of the data type";
    says(&rt, alloc, fill, text);
}

#[test]
fn refused_views_have_texts(rt: HostRuntime) {
    let alloc = rt.alloc();
    let length = InvalidBytesLengthError::new(9, 18);
    let length = ArrayBytesFixedDisjointViewCreateError::InvalidBytesLength(length);
    let text = "9 bytes, where 18 are expected";
    is_text(&rt, format!(in alloc; "{length}"), text);
    let outside = out_of_bounds(&rt, alloc);
    let outside = ArrayBytesFixedDisjointViewCreateError::SubsetOutOfBounds(outside);
    let text = "the subset [1..5] does not lie within [0..4]";
    is_text(&rt, format!(in alloc; "{outside}"), text);
}
