//! What calls are given: shapes, regions, data types, elements, codecs, bytes and keys.

ghost use Rattle.std.specs.Prelude.{◌≡◌, ◌<◌, [], ◌∷◌, true};
ghost use Rattle.zarrs_codec_traits.specs.Prelude.{ends_within, optional_type as option_of};
ghost use Rattle.zarrs_codec_traits.specs.Prelude.{uint_type, region as box_of, lengths, type_of};
ghost use Rattle.zarrs_codec_traits.specs.Prelude.{fill_bytes};

use std::alloc::Global;
use std::borrow::CowSlice;
use std::num::NonZeroU64;
use std::process::Abort;
use zarr_codecs::{BasicArrayToBytes, OptionalCodec};
use zarr_codecs_to_bytes::BytesCodec;
use zarrs_array_subset::{ArraySubset, ChunkShape};
use zarrs_codec_array_bytes::{ArrayBytes, ArrayBytesOffsets};
use zarrs_data_type::DataType;
use zarrs_data_type_bytes::FillValue;
use zarrs_storage::StoreKey;

/// The shape of a line of so many elements.
pub fn line(rt: &impl Abort, alloc: Global, number: u64) -> ChunkShape
    requires { 0 < number }
    ensures { lengths result.items ≡ number ∷ [] }
{
    let number = NonZeroU64::new(number).unwrap();
    vec![in alloc; number].expect(rt, "memory")
}

/// The second of two elements.
pub fn second(rt: &impl Abort, alloc: Global) -> ArraySubset
    ensures inside { ends_within (box_of result) (2 ∷ []) ≡ true }
    ensures one { box_of result ≡ record { start = 1; size = 1 } ∷ [] }
{
    ArraySubset::new_with_ranges(alloc, &[1..2]).expect(rt, "memory")
}

/// The shape of two rows and three columns.
pub fn table(rt: &impl Abort, alloc: Global) -> ChunkShape
    ensures { lengths result.items ≡ 2 ∷ 3 ∷ [] }
{
    let (rows, columns) = (NonZeroU64::new(2).unwrap(), NonZeroU64::new(3).unwrap());
    vec![in alloc; rows, columns].expect(rt, "memory")
}

/// The last two columns of them.
pub fn columns(rt: &impl Abort, alloc: Global) -> ArraySubset
    ensures { ends_within (box_of result) (2 ∷ 3 ∷ []) ≡ true }
{
    ArraySubset::new_with_ranges(alloc, &[0..2, 1..3]).expect(rt, "memory")
}

/// Optional numbers of a byte.
pub fn optional_numbers(rt: &impl Abort, alloc: Global) -> DataType
    ensures { type_of result ≡ option_of (uint_type 1) }
{
    DataType::Optional(Box::new(alloc, DataType::UInt8).expect(rt, "memory"))
}

/// Optional elements of these.
pub fn twice_optional(rt: &impl Abort, alloc: Global) -> DataType
    ensures { type_of result ≡ option_of (option_of (uint_type 1)) }
{
    let inner = optional_numbers(rt, alloc);
    DataType::Optional(Box::new(alloc, inner).expect(rt, "memory"))
}

/// The codec of optional numbers of a byte.
pub fn optional(rt: &impl Abort, alloc: Global) -> OptionalCodec {
    let inner = BasicArrayToBytes::Bytes(BytesCodec::new(None));
    OptionalCodec::new(Box::new(alloc, inner).expect(rt, "memory"))
}

/// The codec of optional elements of these.
pub fn over_optional(rt: &impl Abort, alloc: Global) -> BasicArrayToBytes {
    let inner = BasicArrayToBytes::Optional(optional(rt, alloc));
    let inner = Box::new(alloc, inner).expect(rt, "memory");
    BasicArrayToBytes::Optional(OptionalCodec::new(inner))
}

/// Elements of one size.
pub fn numbers(bytes: &'static [u8]) -> ArrayBytes<'static> {
    ArrayBytes::new_flen(CowSlice::Borrowed(bytes))
}

/// Texts between offsets.
pub fn texts<'a>(rt: &impl Abort, bytes: &'a [u8], offsets: &'a [usize]) -> ArrayBytes<'a> {
    let offsets = ArrayBytesOffsets::new(CowSlice::Borrowed(offsets)).expect(rt, "offsets");
    ArrayBytes::new_vlen(CowSlice::Borrowed(bytes), offsets).expect(rt, "texts")
}

/// These bytes, owned.
pub fn owned(rt: &impl Abort, alloc: Global, bytes: &[u8]) -> Vec<u8>
    ensures { result.items ≡ bytes.now }
{
    bytes.to_vec(alloc).expect(rt, "memory")
}

/// The fill value of these bytes.
pub fn fill(rt: &impl Abort, alloc: Global, bytes: &[u8]) -> FillValue
    ensures { fill_bytes result ≡ bytes.now }
{
    FillValue::new(owned(rt, alloc, bytes))
}

/// The key with this text.
pub fn key(rt: &impl Abort, alloc: Global, text: &str) -> StoreKey {
    let text = String::from_str(alloc, text).expect(rt, "memory");
    StoreKey::new(text).ok().expect(rt, "a key")
}
