//! Bytes that are brought into an order through the bound.

use crate::texts::gives;
use std::alloc::Global;
use std::borrow::CowSlice;
use zarr_model::Endianness;
use zarrs_data_type_bytes::{BytesCodecFault, BytesDataTypeTraits, BytesSupport};

// There, back, and there again.
fn encoded<T: BytesDataTypeTraits>(
    alloc: Global,
    support: &T,
    bytes: &[u8],
    order: Option<Endianness>,
) -> Result<Vec<u8>, BytesCodecFault> {
    let there = support.encode(alloc, CowSlice::Borrowed(bytes), order)?;
    let back = support.decode(alloc, there, order)?;
    let again = support.encode(alloc, back, order)?;
    Ok(again.into_owned(alloc)?)
}

#[test]
fn bytes_are_ordered(rt: HostRuntime) {
    let (support, alloc) = (BytesSupport::new(4), rt.alloc());
    let bytes = [1, 2, 3, 4, 5, 6, 7, 8, 9];
    let big = encoded(alloc, &support, &bytes, Some(Endianness::Big));
    gives(&rt, alloc, big, "[4, 3, 2, 1, 8, 7, 6, 5, 9]");
}
