//! An array opened, written and read from Rust: the function that the repository's README shows.

use anyhow::{Result, bail};
use std::alloc::Global;
use zarr_array::{
    ArrayBytes, ArraySubset, CodecOptions, MemoryStore, OpenArray, Reply, builtin_registries,
};

// Four rows and columns of bytes, in chunks of two by two.
const DOCUMENT: &str =
    r#"{"zarr_format":3,"node_type":"array","shape":[4,4],"data_type":"uint8","chunk_grid":{"name":"regular","configuration":{"chunk_shape":[2,2]}},"chunk_key_encoding":"default","fill_value":0,"codecs":["bytes"]}"#;

// Writes four elements, and reads the rows above and through them.
fn rows(alloc: Global, document: &str, store: &mut MemoryStore) -> Result<Vec<u8>> {
    let registries = builtin_registries(alloc)?; // the known names of types, grids, keys and codecs
    let array = OpenArray::open(alloc, document, &registries)?;
    let options = CodecOptions::default();

    let middle = ArraySubset::new_with_ranges(alloc, &[1..3, 1..3])?;
    let elements = ArrayBytes::from(&[11, 12, 14, 15]);
    if let Reply::Refused(refusal) = array.write(alloc, &middle, &elements, store, &options)? {
        bail!("the write is refused: {}", refusal.name());
    }

    let rows = ArraySubset::new_with_ranges(alloc, &[0..2, 0..4])?;
    match array.read(alloc, &rows, store, &options)? {
        Reply::Elements(ArrayBytes::Fixed(bytes)) => Ok(bytes.into_owned(alloc)?),
        Reply::Refused(refusal) => bail!("the read is refused: {}", refusal.name()),
        _ => bail!("the elements are not of one size"),
    }
}

#[test]
fn rows_are_written_and_read(rt: HostRuntime) {
    let mut store = MemoryStore::new(rt.alloc());
    let bytes = rows(rt.alloc(), DOCUMENT, &mut store);
    assert!(rt; bytes.is_ok_and(|bytes| bytes.as_slice() == [0, 0, 0, 0, 0, 11, 12, 0].as_slice()));
}
