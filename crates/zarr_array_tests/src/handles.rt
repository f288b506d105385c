//! A handle on a chunk, with the chain of an open array, and one that is built for a chunk.

ghost use Rattle.std.specs.Prelude.{◌≡◌, IfOk};
ghost use Rattle.zarrs_codec_traits.specs.Views.{lengths};

use crate::made::{are_elements, key_of, opened, put, region};
use std::alloc::{AllocError, Global};
use std::num::NonZeroU64;
use std::process::Abort;
use zarr_array::{ChainHandle, ChunkGridTraits, CodecOptions, OpenArray};
use zarrs_array_subset::ArraySubset;
use zarrs_codec_array_bytes::ArrayBytes;
use zarrs_codec_error::CodecError;
use zarrs_storage::{MemoryStore, Store};

// Two rows of three numbers of two bytes in a chunk, 7 where nothing is written. One is put on each, the greater byte
// comes first, and a digest is last.
const NUMBERS: &str =
    r#"{"zarr_format":3,"node_type":"array","shape":[2,6],"data_type":"uint16","chunk_grid":{"name":"regular","configuration":{"chunk_shape":[2,3]}},"chunk_key_encoding":"default","fill_value":7,"codecs":[{"name":"zarr_basics.offset","configuration":{"offset":1}},{"name":"bytes","configuration":{"endian":"big"}},"zarr_basics.sha256"]}"#;

// The lengths of a shape.
fn numbers(alloc: Global, shape: &[NonZeroU64]) -> Result<Vec<u64>, AllocError>
    ensures { IfOk result (λ v. v.items ≡ lengths shape.now) }
{
    shape.iter().map(|n| n.get()).collect(alloc)
}

// The elements of a region of a chunk, if it has the region. They are read, the chunk is erased, and they are written
// again.
fn put_again(
    alloc: Global,
    array: &OpenArray,
    chunk: &[u64],
    store: &mut MemoryStore,
    region: &ArraySubset,
) -> Result<Option<ArrayBytes<'static>>, CodecError> {
    if !array.grid().has_chunk(chunk) {
        return Ok(None);
    }
    let key = array.chunk_key(alloc, chunk)?;
    let chain = array.copied_chain(alloc)?;
    let levels = array.levels(alloc, &chain, chunk)?;
    let shape = numbers(alloc, levels.shape())?;
    if !region.inbounds_shape(&shape) {
        return Ok(None);
    }
    let options = CodecOptions::default();
    let mut handle = ChainHandle::from_parts(chain, levels, store, key);
    let result = match handle.partial_decode(alloc, region, &options) {
        Ok(elements) => match handle.erase() {
            Ok(()) => match handle.partial_encode(alloc, region, &elements, &options) {
                Ok(()) => Ok(Some(elements)),
                Err(error) => Err(error),
            },
            Err(error) => Err(error),
        },
        Err(error) => Err(error),
    };
    let _store = handle.into_storage();
    result
}

// The rows [1, 2, 3] and [4, 5, 6], as they are stored, and those with 7 in place of the first column.
const BEFORE: [u8; 44] = [
    0, 2, 0, 3, 0, 4, 0, 5, 0, 6, 0, 7, 148, 178, 145, 117, 49, 245, 198, 175, 37, 174, 136, 146,
    187, 117, 96, 160, 238, 200, 47, 59, 87, 243, 107, 18, 124, 10, 184, 85, 116, 80, 123, 45,
];

const AFTER: [u8; 44] = [
    0, 8, 0, 3, 0, 4, 0, 8, 0, 6, 0, 7, 78, 207, 183, 53, 75, 131, 18, 225, 76, 109, 226, 233, 69,
    97, 130, 240, 153, 185, 10, 89, 142, 194, 143, 170, 159, 120, 200, 20, 126, 192, 150, 144,
];

// Whether the last two columns of the second chunk are read and put again.
fn is_put_again(
    rt: &impl Abort,
    alloc: Global,
    array: &OpenArray,
    store: &mut MemoryStore,
) -> bool {
    let columns = region(rt, alloc, &[0..2, 1..3]);
    match put_again(alloc, array, &[0, 1], store, &columns) {
        Ok(Some(elements)) => are_elements(&elements, &[2, 0, 3, 0, 5, 0, 6, 0]),
        _ => false,
    }
}

#[test]
fn a_chunk_is_read_erased_and_written(rt: HostRuntime) {
    let alloc = rt.alloc();
    let array = opened(&rt, alloc, NUMBERS);
    let mut store = MemoryStore::new(alloc);
    put(&rt, alloc, &mut store, "c/0/1", &BEFORE);
    assert_eq!(rt; is_put_again(&rt, alloc, &array, &mut store), true);
    let value = store.get(alloc, &key_of(&rt, alloc, "c/0/1"));
    let value = value.ok().expect(&rt, "a value");
    assert_eq!(rt; value.as_deref(), Some(AFTER.as_slice()));
}

// Five elements in chunks of two and of four, the last place of which lies past them.
const BOUNDED: &str =
    r#"{"zarr_format":3,"node_type":"array","shape":[5],"data_type":"uint8","chunk_grid":{"name":"zarr_basics.boundaries","configuration":{"lengths":[[2,4]]}},"chunk_key_encoding":"default","fill_value":9,"codecs":["bytes"]}"#;

// Two rows of three elements, stored by columns.
const MOVED: &str =
    r#"{"zarr_format":3,"node_type":"array","shape":[2,3],"data_type":"uint8","chunk_grid":{"name":"regular","configuration":{"chunk_shape":[2,3]}},"chunk_key_encoding":"default","fill_value":0,"codecs":[{"name":"transpose","configuration":{"order":[1,0]}},"bytes"]}"#;

// The elements of a region of a chunk, if it has the region, by a handle that is built for the chunk.
fn read_chunk(
    rt: &impl Abort,
    alloc: Global,
    document: &str,
    chunk: &[u64],
    region: &ArraySubset,
    store: &mut MemoryStore,
) -> Option<ArrayBytes<'static>> {
    let array = opened(rt, alloc, document);
    let shape = array.chunk_shape(alloc, chunk).ok().expect(rt, "a shape")?;
    let shape = numbers(alloc, &shape).expect(rt, "memory");
    if !array.grid().has_chunk(chunk) || !region.inbounds_shape(&shape) {
        return None;
    }
    let key = array.chunk_key(alloc, chunk).expect(rt, "memory");
    let mut handle = ChainHandle::build(alloc, &array, chunk, store, key).expect(rt, "memory");
    let part = handle.partial_decode(alloc, region, &CodecOptions::default());
    let _store = handle.into_storage();
    part.ok()
}

// Whether this part is there, and has these elements.
fn is_part(part: Option<ArrayBytes<'static>>, elements: &[u8]) -> bool {
    match &part {
        Some(bytes) => are_elements(bytes, elements),
        None => false,
    }
}

#[test]
fn a_handle_is_built_for_a_chunk(rt: HostRuntime) {
    let alloc = rt.alloc();
    let mut store = MemoryStore::new(alloc);
    put(&rt, alloc, &mut store, "c/1", &[5, 6, 7, 8]);
    put(&rt, alloc, &mut store, "c/0/0", &[1, 4, 2, 5, 3, 6]);
    let middle = region(&rt, alloc, &[1..3]);
    let part = read_chunk(&rt, alloc, BOUNDED, &[1], &middle, &mut store);
    assert_eq!(rt; is_part(part, &[6, 7]), true);
    let past = read_chunk(&rt, alloc, BOUNDED, &[2], &middle, &mut store);
    assert_eq!(rt; past.is_none(), true);
    let column = region(&rt, alloc, &[0..2, 1..2]);
    let part = read_chunk(&rt, alloc, MOVED, &[0, 0], &column, &mut store);
    assert_eq!(rt; is_part(part, &[2, 5]), true);
}
