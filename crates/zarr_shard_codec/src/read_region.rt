//! A region of a chunk, read by the parts of its value that it needs.

ghost use Rattle.std.specs.Prelude.{◌≡◌, ◌≤◌, ◌*◌, ℕ, true, false, List, length, replicate, Some, IsSome, IfOk, MatchResult};
ghost use Rattle.std.specs.List.{sum_by};
ghost use Rattle.zarrs_codec.specs.Prelude.{count, count_of, ends_within, Element};
ghost use Rattle.zarrs_codec.specs.Prelude.{has_long_element, region as region_of, held_bytes};
ghost use Rattle.zarrs_codec.specs.Prelude.{raw_of, options_of, list_at, at_box, select};
ghost use Rattle.zarr_array_boxes.specs.BoxElements.{list_held};
ghost use Rattle.zarr_shard_codec.specs.ReadRegion.{HasRegion, NotRead, SaysMet, region_says, held_says};
ghost use Rattle.zarr_shard_codec.specs.Region.{index_len as own_len, region_by_index, own_region, met_pairs, own_part, pairs_read, held_region, held_asks, held_taken, region_content, region_asks, region_taken, SelectsRegion, WholeIsAll};
ghost use Rattle.zarr_shard_codec.specs.ShardCodec.{inner_of, inner_grid, own_level, own_array, own_list};
ghost use Rattle.zarr_shard_codec.specs.Whole.{HoldsOver};

use crate::fetch::fetch_range;
use crate::index::{find_index, index_len};
use crate::inner_chunks::InnerChunks;
use crate::met_inner::{MetInner, chunks_of};
use crate::shard_codec::ShardCodec;
use std::alloc::{AllocError, Global};
use zarr_array_boxes::BoxElements;
use zarrs_array_subset::ArraySubset;
use zarrs_codec_array_bytes::ArrayBytes;
use zarrs_codec_error::{CodecError, CodecOptions};
use zarrs_storage::{ByteRange, Store, StoreKey};

/// Of a value that decodes, the elements of a region are its part of what the value decodes to.
pub fn selects_region()
    ensures { SelectsRegion }
{}

/// Those of the region of all of a chunk are what the value decodes to, also where that is nothing.
pub fn whole_is_all()
    ensures { WholeIsAll }
{}

impl ShardCodec {
    /// The elements of a region inside the chunk, which are all the fill value.
    ///
    /// # Errors
    /// [`AllocError`] where memory runs out.
    pub(crate) fn filled<'a>(
        &'a self,
        alloc: Global,
        region: &'a ArraySubset,
    ) -> Result<BoxElements<'a>, AllocError>
        requires { ends_within (region_of region.now) (inner_of self.now).shape ≡ true }
        ensures holds { IfOk result (HoldsOver self.now (region_of region.now)) }
        ensures filled { IfOk result (λ elements. list_held elements
            ≡ replicate (count (region_of region.now)) (inner_of self.now).fill) }
    {
        let inner = &self.shard.inner;
        let elements = BoxElements::filled(alloc, inner.data_type(), inner.fill_value(), region)?;
        Ok(elements)
    }

    // The same as array bytes.
    fn blank_region(
        &self,
        alloc: Global,
        region: &ArraySubset,
    ) -> Result<ArrayBytes<'static>, AllocError>
        requires { ends_within (region_of region.now) (inner_of self.now).shape ≡ true }
        ensures means { IfOk result (λ v. list_at (at_box (region_of region.now)
            (own_level self.now)) (raw_of v)
            ≡ Some (replicate (count (region_of region.now)) (inner_of self.now).fill)) }
        ensures short { IfOk result (λ v. has_long_element (raw_of v) ≡ false) }
    {
        let elements = self.filled(alloc, region)?;
        let bytes = elements.into_bytes(alloc)?;
        Ok(bytes)
    }

    // How many bytes the index has.
    fn len_of_index(&self) -> u64
        ensures { result ≡ own_len self.now }
    {
        match index_len(self.num_inner() as usize, self.shard.checked) {
            Some(len) => len as u64,
            None => unreachable!(),
        }
    }

    // The elements of a region, by the bytes of the pairs of the value under a key.
    fn read_by_index<S: Store>(
        &self,
        alloc: Global,
        key: &StoreKey,
        index: &[u8],
        region: &ArraySubset,
        store: &mut S,
        options: &CodecOptions,
    ) -> Result<ArrayBytes<'static>, CodecError>
        requires inside { ends_within (region_of region.now) (inner_of self.now).shape ≡ true }
        requires indexed { 16 * count_of (inner_grid self.now).grid_shape ≤ length index.now }
        requires there { IsSome ((S.shown store.old).content key.now) }
        ensures read { let under = options_of options.now in
            let value = held_bytes ((S.shown store.old).content key.now) in
            let wanted = region_by_index (own_array self.now under) value (region_of region.now)
            index.now in let pairs = met_pairs self.now (region_of region.now) index.now in
            MatchResult result
            (λ v. HasRegion self.now (region_of region.now) wanted (length pairs)
            (sum_by (λ pair. pair.size) pairs) (S.shown store.old) (S.shown store.new) (raw_of v))
            (NotRead wanted (SaysMet self.now under (region_of region.now) value index.now)
            (S.shown store.old) (S.shown store.new)) }
        ensures kept { S.kept store.old store.new }
    {
        let chunks = chunks_of(self, alloc, region)?;
        let inner = InnerChunks::of(self, alloc)?;
        let met = MetInner {
            inner,
            key,
            index,
            subset: region,
            chunks,
        };
        met.read_all(alloc, store, options)
    }

    // The same by the bytes of the value's index.
    fn read_by_part<S: Store>(
        &self,
        alloc: Global,
        key: &StoreKey,
        part: &[u8],
        region: &ArraySubset,
        store: &mut S,
        options: &CodecOptions,
    ) -> Result<ArrayBytes<'static>, CodecError>
        requires inside { ends_within (region_of region.now) (inner_of self.now).shape ≡ true }
        requires part { own_part self.now (held_bytes ((S.shown store.old).content key.now))
            ≡ Some part.now }
        requires there { IsSome ((S.shown store.old).content key.now) }
        ensures read { let under = options_of options.now in
            let value = held_bytes ((S.shown store.old).content key.now) in
            let wanted = own_region self.now under (region_of region.now) value in
            let pairs = pairs_read self.now under (region_of region.now) value in
            MatchResult result
            (λ v. HasRegion self.now (region_of region.now) wanted (length pairs)
            (sum_by (λ pair. pair.size) pairs) (S.shown store.old) (S.shown store.new) (raw_of v))
            (NotRead wanted (region_says self.now under (region_of region.now) value)
            (S.shown store.old) (S.shown store.new)) }
        ensures kept { S.kept store.old store.new }
    {
        let number = self.num_inner() as usize;
        match find_index(
            part,
            number,
            self.shard.checked,
            options.validate_checksums(),
        ) {
            Ok(index) => self.read_by_index(alloc, key, index, region, store, options),
            Err(error) => Err(error),
        }
    }

    // The elements of a region that has some.
    fn read_some<S: Store>(
        &self,
        alloc: Global,
        key: &StoreKey,
        region: &ArraySubset,
        store: &mut S,
        options: &CodecOptions,
    ) -> Result<ArrayBytes<'static>, CodecError>
        requires inside { ends_within (region_of region.now) (inner_of self.now).shape ≡ true }
        ensures read { let under = options_of options.now in
            let value = (S.shown store.old).content key.now in
            let wanted = held_region self.now under (region_of region.now) value in
            MatchResult result
            (λ v. HasRegion self.now (region_of region.now) wanted
            (held_asks self.now under (region_of region.now) value)
            (held_taken self.now under (region_of region.now) value) (S.shown store.old)
            (S.shown store.new) (raw_of v))
            (NotRead wanted (held_says self.now under (region_of region.now) value)
            (S.shown store.old) (S.shown store.new)) }
        ensures kept { S.kept store.old store.new }
    {
        match fetch_range(alloc, key, ByteRange::Suffix(self.len_of_index()), store) {
            Ok(Some(part)) => self.read_by_part(alloc, key, &part, region, store, options),
            Ok(None) => {
                let bytes = self.blank_region(alloc, region)?;
                Ok(bytes)
            }
            Err(error) => Err(error),
        }
    }

    /// The elements of a region of the chunk under a key, in row-major order: those of its value, or the fill value
    /// where the key is absent. The index is read by one call, and each inner chunk that the region meets and that is
    /// there by one; for a region without elements nothing is read.
    ///
    /// # Errors
    /// `InvalidByteRangeError` where the value is shorter than its index, and else `InvalidChecksum` where the number
    /// of the index is wrong and tested; that of an inner chunk that the region meets, `InvalidByteRangeError` where
    /// its pair names bytes past the value, or its chain's where its bytes do not decode; a fault of the store, or want
    /// of memory.
    pub fn read_region<S: Store>(
        &self,
        alloc: Global,
        store: &mut S,
        key: &StoreKey,
        region: &ArraySubset,
        options: &CodecOptions,
    ) -> Result<ArrayBytes<'static>, CodecError>
        requires inside { ends_within (region_of region.now) (inner_of self.now).shape ≡ true }
        ensures read { let under = options_of options.now in
            let value = (S.shown store.old).content key.now in
            let wanted = region_content self.now under (region_of region.now) value in
            MatchResult result
            (λ v. HasRegion self.now (region_of region.now) wanted
            (region_asks self.now under (region_of region.now) value)
            (region_taken self.now under (region_of region.now) value) (S.shown store.old)
            (S.shown store.new) (raw_of v))
            (NotRead wanted (held_says self.now under (region_of region.now) value)
            (S.shown store.old) (S.shown store.new)) }
        // Of a value that decodes they are the region's part of what it decodes to.
        ensures selects { (value : List ℕ) (list : List Element)
            → (S.shown store.old).content key.now ≡ Some value
            → own_list self.now (options_of options.now) value ≡ Some list
            → IfOk result (λ v. list_at (at_box (region_of region.now) (own_level self.now))
            (raw_of v) ≡ Some (select (inner_of self.now).shape (region_of region.now) list)) }
        ensures unread { count (region_of region.now) ≡ 0 → store.new ≡ store.old }
        ensures puts { (S.shown store.new).puts ≡ (S.shown store.old).puts }
        ensures kept { S.kept store.old store.new }
    {
        if region.is_empty() {
            let bytes = self.blank_region(alloc, region)?;
            return Ok(bytes);
        }
        self.read_some(alloc, key, region, store, options)
    }
}
