//! The elements of what a handle of elements of the level below holds, by an array-to-array codec.

ghost use Rattle.std.specs.Prelude.{◌≡◌, true, nat_lt, None};
ghost use Rattle.std.specs.List.{list_all};
ghost use Rattle.zarrs_codec_traits.specs.Prelude.{kind_of, fill_element, type_of, fill_bytes};
ghost use Rattle.zarrs_codec_traits.specs.Prelude.{unserved_at, lengths, level_of, IsFit};
ghost use Rattle.zarrs_codec_partial_elements.specs.Kinds.{kind_code};

use crate::level::ArrayLevel;
use crate::write::are_fill_bytes;
use std::alloc::Global;
use zarrs_array_subset::{ArraySubset, ChunkShape};
use zarrs_chunk_grid_indexer::Indexer;
use zarrs_codec::{ArrayPartialDecoderTraits, ArrayPartialEncoderTraits};
use zarrs_codec_array_bytes::ArrayBytes;
use zarrs_codec_error::{CodecError, CodecOptions};
use zarrs_codec_partial_elements::calls::{LevelReads, LevelWrites};
use zarrs_codec_partial_elements::decoding::decode_elements;
use zarrs_codec_partial_elements::encoding::encode_elements;
use zarrs_codec_traits::ArrayToArrayCodecTraits;
use zarrs_data_type::DataType;
use zarrs_data_type_bytes::FillValue;
use zarrs_storage::StorageError;

/// The elements that those of a handle on the level below decode to, by an array-to-array codec.
///
/// A box that is smaller than the shape is read by the box below that the codec names; else all elements are decoded. A
/// write hands on in one call what all elements are encoded to, or, where they are not stored, the fill value below for
/// each.
#[derive(Drop)]
pub struct ArrayToArrayCodecPartialDefault<
    H: ArrayPartialDecoderTraits,
    C: ArrayToArrayCodecTraits,
> {
    handle: H,
    level: ArrayLevel<C>,
    ghost fits: { IsFit (lengths level.shape.items) (type_of level.data_type) },
    ghost shape: { let above = level_of level.shape.items level.data_type level.fill_value in
        unserved_at (C.unserved level.codec) above (fill_bytes level.fill_value) ≡ None
        → (H.seen handle).level.shape ≡ ((C.meaning level.codec).level_below above).shape },
    ghost kind: { let above = level_of level.shape.items level.data_type level.fill_value in
        unserved_at (C.unserved level.codec) above (fill_bytes level.fill_value) ≡ None
        → kind_code (kind_of (H.seen handle).level.data_type)
        ≡ kind_code (kind_of ((C.meaning level.codec).level_below above).data_type) },
    ghost fill: { unserved_at (C.unserved level.codec)
        (level_of level.shape.items level.data_type level.fill_value)
        (fill_bytes level.fill_value) ≡ None → (H.seen handle).fill
        ≡ C.fill_below level.codec (type_of level.data_type) (fill_bytes level.fill_value) },
    ghost bytes: { list_all (λ b. nat_lt b 256) (fill_bytes level.fill_value) ≡ true },
}

impl<H: ArrayPartialDecoderTraits, C: ArrayToArrayCodecTraits> ArrayToArrayCodecPartialDefault<
    H,
    C,
> {
    /// The handle's elements through the codec. Where the codec serves the shape, the data type and the fill value, the
    /// handle is one of those of the level below.
    pub fn new(
        handle: H,
        shape: ChunkShape,
        data_type: DataType,
        fill_value: FillValue,
        codec: C,
    ) -> Self
        requires fits { IsFit (lengths shape.items) (type_of data_type) }
        requires shape { let above = level_of shape.items data_type fill_value in
            unserved_at (C.unserved codec) above (fill_bytes fill_value) ≡ None
            → (H.seen handle).level.shape ≡ ((C.meaning codec).level_below above).shape }
        requires data_type { let above = level_of shape.items data_type fill_value in
            unserved_at (C.unserved codec) above (fill_bytes fill_value) ≡ None
            → (H.seen handle).level.data_type ≡ ((C.meaning codec).level_below above).data_type }
        requires fill { unserved_at (C.unserved codec) (level_of shape.items data_type fill_value)
            (fill_bytes fill_value) ≡ None → (H.seen handle).fill
            ≡ C.fill_below codec (type_of data_type) (fill_bytes fill_value) }
        ensures handle { result.handle ≡ handle }
        ensures level { result.level ≡ record {
          codec = codec;
          shape = shape;
          data_type = data_type;
          fill_value = fill_value;
        } }
    {
        are_fill_bytes(&fill_value);
        ArrayToArrayCodecPartialDefault {
            handle,
            level: ArrayLevel {
                codec,
                shape,
                data_type,
                fill_value,
            },
        }
    }

    /// The handle again.
    pub fn into_handle(self) -> H
    where
        C: Drop,
        ensures { result ≡ self.handle }
    {
        self.handle
    }
}

impl<H: ArrayPartialDecoderTraits, C: ArrayToArrayCodecTraits> LevelReads
    for ArrayToArrayCodecPartialDefault<H, C> {
    ghost use Rattle.std.specs.Prelude.{Some};
    ghost use Rattle.std.proofs.Common.{refl, ◌∙◌, subst};
    ghost use Rattle.zarrs_codec_partial_elements.specs.Boxes.{Denotes};
    ghost use Rattle.zarrs_codec_partial.specs.Above.{array_level, array_fill, list_raised, asked_box_below};

    ghost seen = { λ h. list_raised (array_level h.level) (array_fill h.level)
        (unserved_at (C.unserved h.level.codec) (array_level h.level) (array_fill h.level))
        (C.meaning h.level.codec) (C.region_below h.level.codec) (H.seen h.handle) };

    ghost tells = { λ h under asked e. H.tells h.handle under
        (Some (asked_box_below (C.region_below h.level.codec) (array_level h.level).shape
        ((C.meaning h.level.codec).level_below (array_level h.level)).shape asked)) e };

    ghost same = { λ a b. (a.level ≡ b.level) × H.same a.handle b.handle };

    ghost served = { λ h. (unserved_at (C.unserved h.level.codec) (array_level h.level)
        (array_fill h.level) ≡ None) × Denotes (array_level h.level) (array_fill h.level) };

    ghost fits = { λ h. h.fits };

    ghost same_self = { λ h. (refl, H.same_self h.handle) };

    ghost same_twice = { λ a b c x y. (
      x.0 ∙ y.0,
      H.same_twice a.handle b.handle c.handle x.1 y.1,
    ) };

    ghost same_served = { λ a b same served. subst (λ at. (unserved_at (C.unserved at.codec)
        (array_level at) (array_fill at) ≡ None) × Denotes (array_level at) (array_fill at))
        same.0 served };

    fn shape(&self) -> &ChunkShape {
        &self.level.shape
    }

    fn element_type(&self) -> &DataType {
        &self.level.data_type
    }

    fn expect_served(&self, alloc: Global) -> Result<(), CodecError> {
        self.level.expect_served(alloc)
    }

    fn decode_whole(
        &mut self,
        alloc: Global,
        options: &CodecOptions,
    ) -> Result<ArrayBytes<'static>, CodecError> {
        self.level.decode_whole(alloc, &mut self.handle, options)
    }

    fn decode_box(
        &mut self,
        alloc: Global,
        region: &ArraySubset,
        options: &CodecOptions,
    ) -> Result<ArrayBytes<'static>, CodecError> {
        self.level
            .decode_box(alloc, &mut self.handle, region, options)
    }
}

impl<H: ArrayPartialEncoderTraits, C: ArrayToArrayCodecTraits> LevelWrites
    for ArrayToArrayCodecPartialDefault<H, C> {
    ghost use Rattle.std.specs.Prelude.{Some};
    ghost use Rattle.std.proofs.Common.{subst, sym};
    ghost use Rattle.zarrs_codec_partial.specs.Above.{array_level, IsUnencodedBelow, IsEncodedBelow};

    ghost unencoded = { λ h list e. IsUnencodedBelow ((C.meaning h.level.codec).decode_list
        (array_level h.level)) (H.unencoded h.handle) list e };

    ghost encodes = { λ h list. IsEncodedBelow ((C.meaning h.level.codec).decode_list
        (array_level h.level)) (H.encodes h.handle) list };

    ghost encodes_short = { λ h. H.encodes_short h.handle };

    ghost same_unencoded = { λ a b list e same why. record {
      below = why.below;
      decodes = subst (λ at. (C.meaning at.codec).decode_list (array_level at) why.below
          ≡ Some list) (sym same.0) why.decodes;
      told = H.same_unencoded a.handle b.handle why.below e same.1 why.told;
    } };

    ghost same_encodes = { λ a b list same is. record {
      below = is.below;
      decodes = subst (λ at. (C.meaning at.codec).decode_list (array_level at) is.below
          ≡ Some list) (sym same.0) is.decodes;
      taken = H.same_encodes a.handle b.handle is.below same.1 is.taken;
    } };

    ghost same_short = { λ a b same takes. H.same_short a.handle b.handle same.1 takes };

    fn old_elements(
        &mut self,
        alloc: Global,
        options: &CodecOptions,
    ) -> Result<ArrayBytes<'static>, CodecError> {
        ArrayLevel::decode_whole(&self.level, alloc, &mut self.handle, options)
    }

    fn store_elements(
        &mut self,
        alloc: Global,
        bytes: ArrayBytes<'static>,
        options: &CodecOptions,
    ) -> Result<(), CodecError> {
        self.level
            .store_elements(alloc, &mut self.handle, bytes, options)
    }
}

impl<H: ArrayPartialDecoderTraits, C: ArrayToArrayCodecTraits> ArrayPartialDecoderTraits
    for ArrayToArrayCodecPartialDefault<H, C> {
    ghost use Rattle.std.specs.Prelude.{Some, ◌&&◌};
    ghost use Rattle.std.proofs.Common.{refl, ◌∙◌};
    ghost use Rattle.zarrs_codec_traits.proofs.FillLaws.{element_bytes};
    ghost use Rattle.zarr_model.proofs.ElementLaws.{denoted};
    ghost use Rattle.zarrs_codec_partial_elements.proofs.AbsentLaws.{tested_bytes};
    ghost use Rattle.zarrs_codec_partial.specs.Counted.{raised_count, raised_absent};
    ghost use Rattle.zarrs_codec_partial.specs.Above.{array_level, array_fill, list_raised, asked_box_below};

    ghost seen = { λ h. list_raised (array_level h.level) (array_fill h.level)
        (unserved_at (C.unserved h.level.codec) (array_level h.level) (array_fill h.level))
        (C.meaning h.level.codec) (C.region_below h.level.codec) (H.seen h.handle) };

    ghost tells = { λ h under asked e. H.tells h.handle under
        (Some (asked_box_below (C.region_below h.level.codec) (array_level h.level).shape
        ((C.meaning h.level.codec).level_below (array_level h.level)).shape asked)) e };

    ghost same = { λ a b. (a.level ≡ b.level) × H.same a.handle b.handle };

    ghost counted = { λ h under xs served is. raised_count (C.meaning h.level.codec)
        (C.unserved h.level.codec) (array_level h.level) (array_fill h.level)
        (H.seen h.handle) under xs h.shape (λ ys zs own long given. C.counted h.level.codec
        (array_level h.level) (array_fill h.level) ys zs own long given)
        (λ ys below given. H.counted h.handle under ys below given) served is };

    ghost absent = { λ h under served gone. let level = array_level h.level in
        let fill = array_fill h.level in raised_absent (C.meaning h.level.codec)
        (C.fill_below h.level.codec) (unserved_at (C.unserved h.level.codec) level fill)
        level fill (H.seen h.handle) under
        (λ own. record { shape = h.shape own; kind = h.kind own; fill = h.fill own })
        (λ own some. let is = denoted (fill_element (kind_of level.data_type) fill) some in
        record {
          own = is;
          below = C.denotes h.level.codec level fill own is;
          decodes = C.fills h.level.codec level fill own is (element_bytes
              (kind_of level.data_type) fill level.fill (tested_bytes fill h.bytes) is);
        }) (λ below none. H.absent h.handle under below none) served gone };

    ghost same_self = { λ h. (refl, H.same_self h.handle) };

    ghost same_twice = { λ a b c x y. (
      x.0 ∙ y.0,
      H.same_twice a.handle b.handle c.handle x.1 y.1,
    ) };

    ghost reads_parts = { λ h. (C.decodes_parts h.level.codec).partial_decode
        && H.reads_parts h.handle };

    fn faults(&self) -> u64 {
        self.handle.faults()
    }

    fn data_type(&self) -> &DataType {
        &self.level.data_type
    }

    #[tactic(auto, using(crate::proofs::AboveLaws::raised_looks))]
    fn exists(&mut self) -> Result<bool, StorageError> {
        self.handle.exists()
    }

    fn size_held(&self) -> usize {
        self.handle.size_held()
    }

    fn supports_partial_decode(&self) -> bool {
        self.level.codec.partial_decoder_capability().partial_decode
            && self.handle.supports_partial_decode()
    }

    fn partial_decode<I: Indexer>(
        &mut self,
        alloc: Global,
        indexer: &I,
        options: &CodecOptions,
    ) -> Result<ArrayBytes<'static>, CodecError> {
        decode_elements(self, alloc, indexer, options)
    }
}

impl<H: ArrayPartialEncoderTraits, C: ArrayToArrayCodecTraits> ArrayPartialEncoderTraits
    for ArrayToArrayCodecPartialDefault<H, C> {
    ghost use Rattle.std.specs.Prelude.{Some, ◌&&◌};
    ghost use Rattle.std.proofs.Common.{subst, sym};
    ghost use Rattle.zarrs_codec_partial.specs.Above.{array_level, IsUnencodedBelow, IsEncodedBelow};

    ghost writes_parts = { λ h. (C.encodes_parts h.level.codec).partial_encode
        && H.writes_parts h.handle };

    ghost unencoded = { λ h list e. IsUnencodedBelow ((C.meaning h.level.codec).decode_list
        (array_level h.level)) (H.unencoded h.handle) list e };

    ghost encodes = { λ h list. IsEncodedBelow ((C.meaning h.level.codec).decode_list
        (array_level h.level)) (H.encodes h.handle) list };

    ghost encodes_short = { λ h. H.encodes_short h.handle };

    ghost same_unencoded = { λ a b list e same why. record {
      below = why.below;
      decodes = subst (λ at. (C.meaning at.codec).decode_list (array_level at) why.below
          ≡ Some list) (sym same.0) why.decodes;
      told = H.same_unencoded a.handle b.handle why.below e same.1 why.told;
    } };

    ghost same_encodes = { λ a b list same is. record {
      below = is.below;
      decodes = subst (λ at. (C.meaning at.codec).decode_list (array_level at) is.below
          ≡ Some list) (sym same.0) is.decodes;
      taken = H.same_encodes a.handle b.handle is.below same.1 is.taken;
    } };

    ghost same_short = { λ a b same takes. H.same_short a.handle b.handle same.1 takes };

    fn erase(&mut self) -> Result<(), CodecError> {
        self.handle.erase()
    }

    fn supports_partial_encode(&self) -> bool {
        self.level.codec.partial_encoder_capability().partial_encode
            && self.handle.supports_partial_encode()
    }

    fn partial_encode<I: Indexer>(
        &mut self,
        alloc: Global,
        indexer: &I,
        bytes: &ArrayBytes<'_>,
        options: &CodecOptions,
    ) -> Result<(), CodecError> {
        encode_elements(self, alloc, indexer, bytes, options)
    }
}
