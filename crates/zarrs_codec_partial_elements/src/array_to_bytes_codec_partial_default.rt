//! The elements of what a handle of bytes holds, by an array-to-bytes codec.

ghost use Rattle.std.specs.Prelude.{◌≡◌};
ghost use Rattle.zarrs_codec_traits.specs.Prelude.{type_of, lengths, IsFit};

use crate::calls::{LevelReads, LevelWrites};
use crate::decoding::decode_elements;
use crate::encoding::encode_elements;
use crate::level::BottomLevel;
use std::alloc::Global;
use zarrs_array_subset::{ArraySubset, ChunkShape};
use zarrs_chunk_grid_indexer::Indexer;
use zarrs_codec::{
    ArrayPartialDecoderTraits, ArrayPartialEncoderTraits, BytesPartialDecoderTraits,
    BytesPartialEncoderTraits,
};
use zarrs_codec_array_bytes::ArrayBytes;
use zarrs_codec_error::{CodecError, CodecOptions};
use zarrs_codec_traits::ArrayToBytesCodecTraits;
use zarrs_data_type::DataType;
use zarrs_data_type_bytes::FillValue;
use zarrs_storage::StorageError;

/// The elements that the value of a handle on bytes decodes to, by an array-to-bytes codec.
///
/// A box that is smaller than the shape is read by the parts that the codec asks for; else the whole value is decoded.
#[derive(Drop)]
pub struct ArrayToBytesCodecPartialDefault<H, C> {
    handle: H,
    level: BottomLevel<C>,
    ghost fits: { IsFit (lengths level.shape.items) (type_of level.data_type) },
}

impl<H, C> ArrayToBytesCodecPartialDefault<H, C> {
    /// The handle's value through the codec.
    pub fn new(
        handle: H,
        shape: ChunkShape,
        data_type: DataType,
        fill_value: FillValue,
        codec: C,
    ) -> Self
        requires { IsFit (lengths shape.items) (type_of data_type) }
        ensures handle { result.handle ≡ handle }
        ensures level { result.level ≡ record {
          codec = codec;
          shape = shape;
          data_type = data_type;
          fill_value = fill_value;
        } }
    {
        ArrayToBytesCodecPartialDefault {
            handle,
            level: BottomLevel {
                codec,
                shape,
                data_type,
                fill_value,
            },
        }
    }
}

impl<H, C: Drop> ArrayToBytesCodecPartialDefault<H, C> {
    /// The handle again.
    pub fn into_handle(self) -> H
        ensures { result ≡ self.handle }
    {
        self.handle
    }
}

impl<H: BytesPartialDecoderTraits, C: ArrayToBytesCodecTraits> LevelReads
    for ArrayToBytesCodecPartialDefault<H, C> {
    ghost use Rattle.std.proofs.Common.{refl, ◌∙◌, subst};
    ghost use Rattle.zarrs_codec_partial_elements.specs.Level.{request_for, says_in, seen_by, IsServedBottom};

    ghost seen = { λ h. seen_by C.unserved C.meaning C.request h.level (H.seen h.handle) };

    ghost tells = { λ h under asked e. says_in C.meaning C.says h.level (H.tells h.handle)
        (H.seen h.handle) under (request_for C.request h.level asked) e };

    ghost same = { λ a b. (a.level ≡ b.level) × H.same a.handle b.handle };

    ghost served = { λ h. IsServedBottom C.unserved h.level };

    ghost fits = { λ h. h.fits };

    ghost same_self = { λ h. (refl, H.same_self h.handle) };

    ghost same_twice = { λ a b c x y. (
      x.0 ∙ y.0,
      H.same_twice a.handle b.handle c.handle x.1 y.1,
    ) };

    ghost same_served = { λ a b same served. subst (λ at. IsServedBottom C.unserved at) same.0
        served };

    fn shape(&self) -> &ChunkShape {
        &self.level.shape
    }

    fn element_type(&self) -> &DataType {
        &self.level.data_type
    }

    fn expect_served(&self, _alloc: Global) -> Result<(), CodecError> {
        self.level.expect_served()
    }

    fn decode_whole(
        &mut self,
        alloc: Global,
        options: &CodecOptions,
    ) -> Result<ArrayBytes<'static>, CodecError> {
        self.level.decode_whole(alloc, &mut self.handle, options)
    }

    fn decode_box(
        &mut self,
        alloc: Global,
        region: &ArraySubset,
        options: &CodecOptions,
    ) -> Result<ArrayBytes<'static>, CodecError> {
        self.level
            .decode_box(alloc, &mut self.handle, region, options)
    }
}

impl<H: BytesPartialEncoderTraits, C: ArrayToBytesCodecTraits> LevelWrites
    for ArrayToBytesCodecPartialDefault<H, C> {
    ghost use Rattle.std.proofs.Common.{subst, sym};
    ghost use Rattle.zarrs_codec_partial_elements.specs.Level.{level_of_bottom};
    ghost use Rattle.zarrs_codec_partial_elements.specs.Writing.{IsBeyond, IsTaken};

    ghost unencoded = { λ h list e. IsBeyond (C.beyond h.level.codec (level_of_bottom h.level))
        (level_of_bottom h.level) list e };

    ghost encodes = { λ h list. IsTaken (C.beyond h.level.codec (level_of_bottom h.level))
        (level_of_bottom h.level) list };

    ghost encodes_short = { λ h. C.takes h.level.codec (level_of_bottom h.level) };

    ghost same_unencoded = { λ a b list e same told. subst (λ at. IsBeyond
        (C.beyond at.codec (level_of_bottom at)) (level_of_bottom at) list e) (sym same.0) told };

    ghost same_encodes = { λ a b list same is. subst (λ at. IsTaken
        (C.beyond at.codec (level_of_bottom at)) (level_of_bottom at) list) (sym same.0) is };

    ghost same_short = { λ a b same takes. subst (λ at. C.takes at.codec (level_of_bottom at))
        same.0 takes };

    fn old_elements(
        &mut self,
        alloc: Global,
        options: &CodecOptions,
    ) -> Result<ArrayBytes<'static>, CodecError> {
        self.level.old_elements(alloc, &mut self.handle, options)
    }

    fn store_elements(
        &mut self,
        alloc: Global,
        bytes: ArrayBytes<'static>,
        options: &CodecOptions,
    ) -> Result<(), CodecError> {
        self.level
            .store_elements(alloc, &mut self.handle, bytes, options)
    }
}

impl<H: BytesPartialDecoderTraits, C: ArrayToBytesCodecTraits> ArrayPartialDecoderTraits
    for ArrayToBytesCodecPartialDefault<H, C> {
    ghost use Rattle.std.specs.Prelude.{◌&&◌};
    ghost use Rattle.std.proofs.Common.{refl, ◌∙◌};
    ghost use Rattle.zarrs_codec_partial_elements.specs.Counted.{listed_count, listed_absent};
    ghost use Rattle.zarrs_codec.specs.Lists.{fills};
    ghost use Rattle.zarrs_codec_partial_elements.specs.Level.{level_of_bottom, bottom_fill, held_in, says_in, request_for, seen_by};

    ghost seen = { λ h. seen_by C.unserved C.meaning C.request h.level (H.seen h.handle) };

    ghost tells = { λ h under asked e. says_in C.meaning C.says h.level (H.tells h.handle)
        (H.seen h.handle) under (request_for C.request h.level asked) e };

    ghost same = { λ a b. (a.level ≡ b.level) × H.same a.handle b.handle };

    ghost counted = { λ h under xs served is. listed_count
        (C.meaning h.level.codec under (level_of_bottom h.level)) (level_of_bottom h.level)
        (bottom_fill h.level) (held_in (H.seen h.handle) under) xs
        (λ value given. C.counted h.level.codec under (level_of_bottom h.level) value xs given)
        is };

    ghost absent = { λ h under served gone. listed_absent
        (C.meaning h.level.codec under (level_of_bottom h.level))
        (fills (level_of_bottom h.level) (bottom_fill h.level))
        (H.seen h.handle).there ((H.seen h.handle).held under)
        (λ value is. (H.sound h.handle).all_there under value is) gone };

    ghost same_self = { λ h. (refl, H.same_self h.handle) };

    ghost same_twice = { λ a b c x y. (
      x.0 ∙ y.0,
      H.same_twice a.handle b.handle c.handle x.1 y.1,
    ) };

    ghost reads_parts = { λ h. (C.decodes_parts h.level.codec).partial_decode
        && H.reads_parts h.handle };

    fn faults(&self) -> u64 {
        self.handle.faults()
    }

    fn data_type(&self) -> &DataType {
        &self.level.data_type
    }

    #[tactic(auto, using(crate::proofs::HeldLaws::listed_looks))]
    fn exists(&mut self) -> Result<bool, StorageError> {
        self.handle.exists()
    }

    fn size_held(&self) -> usize {
        self.handle.size_held()
    }

    fn supports_partial_decode(&self) -> bool {
        self.level.codec.partial_decoder_capability().partial_decode
            && self.handle.supports_partial_decode()
    }

    fn partial_decode<I: Indexer>(
        &mut self,
        alloc: Global,
        indexer: &I,
        options: &CodecOptions,
    ) -> Result<ArrayBytes<'static>, CodecError> {
        decode_elements(self, alloc, indexer, options)
    }
}

impl<H: BytesPartialEncoderTraits, C: ArrayToBytesCodecTraits> ArrayPartialEncoderTraits
    for ArrayToBytesCodecPartialDefault<H, C> {
    ghost use Rattle.std.specs.Prelude.{◌&&◌};
    ghost use Rattle.std.proofs.Common.{subst, sym};
    ghost use Rattle.zarrs_codec_partial_elements.specs.Level.{level_of_bottom};
    ghost use Rattle.zarrs_codec_partial_elements.specs.Writing.{IsBeyond, IsTaken};

    ghost writes_parts = { λ h. (C.encodes_parts h.level.codec).partial_encode
        && H.writes_parts h.handle };

    ghost unencoded = { λ h list e. IsBeyond (C.beyond h.level.codec (level_of_bottom h.level))
        (level_of_bottom h.level) list e };

    ghost encodes = { λ h list. IsTaken (C.beyond h.level.codec (level_of_bottom h.level))
        (level_of_bottom h.level) list };

    ghost encodes_short = { λ h. C.takes h.level.codec (level_of_bottom h.level) };

    ghost same_unencoded = { λ a b list e same told. subst (λ at. IsBeyond
        (C.beyond at.codec (level_of_bottom at)) (level_of_bottom at) list e) (sym same.0) told };

    ghost same_encodes = { λ a b list same is. subst (λ at. IsTaken
        (C.beyond at.codec (level_of_bottom at)) (level_of_bottom at) list) (sym same.0) is };

    ghost same_short = { λ a b same takes. subst (λ at. C.takes at.codec (level_of_bottom at))
        same.0 takes };

    #[tactic(auto, using(crate::proofs::WriteLaws::written_rest))]
    fn erase(&mut self) -> Result<(), CodecError> {
        self.handle.erase()
    }

    fn supports_partial_encode(&self) -> bool {
        self.level.codec.partial_encoder_capability().partial_encode
            && self.handle.supports_partial_encode()
    }

    fn partial_encode<I: Indexer>(
        &mut self,
        alloc: Global,
        indexer: &I,
        bytes: &ArrayBytes<'_>,
        options: &CodecOptions,
    ) -> Result<(), CodecError> {
        encode_elements(self, alloc, indexer, bytes, options)
    }
}
