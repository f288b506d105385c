//! Elements put into what a handle of elements of the level below holds, by an array-to-array codec.

ghost use Rattle.std.specs.Prelude.{◌≡◌, ◌<◌, true, nat_lt, IfOk, IfErr};
ghost use Rattle.std.specs.List.{AllByRecursion, list_all};
ghost use Rattle.zarrs_codec.specs.Prelude.{region as box_of, raw_of, IsNoFault, options_of};
ghost use Rattle.zarrs_data_type_bytes.specs.FillValue.{fill_bytes};
ghost use Rattle.zarrs_codec_partial_elements.specs.Boxes.{Denotes};
ghost use Rattle.zarrs_codec_partial.specs.Above.{IsAllBelow, IsOver};
ghost use Rattle.zarrs_codec_partial.specs.Writing.{FillsBelow, HandsBelow, StoresByCodec};

use crate::level::ArrayLevel;
use std::alloc::Global;
use zarrs_array_subset::ArraySubset;
use zarrs_codec::ArrayPartialEncoderTraits;
use zarrs_codec_array_bytes::ArrayBytes;
use zarrs_codec_error::{CodecError, CodecOptions};
use zarrs_codec_partial_elements::fill::expect_denoted;
use zarrs_codec_partial_elements::write::is_dropped;
use zarrs_codec_traits::ArrayToArrayCodecTraits;
use zarrs_data_type_bytes::{FillValue, are_bytes};

// The numbers in a fill value are bytes, by a test.
#[tactic(auto, using(crate::proofs::ByteLaws::bytes_tested))]
pub(crate) fn are_fill_bytes(fill_value: &FillValue)
    ensures { list_all (λ b. nat_lt b 256) (fill_bytes fill_value.now) ≡ true }
{
    are_bytes(fill_value.as_ne_bytes());
}

impl<C: ArrayToArrayCodecTraits> ArrayLevel<C> {
    ghost use Rattle.zarrs_codec_partial.specs.Above.{array_level, array_fill, codec_seen};

    // The numbers in the fill value are bytes.
    pub(crate) fn fill_is_bytes(&self)
        ensures { AllByRecursion (λ b. b < 256) (array_fill self.now) }
    {
        are_bytes(self.fill_value.as_ne_bytes());
    }

    // The fill value below for each element of the level below.
    fn filled_below(
        &self,
        alloc: Global,
        all: &ArraySubset,
    ) -> Result<ArrayBytes<'static>, CodecError>
        requires all { IsAllBelow (box_of all.now)
            (codec_seen C.ArrayCodecTraits.own C.ArrayToArrayCodecTraits.own self.now) }
        ensures fills { FillsBelow
            (codec_seen C.ArrayCodecTraits.own C.ArrayToArrayCodecTraits.own self.now) result }
        ensures no_fault { IfErr result IsNoFault }
    {
        match self.codec.encoded_data_type(alloc, &self.data_type) {
            Ok(data_type) => {
                match self
                    .codec
                    .encoded_fill_value(alloc, &self.data_type, &self.fill_value)
                {
                    Ok(fill_value) => {
                        let number = all.num_elements();
                        ArrayBytes::new_fill_value(alloc, &data_type, number, &fill_value)
                    }
                    Err(error) => Err(error),
                }
            }
            Err(error) => Err(error),
        }
    }

    // What is handed on of elements: the fill value below for each where they are not stored, else what they are
    // encoded to. The fill value is tested first.
    fn elements_below(
        &self,
        alloc: Global,
        all: &ArraySubset,
        bytes: ArrayBytes<'static>,
        options: &CodecOptions,
    ) -> Result<ArrayBytes<'static>, CodecError>
        requires all { IsAllBelow (box_of all.now)
            (codec_seen C.ArrayCodecTraits.own C.ArrayToArrayCodecTraits.own self.now) }
        ensures hands { HandsBelow
            (codec_seen C.ArrayCodecTraits.own C.ArrayToArrayCodecTraits.own self.now)
            (options_of options.now) (raw_of bytes.entry) result }
        ensures denotes { IfOk result (λ _. Denotes (array_level self.now) (array_fill self.now)) }
        ensures no_fault { IfErr result IsNoFault }
    {
        self.fill_is_bytes();
        if let Err(error) = expect_denoted(&self.data_type, &self.fill_value) {
            return Err(error);
        }
        if is_dropped(&bytes, &self.data_type, &self.fill_value, options) {
            return self.filled_below(alloc, all);
        }
        self.codec.encode(
            alloc,
            bytes,
            &self.shape,
            &self.data_type,
            &self.fill_value,
            options,
        )
    }

    // Makes all elements below those that these are encoded to, or leaves the value absent where they are not stored:
    // the level below tests and encodes what it is handed in either case, before anything is changed.
    pub(crate) fn store_elements<H: ArrayPartialEncoderTraits>(
        &self,
        alloc: Global,
        handle: &mut H,
        bytes: ArrayBytes<'static>,
        options: &CodecOptions,
    ) -> Result<(), CodecError>
        requires over { IsOver (H.seen handle.old)
            (codec_seen C.ArrayCodecTraits.own C.ArrayToArrayCodecTraits.own self.now) }
        ensures { StoresByCodec H.ArrayPartialDecoderTraits H.ArrayPartialEncoderTraits.own
            (codec_seen C.ArrayCodecTraits.own C.ArrayToArrayCodecTraits.own self.now)
            (options_of options.now) (raw_of bytes.entry) handle.old handle.new result }
    {
        match self.whole_below(alloc) {
            Ok(all) => match self.elements_below(alloc, &all, bytes, options) {
                Ok(encoded) => handle.partial_encode(alloc, &all, &encoded, options),
                Err(error) => Err(error),
            },
            Err(error) => Err(error),
        }
    }
}
