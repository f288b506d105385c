//! Optional elements.

ghost use Rattle.std.specs.Prelude.{◌≡◌, length};
ghost use Rattle.std.specs.Cow.{cow_slice_items};
ghost use Rattle.zarrs_codec_array_bytes.specs.Raw.{raw_of, data_of, mask_of};

use super::{ArrayBytes, ArrayBytesOptional, ArrayBytesRaw, bytes_in};

impl<'a> ArrayBytesOptional<'a> {
    /// Optional elements: the data, and a mask with a byte for each element.
    pub fn new(inner: Box<ArrayBytes<'a>>, mask: ArrayBytesRaw<'a>) -> Self
        ensures data { data_of result ≡ raw_of inner.entry.value }
        ensures mask { mask_of result ≡ cow_slice_items mask.entry }
    {
        Self { inner, mask }
    }

    /// The data, with an element in each place.
    pub fn data(&self) -> &ArrayBytes<'a>
        ensures same { result.now ≡ self.now.inner.value }
        ensures value { raw_of result.now ≡ data_of self.now }
    {
        &self.inner
    }

    /// The mask, a byte for each element.
    pub fn mask(&self) -> &ArrayBytesRaw<'a>
        ensures { cow_slice_items result.now ≡ mask_of self.now }
    {
        &self.mask
    }

    /// The number of elements.
    pub fn num_elements(&self) -> usize
        ensures { result ≡ length (mask_of self.now) }
    {
        self.flags().len()
    }

    /// The data and the mask.
    pub fn into_parts(self) -> (Box<ArrayBytes<'a>>, ArrayBytesRaw<'a>)
        ensures data { raw_of result.0.value ≡ data_of self.entry }
        ensures mask { cow_slice_items result.1 ≡ mask_of self.entry }
    {
        let ArrayBytesOptional { inner, mask } = self;
        (inner, mask)
    }

    /// The mask as a slice.
    pub fn flags(&self) -> &[u8]
        ensures { result.now ≡ mask_of self.now }
    {
        bytes_in(&self.mask)
    }
}
