//! The array-to-bytes codecs as one type.

ghost use Rattle.std.specs.Prelude.{◌≡◌, IfOk};
ghost use Rattle.zarr_codecs.specs.Plain.{plain_optional, stores_lengths};
ghost use Rattle.zarr_codecs.specs.Views.{plain_of, optional_plain};

use std::alloc::{AllocError, Global};
use zarr_codecs_to_bytes::{BytesCodec, VlenCodec};

/// An array-to-bytes codec of this project.
#[cycle(codec)]
#[derive(Drop)]
pub enum BasicArrayToBytes {
    /// The elements one after another.
    Bytes(BytesCodec),
    /// Texts or byte strings, each behind its length.
    Vlen(VlenCodec),
    /// A mask of what is null, and the elements of the inner type.
    Optional(OptionalCodec),
}

/// The codec `zarr_basics.optional`, which stores optional elements: a mask byte for each, 0 where it is null and else
/// 1, and then the elements of the inner type by an inner codec, with some element in the place of each null.
#[cycle(codec)]
#[derive(Drop)]
pub struct OptionalCodec {
    pub(crate) inner: Box<BasicArrayToBytes>,
}

impl BasicArrayToBytes {
    /// A copy.
    ///
    /// # Errors
    /// [`AllocError`] where memory runs out.
    pub fn try_clone(&self, alloc: Global) -> Result<Self, AllocError>
        ensures { IfOk result (λ copy. plain_of copy ≡ plain_of self.now) }
    {
        copied(alloc, self)
    }

    /// Whether the number of the elements and the length of each are stored, in 4 bytes each.
    pub fn stores_lengths(&self) -> bool
        ensures { result ≡ stores_lengths (plain_of self.now) }
    {
        stores_lengths(self)
    }
}

impl OptionalCodec {
    /// The codec of optional elements over a codec of the elements of the inner type.
    pub fn new(inner: Box<BasicArrayToBytes>) -> Self
        ensures { optional_plain result ≡ plain_optional (plain_of inner.value) }
    {
        OptionalCodec { inner }
    }

    /// The codec of the elements of the inner type.
    pub fn inner(&self) -> &BasicArrayToBytes
        ensures { plain_optional (plain_of result.now) ≡ optional_plain self.now }
    {
        &self.inner
    }

    /// A copy.
    ///
    /// # Errors
    /// [`AllocError`] where memory runs out.
    pub fn try_clone(&self, alloc: Global) -> Result<Self, AllocError>
        ensures { IfOk result (λ copy. optional_plain copy ≡ optional_plain self.now) }
    {
        let inner = copied(alloc, &self.inner)?;
        let inner = Box::new(alloc, inner)?;
        Ok(OptionalCodec { inner })
    }
}

// Whether lengths are stored.
fn stores_lengths(codec: &BasicArrayToBytes) -> bool
    ensures { result ≡ stores_lengths (plain_of codec.now) }
{
    match codec {
        BasicArrayToBytes::Bytes(_) => false,
        BasicArrayToBytes::Vlen(_) => true,
        BasicArrayToBytes::Optional(codec) => stores_lengths(&codec.inner),
    }
}

// A copy of a codec, with all codecs inside.
fn copied(alloc: Global, codec: &BasicArrayToBytes) -> Result<BasicArrayToBytes, AllocError>
    ensures { IfOk result (λ copy. plain_of copy ≡ plain_of codec.now) }
{
    match codec {
        BasicArrayToBytes::Bytes(codec) => Ok(BasicArrayToBytes::Bytes(*codec)),
        BasicArrayToBytes::Vlen(codec) => Ok(BasicArrayToBytes::Vlen(*codec)),
        BasicArrayToBytes::Optional(codec) => {
            let inner = copied(alloc, &codec.inner)?;
            let inner = Box::new(alloc, inner)?;
            Ok(BasicArrayToBytes::Optional(OptionalCodec { inner }))
        }
    }
}
