//! How a data type supports the codec `bytes`.

ghost use Rattle.std.specs.Prelude.{◌≡◌, ◌<◌, ℕ};
ghost use Rattle.std.specs.Cow.{cow_slice_items};
ghost use Rattle.zarrs_data_type_bytes.specs.Pieces.{components_reversed};
ghost use Rattle.zarrs_data_type_bytes.specs.ByteOrder.{in_order, Orders, OrdersInPlace, OrdersBytes};

use crate::byte_order::reverse_components;
use std::alloc::{AllocError, Global};
use std::borrow::CowSlice;
use thiserror::Error;
use zarr_model::Endianness;

/// Components have several bytes, and no byte order is given.
#[derive(Clone, Copy, Debug, PartialEq, Eq, Error)]
#[error("the codec `bytes` needs a byte order for components of several bytes")]
pub struct BytesCodecEndiannessMissingError;

/// Why bytes are not brought into an order.
#[derive(Clone, Copy, Debug, PartialEq, Eq, Error)]
pub enum BytesCodecFault {
    /// The order is missing.
    #[error(transparent)]
    EndiannessMissing(BytesCodecEndiannessMissingError),
    /// Memory ran out.
    #[error("out of memory")]
    OutOfMemory,
}

impl From<AllocError> for BytesCodecFault {
    ghost use Rattle.zarrs_data_type_bytes.specs.ByteOrder.{bytes_out_of_memory};

    ghost from_gives = { λ _ e. e ≡ bytes_out_of_memory };

    fn from(_error: AllocError) -> BytesCodecFault {
        BytesCodecFault::OutOfMemory
    }
}

/// What the codec `bytes` asks of a data type.
pub trait BytesDataTypeTraits {
    // How many bytes each component has: at least one.
    ghost component: { Self → ℕ };

    ghost some: { (x : Self) → 0 < component x };

    /// The bytes of elements, in the order of this machine, brought into an order.
    ///
    /// Each whole component is reversed for [`Endianness::Big`]; what stands past the last one stays.
    ///
    /// # Errors
    /// [`BytesCodecFault::EndiannessMissing`] exactly where components have several bytes and no order is given.
    fn encode<'a>(
        &self,
        alloc: Global,
        bytes: CowSlice<'a, u8>,
        endianness: Option<Endianness>,
    ) -> Result<CowSlice<'a, u8>, BytesCodecFault>
        ensures { Orders result
            (in_order (component self.now) endianness (cow_slice_items bytes.entry)) };

    /// The bytes of elements in an order, brought back into the order of this machine.
    ///
    /// # Errors
    /// [`BytesCodecFault::EndiannessMissing`] exactly where components have several bytes and no order is given.
    fn decode<'a>(
        &self,
        alloc: Global,
        bytes: CowSlice<'a, u8>,
        endianness: Option<Endianness>,
    ) -> Result<CowSlice<'a, u8>, BytesCodecFault>
        ensures { Orders result
            (in_order (component self.now) endianness (cow_slice_items bytes.entry)) };
}

/// How a data type supports the codec `bytes`: the size of its components in bytes.
#[derive(Clone, Copy, Debug, PartialEq, Eq)]
pub struct BytesSupport {
    component_size: usize,
    ghost some: { 0 < component_size },
}

// Reverses each whole component of a list.
fn reverse_all(bytes: &mut Vec<u8>, size: usize)
    requires { 0 < size }
    ensures { bytes.new.items ≡ components_reversed size bytes.old.items }
{
    reverse_components(bytes.as_mut_slice(), size);
}

impl BytesSupport {
    ghost use Rattle.zarrs_data_type_bytes.specs.BytesSupport.{component_of};

    /// The support of a type whose components have `component_size` bytes.
    pub fn new(component_size: usize) -> Self
        requires { 0 < component_size }
        ensures { component_of result ≡ component_size }
    {
        BytesSupport { component_size }
    }

    /// The size of a component in bytes; 1 where elements have no byte order.
    pub fn component_size(&self) -> usize
        ensures value { result ≡ component_of self.now }
        ensures some { 0 < result }
    {
        self.component_size
    }

    /// Brings bytes into an order, or back, where they lie.
    ///
    /// # Errors
    /// [`BytesCodecEndiannessMissingError`] exactly where components have several bytes and no order is given; the
    /// bytes then stay.
    pub fn order_in_place(
        &self,
        bytes: &mut [u8],
        endianness: Option<Endianness>,
    ) -> Result<(), BytesCodecEndiannessMissingError>
        ensures { OrdersInPlace result
            (in_order (component_of self.now) endianness bytes.old) bytes.old bytes.new }
    {
        if self.component_size == 1 {
            return Ok(());
        }
        match endianness {
            None => Err(BytesCodecEndiannessMissingError),
            Some(Endianness::Little) => Ok(()),
            Some(Endianness::Big) => {
                reverse_components(bytes, self.component_size);
                Ok(())
            }
        }
    }

    /// Brings bytes that are handed over into an order, or back, without a copy.
    ///
    /// # Errors
    /// [`BytesCodecEndiannessMissingError`] exactly where components have several bytes and no order is given.
    pub fn order_bytes(
        &self,
        bytes: Vec<u8>,
        endianness: Option<Endianness>,
    ) -> Result<Vec<u8>, BytesCodecEndiannessMissingError>
        ensures { OrdersBytes result (in_order (component_of self.now) endianness bytes.items) }
    {
        if self.component_size == 1 {
            return Ok(bytes);
        }
        match endianness {
            None => Err(BytesCodecEndiannessMissingError),
            Some(Endianness::Little) => Ok(bytes),
            Some(Endianness::Big) => {
                let mut ordered = bytes;
                reverse_all(&mut ordered, self.component_size);
                Ok(ordered)
            }
        }
    }

    // The bytes in an order, which is also the way back.
    fn order<'a>(
        &self,
        alloc: Global,
        bytes: CowSlice<'a, u8>,
        endianness: Option<Endianness>,
    ) -> Result<CowSlice<'a, u8>, BytesCodecFault>
        ensures { Orders result
            (in_order (component_of self.now) endianness (cow_slice_items bytes.entry)) }
    {
        if self.component_size == 1 {
            return Ok(bytes);
        }
        match endianness {
            None => Err(BytesCodecFault::EndiannessMissing(BytesCodecEndiannessMissingError)),
            Some(Endianness::Little) => Ok(bytes),
            Some(Endianness::Big) => {
                let mut owned = bytes.into_owned(alloc)?;
                reverse_all(&mut owned, self.component_size);
                Ok(CowSlice::Owned(owned))
            }
        }
    }
}

impl BytesDataTypeTraits for BytesSupport {
    ghost use Rattle.zarrs_data_type_bytes.specs.BytesSupport.{component_of};

    ghost component = { component_of };

    ghost some = { λ support. support.some };

    fn encode<'a>(
        &self,
        alloc: Global,
        bytes: CowSlice<'a, u8>,
        endianness: Option<Endianness>,
    ) -> Result<CowSlice<'a, u8>, BytesCodecFault> {
        self.order(alloc, bytes, endianness)
    }

    fn decode<'a>(
        &self,
        alloc: Global,
        bytes: CowSlice<'a, u8>,
        endianness: Option<Endianness>,
    ) -> Result<CowSlice<'a, u8>, BytesCodecFault> {
        self.order(alloc, bytes, endianness)
    }
}
