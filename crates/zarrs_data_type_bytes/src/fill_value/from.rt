//! Fill values from bytes, texts and numbers.
//!
//! Numbers are held with the lowest byte first, those below 0 in two's complement.

ghost use Rattle.std.specs.Prelude.{◌≡◌, ◌∷◌, [], IfOk, string_bytes, option_map};
ghost use Rattle.std.specs.Int.{w64, cast_unsigned};
ghost use Rattle.zarr_model.specs.Codec.{low_bytes};
ghost use Rattle.zarrs_data_type_bytes.specs.FillValue.{fill_bytes, bool_byte, option_bytes};

use crate::FillValue;
use std::alloc::{AllocError, Global};

impl From<Vec<u8>> for FillValue {
    ghost from_gives = { λ bytes fill. fill_bytes fill ≡ bytes.items };

    fn from(bytes: Vec<u8>) -> FillValue {
        FillValue::new(bytes)
    }
}

impl From<String> for FillValue {
    ghost from_gives = { λ text fill. fill_bytes fill ≡ string_bytes text };

    fn from(text: String) -> FillValue {
        FillValue::new(text.into_bytes())
    }
}

impl FillValue {
    /// The fill value with a copy of these bytes.
    ///
    /// # Errors
    /// [`AllocError`] where memory runs out.
    pub fn from_slice(alloc: Global, bytes: &[u8]) -> Result<Self, AllocError>
        ensures { IfOk result (λ fill. fill_bytes fill ≡ bytes.now) }
    {
        let bytes = Vec::from_slice(alloc, bytes)?;
        Ok(FillValue::new(bytes))
    }

    /// The fill value with these bytes.
    ///
    /// # Errors
    /// [`AllocError`] where memory runs out.
    pub fn from_array<const N: usize>(alloc: Global, bytes: [u8; N]) -> Result<Self, AllocError>
        ensures { IfOk result (λ fill. fill_bytes fill ≡ bytes.entry) }
    {
        let bytes = Vec::from_array(alloc, bytes)?;
        Ok(FillValue::new(bytes))
    }

    /// The fill value whose bytes are a text.
    ///
    /// # Errors
    /// [`AllocError`] where memory runs out.
    pub fn from_text(alloc: Global, text: &str) -> Result<Self, AllocError>
        ensures { IfOk result (λ fill. fill_bytes fill ≡ text.now) }
    {
        FillValue::from_slice(alloc, text.as_bytes())
    }

    /// The fill value with the lowest `size` bytes of a number, the lowest first.
    ///
    /// # Errors
    /// [`AllocError`] where memory runs out.
    #[tactic(auto, using(crate::proofs::LowLaws::next_low, crate::proofs::LowLaws::all_low))]
    pub fn from_low_bytes(alloc: Global, number: u64, size: usize) -> Result<Self, AllocError>
        ensures { IfOk result (λ fill. fill_bytes fill ≡ low_bytes size number) }
    {
        let mut bytes = Vec::with_capacity(alloc, size)?;
        let mut rest = number;
        for _ in 0..size {
            bytes.push((rest % 256) as u8)?;
            rest /= 256;
        }
        Ok(FillValue::new(bytes))
    }

    /// The fill value of a truth: one byte, 1 for true and 0 for false.
    ///
    /// # Errors
    /// [`AllocError`] where memory runs out.
    pub fn from_bool(alloc: Global, value: bool) -> Result<Self, AllocError>
        ensures { IfOk result (λ fill. fill_bytes fill ≡ bool_byte value ∷ []) }
    {
        let bytes = vec![in alloc; u8::from(value)]?;
        Ok(FillValue::new(bytes))
    }

    /// The fill value of a number of one byte.
    ///
    /// # Errors
    /// [`AllocError`] where memory runs out.
    pub fn from_u8(alloc: Global, value: u8) -> Result<Self, AllocError>
        ensures { IfOk result (λ fill. fill_bytes fill ≡ low_bytes 1 value) }
    {
        FillValue::from_low_bytes(alloc, value as u64, 1)
    }

    /// The fill value of a number of 2 bytes.
    ///
    /// # Errors
    /// [`AllocError`] where memory runs out.
    pub fn from_u16(alloc: Global, value: u16) -> Result<Self, AllocError>
        ensures { IfOk result (λ fill. fill_bytes fill ≡ low_bytes 2 value) }
    {
        FillValue::from_low_bytes(alloc, value as u64, 2)
    }

    /// The fill value of a number of 4 bytes.
    ///
    /// # Errors
    /// [`AllocError`] where memory runs out.
    pub fn from_u32(alloc: Global, value: u32) -> Result<Self, AllocError>
        ensures { IfOk result (λ fill. fill_bytes fill ≡ low_bytes 4 value) }
    {
        FillValue::from_low_bytes(alloc, value as u64, 4)
    }

    /// The fill value of a number of 8 bytes.
    ///
    /// # Errors
    /// [`AllocError`] where memory runs out.
    pub fn from_u64(alloc: Global, value: u64) -> Result<Self, AllocError>
        ensures { IfOk result (λ fill. fill_bytes fill ≡ low_bytes 8 value) }
    {
        FillValue::from_low_bytes(alloc, value, 8)
    }

    /// The fill value of a signed number of one byte.
    ///
    /// # Errors
    /// [`AllocError`] where memory runs out.
    pub fn from_i8(alloc: Global, value: i8) -> Result<Self, AllocError>
        ensures { IfOk result (λ fill. fill_bytes fill ≡ low_bytes 1 (cast_unsigned w64 value)) }
    {
        FillValue::from_low_bytes(alloc, (value as i64).cast_unsigned(), 1)
    }

    /// The fill value of a signed number of 2 bytes.
    ///
    /// # Errors
    /// [`AllocError`] where memory runs out.
    pub fn from_i16(alloc: Global, value: i16) -> Result<Self, AllocError>
        ensures { IfOk result (λ fill. fill_bytes fill ≡ low_bytes 2 (cast_unsigned w64 value)) }
    {
        FillValue::from_low_bytes(alloc, (value as i64).cast_unsigned(), 2)
    }

    /// The fill value of a signed number of 4 bytes.
    ///
    /// # Errors
    /// [`AllocError`] where memory runs out.
    pub fn from_i32(alloc: Global, value: i32) -> Result<Self, AllocError>
        ensures { IfOk result (λ fill. fill_bytes fill ≡ low_bytes 4 (cast_unsigned w64 value)) }
    {
        FillValue::from_low_bytes(alloc, (value as i64).cast_unsigned(), 4)
    }

    /// The fill value of a signed number of 8 bytes.
    ///
    /// # Errors
    /// [`AllocError`] where memory runs out.
    pub fn from_i64(alloc: Global, value: i64) -> Result<Self, AllocError>
        ensures { IfOk result (λ fill. fill_bytes fill ≡ low_bytes 8 (cast_unsigned w64 value)) }
    {
        FillValue::from_low_bytes(alloc, value.cast_unsigned(), 8)
    }

    /// The fill value without bytes.
    pub fn from_unit(alloc: Global) -> Self
        ensures { fill_bytes result ≡ [] }
    {
        FillValue::new(Vec::new(alloc))
    }

    /// The fill value of an optional type: null, or some of a fill value of the inner type.
    ///
    /// # Errors
    /// [`AllocError`] where memory runs out.
    pub fn from_option(alloc: Global, value: Option<FillValue>) -> Result<Self, AllocError>
        ensures { IfOk result (λ fill.
            fill_bytes fill ≡ option_bytes (option_map fill_bytes value)) }
    {
        match value {
            None => FillValue::new_optional_null(alloc),
            Some(inner) => inner.into_optional(),
        }
    }
}
