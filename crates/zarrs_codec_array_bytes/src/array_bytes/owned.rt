//! Array bytes that are owned, and copies.

ghost use Rattle.std.specs.Prelude.{◌≡◌, true, IfOk};
ghost use Rattle.zarrs_codec_array_bytes.specs.Raw.{raw_of, optional_of};
ghost use Rattle.zarrs_codec_array_bytes.specs.Owned.{is_owned, owns_optional};

use super::{ArrayBytes, ArrayBytesOptional, bytes_in};
use std::alloc::{AllocError, Global};
use std::borrow::CowSlice;

impl<'a> ArrayBytes<'a> {
    /// The same elements, owned.
    ///
    /// # Errors
    /// [`AllocError`] where memory runs out.
    #[cycle(own)]
    pub fn into_owned(self, alloc: Global) -> Result<ArrayBytes<'static>, AllocError>
        ensures value { IfOk result (λ b. raw_of b ≡ raw_of self.entry) }
        ensures owned { IfOk result (λ b. is_owned b ≡ true) }
    {
        match self {
            ArrayBytes::Fixed(bytes) => {
                let bytes = bytes.into_owned(alloc)?;
                Ok(ArrayBytes::Fixed(CowSlice::Owned(bytes)))
            }
            ArrayBytes::Variable(variable) => {
                let variable = variable.into_owned(alloc)?;
                Ok(ArrayBytes::Variable(variable))
            }
            ArrayBytes::Optional(optional) => {
                let optional = optional.into_owned(alloc)?;
                Ok(ArrayBytes::Optional(optional))
            }
        }
    }

    /// A copy, which is owned.
    ///
    /// # Errors
    /// [`AllocError`] where memory runs out.
    #[cycle(copy)]
    pub fn try_clone(&self, alloc: Global) -> Result<ArrayBytes<'static>, AllocError>
        ensures value { IfOk result (λ c. raw_of c ≡ raw_of self.now) }
        ensures owned { IfOk result (λ c. is_owned c ≡ true) }
    {
        match self {
            ArrayBytes::Fixed(bytes) => {
                let bytes = bytes_in(bytes).to_vec(alloc)?;
                Ok(ArrayBytes::Fixed(CowSlice::Owned(bytes)))
            }
            ArrayBytes::Variable(variable) => {
                let variable = variable.try_clone(alloc)?;
                Ok(ArrayBytes::Variable(variable))
            }
            ArrayBytes::Optional(optional) => {
                let optional = optional.try_clone(alloc)?;
                Ok(ArrayBytes::Optional(optional))
            }
        }
    }
}

impl<'a> ArrayBytesOptional<'a> {
    /// The same elements, owned.
    ///
    /// # Errors
    /// [`AllocError`] where memory runs out.
    #[cycle(own)]
    pub fn into_owned(self, alloc: Global) -> Result<ArrayBytesOptional<'static>, AllocError>
        ensures value { IfOk result (λ b. optional_of b ≡ optional_of self.entry) }
        ensures owned { IfOk result (λ b. owns_optional b ≡ true) }
    {
        let ArrayBytesOptional { inner, mask } = self;
        let inner = Box::into_inner(inner).into_owned(alloc)?;
        let inner = Box::new(alloc, inner)?;
        let mask = mask.into_owned(alloc)?;
        Ok(ArrayBytesOptional {
            inner,
            mask: CowSlice::Owned(mask),
        })
    }

    /// A copy, which is owned.
    ///
    /// # Errors
    /// [`AllocError`] where memory runs out.
    #[cycle(copy)]
    pub fn try_clone(&self, alloc: Global) -> Result<ArrayBytesOptional<'static>, AllocError>
        ensures value { IfOk result (λ c. optional_of c ≡ optional_of self.now) }
        ensures owned { IfOk result (λ c. owns_optional c ≡ true) }
    {
        let inner = self.data().try_clone(alloc)?;
        let inner = Box::new(alloc, inner)?;
        let mask = self.flags().to_vec(alloc)?;
        Ok(ArrayBytesOptional {
            inner,
            mask: CowSlice::Owned(mask),
        })
    }
}
