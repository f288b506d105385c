//! Optional types, whose elements are null or some of an element of another type.

ghost use Rattle.std.specs.Prelude.{◌≡◌, ◌-◌, IfOk, Some, is_some, length, take, option_map, string_bytes, codes, refl};
ghost use Rattle.zarrs_plugin.specs.declared.zarr_version.ZarrVersion.{ZarrVersion};
ghost use Rattle.zarrs_metadata_values.specs.Configuration.{configuration_seen};
ghost use Rattle.zarrs_metadata_values.specs.FillValueMetadata.{fill_view};
ghost use Rattle.zarrs_data_type_bytes.specs.FillValue.{fill_bytes};
ghost use Rattle.zarrs_data_type_bytes.specs.Pieces.{ends_in_zero};
ghost use Rattle.zarrs_data_type.specs.DataType.{type_of, size_of};
ghost use Rattle.zarrs_data_type.specs.Naming.{type_name, type_configuration};
ghost use Rattle.zarr_model.specs.DataTypeSize.{size_seen};
ghost use Rattle.zarrs_data_type.specs.FillMetadata.{fill_of, Fills};
ghost use Rattle.zarrs_data_type.specs.Optional.{inner_type, optional_type_seen};

use crate::data_type_traits::{DataTypeTraits, are_equal};
use crate::fill_metadata::{FillMetadataFault, fill_from_metadata, optional_fill};
use crate::metadata_of_fill::{FillFault, optional_metadata};
use crate::{DataType, optional_members, type_size};
use std::alloc::{AllocError, Global};
use zarr_model::DataTypeSize;
use zarrs_data_type_bytes::FillValue;
use zarrs_metadata_parts::{Configuration, FillValueMetadata};
use zarrs_plugin::{ExtensionName, ZarrVersion};

/// An optional type, as the type inside.
#[derive(Debug, Drop)]
pub struct OptionalDataType {
    inner: DataType,
}

impl OptionalDataType {
    /// The optional type over this one.
    pub fn new(inner: DataType) -> Self
        ensures { inner_type result ≡ type_of inner }
    {
        OptionalDataType { inner }
    }

    /// The type inside.
    pub fn inner(&self) -> &DataType
        ensures { type_of result.now ≡ inner_type self.now }
    {
        &self.inner
    }

    /// The type inside, taken out.
    pub fn into_inner(self) -> DataType
        ensures { type_of result ≡ inner_type self }
    {
        self.inner
    }

    /// The type inside, as [`OptionalDataType::inner`].
    pub fn data_type(&self) -> &DataType
        ensures { type_of result.now ≡ inner_type self.now }
    {
        &self.inner
    }

    /// The size of the elements of the type inside.
    pub fn inner_size(&self) -> DataTypeSize
        ensures { size_seen result ≡ size_of (inner_type self.now) }
    {
        type_size(&self.inner)
    }

    /// Whether all elements of the type inside have one size.
    pub fn is_fixed(&self) -> bool
        ensures { result ≡ is_some (size_of (optional_type_seen self.now)) }
    {
        self.inner.is_fixed()
    }

    /// The size of the elements of the type inside in bytes, if all have the same.
    pub fn fixed_size(&self) -> Option<usize>
        ensures { result ≡ size_of (optional_type_seen self.now) }
    {
        self.inner.fixed_size()
    }

    /// Whether a fill value of this type is null, which is so exactly where its last byte is 0.
    pub fn is_fill_value_null(&self, fill_value: &FillValue) -> bool
        ensures { result ≡ ends_in_zero (fill_bytes fill_value.now) }
    {
        fill_value.is_optional_null()
    }

    /// The bytes of a fill value without the last, and none where there are none.
    pub fn fill_value_inner_bytes<'a>(&self, fill_value: &'a FillValue) -> &'a [u8]
        ensures { result.now
            ≡ take (length (fill_bytes fill_value.now) - 1) (fill_bytes fill_value.now) }
    {
        fill_value.inner_bytes()
    }

    /// The configuration in the metadata of a version: the name of the type inside, which is empty where it has none
    /// there, and its configuration.
    ///
    /// # Errors
    /// [`AllocError`] where memory runs out.
    pub fn configuration(
        &self,
        alloc: Global,
        version: ZarrVersion,
    ) -> Result<Configuration, AllocError>
        ensures { IfOk result (λ c. configuration_seen c
            ≡ type_configuration version (optional_type_seen self.now)) }
    {
        Ok(Configuration::new(optional_members(alloc, &self.inner, version)?))
    }

    /// The fill value of the type inside that metadata gives. That of the optional type is `fill_value`.
    ///
    /// # Errors
    /// [`FillMetadataFault::Metadata`] exactly where the metadata is no fill value of the type inside.
    pub fn fill_value_from_metadata(
        &self,
        alloc: Global,
        fill_value: &FillValueMetadata,
        _version: ZarrVersion,
    ) -> Result<FillValue, FillMetadataFault>
        ensures { Fills result (fill_of (inner_type self.now) (fill_view fill_value.now)) }
    {
        fill_from_metadata(alloc, &self.inner, fill_value)
    }

    /// A copy.
    ///
    /// # Errors
    /// [`AllocError`] where memory runs out.
    pub fn try_clone(&self, alloc: Global) -> Result<Self, AllocError>
        ensures { IfOk result (λ copy. inner_type copy ≡ inner_type self.now) }
    {
        let inner = self.inner.try_clone(alloc)?;
        Ok(OptionalDataType { inner })
    }
}

impl ExtensionName for OptionalDataType {
    ghost name_in = { λ o version. type_name version (optional_type_seen o) };

    fn name(&self, alloc: Global, version: ZarrVersion) -> Result<Option<String>, AllocError> {
        optional_name(alloc, version)
    }
}

// An optional type has its name in both versions.
fn optional_name(alloc: Global, _version: ZarrVersion) -> Result<Option<String>, AllocError>
    ensures { IfOk result (λ name. option_map string_bytes name ≡ Some (codes "zarrs.optional")) }
{
    let name = String::from_str(alloc, "zarrs.optional")?;
    Ok(Some(name))
}

impl DataTypeTraits for OptionalDataType {
    ghost type_seen = { optional_type_seen };

    ghost goes_by_name = { λ _ _. refl };

    fn configuration(
        &self,
        alloc: Global,
        version: ZarrVersion,
    ) -> Result<Configuration, AllocError> {
        Ok(Configuration::new(optional_members(alloc, &self.inner, version)?))
    }

    fn size(&self) -> DataTypeSize {
        type_size(&self.inner)
    }

    fn fill_value(
        &self,
        alloc: Global,
        fill_value_metadata: &FillValueMetadata,
        _version: ZarrVersion,
    ) -> Result<FillValue, FillMetadataFault> {
        optional_fill(alloc, &self.inner, fill_value_metadata)
    }

    fn metadata_fill_value(
        &self,
        alloc: Global,
        fill_value: &FillValue,
    ) -> Result<FillValueMetadata, FillFault> {
        optional_metadata(alloc, &self.inner, fill_value.as_ne_bytes())
    }

    fn eq(&self, other: &Self) -> bool {
        are_equal(&self.inner, &other.inner)
    }
}
