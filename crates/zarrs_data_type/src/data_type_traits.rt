//! What every data type tells of itself, and how one is made from metadata.

ghost use Rattle.std.specs.Prelude.{◌≡◌, ◌↔◌, IsTrue, IfOk, refl};
ghost use Rattle.zarr_model.specs.Element as Model;
ghost use Rattle.zarrs_plugin.specs.Registry.{registry_of};
ghost use Rattle.zarrs_plugin.specs.declared.zarr_version.ZarrVersion.{ZarrVersion};
ghost use Rattle.zarrs_plugin.specs.declared.zarr_version.ZarrVersion.TheVariants as version;
ghost use Rattle.zarrs_metadata_values.specs.Configuration.{configuration_seen};
ghost use Rattle.zarrs_metadata_values.specs.FillValueMetadata.{fill_view};
ghost use Rattle.zarrs_metadata_parts.specs.MetadataV3.{extension_seen};
ghost use Rattle.zarrs_metadata_parts.specs.DataTypeV2.{data_type_v2_seen};
ghost use Rattle.zarrs_data_type_bytes.specs.FillValue.{fill_bytes};
ghost use Rattle.zarrs_data_type.specs.DataType.{type_of, size_of};
ghost use Rattle.zarrs_data_type.specs.Naming.{type_name, type_configuration};
ghost use Rattle.zarr_model.specs.DataTypeSize.{size_seen};
ghost use Rattle.zarrs_data_type.specs.FillMetadata.{fill_of, Fills, fill_metadata_of, TellsFill};
ghost use Rattle.zarrs_data_type.specs.Making.{MakesType, type_by, type_by_v2};

use crate::fill_metadata::{FillMetadataFault, fill_from_metadata};
use crate::metadata_of_fill::{FillFault, metadata_of_fill};
use crate::{DataType, DataTypeKind, DataTypeMetadata, type_members, type_size};
use std::alloc::{AllocError, Global};
use zarr_model::DataTypeSize;
use zarrs_data_type_bytes::FillValue;
use zarrs_metadata_parts::{Configuration, DataTypeMetadataV2, FillValueMetadata, MetadataV3};
use zarrs_plugin::{ExtensionName, PluginCreateError, Registry, ZarrVersion};

/// What a data type tells of itself.
pub trait DataTypeTraits: ExtensionName {
    // The data type that it stands for.
    ghost type_seen: { Self → Model.DataType };

    /// The configuration in the metadata of a version, which is empty but for optional types.
    ///
    /// # Errors
    /// [`AllocError`] where memory runs out.
    fn configuration(
        &self,
        alloc: Global,
        version: ZarrVersion,
    ) -> Result<Configuration, AllocError>
        ensures { IfOk result (λ c. configuration_seen c
            ≡ type_configuration version (type_seen self.now)) };

    /// The configuration in version 3 metadata.
    ///
    /// # Errors
    /// [`AllocError`] where memory runs out.
    final fn configuration_v3(&self, alloc: Global) -> Result<Configuration, AllocError>
        ensures { IfOk result (λ c. configuration_seen c
            ≡ type_configuration version.V3 (type_seen self.now)) }
    {
        self.configuration(alloc, ZarrVersion::V3)
    }

    /// The configuration in version 2 metadata.
    ///
    /// # Errors
    /// [`AllocError`] where memory runs out.
    final fn configuration_v2(&self, alloc: Global) -> Result<Configuration, AllocError>
        ensures { IfOk result (λ c. configuration_seen c
            ≡ type_configuration version.V2 (type_seen self.now)) }
    {
        self.configuration(alloc, ZarrVersion::V2)
    }

    /// The size of the elements; that of an optional type is the size of the type inside.
    fn size(&self) -> DataTypeSize
        ensures { size_seen result ≡ size_of (type_seen self.now) };

    /// The fill value that metadata gives, which is read alike in both versions.
    ///
    /// # Errors
    /// [`FillMetadataFault::Metadata`] exactly where the metadata is no fill value of the type.
    fn fill_value(
        &self,
        alloc: Global,
        fill_value_metadata: &FillValueMetadata,
        version: ZarrVersion,
    ) -> Result<FillValue, FillMetadataFault>
        ensures { Fills result (fill_of (type_seen self.now) (fill_view fill_value_metadata.now)) };

    /// The fill value that version 2 metadata gives.
    ///
    /// # Errors
    /// [`FillMetadataFault::Metadata`] exactly where the metadata is no fill value of the type.
    final fn fill_value_v2(
        &self,
        alloc: Global,
        fill_value_metadata: &FillValueMetadata,
    ) -> Result<FillValue, FillMetadataFault>
        ensures { Fills result (fill_of (type_seen self.now) (fill_view fill_value_metadata.now)) }
    {
        self.fill_value(alloc, fill_value_metadata, ZarrVersion::V2)
    }

    /// The fill value that version 3 metadata gives.
    ///
    /// # Errors
    /// [`FillMetadataFault::Metadata`] exactly where the metadata is no fill value of the type.
    final fn fill_value_v3(
        &self,
        alloc: Global,
        fill_value_metadata: &FillValueMetadata,
    ) -> Result<FillValue, FillMetadataFault>
        ensures { Fills result (fill_of (type_seen self.now) (fill_view fill_value_metadata.now)) }
    {
        self.fill_value(alloc, fill_value_metadata, ZarrVersion::V3)
    }

    /// What metadata says of a fill value. It gives a fill value that denotes the same element.
    ///
    /// # Errors
    /// [`FillFault::Value`] exactly where the bytes of the fill value denote no fill of the type: where they are of
    /// another length, are a boolean past 1 or a text that is not UTF-8, or, under an optional type, are empty or end
    /// in another byte than 0 and without it denote no fill of the type inside.
    fn metadata_fill_value(
        &self,
        alloc: Global,
        fill_value: &FillValue,
    ) -> Result<FillValueMetadata, FillFault>
        ensures { TellsFill result
            (fill_metadata_of (type_seen self.now) (fill_bytes fill_value.now)) };

    /// Whether another type is the same.
    fn eq(&self, other: &Self) -> bool
        ensures { IsTrue result ↔ (type_seen self.now ≡ type_seen other.now) };

    // The names are those of the type.
    ghost goes_by_name: { (x : Self) (v : ZarrVersion) → Self.name_in x v
        ≡ type_name v (type_seen x) };
}

/// A data type that is made from version 3 metadata.
pub trait DataTypeTraitsV3: Sized {
    // The data type that it stands for.
    ghost created_v3: { Self → Model.DataType };

    /// The data type that an extension names, by the names of a registry.
    ///
    /// # Errors
    /// As [`DataType::from_metadata`].
    fn create(
        alloc: Global,
        metadata: &MetadataV3,
        registry: &Registry<DataTypeKind>,
    ) -> Result<Self, PluginCreateError>
        ensures { MakesType created_v3 result
            (type_by (registry_of registry.now) (extension_seen metadata.now)) };
}

/// A data type that is made from version 2 metadata.
pub trait DataTypeTraitsV2: Sized {
    // The data type that it stands for.
    ghost created_v2: { Self → Model.DataType };

    /// The data type that the `dtype` of a document names, by the names of a registry.
    ///
    /// # Errors
    /// As [`DataType::from_metadata`].
    fn create(
        alloc: Global,
        metadata: &DataTypeMetadataV2,
        registry: &Registry<DataTypeKind>,
    ) -> Result<Self, PluginCreateError>
        ensures { MakesType created_v2 result
            (type_by_v2 (registry_of registry.now) (data_type_v2_seen metadata.now)) };
}

impl DataTypeTraits for DataType {
    ghost type_seen = { type_of };

    ghost goes_by_name = { λ _ _. refl };

    fn configuration(
        &self,
        alloc: Global,
        version: ZarrVersion,
    ) -> Result<Configuration, AllocError> {
        Ok(Configuration::new(type_members(alloc, self, version)?))
    }

    fn size(&self) -> DataTypeSize {
        type_size(self)
    }

    fn fill_value(
        &self,
        alloc: Global,
        fill_value_metadata: &FillValueMetadata,
        _version: ZarrVersion,
    ) -> Result<FillValue, FillMetadataFault> {
        fill_from_metadata(alloc, self, fill_value_metadata)
    }

    fn metadata_fill_value(
        &self,
        alloc: Global,
        fill_value: &FillValue,
    ) -> Result<FillValueMetadata, FillFault> {
        metadata_of_fill(alloc, self, fill_value.as_ne_bytes())
    }

    fn eq(&self, other: &Self) -> bool {
        are_equal(self, other)
    }
}

// Whether two types are the same, by their equality.
#[tactic(auto, using(crate::proofs::SameTypeLaws::same_is))]
pub(crate) fn are_equal(data_type: &DataType, other: &DataType) -> bool
    ensures { IsTrue result ↔ (type_of data_type.now ≡ type_of other.now) }
{
    *data_type == *other
}

impl DataTypeTraitsV3 for DataType {
    ghost created_v3 = { type_of };

    fn create(
        alloc: Global,
        metadata: &MetadataV3,
        registry: &Registry<DataTypeKind>,
    ) -> Result<Self, PluginCreateError> {
        DataType::from_metadata(alloc, DataTypeMetadata::V3(metadata), registry)
    }
}

impl DataTypeTraitsV2 for DataType {
    ghost created_v2 = { type_of };

    fn create(
        alloc: Global,
        metadata: &DataTypeMetadataV2,
        registry: &Registry<DataTypeKind>,
    ) -> Result<Self, PluginCreateError> {
        DataType::from_metadata(alloc, DataTypeMetadata::V2(metadata), registry)
    }
}
