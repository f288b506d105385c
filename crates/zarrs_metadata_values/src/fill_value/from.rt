//! Fill values from booleans, texts, lists, objects and whole numbers.

ghost use Rattle.std.specs.Prelude.{◌≡◌, string_bytes};
ghost use Rattle.serde_json.specs.Data.{boolean, number, string, array, object, unsigned};
ghost use Rattle.serde_json.specs.Find.{of_integer};
ghost use Rattle.zarrs_metadata_values.specs.FillValueMetadata.{fill_view, fills_view, fields_view};

use crate::fill_value::FillValueMetadataV3;
use serde_json::Number;
use std::collections::BTreeMap;

impl From<bool> for FillValueMetadataV3 {
    ghost from_gives = { λ b fill. fill_view fill ≡ boolean b };

    fn from(b: bool) -> FillValueMetadataV3 {
        FillValueMetadataV3::Bool(b)
    }
}

impl From<String> for FillValueMetadataV3 {
    ghost from_gives = { λ text fill. fill_view fill ≡ string (string_bytes text) };

    fn from(text: String) -> FillValueMetadataV3 {
        FillValueMetadataV3::String(text)
    }
}

impl From<Vec<FillValueMetadataV3>> for FillValueMetadataV3 {
    ghost from_gives = { λ fills fill. fill_view fill ≡ array (fills_view fills.items) };

    fn from(fills: Vec<FillValueMetadataV3>) -> FillValueMetadataV3 {
        FillValueMetadataV3::Array(fills)
    }
}

impl From<BTreeMap<String, FillValueMetadataV3>> for FillValueMetadataV3 {
    ghost from_gives = { λ fields fill. fill_view fill ≡ object (fields_view fields.entries) };

    fn from(fields: BTreeMap<String, FillValueMetadataV3>) -> FillValueMetadataV3 {
        FillValueMetadataV3::Object(fields)
    }
}

impl From<u8> for FillValueMetadataV3 {
    ghost from_gives = { λ n fill. fill_view fill ≡ number (unsigned n) };

    fn from(number: u8) -> FillValueMetadataV3 {
        FillValueMetadataV3::Number(Number::from(number))
    }
}

impl From<u16> for FillValueMetadataV3 {
    ghost from_gives = { λ n fill. fill_view fill ≡ number (unsigned n) };

    fn from(number: u16) -> FillValueMetadataV3 {
        FillValueMetadataV3::Number(Number::from(number))
    }
}

impl From<u32> for FillValueMetadataV3 {
    ghost from_gives = { λ n fill. fill_view fill ≡ number (unsigned n) };

    fn from(number: u32) -> FillValueMetadataV3 {
        FillValueMetadataV3::Number(Number::from(number))
    }
}

impl From<u64> for FillValueMetadataV3 {
    ghost from_gives = { λ n fill. fill_view fill ≡ number (unsigned n) };

    fn from(number: u64) -> FillValueMetadataV3 {
        FillValueMetadataV3::Number(Number::from(number))
    }
}

impl From<i8> for FillValueMetadataV3 {
    ghost from_gives = { λ n fill. fill_view fill ≡ number (of_integer n) };

    fn from(number: i8) -> FillValueMetadataV3 {
        FillValueMetadataV3::Number(Number::from(number))
    }
}

impl From<i16> for FillValueMetadataV3 {
    ghost from_gives = { λ n fill. fill_view fill ≡ number (of_integer n) };

    fn from(number: i16) -> FillValueMetadataV3 {
        FillValueMetadataV3::Number(Number::from(number))
    }
}

impl From<i32> for FillValueMetadataV3 {
    ghost from_gives = { λ n fill. fill_view fill ≡ number (of_integer n) };

    fn from(number: i32) -> FillValueMetadataV3 {
        FillValueMetadataV3::Number(Number::from(number))
    }
}

impl From<i64> for FillValueMetadataV3 {
    ghost from_gives = { λ n fill. fill_view fill ≡ number (of_integer n) };

    fn from(number: i64) -> FillValueMetadataV3 {
        FillValueMetadataV3::Number(Number::from(number))
    }
}
