//! Parts of documents: what stands as one value, lists of it, and what may be null.

ghost use Rattle.std.specs.Prelude.{◌≡◌, ℕ, List, Option, Some, IfOk, map, option_map, string_bytes};
ghost use Rattle.std.specs.Int.NonZero.{non_zero_u64_get};
ghost use Rattle.serde_json.specs.Data.{Data, string};
ghost use Rattle.serde_json.specs.Find.{as_str};
ghost use Rattle.serde_json.specs.View.{view, items_view};
ghost use Rattle.zarrs_metadata_values.specs.Reading.{Reads, each, list_by, null_or, positive_number};
ghost use Rattle.zarrs_metadata_values.specs.Writing.{list_data, null_or_data, number_data};

use serde_json::Value;
use std::alloc::{AllocError, Global};
use std::num::NonZeroU64;
use zarrs_metadata_values::MetadataError;
use zarrs_metadata_values::json::{read_list, read_positive_number, read_text};

/// What stands as one value in documents: it is read of a value, written as one, and copied.
pub trait Part: Sized + Drop {
    // What such parts say, and what one of them says.
    ghost Said: { Type 0 };

    ghost seen: { Self → Said };

    // What a value says, and the value that says it.
    ghost form: { Data → Option Said };

    ghost written: { Said → Data };

    /// The part that a value says.
    ///
    /// # Errors
    /// `InvalidMetadata` exactly where it says none. Floats were looked for before.
    fn read(alloc: Global, value: &Value) -> Result<Self, MetadataError>
        ensures { Reads seen result (form (view value.now)) };

    /// The value that says the part.
    ///
    /// # Errors
    /// [`AllocError`] where memory runs out.
    fn write(&self, alloc: Global) -> Result<Value, AllocError>
        ensures { IfOk result (λ v. view v ≡ written (seen self.now)) };

    /// A copy.
    ///
    /// # Errors
    /// [`AllocError`] where memory runs out.
    fn copy(&self, alloc: Global) -> Result<Self, AllocError>
        ensures { IfOk result (λ copy. seen copy ≡ seen self.now) };
}

/// The parts that items say.
///
/// # Errors
/// `InvalidMetadata` exactly where an item says none.
#[tactic(auto, using(zarrs_metadata_values::proofs::EachLemmas::each_push, zarrs_metadata_values::proofs::EachLemmas::each_fails))]
pub fn read_each<T: Part>(alloc: Global, items: &[Value]) -> Result<Vec<T>, MetadataError>
    ensures { Reads (λ v. map T.seen v.items) result (each T.form (items_view items.now)) }
{
    let mut parts = Vec::with_capacity(alloc, items.len())?;
    for item in items {
        match T::read(alloc, item) {
            Ok(part) => parts.push(part)?,
            Err(e) => return Err(e),
        }
    }
    Ok(parts)
}

/// The list that says these parts.
///
/// # Errors
/// [`AllocError`] where memory runs out.
pub fn list_value<T: Part>(alloc: Global, parts: &[T]) -> Result<Value, AllocError>
    ensures { IfOk result (λ v. view v ≡ list_data T.written (map T.seen parts.now)) }
{
    let mut items = Vec::with_capacity(alloc, parts.len())?;
    for part in parts {
        items.push(part.write(alloc)?)?;
    }
    Ok(Value::Array(items))
}

/// A copy of a list of parts.
///
/// # Errors
/// [`AllocError`] where memory runs out.
pub fn copy_each<T: Part>(alloc: Global, parts: &[T]) -> Result<Vec<T>, AllocError>
    ensures { IfOk result (λ copies. map T.seen copies.items ≡ map T.seen parts.now) }
{
    let mut copies = Vec::with_capacity(alloc, parts.len())?;
    for part in parts {
        copies.push(part.copy(alloc)?)?;
    }
    Ok(copies)
}

// A list of parts.
impl<T: Part> Part for Vec<T> {
    ghost Said = { List T.Said };

    ghost seen = { λ v. map T.seen v.items };

    ghost form = { list_by T.form };

    ghost written = { list_data T.written };

    fn read(alloc: Global, value: &Value) -> Result<Self, MetadataError> {
        read_each(alloc, read_list(value)?)
    }

    fn write(&self, alloc: Global) -> Result<Value, AllocError> {
        list_value(alloc, self)
    }

    fn copy(&self, alloc: Global) -> Result<Self, AllocError> {
        copy_each(alloc, self)
    }
}

// A part, or null for none.
impl<T: Part> Part for Option<T> {
    ghost Said = { Option T.Said };

    ghost seen = { option_map T.seen };

    ghost form = { null_or T.form };

    ghost written = { null_or_data T.written };

    fn read(alloc: Global, value: &Value) -> Result<Self, MetadataError> {
        match value {
            Value::Null => Ok(None),
            value => Ok(Some(T::read(alloc, value)?)),
        }
    }

    fn write(&self, alloc: Global) -> Result<Value, AllocError> {
        match self {
            None => Ok(Value::Null),
            Some(part) => part.write(alloc),
        }
    }

    fn copy(&self, alloc: Global) -> Result<Self, AllocError> {
        match self {
            None => Ok(None),
            Some(part) => Ok(Some(part.copy(alloc)?)),
        }
    }
}

// A text.
impl Part for String {
    ghost Said = { List ℕ };

    ghost seen = { string_bytes };

    ghost form = { as_str };

    ghost written = { string };

    fn read(alloc: Global, value: &Value) -> Result<Self, MetadataError> {
        Ok(String::from_str(alloc, read_text(value)?)?)
    }

    fn write(&self, alloc: Global) -> Result<Value, AllocError> {
        Value::try_from_str(alloc, self.as_str())
    }

    fn copy(&self, alloc: Global) -> Result<Self, AllocError> {
        String::from_str(alloc, self.as_str())
    }
}

// A positive number.
impl Part for NonZeroU64 {
    ghost Said = { ℕ };

    ghost seen = { non_zero_u64_get };

    ghost form = { positive_number };

    ghost written = { number_data };

    fn read(_alloc: Global, value: &Value) -> Result<Self, MetadataError> {
        read_positive_number(value)
    }

    fn write(&self, _alloc: Global) -> Result<Value, AllocError> {
        Ok(Value::from(self.get()))
    }

    fn copy(&self, _alloc: Global) -> Result<Self, AllocError> {
        Ok(*self)
    }
}
