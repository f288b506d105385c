//! References by their keys, tested against the store that they refer to.

ghost use Rattle.std.specs.Prelude.{◌≡◌, ℕ, ◌≤◌, true, List, length, None, IfOk, IfErr, OnOk};
ghost use Rattle.std.specs.List.{list_all};
ghost use Rattle.zarrs_storage.specs.Store.{SameContent};
ghost use Rattle.zarr_refs.specs.References.{first_repeated, unfit, reference_unfit, IsRepeat, IsUnfit, IsRefusedRefs, IsAsked};
ghost use Rattle.zarr_refs.specs.Slices.{slice_by, slice_at, slice_named, slice_held, sliced, is_bounded, is_slice_within};

use crate::reference::{RefError, Reference};
use std::alloc::Global;
use std::collections::BTreeMap;
use zarrs_storage::{StorageError, Store, StoreKey};

/// A part of the value under a key.
#[derive(Debug, Drop)]
pub struct Slice {
    pub(crate) base: StoreKey,
    pub(crate) offset: u64,
    pub(crate) length: u64,
}

/// The slice under each key.
pub type Slices = BTreeMap<StoreKey, Slice>;

// The slice that a reference is to.
fn slice_of(alloc: Global, reference: &Reference) -> Result<Slice, RefError>
    ensures slice { IfOk result (λ s. s ≡ record {
      base = reference.now.base;
      offset = reference.now.offset;
      length = reference.now.length;
    }) }
    ensures memory { IfErr result (λ e. e ≡ RefError.OutOfMemory) }
{
    let base = reference.base.try_clone(alloc)?;
    Ok(Slice {
        base,
        offset: reference.offset,
        length: reference.length,
    })
}

/// The slices of references by their keys.
///
/// # Errors
/// [`RefError::RepeatedKey`] exactly where a reference has the key of an earlier one, the first such one, or
/// [`RefError::OutOfMemory`].
pub fn keep_slices(alloc: Global, references: &[Reference]) -> Result<Slices, RefError>
    ensures kept { IfOk result (λ slices. (key : List ℕ) →
        slice_at slices key ≡ slice_named key references.now) }
    ensures apart { OnOk result (first_repeated references.now ≡ None) }
    ensures refused { IfErr result (IsRepeat (first_repeated references.now)) }
{
    let mut slices = BTreeMap::new(alloc);
    for reference in references {
        let key = reference.key.try_clone(alloc)?;
        if slices.contains_key(&reference.key) {
            return Err(RefError::RepeatedKey { key });
        }
        let slice = slice_of(alloc, reference)?;
        slices.insert(key, slice)?;
    }
    Ok(slices)
}

// Tests a reference against its base.
fn test_reference<S: Store>(
    alloc: Global,
    base: &mut S,
    reference: &Reference,
) -> Result<(), RefError>
    ensures fits { OnOk result
        (reference_unfit (S.shown base.old).content reference.now ≡ None) }
    ensures bounded { OnOk result (is_bounded (slice_by reference.now) ≡ true) }
    ensures asked { OnOk result (IsAsked 1 (S.shown base.old) (S.shown base.new)) }
    ensures same { SameContent (S.shown base.old) (S.shown base.new) }
    ensures puts { (S.shown base.new).puts ≡ (S.shown base.old).puts }
    ensures later { (S.shown base.old).faults ≤ (S.shown base.new).faults }
    ensures refused { IfErr result (IsUnfit
        (reference_unfit (S.shown base.old).content reference.now)
        (S.shown base.old).faults (S.shown base.new).faults) }
{
    let key = reference.key.try_clone(alloc)?;
    match base.size_key(&reference.base) {
        Ok(Some(size)) => match reference.offset.checked_add(reference.length) {
            Some(end) => {
                if end <= size {
                    Ok(())
                } else {
                    Err(RefError::SliceOutOfBounds { key })
                }
            }
            None => Err(RefError::SliceOutOfBounds { key }),
        },
        Ok(None) => Err(RefError::MissingBase { key }),
        Err(_) => Err(RefError::Store),
    }
}

/// Tests references against the store that they refer to, in order.
///
/// # Errors
/// [`RefError::MissingBase`] or [`RefError::SliceOutOfBounds`] exactly for the first reference whose base is absent, or
/// that ends past its base's value; [`RefError::Store`] where the base fails, or [`RefError::OutOfMemory`].
pub fn test_references<S: Store>(
    alloc: Global,
    base: &mut S,
    references: &[Reference],
) -> Result<(), RefError>
    ensures fit { OnOk result (unfit (S.shown base.old).content references.now ≡ None) }
    ensures bounded { OnOk result
        (list_all (λ r. is_bounded (slice_by r)) references.now ≡ true) }
    ensures asked { OnOk result (IsAsked (length references.now)
        (S.shown base.old) (S.shown base.new)) }
    ensures same { SameContent (S.shown base.old) (S.shown base.new) }
    ensures puts { (S.shown base.new).puts ≡ (S.shown base.old).puts }
    ensures later { (S.shown base.old).faults ≤ (S.shown base.new).faults }
    ensures refused { IfErr result (IsUnfit
        (unfit (S.shown base.old).content references.now)
        (S.shown base.old).faults (S.shown base.new).faults) }
{
    for reference in references {
        match test_reference(alloc, base, reference) {
            Ok(()) => {}
            Err(error) => return Err(error),
        }
    }
    Ok(())
}

/// The slices of references by their keys, once all keys are apart and all slices lie in their bases. The base is asked
/// for the size of a value once for each reference.
///
/// # Errors
/// As [`keep_slices`], and then as [`test_references`].
#[tactic(auto, using(crate::proofs::WithinLaws::all_within, crate::proofs::WithinLaws::all_sliced))]
pub fn slices_in<S: Store>(
    alloc: Global,
    base: &mut S,
    references: &[Reference],
) -> Result<Slices, RefError>
    ensures within { IfOk result (λ slices. (key : List ℕ) →
        is_slice_within (S.shown base.new).content (slice_at slices key) ≡ true) }
    ensures sliced { IfOk result (λ slices. (key : List ℕ) →
        slice_held (S.shown base.new).content (slice_at slices key)
        ≡ sliced references.now (S.shown base.old).content key) }
    ensures made { OnOk result ((first_repeated references.now ≡ None)
        × (unfit (S.shown base.old).content references.now ≡ None)) }
    ensures asked { OnOk result (IsAsked (length references.now)
        (S.shown base.old) (S.shown base.new)) }
    ensures same { SameContent (S.shown base.old) (S.shown base.new) }
    ensures puts { (S.shown base.new).puts ≡ (S.shown base.old).puts }
    ensures later { (S.shown base.old).faults ≤ (S.shown base.new).faults }
    ensures refused { IfErr result (IsRefusedRefs references.now (S.shown base.old)
        (S.shown base.new)) }
{
    let slices = match keep_slices(alloc, references) {
        Ok(slices) => slices,
        Err(error) => return Err(error),
    };
    match test_references(alloc, base, references) {
        Ok(()) => Ok(slices),
        Err(error) => Err(error),
    }
}
