//! What an indexer lists, gathered in vectors.

ghost use Rattle.std.specs.Prelude.{◌≡◌, ◌<◌, ◌+◌, ◌^◌, ◌++◌, true, length, map, IfOk, IfErr, OnErr, OnOk};
ghost use Rattle.std.specs.List.{range_with_len};
ghost use Rattle.zarr_model.specs.Region.{count_of, linear_index};
ghost use Rattle.zarrs_chunk_grid_iterators.specs.Runs.{span_of};

use super::Indexer;
use std::alloc::{AllocError, Global};
use zarrs_array_subset::{ArrayIndicesTinyVec, IndexerError};

/// Appends the linear indices of an indexer in an array's shape.
///
/// # Errors
/// [`IndexerError`] where the indexer is refused for the shape, or there is not enough memory;
/// `out` is then as it was.
pub fn append_linearised_indices<I: Indexer>(
    out: &mut Vec<u64>,
    alloc: Global,
    indexer: &I,
    array_shape: &[u64],
) -> Result<(), IndexerError>
    requires { count_of array_shape.now < 2 ^ 64 }
    ensures inside { IfOk result (λ _. I.fits indexer.now array_shape.now ≡ true) }
    ensures lists { OnOk result (out.new.items
        ≡ out.old.items ++ map (linear_index array_shape.now) (I.places indexer.now)) }
    ensures refused { IfErr result (I.refuses indexer.now array_shape.now) }
    ensures err { OnErr result (out.new.items ≡ out.old.items) }
{
    match indexer.iter_contiguous_linearised_indices(alloc, array_shape) {
        Err(error) => Err(error),
        Ok(runs) => {
            let before = out.len();
            for run in runs {
                if let Err(failed) = push_run(out, run.0, run.1) {
                    out.truncate(before);
                    return Err(failed.into());
                }
            }
            Ok(())
        }
    }
}

// Appends the numbers of a run; where there is not enough memory, `out` is as it was.
fn push_run(out: &mut Vec<u64>, first: u64, count: u64) -> Result<(), AllocError>
    requires { first + count < 2 ^ 64 }
    ensures lists { OnOk result (out.new.items ≡ out.old.items ++ range_with_len first count) }
    ensures err { OnErr result (out.new.items ≡ out.old.items) }
{
    let before = out.len();
    for index in first..first + count {
        if let Err(failed) = out.push(index) {
            out.truncate(before);
            return Err(failed.into());
        }
    }
    Ok(())
}

/// Appends the runs of linear indices of an indexer in an array's shape.
///
/// # Errors
/// [`IndexerError`] where the indexer is refused for the shape, or there is not enough memory;
/// `out` is then as it was.
pub fn append_contiguous_linearised_indices<I: Indexer>(
    out: &mut Vec<(u64, u64)>,
    alloc: Global,
    indexer: &I,
    array_shape: &[u64],
) -> Result<(), IndexerError>
    requires { count_of array_shape.now < 2 ^ 64 }
    ensures inside { IfOk result (λ _. I.fits indexer.now array_shape.now ≡ true) }
    ensures lists { OnOk result (map span_of out.new.items
        ≡ map span_of out.old.items ++ I.pieces indexer.now array_shape.now) }
    ensures refused { IfErr result (I.refuses indexer.now array_shape.now) }
    ensures err { OnErr result (out.new.items ≡ out.old.items) }
{
    match indexer.iter_contiguous_linearised_indices(alloc, array_shape) {
        Err(error) => Err(error),
        Ok(runs) => {
            let before = out.len();
            for run in runs {
                if let Err(failed) = out.push(run) {
                    out.truncate(before);
                    return Err(failed.into());
                }
            }
            Ok(())
        }
    }
}

/// Appends the indices of an indexer.
///
/// # Errors
/// [`AllocError`] where there is not enough memory; `out` is then as it was.
pub fn append_indices<I: Indexer>(
    out: &mut Vec<ArrayIndicesTinyVec>,
    alloc: Global,
    indexer: &I,
) -> Result<(), AllocError>
    requires { I.listable indexer.now }
    ensures lists { OnOk result (map (λ t. t.items) out.new.items
        ≡ map (λ t. t.items) out.old.items ++ I.places indexer.now) }
    ensures err { OnErr result (out.new.items ≡ out.old.items) }
{
    let before = out.len();
    for tuple in indexer.iter_indices(alloc)? {
        let tuple = match tuple {
            Ok(tuple) => tuple,
            Err(error) => {
                out.truncate(before);
                return Err(error);
            }
        };
        if let Err(failed) = out.push(tuple) {
            out.truncate(before);
            return Err(failed.into());
        }
    }
    Ok(())
}

/// The indices of an indexer.
///
/// # Errors
/// [`AllocError`] where there is not enough memory.
pub fn collect_indices<I: Indexer>(
    alloc: Global,
    indexer: &I,
) -> Result<Vec<ArrayIndicesTinyVec>, AllocError>
    requires { length (I.places indexer.now) < 2 ^ 64 }
    ensures { IfOk result (λ v. map (λ t. t.items) v.items ≡ I.places indexer.now) }
{
    let mut tuples = Vec::new(alloc);
    append_indices(&mut tuples, alloc, indexer)?;
    Ok(tuples)
}
