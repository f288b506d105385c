//! Elements that are given to places of a box.

ghost use Rattle.std.specs.Prelude.{◌≡◌, ◌+◌, ◌++◌, ◌<◌, ◌^◌, true, Some, None, IfOk, OnOk};
ghost use Rattle.zarr_model.specs.Region.{count_of, ends_within, tuples};
ghost use Rattle.zarrs_array_subset.specs.ArraySubset.{region};
ghost use Rattle.zarrs_codec_slices.specs.PickedRuns.{run_numbers, AreRunsBelow};
ghost use Rattle.zarrs_codec_array_bytes.specs.Raw.{raw_of};
ghost use Rattle.zarrs_codec_array_bytes.specs.Selection.{linear};
ghost use Rattle.zarrs_codec_array_bytes_parts.specs.OwnedArrayBytes.{owned_raw};
ghost use Rattle.zarr_array_boxes.specs.Given.{given_runs, given_indices, given_alike, given_joined};

use std::alloc::{AllocError, Global};
use zarrs_array_subset::ArraySubset;
use zarrs_chunk_grid_indexer::{Indexer, append_contiguous_linearised_indices};
use zarrs_codec_array_bytes::ArrayBytes;
use zarrs_codec_array_bytes_parts::OwnedArrayBytes;

/// Elements, one after another, and the runs of linear indices of the places that they were given to, each as its start
/// and its length.
#[derive(Drop)]
pub(crate) struct Given {
    pub(crate) runs: Vec<(u64, u64)>,
    pub(crate) grown: OwnedArrayBytes,
}

// Appends the runs of linear indices of a box in a shape.
fn append_places<I: Indexer>(
    runs: &mut Vec<(u64, u64)>,
    alloc: Global,
    at: &I,
    shape: &[u64],
) -> Result<(), AllocError>
    requires count { count_of shape.now < 2 ^ 64 }
    requires fits { I.fits at.now shape.now ≡ true }
    ensures places { OnOk result (run_numbers runs.new.items
        ≡ run_numbers runs.old.items ++ linear shape.now (I.places at.now)) }
    ensures within { AreRunsBelow (count_of shape.now) runs.old.items
        → OnOk result (AreRunsBelow (count_of shape.now) runs.new.items) }
{
    match append_contiguous_linearised_indices(runs, alloc, at, shape) {
        Ok(()) => Ok(()),
        Err(error) => Err(error.only_memory()),
    }
}

/// What was given before, and behind it a piece for the places of a box in a shape.
pub(crate) fn with_piece(
    given: Option<Given>,
    alloc: Global,
    at: &ArraySubset,
    shape: &[u64],
    piece: &ArrayBytes<'_>,
) -> Result<Given, AllocError>
    requires count { count_of shape.now < 2 ^ 64 }
    requires inside { ends_within (region at.now) shape.now ≡ true }
    requires alike { given_alike given (raw_of piece.now) ≡ true }
    ensures places { IfOk result (λ v. run_numbers v.runs.items
        ≡ given_indices given ++ linear shape.now (tuples (region at.now))) }
    ensures within { AreRunsBelow (count_of shape.now) (given_runs given)
        → IfOk result (λ v. AreRunsBelow (count_of shape.now) v.runs.items) }
    ensures bytes { IfOk result
        (λ v. owned_raw v.grown ≡ given_joined given (raw_of piece.now)) }
{
    match given {
        Some(given) => {
            let Given {
                mut runs,
                mut grown,
            } = given;
            append_places(&mut runs, alloc, at, shape)?;
            grown.append(piece)?;
            Ok(Given { runs, grown })
        }
        None => {
            let mut runs = Vec::new(alloc);
            append_places(&mut runs, alloc, at, shape)?;
            let grown = OwnedArrayBytes::copied_from(alloc, piece)?;
            Ok(Given { runs, grown })
        }
    }
}
