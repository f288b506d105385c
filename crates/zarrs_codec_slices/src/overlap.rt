//! Copies of what two boxes share.

ghost use Rattle.std.specs.Prelude.{◌≡◌, ◌≤◌, ◌<◌, ◌+◌, ◌*◌, drop, length};
ghost use Rattle.zarr_model.specs.Prelude.{count};
ghost use Rattle.zarrs_codec_slices.specs.Overlap.{with_run, Copied, in_bytes};
ghost use Rattle.zarrs_codec_slices.specs.Runs.{IsSharedRun};
ghost use Rattle.zarrs_array_subset.specs.ArraySubset.{region};
ghost use Rattle.zarrs_codec_slices.specs.Elements.{fixed_elements};

use crate::runs::{SharedRun, SharedSpan, row_len, shared_run, shared_span};
use zarrs_array_subset::ArraySubset;

// Copies a run of neighbouring bytes of both slices.
fn copy_run(target: &mut [u8], source: &[u8], to: usize, from: usize, len: usize)
    requires target_within { to + len ≤ length target.old }
    requires source_within { from + len ≤ length source.now }
    ensures { target.new ≡ with_run target.old to source.now from len }
{
    target[to..to + len].copy_from_slice(&source[from..from + len]);
}

// The same with elements of so many bytes.
#[tactic(auto, using(crate::proofs::ElementLaws::parts_fit))]
fn copy_elements_run(target: &mut [u8], source: &[u8], shared: SharedSpan, size: usize)
    requires target_within { (shared.target_at + shared.len) * size ≤ length target.old }
    requires source_within { (shared.source_at + shared.len) * size ≤ length source.now }
    ensures { target.new ≡ with_run target.old (shared.target_at * size) source.now
        (shared.source_at * size) (shared.len * size) }
{
    copy_run(
        target,
        source,
        shared.target_at * size,
        shared.source_at * size,
        shared.len * size,
    );
}

// Copies the bytes of the elements at the indices that two boxes share, from dimension `axis` on, run by run.
#[tactic(auto, using(crate::proofs::CopyLaws::row_within))]
fn copy_shared(
    target: &mut [u8],
    target_subset: &ArraySubset,
    source: &[u8],
    source_subset: &ArraySubset,
    axis: usize,
    size: usize,
    run: &SharedRun,
)
    requires rank { length (region target_subset.now) ≡ length (region source_subset.now) }
    requires run { IsSharedRun (region target_subset.now) (region source_subset.now) run.now.axis
        run.now.elements.target_at run.now.elements.source_at run.now.elements.len }
    requires axis { axis ≤ run.now.axis }
    requires target_count { length target.old
        ≡ count (in_bytes size (drop axis (region target_subset.now))) }
    requires source_count { length source.now
        ≡ count (in_bytes size (drop axis (region source_subset.now))) }
    ensures { Copied (in_bytes size (drop axis (region target_subset.now)))
        (in_bytes size (drop axis (region source_subset.now)))
        source.now target.old target.new }
{
    if axis == run.axis {
        copy_elements_run(target, source, run.elements, size);
        return;
    }
    let shared = shared_span(target_subset, source_subset, axis);
    if shared.len == 0 {
        return;
    }
    let target_row = row_len(target, target_subset, axis);
    let source_row = row_len(source, source_subset, axis);
    for i in 0..shared.len {
        let to = (shared.target_at + i) * target_row;
        let from = (shared.source_at + i) * source_row;
        copy_shared(
            &mut target[to..to + target_row],
            target_subset,
            &source[from..from + source_row],
            source_subset,
            axis + 1,
            size,
            run,
        );
    }
}

/// Copies the elements at the indices that two boxes share, from the source to the target. Both slices have their
/// boxes' elements of `size` bytes in row-major order. Elements that are neighbours in both are copied in one piece.
pub fn copy_elements(
    target: &mut [u8],
    target_subset: &ArraySubset,
    source: &[u8],
    source_subset: &ArraySubset,
    size: usize,
)
    requires some { 0 < size }
    requires rank { length (region target_subset.now) ≡ length (region source_subset.now) }
    requires target_count { length target.old ≡ count (region target_subset.now) * size }
    requires source_count { length source.now ≡ count (region source_subset.now) * size }
    ensures as_long { length target.new ≡ length target.old }
    ensures copied { Copied (region target_subset.now) (region source_subset.now)
        (fixed_elements size source.now) (fixed_elements size target.old)
        (fixed_elements size target.new) }
{
    if target.is_empty() || source.is_empty() {
        return;
    }
    if target_subset.dimensionality() == 0 {
        target.copy_from_slice(source);
        return;
    }
    if let Some(run) = shared_run(target_subset, source_subset) {
        copy_shared(target, target_subset, source, source_subset, 0, size, &run);
    }
}
