//! Boxes of an array that are filled in their place.

ghost use Rattle.std.specs.Prelude.{◌≡◌, ◌≤◌, ◌<◌, ◌+◌, ◌*◌, ◌++◌, take, drop, length, replicate, true, IfSome};
ghost use Rattle.zarr_model.specs.Prelude.{count, of_bytes};
ghost use Rattle.zarrs_array_subset.specs.Boxes.{is_within};
ghost use Rattle.zarrs_array_subset.specs.ArraySubset.{region};
ghost use Rattle.zarrs_data_type_bytes.specs.Pieces.{repeated};
ghost use Rattle.zarrs_codec_slices.specs.Elements.{fixed_elements};
ghost use Rattle.zarrs_codec_slices.specs.Filled.{Filled};
ghost use Rattle.zarrs_codec_slices.specs.Overlap.{Copied, in_bytes, with_run};
ghost use Rattle.zarrs_codec_slices.specs.Runs.{IsSharedRun};

use crate::fill::same_byte;
use crate::runs::{SharedRun, SharedSpan, row_len, shared_run, shared_span};
use zarrs_array_subset::ArraySubset;

// Copies the front of a slice to what comes after the first bytes of it.
fn copy_front(target: &mut [u8], at: usize, len: usize)
    requires apart { len ≤ at }
    requires within { at + len ≤ length target.old }
    ensures { target.new ≡ with_run target.old at target.old 0 len }
{
    let (front, rest) = target.split_at_mut(at);
    rest[..len].copy_from_slice(&front[..len]);
}

// Fills a slice of some elements: the first one, and then as many more as there are each time.
fn fill_doubling(target: &mut [u8], num_elements: usize, fill: &[u8])
    requires some { 0 < num_elements }
    requires long { length target.old ≡ num_elements * length fill.now }
    ensures { target.new ≡ repeated num_elements fill.now }
{
    let size = fill.len();
    target[..size].copy_from_slice(fill);
    let mut filled = 1;
    while filled < num_elements {
        let more = filled.min(num_elements - filled);
        copy_front(target, filled * size, more * size);
        filled += more;
    }
}

// Fills a slice of some elements, whose bytes may all be one byte.
#[tactic(auto, using(crate::proofs::FillLaws::repeated_byte))]
fn fill_run(target: &mut [u8], num_elements: usize, fill: &[u8], byte: Option<u8>)
    requires some { 0 < num_elements }
    requires long { length target.old ≡ num_elements * length fill.now }
    requires byte { IfSome byte (λ byte. fill.now ≡ replicate (length fill.now) byte) }
    ensures { target.new ≡ repeated num_elements fill.now }
{
    match byte {
        Some(byte) => target.fill(byte),
        None => fill_doubling(target, num_elements, fill),
    }
}

// Fills a run of a slice's elements.
#[tactic(auto, using(crate::proofs::ElementLaws::parts_fit))]
fn fill_elements_run(target: &mut [u8], run: SharedSpan, fill: &[u8], byte: Option<u8>)
    requires some { 0 < run.len }
    requires within { (run.target_at + run.len) * length fill.now ≤ length target.old }
    requires byte { IfSome byte (λ byte. fill.now ≡ replicate (length fill.now) byte) }
    ensures { target.new ≡ take (run.target_at * length fill.now) target.old
        ++ (repeated run.len fill.now
        ++ drop (run.target_at * length fill.now + run.len * length fill.now) target.old) }
{
    let start = run.target_at * fill.len();
    let end = start + run.len * fill.len();
    fill_run(&mut target[start..end], run.len, fill, byte);
}

// Fills what a box has of another one, from dimension `axis` on, run by run.
#[tactic(auto, using(crate::proofs::CopyLaws::row_within))]
fn fill_shared(
    target: &mut [u8],
    target_subset: &ArraySubset,
    subset: &ArraySubset,
    fill: &[u8],
    byte: Option<u8>,
    axis: usize,
    run: &SharedRun,
)
    requires rank { length (region target_subset.now) ≡ length (region subset.now) }
    requires byte { IfSome byte (λ byte. fill.now ≡ replicate (length fill.now) byte) }
    requires run { IsSharedRun (region target_subset.now) (region subset.now) run.now.axis
        run.now.elements.target_at run.now.elements.source_at run.now.elements.len }
    requires axis { axis ≤ run.now.axis }
    requires target_count { length target.old
        ≡ count (in_bytes (length fill.now) (drop axis (region target_subset.now))) }
    ensures { Copied (in_bytes (length fill.now) (drop axis (region target_subset.now)))
        (in_bytes (length fill.now) (drop axis (region subset.now)))
        (repeated (count (drop axis (region subset.now))) fill.now) target.old target.new }
{
    if axis == run.axis {
        fill_elements_run(target, run.elements, fill, byte);
        return;
    }
    let shared = shared_span(target_subset, subset, axis);
    if shared.len == 0 {
        return;
    }
    let row = row_len(target, target_subset, axis);
    for i in 0..shared.len {
        let start = (shared.target_at + i) * row;
        fill_shared(
            &mut target[start..start + row],
            target_subset,
            subset,
            fill,
            byte,
            axis + 1,
            run,
        );
    }
}

/// Fills the elements of a box with an element's bytes. The target has the elements of the box around
/// it in row-major order, as many bytes each; those outside of the filled box stay.
pub fn fill_elements(
    target: &mut [u8],
    target_subset: &ArraySubset,
    subset: &ArraySubset,
    fill: &[u8],
)
    requires some { 0 < length fill.now }
    requires inside { is_within (region subset.now) (region target_subset.now) ≡ true }
    requires target_count { length target.old ≡ count (region target_subset.now) * length fill.now }
    ensures as_long { length target.new ≡ length target.old }
    ensures filled { Filled (region target_subset.now) (region subset.now) (of_bytes fill.now)
        (fixed_elements (length fill.now) target.old)
        (fixed_elements (length fill.now) target.new) }
{
    if target.is_empty() || subset.is_empty() {
        return;
    }
    if target_subset.dimensionality() == 0 {
        target.copy_from_slice(fill);
        return;
    }
    if let Some(run) = shared_run(target_subset, subset) {
        let byte = same_byte(fill);
        fill_shared(target, target_subset, subset, fill, byte, 0, &run);
    }
}
