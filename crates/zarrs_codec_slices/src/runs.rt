//! The longest runs of neighbouring elements that two boxes share.

ghost use Rattle.std.specs.Prelude.{◌≡◌, ◌<◌, ◌+◌, ◌*◌, ◌/◌, ◌^◌, ◌==◌, ◌&&◌, length, MatchOption};
ghost use Rattle.zarr_model.specs.Prelude.{count};
ghost use Rattle.zarrs_array_subset.specs.ArraySubset.{region};
ghost use Rattle.zarrs_codec_slices.specs.Overlap.{span_at, shared_from, shared_size};
ghost use Rattle.zarrs_codec_slices.specs.Runs.{AreApart, IsRunAxis, IsSharedRun};

use zarrs_array_subset::ArraySubset;

// The part that two boxes share in one dimension: where it begins in each of them, and how long it is.
#[derive(Clone, Copy)]
pub(crate) struct SharedSpan {
    pub(crate) target_at: usize,
    pub(crate) source_at: usize,
    pub(crate) len: usize,
}

pub(crate) fn shared_span(
    target_subset: &ArraySubset,
    source_subset: &ArraySubset,
    axis: usize,
) -> SharedSpan
    requires target_axis { axis < length (region target_subset.now) }
    requires source_axis { axis < length (region source_subset.now) }
    ensures target { result.target_at ≡ shared_from (span_at (region target_subset.now) axis)
        (span_at (region source_subset.now) axis) }
    ensures source { result.source_at ≡ shared_from (span_at (region source_subset.now) axis)
        (span_at (region target_subset.now) axis) }
    ensures target_end { result.target_at + result.len < 2 ^ 64 }
    ensures source_end { result.source_at + result.len < 2 ^ 64 }
    ensures len { result.len ≡ shared_size (span_at (region target_subset.now) axis)
        (span_at (region source_subset.now) axis) }
{
    let (target_start, target_size) = (target_subset.start()[axis], target_subset.shape()[axis]);
    let (source_start, source_size) = (source_subset.start()[axis], source_subset.shape()[axis]);
    let start = target_start.max(source_start);
    let target_at = start - target_start;
    let source_at = start - source_start;
    let target_left = target_size.saturating_sub(target_at);
    let source_left = source_size.saturating_sub(source_at);
    SharedSpan {
        target_at: target_at as usize,
        source_at: source_at as usize,
        len: target_left.min(source_left) as usize,
    }
}

pub(crate) fn row_len(elements: &[u8], subset: &ArraySubset, axis: usize) -> usize
    requires axis { axis < length (region subset.now) }
    requires positive { 0 < (span_at (region subset.now) axis).size }
    ensures { result ≡ length elements.now / (span_at (region subset.now) axis).size }
{
    elements.len() / subset.shape()[axis] as usize
}

// How long a box is in a dimension.
fn size_in(subset: &ArraySubset, axis: usize) -> usize
    requires axis { axis < length (region subset.now) }
    ensures { result ≡ (span_at (region subset.now) axis).size }
{
    subset.shape()[axis] as usize
}

fn is_same_span(first: &ArraySubset, second: &ArraySubset, axis: usize) -> bool
    requires first_axis { axis < length (region first.now) }
    requires second_axis { axis < length (region second.now) }
    ensures { result ≡ ((span_at (region first.now) axis).start
        == (span_at (region second.now) axis).start
        && (span_at (region first.now) axis).size == (span_at (region second.now) axis).size) }
{
    first.start()[axis] == second.start()[axis] && first.shape()[axis] == second.shape()[axis]
}

// An axis after which two boxes are the same, and how many elements one of its indices has.
#[derive(Clone, Copy)]
struct RunAxis {
    axis: usize,
    num_elements: usize,
}

// The first such axis.
fn run_axis(target_subset: &ArraySubset, source_subset: &ArraySubset) -> RunAxis
    requires rank { length (region target_subset.now) ≡ length (region source_subset.now) }
    requires some_axis { 0 < length (region target_subset.now) }
    requires some { 0 < count (region target_subset.now) }
    requires fits { count (region target_subset.now) < 2 ^ 64 }
    ensures { IsRunAxis (region target_subset.now) (region source_subset.now) result.axis
        result.num_elements }
{
    let mut axis = target_subset.dimensionality() - 1;
    let mut num_elements = 1;
    while axis > 0 && is_same_span(target_subset, source_subset, axis) {
        num_elements *= size_in(target_subset, axis);
        axis -= 1;
    }
    RunAxis { axis, num_elements }
}

// All that two boxes share of an axis after which they are the same: neighbouring elements of both, counted from the
// first one at an index of the earlier axes.
#[derive(Clone, Copy)]
pub(crate) struct SharedRun {
    pub(crate) axis: usize,
    pub(crate) elements: SharedSpan,
}

// The longest such run, if the boxes share some of its axis.
pub(crate) fn shared_run(
    target_subset: &ArraySubset,
    source_subset: &ArraySubset,
) -> Option<SharedRun>
    requires rank { length (region target_subset.now) ≡ length (region source_subset.now) }
    requires some_axis { 0 < length (region target_subset.now) }
    requires some { 0 < count (region target_subset.now) }
    requires fits { count (region target_subset.now) < 2 ^ 64 }
    requires some_source { 0 < count (region source_subset.now) }
    requires source_fits { count (region source_subset.now) < 2 ^ 64 }
    ensures { MatchOption result (AreApart (region target_subset.now) (region source_subset.now))
        (λ run. IsSharedRun (region target_subset.now) (region source_subset.now) run.axis
        run.elements.target_at run.elements.source_at run.elements.len) }
{
    let run = run_axis(target_subset, source_subset);
    let shared = shared_span(target_subset, source_subset, run.axis);
    if shared.len == 0 {
        return None;
    }
    Some(SharedRun {
        axis: run.axis,
        elements: SharedSpan {
            target_at: shared.target_at * run.num_elements,
            source_at: shared.source_at * run.num_elements,
            len: shared.len * run.num_elements,
        },
    })
}
