//! Rows of an array subset, along which linear indices grow by one step.

ghost use Rattle.std.specs.Prelude.{◌≡◌, ◌<◌, ◌+◌, ◌^◌, true};
ghost use Rattle.zarr_model.specs.Region.{count_of, ends_within, linear_index, tuple_at};
ghost use Rattle.zarrs_array_subset.specs.Boxes.{is_box, region_of};
ghost use Rattle.zarrs_chunk_grid_iterators.specs.Places.{PlacesRise};

// A place in a row: its linear index, by how much that grows from one place of the row to the next, and
// how many places of the row are behind it.
//
// A row goes along the last axis of the subset that has more than one index.
#[derive(Clone, Copy)]
pub(crate) struct Row {
    pub(crate) index: u64,
    pub(crate) step: u64,
    pub(crate) left: u64,
}

impl Row {
    // Before the first place, and where there is one place.
    pub(crate) const NONE: Row = Row {
        index: 0,
        step: 0,
        left: 0,
    };
}

// The row from a place on, and the number of indices of the array's shape.
#[tactic(auto, using(crate::proofs::Linears::of_linear))]
pub(crate) fn row_of_place(
    start: &[u64],
    shape: &[u64],
    array_shape: &[u64],
    place: u64,
    total: u64,
) -> (Row, u64)
    requires fits { is_box start.now shape.now ≡ true }
    requires inside { ends_within (region_of start.now shape.now) array_shape.now ≡ true }
    requires whole { total ≡ count_of shape.now }
    requires below { place < total }
    requires small { count_of array_shape.now < 2 ^ 64 }
    ensures index { result.0.index
        ≡ linear_index array_shape.now (tuple_at (region_of start.now shape.now) place) }
    ensures within { place + result.0.left < total }
    ensures rises { PlacesRise array_shape.now (region_of start.now shape.now) (place + 1)
        result.0.index result.0.step result.0.left }
    ensures stride { result.1 ≡ count_of array_shape.now }
{
    match shape {
        [] => (Row::NONE, 1),
        [n, shape @ ..] => match start {
            [] => (Row::NONE, 1),
            [first, start @ ..] => match array_shape {
                [] => (Row::NONE, 1),
                [m, array_shape @ ..] => {
                    let total = total / *n;
                    let (rest, stride) = row_of_place(
                        start,
                        shape,
                        array_shape,
                        place % total,
                        total,
                    );
                    let index = (*first + place / total) * stride + rest.index;
                    if total == 1 {
                        let left = *n - 1 - place;
                        return (
                            Row {
                                index,
                                step: stride,
                                left,
                            },
                            *m * stride,
                        );
                    }
                    (Row { index, ..rest }, *m * stride)
                }
            },
        },
    }
}
