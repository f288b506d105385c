//! The places of a list that are left, taken from both ends.

ghost use Rattle.std.specs.Prelude.{◌≡◌, ◌-◌};
ghost use Rattle.zarrs_chunk_grid_iterators.specs.Places.{TakesPlace, TakesPlaceBack};

// Places from one on, up to the end.
#[derive(Clone, Copy)]
pub(crate) struct Places {
    pub(crate) start: u64,
    pub(crate) end: u64,
}

impl Places {
    // The first place that is left.
    pub(crate) fn next(&mut self) -> Option<u64>
        ensures { TakesPlace self.old.start self.old.end result self.new.start self.new.end }
    {
        if self.start < self.end {
            let place = self.start;
            self.start += 1;
            Some(place)
        } else {
            None
        }
    }

    // The last place that is left.
    pub(crate) fn next_back(&mut self) -> Option<u64>
        ensures { TakesPlaceBack self.old.start self.old.end result self.new.start self.new.end }
    {
        if self.start < self.end {
            self.end -= 1;
            Some(self.end)
        } else {
            None
        }
    }

    // How many are left.
    pub(crate) fn len(self) -> usize
        ensures { result ≡ self.end - self.start }
    {
        self.end.saturating_sub(self.start) as usize
    }
}
