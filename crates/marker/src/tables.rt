ghost use Rattle.std.specs.Prelude.{◌≡◌, None, slice_index_or};

// How a house is reached: its distance, and its line one step towards the head.
#[derive(Clone, Copy)]
pub struct Step {
    pub distance: usize,
    pub line: usize,
}

// For each house how it is reached, where it is. The head has no entry.
#[derive(Clone, Copy)]
pub struct Table {
    pub steps: [Option<Step>; 48],
    ghost head: { slice_index_or steps 0 None ≡ None },
}

// The tables of the two ways.
#[derive(Clone, Copy)]
pub struct Tables {
    pub direct: Table,
    pub back: Table,
}

impl Table {
    ghost use Rattle.marker.specs.Rounds.{entry_in};

    // How the house is reached, where it is.
    pub(crate) fn entry(&self, house: usize) -> Option<Step>
        ensures { result ≡ entry_in self.now house }
    {
        *self.steps.get(house)?
    }
}
