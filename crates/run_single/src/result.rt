// What an entry came to.

// How far the run has come: the entry's index, the lines written, the outcomes used.
#[derive(Clone, Copy)]
pub struct Count {
    pub entry: u16,
    pub lines: u32,
    pub used: u32,
}

// How far an entry comes: its process cannot move; it is taken, with the lines written and the outcomes used so far; or
// its lines do not fit.
#[derive(Clone, Copy)]
pub enum EntryResult {
    Unable,
    Taken { lines: u32, used: u32 },
    Full,
}
