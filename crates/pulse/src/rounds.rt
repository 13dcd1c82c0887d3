// Where a house stands in a round: whether it was called, how many responses it awaits, and what it holds.
#[derive(Clone, Copy)]
pub struct Standing<V> {
    pub called: bool,
    pub awaited: u8,
    pub holding: V,
}

// What waits for a line: a request or not, and the word of a response.
#[derive(Clone, Copy)]
pub struct Waiting<W> {
    pub request: bool,
    pub response: Option<W>,
}

// The state of one question: each house's standing, what waits for each line, and how many hand-overs were accepted
// since it began.
#[derive(Drop)]
pub struct Round<V, W> {
    pub houses: [Standing<V>; 48],
    pub waiting: [Waiting<W>; 128],
    pub hand_overs: u32,
}
