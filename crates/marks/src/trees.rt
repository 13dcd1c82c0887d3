use fault::Cause;

// The two trees, as the second marker sees them.
#[derive(Clone, Copy)]
pub enum Tree {
    Direct,
    Back,
}

impl Tree {
    // The house that the line would serve, and the house beyond it, nearer to the head.
    pub fn ends(self, [from, to, _]: [u8; 3]) -> (usize, usize) {
        match self {
            Tree::Direct => (usize::from(to), usize::from(from)),
            Tree::Back => (usize::from(from), usize::from(to)),
        }
    }

    // What the tree adds to the marks of its lines.
    pub fn mark(self) -> u8 {
        match self {
            Tree::Direct => 1,
            Tree::Back => 2,
        }
    }

    // Why a house is refused that has no way.
    pub fn cause(self) -> Cause {
        match self {
            Tree::Direct => Cause::NoWayFromHead,
            Tree::Back => Cause::NoWayToHead,
        }
    }
}
