ghost use Rattle.std.specs.Prelude.{◌≡◌};
ghost use Rattle.lines.specs.Lines.{marks_number, Numbered, marks_of, marked, near, beyond, house_at, meets};

// How a line is marked, with the number that a file has for it.
#[derive(Clone, Copy, PartialEq, Eq, Debug)]
pub enum Marks {
    Neither = 0,
    Direct = 1,
    Back = 2,
    Both = 3,
}

// A number that no marks have.
#[derive(Clone, Copy, PartialEq, Eq, Debug)]
pub struct NoMarks(pub u8);

// The two spanning trees: requests go out along direct lines, responses come home along back lines.
#[derive(Clone, Copy, PartialEq, Eq, Debug)]
pub enum Way {
    Direct,
    Back,
}

// The two ends of a line.
#[derive(Clone, Copy, PartialEq, Eq, Debug)]
pub enum End {
    From,
    To,
}

// A line leads one way, from one house to another.
#[derive(Clone, Copy, PartialEq, Eq, Debug)]
pub struct Line {
    pub from: u8,
    pub to: u8,
    pub marks: Marks,
}

impl Marks {
    pub fn number(self) -> u8
        ensures { result ≡ marks_number self }
    {
        self as u8
    }

    // The marks of a line that belongs to these trees.
    pub fn of(direct: bool, back: bool) -> Marks
        ensures { result ≡ marks_of direct back }
    {
        match (direct, back) {
            (false, false) => Marks::Neither,
            (true, false) => Marks::Direct,
            (false, true) => Marks::Back,
            (true, true) => Marks::Both,
        }
    }

    // Whether a line of these marks belongs to that tree.
    pub fn has(self, way: Way) -> bool
        ensures { result ≡ marked way self }
    {
        match way {
            Way::Direct => matches!(self, Marks::Direct | Marks::Both),
            Way::Back => matches!(self, Marks::Back | Marks::Both),
        }
    }
}

impl TryFrom<u8> for Marks {
    type Error = NoMarks;

    ghost try_from_gives = { Numbered };

    // The marks of that number; a number that no marks have comes back.
    fn try_from(number: u8) -> Result<Marks, NoMarks> {
        match number {
            0 => Ok(Marks::Neither),
            1 => Ok(Marks::Direct),
            2 => Ok(Marks::Back),
            3 => Ok(Marks::Both),
            _ => Err(NoMarks(number)),
        }
    }
}

impl Way {
    // The end at which a line of the tree serves a house: a direct line serves the house that it enters, a back line
    // the house that it leaves.
    pub fn near(self) -> End
        ensures { result ≡ near self }
    {
        match self {
            Way::Direct => End::To,
            Way::Back => End::From,
        }
    }

    // The other end, one step nearer to the head.
    pub fn beyond(self) -> End
        ensures { result ≡ beyond self }
    {
        match self {
            Way::Direct => End::From,
            Way::Back => End::To,
        }
    }
}

impl Line {
    // What a table has where there is no line.
    pub const BLANK: Line = Line {
        from: 0,
        to: 0,
        marks: Marks::Neither,
    };

    // The house at that end.
    pub fn at(self, end: End) -> u8
        ensures { result ≡ house_at end self }
    {
        match end {
            End::From => self.from,
            End::To => self.to,
        }
    }

    // Whether the line belongs to the tree and has the house at that end.
    pub fn meets(self, way: Way, end: End, house: usize) -> bool
        ensures { result ≡ meets way end house self }
    {
        self.marks.has(way) && self.at(end) as usize == house
    }
}
