// A second judge of plan files, written apart from the library's. It judges the trees by another method: it keeps the
// houses that a tree reaches as bits of a word, and grows that set round by round.
ghost use Rattle.std.specs.Prelude.{◌<◌, ◌≤◌, IfSome, length};

use fault::{Cause, Fault};

const MARK: [u8; 3] = [b'R', b'O', b'W'];

// The two trees.
#[derive(Clone, Copy)]
enum Tree {
    Direct,
    Back,
}

// A file behind its header: three bytes for each line, and a counter for each house.
#[derive(Clone, Copy)]
struct Body<'a> {
    lines: &'a [[u8; 3]],
    counters: &'a [u8],
    ghost few: { length lines.now ≤ 128 },
}

fn bit(house: u8) -> u64 {
    if house < 64 { 1 << house } else { 0 }
}

impl Tree {
    // The house that the line serves and the one beyond it, where the line has the tree's mark.
    fn step(self, [from, to, marks]: [u8; 3]) -> Option<(u8, u8)> {
        match self {
            Tree::Direct if marks & 1 != 0 => Some((to, from)),
            Tree::Back if marks & 2 != 0 => Some((from, to)),
            _ => None,
        }
    }
}

// Which byte of the line is its first that is wrong.
fn wrong_byte(line: [u8; 3], houses: usize) -> Option<usize>
    ensures { IfSome result (λ byte. byte < 3) }
{
    let [from, to, marks] = line;
    [
        usize::from(from) >= houses,
        usize::from(to) >= houses || to == from,
        marks > 3,
    ]
    .iter()
    .position(|wrong| *wrong)
}

impl<'a> Body<'a> {
    // The part of the file behind its header, or what is wrong with the header or the length.
    fn of(file: &'a [u8]) -> Result<Body<'a>, Fault> {
        let Some((header, rest)) = file.split_first_chunk::<9>() else {
            return Err(Fault::new(Cause::FileShort, file.len()));
        };
        if let Some(place) = header.iter().zip(MARK.iter()).position(|(b, m)| *b != *m) {
            return Err(Fault::new(Cause::WrongMark, place));
        }
        let [_, _, _, high, low, houses, m_high, m_low, capacity] = *header;
        if u16::from_be_bytes([high, low]) != 1 {
            return Err(Fault::new(Cause::WrongVersion, 3));
        }
        let lines = u16::from_be_bytes([m_high, m_low]);
        if !matches!(houses, 1..=48) {
            return Err(Fault::new(Cause::BeyondLimits, 5));
        }
        if lines > 128 {
            return Err(Fault::new(Cause::BeyondLimits, 6));
        }
        if !matches!(capacity, 1..=4) {
            return Err(Fault::new(Cause::BeyondLimits, 8));
        }
        let records = 3 * usize::from(lines);
        if rest.len() != records + usize::from(houses) {
            return Err(Fault::new(Cause::WrongLength, file.len()));
        }
        let (records, counters) = rest.split_at(records);
        let (lines, _) = records.as_chunks::<3>();
        Ok(Body { lines, counters })
    }

    // Refuses the first wrong byte of a line.
    fn judge_lines(&self) -> Result<(), Fault> {
        for (i, line) in self.lines.iter().enumerate() {
            if let Some(byte) = wrong_byte(*line, self.counters.len()) {
                return Err(Fault::new(Cause::WrongRecord, 9 + 3 * i + byte));
            }
        }
        Ok(())
    }

    // How many lines of the tree serve a house and go on beyond it as the test says.
    fn count<F: Fn(u8, u8) -> bool>(&self, tree: Tree, meets: F) -> usize
        requires { F.IsAlwaysCallable meets }
    {
        self.lines
            .iter()
            .filter_map(|line| tree.step(*line))
            .filter(|(near, beyond)| meets(*near, *beyond))
            .count()
    }

    // Those houses, and the ones that a line of the tree joins to one of them.
    fn grown(&self, tree: Tree, seen: u64) -> u64 {
        self.lines
            .iter()
            .filter_map(|line| tree.step(*line))
            .filter(|(_, beyond)| seen & bit(*beyond) != 0)
            .fold(seen, |all, (near, _)| all | bit(near))
    }

    // The houses that the tree joins to the head, within n - 1 steps.
    fn reached(&self, tree: Tree) -> u64 {
        let mut seen = 1;
        for _ in 1..self.counters.len() {
            seen = self.grown(tree, seen);
        }
        seen
    }

    // Refuses for the cause at the lowest house that, with its counter, does not pass the test.
    fn each_house<F: Fn(u8, u8) -> bool>(&self, cause: Cause, passes: F) -> Result<(), Fault>
        requires { F.IsAlwaysCallable passes }
    {
        for (house, counter) in (0..48).zip(self.counters) {
            if !passes(house, *counter) {
                return Err(Fault::new(cause, usize::from(house)));
            }
        }
        Ok(())
    }

    // Refuses the lowest house that no line of the tree serves, or more than one, and then the lowest that it does not join to
    // the head.
    fn judge_tree(&self, tree: Tree, single: Cause, leading: Cause) -> Result<(), Fault> {
        self.each_house(single, |house, _| {
            self.count(tree, |near, _| near == house) == usize::from(house != 0)
        })?;
        let reached = self.reached(tree);
        self.each_house(leading, |house, _| reached & bit(house) != 0)
    }

    // A counter is the number of back lines that enter its house.
    fn judge_counters(&self) -> Result<(), Fault> {
        self.each_house(Cause::WrongCounter, |house, counter| {
            self.count(Tree::Back, |_, beyond| beyond == house) == usize::from(counter)
        })
    }
}

// The first refusal of the file, if it is not accepted.
pub fn judged(file: &[u8]) -> Result<(), Fault> {
    let body = Body::of(file)?;
    body.judge_lines()?;
    body.judge_tree(Tree::Direct, Cause::DirectIn, Cause::DirectWay)?;
    body.judge_tree(Tree::Back, Cause::BackOut, Cause::BackWay)?;
    body.judge_counters()
}
