// Random rounds on random plans, their answers beside the straight count of what the houses took.
use crate::logs::Log;
use crate::makes::Make;
use crate::plans::random_plan;
use carrier::{Carrier, Radio, Wire};
use plan::Plan;
use pulse::{Call, Report};
use quantity::{Coldest, Flags, Gap, Load, Quantity, straight_count};
use row::Row;
use samples::{Source, Spread};
use std::alloc::{AllocError, Global};
use std::io;

const MOST_TURNS: usize = 1_000_000;

const PLANS: usize = 60;

const ROUNDS_A_PLAN: usize = 4;

const ROUNDS_OF_A_LIFE: usize = 1_000;

// How many houses and lines a row has, and how many of eight turns are loads.
#[derive(Clone, Copy)]
struct Odds {
    houses: u16,
    lines: u16,
    loads: u16,
}

// How many rounds were made, in how many the answer and the counts were right, and how many responses came to a house
// before its request.
#[derive(Default, Drop)]
struct Tally {
    rounds: usize,
    agreed: usize,
    early: usize,
}

impl Odds {
    fn of(plan: &Plan, source: &mut Source) -> Odds {
        Odds {
            houses: plan.houses() as u16,
            lines: plan.lines() as u16,
            loads: source.one_to(7),
        }
    }

    // A set, for a house that is there or the next.
    fn setting(self, source: &mut Source) -> Call {
        let house = usize::from(source.below(self.houses.saturating_add(1)));
        let spread = Spread {
            near: source.below(2) == 0,
            seldom: 20,
            flags: 65_535,
        };
        Call::Set(house, source.reading(spread))
    }

    // Mostly a load or a hand over, of a line that is there or the next.
    fn call(self, source: &mut Source) -> Call {
        let turn = source.below(64);
        let line = usize::from(source.below(self.lines.saturating_add(1)));
        if turn == 63 {
            Call::Begin
        } else if turn == 62 {
            self.setting(source)
        } else if turn % 8 < self.loads {
            Call::Load(line)
        } else {
            Call::HandOver(line)
        }
    }

    // The hand-overs of a whole round, and its loads: two for each house but the head.
    fn messages(self) -> usize {
        usize::from(self.houses).saturating_sub(1).saturating_mul(2)
    }
}

fn make<Q: Quantity, C: Carrier>(row: &mut Row<Q, C>, log: &mut Log, call: Call) {
    let answer = row.apply(call);
    log.note(call, answer);
}

// Sets some readings, begins a round and makes random calls until the round has its answer.
fn play<Q: Quantity, C: Carrier>(
    row: &mut Row<Q, C>,
    log: &mut Log,
    source: &mut Source,
    odds: Odds,
) {
    for _ in 0..source.below(odds.houses.saturating_add(1)) {
        make(row, log, odds.setting(source));
    }
    make(row, log, Call::Begin);
    for _ in 0..MOST_TURNS {
        if row.read().is_ok() {
            break;
        }
        make(row, log, odds.call(source));
    }
}

// Whether the report and the log agree.
fn agrees<Q: Quantity>(
    heap: Global,
    report: Report<Q::Figures>,
    log: &Log,
    odds: Odds,
) -> Result<bool, AllocError> {
    let taken = log.taken(heap)?;
    let Ok(due) = straight_count::<Q>(taken.as_slice()) else {
        return Ok(false);
    };
    let figures = report.figures;
    let messages = odds.messages();
    Ok(
        format!(in heap; "{figures}")? == format!(in heap; "{due}")?
            && taken.len() == usize::from(odds.houses)
            && report.hand_overs as usize == messages
            && log.hand_overs == messages
            && log.loads == messages,
    )
}

impl Tally {
    fn add(&mut self, agreed: bool, early: usize) {
        self.rounds = self.rounds.saturating_add(1);
        self.agreed = self.agreed.saturating_add(usize::from(agreed));
        self.early = self.early.saturating_add(early);
    }

    // So many rounds of a just made row, one after another.
    fn add_life<Q: Quantity, C: Carrier>(
        &mut self,
        heap: Global,
        source: &mut Source,
        row: &mut Row<Q, C>,
        odds: Odds,
        rounds: usize,
    ) -> Result<(), AllocError> {
        let mut log = Log::new();
        for _ in 0..rounds {
            play(row, &mut log, source, odds);
            let agreed = match row.read() {
                Ok(report) => agrees::<Q>(heap, report, &log, odds)?,
                Err(_) => false,
            };
            self.add(agreed, log.early);
        }
        Ok(())
    }

    fn print(&self, rt: &HostRuntime, name: &str, letter: char, make: &str) -> io::Result<()> {
        let rounds = self.rounds;
        let agreed = self.agreed;
        let early = self.early;
        println!(rt;
            "{name}, {letter}, {make}: {rounds} rounds, {agreed} agreed, {early} responses before the request"
        )
    }
}

// Another source for each quantity.
fn source_of<Q: Quantity>() -> Source {
    Source {
        state: u64::from(Q::LETTER),
    }
}

// Some rounds each on many plans; the row is made anew for each.
fn many_plans<Q: Quantity, C: Make>(rt: &HostRuntime, row: &mut Row<Q, C>) -> io::Result<()> {
    let mut source = source_of::<Q>();
    let mut tally = Tally::default();
    for _ in 0..PLANS {
        let houses = source.one_to(48) as u8;
        let plan = random_plan(rt.alloc(), &mut source, houses, 129)?;
        let odds = Odds::of(&plan, &mut source);
        *row = Row::new(plan, C::made(&plan));
        tally.add_life(rt.alloc(), &mut source, row, odds, ROUNDS_A_PLAN)?;
    }
    tally.print(rt, "many plans", Q::LETTER, C::NAME)
}

// Many rounds of one row.
fn one_row<Q: Quantity, C: Make>(rt: &HostRuntime, row: &mut Row<Q, C>) -> io::Result<()> {
    let mut source = source_of::<Q>();
    let mut tally = Tally::default();
    let plan = random_plan(rt.alloc(), &mut source, 14, 14)?;
    let odds = Odds::of(&plan, &mut source);
    *row = Row::new(plan, C::made(&plan));
    tally.add_life(rt.alloc(), &mut source, row, odds, ROUNDS_OF_A_LIFE)?;
    tally.print(rt, "one row", Q::LETTER, C::NAME)
}

fn both<Q: Quantity, C: Make>(rt: &HostRuntime, mut row: Row<Q, C>) -> io::Result<()> {
    many_plans(rt, &mut row)?;
    one_row(rt, &mut row)
}

pub fn random_rounds(rt: &HostRuntime) -> io::Result<()> {
    let plan = Plan::new();
    both::<Load, Wire>(rt, Row::new(plan, Wire::new(&plan)))?;
    both::<Load, Radio>(rt, Row::new(plan, Radio::new(&plan)))?;
    both::<Coldest, Wire>(rt, Row::new(plan, Wire::new(&plan)))?;
    both::<Coldest, Radio>(rt, Row::new(plan, Radio::new(&plan)))?;
    both::<Gap, Wire>(rt, Row::new(plan, Wire::new(&plan)))?;
    both::<Gap, Radio>(rt, Row::new(plan, Radio::new(&plan)))?;
    both::<Flags, Wire>(rt, Row::new(plan, Wire::new(&plan)))?;
    both::<Flags, Radio>(rt, Row::new(plan, Radio::new(&plan)))
}
