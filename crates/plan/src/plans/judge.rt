ghost use Rattle.std.specs.Prelude.{◌≡◌, ◌<◌, MatchBool, count_by};
ghost use Rattle.lines.specs.declared.lines.End.TheVariants.{To};
ghost use Rattle.lines.specs.declared.lines.Way.TheVariants.{Back};
ghost use Rattle.lines.specs.Lines.{meets, serves};
ghost use Rattle.plan.specs.declared.rules.Rule.TheVariants.{Single, Leading};
ghost use Rattle.plan.specs.Rules.{lines_of, lowest, Keeps};
ghost use Rattle.plan.specs.Judged.{Recounted, Ready, Kept, Checked, Judged};

use crate::drafts::Draft;
use crate::plans::Plan;
use crate::rules::Rule;
use fault::Fault;
use lines::{End, Line, Way};
use std::array;

impl Draft {
    // The lines, in the order of their numbers.
    pub fn list(&self) -> &[Line]
        ensures { result.now ≡ lines_of self.now }
    {
        &self.records[..self.lines]
    }

    // How many lines of the tree have the house at that end. A fold takes half the time of a filter and a count.
    fn count(&self, way: Way, end: End, house: usize) -> usize
        ensures { result ≡ count_by (meets way end house) (lines_of self.now) }
    {
        self.list().iter().fold(0, |count: usize, line| {
            if line.meets(way, end, house) {
                count.wrapping_add(1)
            } else {
                count
            }
        })
    }

    // The number of back lines that enter the house.
    fn counter_of(&self, house: usize) -> u8
        ensures { result ≡ count_by (meets Back To house) (lines_of self.now) }
    {
        self.count(Way::Back, End::To, house) as u8
    }

    // This draft with the counters that its back lines give, and 0 for what is no house.
    pub fn counted(mut self) -> Draft
        ensures { Recounted self result }
    {
        self.counters = array::from_fn(|house| {
            if house < self.houses {
                self.counter_of(house)
            } else {
                0
            }
        });
        self
    }

    // The lowest-numbered line of the tree that serves the house.
    pub(crate) fn server(&self, way: Way, house: usize) -> Option<usize>
        ensures { result ≡ lowest (serves way house) (lines_of self.now) }
    {
        self.list()
            .iter()
            .position(|line| line.meets(way, way.near(), house))
    }

    // Whether lines of the tree lead from the house to the head within n - 1 steps, where each house has its own line.
    fn leads(&self, way: Way, house: usize) -> bool
        requires within { house < self.now.houses }
        requires single { Kept (Single way) self.now }
        ensures { MatchBool result (Keeps (Leading way) self.now house) (Keeps (Leading way) self.now house → ⊥) }
    {
        let mut at = house;
        for _step in 1..self.houses {
            if at == 0 {
                return true;
            }
            let Some(line) = self.server(way, at) else {
                return false;
            };
            at = self.records[line].at(way.beyond()) as usize;
        }
        at == 0
    }

    // Whether the rule is kept at the house: one line of a tree serves each house but the head. Where lines are followed,
    // that is known of every house.
    fn keeps(&self, rule: Rule, house: usize) -> bool
        requires within { house < self.now.houses }
        requires ready { Ready rule self.now }
        ensures { MatchBool result (Keeps rule self.now house) (Keeps rule self.now house → ⊥) }
    {
        match rule {
            Rule::Single(way) => self.count(way, way.near(), house) == usize::from(house != 0),
            Rule::Leading(way) => self.leads(way, house),
            Rule::Counters => self.counters[house] == self.counter_of(house),
        }
    }

    // Refuses at the lowest house that breaks the rule.
    fn check(&self, rule: Rule) -> Result<(), Fault>
        requires { Ready rule self.now }
        ensures { Checked rule self.now result }
    {
        for house in 0..self.houses {
            if !self.keeps(rule, house) {
                return Err(Fault::new(rule.cause(), house));
            }
        }
        Ok(())
    }

    // The plan of this draft, or the first rule that it breaks and the lowest house that breaks it.
    pub fn judge(self) -> Result<Plan, Fault>
        ensures { Judged self result }
    {
        self.check(Rule::Single(Way::Direct))?;
        self.check(Rule::Leading(Way::Direct))?;
        self.check(Rule::Single(Way::Back))?;
        self.check(Rule::Leading(Way::Back))?;
        self.check(Rule::Counters)?;
        Ok(Plan { draft: self })
    }
}
