ghost use Rattle.std.specs.Prelude.{◌≡◌, ◌<◌};
ghost use Rattle.plan.specs.Rules.{lines_of};
ghost use Rattle.marker.specs.Marked.{entry_on};
ghost use Rattle.marker.specs.Rounds.{entry_in, stands, Round, Searched};

use crate::tables::{Step, Table, Tables};
use lines::Way;
use plan::Draft;

impl Table {
    // Whether the house was reached at that distance: the head at 0.
    fn stands(&self, house: usize, distance: usize) -> bool
        ensures { result ≡ stands (entry_in self.now) distance house }
    {
        if house == 0 {
            distance == 0
        } else {
            self.entry(house)
                .is_some_and(|step| step.distance == distance)
        }
    }

    // One round: each house that was not reached before takes the lowest-numbered line from a house at that distance, and
    // is one step farther.
    fn round(&mut self, draft: &Draft, way: Way, distance: usize)
        requires { distance < 48 }
        ensures { Round way (lines_of draft.now) draft.now.houses distance self.old self.new }
    {
        let old = *self;
        'houses: for house in 1..draft.houses {
            if old.entry(house).is_some() {
                continue;
            }
            for (number, line) in draft.list().iter().enumerate() {
                let near = usize::from(line.at(way.near()));
                let beyond = usize::from(line.at(way.beyond()));
                if near == house && old.stands(beyond, distance) {
                    self.steps[house] = Some(Step {
                        distance: distance + 1,
                        line: number,
                    });
                    continue 'houses;
                }
            }
        }
    }

    // The line towards the head of each house, by rounds: a house is reached in the round of its distance.
    fn search(draft: &Draft, way: Way) -> Table
        ensures { Searched way (lines_of draft.now) draft.now.houses (entry_in result) }
    {
        let mut table = Table { steps: [None; 48] };
        for distance in 0..draft.houses - 1 {
            table.round(draft, way, distance);
        }
        table
    }
}

impl Tables {
    // The search on both ways.
    pub(crate) fn search(draft: &Draft) -> Tables
        ensures { (way : Way) → Searched way (lines_of draft.now) draft.now.houses (entry_on result way) }
    {
        Tables {
            direct: Table::search(draft, Way::Direct),
            back: Table::search(draft, Way::Back),
        }
    }
}
