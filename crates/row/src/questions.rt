ghost use Rattle.std.specs.Prelude.{◌≡◌, ◌<◌, map, slice_index};
ghost use Rattle.pulse.specs.Rounds.{begin, call, counted, deliver, done, idle, receive, respond, settle, standing, waiting_for};
ghost use Rattle.pulse.specs.States.{first_round};
ghost use Rattle.pulse.specs.Steps.{next, rest, waits, with_waiting};

use crate::houses::House;
use crate::waiting::{NONE_WAITS, send, take_next, waits};
use carrier::Message;
use plan::Plan;
use pulse::{Round, Standing};
use quantity::{Quantity, Reading, Word};
use std::array;

// A question that is put to the row, with its round.
#[derive(Drop)]
pub(crate) struct Question<Q: Quantity> {
    pub(crate) round: Round<Q::Value, Word>,
}

// Whether the house was called and awaits no response.
pub(crate) fn is_done<V: Copy>(standing: Standing<V>) -> bool
    ensures { result ≡ done standing }
{
    standing.called && standing.awaited == 0
}

impl<Q: Quantity> Question<Q> {
    // A house that was not called, awaits so many responses and holds nothing.
    fn idle(awaited: u8) -> Standing<Q::Value>
        ensures { result ≡ idle Q.sense awaited }
    {
        Standing {
            called: false,
            awaited,
            holding: Q::nothing(),
        }
    }

    // The house idle, awaiting its counter; 0 where there is no such house.
    fn idle_at(plan: &Plan, house: usize) -> Standing<Q::Value>
        ensures { result ≡ idle Q.sense (slice_index plan.now.draft.counters house) }
    {
        Self::idle(plan.counter(house).unwrap_or(0))
    }

    // Every house idle.
    fn idle_houses(plan: &Plan) -> [Standing<Q::Value>; 48]
        ensures { result ≡ map (idle Q.sense) plan.now.draft.counters }
    {
        array::from_fn(|house| Self::idle_at(plan, house))
    }

    // No house was called, and nothing waits.
    pub(crate) fn new() -> Question<Q>
        ensures { result.round ≡ first_round Q.sense }
    {
        Question {
            round: Round {
                houses: [Self::idle(0); 48],
                waiting: [NONE_WAITS; 128],
                hand_overs: 0,
            },
        }
    }

    // A round begins: every house is idle, and then the head is called.
    pub(crate) fn begin(&mut self, plan: &Plan, reading: Reading)
        ensures { self.new.round ≡ begin Q.sense plan.now.draft reading self.old.round }
    {
        let head = House { number: 0, reading };
        self.round.houses = Self::idle_houses(plan);
        self.round.hand_overs = 0;
        self.call(plan, head);
    }

    // The house is called: it takes its reading, and a request waits for each direct line that leaves it.
    fn call(&mut self, plan: &Plan, house: House)
        ensures { self.new.round ≡ call Q.sense plan.now.draft house.number house.reading self.old.round }
    {
        let standing = &mut self.round.houses[house.number];
        standing.called = true;
        standing.holding = Q::join(standing.holding, Q::value(house.number, house.reading));
        send(
            plan.list(),
            house.number,
            Message::Request,
            &mut self.round.waiting,
        );
    }

    // The house moves its holding into a response that waits for its back line.
    fn respond(&mut self, plan: &Plan, house: House)
        ensures { self.new.round ≡ respond Q.sense plan.now.draft house.number self.old.round }
    {
        let standing = &mut self.round.houses[house.number];
        let word = Q::word(standing.holding);
        standing.holding = Q::nothing();
        send(
            plan.list(),
            house.number,
            Message::Response(word),
            &mut self.round.waiting,
        );
    }

    // The house answers, unless it is the head, as soon as it is called and awaits no response.
    fn settle(&mut self, plan: &Plan, house: House)
        ensures { self.new.round ≡ settle Q.sense plan.now.draft house.number self.old.round }
    {
        if house.number != 0 && is_done(self.round.houses[house.number]) {
            self.respond(plan, house);
        }
    }

    // The response joins the house's holding and lowers by one what it awaits; a word of no value counts as nothing.
    fn receive(&mut self, house: House, word: Word)
        ensures { self.new.round ≡ receive Q.sense house.number word self.old.round }
    {
        let standing = &mut self.round.houses[house.number];
        standing.awaited = standing.awaited.saturating_sub(1);
        standing.holding = Q::join(standing.holding, Q::back(word).unwrap_or(Q::nothing()));
    }

    // A message comes to the house: a request calls it, unless it was called; a response is received, if one is awaited.
    pub(crate) fn deliver(&mut self, plan: &Plan, house: House, message: Message<Word>)
        ensures { self.new.round ≡ deliver Q.sense plan.now.draft house.number house.reading message self.old.round }
    {
        let standing = self.round.houses[house.number];
        match message {
            Message::Request if !standing.called => {
                self.call(plan, house);
                self.settle(plan, house);
            }
            Message::Response(word) if standing.awaited > 0 => {
                self.receive(house, word);
                self.settle(plan, house);
            }
            _ => (),
        }
    }

    // The head's standing.
    pub(crate) fn head(&self) -> Standing<Q::Value>
        ensures { result ≡ standing Q.sense self.now.round 0 }
    {
        self.round.houses[0]
    }

    // Whether a message waits for the line.
    pub(crate) fn has_waiting(&self, line: usize) -> bool
        requires { line < 128 }
        ensures { result ≡ waits (waiting_for self.now.round line) }
    {
        let waiting = &self.round.waiting;
        waits(waiting[line])
    }

    // Takes the message that is loaded next from what waits for the line.
    pub(crate) fn take_next(&mut self, line: usize) -> Message<Word>
        requires { line < 128 }
        ensures value { result ≡ next (waiting_for self.old.round line) }
        ensures after { self.new.round ≡ with_waiting self.old.round line (rest (waiting_for self.old.round line)) }
    {
        take_next(&mut self.round.waiting[line])
    }

    // One more hand-over, up to the greatest number that the count can hold.
    pub(crate) fn count_hand_over(&mut self)
        ensures { self.new.round ≡ counted self.old.round }
    {
        self.round.hand_overs = self.round.hand_overs.saturating_add(1);
    }
}
