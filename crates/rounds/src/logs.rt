// What the calls of a row and their answers say of its readings and its round.
use carrier::Kind;
use pulse::{Answer, Call, Delivery};
use quantity::Reading;
use std::alloc::{AllocError, Global};

// A house's reading, and the one that it took in the latest round, once it was called.
#[derive(Clone, Copy)]
struct House {
    reading: Reading,
    taken: Option<Reading>,
}

// The houses, and of the latest round: the accepted loads and hand-overs, and the responses that came to a house before
// its request.
#[derive(Clone, Copy)]
pub struct Log {
    houses: [House; 48],
    pub loads: usize,
    pub hand_overs: usize,
    pub early: usize,
}

impl Log {
    pub fn new() -> Log {
        let house = House {
            reading: Reading::blank(),
            taken: None,
        };
        Log {
            houses: [house; 48],
            loads: 0,
            hand_overs: 0,
            early: 0,
        }
    }

    // What the houses took, in their order.
    pub fn taken(&self, heap: Global) -> Result<Vec<Reading>, AllocError> {
        self.houses
            .iter()
            .filter_map(|house| house.taken)
            .collect(heap)
    }

    fn take(&mut self, house: usize) {
        if let Some(house) = self.houses.get_mut(house) {
            house.taken = Some(house.reading);
        }
    }

    fn begin(&mut self) {
        for house in self.houses.iter_mut() {
            house.taken = None;
        }
        self.loads = 0;
        self.hand_overs = 0;
        self.early = 0;
        self.take(0);
    }

    fn hand_over(&mut self, delivery: Delivery) {
        self.hand_overs = self.hand_overs.saturating_add(1);
        match delivery.kind {
            Kind::Request => self.take(delivery.house),
            Kind::Response => {
                let house = self.houses.get(delivery.house);
                if house.is_some_and(|house| house.taken.is_none()) {
                    self.early = self.early.saturating_add(1);
                }
            }
        }
    }

    fn set(&mut self, house: usize, reading: Reading) {
        if let Some(house) = self.houses.get_mut(house) {
            house.reading = reading;
        }
    }

    // Notes an accepted call.
    pub fn note<F: Copy>(&mut self, call: Call, answer: Answer<F>) {
        match (call, answer) {
            (_, Answer::Begin(Ok(()))) => self.begin(),
            (_, Answer::Load(Ok(_))) => self.loads = self.loads.saturating_add(1),
            (_, Answer::HandOver(Ok(delivery))) => self.hand_over(delivery),
            (Call::Set(house, reading), Answer::Set(Ok(()))) => self.set(house, reading),
            _ => (),
        }
    }
}
