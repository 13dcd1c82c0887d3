use carrier::{Carrier, Radio, Wire};
use plan::Plan;

// A carrier that can be made for a plan, and its name.
pub trait Make: Carrier {
    const NAME: &'static str;

    fn made(plan: &Plan) -> Self;
}

impl Make for Wire {
    const NAME: &'static str = "wire";

    fn made(plan: &Plan) -> Wire {
        Wire::new(plan)
    }
}

impl Make for Radio {
    const NAME: &'static str = "radio";

    fn made(plan: &Plan) -> Radio {
        Radio::new(plan)
    }
}
