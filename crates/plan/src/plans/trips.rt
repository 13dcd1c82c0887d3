ghost use Rattle.plan.specs.Trips.{Reread, Rewritten};

use crate::plans::Plan;
use crate::plans::reader::plan_in;
use fault::Fault;

impl Plan {
    // Writes the plan into the buffer, reads it back from there and answers what came back: this plan. Refuses only a
    // buffer that is too short, and then writes nothing.
    pub fn reread(&self, buffer: &mut [u8]) -> Result<Plan, Fault>
        ensures { Reread self.now buffer.old result buffer.new }
    {
        let length = self.write(buffer)?;
        plan_in(&buffer[..length])
    }
}

// Reads a file into the place and writes it out again into the buffer, byte for byte; the rest of the buffer is
// untouched. A refusal leaves the place and the buffer as they were.
pub fn rewrite(file: &[u8], place: &mut Plan, buffer: &mut [u8]) -> Result<usize, Fault>
    ensures { Rewritten file.now place.old buffer.old result place.new buffer.new }
{
    let plan = plan_in(file)?;
    let length = plan.write(buffer)?;
    *place = plan;
    Ok(length)
}
