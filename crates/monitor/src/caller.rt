// What the running task does to itself, and the new task that it makes.

ghost use Rattle.calls.specs.declared.call.Call.TheVariants.{Create, Kill, Look, SetLevel, Suspend};
ghost use Rattle.monitor.specs.Promises.{Made};

use crate::Monitor;
use calls::{LookedAt, Refusal};
use unit::Unit;

impl<A: Unit, B: Unit, C: Unit, D: Unit> Monitor<A, B, C, D> {
    // Makes a task; level 0 stands for the caller's level. The answer is its record's number.
    pub fn create(&mut self, id: u8, level: u8, start: u16, message: u16) -> Result<u16, Refusal>
        ensures { Made (Create id level start message) self.old self.new result }
    {
        own::create(&mut self.tables, id, level, start, message)
    }

    // Kills the running task.
    pub fn kill(&mut self) -> Result<u16, Refusal>
        ensures { Made Kill self.old self.new result }
    {
        own::kill(&mut self.tables)
    }

    // Suspends the running task.
    pub fn suspend(&mut self) -> Result<u16, Refusal>
        ensures { Made Suspend self.old self.new result }
    {
        own::suspend(&mut self.tables)
    }

    // Gives the running task a level; 0 stands for 1.
    pub fn set_level(&mut self, level: u8) -> Result<u16, Refusal>
        ensures { Made (SetLevel level) self.old self.new result }
    {
        own::set_level(&mut self.tables, level)
    }

    // Tells a field of the running task's record.
    pub fn look(&mut self, at: LookedAt) -> Result<u16, Refusal>
        ensures { Made (Look at) self.old self.new result }
    {
        own::look(&self.tables, at)
    }
}
