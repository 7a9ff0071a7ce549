// Calls on the task that has an id.

ghost use Rattle.calls.specs.declared.call.ByIdCall.TheVariants as by;
ghost use Rattle.calls.specs.declared.call.Call.TheVariants.{ById};
ghost use Rattle.monitor.specs.Promises.{Made};

use crate::Monitor;
use calls::{ByIdCall, Refusal};
use unit::Unit;

impl<A: Unit, B: Unit, C: Unit, D: Unit> Monitor<A, B, C, D> {
    // Makes a call on the task with the id.
    pub fn by_id(&mut self, id: u8, call: ByIdCall) -> Result<u16, Refusal>
        ensures { Made (ById id call) self.old self.new result }
    {
        by_id::by_id(&mut self.tables, id, call)
    }

    // Kills the task with the id, unless it waits at a unit.
    pub fn kill_id(&mut self, id: u8) -> Result<u16, Refusal>
        ensures { Made (ById id by.Kill) self.old self.new result }
    {
        by_id::kill_id(&mut self.tables, id)
    }

    // Takes the mark from the task with the id.
    pub fn ready_id(&mut self, id: u8) -> Result<u16, Refusal>
        ensures { Made (ById id by.Ready) self.old self.new result }
    {
        by_id::ready_id(&mut self.tables, id)
    }

    // Marks the task with the id.
    pub fn suspend_id(&mut self, id: u8) -> Result<u16, Refusal>
        ensures { Made (ById id by.Suspend) self.old self.new result }
    {
        by_id::suspend_id(&mut self.tables, id)
    }

    // Gives the task with the id a level; 0 stands for 1.
    pub fn set_level_id(&mut self, id: u8, level: u8) -> Result<u16, Refusal>
        ensures { Made (ById id (by.SetLevel level)) self.old self.new result }
    {
        by_id::set_level_id(&mut self.tables, id, level)
    }

    // Tells whether the task with the id waits, and for what, and whether it has the mark.
    pub fn status_id(&mut self, id: u8) -> Result<u16, Refusal>
        ensures { Made (ById id by.Status) self.old self.new result }
    {
        by_id::status_id(&self.tables, id)
    }
}
