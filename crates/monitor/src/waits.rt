// Messages and the clock: sends, waits, delays and ticks.

ghost use Rattle.calls.specs.declared.call.Call.TheVariants.{Delay, Send, Tick, Wait};
ghost use Rattle.monitor.specs.Promises.{Made};

use crate::Monitor;
use calls::Refusal;
use unit::Unit;

impl<A: Unit, B: Unit, C: Unit, D: Unit> Monitor<A, B, C, D> {
    // Sends a message to a cell; a running task that stays waits until it is taken.
    pub fn send(&mut self, cell: u8, message: u16, stay: bool) -> Result<u16, Refusal>
        ensures { Made (Send cell message stay) self.old self.new result }
    {
        waiting::send(&mut self.tables, cell, message, stay)
    }

    // Takes the message of a cell, or waits for one.
    pub fn wait(&mut self, cell: u8) -> Result<u16, Refusal>
        ensures { Made (Wait cell) self.old self.new result }
    {
        waiting::wait(&mut self.tables, cell)
    }

    // Has the running task wait for some ticks.
    pub fn delay(&mut self, ticks: u16) -> Result<u16, Refusal>
        ensures { Made (Delay ticks) self.old self.new result }
    {
        waiting::delay(&mut self.tables, ticks)
    }

    // The clock goes up by one. The answer is the number of waits that end.
    pub fn tick(&mut self) -> Result<u16, Refusal>
        ensures { Made Tick self.old self.new result }
    {
        waiting::tick(&mut self.tables)
    }
}
