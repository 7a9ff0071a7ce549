// The task that makes a call.

ghost use Rattle.std.specs.Prelude.{MatchResult};
ghost use Rattle.tables.specs.Caller.{Caller, NoCaller};

use crate::Tables;
use calls::Refusal;

impl Tables {
    // The running task, which is the caller of each call. None runs where all wait.
    pub fn caller(&self) -> Result<usize, Refusal>
        ensures { MatchResult result (Caller self.now) (NoCaller self.now) }
    {
        self.tasks.running().ok_or(Refusal::NoTask)
    }
}
