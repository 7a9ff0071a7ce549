// What can be done with the waits for due ticks. What is the same at the cells and the units is the line's; here it has the name that
// the rules give it, and promises their definition, and that its room stays (see there).

ghost use Rattle.std.specs.Prelude.{◌≡◌, ◌<◌, false, [], IfOk};
ghost use Rattle.chain.specs.Lists.{first, has};
ghost use Rattle.clock.specs.Due.{ReleasedOne, without_first_due};
ghost use Rattle.clock.specs.View.{room, sleeping};
ghost use Rattle.rules.specs.Clock.{due_at, join_clock};
ghost use Rattle.rules.specs.Records.{sleepers, without_sleeper};

use crate::{ClockWait, ClockWaits};
use line::Line;
use std::alloc::{AllocError, Global};

impl ClockWaits {
    // No waits yet, of `n` tasks, or an error where memory is wanting.
    pub fn of(heap: Global, n: usize) -> Result<ClockWaits, AllocError>
        ensures waits { IfOk result (λ x. sleeping x ≡ []) }
        ensures room { IfOk result (λ x. room x ≡ n) }
    {
        let line = Line::of(heap, n, ClockWait { due: 0 })?;
        Ok(ClockWaits { line })
    }

    // Whether task `t` waits for a due tick.
    pub fn is_sleeping(&self, t: usize) -> bool
        ensures { result ≡ has t (sleepers (sleeping self.now)) }
    {
        self.line.is_on(t)
    }

    // Task `t`, which does not wait, waits for a due tick.
    pub fn join(&mut self, t: usize, due: u64)
        requires within { t < room self.old }
        requires fresh { has t (sleepers (sleeping self.old)) ≡ false }
        ensures waits { sleeping self.new ≡ join_clock t due (sleeping self.old) }
        ensures room { room self.new ≡ room self.old }
    {
        self.line.join(t, ClockWait { due });
    }

    // Ends the first wait that is due at a reading of the clock, and gives its task.
    pub fn pop_due(&mut self, reading: u64) -> Option<usize>
        ensures first { result ≡ first (sleepers (due_at reading (sleeping self.old))) }
        ensures waits { sleeping self.new ≡ without_first_due reading (sleeping self.old) }
        ensures laws { ReleasedOne reading result (sleeping self.old) (sleeping self.new) }
        ensures room { room self.new ≡ room self.old }
    {
        let first = self.line.first()?;
        if first.wait.due > reading {
            return None;
        }
        self.line.pop()
    }

    // Ends the wait of task `t`, if it has one.
    pub fn leave(&mut self, t: usize)
        ensures waits { sleeping self.new ≡ without_sleeper t (sleeping self.old) }
        ensures room { room self.new ≡ room self.old }
    {
        self.line.leave(t);
    }
}
