// What can be done with a unit's queue. What is the same at the clock and the cells is the line's; here it has the name that the rules
// give it, and promises their definition, and that its room stays (see there).

ghost use Rattle.std.specs.Prelude.{◌≡◌, ◌<◌, false, [], IfOk, Some};
ghost use Rattle.chain.specs.Lists.{first, has, rest};
ghost use Rattle.queues.specs.View.{advanced, as_request, requests, room};
ghost use Rattle.rules.specs.Records.{askers};
ghost use Rattle.rules.specs.State.{Request};
ghost use Rattle.rules.specs.Transfers.{enqueue};
ghost use Rattle.std.specs.Option.{option_map};

use crate::{Queue, UnitRequest};
use line::{Line, Waiting};
use std::alloc::{AllocError, Global};

impl Queue {
    // No requests yet, of `n` tasks, or an error where memory is wanting.
    pub fn of(heap: Global, n: usize) -> Result<Queue, AllocError>
        ensures requests { IfOk result (λ x. requests x ≡ []) }
        ensures room { IfOk result (λ x. room x ≡ n) }
    {
        let line = Line::of(heap, n, UnitRequest { size: 0, moved: 0 })?;
        Ok(Queue { line })
    }

    // Whether task `t` waits at the unit.
    pub fn is_asking(&self, t: usize) -> bool
        ensures { result ≡ has t (askers (requests self.now)) }
    {
        self.line.is_on(t)
    }

    // Task `t`, which does not wait here, asks for a transfer of at most `size` bytes.
    pub fn join(&mut self, t: usize, size: u8)
        requires within { t < room self.old }
        requires fresh { has t (askers (requests self.old)) ≡ false }
        ensures requests { requests self.new ≡ enqueue (record { task = t; size = size; moved = 0 }) (requests self.old) }
        ensures room { room self.new ≡ room self.old }
    {
        self.line.join(t, UnitRequest { size, moved: 0 });
    }

    // The first task and its request, if there is one.
    pub fn first(&self) -> Option<Waiting<UnitRequest>>
        ensures { option_map as_request result ≡ first (requests self.now) }
    {
        self.line.first()
    }

    // Ends the first request, and gives its task.
    pub fn pop(&mut self) -> Option<usize>
        ensures first { result ≡ first (askers (requests self.old)) }
        ensures requests { requests self.new ≡ rest (requests self.old) }
        ensures room { room self.new ≡ room self.old }
    {
        self.line.pop()
    }

    // One more byte of the first request is moved, of which some were still to be moved.
    pub fn advance(&mut self)
        requires { (r : Request) → first (requests self.old) ≡ Some r → r.moved < r.size }
        ensures requests { requests self.new ≡ advanced (requests self.old) }
        ensures room { room self.new ≡ room self.old }
    {
        if let Some(first) = self.line.first() {
            let moved = first.wait.moved + 1;
            self.line.replace_first(UnitRequest {
                moved,
                ..first.wait
            });
        }
    }
}
