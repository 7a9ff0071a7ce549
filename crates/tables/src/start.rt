// The tables at the start of a monitor.

ghost use Rattle.std.specs.Prelude.{◌≡◌, ◌≤◌, List, IfOk};
ghost use Rattle.tables.specs.Promises.{RoomFor};
ghost use Rattle.tables.specs.View.{state};
ghost use Rattle.rules.specs.State.{begin};
ghost use Rattle.unit.specs.Medium.{Medium};

use crate::Tables;
use cells::Cells;
use clock::ClockWaits;
use queues::Queues;
use std::alloc::{AllocError, Global};
use tasks::Tasks;

impl Tables {
    // Record 0 runs and the others of `n` records are free in rising order; nobody waits, the cells are zero, and the clock,
    // if there is one, reads 0. An error where memory is wanting.
    pub fn of(heap: Global, n: usize, timed: bool) -> Result<Tables, AllocError>
        requires some { 1 ≤ n }
        requires few { n ≤ 64 }
        ensures begins { IfOk result (λ x. ((us : List Medium) → state us x ≡ begin n timed us)) }
        ensures room { IfOk result (RoomFor n) }
    {
        let tasks = Tasks::of(heap, n)?;
        let waits = ClockWaits::of(heap, n)?;
        let cells = Cells::of(heap, n)?;
        let queues = Queues::of(heap, n)?;
        Ok(Tables {
            tasks,
            waits,
            cells,
            queues,
            clock: timed.then_some(0),
        })
    }
}
