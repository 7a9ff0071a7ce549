// The tables of the monitor: the task table, the waits at the clock, at the cells and at the units, and the clock. They mean
// a state of the rules, whatever the units are. The units stand beside the tables, so the tables alone are no model of a state: each
// promise here is for any units. Each call of the monitor is a function over them and no method, so that it
// can stand in a crate of its own.
#![tactic(auto)]

ghost use Rattle.tables.specs.Parts.{StandsOf};

mod caller;
mod place;
mod reads;
mod start;

use cells::Cells;
use clock::ClockWaits;
pub use place::Place;
use queues::Queues;
use tasks::Tasks;

#[derive(Drop)]
pub struct Tables {
    pub tasks: Tasks,
    pub waits: ClockWaits,
    pub cells: Cells,
    pub queues: Queues,
    // the reading of the clock, if there is a clock
    pub clock: Option<u64>,
    // every record is at exactly one place, marks are as they may be, chains are sorted, and no ready task ranks above the
    // running one
    ghost stands: { StandsOf tasks waits cells queues clock },
}
