// The task table: records on three chains of one table of links, and the running one.
// Each method does one thing that the rules do to a table, and promises the rule's own name for it. That a number is within the
// table is asked of each: how many records there are is settled at run time, so no type of a number can hold it.
#![tactic(auto)]

ghost use Rattle.rules.specs.State.{Table};
ghost use Rattle.tasks.specs.Parts.{Intact, table_of};

mod chains;
mod making;
mod others;
mod reads;
mod records;
mod task;
mod turns;

use chain::Links;
use std::marker::Model;
pub use task::{MOST_BYTES, Task};

#[derive(Drop)]
pub struct Tasks {
    links: Links<Task>,
    free: Option<usize>,
    ready: Option<usize>,
    suspended: Option<usize>,
    running: Option<usize>,
}

// A task table means a table of the rules.
impl Model for Tasks {
    ghost Value = { Table };

    ghost view = { λ x. table_of x.links x.free x.ready x.suspended x.running };

    ghost invariant = { λ x. Intact x.links x.free x.ready x.suspended x.running };
}
