// New records, and a new table.

ghost use Rattle.std.specs.Prelude.{◌≡◌, ◌≤◌, IfOk};
ghost use Rattle.rules.specs.Records.{new_task};
ghost use Rattle.rules.specs.State.{begin_table};
ghost use Rattle.tasks.specs.Parts.{as_task};

use crate::{Task, Tasks};
use buffer::Buffer;
use chain::Links;
use std::alloc::{AllocError, Global};

impl Task {
    // A new task's record, which has made no transfer. With zeros it is a cleared record.
    pub fn new(id: u8, level: u8, start: u16, word: u16) -> Task
        ensures { as_task result ≡ new_task id level start word }
    {
        Task {
            id,
            level,
            mark: false,
            word,
            start,
            bytes: Buffer::new(),
            kind: None,
            outcome: None,
        }
    }
}

impl Tasks {
    // A table of `n` records: record 0 runs, and the others are free in rising order. An error where memory is wanting.
    pub fn of(heap: Global, n: usize) -> Result<Tasks, AllocError>
        requires { 1 ≤ n }
        ensures { IfOk result (λ x. x ≡ begin_table n) }
    {
        let mut links = Links::of(heap, n, Task::new(0, 0, 0, 0))?;
        let free = links.link_all_but_first();
        Ok(Tasks {
            links,
            free,
            ready: None,
            suspended: None,
            running: Some(0),
        })
    }
}
