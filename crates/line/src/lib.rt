// A line of waiting tasks: one chain of ranked records, where the record `t` is that of task `t`. Each line has a table of its own,
// since the waits of each are of another type or in another queue.
// It means the list of the tasks on it with their records, in order. Beside that it has room for so many tasks, which is settled
// at run time; a model would be a record of both, and every clause would name its part as it does now. Whoever
// joins is to be within the room, which a caller's task table tells, and not on the line, which each record's one place tells.
#![tactic(auto)]

ghost use Rattle.std.specs.Prelude.{◌≡◌, ℕ};
ghost use Rattle.chain.specs.Chains.{Ends, nexts};

mod operations;

use chain::Links;

// A task that waits, and what its wait is.
#[derive(Clone, Copy)]
pub struct Waiting<R> {
    pub task: usize,
    pub wait: R,
}

// A kind of record that has a key, by which the first of a line with the same key is found.
pub trait Keyed {
    // what the key means
    ghost key: { Self → ℕ };

    fn key(&self) -> usize
        ensures { result ≡ key self.now };
}

#[derive(Drop)]
pub struct Line<R> {
    links: Links<R>,
    head: Option<usize>,
    // the chain ends
    ghost ends: { Ends (nexts links) head },
}
