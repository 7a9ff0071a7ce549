// What can be read off a task table. Whether a task is on a chain is asked by the chain's name, as the rules do.

ghost use Rattle.std.specs.Prelude.{◌≡◌, ◌<◌, length};
ghost use Rattle.chain.specs.Lists.{first, has};
ghost use Rattle.rules.specs.State.{record_in};
ghost use Rattle.tasks.specs.Parts.{Placed, as_task};

use crate::{Task, Tasks};

impl Tasks {
    // The number of records. Of each table every record stands at one place of it at most, and nothing else stands there.
    pub fn count(&self) -> usize
        ensures told { result ≡ length self.now.tasks }
        ensures placed { Placed self.now }
    {
        self.links.len()
    }

    // The record with the number `t`.
    pub fn task(&self, t: usize) -> &Task
        requires { t < length self.now.tasks }
        ensures { as_task result.now ≡ record_in self.now t }
    {
        self.links.record_at(t)
    }

    // The task that runs, if one does.
    pub fn running(&self) -> Option<usize>
        ensures { result ≡ self.now.running }
    {
        self.running
    }

    // The first free record, if there is one.
    pub fn first_free(&self) -> Option<usize>
        ensures { result ≡ first self.now.free }
    {
        self.free
    }

    pub fn is_free(&self, t: usize) -> bool
        ensures { result ≡ has t self.now.free }
    {
        self.links.is_on(self.free, t)
    }

    pub fn is_ready(&self, t: usize) -> bool
        ensures { result ≡ has t self.now.ready }
    {
        self.links.is_on(self.ready, t)
    }

    pub fn is_suspended(&self, t: usize) -> bool
        ensures { result ≡ has t self.now.suspended }
    {
        self.links.is_on(self.suspended, t)
    }
}
