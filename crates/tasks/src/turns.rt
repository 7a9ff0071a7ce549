// Releases, turns, and the start of a new task.

ghost use Rattle.std.specs.Prelude.{◌≡◌, ◌<◌, length, Some};
ghost use Rattle.chain.specs.Lists.{first};
ghost use Rattle.rules.specs.Tables.{choose, fill, hand, link, release, stop, turn};
ghost use Rattle.tasks.specs.Parts.{Unplaced, as_task};

use crate::{Task, Tasks};

impl Tasks {
    // Task `t`, whose wait is over and which is nowhere, is suspended if it has a mark, and linked otherwise.
    pub fn release(&mut self, t: usize)
        requires { Unplaced t self.old }
        ensures { self.new ≡ release t self.old }
    {
        if self.task(t).mark {
            self.suspend(t);
        } else {
            self.link(t);
        }
    }

    // Task `t`, which waited for a message and is nowhere, gets it and is released.
    pub fn hand(&mut self, message: u16, t: usize)
        requires { Unplaced t self.old }
        ensures { self.new ≡ hand message t self.old }
    {
        self.give_word(t, message);
        self.release(t);
    }

    // The running task is linked, if there is one, and then one is chosen.
    pub fn turn(&mut self)
        ensures { self.new ≡ turn self.old }
    {
        if let Some(caller) = self.running() {
            self.stop();
            self.link(caller);
        }
        self.choose();
    }

    // The running task `caller` makes the first free record `k` a task: `caller` is linked, then `k`, and one is chosen.
    pub fn start_task(&mut self, caller: usize, k: usize, with: Task)
        requires running { self.old.running ≡ Some caller }
        requires free { first self.old.free ≡ Some k }
        ensures { self.new ≡ choose (link k (link caller (stop (fill k (as_task with) self.old)))) }
    {
        self.take_free();
        self.replace(k, with);
        self.stop();
        self.link(caller);
        self.link(k);
        self.choose();
    }
}
