// What a call by id does to a task other than the running one. Each method is the rule of its name, and what they share are the
// steps that they call.

ghost use Rattle.std.specs.Prelude.{◌≡◌, ◌<◌, false, ◌≢◌, length, Some};
ghost use Rattle.chain.specs.Lists.{has};
ghost use Rattle.rules.specs.Tables.{kill_other, level_other, ready_other, suspend_other};

use crate::Tasks;

impl Tasks {
    // Task `k`, which is live, does not run and waits no more, leaves its chain; its record is cleared and freed.
    pub fn kill_other(&mut self, k: usize)
        requires within { k < length self.old.tasks }
        requires live { has k self.old.free ≡ false }
        requires other { self.old.running ≢ Some k }
        ensures { self.new ≡ kill_other k self.old }
    {
        self.take_out(k);
        self.unsuspend(k);
        self.clear(k);
    }

    // Task `k` gets a mark; a ready task is taken out and suspended.
    pub fn suspend_other(&mut self, k: usize)
        requires { k < length self.old.tasks }
        ensures { self.new ≡ suspend_other k self.old }
    {
        self.set_mark(k, true);
        if self.is_ready(k) {
            self.take_out(k);
            self.suspend(k);
        }
    }

    // Task `k` loses its mark; a suspended task is linked.
    pub fn ready_other(&mut self, k: usize)
        requires { k < length self.old.tasks }
        ensures { self.new ≡ ready_other k self.old }
    {
        self.set_mark(k, false);
        if self.is_suspended(k) {
            self.unsuspend(k);
            self.link(k);
        }
    }

    // Task `k` gets a level; a ready task is taken out and linked.
    pub fn level_other(&mut self, k: usize, level: u8)
        requires { k < length self.old.tasks }
        ensures { self.new ≡ level_other k level self.old }
    {
        self.set_level(k, level);
        if self.is_ready(k) {
            self.take_out(k);
            self.link(k);
        }
    }
}
