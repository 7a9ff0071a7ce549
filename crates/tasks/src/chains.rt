// What is done to the chains of a task table. Each method is one step of the rules under its own name; what the steps on two or
// three chains share is one operation of `Links`, and a chain as a parameter would say no more.

ghost use Rattle.std.specs.Prelude.{◌≡◌, ℕ, true, Some};
ghost use Rattle.chain.specs.Lists.{first, has};
ghost use Rattle.tasks.specs.Parts.{Unplaced};
ghost use Rattle.rules.specs.Tables.{choose, link, put_free, stop, suspend, take_free, take_out, unsuspend};

use crate::Tasks;

impl Tasks {
    // Task `t`, which is nowhere, goes into the ready chain, behind all of equal or higher rank.
    pub fn link(&mut self, t: usize)
        requires { Unplaced t self.old }
        ensures { self.new ≡ link t self.old }
    {
        self.links.link_by_rank(&mut self.ready, t);
    }

    // Task `t`, which is nowhere, goes to the head of the suspended chain.
    pub fn suspend(&mut self, t: usize)
        requires { Unplaced t self.old }
        ensures { self.new ≡ suspend t self.old }
    {
        self.links.put_first(&mut self.suspended, t);
    }

    // Record `t`, which is nowhere, goes to the head of the free chain.
    pub(crate) fn put_free(&mut self, t: usize)
        requires { Unplaced t self.old }
        ensures { self.new ≡ put_free t self.old }
    {
        self.links.put_first(&mut self.free, t);
    }

    // Task `t` leaves the ready chain, if it is there, and can be placed anew then.
    pub fn take_out(&mut self, t: usize)
        ensures table { self.new ≡ take_out t self.old }
        ensures left { has t self.old.ready ≡ true → Unplaced t self.new }
    {
        self.links.take_out(&mut self.ready, t);
    }

    // Task `t` leaves the suspended chain, if it is there, and can be placed anew then.
    pub fn unsuspend(&mut self, t: usize)
        ensures table { self.new ≡ unsuspend t self.old }
        ensures left { has t self.old.suspended ≡ true → Unplaced t self.new }
    {
        self.links.take_out(&mut self.suspended, t);
    }

    // The first free record leaves the free chain, and can be placed then.
    pub(crate) fn take_free(&mut self)
        ensures table { self.new ≡ take_free self.old }
        ensures left { (k : ℕ) → first self.old.free ≡ Some k → Unplaced k self.new }
    {
        let _ = self.links.take_first(&mut self.free);
    }

    // The first ready task runs; if none is ready, no task runs.
    pub fn choose(&mut self)
        ensures { self.new ≡ choose self.old }
    {
        self.running = self.links.take_first(&mut self.ready);
    }

    // The running task runs no longer, and can be placed then.
    pub fn stop(&mut self)
        ensures table { self.new ≡ stop self.old }
        ensures left { (t : ℕ) → self.old.running ≡ Some t → Unplaced t self.new }
    {
        self.running = None;
    }
}
