// What a line can do.

ghost use Rattle.std.specs.Prelude.{◌≡◌, ◌<◌, false, [], IfOk};
ghost use Rattle.chain.specs.Lists.{first, has, join as joinBy, rest};
ghost use Rattle.line.specs.View.{list, room, tasks};
ghost use Rattle.line.specs.Waits.{on_first, tasks_with, waiting, without_first_with, without_task};

use crate::{Keyed, Line, Waiting};
use chain::{Links, Ranked};
use std::alloc::{AllocError, Global};

impl<R: Copy> Line<R> {
    // A line on which none of `n` tasks is, or an error where memory is wanting.
    pub fn of(heap: Global, n: usize, blank: R) -> Result<Line<R>, AllocError>
        ensures list { IfOk result (λ x. ((none : R) → list none x ≡ [])) }
        ensures room { IfOk result (λ x. room x ≡ n) }
    {
        let links = Links::of(heap, n, blank)?;
        Ok(Line { links, head: None })
    }

    // The first task and its wait, if there is one.
    pub fn first(&self) -> Option<Waiting<R>>
        ensures { (none : R) → result ≡ first (list none self.now) }
    {
        let task = self.head?;
        Some(Waiting {
            task,
            wait: *self.links.record_at(task),
        })
    }
}

impl<R: Ranked + Drop> Line<R> {
    // Puts task `t`, which is not on the line, behind all whose waits rank with its wait or above.
    pub fn join(&mut self, t: usize, wait: R)
        requires within { t < room self.old }
        requires fresh { has t (tasks self.old) ≡ false }
        ensures list { (none : R) → list none self.new ≡ joinBy (λ w. R.Ranked.rank w.wait) (waiting t wait) (list none self.old) }
        ensures room { room self.new ≡ room self.old }
    {
        self.links.replace(t, wait);
        self.links.link_by_rank(&mut self.head, t);
    }
}

impl<R: Drop> Line<R> {
    // Puts another wait in the place of the first task's, if there is one.
    pub fn replace_first(&mut self, wait: R)
        ensures list { (none : R) → list none self.new ≡ on_first wait (list none self.old) }
        ensures room { room self.new ≡ room self.old }
    {
        if let Some(t) = self.head {
            self.links.replace(t, wait);
        }
    }
}

impl<R> Line<R> {
    // Whether task `t` is on the line.
    pub fn is_on(&self, t: usize) -> bool
        ensures { result ≡ has t (tasks self.now) }
    {
        self.links.is_on(self.head, t)
    }

    // Takes the first task off, and gives it.
    pub fn pop(&mut self) -> Option<usize>
        ensures first { result ≡ first (tasks self.old) }
        ensures list { (none : R) → list none self.new ≡ rest (list none self.old) }
        ensures room { room self.new ≡ room self.old }
    {
        self.links.take_first(&mut self.head)
    }

    // Takes task `t` out, if it is there.
    pub fn leave(&mut self, t: usize)
        ensures list { (none : R) → list none self.new ≡ without_task t (list none self.old) }
        ensures room { room self.new ≡ room self.old }
    {
        self.links.take_out(&mut self.head, t);
    }
}

impl<R: Keyed> Line<R> {
    // The first task whose wait has the key.
    pub fn first_with(&self, key: usize) -> Option<usize>
        ensures { (none : R) → result ≡ first (tasks_with R.Keyed.key key (list none self.now)) }
    {
        self.links
            .numbers(self.head)
            .find(|&t| self.links.record_at(t).key() == key)
    }

    // Takes out the first task whose wait has the key, and gives it.
    pub fn take_first_with(&mut self, key: usize) -> Option<usize>
        ensures first { (none : R) → result ≡ first (tasks_with R.Keyed.key key (list none self.old)) }
        ensures list { (none : R) → list none self.new ≡ without_first_with R.Keyed.key key (list none self.old) }
        ensures room { room self.new ≡ room self.old }
    {
        let t = self.first_with(key)?;
        self.leave(t);
        Some(t)
    }
}
