// What is done to the records of a task table, and the record that has an id.

ghost use Rattle.std.specs.Prelude.{◌≡◌, ◌<◌, not, ◌&&◌, length, ◌==◌};
ghost use Rattle.chain.specs.Lists.{has};
ghost use Rattle.rules.specs.State.{record_in, with_level, with_mark, with_word};
ghost use Rattle.rules.specs.Tables.{change, clear, lookup};
ghost use Rattle.tasks.specs.Parts.{Unplaced, as_task};

use crate::{Task, Tasks};

impl Tasks {
    // Puts another record in the place of that with the number `t`.
    pub fn replace(&mut self, t: usize, with: Task)
        requires { t < length self.old.tasks }
        ensures { self.new ≡ change t (λ _. as_task with) self.old }
    {
        self.links.replace(t, with);
    }

    // This and the next two put one field anew, each as the rule of its name does.
    pub fn give_word(&mut self, t: usize, word: u16)
        requires { t < length self.old.tasks }
        ensures { self.new ≡ change t (with_word word) self.old }
    {
        let task = *self.task(t);
        self.replace(t, Task { word, ..task });
    }

    pub fn set_level(&mut self, t: usize, level: u8)
        requires { t < length self.old.tasks }
        ensures { self.new ≡ change t (with_level level) self.old }
    {
        let task = *self.task(t);
        self.replace(t, Task { level, ..task });
    }

    pub fn set_mark(&mut self, t: usize, mark: bool)
        requires { t < length self.old.tasks }
        ensures { self.new ≡ change t (with_mark mark) self.old }
    {
        let task = *self.task(t);
        self.replace(t, Task { mark, ..task });
    }

    // Clears the record `t`, which is nowhere, and frees it.
    pub fn clear(&mut self, t: usize)
        requires { Unplaced t self.old }
        ensures { self.new ≡ clear t self.old }
    {
        self.replace(t, Task::new(0, 0, 0, 0));
        self.put_free(t);
    }

    // Whether the record `t` is that of a live task with the id.
    fn is_named(&self, t: usize, id: u8) -> bool
        requires { t < length self.now.tasks }
        ensures { result ≡ ((record_in self.now t).id == id && not (has t self.now.free)) }
    {
        self.task(t).id == id && !self.is_free(t)
    }

    // The live task with the id, if the id is not 0 and one has it.
    pub fn find(&self, id: u8) -> Option<usize>
        ensures { result ≡ lookup id self.now }
    {
        if id == 0 {
            return None;
        }
        // As `find` over the numbers it takes thirty lines of proof, and this `for` none.
        for k in 0..self.count() {
            if self.is_named(k, id) {
                return Some(k);
            }
        }
        None
    }
}
