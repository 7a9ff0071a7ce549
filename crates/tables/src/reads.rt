// What can be read off the tables.

ghost use Rattle.std.specs.Prelude.{◌≡◌, List, length};
ghost use Rattle.tables.specs.Places.{IfRecord, place_in};
ghost use Rattle.tables.specs.View.{state};
ghost use Rattle.rules.specs.Rules.{bytes_read, outcome_text};
ghost use Rattle.rules.specs.State.{task_of, word_of};
ghost use Rattle.tasks.specs.Parts.{as_task};
ghost use Rattle.unit.specs.Medium.{Medium};

use crate::{Place, Tables};
use calls::TransferKind;
use tasks::Task;

impl Tables {
    // The number of records.
    pub fn count(&self) -> usize
        ensures { (us : List Medium) → result ≡ length (state us self.now).table.tasks }
    {
        self.tasks.count()
    }

    // The running task, if there is one.
    pub fn running(&self) -> Option<u8>
        ensures { (us : List Medium) → result ≡ (state us self.now).table.running }
    {
        self.tasks.running().map(|task| task as u8)
    }

    // The record `k`, if there is one.
    pub fn task(&self, k: usize) -> Option<&Task>
        ensures { (us : List Medium) → IfRecord (state us self.now) k result (λ t. as_task t.now ≡ task_of (state us self.now) k) }
    {
        (k < self.tasks.count()).then(|| self.tasks.task(k))
    }

    // Where the record `k` is, if there is one.
    pub fn place(&self, k: usize) -> Option<Place>
        ensures { (us : List Medium) → IfRecord (state us self.now) k result (λ p. p ≡ place_in (state us self.now) k) }
    {
        // Tried as `then` and as `then_some`: the proof did not close.
        if k < self.tasks.count() {
            Some(self.place_of(k))
        } else {
            None
        }
    }

    fn place_of(&self, k: usize) -> Place
        ensures { (us : List Medium) → result ≡ place_in (state us self.now) k }
    {
        if self.tasks.is_free(k) {
            Place::Free
        } else if self.tasks.running() == Some(k) {
            Place::Running
        } else if self.tasks.is_ready(k) {
            Place::Ready
        } else if self.tasks.is_suspended(k) {
            Place::Suspended
        } else if self.cells.is_waiting(k) {
            Place::AtCell
        } else if self.waits.is_sleeping(k) {
            Place::Delayed
        } else {
            Place::AtUnit
        }
    }

    // The word of a cell.
    pub fn cell(&self, cell: u8) -> u16
        ensures { (us : List Medium) → result ≡ word_of (state us self.now).cells cell }
    {
        self.cells.word(cell)
    }

    // The reading of the clock; 0 where there is none.
    pub fn reading(&self) -> u64
        ensures { (us : List Medium) → result ≡ (state us self.now).clock }
    {
        self.clock.unwrap_or(0)
    }

    // The bytes that the running task's latest transfer has read; none if that was a write, or if there was none.
    pub fn outcome_text(&self) -> &[u8]
        ensures { (us : List Medium) → result.now ≡ outcome_text (state us self.now) }
    {
        // Tried as `map_or`: the proof did not close.
        match self.tasks.running() {
            Some(task) => bytes_read(self.tasks.task(task)),
            None => &[],
        }
    }
}

// The bytes that a task's latest transfer has read.
fn bytes_read(task: &Task) -> &[u8]
    ensures { result.now ≡ bytes_read (as_task task.now).kind (as_task task.now).bytes }
{
    match task.kind {
        Some(TransferKind::Read | TransferKind::ReadLine) => task.bytes.as_slice(),
        Some(TransferKind::Write | TransferKind::WriteLine) | None => &[],
    }
}
