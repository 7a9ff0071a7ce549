// What a host can read off a monitor. Each read is that of the tables, whose promise is for any units; here it is of the state with
// its own.

ghost use Rattle.std.specs.Prelude.{◌≡◌, ◌≤◌, length};
ghost use Rattle.tables.specs.Parts.{Standing};
ghost use Rattle.tables.specs.Places.{IfRecord, place_in};
ghost use Rattle.monitor.specs.View.{media};
ghost use Rattle.rules.specs.Rules.{outcome_text};
ghost use Rattle.rules.specs.Sound.{OnePlace};
ghost use Rattle.rules.specs.State.{task_of, word_of};
ghost use Rattle.tasks.specs.Parts.{as_task};

use crate::{Monitor, Units};
use tables::Place;
use tasks::Task;
use unit::Unit;

impl<A: Unit, B: Unit, C: Unit, D: Unit> Monitor<A, B, C, D> {
    // The number of task records, of which there are at most 64. What holds of every state that a run comes to holds of every monitor:
    // every record is at exactly one place, marks are as they may be, chains are sorted, and no ready task ranks above the running one.
    pub fn tasks(&self) -> usize
        ensures told { result ≡ length self.now.table.tasks }
        ensures few { length self.now.table.tasks ≤ 64 }
        ensures stands { ∥ Standing self.now ∥₁ }
    {
        self.tables.count()
    }

    // The running record, if a task runs.
    pub fn running(&self) -> Option<u8>
        ensures { result ≡ self.now.table.running }
    {
        self.tables.running()
    }

    // The record `k`, if there is one.
    pub fn task(&self, k: usize) -> Option<&Task>
        ensures { IfRecord self.now k result (λ t. as_task t.now ≡ task_of self.now k) }
    {
        self.tables.task(k)
    }

    // Where the record `k` is, if there is one. Every record of every monitor is at exactly one place.
    pub fn place(&self, k: usize) -> Option<Place>
        ensures told { IfRecord self.now k result (λ p. p ≡ place_in self.now k) }
        ensures once { OnePlace self.now }
    {
        self.tables.place(k)
    }

    // The word of a cell.
    pub fn cell(&self, cell: u8) -> u16
        ensures { result ≡ word_of self.now.cells cell }
    {
        self.tables.cell(cell)
    }

    // The reading of the clock.
    pub fn clock(&self) -> u64
        ensures { result ≡ self.now.clock }
    {
        self.tables.reading()
    }

    // The bytes that the running task's latest transfer has read, which stand behind its outcome.
    pub fn outcome_text(&self) -> &[u8]
        ensures { result.now ≡ outcome_text self.now }
    {
        self.tables.outcome_text()
    }

    // The units.
    pub fn units(&self) -> &Units<A, B, C, D>
        ensures { media A.Unit B.Unit C.Unit D.Unit result.now ≡ self.now.units }
    {
        &self.units
    }
}
