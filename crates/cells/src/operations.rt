// What can be done with the cells. What is the same at the clock and the units is the line's; here it has the name that the rules give
// it, and promises their definition, and that its room stays (see there).

ghost use Rattle.std.specs.Prelude.{◌≡◌, ◌<◌, false, not, IfOk};
ghost use Rattle.cells.specs.View.{cells, room};
ghost use Rattle.cells.specs.Ended.{EndedOne};
ghost use Rattle.chain.specs.Lists.{first, has};
ghost use Rattle.rules.specs.Mail.{join_cell, leave_first, none, put_word, tasks_at};
ghost use Rattle.rules.specs.Records.{leave_cells, waiters};
ghost use Rattle.rules.specs.State.{begin_cells, word_of};

use crate::{CellWait, Cells};
use line::Line;
use std::alloc::{AllocError, Global};

impl Cells {
    // All cells zero, and nobody of `n` tasks waits, or an error where memory is wanting.
    pub fn of(heap: Global, n: usize) -> Result<Cells, AllocError>
        ensures cells { IfOk result (λ x. cells x ≡ begin_cells) }
        ensures room { IfOk result (λ x. room x ≡ n) }
    {
        let line = Line::of(heap, n, CellWait { cell: 0 })?;
        Ok(Cells {
            words: [0; 256],
            line,
        })
    }

    // The word of a cell.
    pub fn word(&self, cell: u8) -> u16
        ensures { result ≡ word_of (cells self.now) cell }
    {
        let place = cell as usize;
        self.words[place]
    }

    // Puts a word into a cell.
    pub fn put_word(&mut self, cell: u8, word: u16)
        ensures cells { cells self.new ≡ put_word cell word (cells self.old) }
        ensures room { room self.new ≡ room self.old }
    {
        self.words[cell as usize] = word;
    }

    // Whether task `t` waits at a cell.
    pub fn is_waiting(&self, t: usize) -> bool
        ensures { result ≡ has t (waiters (cells self.now).waits) }
    {
        self.line.is_on(t)
    }

    // Whether any task waits at the cell.
    pub fn is_awaited(&self, cell: u8) -> bool
        ensures { result ≡ not (none (tasks_at cell (cells self.now).waits)) }
    {
        self.line.first_with(cell as usize).is_some()
    }

    // Task `t`, which waits at no cell, waits at the cell, as the last.
    pub fn join(&mut self, t: usize, cell: u8)
        requires within { t < room self.old }
        requires fresh { has t (waiters (cells self.old).waits) ≡ false }
        ensures cells { cells self.new ≡ join_cell t cell (cells self.old) }
        ensures room { room self.new ≡ room self.old }
    {
        self.line.join(t, CellWait { cell });
    }

    // Ends the longest wait at the cell, and gives its task.
    pub fn take_first_at(&mut self, cell: u8) -> Option<usize>
        ensures first { result ≡ first (tasks_at cell (cells self.old).waits) }
        ensures cells { cells self.new ≡ leave_first cell (cells self.old) }
        ensures laws { EndedOne cell result (cells self.old).waits (cells self.new).waits }
        ensures room { room self.new ≡ room self.old }
    {
        self.line.take_first_with(cell as usize)
    }

    // Ends the wait of task `t` at a cell, if it has one.
    pub fn leave(&mut self, t: usize)
        ensures cells { cells self.new ≡ leave_cells t (cells self.old) }
        ensures room { room self.new ≡ room self.old }
    {
        self.line.leave(t);
    }
}
