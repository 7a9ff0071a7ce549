// The 256 cells: a word each, and one line of the tasks that wait at any of them, the one that has waited longest first.
#![tactic(auto)]

ghost use Rattle.std.specs.Prelude.{true};
ghost use Rattle.std.proofs.Common.{rules};

mod operations;

use chain::Ranked;
use line::{Keyed, Line};

// A wait at a cell. All rank alike, so that a new one goes behind all, and the first at a cell is found by its number.
#[derive(Clone, Copy)]
pub struct CellWait {
    pub cell: u8,
}

impl Ranked for CellWait {
    ghost rank = { λ _. 0 };

    ghost above = { λ _ _. true };

    ghost total = { Prim.search rules };

    ghost transitive = { Prim.search rules };

    ghost ranks = { Prim.search rules };

    fn goes_behind(&self, _other: &CellWait) -> bool {
        true
    }
}

impl Keyed for CellWait {
    ghost key = { λ w. w.cell };

    // `as` to a wider type loses nothing, here and in the methods of cells; with `from`, each proof about a place would have to name
    // the call.
    fn key(&self) -> usize {
        self.cell as usize
    }
}

#[derive(Drop)]
pub struct Cells {
    words: [u16; 256],
    line: Line<CellWait>,
}
