// A unit's queue: a line of tasks with their requests, the one that has waited longest first.
#![tactic(auto)]

ghost use Rattle.std.specs.Prelude.{true};
ghost use Rattle.std.proofs.Common.{rules};

mod four;
mod number;
mod operations;
mod units;

use chain::Ranked;
pub use four::Queues;
use line::Line;
pub use number::UnitNumber;

// A request to move at most `size` bytes, of which `moved` are moved. All rank alike, so that a new one goes behind all.
#[derive(Clone, Copy)]
pub struct UnitRequest {
    pub size: u8,
    pub moved: u8,
}

impl Ranked for UnitRequest {
    ghost rank = { λ _. 0 };

    ghost above = { λ _ _. true };

    ghost total = { Prim.search rules };

    ghost transitive = { Prim.search rules };

    ghost ranks = { Prim.search rules };

    fn goes_behind(&self, _other: &UnitRequest) -> bool {
        true
    }
}

#[derive(Drop)]
pub struct Queue {
    line: Line<UnitRequest>,
}
