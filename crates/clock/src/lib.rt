// The waits for due ticks: a line of tasks, the earliest due tick first, and among equals the one that joined first.
#![tactic(auto)]

ghost use Rattle.chain.specs.Lists.{sorted};
ghost use Rattle.clock.specs.Waits.{waits_of};
ghost use Rattle.std.specs.Prelude.{◌≡◌, true, nat_le};
ghost use Rattle.std.proofs.Common.{rules};

mod operations;

use chain::Ranked;
use line::Line;

// A wait until the clock reads the due tick. The earlier ranks above.
#[derive(Clone, Copy)]
pub struct ClockWait {
    pub due: u64,
}

// Each kind owes the laws of its order itself (docs/DECISIONS.md), so those that rank by a number have an impl each.
impl Ranked for ClockWait {
    ghost rank = { λ w. w.due };

    ghost above = { λ x y. nat_le x.due y.due };

    ghost total = { Prim.search rules };

    ghost transitive = { Prim.search rules };

    ghost ranks = { Prim.search rules };

    fn goes_behind(&self, other: &ClockWait) -> bool {
        other.due <= self.due
    }
}

#[derive(Drop)]
pub struct ClockWaits {
    line: Line<ClockWait>,
    // the waits stand by due tick
    ghost sorted: { sorted (λ w. w.due) (waits_of line) ≡ true },
}
