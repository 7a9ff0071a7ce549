// A task's record as the code holds it, ranked by its level.

ghost use Rattle.std.specs.Prelude.{nat_le};
ghost use Rattle.std.proofs.Common.{rules};

use buffer::Buffer;
use calls::{Outcome, TransferKind};
use chain::Ranked;

// The most bytes that a transfer moves.
pub const MOST_BYTES: usize = 80;

#[derive(Clone, Copy)]
pub struct Task {
    pub id: u8,
    pub level: u8,
    pub mark: bool,
    pub word: u16,
    pub start: u16,
    // what the latest transfer moves or has moved
    pub bytes: Buffer<MOST_BYTES>,
    // the latest transfer, if there was one
    pub kind: Option<TransferKind>,
    // how the latest transfer ended, if it has
    pub outcome: Option<Outcome>,
}

// Each kind owes the laws of its order itself (docs/DECISIONS.md), so those that rank by a number have an impl each.
impl Ranked for Task {
    ghost rank = { λ t. t.level };

    ghost above = { λ x y. nat_le x.level y.level };

    ghost total = { Prim.search rules };

    ghost transitive = { Prim.search rules };

    ghost ranks = { Prim.search rules };

    fn goes_behind(&self, other: &Task) -> bool {
        other.level <= self.level
    }
}
