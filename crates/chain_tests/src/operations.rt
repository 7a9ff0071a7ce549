// Numbers go from the free chain to the ready chain.

ghost use Rattle.chain.specs.Chains.{records};
ghost use Rattle.chain.specs.Lists.{first, rank_in, rest};
ghost use Rattle.chain_tests.specs.View.{free_of, joined, ready_of, table_of};
ghost use Rattle.std.specs.Prelude.{◌≡◌};

use crate::Desk;
use chain::Ranked;

impl<R: Ranked> Desk<R> {
    // Links the first free number by its rank, if there is one.
    pub fn start(&mut self) -> Option<usize>
        ensures first { result ≡ first (free_of self.old) }
        ensures rest { free_of self.new ≡ rest (free_of self.old) }
        ensures ready { ready_of self.new ≡ joined (rank_in R.Ranked.rank (records (table_of self.old))) result (ready_of self.old) }
        ensures records { records (table_of self.new) ≡ records (table_of self.old) }
    {
        let i = self.links.take_first(&mut self.free)?;
        self.links.link_by_rank(&mut self.ready, i);
        Some(i)
    }
}
