// What a caller of `chain` looks like, and tests of chains on three kinds of record.
#![tactic(auto)]

ghost use Rattle.chain.specs.Chains.{Ends, chain, nexts};
ghost use Rattle.chain.specs.Lists.{count};
ghost use Rattle.std.specs.Prelude.{◌≡◌, ℕ, ◌+◌, ◌≤◌};

mod operations;
#[cfg(test)]
mod tests;

use chain::Links;

// A desk with two chains in one table: the numbers that are free, and those that are ready.
pub struct Desk<R> {
    links: Links<R>,
    free: Option<usize>,
    ready: Option<usize>,
    ghost frees: { Ends (nexts links) free },
    ghost readies: { Ends (nexts links) ready },
    ghost spread: { ((k : ℕ) → count k (chain (nexts links) free) + count k (chain (nexts links) ready) ≤ 1) },
}
